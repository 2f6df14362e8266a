//! What `deal` makes of each record of a batch.
ghost use Rattle.std.specs.Prelude.{◌≡◌, ◌++◌, ◌<◌, IfOk, OnOk};
ghost use Rattle.flp_report.specs.Record.{record_of, shape_of};
ghost use Rattle.flp_party.specs.Share.{own_in, public_in, dealt_record};

use crate::Memory;
use flp_batch::Judge;
use flp_report::{Record, Shape};
use std::alloc::AllocError;

/// Appends the joint and the query words of one proof of a record.
fn push_own(line: &mut Vec<u8>, given: &Record, proof: u32) -> Result<(), Memory>
    requires { proof < (shape_of given.now).proofs }
    ensures { OnOk result (line.new.items ≡ line.old.items ++ own_in (shape_of given.now) (record_of given.now) proof) }
{
    line.extend_from_slice(given.joint(proof))?;
    line.extend_from_slice(given.query(proof))?;
    Ok(())
}

/// Appends the joint and the query words of all proofs of a record.
fn push_public(line: &mut Vec<u8>, given: &Record, proofs: u32) -> Result<(), Memory>
    requires { proofs ≡ (shape_of given.now).proofs }
    ensures { OnOk result (line.new.items ≡ line.old.items ++ public_in (shape_of given.now) (record_of given.now)) }
{
    for proof in 0..proofs {
        push_own(line, given, proof)?;
    }
    Ok(())
}

/// Appends what a party gets of a record.
fn push_dealt(line: &mut Vec<u8>, given: &Record, party: u32, proofs: u32) -> Result<(), Memory>
    requires share { party < (shape_of given.now).shares }
    requires proofs { proofs ≡ (shape_of given.now).proofs }
    ensures { OnOk result (line.new.items ≡ line.old.items ++ dealt_record party (shape_of given.now) (record_of given.now)) }
{
    line.extend_from_slice(given.nonce())?;
    line.extend_from_slice(given.share(party))?;
    push_public(line, given, proofs)
}

/// Makes of each record what one party gets of it, whatever the records before.
#[derive(Drop)]
pub(crate) struct Dealing {
    shape: Shape,
    party: u32,
    ghost own_share: { party < shape.shares },
}

impl Dealing {
    ghost use Rattle.flp_party.specs.Dealing.{shape_dealt, party_dealt};

    /// For records of this shape, and the party of this number.
    pub(crate) fn new(shape: Shape, party: u32) -> Dealing
        requires { party < shape.shares }
        ensures shape { shape_dealt result ≡ shape }
        ensures party { party_dealt result ≡ party }
    {
        Dealing { shape, party }
    }
}

impl Judge for Dealing {
    ghost use Rattle.std.specs.Prelude.{⊤};
    ghost use Rattle.flp_party.specs.Dealing.{shape_dealt, party_dealt, words_dealt};

    ghost record_shape = { shape_dealt };

    ghost wording = { λ d. words_dealt (party_dealt d) (shape_dealt d) };

    ghost follows = { λ _ _. ⊤ };

    ghost count = { λ _. 0 };

    fn judge(&mut self, given: &Record, line: &mut Vec<u8>) -> Result<(), AllocError> {
        line.clear();
        push_dealt(line, given, self.party, self.shape.proofs)
    }

    fn end(&self, ending: &mut Vec<u8>) -> Result<(), AllocError> {
        ending.clear();
        Ok(())
    }
}
