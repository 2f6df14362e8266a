//! The nonces of records, behind old claims that are lent.
ghost use Rattle.std.specs.Prelude.{◌≡◌, [], false, not, length, IfOk, OnOk, OnErr};
ghost use Rattle.flp_report.specs.Nonces.{nonces_in};
ghost use Rattle.flp_known.specs.Among.{is_among, any_among};
ghost use Rattle.flp_known.specs.Order.{with_nonce, with_nonces};
ghost use Rattle.flp_known.specs.Claims.{claim_lines};
ghost use Rattle.flp_known.specs.Puts.{Puts};

use crate::Memory;
use crate::claims::{first_not_below, is_claim, put_claims_within};
use crate::writing::put_claim;
use flp_io::{Block, Failed, Sink};
use flp_report::Nonces;
use std::alloc::Global;
use std::collections::BTreeSet;

/// The nonces of the records that were met, but for those that are old claims.
#[derive(Drop)]
pub struct Met {
    nonces: BTreeSet<[u8; 16]>,
}

/// A nonce of 16 bytes as an array.
fn array_of(nonce: &[u8]) -> [u8; 16]
    requires { length nonce.now ≡ 16 }
    ensures { result ≡ nonce.now }
{
    let mut bytes = [0; 16];
    bytes.copy_from_slice(nonce);
    bytes
}

impl Met {
    ghost use Rattle.flp_known.specs.Met.{met_in};

    /// Before the first record.
    pub fn new(alloc: Global) -> Met
        ensures { met_in result ≡ [] }
    {
        Met {
            nonces: BTreeSet::new(alloc),
        }
    }

    /// Adds a nonce of 16 bytes, behind these old claims, and answers whether it was new: neither an old claim nor met
    /// before.
    ///
    /// The error is want of memory, which is taken for a new nonce alone.
    pub fn add(&mut self, claims: &Nonces, nonce: &[u8]) -> Result<bool, Memory>
        requires { length nonce.now ≡ 16 }
        ensures new { IfOk result (λ new. new ≡ not (is_among (with_nonces (nonces_in claims.now) (met_in self.old)) nonce.now)) }
        ensures added { OnOk result (with_nonces (nonces_in claims.now) (met_in self.new)
            ≡ with_nonce (with_nonces (nonces_in claims.now) (met_in self.old)) nonce.now) }
        ensures kept { OnErr result (met_in self.new ≡ met_in self.old) }
        ensures apart { any_among (nonces_in claims.now) (met_in self.old) ≡ false → any_among (nonces_in claims.now) (met_in self.new) ≡ false }
    {
        flp_report::laws::held_parts();
        if is_claim(claims, nonce) {
            return Ok(false);
        }
        Ok(self.nonces.insert(array_of(nonce))?)
    }

    /// Puts a line for each nonce that is known behind these old claims, none of which was met, in their order.
    pub(crate) fn put_claims<K: Sink>(
        &self,
        claims: &Nonces,
        block: &mut Block,
        sink: &mut K,
    ) -> Result<(), Failed>
        requires ready { K.ready sink.old }
        requires apart { any_among (nonces_in claims.now) (met_in self.now) ≡ false }
        ensures { Puts K.taken K.faults K.ready sink.old sink.new block.old block.new (claim_lines (with_nonces (nonces_in claims.now) (met_in self.now))) result }
    {
        flp_report::laws::held_parts();
        let mut next = 0;
        for nonce in &self.nonces {
            let end = first_not_below(claims, next, nonce);
            put_claims_within(block, sink, claims, next, end)?;
            put_claim(block, sink, nonce)?;
            next = end;
        }
        put_claims_within(block, sink, claims, next, claims.len())
    }
}
