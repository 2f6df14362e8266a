//! What follows the lines of the records, line by line through a block.
ghost use Rattle.std.specs.Prelude.{◌++◌, decimal, codes};
ghost use Rattle.flp_known.specs.Known.{known_in};
ghost use Rattle.flp_known.specs.Puts.{Puts};
ghost use Rattle.flp_verdict.specs.Text.{spaced};
ghost use Rattle.flp_verdict.specs.Release.{release_line, claims_out, ending_by};
ghost use Rattle.flp_verify.specs.Counted.{withheld_by};

use crate::counted::End;
use flp_field::Fe;
use flp_io::{Block, Failed, Sink};
use flp_known::{Known, put_line, put_piece};
use flp_verdict::put_spaced;

/// What follows the lines of the records of a batch: how many are accepted, how its release ended, the sums of the outs of these,
/// and whether what is known is told as claims.
#[derive(Clone, Copy)]
pub(crate) struct Ending<'a> {
    pub accepted: u32,
    pub end: End,
    pub aggregate: &'a [Fe],
    pub claims: bool,
    pub known: &'a Known,
}

/// Puts a line that says a number.
fn put_number_line<K: Sink>(
    block: &mut Block,
    sink: &mut K,
    name: &[u8],
    number: u32,
) -> Result<(), Failed>
    requires { K.ready sink.old }
    ensures { Puts K.taken K.faults K.ready sink.old sink.new block.old block.new (name.now ++ (decimal number ++ codes "\n")) result }
{
    let mut digits = itoa::Buffer::new();
    put_line(block, sink, name, digits.format(number).as_bytes())
}

/// Puts the line of the aggregate.
fn put_aggregate<K: Sink>(block: &mut Block, sink: &mut K, aggregate: &[Fe]) -> Result<(), Failed>
    requires { K.ready sink.old }
    ensures { Puts K.taken K.faults K.ready sink.old sink.new block.old block.new (codes "aggregate" ++ (spaced aggregate.now ++ codes "\n")) result }
{
    put_piece(block, sink, b"aggregate")?;
    put_spaced(block, sink, aggregate)?;
    put_piece(block, sink, b"\n")
}

/// Puts the line of the aggregate, or of the policy that withholds it.
fn put_release<K: Sink>(
    block: &mut Block,
    sink: &mut K,
    end: End,
    aggregate: &[Fe],
) -> Result<(), Failed>
    requires { K.ready sink.old }
    ensures { Puts K.taken K.faults K.ready sink.old sink.new block.old block.new (release_line (withheld_by end) aggregate.now) result }
{
    match end {
        End::Released => put_aggregate(block, sink, aggregate),
        End::Withheld(policy) => put_number_line(block, sink, b"withheld ", policy),
    }
}

/// Puts the lines of claims where they are asked for.
fn put_claims_out<K: Sink>(
    block: &mut Block,
    sink: &mut K,
    claims: bool,
    known: &Known,
) -> Result<(), Failed>
    requires { K.ready sink.old }
    ensures { Puts K.taken K.faults K.ready sink.old sink.new block.old block.new (claims_out claims (known_in known.now)) result }
{
    if claims {
        known.put_claims(block, sink)
    } else {
        put_piece(block, sink, b"")
    }
}

/// Puts all that follows the lines of the records: how many are accepted, the line of the aggregate or of the policy that
/// withholds it, and the claims where they are asked for.
pub(crate) fn put_ending<K: Sink>(
    block: &mut Block,
    sink: &mut K,
    ending: &Ending<'_>,
) -> Result<(), Failed>
    requires { K.ready sink.old }
    ensures { Puts K.taken K.faults K.ready sink.old sink.new block.old block.new
        (ending_by ending.now.accepted (withheld_by ending.now.end) ending.now.aggregate.now ending.now.claims (known_in ending.now.known.now)) result }
{
    put_number_line(block, sink, b"count ", ending.accepted)?;
    put_release(block, sink, ending.end, ending.aggregate)?;
    put_claims_out(block, sink, ending.claims, ending.known)
}
