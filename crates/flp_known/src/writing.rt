//! Lines that are written through a block.
ghost use Rattle.std.specs.Prelude.{◌≡◌, ◌++◌, length, codes};
ghost use Rattle.flp_known.specs.Claims.{claim_line};
ghost use Rattle.flp_known.specs.Puts.{Puts};

use flp_io::{Block, Failed, Sink};

/// Puts one piece.
pub fn put_piece<K: Sink>(block: &mut Block, sink: &mut K, piece: &[u8]) -> Result<(), Failed>
    requires { K.ready sink.old }
    ensures { Puts K.taken K.faults K.ready sink.old sink.new block.old block.new piece.now result }
{
    block.push(sink, piece)
}

/// Puts a line: what it tells, and what it says.
pub fn put_line<K: Sink>(
    block: &mut Block,
    sink: &mut K,
    name: &[u8],
    said: &[u8],
) -> Result<(), Failed>
    requires { K.ready sink.old }
    ensures { Puts K.taken K.faults K.ready sink.old sink.new block.old block.new (name.now ++ (said.now ++ codes "\n")) result }
{
    put_piece(block, sink, name)?;
    put_piece(block, sink, said)?;
    put_piece(block, sink, b"\n")
}

/// Puts the line of a claim, a nonce of 16 bytes.
pub(crate) fn put_claim<K: Sink>(
    block: &mut Block,
    sink: &mut K,
    nonce: &[u8],
) -> Result<(), Failed>
    requires ready { K.ready sink.old }
    requires nonce { length nonce.now ≡ 16 }
    ensures { Puts K.taken K.faults K.ready sink.old sink.new block.old block.new (claim_line nonce.now) result }
{
    let mut digits = [0; 32];
    hex::encode_to_slice(nonce, &mut digits).unwrap();
    put_line(block, sink, b"claim ", &digits)
}
