//! Pieces of lines, each put through a block.
ghost use Rattle.std.specs.Prelude.{◌≡◌, ◌++◌, length, decimal, codes};
ghost use Rattle.flp_known.specs.Puts.{Puts};
ghost use Rattle.flp_verdict.specs.Text.{line_head, spaced};

use flp_field::Fe;
use flp_io::{Block, Failed, Sink};
use flp_known::put_piece;

/// Puts a number in decimal digits.
pub fn put_number<K: Sink>(block: &mut Block, sink: &mut K, number: u64) -> Result<(), Failed>
    requires { K.ready sink.old }
    ensures { Puts K.taken K.faults K.ready sink.old sink.new block.old block.new (decimal number) result }
{
    let mut digits = itoa::Buffer::new();
    put_piece(block, sink, digits.format(number).as_bytes())
}

/// Puts a number with a space before it.
pub fn put_spaced_number<K: Sink>(
    block: &mut Block,
    sink: &mut K,
    number: u64,
) -> Result<(), Failed>
    requires { K.ready sink.old }
    ensures { Puts K.taken K.faults K.ready sink.old sink.new block.old block.new (codes " " ++ decimal number) result }
{
    put_piece(block, sink, b" ")?;
    put_number(block, sink, number)
}

/// Puts numbers, with one space before each.
pub fn put_spaced<K: Sink>(block: &mut Block, sink: &mut K, numbers: &[Fe]) -> Result<(), Failed>
    requires { K.ready sink.old }
    ensures { Puts K.taken K.faults K.ready sink.old sink.new block.old block.new (spaced numbers.now) result }
{
    for number in numbers {
        put_spaced_number(block, sink, number.value())?;
    }
    Ok(())
}

/// Puts a word, and a space behind it.
fn put_word<K: Sink>(block: &mut Block, sink: &mut K, word: &[u8]) -> Result<(), Failed>
    requires { K.ready sink.old }
    ensures { Puts K.taken K.faults K.ready sink.old sink.new block.old block.new (word.now ++ codes " ") result }
{
    put_piece(block, sink, word)?;
    put_piece(block, sink, b" ")
}

/// Puts how a line begins: a nonce of 16 bytes in hexadecimal digits, and a space.
pub fn put_nonce<K: Sink>(block: &mut Block, sink: &mut K, nonce: &[u8]) -> Result<(), Failed>
    requires ready { K.ready sink.old }
    requires nonce { length nonce.now ≡ 16 }
    ensures { Puts K.taken K.faults K.ready sink.old sink.new block.old block.new (line_head nonce.now) result }
{
    let mut digits = [0; 32];
    hex::encode_to_slice(nonce, &mut digits).unwrap();
    put_word(block, sink, &digits)
}
