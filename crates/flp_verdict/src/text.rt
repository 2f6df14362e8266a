//! The lines of the text, each appended to a buffer.
ghost use Rattle.std.specs.Prelude.{◌≡◌, ◌++◌, length, decimal, OnOk};
ghost use Rattle.flp_verdict.specs.Text.{spelled, line_head, line_with, spaced, aggregate_line};

use crate::Memory;
use flp_field::Fe;
use flp_policy::Verdict;

/// Appends a number in decimal digits.
pub fn push_number(text: &mut Vec<u8>, number: u64) -> Result<(), Memory>
    ensures { OnOk result (text.new.items ≡ text.old.items ++ decimal number) }
{
    let mut digits = itoa::Buffer::new();
    text.extend_from_slice(digits.format(number).as_bytes())?;
    Ok(())
}

/// Appends how a verdict is spelled.
fn push_verdict(text: &mut Vec<u8>, verdict: Verdict) -> Result<(), Memory>
    ensures { OnOk result (text.new.items ≡ text.old.items ++ spelled verdict) }
{
    match verdict {
        Verdict::Accepted => text.extend_from_slice(b"accepted")?,
        Verdict::Rejected => text.extend_from_slice(b"rejected")?,
        Verdict::InDomain { proof, gadget } => {
            text.extend_from_slice(b"domain ")?;
            push_number(text, u64::from(proof))?;
            text.extend_from_slice(b" ")?;
            push_number(text, u64::from(gadget))?;
        }
        Verdict::Malformed { word } => {
            text.extend_from_slice(b"malformed ")?;
            push_number(text, u64::from(word))?;
        }
        Verdict::Replayed => text.extend_from_slice(b"replayed")?,
    }
    Ok(())
}

/// Appends how a line begins: a nonce of 16 bytes in hexadecimal digits, and a space.
pub fn push_nonce(text: &mut Vec<u8>, nonce: &[u8]) -> Result<(), Memory>
    requires { length nonce.now ≡ 16 }
    ensures { OnOk result (text.new.items ≡ text.old.items ++ line_head nonce.now) }
{
    let mut digits = [0; 32];
    hex::encode_to_slice(nonce, &mut digits).unwrap();
    text.extend_from_slice(&digits)?;
    text.extend_from_slice(b" ")?;
    Ok(())
}

/// Appends the line of a record: its nonce of 16 bytes in hexadecimal digits, and its verdict.
pub fn push_line(text: &mut Vec<u8>, nonce: &[u8], verdict: Verdict) -> Result<(), Memory>
    requires { length nonce.now ≡ 16 }
    ensures { OnOk result (text.new.items ≡ text.old.items ++ line_with nonce.now (spelled verdict)) }
{
    push_nonce(text, nonce)?;
    push_verdict(text, verdict)?;
    text.extend_from_slice(b"\n")?;
    Ok(())
}

/// Appends numbers, with one space before each.
fn push_spaced(text: &mut Vec<u8>, numbers: &[Fe]) -> Result<(), Memory>
    ensures { OnOk result (text.new.items ≡ text.old.items ++ spaced numbers.now) }
{
    for number in numbers {
        text.extend_from_slice(b" ")?;
        push_number(text, number.value())?;
    }
    Ok(())
}

/// Appends the line of an aggregate: its words, with one space before each.
pub fn push_aggregate(text: &mut Vec<u8>, aggregate: &[Fe]) -> Result<(), Memory>
    ensures { OnOk result (text.new.items ≡ text.old.items ++ aggregate_line aggregate.now) }
{
    text.extend_from_slice(b"aggregate")?;
    push_spaced(text, aggregate)?;
    text.extend_from_slice(b"\n")?;
    Ok(())
}
