//! The lines of a record, appended to a buffer.
ghost use Rattle.std.specs.Prelude.{◌≡◌, ◌++◌, length, OnOk, IfSome};
ghost use Rattle.flp_verdict.specs.Text.{line_with};
ghost use Rattle.flp_explain.specs.Standard.{IsStandard};
ghost use Rattle.flp_explain.specs.Text.{bounded_text, weak_text, of_proof, caught_text, of_encoding, joint_lines};

use crate::Memory;
use flp_field::Fe;
use flp_joint::{Caught, joint_word};
use flp_syntax::Params;
use flp_verdict::{push_nonce, push_number};
use flp_weak::Weak;

/// Appends how a word is told that limits something, with its bound.
fn push_bounded(text: &mut Vec<u8>, word: u32, bound: u64) -> Result<(), Memory>
    ensures { OnOk result (text.new.items ≡ text.old.items ++ bounded_text word bound) }
{
    text.extend_from_slice(b"word ")?;
    push_number(text, u64::from(word))?;
    text.extend_from_slice(b" bound ")?;
    push_number(text, bound)
}

/// Appends how the weak word of a proof is told, or that there is none.
fn push_weak(text: &mut Vec<u8>, found: Option<Weak>) -> Result<(), Memory>
    ensures { OnOk result (text.new.items ≡ text.old.items ++ weak_text found) }
{
    match found {
        None => text.extend_from_slice(b"valid")?,
        Some(weak) => push_bounded(text, weak.word, weak.bound)?,
    }
    Ok(())
}

/// Appends what is said of a proof, by its number.
fn push_of_proof(text: &mut Vec<u8>, proof: u32, found: Option<Weak>) -> Result<(), Memory>
    ensures { OnOk result (text.new.items ≡ text.old.items ++ of_proof proof found) }
{
    push_number(text, u64::from(proof))?;
    text.extend_from_slice(b" ")?;
    push_weak(text, found)
}

/// Appends the line of a proof, by its number and its weak word.
pub(crate) fn push_proof_line(
    text: &mut Vec<u8>,
    nonce: &[u8],
    proof: u32,
    found: Option<Weak>,
) -> Result<(), Memory>
    requires { length nonce.now ≡ 16 }
    ensures { OnOk result (text.new.items ≡ text.old.items ++ line_with nonce.now (of_proof proof found)) }
{
    push_nonce(text, nonce)?;
    push_of_proof(text, proof, found)?;
    text.extend_from_slice(b"\n")?;
    Ok(())
}

/// Appends how it is told what joint words tell of words.
fn push_caught(text: &mut Vec<u8>, caught: Option<Caught>) -> Result<(), Memory>
    ensures { OnOk result (text.new.items ≡ text.old.items ++ caught_text caught) }
{
    match caught {
        None => text.extend_from_slice(b"none")?,
        Some(Caught::Never) => text.extend_from_slice(b"never")?,
        Some(Caught::Word { word, bound }) => push_bounded(text, word, u64::from(bound))?,
    }
    Ok(())
}

/// Appends what is said of an encoding, by the parameters of the circuit where it is a standard one.
fn push_of_encoding(text: &mut Vec<u8>, params: Option<Params>, x: &[Fe]) -> Result<(), Memory>
    requires { IfSome params (IsStandard (length x.now)) }
    ensures { OnOk result (text.new.items ≡ text.old.items ++ of_encoding params x.now) }
{
    match params {
        None => text.extend_from_slice(b"body")?,
        Some(params) => push_caught(text, joint_word(&params, x))?,
    }
    Ok(())
}

/// Appends the line of an encoding, where it is asked for.
pub(crate) fn push_joint_lines(
    text: &mut Vec<u8>,
    nonce: &[u8],
    joint: bool,
    params: Option<Params>,
    x: &[Fe],
) -> Result<(), Memory>
    requires nonce { length nonce.now ≡ 16 }
    requires standard { IfSome params (IsStandard (length x.now)) }
    ensures { OnOk result (text.new.items ≡ text.old.items ++ joint_lines joint params nonce.now x.now) }
{
    if !joint {
        return Ok(());
    }
    push_nonce(text, nonce)?;
    text.extend_from_slice(b"joint ")?;
    push_of_encoding(text, params, x)?;
    text.extend_from_slice(b"\n")?;
    Ok(())
}
