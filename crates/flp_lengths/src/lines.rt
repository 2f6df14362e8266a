//! The lines that are written.
ghost use Rattle.std.specs.Prelude.{◌≡◌, ◌++◌, OnOk, IfOk};
ghost use Rattle.flp_lengths.specs.Text.{number_line, lengths_text};

use flp_plan::{Lengths, Plan};
use itoa::Buffer;
use std::alloc::{AllocError, Global};

/// Appends the line of a number: its name, a space and its decimal digits.
pub fn push_number_line(text: &mut Vec<u8>, name: &[u8], number: u32) -> Result<(), AllocError>
    ensures { OnOk result (text.new.items ≡ text.old.items ++ number_line name.now number) }
{
    let mut digits = Buffer::new();
    text.extend_from_slice(name)?;
    text.extend_from_slice(b" ")?;
    text.extend_from_slice(digits.format(number).as_bytes())?;
    text.extend_from_slice(b"\n")?;
    Ok(())
}

/// The lines of a plan's lengths.
pub fn make_lines(alloc: Global, plan: &Plan) -> Result<Vec<u8>, AllocError>
    ensures { IfOk result (λ text. text.items ≡ lengths_text plan.now.circuit) }
{
    let lengths = plan.lengths();
    let mut text = Vec::new(alloc);
    push_number_line(&mut text, b"meas", lengths.meas)?;
    push_number_line(&mut text, b"joint", lengths.joint)?;
    push_number_line(&mut text, b"prove", lengths.prove)?;
    push_number_line(&mut text, b"query", lengths.query)?;
    push_number_line(&mut text, b"proof", lengths.proof)?;
    push_number_line(&mut text, b"verifier", lengths.verifier)?;
    push_number_line(&mut text, b"outs", lengths.outs)?;
    Ok(text)
}
