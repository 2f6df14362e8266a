//! Answers, and how they differ.
ghost use Rattle.std.specs.Prelude.{IsTrue};
ghost use Rattle.flp_case_text.specs.Wanted.{IsAsWanted};

use crate::Case;
use std::alloc::{AllocError, Global};

/// What the program answered.
#[derive(Debug, Drop)]
pub struct Answer {
    /// The exit status.
    pub status: u8,
    /// What it wrote.
    pub output: Vec<u8>,
    /// What it wrote to the error output.
    pub says: Vec<u8>,
    /// How many bytes it left unread.
    pub left: usize,
}

/// Whether an answer is as the case says, where this call fails.
pub fn is_as_wanted(case: &Case, call: u64, answer: &Answer) -> bool
    ensures { IsTrue result → IsAsWanted case.now call answer.now }
{
    answer.status == case.status
        && answer.says.as_slice() == case.says.as_slice()
        && (case.any_output || answer.output.as_slice() == case.wanted(call))
        && case.left.is_none_or(|left| answer.left == left)
}

/// What is otherwise in the run of this command line in which this call fails, a line for each.
pub fn differences(
    alloc: Global,
    case: &Case,
    command: &str,
    call: u64,
    answer: &Answer,
) -> Result<String, AllocError> {
    let name = case.name.as_str();
    let mut text = format!(in alloc; "{name}: {command}, call {call}\n")?;
    let status = usize::from(case.status);
    compare_numbers(
        alloc,
        &mut text,
        "status",
        usize::from(answer.status),
        status,
    )?;
    compare_bytes(
        alloc,
        &mut text,
        "says",
        answer.says.as_slice(),
        case.says.as_slice(),
    )?;
    if !case.any_output {
        let output = case.wanted(call);
        compare_bytes(alloc, &mut text, "output", answer.output.as_slice(), output)?;
    }
    if let Some(left) = case.left {
        compare_numbers(alloc, &mut text, "left", answer.left, left)?;
    }
    Ok(text)
}

/// Says how numbers differ.
fn compare_numbers(
    alloc: Global,
    text: &mut String,
    what: &str,
    found: usize,
    wanted: usize,
) -> Result<(), AllocError> {
    if found == wanted {
        return Ok(());
    }
    let line = format!(in alloc; "  {what} {found}, not {wanted}\n")?;
    text.push_str(line.as_str())
}

/// Says how bytes differ.
fn compare_bytes(
    alloc: Global,
    text: &mut String,
    what: &str,
    found: &[u8],
    wanted: &[u8],
) -> Result<(), AllocError> {
    if found == wanted {
        return Ok(());
    }
    let found = String::from_utf8_lossy(alloc, found)?;
    let wanted = String::from_utf8_lossy(alloc, wanted)?;
    let line = format!(in alloc; "  {what} {found:?}\n    not {wanted:?}\n")?;
    text.push_str(line.as_str())
}
