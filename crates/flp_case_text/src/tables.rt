//! Blocks that have a case a line.

use crate::block::{is_comment, set_status};
use crate::bytes::{pad, parts, push_lengths, push_line, push_text, set};
use crate::numbers::size;
use crate::{Case, Fault, Shelf};
use std::alloc::Global;

/// What stands between the answer of a row and its text.
const ARROW: &str = " <- ";

/// Reads the rows behind the first line, which says what they are.
pub(crate) fn read_table(
    alloc: Global,
    shelf: &Shelf,
    cases: &mut Vec<Case>,
    block: &str,
    first: usize,
) -> Result<(), Fault> {
    let head = block.lines().nth(first).unwrap_or("");
    for (number, line) in block.lines().enumerate() {
        if number > first && is_row(line) {
            let case = read_row(alloc, shelf, block, head, line).map_err(|fault| fault.at(number))?;
            cases.push(case)?;
        }
    }
    Ok(())
}

/// How a line begins that has a command line for all rows.
const RUN: &str = "run ";

fn is_row(line: &str) -> bool {
    !is_comment(line) && !line.starts_with(RUN)
}

fn read_row(
    alloc: Global,
    shelf: &Shelf,
    block: &str,
    head: &str,
    line: &str,
) -> Result<Case, Fault> {
    let (kind, name) = parts(head);
    match kind {
        "usage" => usage(alloc, line),
        "refused" => refused(alloc, shelf, name, line),
        "lengths" => lengths(alloc, shelf, name, line),
        "broken" => broken(alloc, shelf, block, name, line),
        _ => Err(Fault::Line(0)),
    }
}

/// Words that name no command: nothing is read or written.
fn usage(alloc: Global, line: &str) -> Result<Case, Fault> {
    let mut case = Case::new(alloc, line)?;
    case.add_command(alloc, line)?;
    case.input.push(0)?;
    case.left = Some(1);
    case.status = 2;
    push_line(
        &mut case.says,
        "flp: usage: flp verify, prove, lengths, prep, explain or trial",
    )?;
    Ok(case)
}

/// A case of `lengths`, with the text of a piece, if one is named, and that of the row.
fn of_text(alloc: Global, shelf: &Shelf, piece: &str, text: &str) -> Result<Case, Fault> {
    let mut case = Case::new(alloc, text)?;
    case.add_command(alloc, "flp lengths")?;
    if !piece.is_empty() {
        case.input.extend_from_slice(shelf.found(piece)?)?;
    }
    push_text(&mut case.input, text)?;
    Ok(case)
}

/// `FAULT <- TEXT`: the text is refused so.
fn refused(alloc: Global, shelf: &Shelf, piece: &str, line: &str) -> Result<Case, Fault> {
    let (fault, text) = line.split_once(ARROW).ok_or(Fault::Line(0))?;
    let mut case = of_text(alloc, shelf, piece, text)?;
    case.status = 7;
    case.says.extend_from_slice(b"flp: circuit: ")?;
    push_line(&mut case.says, fault)?;
    Ok(case)
}

/// `NUMBERS <- TEXT`: the circuit has these lengths.
fn lengths(alloc: Global, shelf: &Shelf, piece: &str, line: &str) -> Result<Case, Fault> {
    let (numbers, text) = line.split_once(ARROW).ok_or(Fault::Line(0))?;
    let mut case = of_text(alloc, shelf, piece, text)?;
    push_lengths(&mut case.output, numbers)?;
    Ok(case)
}

/// How many bytes are read at once in the runs of a row.
const STEPS: [usize; 3] = [1, 7, 4096];

/// `STATUS LINE <- SIZE CHANGES`: the piece, cut or drawn out to this size and with bytes changed, is refused so.
fn broken(
    alloc: Global,
    shelf: &Shelf,
    block: &str,
    piece: &str,
    line: &str,
) -> Result<Case, Fault> {
    let (answer, changes) = line.split_once(ARROW).ok_or(Fault::Line(0))?;
    let (to, changes) = parts(changes);
    let mut case = Case::new(alloc, line)?;
    set_status(&mut case, answer)?;
    case.input.extend_from_slice(shelf.found(piece)?)?;
    pad(&mut case.input, size(to)?, &[0])?;
    change(alloc, &mut case, changes)?;
    for command in block.lines() {
        if let Some(command) = command.strip_prefix(RUN) {
            case.add_command(alloc, command)?;
        }
    }
    case.read_steps.clear();
    case.read_steps.extend_from_slice(&STEPS)?;
    Ok(case)
}

/// `PLACE=BYTES`: other bytes at a place; `left=N`: so many bytes are left unread.
fn change(alloc: Global, case: &mut Case, changes: &str) -> Result<(), Fault> {
    for token in changes.split_whitespace() {
        match token.split_once('=') {
            Some(("left", count)) => case.left = Some(size(count)?),
            Some((place, digits)) => set(alloc, &mut case.input, size(place)?, digits)?,
            None => return Err(Fault::Line(0)),
        }
    }
    Ok(())
}
