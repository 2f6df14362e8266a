//! Blocks of a file of cases.

use crate::bytes::{make, parts, push_line};
use crate::numbers::small;
use crate::tables::read_table;
use crate::{Case, Fault, Shelf};
use std::alloc::Global;

/// Reads one block: the lines between two blank lines. Pieces are put on the shelf. Each case has a run.
pub fn read_block(alloc: Global, shelf: &mut Shelf, block: &str) -> Result<Vec<Case>, Fault> {
    let cases = read_lines(alloc, shelf, block)?;
    if cases.iter().all(|case| case.has_runs()) {
        Ok(cases)
    } else {
        Err(Fault::Line(0))
    }
}

/// Reads the lines of a block.
fn read_lines(alloc: Global, shelf: &mut Shelf, block: &str) -> Result<Vec<Case>, Fault> {
    let mut cases = Vec::new(alloc);
    for (number, line) in block.lines().enumerate() {
        let (key, rest) = parts(line);
        match key {
            _ if line.is_empty() || is_comment(line) => {}
            "piece" => {
                read_piece(alloc, shelf, rest, block, number)?;
                break;
            }
            "case" => {
                cases.push(read_case(alloc, shelf, rest, block, number)?)?;
                break;
            }
            _ => {
                read_table(alloc, shelf, &mut cases, block, number)?;
                break;
            }
        }
    }
    Ok(cases)
}

/// Whether a line is for the reader alone.
pub(crate) fn is_comment(line: &str) -> bool {
    line.starts_with('#')
}

/// Puts the bytes that the lines behind the first make on the shelf.
fn read_piece(
    alloc: Global,
    shelf: &mut Shelf,
    name: &str,
    block: &str,
    first: usize,
) -> Result<(), Fault> {
    let mut bytes = Vec::new(alloc);
    for (number, line) in block.lines().enumerate() {
        if number > first && !is_comment(line) {
            make(alloc, &mut bytes, shelf, line).map_err(|fault| fault.at(number))?;
        }
    }
    shelf.keep(String::from_str(alloc, name)?, bytes)?;
    Ok(())
}

/// Reads a case: its settings and the bytes of its input, the status, and the bytes of its output.
fn read_case(
    alloc: Global,
    shelf: &Shelf,
    name: &str,
    block: &str,
    first: usize,
) -> Result<Case, Fault> {
    let mut case = Case::new(alloc, name)?;
    let mut has_status = false;
    for (number, line) in block.lines().enumerate() {
        if number > first && !is_comment(line) {
            let done = read_line(alloc, shelf, &mut case, has_status, line);
            has_status = done.map_err(|fault| fault.at(number))?;
        }
    }
    if !has_status {
        return Err(Fault::Line(first));
    }
    Ok(case)
}

/// Reads a line of a case. Whether the status is known by then.
fn read_line(
    alloc: Global,
    shelf: &Shelf,
    case: &mut Case,
    has_status: bool,
    line: &str,
) -> Result<bool, Fault> {
    if let ("status", rest) = parts(line) {
        set_status(case, rest)?;
        return Ok(true);
    }
    if !case.set(alloc, line)? {
        let bytes = if has_status {
            &mut case.output
        } else {
            &mut case.input
        };
        make(alloc, bytes, shelf, line)?;
    }
    Ok(has_status)
}

/// `status NUMBER`, or `status NUMBER LINE` where a line is said.
pub(crate) fn set_status(case: &mut Case, rest: &str) -> Result<(), Fault> {
    let (status, line) = parts(rest);
    case.status = small(status)?;
    if !line.is_empty() {
        push_line(&mut case.says, line)?;
    }
    Ok(())
}
