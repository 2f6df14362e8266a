//! Lines that make bytes.

use crate::numbers::{
    hexadecimal, number, numbered_nonce, push_nonce, push_number, push_numbers, push_times,
    push_words, size, small,
};
use crate::{Fault, Shelf};
use std::alloc::Global;
use std::ops::Range;

/// A line's first word, and what follows the blank behind it.
pub(crate) fn parts(line: &str) -> (&str, &str) {
    line.split_once(' ').unwrap_or((line, ""))
}

/// `COUNT TEXT} REST`: the text so many times, and the rest.
fn push_repetition(bytes: &mut Vec<u8>, part: &str) -> Result<(), Fault> {
    let (repeated, rest) = part.split_once('}').ok_or(Fault::Line(0))?;
    let (count, text) = parts(repeated);
    push_times(bytes, number(count)?, text.as_bytes())?;
    push_times(bytes, 1, rest.as_bytes())
}

/// Puts a text behind the bytes, in which `{3 ab}` stands for `ababab`.
pub(crate) fn push_text(bytes: &mut Vec<u8>, text: &str) -> Result<(), Fault> {
    let (front, rest) = text.split_once('{').unwrap_or((text, ""));
    bytes.extend_from_slice(front.as_bytes())?;
    if front.len() < text.len() {
        for part in rest.split('{') {
            push_repetition(bytes, part)?;
        }
    }
    Ok(())
}

/// Puts a text and a line feed behind the bytes.
pub(crate) fn push_line(bytes: &mut Vec<u8>, text: &str) -> Result<(), Fault> {
    push_text(bytes, text)?;
    bytes.push(b'\n')?;
    Ok(())
}

/// `times COUNT NAME`: the bytes of that name, so many times.
fn push_repeated(bytes: &mut Vec<u8>, shelf: &Shelf, rest: &str) -> Result<(), Fault> {
    let (count, name) = parts(rest);
    push_times(bytes, number(count)?, shelf.found(name)?)
}

/// `report NUMBER TEXT`: the line of the report whose nonce has this number.
fn push_report(alloc: Global, bytes: &mut Vec<u8>, rest: &str) -> Result<(), Fault> {
    let (first, text) = parts(rest);
    let mut nonce = Vec::new(alloc);
    push_nonce(&mut nonce, small(first)?)?;
    push_report_line(alloc, bytes, nonce.as_slice(), text)
}

/// The line of the report with this nonce.
fn push_report_line(
    alloc: Global,
    bytes: &mut Vec<u8>,
    nonce: &[u8],
    text: &str,
) -> Result<(), Fault> {
    let digits = hex::encode(alloc, nonce)?;
    bytes.extend_from_slice(digits.as_bytes())?;
    bytes.push(b' ')?;
    push_line(bytes, text)
}

/// `FROM TO REST`: the numbers of a range, and the rest.
fn range(text: &str) -> Result<(Range<u64>, &str), Fault> {
    let (from, rest) = parts(text);
    let (to, rest) = parts(rest);
    Ok((number(from)?..number(to)?, rest))
}

/// `records FROM TO NAME`: for each number the nonce that it is, and the bytes of that name.
fn push_records(bytes: &mut Vec<u8>, shelf: &Shelf, rest: &str) -> Result<(), Fault> {
    let (numbers, name) = range(rest)?;
    let words = shelf.found(name)?;
    for number in numbers {
        push_times(bytes, 1, &numbered_nonce(number))?;
        push_times(bytes, 1, words)?;
    }
    Ok(())
}

/// `reports FROM TO TEXT`: the lines of the reports whose nonces are these numbers.
fn push_reports(alloc: Global, bytes: &mut Vec<u8>, rest: &str) -> Result<(), Fault> {
    let (numbers, text) = range(rest)?;
    for number in numbers {
        push_report_line(alloc, bytes, &numbered_nonce(number), text)?;
    }
    Ok(())
}

/// The names of the lines that `lengths` prints.
const LENGTHS: [&str; 7] = [
    "meas", "joint", "prove", "query", "proof", "verifier", "outs",
];

/// `lengths NUMBERS`: what `lengths` prints, by the seven numbers.
pub(crate) fn push_lengths(bytes: &mut Vec<u8>, rest: &str) -> Result<(), Fault> {
    let mut tokens = rest.split_whitespace();
    for name in LENGTHS {
        let token = tokens.next().ok_or(Fault::Line(0))?;
        bytes.extend_from_slice(name.as_bytes())?;
        bytes.push(b' ')?;
        push_line(bytes, token)?;
    }
    Ok(())
}

/// `head LETTERS SHARES PROOFS NAME NUMBERS`: the head of a file on the circuit of that name, and its text.
fn push_head(bytes: &mut Vec<u8>, shelf: &Shelf, rest: &str) -> Result<(), Fault> {
    let (letters, rest) = parts(rest);
    let (shares, rest) = parts(rest);
    let (proofs, rest) = parts(rest);
    let (name, counts) = parts(rest);
    let circuit = shelf.found(name)?;
    bytes.extend_from_slice(letters.as_bytes())?;
    push_number(bytes, 1)?;
    push_number(bytes, number(shares)?)?;
    push_number(bytes, number(proofs)?)?;
    push_number(bytes, circuit.len() as u64)?;
    push_numbers(bytes, counts)?;
    bytes.extend_from_slice(circuit)?;
    Ok(())
}

/// Cuts the bytes, or draws them out by pieces, to a size.
pub(crate) fn pad(bytes: &mut Vec<u8>, to: usize, filling: &[u8]) -> Result<(), Fault> {
    let missing = to.saturating_sub(bytes.len());
    push_times(bytes, missing as u64, filling)?;
    bytes.truncate(to);
    Ok(())
}

/// Puts other bytes at a place.
pub(crate) fn set(
    alloc: Global,
    bytes: &mut Vec<u8>,
    place: usize,
    digits: &str,
) -> Result<(), Fault> {
    let mut place = place;
    for byte in hexadecimal(alloc, digits)? {
        match bytes.get_mut(place) {
            Some(at) => *at = byte,
            None => return Err(Fault::Line(0)),
        }
        place = place.saturating_add(1);
    }
    Ok(())
}

/// `pad SIZE BYTES`: cuts the bytes, or draws them out.
fn pad_to(alloc: Global, bytes: &mut Vec<u8>, rest: &str) -> Result<(), Fault> {
    let (to, digits) = parts(rest);
    pad(bytes, size(to)?, hexadecimal(alloc, digits)?.as_slice())
}

/// `set PLACE BYTES`: puts other bytes at a place.
fn set_at(alloc: Global, bytes: &mut Vec<u8>, rest: &str) -> Result<(), Fault> {
    let (place, digits) = parts(rest);
    set(alloc, bytes, size(place)?, digits)
}

/// Does what a line says to bytes that lines before it made.
pub(crate) fn make(
    alloc: Global,
    bytes: &mut Vec<u8>,
    shelf: &Shelf,
    line: &str,
) -> Result<(), Fault> {
    let (key, rest) = parts(line);
    match key {
        "text" => push_text(bytes, rest),
        "line" => push_line(bytes, rest),
        "number" => push_numbers(bytes, rest),
        "word" => push_words(bytes, rest),
        "bytes" => push_times(bytes, 1, hexadecimal(alloc, rest)?.as_slice()),
        "nonce" => push_nonce(bytes, small(rest)?),
        "use" => push_times(bytes, 1, shelf.found(rest)?),
        "times" => push_repeated(bytes, shelf, rest),
        "length" => push_number(bytes, shelf.found(rest)?.len() as u64),
        "head" => push_head(bytes, shelf, rest),
        "report" => push_report(alloc, bytes, rest),
        "records" => push_records(bytes, shelf, rest),
        "reports" => push_reports(alloc, bytes, rest),
        "lengths" => push_lengths(bytes, rest),
        "cut" => {
            bytes.truncate(size(rest)?);
            Ok(())
        }
        "pad" => pad_to(alloc, bytes, rest),
        "set" => set_at(alloc, bytes, rest),
        _ => Err(Fault::Line(0)),
    }
}
