//! Numbers, words of the field and bytes, as they are written.

use crate::Fault;
use std::alloc::Global;

/// The modulus of the field.
const MODULUS: u64 = 18446744069414584321;

/// A decimal number.
pub(crate) fn number(text: &str) -> Result<u64, Fault> {
    match text.parse::<u64>() {
        Ok(number) => Ok(number),
        Err(_) => Err(Fault::Line(0)),
    }
}

/// A decimal number that counts bytes.
pub(crate) fn size(text: &str) -> Result<usize, Fault> {
    match text.parse::<usize>() {
        Ok(size) => Ok(size),
        Err(_) => Err(Fault::Line(0)),
    }
}

/// A decimal number below 256.
pub(crate) fn small(text: &str) -> Result<u8, Fault> {
    match text.parse::<u8>() {
        Ok(small) => Ok(small),
        Err(_) => Err(Fault::Line(0)),
    }
}

/// A number, or `p` for the modulus, or `-5` for the modulus less 5.
fn word(text: &str) -> Result<u64, Fault> {
    if text == "p" {
        return Ok(MODULUS);
    }
    match text.strip_prefix('-') {
        None => number(text),
        Some(rest) => match MODULUS.checked_sub(number(rest)?) {
            Some(word) => Ok(word),
            None => Err(Fault::Line(0)),
        },
    }
}

/// The bytes of two hexadecimal digits each.
pub(crate) fn hexadecimal(alloc: Global, text: &str) -> Result<Vec<u8>, Fault> {
    match hex::decode(alloc, text) {
        Ok(bytes) => Ok(bytes),
        Err(hex::FromHexError::OutOfMemory) => Err(Fault::Memory),
        Err(_) => Err(Fault::Line(0)),
    }
}

/// Puts a piece behind the bytes, so many times.
pub(crate) fn push_times(bytes: &mut Vec<u8>, count: u64, piece: &[u8]) -> Result<(), Fault> {
    for _ in 0..count {
        bytes.extend_from_slice(piece)?;
    }
    Ok(())
}

/// Puts a number of 4 bytes behind the bytes, the lowest first.
pub(crate) fn push_number(bytes: &mut Vec<u8>, number: u64) -> Result<(), Fault> {
    match u32::try_from(number) {
        Ok(number) => {
            bytes.extend_from_slice(&number.to_le_bytes())?;
            Ok(())
        }
        Err(_) => Err(Fault::Line(0)),
    }
}

/// Puts a word of 8 bytes behind the bytes, the lowest first; for `7*W` seven times.
fn push_word(bytes: &mut Vec<u8>, text: &str) -> Result<(), Fault> {
    let (count, value) = match text.split_once('*') {
        None => (1, word(text)?),
        Some((count, rest)) => (number(count)?, word(rest)?),
    };
    push_times(bytes, count, &value.to_le_bytes())
}

/// Puts numbers behind the bytes, which stand with blanks between two of them.
pub(crate) fn push_numbers(bytes: &mut Vec<u8>, text: &str) -> Result<(), Fault> {
    for token in text.split_whitespace() {
        push_number(bytes, number(token)?)?;
    }
    Ok(())
}

/// Puts words behind the bytes, which stand with blanks between two of them.
pub(crate) fn push_words(bytes: &mut Vec<u8>, text: &str) -> Result<(), Fault> {
    for token in text.split_whitespace() {
        push_word(bytes, token)?;
    }
    Ok(())
}

/// Puts a nonce behind the bytes: the number, and then 1 to 15.
pub(crate) fn push_nonce(bytes: &mut Vec<u8>, number: u8) -> Result<(), Fault> {
    bytes.push(number)?;
    bytes.extend_from_slice(&[1, 2, 3, 4, 5, 6, 7, 8, 9, 10, 11, 12, 13, 14, 15])?;
    Ok(())
}

/// The nonce that is this number, the lowest byte first.
pub(crate) fn numbered_nonce(number: u64) -> [u8; 16] {
    u128::from(number).to_le_bytes()
}
