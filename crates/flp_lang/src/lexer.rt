//! From bytes to tokens.
ghost use Rattle.std.specs.Prelude.{◌≡◌, ◌<◌, ◌≤◌, ◌++◌, length, take, MatchOption, IfOk, IfErr, OnOk, IfSome, ◌==◌, vec_len, option_to_list, Some};
ghost use Rattle.std.specs.List.{prefix_len};
ghost use Rattle.flp_field.specs.Word.{modulus};
ghost use Rattle.flp_syntax.specs.Tokens.{is_blank, is_letter, is_digit, is_name_byte, is_comment_byte, digits_value, reserved, symbol, word_token, number_piece, symbol_piece, piece_of, IsLexed, IsLexFault};

use flp_field::{Fe, MODULUS};
use flp_list::List;
use flp_syntax::{LangFault, Mark, Token};
use std::alloc::{AllocError, Global};

/// The most bytes that a circuit text may have.
const MAX_TEXT: usize = 65536;

/// What stands at the front of a text: its token, or none of a blank or comment, and how many bytes it has.
type Piece = (Option<Token>, usize);

fn is_blank(byte: u8) -> bool
    ensures { result ≡ is_blank byte }
{
    byte == b' ' || byte == b'\t' || byte == b'\n' || byte == b'\r'
}

fn is_letter(byte: u8) -> bool
    ensures { result ≡ is_letter byte }
{
    (b'A' <= byte && byte <= b'Z') || (b'a' <= byte && byte <= b'z')
}

fn is_digit(byte: u8) -> bool
    ensures { result ≡ is_digit byte }
{
    b'0' <= byte && byte <= b'9'
}

fn is_name_byte(byte: u8) -> bool
    ensures { result ≡ is_name_byte byte }
{
    is_letter(byte) || is_digit(byte) || byte == b'_'
}

/// How many bytes of a name stand at the front.
fn name_length(text: &[u8]) -> usize
    ensures { result ≡ prefix_len is_name_byte text.now }
{
    text.iter().take_while(|byte| is_name_byte(**byte)).count()
}

/// How many digits stand at the front.
fn digits_length(text: &[u8]) -> usize
    ensures { result ≡ prefix_len is_digit text.now }
{
    text.iter().take_while(|byte| is_digit(**byte)).count()
}

/// How many bytes come before the next LF, or before the end.
fn comment_length(text: &[u8]) -> usize
    ensures { result ≡ prefix_len is_comment_byte text.now }
{
    text.iter()
        .take_while(|byte| **byte < b'\n' || b'\n' < **byte)
        .count()
}

/// The value of a run of digits as a word, or None at the modulus and above.
fn number_of(digits: &[u8]) -> Option<Fe>
    ensures { MatchOption result (modulus ≤ digits_value digits.now) (λ number. number ≡ digits_value digits.now) }
{
    let mut value: u64 = 0;
    for digit in digits {
        let next = u128::from(value) * 10 + u128::from(digit.saturating_sub(b'0'));
        if next >= u128::from(MODULUS) {
            return None;
        }
        value = next as u64;
    }
    Fe::new(value)
}

/// The mark of a symbol of one byte.
fn symbol(byte: u8) -> Option<Mark>
    ensures { result ≡ symbol byte }
{
    match byte {
        b';' => Some(Mark::Semicolon),
        b'=' => Some(Mark::Equals),
        b'[' => Some(Mark::OpenBracket),
        b']' => Some(Mark::CloseBracket),
        b'?' => Some(Mark::Question),
        b'(' => Some(Mark::Open),
        b')' => Some(Mark::Close),
        b'+' => Some(Mark::Plus),
        b'-' => Some(Mark::Minus),
        b'*' => Some(Mark::Star),
        b'^' => Some(Mark::Caret),
        b',' => Some(Mark::Comma),
        _ => None,
    }
}

/// The mark of a reserved word.
fn reserved(word: &[u8]) -> Option<Mark>
    ensures { result ≡ reserved word.now }
{
    if word == b"use".as_slice() {
        Some(Mark::Use)
    } else if word == b"meas".as_slice() {
        Some(Mark::Meas)
    } else if word == b"joint".as_slice() {
        Some(Mark::Joint)
    } else if word == b"gadget".as_slice() {
        Some(Mark::Gadget)
    } else if word == b"check".as_slice() {
        Some(Mark::Check)
    } else if word == b"out".as_slice() {
        Some(Mark::Out)
    } else if word == b"each".as_slice() {
        Some(Mark::Each)
    } else if word == b"sum".as_slice() {
        Some(Mark::Sum)
    } else if word == b"in".as_slice() {
        Some(Mark::In)
    } else if word == b"mul".as_slice() {
        Some(Mark::Mul)
    } else if word == b"poly".as_slice() {
        Some(Mark::Poly)
    } else if word == b"psum".as_slice() {
        Some(Mark::Psum)
    } else {
        None
    }
}

/// The word at the front of a text that begins with a letter.
fn word_piece(alloc: Global, text: &[u8]) -> Result<Piece, AllocError>
    ensures { IfOk result (λ piece. let word = take (prefix_len is_name_byte text.now) text.now in piece ≡ (Some (word_token word (reserved word)), prefix_len is_name_byte text.now)) }
{
    let length = name_length(text);
    let word = &text[..length];
    match reserved(word) {
        Some(mark) => Ok((Some(Token::Fixed(mark)), length)),
        None => Ok((
            Some(Token::Name(List::from_vec(word.to_vec(alloc)?))),
            length,
        )),
    }
}

/// The number that a run of digits is.
fn number_piece(digits: &[u8]) -> Option<Piece>
    ensures { result ≡ number_piece digits.now }
{
    match number_of(digits) {
        Some(number) => Some((Some(Token::Number(number)), digits.len())),
        None => None,
    }
}

/// The symbol at the front of a text.
fn symbol_piece(mark: Option<Mark>, text: &[u8]) -> Option<Piece>
    ensures { result ≡ symbol_piece mark text.now }
{
    match mark {
        Some(mark) => Some((Some(Token::Fixed(mark)), 1)),
        None => {
            if text.len() >= 2 && &text[..2] == b"..".as_slice() {
                Some((Some(Token::Fixed(Mark::DotDot)), 2))
            } else {
                None
            }
        }
    }
}

/// The blank, comment or token at the front of a text, or None where none begins.
fn piece(alloc: Global, text: &[u8]) -> Result<Option<Piece>, AllocError>
    ensures { IfOk result (λ piece. piece ≡ piece_of text.now) }
{
    let Some(first) = text.first() else {
        return Ok(None);
    };
    let byte = *first;
    if is_blank(byte) {
        Ok(Some((None, 1)))
    } else if byte == b'#' {
        Ok(Some((None, comment_length(text))))
    } else if is_letter(byte) {
        Ok(Some(word_piece(alloc, text)?))
    } else if is_digit(byte) {
        Ok(number_piece(&text[..digits_length(text)]))
    } else {
        Ok(symbol_piece(symbol(byte), text))
    }
}

/// The same, with its length told: a piece has a byte, and no more than the text.
#[tactic(auto, using(crate::proofs::Readings::piece_sized))]
fn front(alloc: Global, text: &[u8]) -> Result<Option<Piece>, AllocError>
    ensures piece { IfOk result (λ piece. piece ≡ piece_of text.now) }
    ensures sized { IfOk result (λ piece. IfSome piece (λ found. (0 < found.1) × (found.1 ≤ length text.now))) }
{
    piece(alloc, text)
}

/// Adds the token, where there is one.
fn push_some(tokens: &mut Vec<Token>, token: Option<Token>) -> Result<(), LangFault>
    ensures pushed { OnOk result (tokens.new.items ≡ tokens.old.items ++ option_to_list token) }
    ensures memory { IfErr result (λ fault. fault ≡ LangFault.Memory) }
{
    if let Some(token) = token {
        tokens.push(token)?;
    }
    Ok(())
}

/// The tokens of a text.
pub fn tokens_of(alloc: Global, text: &[u8]) -> Result<Vec<Token>, LangFault>
    ensures tokens { IfOk result (λ tokens. IsLexed text.now tokens.items) }
    ensures fault { IfErr result (IsLexFault text.now) }
    ensures few { IfOk result (λ tokens. length tokens.items ≤ length text.now) }
{
    if text.len() > MAX_TEXT {
        return Err(LangFault::TextLength(text.len() as u64));
    }
    let mut tokens = Vec::new(alloc);
    let mut rest = text;
    while !rest.is_empty() {
        match front(alloc, rest)? {
            Some((token, length)) => {
                push_some(&mut tokens, token)?;
                rest = &rest[length..];
            }
            None => return Err(LangFault::Lex((text.len() - rest.len()) as u32)),
        }
    }
    Ok(tokens)
}
