//! A line while it is made.
ghost use Rattle.std.specs.Prelude.{◌≡◌, ◌+◌, ◌≤◌, ◌++◌, [], length, decimal};
ghost use Rattle.flp_lines.specs.Pieces.{named, numbered, paired};

use itoa::Buffer;
use std::marker::Model;

/// The most bytes of a line.
const ROOM: usize = 96;

/// A line while it is made, of at most 96 bytes. Contracts see its bytes.
#[derive(Drop)]
pub struct Line {
    bytes: [u8; ROOM],
    size: usize,
}

impl Model for Line {
    ghost use Rattle.std.specs.Prelude.{ℕ, List, ◌≤◌, take};

    ghost Value = { List ℕ };

    ghost view = { λ l. take l.size l.bytes };

    ghost invariant = { λ l. l.size ≤ 96 };
}

impl Line {
    /// An empty line.
    pub fn new() -> Line
        ensures { result ≡ [] }
    {
        Line {
            bytes: [0; ROOM],
            size: 0,
        }
    }

    /// The bytes so far.
    pub fn as_slice(&self) -> &[u8]
        ensures { result.now ≡ self.now }
    {
        &self.bytes[..self.size]
    }

    /// Appends words.
    pub fn push(&mut self, words: &[u8])
        requires { length self.old + length words.now ≤ 96 }
        ensures text { self.new ≡ self.old ++ words.now }
        ensures size { length self.new ≡ length self.old + length words.now }
    {
        let end = self.size + words.len();
        self.bytes[self.size..end].copy_from_slice(words);
        self.size = end;
    }

    /// Appends words and then a number in decimal digits.
    pub fn push_numbered(&mut self, words: &[u8], number: u64)
        requires { length self.old + length words.now + 20 ≤ 96 }
        ensures text { self.new ≡ self.old ++ numbered words.now number }
        ensures size { length self.new ≤ length self.old + length words.now + 20 }
    {
        let mut digits = Buffer::new();
        self.push(words);
        self.push(digits.format(number).as_bytes());
    }

    /// Appends words, then a name, a space and a number in decimal digits.
    pub fn push_named(&mut self, words: &[u8], name: &[u8], number: u64)
        requires { length self.old + length words.now + length name.now + 21 ≤ 96 }
        ensures text { self.new ≡ self.old ++ named words.now name.now number }
        ensures size { length self.new ≤ length self.old + length words.now + length name.now + 21 }
    {
        self.push(words);
        self.push(name);
        self.push_numbered(b" ", number);
    }

    /// Appends words and two numbers in decimal digits.
    pub fn push_paired(&mut self, words: &[u8], first: u64, second: u64)
        requires { length self.old + length words.now + 41 ≤ 96 }
        ensures text { self.new ≡ self.old ++ paired words.now first second }
        ensures size { length self.new ≤ length self.old + length words.now + 41 }
    {
        self.push_numbered(words, first);
        self.push_numbered(b" ", second);
    }
}
