//! Writing tokens.
ghost use Rattle.std.specs.Prelude.{◌≡◌, ◌++◌, ℕ, List, OnOk, IfOk, ◌∷◌};
ghost use Rattle.flp_syntax.specs.declared.token.Token.{Token};
ghost use Rattle.flp_syntax.specs.declared.token.Token.TheVariants as tokens;
ghost use Rattle.flp_lang.specs.Spelling.{mark_text};
ghost use Rattle.flp_lang.specs.Written.{Wrote};

use crate::Memory;
use flp_syntax::Mark;
use std::alloc::Global;

/// The text of a reserved word or a symbol.
fn mark_text(mark: Mark) -> &'static [u8]
    ensures { result.now ≡ mark_text mark }
{
    match mark {
        Mark::Use => b"use",
        Mark::Meas => b"meas",
        Mark::Joint => b"joint",
        Mark::Gadget => b"gadget",
        Mark::Check => b"check",
        Mark::Out => b"out",
        Mark::Each => b"each",
        Mark::Sum => b"sum",
        Mark::In => b"in",
        Mark::Mul => b"mul",
        Mark::Poly => b"poly",
        Mark::Psum => b"psum",
        Mark::Semicolon => b";",
        Mark::Equals => b"=",
        Mark::OpenBracket => b"[",
        Mark::CloseBracket => b"]",
        Mark::Question => b"?",
        Mark::Open => b"(",
        Mark::Close => b")",
        Mark::Plus => b"+",
        Mark::Minus => b"-",
        Mark::Star => b"*",
        Mark::Caret => b"^",
        Mark::Comma => b",",
        Mark::DotDot => b"..",
    }
}

/// The tokens written so far, with one space between two. Its methods write further ones, and begin with a space.
#[derive(Drop)]
pub struct Printer {
    pub text: Vec<u8>,
}

impl Printer {
    /// The first token alone.
    pub fn begin(alloc: Global, first: Mark) -> Result<Printer, Memory>
        ensures { IfOk result (λ printer. printer.text.items ≡ mark_text first) }
    {
        let text = Vec::from_slice(alloc, mark_text(first))?;
        Ok(Printer { text })
    }

    /// A space, and then these bytes.
    fn word(&mut self, bytes: &[u8]) -> Result<(), Memory>
        ensures { OnOk result (self.new.text.items ≡ self.old.text.items ++ (32 ∷ bytes.now)) }
    {
        self.text.push(b' ')?;
        self.text.extend_from_slice(bytes)
    }

    /// A reserved word or a symbol.
    pub fn mark(&mut self, mark: Mark) -> Result<(), Memory>
        ensures { OnOk result (Wrote self.old.text.items (λ s. tokens.Fixed mark ∷ s) self.new.text.items) }
    {
        self.word(mark_text(mark))
    }

    /// A name.
    pub fn name(&mut self, name: &[u8]) -> Result<(), Memory>
        ensures { OnOk result (Wrote self.old.text.items (λ s. tokens.Name name.now ∷ s) self.new.text.items) }
    {
        self.word(name)
    }

    /// A number, in decimal digits.
    pub fn number(&mut self, value: u64) -> Result<(), Memory>
        ensures { OnOk result (Wrote self.old.text.items (λ s. tokens.Number value ∷ s) self.new.text.items) }
    {
        let mut digits = itoa::Buffer::new();
        self.word(digits.format(value).as_bytes())
    }
}
