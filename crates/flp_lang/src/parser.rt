//! The tokens of a text as the parser goes down through them once.
ghost use Rattle.std.specs.Prelude.{◌≡◌, ◌+◌, ◌^◌, ◌<◌, ◌≤◌, ℕ, List, suc, false, length, IfOk, ◌∷◌};
ghost use Rattle.flp_lang.specs.Ahead.{Ahead, next, a_mark, a_numeral, a_naming, setting, fixed, range};
ghost use Rattle.flp_lang.specs.Ahead as ahead;
ghost use Rattle.flp_syntax.specs.Tree.{Index};
ghost use Rattle.flp_syntax.specs.View.{index_of};
ghost use Rattle.flp_lang.specs.Verdict.{levels_behind};
ghost use Rattle.flp_lang.specs.Run.{Runs, Eats, TakesSign, TakesNumber, TakesName, too_deep, is_next, start_of, starts_stmt, starts_coef, Skips, is_word, TakesWord};
ghost use Rattle.flp_syntax.specs.declared.token.Token.TheVariants.{Fixed};
ghost use Rattle.flp_syntax.specs.declared.token.Mark.TheVariants.{Open, OpenBracket, CloseBracket};

use flp_field::Fe;
use flp_list::{Bytes, List};
use flp_syntax::{Idx, LangFault, Mark, Token};
use std::alloc::Global;

/// What may begin a primary expression.
#[derive(Clone, Copy)]
pub enum Start {
    Number,
    Name,
    Joint,
    Meas,
    Sum,
    Group,
    Other,
}

/// What a loop goes over: its variable, its bounds, and the level within.
#[derive(Drop)]
pub struct Range {
    pub name: Bytes,
    pub from: Idx,
    pub to: Idx,
    pub inner: u32,
}

/// The most levels of parentheses, brackets and `psum` that may be open at once.
pub const MAX_DEPTH: u32 = 64;

/// The tokens that are left, and the number of the first of them.
#[derive(Drop)]
pub struct Parser<'a> {
    pub alloc: Global,
    pub rest: &'a [Token],
    pub at: u32,
    ghost fits: { at + length rest.now < 2 ^ 32 },
}

impl<'a> Parser<'a> {
    /// A parser at the first of the tokens.
    pub fn new(alloc: Global, tokens: &'a [Token]) -> Parser<'a>
        requires { length tokens.now < 2 ^ 32 }
        ensures first { result.at ≡ 0 }
        ensures all { result.rest.now ≡ tokens.now }
    {
        Parser {
            alloc,
            rest: tokens,
            at: 0,
        }
    }

    /// Takes the mark, if it is next.
    pub fn eat(&mut self, mark: Mark) -> bool
        ensures eaten { Eats mark self.old.at self.old.rest.now result self.new.at self.new.rest.now }
        ensures left { length self.new.rest.now ≤ length self.old.rest.now }
    {
        match self.rest {
            [Token::Fixed(found), rest @ ..] => {
                if *found as u8 == mark as u8 {
                    self.rest = rest;
                    self.at += 1;
                    true
                } else {
                    false
                }
            }
            _ => false,
        }
    }

    /// Takes a `+` or a `-`, if it is next: whether it is a minus.
    pub fn sign(&mut self) -> Option<bool>
        ensures taken { TakesSign self.old.at self.old.rest.now result self.new.at self.new.rest.now }
        ensures left { length self.new.rest.now ≤ length self.old.rest.now }
    {
        match self.rest {
            [Token::Fixed(Mark::Plus), rest @ ..] => {
                self.rest = rest;
                self.at += 1;
                Some(false)
            }
            [Token::Fixed(Mark::Minus), rest @ ..] => {
                self.rest = rest;
                self.at += 1;
                Some(true)
            }
            _ => None,
        }
    }

    /// Takes a number, if it is next.
    pub fn number(&mut self) -> Option<Fe>
        ensures taken { TakesNumber self.old.at self.old.rest.now result self.new.at self.new.rest.now }
        ensures left { length self.new.rest.now ≤ length self.old.rest.now }
    {
        match self.rest {
            [Token::Number(number), rest @ ..] => {
                self.rest = rest;
                self.at += 1;
                Some(*number)
            }
            _ => None,
        }
    }

    /// Takes a name, if it is next.
    pub fn name(&mut self) -> Result<Option<Bytes>, LangFault>
        ensures taken { TakesName self.old.at self.old.rest.now result self.new.at self.new.rest.now }
        ensures left { length self.new.rest.now ≤ length self.old.rest.now }
    {
        match self.rest {
            [Token::Name(name), rest @ ..] => {
                let copy = List::from_vec(name.as_slice().to_vec(self.alloc)?);
                self.rest = rest;
                self.at += 1;
                Ok(Some(copy))
            }
            _ => Ok(None),
        }
    }

    /// Takes the mark, which has to be next.
    pub fn expect(&mut self, mark: Mark) -> Result<(), LangFault>
        ensures runs { (l : ℕ × ℕ) (P : Ahead) → too_deep (Fixed mark) l ≡ false
            → Runs l self.old.at (fixed mark P) self.old.rest.now result (λ _. levels_behind (Fixed mark) l) self.new.at (λ _. P) self.new.rest.now }
        ensures left { IfOk result (λ _. length self.new.rest.now < length self.old.rest.now) }
    {
        let at = self.at;
        if self.eat(mark) {
            return Ok(());
        }
        Err(LangFault::Syntax(at))
    }

    /// Takes the `(`, which has to be next, and answers the level within.
    pub fn open(&mut self, level: u32) -> Result<u32, LangFault>
        requires { level ≤ 64 }
        ensures runs { (P : Ahead) → Runs (level, 0) self.old.at (fixed Open P) self.old.rest.now result (λ inner. (inner, 0)) self.new.at (λ _. P) self.new.rest.now }
        ensures inner { IfOk result (λ inner. (inner ≡ suc level) × (inner ≤ 64)) }
        ensures left { IfOk result (λ _. length self.new.rest.now < length self.old.rest.now) }
    {
        let at = self.at;
        if !self.eat(Mark::Open) {
            return Err(LangFault::Syntax(at));
        }
        if level >= MAX_DEPTH {
            return Err(LangFault::Depth(at));
        }
        Ok(level + 1)
    }

    /// Takes the `[`, which has to be next, and answers the level within.
    pub fn open_bracket(&mut self, level: u32) -> Result<u32, LangFault>
        requires { level ≤ 64 }
        ensures runs { (P : Ahead) → Runs (level, 0) self.old.at (fixed OpenBracket P) self.old.rest.now result (λ inner. (inner, 0)) self.new.at (λ _. P) self.new.rest.now }
        ensures inner { IfOk result (λ inner. (inner ≡ suc level) × (inner ≤ 64)) }
        ensures left { IfOk result (λ _. length self.new.rest.now < length self.old.rest.now) }
    {
        let at = self.at;
        if !self.eat(Mark::OpenBracket) {
            return Err(LangFault::Syntax(at));
        }
        if level >= MAX_DEPTH {
            return Err(LangFault::Depth(at));
        }
        Ok(level + 1)
    }

    /// Takes a number, which has to be next.
    pub fn expect_number(&mut self) -> Result<Fe, LangFault>
        ensures runs { (l : ℕ × ℕ) (K : ℕ → Ahead) → Runs l self.old.at (next a_numeral K) self.old.rest.now result (λ _. l) self.new.at K self.new.rest.now }
        ensures left { IfOk result (λ _. length self.new.rest.now < length self.old.rest.now) }
    {
        let at = self.at;
        match self.number() {
            Some(number) => Ok(number),
            None => Err(LangFault::Syntax(at)),
        }
    }

    /// Takes a name, which has to be next.
    pub fn expect_name(&mut self) -> Result<Bytes, LangFault>
        ensures runs { (l : ℕ × ℕ) (K : List ℕ → Ahead) → Runs l self.old.at (next a_naming K) self.old.rest.now result (λ _. l) self.new.at K self.new.rest.now }
        ensures left { IfOk result (λ _. length self.new.rest.now < length self.old.rest.now) }
    {
        let at = self.at;
        match self.name() {
            Ok(Some(name)) => Ok(name),
            Ok(None) => Err(LangFault::Syntax(at)),
            Err(fault) => Err(fault),
        }
    }

    /// Whether the mark is next.
    pub fn is_next(&self, mark: Mark) -> bool
        ensures { result ≡ is_next mark self.now.rest.now }
    {
        match self.rest {
            [Token::Fixed(found), ..] => *found as u8 == mark as u8,
            _ => false,
        }
    }

    /// What begins a primary expression here.
    pub fn start(&self) -> Start
        ensures { result ≡ start_of self.now.rest.now }
    {
        match self.rest {
            [Token::Number(_), ..] => Start::Number,
            [Token::Name(_), ..] => Start::Name,
            [Token::Fixed(Mark::Joint), ..] => Start::Joint,
            [Token::Fixed(Mark::Meas), ..] => Start::Meas,
            [Token::Fixed(Mark::Sum), ..] => Start::Sum,
            [Token::Fixed(Mark::Open), ..] => Start::Group,
            _ => Start::Other,
        }
    }

    /// `NAME "in" idx ".." idx "("`
    pub fn range(&mut self, level: u32) -> Result<Range, LangFault>
        requires { level ≤ 64 }
        ensures runs { (K : List ℕ → Index → Index → Ahead) → Runs (level, 0) self.old.at (range K) self.old.rest.now result (λ r. (r.inner, 0)) self.new.at (λ r. K r.name (index_of r.from) (index_of r.to)) self.new.rest.now }
        ensures inner { IfOk result (λ r. (r.inner ≡ suc level) × (r.inner ≤ 64)) }
        ensures left { IfOk result (λ _. length self.new.rest.now < length self.old.rest.now) }
    {
        let name = self.expect_name()?;
        self.expect(Mark::In)?;
        let from = self.index(level)?;
        self.expect(Mark::DotDot)?;
        let to = self.index(level)?;
        let inner = self.open(level)?;
        Ok(Range {
            name,
            from,
            to,
            inner,
        })
    }

    /// `"[" idx "]"`
    pub fn bracketed(&mut self, level: u32) -> Result<Idx, LangFault>
        requires { level ≤ 64 }
        ensures runs { (K : Index → Ahead) → Runs (level, 0) self.old.at (fixed OpenBracket (next ahead.index (λ v. fixed CloseBracket (K v)))) self.old.rest.now result (λ _. (level, 0)) self.new.at (λ v. K (index_of v)) self.new.rest.now }
        ensures left { IfOk result (λ _. length self.new.rest.now < length self.old.rest.now) }
    {
        let inner = self.open_bracket(level)?;
        let index = self.index(inner)?;
        self.expect(Mark::CloseBracket)?;
        Ok(index)
    }

    /// Whether a statement begins here.
    pub fn starts_stmt(&self) -> bool
        ensures { result ≡ starts_stmt self.now.rest.now }
    {
        match self.rest {
            [Token::Fixed(Mark::Check), ..] => true,
            [Token::Fixed(Mark::Out), ..] => true,
            [Token::Fixed(Mark::Each), ..] => true,
            _ => false,
        }
    }

    /// Whether a coefficient begins here.
    pub fn starts_coef(&self) -> bool
        ensures { result ≡ starts_coef self.now.rest.now }
    {
        match self.rest {
            [Token::Number(_), ..] => true,
            [Token::Fixed(Mark::Minus), ..] => true,
            _ => false,
        }
    }

    /// Whether this name is next.
    fn is_word(&self, word: &[u8]) -> bool
        ensures { result ≡ is_word word.now self.now.rest.now }
    {
        match self.rest {
            [Token::Name(found), ..] => word == found.as_slice(),
            _ => false,
        }
    }

    /// Takes the name, if it is next.
    pub fn word(&mut self, word: &[u8]) -> bool
        ensures taken { TakesWord word.now self.old.at self.old.rest.now result self.new.at self.new.rest.now }
    {
        if self.is_word(word) {
            self.skip();
            return true;
        }
        false
    }

    /// Passes over a token.
    pub fn skip(&mut self)
        ensures { Skips self.old.at self.old.rest.now self.new.at self.new.rest.now }
    {
        match self.rest {
            [_, rest @ ..] => {
                self.rest = rest;
                self.at += 1;
            }
            [] => {}
        }
    }
}
