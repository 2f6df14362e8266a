//! The rules of standard circuits.
ghost use Rattle.std.specs.Prelude.{◌≡◌, ℕ, List};
ghost use Rattle.flp_lang.specs.Ahead as ahead;
ghost use Rattle.flp_lang.specs.Ahead.{Ahead, next, fixed, setting};
ghost use Rattle.flp_lang.specs.Run.{Runs, which_of, which_starts, count_ahead, sum_circuit_ahead, sumvec_ahead, histogram_ahead, multihot_ahead};
ghost use Rattle.flp_syntax.specs.declared.syntax.Params.{Params};

use crate::parser::Parser;
use flp_syntax::{LangFault, Mark, Params, Token};

/// The standard circuits that are told apart by a name.
#[derive(Clone, Copy)]
pub enum Which {
    Count,
    Sum,
    SumVec,
    Histogram,
    Multihot,
    Other,
}

/// Which standard circuit the name is.
fn which_of(name: &[u8]) -> Which
    ensures { result ≡ which_of name.now }
{
    if b"count".as_slice() == name {
        Which::Count
    } else if b"sumvec".as_slice() == name {
        Which::SumVec
    } else if b"histogram".as_slice() == name {
        Which::Histogram
    } else if b"multihot".as_slice() == name {
        Which::Multihot
    } else {
        Which::Other
    }
}

impl Parser<'_> {
    /// Which standard circuit begins here.
    fn which(&self) -> Which
        ensures { result ≡ which_starts self.now.rest.now }
    {
        match self.rest {
            [Token::Name(name), ..] => which_of(name.as_slice()),
            [Token::Fixed(Mark::Sum), ..] => Which::Sum,
            _ => Which::Other,
        }
    }

    /// `NAME "=" NUMBER`, at this name
    fn setting(&mut self, name: &[u8]) -> Result<u64, LangFault>
        ensures { (K : ℕ → Ahead) → Runs (0, 0) self.old.at (next (setting name.now) K) self.old.rest.now result (λ _. (0, 0)) self.new.at K self.new.rest.now }
    {
        let at = self.at;
        if !self.word(name) {
            return Err(LangFault::Syntax(at));
        }
        self.expect(Mark::Equals)?;
        let value = self.expect_number()?;
        Ok(value.value())
    }

    /// A standard circuit, behind its `use`
    pub fn standard(&mut self) -> Result<Params, LangFault>
        ensures { (K : Params → Ahead) → Runs (0, 0) self.old.at (next ahead.standard_tail K) self.old.rest.now result (λ _. (0, 0)) self.new.at K self.new.rest.now }
    {
        let at = self.at;
        let which = self.which();
        self.skip();
        match which {
            Which::Count => self.count(),
            Which::Sum => self.sum_circuit(),
            Which::SumVec => self.sumvec(),
            Which::Histogram => self.histogram(),
            Which::Multihot => self.multihot(),
            Which::Other => Err(LangFault::Syntax(at)),
        }
    }

    fn count(&mut self) -> Result<Params, LangFault>
        ensures { (K : Params → Ahead) → Runs (0, 0) self.old.at (count_ahead K) self.old.rest.now result (λ _. (0, 0)) self.new.at K self.new.rest.now }
    {
        self.expect(Mark::Semicolon)?;
        Ok(Params::Count)
    }

    fn sum_circuit(&mut self) -> Result<Params, LangFault>
        ensures { (K : Params → Ahead) → Runs (0, 0) self.old.at (sum_circuit_ahead K) self.old.rest.now result (λ _. (0, 0)) self.new.at K self.new.rest.now }
    {
        let max = self.setting(b"max")?;
        self.expect(Mark::Semicolon)?;
        Ok(Params::Sum { max })
    }

    fn sumvec(&mut self) -> Result<Params, LangFault>
        ensures { (K : Params → Ahead) → Runs (0, 0) self.old.at (sumvec_ahead K) self.old.rest.now result (λ _. (0, 0)) self.new.at K self.new.rest.now }
    {
        let length = self.setting(b"length")?;
        let bits = self.setting(b"bits")?;
        let chunk = self.setting(b"chunk")?;
        self.expect(Mark::Semicolon)?;
        Ok(Params::SumVec {
            length,
            bits,
            chunk,
        })
    }

    fn histogram(&mut self) -> Result<Params, LangFault>
        ensures { (K : Params → Ahead) → Runs (0, 0) self.old.at (histogram_ahead K) self.old.rest.now result (λ _. (0, 0)) self.new.at K self.new.rest.now }
    {
        let length = self.setting(b"length")?;
        let chunk = self.setting(b"chunk")?;
        self.expect(Mark::Semicolon)?;
        Ok(Params::Histogram { length, chunk })
    }

    fn multihot(&mut self) -> Result<Params, LangFault>
        ensures { (K : Params → Ahead) → Runs (0, 0) self.old.at (multihot_ahead K) self.old.rest.now result (λ _. (0, 0)) self.new.at K self.new.rest.now }
    {
        let length = self.setting(b"length")?;
        let weight = self.setting(b"weight")?;
        let chunk = self.setting(b"chunk")?;
        self.expect(Mark::Semicolon)?;
        Ok(Params::Multihot {
            length,
            weight,
            chunk,
        })
    }
}
