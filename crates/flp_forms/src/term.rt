//! One term of a linear form: a coefficient times a word.
ghost use Rattle.std.specs.Prelude.{IsTrue, ◌↔◌};

use flp_field::Fe;

/// The coefficient of a term. 1 and -1 take no product.
#[derive(Clone, Copy, PartialEq, Eq, Debug)]
pub enum Scale {
    One,
    MinusOne,
    /// The public value of this step.
    Value(u32),
}

/// The word that a term reads.
#[derive(Clone, Copy, PartialEq, Eq, Debug)]
pub enum Source {
    /// What the constant 1 counts as: 1 on an unshared encoding, 1/shares on a share.
    Unit,
    /// This word of the encoding.
    Meas(u32),
    /// The answer of this call, in the order of calls.
    Answer(u32),
}

/// A coefficient times a word.
#[derive(Clone, Copy, PartialEq, Eq, Debug)]
pub struct Term {
    pub scale: Scale,
    pub source: Source,
}

impl Term {
    ghost use Rattle.flp_forms.specs.LinearForms.{TermFits};

    /// Whether the term reads one of so many public values, words of an encoding and answers.
    pub fn fits(&self, publics: usize, meas: usize, answers: usize) -> bool
        ensures { IsTrue result ↔ TermFits publics meas answers self.now }
    {
        let scale = match self.scale {
            Scale::One | Scale::MinusOne => true,
            Scale::Value(index) => (index as usize) < publics,
        };
        let source = match self.source {
            Source::Unit => true,
            Source::Meas(index) => (index as usize) < meas,
            Source::Answer(index) => (index as usize) < answers,
        };
        scale && source
    }
}
