//! Linear forms, one after another in one array of terms.
ghost use Rattle.std.specs.Prelude.{ℕ, List, ◌≡◌, ◌+◌, ◌%◌, ◌<◌, ◌≤◌, ◌++◌, ◌∷◌, [], length, take, IsTrue, ◌↔◌, OnOk, OnErr, slice_index};
ghost use Rattle.flp_field.specs.Word.{modulus};
ghost use Rattle.flp_forms.specs.PublicValues.{residues};
ghost use Rattle.flp_forms.specs.LinearForms.{FormFits, form_in, form_value, share_of};

use crate::Memory;
use crate::form::form_at;
use crate::term::Term;
use flp_field::Fe;
use std::alloc::Global;
use std::marker::Model;

/// Where a form's terms stand: from `start` on, up to `end`.
#[derive(Clone, Copy, PartialEq, Eq, Debug)]
struct Span {
    start: usize,
    end: usize,
}

/// Linear forms, the terms of all of them in one array.
///
/// Contracts see the list of forms, each a list of terms. A form keeps the order in which its terms were given.
#[derive(Debug, Drop)]
pub struct Forms {
    terms: Vec<Term>,
    spans: Vec<Span>,
}

impl Model for Forms {
    ghost use Rattle.std.specs.Prelude.{List, All, length, map};
    ghost use Rattle.flp_forms.specs.declared.term.Term.{Term};

    ghost Value = { List (List Term) };

    ghost use Rattle.flp_forms.specs.Spans.{terms_in, IsWithin};

    ghost view = { λ forms. map (terms_in forms.terms.items) forms.spans.items };

    ghost invariant = { λ forms. All (IsWithin (length forms.terms.items)) forms.spans.items };
}

impl Forms {
    /// No forms. It takes no memory.
    pub fn new(alloc: Global) -> Forms
        ensures { result ≡ [] }
    {
        Forms {
            terms: Vec::new(alloc),
            spans: Vec::new(alloc),
        }
    }

    /// Adds a form at the end. After want of memory the forms are as before.
    pub fn push(&mut self, form: &[Term]) -> Result<(), Memory>
        ensures ok { OnOk result (self.new ≡ self.old ++ form.now ∷ []) }
        ensures err { OnErr result (self.new ≡ self.old) }
    {
        let start = self.terms.len();
        self.terms.extend_from_slice(form)?;
        let end = self.terms.len();
        self.spans.push(Span { start, end })?;
        Ok(())
    }

    /// Adds forms at the end. After want of memory a part of them from the front may have been added.
    pub fn append(&mut self, other: &Forms) -> Result<(), Memory>
        ensures ok { OnOk result (self.new ≡ self.old ++ other.now) }
        ensures err { OnErr result ((count : ℕ) × (self.new ≡ self.old ++ take count other.now)) }
    {
        for index in 0..other.len() {
            self.push(other.at(index))?;
        }
        Ok(())
    }

    /// The number of forms.
    pub fn len(&self) -> usize
        ensures { result ≡ length self.now }
    {
        self.spans.len()
    }

    /// Whether there is no form.
    pub fn is_empty(&self) -> bool
        ensures { IsTrue result ↔ (self.now ≡ []) }
    {
        self.spans.is_empty()
    }

    /// The terms of the form with this number, from 0, which are lent.
    pub fn at(&self, index: usize) -> &[Term]
        requires { index < length self.now }
        ensures { result.now ≡ form_in self.now index }
    {
        let span = self.spans[index];
        &self.terms[span.start..span.end]
    }

    /// Writes the values of consecutive forms to `out`, from the form `first` on, as many as `out` has places.
    ///
    /// Each term of these reads a public value, a word or an answer that is there.
    pub fn values(
        &self,
        first: usize,
        publics: &[Fe],
        meas: &[Fe],
        answers: &[Fe],
        unit: Fe,
        out: &mut [Fe],
    )
        requires inside { first + length out.old ≤ length self.now }
        requires fit { (i : ℕ) → i < length out.old → FormFits (length publics.now) (length meas.now) (length answers.now) (form_in self.now (first + i)) }
        ensures values { (i : ℕ) → i < length out.new → slice_index out.new i ≡ form_value publics.now (share_of meas.now answers.now unit) (form_in self.now (first + i)) % modulus }
        ensures reduced { (values : List ℕ) → publics.now ≡ residues values → (i : ℕ) → i < length out.new → slice_index out.new i ≡ form_value values (share_of meas.now answers.now unit) (form_in self.now (first + i)) % modulus }
    {
        // The proof reads from here that a form's number fits.
        let _number = self.len();
        for i in 0..out.len() {
            out[i] = form_at(self.at(first + i), publics, meas, answers, unit);
        }
    }
}
