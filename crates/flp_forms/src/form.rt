//! The value of a linear form.
ghost use Rattle.std.specs.Prelude.{◌≡◌, ◌+◌, ◌*◌, ◌%◌, ℕ, List, length};
ghost use Rattle.flp_field.specs.Word.{modulus};
ghost use Rattle.flp_forms.specs.PublicValues.{residues};
ghost use Rattle.flp_forms.specs.LinearForms.{share_of, form_value, scale_value, source_value, FormFits, ScaleFits, SourceFits};

use crate::term::{Scale, Source, Term};
use flp_field::Fe;

/// The value of a form: the sum of its terms, over these public values, words of an encoding and answers, with
/// `unit` for the constant 1.
///
/// Each term reads a public value, a word or an answer that is there. A coefficient 1 or -1 takes no product,
/// any other takes one.
pub fn form_at(terms: &[Term], publics: &[Fe], meas: &[Fe], answers: &[Fe], unit: Fe) -> Fe
    requires { FormFits (length publics.now) (length meas.now) (length answers.now) terms.now }
    ensures value { result ≡ form_value publics.now (share_of meas.now answers.now unit) terms.now % modulus }

    // Where the public values are those of whole numbers modulo p, so is the form's value.
    ensures reduced { (values : List ℕ) → publics.now ≡ residues values → result ≡ form_value values (share_of meas.now answers.now unit) terms.now % modulus }
{
    let mut sum = Fe::ZERO;
    for term in terms {
        let word = word_at(term.source, meas, answers, unit);
        sum = with_term(sum, term.scale, word, publics);
    }
    sum
}

/// The word that a term reads.
fn word_at(source: Source, meas: &[Fe], answers: &[Fe], unit: Fe) -> Fe
    requires { SourceFits (length meas.now) (length answers.now) source }
    ensures { result ≡ source_value (share_of meas.now answers.now unit) source }
{
    match source {
        Source::Unit => unit,
        Source::Meas(index) => meas[index as usize],
        Source::Answer(index) => answers[index as usize],
    }
}

/// The sum and a coefficient times a word.
fn with_term(sum: Fe, scale: Scale, word: Fe, publics: &[Fe]) -> Fe
    requires { ScaleFits (length publics.now) scale }
    ensures { result ≡ (sum + scale_value publics.now scale * word) % modulus }
{
    match scale {
        Scale::One => sum.add(word),
        Scale::MinusOne => sum.sub(word),
        Scale::Value(index) => sum.add(publics[index as usize].mul(word)),
    }
}
