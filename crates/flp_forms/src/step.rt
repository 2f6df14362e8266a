//! One public value by earlier ones.
ghost use Rattle.std.specs.Prelude.{◌≡◌, ◌%◌, length};
ghost use Rattle.flp_field.specs.Word.{modulus, word_power};
ghost use Rattle.flp_forms.specs.PublicValues.{step_value, StepFits};

use flp_field::Fe;

/// A public value: a constant, a joint word, the sum or product of two earlier public values, or a power of one.
///
/// The numbers of `Sum` and `Product` are those of earlier steps, from 0, and the number of `Joint` is a joint
/// word's. `Power` has the number of an earlier step and the exponent.
#[derive(Clone, Copy, PartialEq, Eq, Debug)]
pub enum Step {
    Constant(Fe),
    Joint(u32),
    Sum(u32, u32),
    Product(u32, u32),
    Power(u32, u32),
}

/// A power of a word, by which the next one takes a single product.
#[derive(Clone, Copy)]
pub(crate) struct WordPower {
    pub(crate) base: Fe,
    pub(crate) exponent: u32,
    pub(crate) value: Fe,
}

impl WordPower {
    /// The power of 0 with the exponent 0.
    pub(crate) fn first() -> WordPower
        ensures { result.value ≡ word_power result.base result.exponent }
    {
        WordPower {
            base: Fe::ZERO,
            exponent: 0,
            value: Fe::ONE,
        }
    }

    /// The power of this word with this exponent: by one product where it is the next power of the same word.
    fn power(self, base: Fe, exponent: u32) -> Fe
        requires { self.value ≡ word_power self.base self.exponent }
        ensures { result ≡ word_power base exponent }
    {
        if exponent > 0 && exponent - 1 == self.exponent && base == self.base {
            return self.value.mul(base);
        }
        base.pow(u64::from(exponent))
    }
}

/// The value of a step under these joint words, after these values of the earlier steps and this power among them.
pub(crate) fn value_of(step: Step, joint: &[Fe], earlier: &[Fe], last: &mut WordPower) -> Fe
    requires fits { StepFits (length joint.now) (length earlier.now) step }
    requires last { last.old.value ≡ word_power last.old.base last.old.exponent }
    ensures last { last.new.value ≡ word_power last.new.base last.new.exponent }
    ensures value { result ≡ step_value earlier.now joint.now step % modulus }
{
    match step {
        Step::Constant(word) => {
            // The proof reads from here that the word is below the modulus; so below.
            let _below = word.value();
            word
        }
        Step::Joint(index) => {
            let word = joint[index as usize];
            let _below = word.value();
            word
        }
        Step::Sum(left, right) => earlier[left as usize].add(earlier[right as usize]),
        Step::Product(left, right) => earlier[left as usize].mul(earlier[right as usize]),
        Step::Power(base, exponent) => {
            let base = earlier[base as usize];
            let value = last.power(base, exponent);
            *last = WordPower {
                base,
                exponent,
                value,
            };
            value
        }
    }
}
