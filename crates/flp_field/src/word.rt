//! The type of a word and its arithmetic. No call here divides by the modulus: a product of two words
//! is brought below it by 2^64 = 2^32 - 1 and 2^96 = -1, and sums and differences by their carry.
ghost use Rattle.std.specs.Prelude.{◌≡◌, ◌+◌, ◌*◌, ◌%◌, ◌<◌, ◌↔◌, IsSome, IfSome};
ghost use Rattle.flp_field.specs.Word.{modulus, IsWord, word_sum, word_difference, word_negation, word_product, word_power};

use std::marker::Model;

/// The modulus of the field, 2^64 - 2^32 + 1.
pub const MODULUS: u64 = 18446744069414584321;

/// 2^64 as a word: what a carry out of 64 bits is worth.
const CARRY: u64 = 4294967295;

/// A word: a number below [`MODULUS`].
///
/// Contracts see a word as this number, so that words are equal exactly where the numbers are.
#[derive(Clone, Copy, PartialEq, Eq, Debug)]
pub struct Fe {
    word: u64,
}

impl Model for Fe {
    ghost use Rattle.std.specs.Prelude.{ℕ};
    ghost use Rattle.flp_field.specs.Word.{IsWord};

    ghost Value = { ℕ };

    ghost view = { λ a. a.word };

    ghost invariant = { λ a. IsWord a.word };

    ghost inverse = { λ n. record { word = n } };
}

impl Fe {
    /// The word 0.
    pub const ZERO: Fe = Fe { word: 0 };

    /// The word 1.
    pub const ONE: Fe = Fe { word: 1 };

    /// The word 7^4294967295, whose order is 2^32. [`Fe::root`] of 32 answers it.
    pub const GENERATOR: Fe = Fe {
        word: 1753635133440165772,
    };

    /// The word of this value, or None exactly where the value is at the modulus or above.
    #[inline]
    pub fn new(value: u64) -> Option<Fe>
        ensures below { IsSome result ↔ IsWord value }
        ensures same { IfSome result (λ word. word ≡ value) }
    {
        if value < MODULUS {
            Some(Fe { word: value })
        } else {
            None
        }
    }

    /// The number that this word is.
    #[inline]
    pub fn value(self) -> u64
        ensures same { result ≡ self }
        ensures below { IsWord result }
    {
        self.word
    }

    /// The sum of the two words.
    #[inline]
    pub fn add(self, other: Fe) -> Fe
        ensures { result ≡ word_sum self other }
    {
        // The modulus is taken off with `other`, and comes back where that is too much.
        let (sum, borrow) = self.word.overflowing_sub(MODULUS - other.word);
        let word = if borrow { sum - CARRY } else { sum };
        Fe { word }
    }

    /// The difference of the two words: the word whose sum with `other` is this one.
    #[inline]
    pub fn sub(self, other: Fe) -> Fe
        ensures difference { result ≡ word_difference self other }
        ensures undone { word_sum result other ≡ self }
    {
        let (difference, borrow) = self.word.overflowing_sub(other.word);
        let word = if borrow {
            difference - CARRY
        } else {
            difference
        };
        Fe { word }
    }

    /// The negation of this word: the word whose sum with it is 0.
    #[inline]
    pub fn neg(self) -> Fe
        ensures negation { result ≡ word_negation self }
        ensures undone { word_sum result self ≡ 0 }
    {
        if self.word == 0 {
            Fe::ZERO
        } else {
            Fe {
                word: MODULUS - self.word,
            }
        }
    }

    /// The product of the two words.
    #[inline]
    pub fn mul(self, other: Fe) -> Fe
        ensures { result ≡ word_product self other }
    {
        Fe::from_wide(self.word as u128 * other.word as u128)
    }

    /// The word of a number below 2^128.
    #[inline]
    pub(crate) fn from_wide(number: u128) -> Fe
        ensures { result ≡ number % modulus }
    {
        let low = (number % 18446744073709551616) as u64;
        let high = (number / 18446744073709551616) as u64;
        Fe {
            word: reduced(low, high),
        }
    }

    /// The word that this number is.
    #[inline]
    pub(crate) fn from_word(word: u64) -> Fe
        requires { IsWord word }
        ensures { result ≡ word }
    {
        Fe { word }
    }

    /// The power of this word with this exponent. With the exponent 0 it is 1, of 0 too.
    pub fn pow(self, exponent: u64) -> Fe
        ensures { result ≡ word_power self exponent }
    {
        let mut power = Fe::ONE;
        let mut square = self;
        let mut left = exponent;
        while left > 0 {
            if left % 2 == 1 {
                power = power.mul(square);
            }
            square = square.mul(square);
            left /= 2;
        }
        power
    }
}

/// A 64-bit number less the modulus, where it is not below the modulus already.
#[inline]
fn below_modulus(total: u64) -> u64
    ensures { result ≡ total % modulus }
{
    if total < MODULUS {
        total
    } else {
        total - MODULUS
    }
}

/// The word of the number `low + 2^64 * high`.
///
/// With `high` split into `mid + 2^32 * top`, the number is `low + (2^32 - 1) * mid - top` modulo p.
#[inline]
fn reduced(low: u64, high: u64) -> u64
    ensures { result ≡ (low + 18446744073709551616 * high) % modulus }
{
    let mid = high % 4294967296;
    let top = high / 4294967296;
    let (wrapped, borrow) = low.overflowing_sub(top);
    let first = if borrow { wrapped - CARRY } else { wrapped };
    let (sum, carry) = first.overflowing_add(mid * CARRY);
    let whole = if carry { sum + CARRY } else { sum };
    below_modulus(whole)
}
