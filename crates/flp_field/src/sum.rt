//! Sums of products of words, as whole numbers that are brought below the modulus once.
ghost use Rattle.std.specs.Prelude.{◌≡◌, ℕ, ◌+◌, ◌*◌, ◌%◌, ◌<◌, ◌≤◌, length};
ghost use Rattle.flp_field.specs.Word.{modulus};
ghost use Rattle.flp_field.specs.Sums.{dot_product};

use crate::word::Fe;
use std::marker::Model;

/// A sum of products of words, as a whole number.
///
/// Contracts see the number, which stays below 2^160: each call adds less than 2^128, so that 2^32 - 1 of
/// them have room. A product is added with its carry, and no remainder is taken before [`Sum::word`].
#[derive(Clone, Copy, Debug)]
pub struct Sum {
    low: u128,
    carries: u64,
}

impl Model for Sum {
    ghost use Rattle.std.specs.Prelude.{ℕ, ◌+◌, ◌*◌, ◌/◌, ◌%◌, ◌<◌};

    ghost Value = { ℕ };

    ghost view = { λ s. s.low + 340282366920938463463374607431768211456 * s.carries };

    ghost invariant = { λ s. s.low < 340282366920938463463374607431768211456 };

    ghost inverse = { λ n. record { low = n % 340282366920938463463374607431768211456; carries = n / 340282366920938463463374607431768211456 } };
}

impl Sum {
    /// The sum of nothing.
    #[inline]
    pub fn new() -> Sum
        ensures { result ≡ 0 }
    {
        Sum { low: 0, carries: 0 }
    }

    /// Adds the product of the two words.
    #[inline]
    pub fn add_product(&mut self, a: Fe, b: Fe)
        requires room { self.old + 340282366920938463463374607431768211456 ≤ 1461501637330902918203684832716283019655932542976 }
        ensures sum { self.new ≡ self.old + a * b }
        ensures below { self.new < self.old + 340282366920938463463374607431768211456 }
    {
        self.add(a.value() as u128 * b.value() as u128);
    }

    /// Adds the word.
    #[inline]
    pub fn add_word(&mut self, a: Fe)
        requires room { self.old + 340282366920938463463374607431768211456 ≤ 1461501637330902918203684832716283019655932542976 }
        ensures sum { self.new ≡ self.old + a }
        ensures below { self.new < self.old + 340282366920938463463374607431768211456 }
    {
        self.add(a.value() as u128);
    }

    /// Adds a number below 2^128.
    #[inline]
    fn add(&mut self, number: u128)
        requires room { self.old + 340282366920938463463374607431768211456 ≤ 1461501637330902918203684832716283019655932542976 }
        ensures sum { self.new ≡ self.old + number }
        ensures below { self.new < self.old + 340282366920938463463374607431768211456 }
    {
        let (low, carry) = self.low.overflowing_add(number);
        self.low = low;
        self.carries += carry as u64;
    }

    /// The word of the sum.
    ///
    /// 2^128 is -2^32 in the field, so that the carries are taken off.
    #[inline]
    pub fn word(self) -> Fe
        requires room { self < 1461501637330902918203684832716283019655932542976 }
        ensures { result ≡ self % modulus }
    {
        Fe::from_wide(self.low).sub(Fe::from_word(self.carries * 4294967296))
    }
}

/// The sum of the products of the elements with one index: the inner product of two slices of one length,
/// below 2^32.
pub fn dot(a: &[Fe], b: &[Fe]) -> Fe
    requires lengths { length a.now ≡ length b.now }
    requires few { length a.now < 4294967296 }
    ensures { result ≡ dot_product a.now b.now }
{
    let mut sum = Sum::new();
    for k in 0..a.len() {
        sum.add_product(a[k], b[k]);
    }
    sum.word()
}
