//! The inverse of a word.
ghost use Rattle.std.specs.Prelude.{◌≡◌, ◌<◌, ◌^◌};
ghost use Rattle.flp_field.specs.Word.{word_product, word_power};

use crate::word::Fe;

impl Fe {
    /// The inverse of this word: the word whose product with it is 1. The word is not 0.
    ///
    /// It is the power with the exponent p - 2, which has 31 ones, a zero and 32 ones as its bits: a
    /// run of ones is the run before it, shifted, and a shorter one. This takes 64 squares and 9 products.
    pub fn inv(self) -> Fe
        requires { 0 < self }
        ensures product { word_product result self ≡ 1 }
    {
        // The proof reads from here that the word is below the modulus.
        let _word = self.value();
        let ones_2 = self.shifted(1, self);
        let ones_3 = ones_2.shifted(1, self);
        let ones_6 = ones_3.shifted(3, ones_3);
        let ones_12 = ones_6.shifted(6, ones_6);
        let ones_24 = ones_12.shifted(12, ones_12);
        let ones_30 = ones_24.shifted(6, ones_6);
        let ones_31 = ones_30.shifted(1, self);
        let ones_32 = ones_31.shifted(1, self);
        ones_31.shifted(33, ones_32)
    }

    /// This word squared so many times, times `low`: the exponent is shifted, and that of `low` added.
    #[inline]
    fn shifted(self, bits: u32, low: Fe) -> Fe
        ensures { result ≡ word_product (word_power self (2 ^ bits)) low }
    {
        let mut square = self;
        for _ in 0..bits {
            square = square.mul(square);
        }
        square.mul(low)
    }
}
