//! The laws of the field, each the contract of a function that does nothing. A caller's proof takes
//! the law from here; the definitions are in `specs/Laws.antt`, `specs/Order.antt`,
//! `specs/Domain.antt` and `specs/Sums.antt`.
//!
//! That each word but 0 has an inverse rests on the order of 7 alone: nothing here assumes that the
//! modulus is prime.
ghost use Rattle.flp_field.specs.Word.{AreWords};
ghost use Rattle.flp_field.specs.Laws.{SumAssociates, SumCommutes, SumHasZero, SumHasNegation, DifferenceNegates};
ghost use Rattle.flp_field.specs.Laws.{ProductAssociates, ProductCommutes, ProductHasOne, ProductDistributes};
ghost use Rattle.flp_field.specs.Laws.{NoZeroDivisors, HasInverses, InversesAreUnique, FoldsProduct};
ghost use Rattle.flp_field.specs.Order.{SevenHasOrder, SevenGenerates, FullPowerIsOne};
ghost use Rattle.flp_field.specs.Domain.{RootsHaveOrder, DomainIsRoots, PowersDiffer, PowersSumToZero, OnesSumToCount};
ghost use Rattle.flp_field.specs.Sums.{SumHasWords, SumOfNoLists, SumOfOneList, SumHasFirst, SumHasParts};

use crate::word::Fe;

/// Sums are associative and commutative, 0 is neutral, and each word has a negation.
pub fn sums()
    ensures associate { SumAssociates }
    ensures commute { SumCommutes }
    ensures zero { SumHasZero }
    ensures negation { SumHasNegation }
    ensures difference { DifferenceNegates }
{}

/// Products are associative and commutative, 1 is neutral, and products distribute over sums.
pub fn products()
    ensures associate { ProductAssociates }
    ensures commute { ProductCommutes }
    ensures one { ProductHasOne }
    ensures distribute { ProductDistributes }
{}

/// A product of two words is 0 only where one of them is.
pub fn no_zero_divisors()
    ensures { NoZeroDivisors }
{}

/// Each word but 0 has an inverse, and only one.
pub fn inverses()
    ensures exist { HasInverses }
    ensures unique { InversesAreUnique }
{}

/// 2^64 is 2^32 - 1 and 2^96 is -1, so that a product of two words is reduced by shifts.
pub fn fold_product()
    ensures { FoldsProduct }
{}

/// 7 has order p - 1: no smaller positive power of it is 1.
pub fn order_of_seven()
    ensures { SevenHasOrder }
{}

/// Each word but 0 is a power of 7, and so its power with the exponent p - 1 is 1.
pub fn powers_of_seven()
    ensures all { SevenGenerates }
    ensures full { FullPowerIsOne }
{}

/// The root of unity of size 2^log has order 2^log, for each log up to 32.
pub fn order_of_roots()
    ensures { RootsHaveOrder }
{}

/// A word lies in the domain of a size exactly where its power with that exponent is 1.
pub fn domain_is_roots()
    ensures { DomainIsRoots }
{}

/// The powers of a word differ pairwise below its order.
pub fn powers_differ()
    ensures { PowersDiffer }
{}

/// The sum of the powers of a root of unity, as many as the exponent with which its power is 1, is 0, or
/// their count where the root is 1.
pub fn sums_of_powers()
    ensures zero { PowersSumToZero }
    ensures count { OnesSumToCount }
{}

/// A sum of lists of n words, word by word, has n words. That of no lists is 0, that of one list is the list,
/// and that of several is the sum of the first and of the sum of the others; its parts are the sums of theirs.
pub fn sums_of_lists()
    ensures words { SumHasWords }
    ensures none { SumOfNoLists }
    ensures one { SumOfOneList }
    ensures first { SumHasFirst }
    ensures parts { SumHasParts }
{}

/// Each element of a slice of words is a word. A proof learns it from here, and a build drops the loop.
pub fn words(values: &[Fe])
    ensures { AreWords values.now }
{
    for x in values {
        let _word = x.value();
    }
}
