//! The laws of gadgets as contracts, from which a caller's proof takes them: those of any gadget, and those
//! of kinds as the trees that contracts see. The definitions are in `specs/GadgetLaws.antt` and
//! `specs/FormulaLaws.antt`.
ghost use Rattle.flp_gadget.specs.GadgetLaws.{GadgetLaw, IsWithinLimits};
ghost use Rattle.flp_gadget.specs.FormulaLaws.{KindsObeyLaw, KindsAreWithinLimits, ValueIsWord, FormulaHasWords, FormulaHasSize};

use crate::gadget::Gadget;

/// The two laws of the trait for this gadget. Applied to polynomials and then evaluated it is the gadget of
/// their values, and where they have degree at most d it has degree at most d times the gadget's. It has 1 to
/// 1,024 inputs and degree 1 to 8.
pub fn gadget<G: Gadget>(gadget: &G)
    ensures law { GadgetLaw (G.arity gadget.now) (G.degree gadget.now) (G.value gadget.now) (G.formula gadget.now) }
    ensures limits { IsWithinLimits (G.arity gadget.now) (G.degree gadget.now) }
{
    let _arity = gadget.arity();
}

/// The same two laws of every kind.
pub fn kinds()
    ensures law { KindsObeyLaw }
    ensures limits { KindsAreWithinLimits }
{}

/// The value of a kind is a word.
pub fn values()
    ensures { ValueIsWord }
{}

/// At as many polynomials as its arity, with n coefficients each and n at least 1, a kind of degree d gives
/// d * (n - 1) + 1 coefficients. At any polynomials the coefficients that it gives are words.
pub fn formulas()
    ensures words { FormulaHasWords }
    ensures size { FormulaHasSize }
{}
