//! The gadget of two inputs that multiplies them.
use crate::gadget::Gadget;
use flp_field::Fe;

/// The product of two inputs: arity 2, degree 2.
#[derive(Clone, Copy, PartialEq, Eq, Debug)]
pub struct Mul;

impl Gadget for Mul {
    ghost use Rattle.flp_gadget.specs.Formulas.{product_value, product_formula};
    ghost use Rattle.flp_gadget.specs.LawProofs.{law_of_product, limits_of_product};

    ghost valid = { λ _. Unit {0} };

    ghost arity = { λ _. 2 };

    ghost degree = { λ _. 2 };

    ghost value = { λ _. product_value };

    ghost formula = { λ _. product_formula };

    fn arity(&self) -> usize {
        2
    }

    fn degree(&self) -> usize {
        2
    }

    fn eval(&self, inputs: &[Fe]) -> Fe {
        inputs[0].mul(inputs[1])
    }

    ghost law = { λ _. law_of_product };

    ghost limits = { λ _ _. limits_of_product };
}
