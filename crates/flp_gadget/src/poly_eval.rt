//! The gadget of one input that evaluates a polynomial there.
ghost use Rattle.std.specs.Prelude.{◌≤◌, length};

use crate::gadget::Gadget;
use flp_field::Fe;
use flp_list::List;

/// The value of a polynomial at the one input. The degree is the number of coefficients less one, also
/// where the last of them is 0.
#[derive(PartialEq, Eq, Debug, Drop)]
pub struct PolyEval {
    /// The coefficients, lowest first: 2 to 9 of them.
    pub coeffs: List<Fe>,
    pub ghost some: { 2 ≤ length coeffs },
    pub ghost few: { length coeffs ≤ 9 },
}

impl Gadget for PolyEval {
    ghost use Rattle.std.specs.Prelude.{◌-◌, length};
    ghost use Rattle.flp_gadget.specs.Formulas.{poly_value, poly_formula};
    ghost use Rattle.flp_gadget.specs.LawProofs.{law_of_poly, limits_of_poly};

    ghost valid = { λ _. Unit {0} };

    ghost arity = { λ _. 1 };

    ghost degree = { λ g. length g.coeffs - 1 };

    ghost value = { λ g. poly_value g.coeffs };

    ghost formula = { λ g. poly_formula g.coeffs };

    fn arity(&self) -> usize {
        1
    }

    fn degree(&self) -> usize {
        self.coeffs.as_slice().len() - 1
    }

    fn eval(&self, inputs: &[Fe]) -> Fe {
        flp_poly::eval(self.coeffs.as_slice(), inputs[0])
    }

    ghost law = { λ g. law_of_poly g.coeffs };

    ghost limits = { λ g _. limits_of_poly g.coeffs g.some g.few };
}
