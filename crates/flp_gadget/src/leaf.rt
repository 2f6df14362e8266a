//! The innermost gadget of a kind.
use crate::gadget::Gadget;
use crate::mul::Mul;
use crate::poly_eval::PolyEval;
use flp_field::Fe;

/// The gadget that a kind applies to each of its groups of inputs.
#[derive(Debug, Drop)]
pub(crate) enum Leaf {
    Product,
    Polynomial(PolyEval),
}

impl Gadget for Leaf {
    ghost use Rattle.flp_gadget.specs.KindTree.{kind_arity, kind_degree, value_of, formula_of};
    ghost use Rattle.flp_gadget.specs.FlatKind.{leaf_tree};
    ghost use Rattle.flp_gadget.specs.KindProofs.{law_of_kind, limits_of_leaf};

    ghost valid = { λ _. Unit {0} };

    ghost arity = { λ leaf. kind_arity (leaf_tree leaf) };

    ghost degree = { λ leaf. kind_degree (leaf_tree leaf) };

    ghost value = { λ leaf. value_of (leaf_tree leaf) };

    ghost formula = { λ leaf. formula_of (leaf_tree leaf) };

    fn arity(&self) -> usize {
        match self {
            Leaf::Product => Mul.arity(),
            Leaf::Polynomial(poly) => poly.arity(),
        }
    }

    fn degree(&self) -> usize {
        match self {
            Leaf::Product => Mul.degree(),
            Leaf::Polynomial(poly) => poly.degree(),
        }
    }

    fn eval(&self, inputs: &[Fe]) -> Fe {
        match self {
            Leaf::Product => Mul.eval(inputs),
            Leaf::Polynomial(poly) => poly.eval(inputs),
        }
    }

    ghost law = { λ leaf. law_of_kind (leaf_tree leaf) };

    ghost limits = { λ leaf _. limits_of_leaf leaf };
}
