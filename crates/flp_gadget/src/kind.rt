//! The kinds of gadget that a circuit declares.
ghost use Rattle.std.specs.Prelude.{◌≡◌, IfOk};
ghost use Rattle.std.specs.Option.{IsSomeAnd};
ghost use Rattle.flp_gadget.specs.KindTree.{IsKind};
ghost use Rattle.flp_gadget.specs.KindText.{tree_of};

use crate::Memory;
use crate::gadget::Gadget;
use crate::kind_step::KindStep;
use crate::leaf::Leaf;
use crate::parallel_sum::sum_over;
use crate::poly_eval::PolyEval;
use flp_field::Fe;
use flp_list::List;
use std::alloc::Global;
use std::marker::Model;

/// A gadget that a circuit declares: a product or a polynomial, under sums over groups of inputs to any
/// depth. It is made by [`kind_of`] alone.
///
/// Contracts see the tree of the declaration. Evaluation uses its flat form, in which the leaf is applied to
/// as many groups as the product of the counts: it takes no memory and does not descend.
#[derive(Debug, Drop)]
pub struct Kind {
    /// The counts of the sums, the outermost first.
    counts: Vec<u32>,
    /// The product of the counts.
    groups: u32,
    leaf: Leaf,
}

impl Model for Kind {
    ghost use Rattle.flp_gadget.specs.KindTree.{KindTree, kind_tree_code, tree_over};

    ghost Value = { KindTree };

    ghost coded = { kind_tree_code };

    ghost use Rattle.flp_gadget.specs.FlatKind.{leaf_tree, IsFlat};

    ghost view = { λ kind. tree_over kind.counts.items (leaf_tree kind.leaf) };

    ghost invariant = { λ kind. IsFlat kind.counts.items kind.groups (leaf_tree kind.leaf) };
}

impl Gadget for Kind {
    ghost use Rattle.flp_gadget.specs.KindTree.{kind_arity, kind_degree, value_of, formula_of, IsKind};
    ghost use Rattle.flp_gadget.specs.KindProofs.{law_of_kind, limits_of_kind};

    ghost valid = { IsKind };

    ghost arity = { kind_arity };

    ghost degree = { kind_degree };

    ghost value = { value_of };

    ghost formula = { formula_of };

    fn arity(&self) -> usize {
        self.groups as usize * self.leaf.arity()
    }

    fn degree(&self) -> usize {
        self.leaf.degree()
    }

    fn eval(&self, inputs: &[Fe]) -> Fe {
        sum_over(&self.leaf, self.groups, inputs)
    }

    ghost law = { law_of_kind };

    ghost limits = { limits_of_kind };
}

/// The kind of this text, from its outermost step inward: `Psum` steps first, each with a count of at least
/// 1, then one `Mul` or `Poly` and nothing after it, with at most 1,024 inputs in all.
pub fn kind_of(alloc: Global, text: &[KindStep]) -> Result<Kind, Memory>
    requires { IsSomeAnd (tree_of text.now) IsKind }
    ensures { IfOk result (λ kind. Some kind ≡ tree_of text.now) }
{
    let mut counts = Vec::new(alloc);
    let mut groups = 1;
    for step in text {
        match step {
            KindStep::Psum(count) => {
                counts.push(*count)?;
                groups *= *count;
            }
            KindStep::Mul => {
                let leaf = Leaf::Product;
                return Ok(Kind {
                    counts,
                    groups,
                    leaf,
                });
            }
            KindStep::Poly(poly) => {
                let leaf = Leaf::Polynomial(copy_of(alloc, poly)?);
                return Ok(Kind {
                    counts,
                    groups,
                    leaf,
                });
            }
        }
    }
    unreachable!()
}

/// A gadget with the same coefficients.
fn copy_of(alloc: Global, poly: &PolyEval) -> Result<PolyEval, Memory>
    ensures { IfOk result (λ copy. copy.coeffs ≡ poly.now.coeffs) }
{
    let coeffs = List::from_vec(poly.coeffs.as_slice().to_vec(alloc)?);
    Ok(PolyEval { coeffs })
}
