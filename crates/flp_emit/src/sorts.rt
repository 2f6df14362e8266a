//! The one shared factor of a product.
ghost use Rattle.std.specs.Prelude.{◌≡◌, ◌<◌, true, false, map, length, slice_index_or};
ghost use Rattle.flp_syntax.specs.declared.syntax.Expr as tree;
ghost use Rattle.flp_syntax.specs.Tree.{trees};
ghost use Rattle.flp_syntax.specs.Sorts.{has_shared};
ghost use Rattle.flp_syntax.specs.Linear.{FactorsAreLinear};
ghost use Rattle.flp_syntax.specs.View.{tree_of};
ghost use Rattle.flp_emit.specs.Marks.{BeginWith, factor_marks, marks_of};
ghost use Rattle.flp_emit.specs.Emitting.{IsOneShared};

use crate::marks::{Mark, behind_first, first_is_shared};
use flp_syntax::Expr;

/// The place of the one shared factor of a product, and the marks from its own on.
pub(crate) fn shared_place<'a>(factors: &[Expr], marks: &'a [Mark]) -> (usize, &'a [Mark])
    requires shared { has_shared (trees (map tree_of factors.now)) ≡ true }
    requires linear { FactorsAreLinear false false (trees (map tree_of factors.now)) }
    requires marks { BeginWith marks.now (factor_marks (trees (map tree_of factors.now))) }
    ensures within { result.0 < length factors.now }
    ensures one { (factor : tree.Expr) → factor ≡ slice_index_or factors.now result.0 factor → IsOneShared (tree_of factor) (trees (map tree_of factors.now)) }
    ensures marks { (factor : tree.Expr) → factor ≡ slice_index_or factors.now result.0 factor → BeginWith result.1.now (marks_of (tree_of factor)) }
{
    let mut left = marks;
    for place in 0..factors.len() {
        if first_is_shared(left) {
            return (place, left);
        }
        left = behind_first(left);
    }
    unreachable!()
}
