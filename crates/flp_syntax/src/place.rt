//! Where a node begins: the number of its first token.
ghost use Rattle.std.specs.Prelude.{◌≡◌};
ghost use Rattle.flp_syntax.specs.Tree.{index_at, tree_at};
ghost use Rattle.flp_syntax.specs.View.{index_of, tree_of};

use crate::syntax::{Expr, Idx};

/// Where an expression begins.
#[tactic(auto, using(crate::specs::View::view_equations))]
pub fn tree_at(expr: &Expr) -> u32
    ensures { result ≡ tree_at (tree_of expr.now) }
{
    match expr {
        Expr::Number { at, .. }
        | Expr::Var { at, .. }
        | Expr::Joint { at, .. }
        | Expr::Meas { at, .. }
        | Expr::MeasOrZero { at, .. }
        | Expr::Sum { at, .. }
        | Expr::Call { at, .. }
        | Expr::Add { at, .. }
        | Expr::Mul { at, .. }
        | Expr::Pow { at, .. } => *at,
    }
}

/// Where an index begins.
#[tactic(auto, using(crate::specs::View::view_equations))]
pub fn index_at(idx: &Idx) -> u32
    ensures { result ≡ index_at (index_of idx.now) }
{
    match idx {
        Idx::Number { at, .. } | Idx::Var { at, .. } | Idx::Add { at, .. } | Idx::Mul { at, .. } =>
            *at,
    }
}
