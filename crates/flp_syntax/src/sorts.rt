//! Which expressions are shared.
ghost use Rattle.std.specs.Prelude.{◌≡◌, map};
ghost use Rattle.flp_syntax.specs.Tree.{items, trees};
ghost use Rattle.flp_syntax.specs.Sorts.{is_shared, has_shared_item, has_shared};
ghost use Rattle.flp_syntax.specs.View.{tree_of, item_of};

use crate::syntax::{Expr, Item};

/// Whether an expression reads words of the encoding or answers of gadgets.
#[cycle(sorts)]
#[tactic(auto, using(crate::specs::View::view_equations))]
pub fn is_shared(expr: &Expr) -> bool
    ensures { result ≡ is_shared (tree_of expr.now) }
{
    match expr {
        Expr::Number { .. } | Expr::Var { .. } | Expr::Joint { .. } => false,
        Expr::Meas { .. } | Expr::MeasOrZero { .. } | Expr::Call { .. } => true,
        Expr::Sum { inner, .. } => is_shared(inner),
        Expr::Add { items, .. } => has_shared_item(items.as_slice()),
        Expr::Mul { factors, .. } => has_shared(factors.as_slice()),
        Expr::Pow { base, .. } => is_shared(base),
    }
}

/// Whether some item of a sum is shared.
#[cycle(sorts)]
#[tactic(auto, using(crate::specs::View::view_equations))]
pub fn has_shared_item(list: &[Item]) -> bool
    ensures { result ≡ has_shared_item (items (map item_of list.now)) }
{
    for item in list {
        if is_shared(&item.expr) {
            return true;
        }
    }
    false
}

/// Whether some factor of a product is shared.
#[cycle(sorts)]
#[tactic(auto, using(crate::specs::View::view_equations))]
pub fn has_shared(factors: &[Expr]) -> bool
    ensures { result ≡ has_shared (trees (map tree_of factors.now)) }
{
    for factor in factors {
        if is_shared(factor) {
            return true;
        }
    }
    false
}
