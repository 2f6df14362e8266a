//! The values of indices.
ghost use Rattle.std.specs.Prelude.{◌≡◌, ◌*◌, ◌<◌, ◌^◌, map};
ghost use Rattle.flp_syntax.specs.Tree.{index_items, indices};
ghost use Rattle.flp_syntax.specs.Scope.{index_value, sum_from, product_from, next_front};
ghost use Rattle.flp_syntax.specs.View.{index_of, index_item_of};
ghost use Rattle.flp_syntax.specs.Fits.{CanMove, IndexFits, SumFits, ProductFits};
ghost use Rattle.flp_syntax.specs.View.{scope_of};

use crate::scope::Turns;
use flp_list::Bytes;
use flp_syntax::{Bound, Idx, IdxItem, bound_value};

/// The turns of a loop with this variable and these bounds.
pub(crate) fn turns_of<'a>(scope: &[Bound], name: &'a Bytes, from: &Idx, to: &Idx) -> Turns<'a>
    requires from { IndexFits (scope_of scope.now) (index_of from.now) }
    requires to { IndexFits (scope_of scope.now) (index_of to.now) }
    ensures name { result.name.now ≡ name.now }
    ensures from { result.from ≡ index_value (scope_of scope.now) (index_of from.now) }
    ensures to { result.to ≡ index_value (scope_of scope.now) (index_of to.now) }
{
    Turns {
        name: name.as_slice(),
        from: index_value(scope, from),
        to: index_value(scope, to),
    }
}

/// The value of an index.
#[cycle(index)]
#[tactic(auto, using(flp_syntax::specs::View::view_equations))]
pub(crate) fn index_value(scope: &[Bound], index: &Idx) -> u32
    requires { IndexFits (scope_of scope.now) (index_of index.now) }
    ensures { result ≡ index_value (scope_of scope.now) (index_of index.now) }
{
    match index {
        Idx::Number { value, .. } => *value as u32,
        Idx::Var { name, .. } => bound_value(scope, name.as_slice()),
        Idx::Add { items, .. } => sum_value(scope, items.as_slice()),
        Idx::Mul { factors, .. } => product_value(scope, factors.as_slice()),
    }
}

/// The sum of the items, each added or subtracted.
#[cycle(index)]
fn sum_value(scope: &[Bound], items: &[IdxItem]) -> u32
    requires { SumFits (scope_of scope.now) 0 (index_items (map index_item_of items.now)) }
    ensures { result ≡ sum_from (scope_of scope.now) 0 (index_items (map index_item_of items.now)) }
{
    let mut sum = 0;
    for item in items {
        let value = index_value(scope, &item.idx);
        sum = next(sum, item.minus, value);
    }
    sum
}

/// The product of the factors.
#[cycle(index)]
fn product_value(scope: &[Bound], factors: &[Idx]) -> u32
    requires { ProductFits (scope_of scope.now) 1 (indices (map index_of factors.now)) }
    ensures { result ≡ product_from (scope_of scope.now) 1 (indices (map index_of factors.now)) }
{
    let mut product = 1;
    for factor in factors {
        let value = index_value(scope, factor);
        product = times(product, value);
    }
    product
}

/// The sum and one more item, which is added or subtracted.
fn next(sum: u32, minus: bool, value: u32) -> u32
    requires { CanMove minus sum value }
    ensures { result ≡ next_front minus sum value }
{
    if minus { sum - value } else { sum + value }
}

/// The product and one more factor.
fn times(product: u32, value: u32) -> u32
    requires { product * value < 2 ^ 32 }
    ensures { result ≡ product * value }
{
    product * value
}
