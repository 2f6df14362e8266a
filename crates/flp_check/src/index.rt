//! What unrolling meets in an index, and its value.
ghost use Rattle.std.specs.Prelude.{◌≡◌, ◌*◌, map, IfOk};
ghost use Rattle.flp_syntax.specs.Tree as tree;
ghost use Rattle.flp_syntax.specs.Scope.{index_value, sum_from, product_from};
ghost use Rattle.flp_syntax.specs.View.{index_of, index_item_of};
ghost use Rattle.flp_check.specs.Events.{in_range, step_events, in_words, index_events, sum_events, product_events, range_events};
ghost use Rattle.flp_syntax.specs.Scope.{next_front};
ghost use Rattle.flp_check.specs.Counts.{Counts, Walks};
ghost use Rattle.flp_check.specs.Held.{counts_of};
ghost use Rattle.flp_syntax.specs.View.{scope_of};

use crate::counter::Counter;
use crate::scope::Loop;
use flp_syntax::{Bound, Idx, IdxItem, LangFault, bound_value};

/// Refuses a value of an index, or of a part of it, above 4,294,967,295.
fn in_range(at: u32, value: u64) -> Result<u32, LangFault>
    ensures walked { (counts : Counts) → Walks counts (in_range at value) result counts }
    ensures value { IfOk result (λ given. given ≡ value) }
{
    if value > 4_294_967_295 {
        return Err(LangFault::Index(at));
    }
    Ok(value as u32)
}

/// The value of an index's sum after an item.
fn next_front(at: u32, minus: bool, front: u32, value: u32) -> Result<u32, LangFault>
    ensures walked { (counts : Counts) → Walks counts (step_events at minus front value) result counts }
    ensures value { IfOk result (λ given. given ≡ next_front minus front value) }
{
    if !minus {
        return in_range(at, front as u64 + value as u64);
    }
    if value > front {
        return Err(LangFault::Index(at));
    }
    Ok(front - value)
}

/// The value of an index's product after a factor.
fn times(at: u32, front: u32, value: u32) -> Result<u32, LangFault>
    ensures walked { (counts : Counts) → Walks counts (in_range at (front * value)) result counts }
    ensures value { IfOk result (λ given. given ≡ front * value) }
{
    in_range(at, front as u64 * value as u64)
}

/// Refuses a place that is not below the number of words.
pub fn in_words(at: u32, value: u32, words: u64) -> Result<(), LangFault>
    ensures { (counts : Counts) → Walks counts (in_words at value words) result counts }
{
    if value as u64 >= words {
        return Err(LangFault::Index(at));
    }
    Ok(())
}

impl Counter {
    /// The value of an index.
    #[cycle(index)]
    pub fn index(&mut self, scope: &[Bound], idx: &Idx) -> Result<u32, LangFault>
        ensures walked { Walks (counts_of self.old) (index_events (scope_of scope.now) (index_of idx.now)) result (counts_of self.new) }
        ensures value { IfOk result (λ value. value ≡ index_value (scope_of scope.now) (index_of idx.now)) }
    {
        self.visit()?;
        match idx {
            Idx::Number { at, value } => in_range(*at, *value),
            Idx::Var { at, name } => in_range(*at, bound_value(scope, name.as_slice()) as u64),
            Idx::Add { at, items } => self.sum(scope, *at, items.as_slice()),
            Idx::Mul { at, factors } => self.product(scope, *at, factors.as_slice()),
        }
    }

    /// The value of an index's sum.
    #[cycle(index)]
    fn sum(&mut self, scope: &[Bound], at: u32, items: &[IdxItem]) -> Result<u32, LangFault>
        ensures walked { Walks (counts_of self.old) (sum_events (scope_of scope.now) at 0 (tree.index_items (map index_item_of items.now))) result (counts_of self.new) }
        ensures value { IfOk result (λ value. value ≡ sum_from (scope_of scope.now) 0 (tree.index_items (map index_item_of items.now))) }
    {
        let mut front = 0;
        for item in items {
            let value = self.index(scope, &item.idx)?;
            let next = next_front(at, item.minus, front, value)?;
            front = next;
        }
        Ok(front)
    }

    /// The value of an index's product.
    #[cycle(index)]
    fn product(&mut self, scope: &[Bound], at: u32, factors: &[Idx]) -> Result<u32, LangFault>
        ensures walked { Walks (counts_of self.old) (product_events (scope_of scope.now) at 1 (tree.indices (map index_of factors.now))) result (counts_of self.new) }
        ensures value { IfOk result (λ value. value ≡ product_from (scope_of scope.now) 1 (tree.indices (map index_of factors.now))) }
    {
        let mut front = 1;
        for factor in factors {
            let value = self.index(scope, factor)?;
            let next = times(at, front, value)?;
            front = next;
        }
        Ok(front)
    }

    /// The bounds of a loop.
    pub fn range(&mut self, scope: &[Bound], ahead: Loop) -> Result<(u32, u32), LangFault>
        ensures walked { Walks (counts_of self.old) (range_events (scope_of scope.now) (index_of ahead.entry.from.now) (index_of ahead.entry.to.now)) result (counts_of self.new) }
        ensures value { IfOk result (λ bounds. (bounds.0 ≡ index_value (scope_of scope.now) (index_of ahead.entry.from.now)) × (bounds.1 ≡ index_value (scope_of scope.now) (index_of ahead.entry.to.now))) }
    {
        let from = self.index(scope, ahead.from)?;
        let to = self.index(scope, ahead.to)?;
        Ok((from, to))
    }
}
