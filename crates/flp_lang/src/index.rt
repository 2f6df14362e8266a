//! The rules of indices.
ghost use Rattle.std.specs.Prelude.{◌≡◌, ◌≤◌, ◌<◌, ℕ, List, Bool, length, map, IfOk};
ghost use Rattle.flp_syntax.specs.Tree.{Index, index_sum, index_product};
ghost use Rattle.flp_syntax.specs.View.{index_of, index_item_of};
ghost use Rattle.flp_lang.specs.Ahead as ahead;
ghost use Rattle.flp_lang.specs.Ahead.{Ahead, next};
ghost use Rattle.flp_lang.specs.Run.{Runs};

use crate::parser::Parser;
use flp_list::List;
use flp_syntax::{Idx, IdxItem, LangFault, Mark, index_at};
use std::alloc::AllocError;

/// The sum of a first index and more; where there are no more, the first.
#[tactic(auto, using(flp_syntax::specs::View::view_equations))]
fn index_sum(first: Idx, mut more: Vec<IdxItem>) -> Result<Idx, AllocError>
    ensures { IfOk result (λ v. index_of v ≡ index_sum (index_of first) (map index_item_of more.items)) }
{
    if more.is_empty() {
        return Ok(first);
    }
    let at = index_at(&first);
    more.insert(
        0,
        IdxItem {
            minus: false,
            idx: first,
        },
    )?;
    Ok(Idx::Add {
        at,
        items: List::from_vec(more),
    })
}

/// The product of a first index and more; where there are no more, the first.
#[tactic(auto, using(flp_syntax::specs::View::view_equations))]
fn index_product(first: Idx, mut more: Vec<Idx>) -> Result<Idx, AllocError>
    ensures { IfOk result (λ v. index_of v ≡ index_product (index_of first) (map index_of more.items)) }
{
    if more.is_empty() {
        return Ok(first);
    }
    let at = index_at(&first);
    more.insert(0, first)?;
    Ok(Idx::Mul {
        at,
        factors: List::from_vec(more),
    })
}

impl Parser<'_> {
    /// `idx = iterm { ( "+" | "-" ) iterm }`
    #[cycle(index)]
    pub fn index(&mut self, level: u32) -> Result<Idx, LangFault>
        requires { level ≤ 64 }
        ensures runs { (K : Index → Ahead) → Runs (level, 0) self.old.at (next ahead.index K) self.old.rest.now result (λ _. (level, 0)) self.new.at (λ v. K (index_of v)) self.new.rest.now }
        ensures left { IfOk result (λ _. length self.new.rest.now < length self.old.rest.now) }
    {
        let first = self.index_term(level)?;
        let more = self.more_index_terms(level)?;
        Ok(index_sum(first, more)?)
    }

    /// `{ ( "+" | "-" ) iterm }`
    #[cycle(index)]
    fn more_index_terms(&mut self, level: u32) -> Result<Vec<IdxItem>, LangFault>
        requires { level ≤ 64 }
        ensures runs { (K : List (Bool × Index) → Ahead) → Runs (level, 0) self.old.at (next ahead.index_terms K) self.old.rest.now result (λ _. (level, 0)) self.new.at (λ v. K (map index_item_of v.items)) self.new.rest.now }
        ensures left { IfOk result (λ _. length self.new.rest.now ≤ length self.old.rest.now) }
    {
        let mut items = Vec::new(self.alloc);
        loop {
            match self.sign() {
                Some(minus) => {
                    let idx = self.index_term(level)?;
                    items.push(IdxItem { minus, idx })?;
                }
                None => break,
            }
        }
        Ok(items)
    }

    /// `iterm = iprim { "*" iprim }`
    #[cycle(index)]
    fn index_term(&mut self, level: u32) -> Result<Idx, LangFault>
        requires { level ≤ 64 }
        ensures runs { (K : Index → Ahead) → Runs (level, 0) self.old.at (next ahead.index_term K) self.old.rest.now result (λ _. (level, 0)) self.new.at (λ v. K (index_of v)) self.new.rest.now }
        ensures left { IfOk result (λ _. length self.new.rest.now < length self.old.rest.now) }
    {
        let first = self.index_prim(level)?;
        let more = self.more_index_factors(level)?;
        Ok(index_product(first, more)?)
    }

    /// `{ "*" iprim }`
    #[cycle(index)]
    fn more_index_factors(&mut self, level: u32) -> Result<Vec<Idx>, LangFault>
        requires { level ≤ 64 }
        ensures runs { (K : List Index → Ahead) → Runs (level, 0) self.old.at (next ahead.index_factors K) self.old.rest.now result (λ _. (level, 0)) self.new.at (λ v. K (map index_of v.items)) self.new.rest.now }
        ensures left { IfOk result (λ _. length self.new.rest.now ≤ length self.old.rest.now) }
    {
        let mut factors = Vec::new(self.alloc);
        while self.eat(Mark::Star) {
            let factor = self.index_prim(level)?;
            factors.push(factor)?;
        }
        Ok(factors)
    }

    /// `iprim = NUMBER | NAME | "(" idx ")"`
    #[cycle(index)]
    #[tactic(auto, using(flp_syntax::specs::View::view_equations))]
    pub fn index_prim(&mut self, level: u32) -> Result<Idx, LangFault>
        requires { level ≤ 64 }
        ensures runs { (K : Index → Ahead) → Runs (level, 0) self.old.at (next ahead.index_prim K) self.old.rest.now result (λ _. (level, 0)) self.new.at (λ v. K (index_of v)) self.new.rest.now }
        ensures left { IfOk result (λ _. length self.new.rest.now < length self.old.rest.now) }
    {
        let at = self.at;
        match self.number() {
            Some(number) => {
                return Ok(Idx::Number {
                    at,
                    value: number.value(),
                });
            }
            None => {}
        }
        match self.name()? {
            Some(name) => return Ok(Idx::Var { at, name }),
            None => {}
        }
        let inner = self.open(level)?;
        let index = self.index(inner)?;
        self.expect(Mark::Close)?;
        Ok(index)
    }
}
