//! Indices with their loops named by depth.
ghost use Rattle.std.specs.Prelude.{◌≡◌, length, map, IfOk};
ghost use Rattle.flp_syntax.specs.Tree as tree;
ghost use Rattle.flp_syntax.specs.View.{index_of, index_item_of, names_of};
ghost use Rattle.flp_rename.specs.Renamed.{depth_name, renamed_index, renamed_index_items, renamed_indices};

use crate::names::{loop_name, next_name};
use flp_list::{Bytes, List};
use flp_syntax::{Idx, IdxItem};
use std::alloc::{AllocError, Global};

/// An index, its variables named by the depths of their loops.
#[cycle(index)]
#[tactic(auto, using(flp_syntax::specs::View::view_equations))]
pub fn index(alloc: Global, names: &[&[u8]], idx: &Idx) -> Result<Idx, AllocError>
    ensures { IfOk result (λ copy. index_of copy ≡ renamed_index (names_of names.now) (index_of idx.now)) }
{
    match idx {
        Idx::Number { at, value } => Ok(Idx::Number {
            at: *at,
            value: *value,
        }),
        Idx::Var { at, name } => {
            let name = loop_name(alloc, names, name.as_slice())?;
            Ok(Idx::Var { at: *at, name })
        }
        Idx::Add { at, items } => {
            let items = index_items(alloc, names, items.as_slice())?;
            Ok(Idx::Add { at: *at, items })
        }
        Idx::Mul { at, factors } => {
            let factors = indices(alloc, names, factors.as_slice())?;
            Ok(Idx::Mul { at: *at, factors })
        }
    }
}

/// The items of an index's sum.
#[cycle(index)]
fn index_items(
    alloc: Global,
    names: &[&[u8]],
    items: &[IdxItem],
) -> Result<List<IdxItem>, AllocError>
    ensures { IfOk result (λ copy. tree.index_items (map index_item_of copy) ≡ renamed_index_items (names_of names.now) (tree.index_items (map index_item_of items.now))) }
{
    let mut copy = Vec::with_capacity(alloc, items.len())?;
    for item in items {
        let idx = index(alloc, names, &item.idx)?;
        copy.push(IdxItem {
            minus: item.minus,
            idx,
        })?;
    }
    Ok(List::from_vec(copy))
}

/// The factors of an index's product.
#[cycle(index)]
fn indices(alloc: Global, names: &[&[u8]], factors: &[Idx]) -> Result<List<Idx>, AllocError>
    ensures { IfOk result (λ copy. tree.indices (map index_of copy) ≡ renamed_indices (names_of names.now) (tree.indices (map index_of factors.now))) }
{
    let mut copy = Vec::with_capacity(alloc, factors.len())?;
    for factor in factors {
        let factor = index(alloc, names, factor)?;
        copy.push(factor)?;
    }
    Ok(List::from_vec(copy))
}

/// A loop's name and its bounds.
#[derive(Drop)]
pub struct Head {
    pub name: Bytes,
    pub from: Idx,
    pub to: Idx,
}

/// The name and the bounds of the loop inside these.
pub fn loop_head(alloc: Global, names: &[&[u8]], from: &Idx, to: &Idx) -> Result<Head, AllocError>
    ensures name { IfOk result (λ head. head.name ≡ depth_name (length (names_of names.now))) }
    ensures from { IfOk result (λ head. index_of head.from ≡ renamed_index (names_of names.now) (index_of from.now)) }
    ensures to { IfOk result (λ head. index_of head.to ≡ renamed_index (names_of names.now) (index_of to.now)) }
{
    let name = next_name(alloc, names)?;
    let from = index(alloc, names, from)?;
    let to = index(alloc, names, to)?;
    Ok(Head { name, from, to })
}
