//! Expressions with their loops named by depth.
ghost use Rattle.std.specs.Prelude.{◌≡◌, ◌++◌, ◌∷◌, [], map, IfOk};
ghost use Rattle.flp_syntax.specs.Tree as tree;
ghost use Rattle.flp_syntax.specs.View.{tree_of, item_of, arg_of, index_of, names_of};
ghost use Rattle.flp_rename.specs.Renamed.{renamed_tree, renamed_items, renamed_trees, renamed_argument, renamed_arguments};

use crate::index::{index, loop_head};
use crate::names::{loop_name, names_inside};
use flp_list::List;
use flp_syntax::{Arg, Expr, Item};
use std::alloc::{AllocError, Global};

/// An expression, its loops named by their depths.
#[cycle(tree)]
#[tactic(auto, using(flp_syntax::specs::View::view_equations))]
pub fn tree<'a>(alloc: Global, names: &[&'a [u8]], expr: &'a Expr) -> Result<Expr, AllocError>
    ensures { IfOk result (λ copy. tree_of copy ≡ renamed_tree (names_of names.now) (tree_of expr.now)) }
{
    match expr {
        Expr::Number { at, value } => Ok(Expr::Number {
            at: *at,
            value: *value,
        }),
        Expr::Var { at, name } => {
            let name = loop_name(alloc, names, name.as_slice())?;
            Ok(Expr::Var { at: *at, name })
        }
        Expr::Joint { at, index: place } => {
            let index = index(alloc, names, place)?;
            Ok(Expr::Joint { at: *at, index })
        }
        Expr::Meas { at, index: place } => {
            let index = index(alloc, names, place)?;
            Ok(Expr::Meas { at: *at, index })
        }
        Expr::MeasOrZero { at, index: place } => {
            let index = index(alloc, names, place)?;
            Ok(Expr::MeasOrZero { at: *at, index })
        }
        Expr::Sum {
            at,
            name,
            from,
            to,
            inner,
        } => {
            let inner = tree_within(alloc, names, name.as_slice(), inner)?;
            let head = loop_head(alloc, names, from, to)?;
            Ok(Expr::Sum {
                at: *at,
                name: head.name,
                from: head.from,
                to: head.to,
                inner,
            })
        }
        Expr::Call { at, name, args } => {
            let args = arguments(alloc, names, args.as_slice())?;
            let name = List::from_vec(name.as_slice().to_vec(alloc)?);
            Ok(Expr::Call {
                at: *at,
                name,
                args,
            })
        }
        Expr::Add { at, items: parts } => {
            let items = items(alloc, names, parts.as_slice())?;
            Ok(Expr::Add { at: *at, items })
        }
        Expr::Mul { at, factors } => {
            let factors = trees(alloc, names, factors.as_slice())?;
            Ok(Expr::Mul { at: *at, factors })
        }
        Expr::Pow { at, base, exponent } => {
            let copy = tree(alloc, names, base)?;
            let base = Box::new(alloc, copy)?;
            let exponent = index(alloc, names, exponent)?;
            Ok(Expr::Pow {
                at: *at,
                base,
                exponent,
            })
        }
    }
}

/// An expression inside a loop of this name.
#[cycle(tree)]
fn tree_within<'a>(
    alloc: Global,
    names: &[&'a [u8]],
    name: &'a [u8],
    expr: &'a Expr,
) -> Result<Box<Expr>, AllocError>
    ensures { IfOk result (λ copy. tree_of copy.value ≡ renamed_tree (names_of names.now ++ name.now ∷ []) (tree_of expr.now)) }
{
    let within = names_inside(alloc, names, name)?;
    let copy = tree(alloc, &within, expr)?;
    let copy = Box::new(alloc, copy)?;
    Ok(copy)
}

/// The items of a sum.
#[cycle(tree)]
fn items<'a>(alloc: Global, names: &[&'a [u8]], items: &'a [Item]) -> Result<List<Item>, AllocError>
    ensures { IfOk result (λ copy. tree.items (map item_of copy) ≡ renamed_items (names_of names.now) (tree.items (map item_of items.now))) }
{
    let mut copy = Vec::with_capacity(alloc, items.len())?;
    for item in items {
        let expr = tree(alloc, names, &item.expr)?;
        copy.push(Item {
            minus: item.minus,
            expr,
        })?;
    }
    Ok(List::from_vec(copy))
}

/// The factors of a product.
#[cycle(tree)]
fn trees<'a>(
    alloc: Global,
    names: &[&'a [u8]],
    factors: &'a [Expr],
) -> Result<List<Expr>, AllocError>
    ensures { IfOk result (λ copy. tree.trees (map tree_of copy) ≡ renamed_trees (names_of names.now) (tree.trees (map tree_of factors.now))) }
{
    let mut copy = Vec::with_capacity(alloc, factors.len())?;
    for factor in factors {
        let factor = tree(alloc, names, factor)?;
        copy.push(factor)?;
    }
    Ok(List::from_vec(copy))
}

/// The arguments of a call.
#[cycle(tree)]
fn arguments<'a>(
    alloc: Global,
    names: &[&'a [u8]],
    args: &'a [Arg],
) -> Result<List<Arg>, AllocError>
    ensures { IfOk result (λ copy. tree.arguments (map arg_of copy) ≡ renamed_arguments (names_of names.now) (tree.arguments (map arg_of args.now))) }
{
    let mut copy = Vec::with_capacity(alloc, args.len())?;
    for arg in args {
        let arg = argument(alloc, names, arg)?;
        copy.push(arg)?;
    }
    Ok(List::from_vec(copy))
}

/// Arguments inside a loop of this name.
#[cycle(tree)]
fn arguments_within<'a>(
    alloc: Global,
    names: &[&'a [u8]],
    name: &'a [u8],
    args: &'a [Arg],
) -> Result<List<Arg>, AllocError>
    ensures { IfOk result (λ copy. tree.arguments (map arg_of copy) ≡ renamed_arguments (names_of names.now ++ name.now ∷ []) (tree.arguments (map arg_of args.now))) }
{
    let within = names_inside(alloc, names, name)?;
    let copy = arguments(alloc, &within, args)?;
    Ok(copy)
}

/// An argument.
#[cycle(tree)]
#[tactic(auto, using(flp_syntax::specs::View::view_equations))]
fn argument<'a>(alloc: Global, names: &[&'a [u8]], arg: &'a Arg) -> Result<Arg, AllocError>
    ensures { IfOk result (λ copy. arg_of copy ≡ renamed_argument (names_of names.now) (arg_of arg.now)) }
{
    match arg {
        Arg::One(expr) => {
            let expr = tree(alloc, names, expr)?;
            Ok(Arg::One(expr))
        }
        Arg::Each {
            at,
            name,
            from,
            to,
            inner,
        } => {
            let inner = arguments_within(alloc, names, name.as_slice(), inner.as_slice())?;
            let head = loop_head(alloc, names, from, to)?;
            Ok(Arg::Each {
                at: *at,
                name: head.name,
                from: head.from,
                to: head.to,
                inner,
            })
        }
    }
}
