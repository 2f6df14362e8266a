//! Names and sorts of expressions.
ghost use Rattle.std.specs.Prelude.{◌≡◌, ◌&&◌, ◌||◌, false, map, not, IfOk};
ghost use Rattle.flp_syntax.specs.Tree as tree;
ghost use Rattle.flp_syntax.specs.Sorts.{is_shared, has_shared_item};
ghost use Rattle.flp_syntax.specs.View.{index_of, tree_of, item_of, arg_of, declaration_of};
ghost use Rattle.flp_syntax.specs.View.{names_of};
ghost use Rattle.flp_check.specs.Flaws.{tree_flaws, items_flaws, factors_flaws, arg_flaws, args_flaws, Finds};

use crate::flaw::{Found, Rule};
use crate::scope::{Loop, names_inside};
use crate::text::{Place, Search};
use flp_list::Bytes;
use flp_syntax::{Arg, Expr, Idx, Item, has_shared_item, is_shared, tree_at};
use std::alloc::AllocError;

/// Whether public items of a sum are flaws: inside an output, beside a shared one.
fn is_mixed(in_out: bool, items: &[Item]) -> bool
    ensures { result ≡ (in_out && has_shared_item (tree.items (map item_of items.now))) }
{
    in_out && has_shared_item(items)
}

/// Whether an item is public where public ones are flaws.
fn is_stray(mixed: bool, expr: &Expr) -> bool
    ensures { result ≡ (mixed && not (is_shared (tree_of expr.now))) }
{
    mixed && !is_shared(expr)
}

/// Whether a factor is shared behind a shared one.
fn is_second(behind: bool, shared: bool) -> bool
    ensures { result ≡ (behind && shared) }
{
    behind && shared
}

/// Whether the next factor stands behind a shared one.
fn is_behind(behind: bool, shared: bool) -> bool
    ensures { result ≡ (behind || shared) }
{
    behind || shared
}

impl Search<'_> {
    /// An expression.
    #[cycle(expr)]
    pub fn expr<'a>(
        &self,
        place: Place<'a, '_>,
        expr: &'a Expr,
        found: &mut Found,
    ) -> Result<(), AllocError>
        ensures { IfOk result (λ _. Finds found.old.first (tree_flaws (map declaration_of self.now.gadgets.now) (names_of place.entry.names.now) place.entry.in_out (tree_of expr.now)) found.new.first) }
    {
        match expr {
            Expr::Number { .. } => Ok(()),
            Expr::Var { at, name } => {
                self.note_unbound(place.names, *at, name, found);
                Ok(())
            }
            Expr::Joint { at, index } => {
                found.note(place.in_out, *at, Rule::NotLinear);
                self.index(place.names, index, found);
                Ok(())
            }
            Expr::Meas { index, .. } => {
                self.index(place.names, index, found);
                Ok(())
            }
            Expr::MeasOrZero { index, .. } => {
                self.index(place.names, index, found);
                Ok(())
            }
            Expr::Sum {
                at,
                name,
                from,
                to,
                inner,
            } => self.sum(
                place,
                Loop {
                    at: *at,
                    name,
                    from,
                    to,
                },
                inner,
                found,
            ),
            Expr::Call { at, name, args } => self.call(place, *at, name, args.as_slice(), found),
            Expr::Add { items, .. } => {
                let items = items.as_slice();
                let mixed = is_mixed(place.in_out, items);
                self.items(place, mixed, items, found)
            }
            Expr::Mul { factors, .. } => self.factors(place, factors.as_slice(), found),
            Expr::Pow { at, base, exponent } => self.pow(place, *at, base, exponent, found),
        }
    }

    /// A call.
    #[cycle(expr)]
    fn call<'a>(
        &self,
        place: Place<'a, '_>,
        at: u32,
        name: &Bytes,
        args: &'a [Arg],
        found: &mut Found,
    ) -> Result<(), AllocError>
        ensures { IfOk result (λ _. Finds found.old.first (tree_flaws (map declaration_of self.now.gadgets.now) (names_of place.entry.names.now) place.entry.in_out (tree.call at name.now (tree.arguments (map arg_of args.entry.now)))) found.new.first) }
    {
        self.note_unknown(at, name, found);
        found.note(place.in_out, at, Rule::NotLinear);
        self.args(place, args, found)?;
        Ok(())
    }

    /// A power.
    #[cycle(expr)]
    fn pow<'a>(
        &self,
        place: Place<'a, '_>,
        at: u32,
        base: &'a Expr,
        exponent: &'a Idx,
        found: &mut Found,
    ) -> Result<(), AllocError>
        ensures { IfOk result (λ _. Finds found.old.first (tree_flaws (map declaration_of self.now.gadgets.now) (names_of place.entry.names.now) place.entry.in_out (tree.pow at (tree_of base.now) (index_of exponent.now))) found.new.first) }
    {
        found.note(is_shared(base), at, Rule::NotLinear);
        self.expr(place, base, found)?;
        self.index(place.names, exponent, found);
        Ok(())
    }

    /// A sum over the turns of a loop.
    #[cycle(expr)]
    fn sum<'a>(
        &self,
        place: Place<'a, '_>,
        ahead: Loop<'a>,
        inner: &'a Expr,
        found: &mut Found,
    ) -> Result<(), AllocError>
        ensures { IfOk result (λ _. Finds found.old.first (tree_flaws (map declaration_of self.now.gadgets.now) (names_of place.entry.names.now) place.entry.in_out (tree.sum ahead.entry.at ahead.entry.name.now (index_of ahead.entry.from.now) (index_of ahead.entry.to.now) (tree_of inner.now))) found.new.first) }
    {
        self.range(place.names, ahead, found);
        let names = names_inside(self.alloc, place.names, ahead.name.as_slice())?;
        let within = Place {
            names: &names,
            in_out: place.in_out,
        };
        self.expr(within, inner, found)?;
        Ok(())
    }

    /// The items of a sum; where a public one is a flaw, `mixed`.
    #[cycle(expr)]
    fn items<'a>(
        &self,
        place: Place<'a, '_>,
        mixed: bool,
        items: &'a [Item],
        found: &mut Found,
    ) -> Result<(), AllocError>
        ensures { IfOk result (λ _. Finds found.old.first (items_flaws (map declaration_of self.now.gadgets.now) (names_of place.entry.names.now) place.entry.in_out mixed (tree.items (map item_of items.entry.now))) found.new.first) }
    {
        for item in items {
            found.note(
                is_stray(mixed, &item.expr),
                tree_at(&item.expr),
                Rule::NotLinear,
            );
            self.expr(place, &item.expr, found)?;
        }
        Ok(())
    }

    /// The factors of a product.
    #[cycle(expr)]
    fn factors<'a>(
        &self,
        place: Place<'a, '_>,
        factors: &'a [Expr],
        found: &mut Found,
    ) -> Result<(), AllocError>
        ensures { IfOk result (λ _. Finds found.old.first (factors_flaws (map declaration_of self.now.gadgets.now) (names_of place.entry.names.now) place.entry.in_out false (tree.trees (map tree_of factors.entry.now))) found.new.first) }
    {
        let mut behind = false;
        for factor in factors {
            let shared = is_shared(factor);
            found.note(is_second(behind, shared), tree_at(factor), Rule::NotLinear);
            self.expr(place, factor, found)?;
            behind = is_behind(behind, shared);
        }
        Ok(())
    }

    /// The arguments of a call.
    #[cycle(expr)]
    fn args<'a>(
        &self,
        place: Place<'a, '_>,
        args: &'a [Arg],
        found: &mut Found,
    ) -> Result<(), AllocError>
        ensures { IfOk result (λ _. Finds found.old.first (args_flaws (map declaration_of self.now.gadgets.now) (names_of place.entry.names.now) place.entry.in_out (tree.arguments (map arg_of args.entry.now))) found.new.first) }
    {
        for arg in args {
            self.arg(place, arg, found)?;
        }
        Ok(())
    }

    /// An argument.
    #[cycle(expr)]
    fn arg<'a>(
        &self,
        place: Place<'a, '_>,
        arg: &'a Arg,
        found: &mut Found,
    ) -> Result<(), AllocError>
        ensures { IfOk result (λ _. Finds found.old.first (arg_flaws (map declaration_of self.now.gadgets.now) (names_of place.entry.names.now) place.entry.in_out (arg_of arg.now)) found.new.first) }
    {
        match arg {
            Arg::One(expr) => self.expr(place, expr, found),
            Arg::Each {
                at,
                name,
                from,
                to,
                inner,
            } => self.each_arg(
                place,
                Loop {
                    at: *at,
                    name,
                    from,
                    to,
                },
                inner.as_slice(),
                found,
            ),
        }
    }

    /// Arguments over the turns of a loop.
    #[cycle(expr)]
    fn each_arg<'a>(
        &self,
        place: Place<'a, '_>,
        ahead: Loop<'a>,
        inner: &'a [Arg],
        found: &mut Found,
    ) -> Result<(), AllocError>
        ensures { IfOk result (λ _. Finds found.old.first (arg_flaws (map declaration_of self.now.gadgets.now) (names_of place.entry.names.now) place.entry.in_out (tree.each_arg ahead.entry.at ahead.entry.name.now (index_of ahead.entry.from.now) (index_of ahead.entry.to.now) (tree.arguments (map arg_of inner.entry.now)))) found.new.first) }
    {
        self.range(place.names, ahead, found);
        let names = names_inside(self.alloc, place.names, ahead.name.as_slice())?;
        let within = Place {
            names: &names,
            in_out: place.in_out,
        };
        self.args(within, inner, found)?;
        Ok(())
    }
}
