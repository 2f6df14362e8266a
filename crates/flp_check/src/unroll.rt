//! What unrolling meets in expressions.
ghost use Rattle.std.specs.Prelude.{◌≡◌, ◌<◌, ◌≤◌, ◌+◌, ◌==◌, ◌++◌, length, map, IfOk, sum_by};
ghost use Rattle.std.specs.List.{flat_map};
ghost use Rattle.flp_syntax.specs.Tree as tree;
ghost use Rattle.flp_syntax.specs.Scope.{index_value, inside, turns, gadget_number};
ghost use Rattle.flp_syntax.specs.View.{index_of, tree_of, item_of, arg_of, declaration_of, program_of};
ghost use Rattle.flp_check.specs.Limits.{named_count};
ghost use Rattle.flp_check.specs.Events.{index_events, range_events, call_events, tree_events, items_events, factors_events, arg_events, args_events};
ghost use Rattle.flp_syntax.specs.Scope.{args_count, arg_count, arity_at};
ghost use Rattle.flp_check.specs.Counts.{Walks};
ghost use Rattle.flp_check.specs.Held.{counts_of};
ghost use Rattle.flp_syntax.specs.View.{scope_of};

use crate::counter::Counter;
use crate::index::in_words;
use crate::limits::arity;
use crate::scope::Loop;
use flp_list::Bytes;
use flp_syntax::{Arg, Body, Bound, Decl, Expr, Idx, Item, LangFault, gadget_number};
use std::alloc::Global;

/// What unrolls a body.
#[derive(Drop)]
pub struct Unroller<'a> {
    pub alloc: Global,
    pub body: &'a Body,
}

/// How many inputs the gadget of a number has; 2^64 - 1 where there are more.
fn arity_at(gadgets: &[Decl], gadget: usize) -> u64
    requires { gadget < length gadgets.now }
    ensures { result ≡ named_count (arity_at (map declaration_of gadgets.now) gadget) }
{
    arity(&gadgets[gadget].kind)
}

/// Whether a gadget has this many inputs.
fn takes(gadgets: &[Decl], gadget: usize, count: u32) -> bool
    requires { gadget < length gadgets.now }
    ensures { result ≡ (arity_at (map declaration_of gadgets.now) gadget == count) }
{
    arity_at(gadgets, gadget) == count as u64
}

impl Unroller<'_> {
    /// After the arguments of a call: the gadget's call, where their number is its arity.
    fn gadget(
        &self,
        at: u32,
        name: &Bytes,
        count: u32,
        counter: &mut Counter,
    ) -> Result<(), LangFault>
        ensures { Walks (counts_of counter.old) (call_events (program_of self.now.body.now).gadgets at (gadget_number (program_of self.now.body.now).gadgets name.now) count) result (counts_of counter.new) }
    {
        let gadgets = self.body.gadgets.as_slice();
        match gadget_number(gadgets, name.as_slice()) {
            Some(gadget) => {
                if takes(gadgets, gadget, count) {
                    counter.call(gadget)
                } else {
                    Err(LangFault::Arity(at))
                }
            }
            None => Ok(()),
        }
    }

    /// An expression.
    #[cycle(expr)]
    pub fn expr<'a>(
        &self,
        scope: &[Bound<'a>],
        expr: &'a Expr,
        counter: &mut Counter,
    ) -> Result<(), LangFault>
        ensures { Walks (counts_of counter.old) (tree_events (program_of self.now.body.now) (scope_of scope.now) (tree_of expr.now)) result (counts_of counter.new) }
    {
        counter.visit()?;
        match expr {
            Expr::Number { .. } => Ok(()),
            Expr::Var { .. } => Ok(()),
            Expr::Joint { at, index } => {
                let place = counter.index(scope, index)?;
                in_words(*at, place, self.body.joint)
            }
            Expr::Meas { at, index } => {
                let place = counter.index(scope, index)?;
                in_words(*at, place, self.body.meas)
            }
            Expr::MeasOrZero { index, .. } => {
                counter.index(scope, index)?;
                Ok(())
            }
            Expr::Sum {
                at,
                name,
                from,
                to,
                inner,
            } => self.sum(
                scope,
                Loop {
                    at: *at,
                    name,
                    from,
                    to,
                },
                inner,
                counter,
            ),
            Expr::Call { at, name, args } => self.call(scope, *at, name, args.as_slice(), counter),
            Expr::Add { items, .. } => self.items(scope, items.as_slice(), counter),
            Expr::Mul { factors, .. } => self.factors(scope, factors.as_slice(), counter),
            Expr::Pow { base, exponent, .. } => self.pow(scope, base, exponent, counter),
        }
    }

    /// A power, behind its node.
    #[cycle(expr)]
    fn pow<'a>(
        &self,
        scope: &[Bound<'a>],
        base: &'a Expr,
        exponent: &'a Idx,
        counter: &mut Counter,
    ) -> Result<(), LangFault>
        ensures { Walks (counts_of counter.old) (tree_events (program_of self.now.body.now) (scope_of scope.now) (tree_of base.now) ++ index_events (scope_of scope.now) (index_of exponent.now)) result (counts_of counter.new) }
    {
        self.expr(scope, base, counter)?;
        counter.index(scope, exponent)?;
        Ok(())
    }

    /// A sum over the turns of a loop, behind its node.
    #[cycle(expr)]
    fn sum<'a>(
        &self,
        scope: &[Bound<'a>],
        ahead: Loop<'a>,
        inner: &'a Expr,
        counter: &mut Counter,
    ) -> Result<(), LangFault>
        ensures { Walks (counts_of counter.old) (range_events (scope_of scope.now) (index_of ahead.entry.from.now) (index_of ahead.entry.to.now) ++ flat_map (λ value. tree_events (program_of self.now.body.now) (inside (scope_of scope.now) ahead.entry.name.now value) (tree_of inner.now)) (turns (index_value (scope_of scope.now) (index_of ahead.entry.from.now)) (index_value (scope_of scope.now) (index_of ahead.entry.to.now)))) result (counts_of counter.new) }
    {
        let bounds = counter.range(scope, ahead)?;
        self.sum_turns(scope, ahead.name, bounds, inner, counter)
    }

    /// The turns of a sum.
    #[cycle(expr)]
    fn sum_turns<'a>(
        &self,
        scope: &[Bound<'a>],
        name: &'a Bytes,
        bounds: (u32, u32),
        inner: &'a Expr,
        counter: &mut Counter,
    ) -> Result<(), LangFault>
        ensures { Walks (counts_of counter.old) (flat_map (λ value. tree_events (program_of self.now.body.now) (inside (scope_of scope.now) name.now value) (tree_of inner.now)) (turns bounds.0 bounds.1)) result (counts_of counter.new) }
    {
        let (from, to) = bounds;
        let name = name.as_slice();
        let mut within = scope.to_vec(self.alloc)?;
        for value in from..to {
            within.push(Bound { name, value })?;
            self.expr(&within, inner, counter)?;
            within.truncate(scope.len());
        }
        Ok(())
    }

    /// The items of a sum.
    #[cycle(expr)]
    fn items<'a>(
        &self,
        scope: &[Bound<'a>],
        items: &'a [Item],
        counter: &mut Counter,
    ) -> Result<(), LangFault>
        ensures { Walks (counts_of counter.old) (items_events (program_of self.now.body.now) (scope_of scope.now) (tree.items (map item_of items.entry.now))) result (counts_of counter.new) }
    {
        for item in items {
            self.expr(scope, &item.expr, counter)?;
        }
        Ok(())
    }

    /// The factors of a product.
    #[cycle(expr)]
    fn factors<'a>(
        &self,
        scope: &[Bound<'a>],
        factors: &'a [Expr],
        counter: &mut Counter,
    ) -> Result<(), LangFault>
        ensures { Walks (counts_of counter.old) (factors_events (program_of self.now.body.now) (scope_of scope.now) (tree.trees (map tree_of factors.entry.now))) result (counts_of counter.new) }
    {
        for factor in factors {
            self.expr(scope, factor, counter)?;
        }
        Ok(())
    }

    /// A call, behind its node.
    #[cycle(expr)]
    fn call<'a>(
        &self,
        scope: &[Bound<'a>],
        at: u32,
        name: &'a Bytes,
        args: &'a [Arg],
        counter: &mut Counter,
    ) -> Result<(), LangFault>
        ensures { Walks (counts_of counter.old) (args_events (program_of self.now.body.now) (scope_of scope.now) (tree.arguments (map arg_of args.entry.now)) ++ call_events (program_of self.now.body.now).gadgets at (gadget_number (program_of self.now.body.now).gadgets name.now) (args_count (scope_of scope.now) (tree.arguments (map arg_of args.entry.now)))) result (counts_of counter.new) }
    {
        let count = self.args(scope, args, counter)?;
        self.gadget(at, name, count, counter)
    }

    /// Arguments: how many.
    #[cycle(expr)]
    fn args<'a>(
        &self,
        scope: &[Bound<'a>],
        args: &'a [Arg],
        counter: &mut Counter,
    ) -> Result<u32, LangFault>
        ensures walked { Walks (counts_of counter.old) (args_events (program_of self.now.body.now) (scope_of scope.now) (tree.arguments (map arg_of args.entry.now))) result (counts_of counter.new) }
        ensures count { IfOk result (λ count. count ≡ args_count (scope_of scope.now) (tree.arguments (map arg_of args.entry.now))) }
        ensures met { IfOk result (λ count. count + counter.old.visits ≤ counter.new.visits) }
    {
        let mut count = 0;
        for arg in args {
            let more = self.arg(scope, arg, counter)?;
            // each argument met a node, so their number fits as that of the nodes does
            let _met = counter.visits;
            count += more;
        }
        Ok(count)
    }

    /// An argument, or more of them over the turns of a loop: how many.
    #[cycle(expr)]
    fn arg<'a>(
        &self,
        scope: &[Bound<'a>],
        arg: &'a Arg,
        counter: &mut Counter,
    ) -> Result<u32, LangFault>
        ensures walked { Walks (counts_of counter.old) (arg_events (program_of self.now.body.now) (scope_of scope.now) (arg_of arg.now)) result (counts_of counter.new) }
        ensures count { IfOk result (λ count. count ≡ arg_count (scope_of scope.now) (arg_of arg.now)) }
        ensures met { IfOk result (λ count. count + counter.old.visits ≤ counter.new.visits) }
    {
        match arg {
            Arg::One(expr) => {
                self.expr(scope, expr, counter)?;
                Ok(1)
            }
            Arg::Each {
                at,
                name,
                from,
                to,
                inner,
            } => self.each_arg(
                scope,
                Loop {
                    at: *at,
                    name,
                    from,
                    to,
                },
                inner.as_slice(),
                counter,
            ),
        }
    }

    /// Arguments over the turns of a loop: how many.
    #[cycle(expr)]
    fn each_arg<'a>(
        &self,
        scope: &[Bound<'a>],
        ahead: Loop<'a>,
        inner: &'a [Arg],
        counter: &mut Counter,
    ) -> Result<u32, LangFault>
        ensures walked { Walks (counts_of counter.old) (arg_events (program_of self.now.body.now) (scope_of scope.now) (tree.each_arg ahead.entry.at ahead.entry.name.now (index_of ahead.entry.from.now) (index_of ahead.entry.to.now) (tree.arguments (map arg_of inner.entry.now)))) result (counts_of counter.new) }
        ensures count { IfOk result (λ count. count ≡ arg_count (scope_of scope.now) (tree.each_arg ahead.entry.at ahead.entry.name.now (index_of ahead.entry.from.now) (index_of ahead.entry.to.now) (tree.arguments (map arg_of inner.entry.now)))) }
        ensures met { IfOk result (λ count. count + counter.old.visits ≤ counter.new.visits) }
    {
        counter.visit()?;
        let bounds = counter.range(scope, ahead)?;
        let count = self.arg_turns(scope, ahead.name, bounds, inner, counter)?;
        Ok(count)
    }

    /// The turns of a loop of arguments: how many arguments.
    #[cycle(expr)]
    fn arg_turns<'a>(
        &self,
        scope: &[Bound<'a>],
        name: &'a Bytes,
        bounds: (u32, u32),
        inner: &'a [Arg],
        counter: &mut Counter,
    ) -> Result<u32, LangFault>
        ensures walked { Walks (counts_of counter.old) (flat_map (λ value. args_events (program_of self.now.body.now) (inside (scope_of scope.now) name.now value) (tree.arguments (map arg_of inner.entry.now))) (turns bounds.0 bounds.1)) result (counts_of counter.new) }
        ensures count { IfOk result (λ count. count ≡ sum_by (λ value. args_count (inside (scope_of scope.now) name.now value) (tree.arguments (map arg_of inner.entry.now))) (turns bounds.0 bounds.1)) }
        ensures met { IfOk result (λ count. count + counter.old.visits ≤ counter.new.visits) }
    {
        let (from, to) = bounds;
        let name = name.as_slice();
        let mut count = 0;
        let mut within = scope.to_vec(self.alloc)?;
        for value in from..to {
            within.push(Bound { name, value })?;
            let more = self.args(&within, inner, counter)?;
            // each argument met a node, so their number fits as that of the nodes does
            let _met = counter.visits;
            count += more;
            within.truncate(scope.len());
        }
        Ok(count)
    }
}
