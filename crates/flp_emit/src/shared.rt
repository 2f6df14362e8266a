//! Shared expressions: each becomes terms of a linear form, with a coefficient that is passed down.
ghost use Rattle.std.specs.Prelude.{◌≡◌, ◌≤◌, ◌<◌, ◌++◌, ◌∷◌, [], ℕ, true, false, map, length, IfOk};
ghost use Rattle.std.specs.Option.{unwrap_or};
ghost use Rattle.flp_syntax.specs.Tree.{items, trees, arguments};
ghost use Rattle.flp_syntax.specs.Sorts.{is_shared, has_shared};
ghost use Rattle.flp_syntax.specs.Scope.{inside, turns};
ghost use Rattle.flp_syntax.specs.View.{tree_of, item_of, arg_of, program_of};
ghost use Rattle.flp_meaning.specs.Meaning.{meaning, in_units, call_run, items_of, factors_of, argument_of, arguments_of, total, product, concatenation};
ghost use Rattle.flp_forms.specs.LinearForms.{ScaleFits};
ghost use Rattle.flp_syntax.specs.Linear.{TreeIsLinear, ArgumentsAreLinear};
ghost use Rattle.flp_syntax.specs.Fits.{TreeFits, ArgumentsFit};
ghost use Rattle.flp_syntax.specs.View.{scope_of};
ghost use Rattle.flp_forms.specs.declared.term.Scale.TheVariants.{One};
ghost use Rattle.flp_emit.specs.Walking.{TreeHasCode, ItemsHaveCode, FactorsHaveCode, ArgumentHasCode, ArgumentsHaveCode};
ghost use Rattle.flp_emit.specs.Marks.{BeginWith, marked, marks_of, argument_marks};
ghost use Rattle.flp_emit.specs.Code.{read_by};
ghost use Rattle.flp_emit.specs.Emitting.{IsReady, Emitted, Listed};

use crate::Memory;
use crate::index::{index_value, turns_of};
use crate::made::{Made, append_call};
use crate::marks::{behind_first, first_is_shared, inside_first};
use crate::public::{public_scale, public_step};
use crate::scope::{Place, Turns, enter, gadget_of};
use crate::sorts::shared_place;
use crate::value::{scale_with_sign, scaled};
use flp_forms::{Forms, Scale, Source, Term};
use flp_syntax::{Arg, Expr, Item};

/// Adds the terms of a shared expression, each times the coefficient.
#[cycle(shared)]
#[tactic(auto, using(flp_syntax::specs::View::view_equations))]
fn shared_terms<'a>(
    place: Place<'a, '_>,
    made: &mut Made,
    form: &mut Vec<Term>,
    scale: Scale,
    expr: &'a Expr,
) -> Result<(), Memory>
    requires ready { IsReady (program_of place.body.now) made.old }
    requires shared { is_shared (tree_of expr.now) ≡ true }
    requires code { TreeHasCode (program_of place.body.now) (scope_of place.scope.now) place.marks.now (tree_of expr.now) }
    requires scale { ScaleFits (length made.old.steps.steps) scale }
    ensures { IfOk result (λ _. Emitted place.entry.body.now.meas scale made.old made.new form.old.items form.new.items (λ joint share. meaning (program_of place.entry.body.now).gadgets (read_by joint share) (scope_of place.entry.scope.now) (tree_of expr.now))) }
{
    let marks = inside_first(place.marks);
    let within = Place { marks, ..place };
    match expr {
        Expr::Meas { index, .. } => {
            let word = index_value(place.scope, index);
            add_term(form, scale, Source::Meas(word))?;
            Ok(())
        }
        Expr::MeasOrZero { index, .. } => {
            let word = index_value(place.scope, index);
            if u64::from(word) >= place.body.meas {
                return Ok(());
            }
            add_term(form, scale, Source::Meas(word))?;
            Ok(())
        }
        Expr::Sum {
            name,
            from,
            to,
            inner,
            ..
        } => {
            let over = turns_of(place.scope, name, from, to);
            shared_turns(within, made, form, scale, over, inner)
        }
        Expr::Call { name, args, .. } => {
            let gadget = gadget_of(place.body.gadgets.as_slice(), name.as_slice());
            let args = args.as_slice();
            shared_call(within, made, form, scale, gadget, args)
        }
        Expr::Add { items, .. } => shared_sum(within, made, form, scale, items.as_slice()),
        Expr::Mul { factors, .. } => {
            shared_product(within, made, form, scale, factors.as_slice())
        }
        Expr::Number { .. } | Expr::Var { .. } | Expr::Joint { .. } | Expr::Pow { .. } => {
            unreachable!()
        }
    }
}

/// Adds a term.
fn add_term(form: &mut Vec<Term>, scale: Scale, source: Source) -> Result<(), Memory>
    ensures { IfOk result (λ _. form.new.items ≡ form.old.items ++ record { scale = scale; source = source } ∷ []) }
{
    form.push(Term { scale, source })?;
    Ok(())
}

/// Adds the terms of an expression that stands for a shared one: a public value counts unit times.
#[cycle(shared)]
fn counted_terms<'a>(
    place: Place<'a, '_>,
    made: &mut Made,
    form: &mut Vec<Term>,
    scale: Scale,
    expr: &'a Expr,
) -> Result<(), Memory>
    requires ready { IsReady (program_of place.body.now) made.old }
    requires code { TreeHasCode (program_of place.body.now) (scope_of place.scope.now) place.marks.now (tree_of expr.now) }
    requires scale { ScaleFits (length made.old.steps.steps) scale }
    ensures { IfOk result (λ _. Emitted place.entry.body.now.meas scale made.old made.new form.old.items form.new.items (λ joint share. in_units (read_by joint share) (is_shared (tree_of expr.now)) (meaning (program_of place.entry.body.now).gadgets (read_by joint share) (scope_of place.entry.scope.now) (tree_of expr.now)))) }
{
    if first_is_shared(place.marks) {
        shared_terms(place, made, form, scale, expr)?;
        Ok(())
    } else {
        let step = public_step(place, &mut made.steps, expr)?;
        let after = scaled(&mut made.steps, scale, step)?;
        add_term(form, after, Source::Unit)?;
        Ok(())
    }
}

/// The form of an expression, in which a public value counts unit times.
#[cycle(shared)]
pub(crate) fn form_of<'a>(
    place: Place<'a, '_>,
    made: &mut Made,
    expr: &'a Expr,
) -> Result<Vec<Term>, Memory>
    requires ready { IsReady (program_of place.body.now) made.old }
    requires code { TreeHasCode (program_of place.body.now) (scope_of place.scope.now) place.marks.now (tree_of expr.now) }
    ensures { IfOk result (λ form. Emitted place.entry.body.now.meas One made.old made.new [] form.items (λ joint share. in_units (read_by joint share) (is_shared (tree_of expr.now)) (meaning (program_of place.entry.body.now).gadgets (read_by joint share) (scope_of place.entry.scope.now) (tree_of expr.now)))) }
{
    let mut form = Vec::new(place.alloc);
    counted_terms(place, made, &mut form, Scale::One, expr)?;
    Ok(form)
}

/// Adds the terms of a sum over the turns of a loop.
#[cycle(shared)]
fn shared_turns<'a>(
    place: Place<'a, '_>,
    made: &mut Made,
    form: &mut Vec<Term>,
    scale: Scale,
    over: Turns<'a>,
    inner: &'a Expr,
) -> Result<(), Memory>
    requires ready { IsReady (program_of place.body.now) made.old }
    requires shared { is_shared (tree_of inner.now) ≡ true }
    requires fits { (turn : ℕ) → over.from ≤ turn → turn < over.to → TreeFits (program_of place.body.now) (inside (scope_of place.scope.now) over.name.now turn) (tree_of inner.now) }
    requires linear { TreeIsLinear false (tree_of inner.now) }
    requires scale { ScaleFits (length made.old.steps.steps) scale }
    requires marks { BeginWith place.marks.now (marks_of (tree_of inner.now)) }
    ensures { IfOk result (λ _. Emitted place.entry.body.now.meas scale made.old made.new form.old.items form.new.items (λ joint share. total (map (λ turn. meaning (program_of place.entry.body.now).gadgets (read_by joint share) (inside (scope_of place.entry.scope.now) over.entry.name.now turn) (tree_of inner.now)) (turns over.entry.from over.entry.to)))) }
{
    let mut room = Vec::new(place.alloc);
    for turn in over.from..over.to {
        enter(&mut room, place.scope, over.name, turn)?;
        shared_terms(
            Place {
                scope: &room,
                ..place
            },
            made,
            form,
            scale,
            inner,
        )?;
    }
    Ok(())
}

/// Adds the terms of a sum with a shared item.
#[cycle(shared)]
fn shared_sum<'a>(
    place: Place<'a, '_>,
    made: &mut Made,
    form: &mut Vec<Term>,
    scale: Scale,
    list: &'a [Item],
) -> Result<(), Memory>
    requires ready { IsReady (program_of place.body.now) made.old }
    requires code { ItemsHaveCode (program_of place.body.now) (scope_of place.scope.now) place.marks.now (items (map item_of list.now)) }
    requires scale { ScaleFits (length made.old.steps.steps) scale }
    ensures { IfOk result (λ _. Emitted place.entry.body.now.meas scale made.old made.new form.old.items form.new.items (λ joint share. total (items_of (program_of place.entry.body.now).gadgets (read_by joint share) (scope_of place.entry.scope.now) true (items (map item_of list.entry.now))))) }
{
    let mut marks = place.marks;
    for item in list {
        let signed = scale_with_sign(&mut made.steps, item.minus, scale)?;
        counted_terms(Place { marks, ..place }, made, form, signed, &item.expr)?;
        marks = behind_first(marks);
    }
    Ok(())
}

/// Adds the terms of a product: those of its one shared factor, times the others.
#[cycle(shared)]
fn shared_product<'a>(
    place: Place<'a, '_>,
    made: &mut Made,
    form: &mut Vec<Term>,
    scale: Scale,
    factors: &'a [Expr],
) -> Result<(), Memory>
    requires ready { IsReady (program_of place.body.now) made.old }
    requires shared { has_shared (trees (map tree_of factors.now)) ≡ true }
    requires code { FactorsHaveCode (program_of place.body.now) (scope_of place.scope.now) place.marks.now (trees (map tree_of factors.now)) }
    requires scale { ScaleFits (length made.old.steps.steps) scale }
    ensures { IfOk result (λ _. Emitted place.entry.body.now.meas scale made.old made.new form.old.items form.new.items (λ joint share. product (factors_of (program_of place.entry.body.now).gadgets (read_by joint share) (scope_of place.entry.scope.now) (trees (map tree_of factors.entry.now))))) }
{
    let all = public_scale(place, &mut made.steps, scale, factors)?;
    let (number, marks) = shared_place(factors, place.marks);
    let factor = &factors[number];
    shared_terms(Place { marks, ..place }, made, form, all, factor)?;
    Ok(())
}

/// Appends a call, and adds its answer times the coefficient.
#[cycle(shared)]
fn shared_call<'a>(
    place: Place<'a, '_>,
    made: &mut Made,
    form: &mut Vec<Term>,
    scale: Scale,
    gadget: u32,
    args: &'a [Arg],
) -> Result<(), Memory>
    requires ready { IsReady (program_of place.body.now) made.old }
    requires code { ArgumentsHaveCode (program_of place.body.now) (scope_of place.scope.now) place.marks.now (arguments (map arg_of args.now)) }
    requires scale { ScaleFits (length made.old.steps.steps) scale }
    ensures { IfOk result (λ _. Emitted place.entry.body.now.meas scale made.old made.new form.old.items form.new.items (λ joint share. call_run (read_by joint share) gadget (concatenation (arguments_of (program_of place.entry.body.now).gadgets (read_by joint share) (scope_of place.entry.scope.now) (arguments (map arg_of args.entry.now)))))) }
{
    let mut inputs = Forms::new(place.alloc);
    list_arguments(place, made, &mut inputs, args)?;
    let number = append_call(made, gadget, &inputs)?;
    add_term(form, scale, Source::Answer(number))?;
    Ok(())
}

/// Appends the forms of arguments.
#[cycle(shared)]
fn list_arguments<'a>(
    place: Place<'a, '_>,
    made: &mut Made,
    inputs: &mut Forms,
    args: &'a [Arg],
) -> Result<(), Memory>
    requires ready { IsReady (program_of place.body.now) made.old }
    requires code { ArgumentsHaveCode (program_of place.body.now) (scope_of place.scope.now) place.marks.now (arguments (map arg_of args.now)) }
    ensures { IfOk result (λ _. Listed place.entry.body.now.meas made.old made.new inputs.old inputs.new (λ joint share. concatenation (arguments_of (program_of place.entry.body.now).gadgets (read_by joint share) (scope_of place.entry.scope.now) (arguments (map arg_of args.entry.now))))) }
{
    let mut marks = place.marks;
    for arg in args {
        list_argument(Place { marks, ..place }, made, inputs, arg)?;
        marks = behind_first(marks);
    }
    Ok(())
}

/// Appends the forms of an argument: one, or those of the turns of a loop.
#[cycle(shared)]
#[tactic(auto, using(flp_syntax::specs::View::view_equations))]
fn list_argument<'a>(
    place: Place<'a, '_>,
    made: &mut Made,
    inputs: &mut Forms,
    arg: &'a Arg,
) -> Result<(), Memory>
    requires ready { IsReady (program_of place.body.now) made.old }
    requires code { ArgumentHasCode (program_of place.body.now) (scope_of place.scope.now) place.marks.now (arg_of arg.now) }
    ensures { IfOk result (λ _. Listed place.entry.body.now.meas made.old made.new inputs.old inputs.new (λ joint share. argument_of (program_of place.entry.body.now).gadgets (read_by joint share) (scope_of place.entry.scope.now) (arg_of arg.now))) }
{
    match arg {
        Arg::One(expr) => {
            let form = form_of(place, made, expr)?;
            inputs.push(&form)?;
            Ok(())
        }
        Arg::Each {
            name,
            from,
            to,
            inner,
            ..
        } => {
            let over = turns_of(place.scope, name, from, to);
            list_turns(place, made, inputs, over, inner.as_slice())
        }
    }
}

/// Appends the forms of arguments at each turn of a loop.
#[cycle(shared)]
fn list_turns<'a>(
    place: Place<'a, '_>,
    made: &mut Made,
    inputs: &mut Forms,
    over: Turns<'a>,
    inner: &'a [Arg],
) -> Result<(), Memory>
    requires ready { IsReady (program_of place.body.now) made.old }
    requires fits { (turn : ℕ) → over.from ≤ turn → turn < over.to → ArgumentsFit (program_of place.body.now) (inside (scope_of place.scope.now) over.name.now turn) (arguments (map arg_of inner.now)) }
    requires linear { ArgumentsAreLinear false (arguments (map arg_of inner.now)) }
    requires marks { BeginWith place.marks.now (marked true (argument_marks (arguments (map arg_of inner.now)))) }
    ensures { IfOk result (λ _. Listed place.entry.body.now.meas made.old made.new inputs.old inputs.new (λ joint share. concatenation (map (λ turn. concatenation (arguments_of (program_of place.entry.body.now).gadgets (read_by joint share) (inside (scope_of place.entry.scope.now) over.entry.name.now turn) (arguments (map arg_of inner.entry.now)))) (turns over.entry.from over.entry.to)))) }
{
    let marks = inside_first(place.marks);
    let within = Place { marks, ..place };
    let mut room = Vec::new(place.alloc);
    for turn in over.from..over.to {
        enter(&mut room, place.scope, over.name, turn)?;
        list_arguments(
            Place {
                scope: &room,
                ..within
            },
            made,
            inputs,
            inner,
        )?;
    }
    Ok(())
}
