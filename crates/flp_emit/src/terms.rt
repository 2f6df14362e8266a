//! How many terms the forms of a circuit have, counted before there is any code.
//!
//! One walk counts both the terms of an expression's own form and those of the inputs of the calls inside it. A public
//! expression is one term and has no call inside, so it is not walked. Counts stop at 2^64 - 1.
ghost use Rattle.std.specs.Prelude.{◌≡◌, ◌+◌, ◌≤◌, ◌<◌, ℕ, true, false, map, IfOk, sum_by};
ghost use Rattle.flp_syntax.specs.Tree.{items, trees, arguments, statements};
ghost use Rattle.flp_syntax.specs.Sorts.{is_shared, has_shared};
ghost use Rattle.flp_syntax.specs.Scope.{inside, turns};
ghost use Rattle.flp_syntax.specs.Fits.{TreeFits, ArgumentsFit, StatementsFit};
ghost use Rattle.flp_syntax.specs.Linear.{TreeIsLinear, ArgumentsAreLinear, StatementsAreLinear};
ghost use Rattle.flp_syntax.specs.View.{tree_of, item_of, arg_of, program_of, scope_of};
ghost use Rattle.flp_syntax.specs.View as view;
ghost use Rattle.flp_meaning.specs.Terms.{form_terms, item_terms, shared_factor_terms, input_terms, input_terms_of_items, input_terms_of_factors, terms_of_argument, terms_of_arguments, statement_terms, terms_of_statements, term_count};
ghost use Rattle.flp_emit.specs.Fitting.{ProgramFits};
ghost use Rattle.flp_emit.specs.Walking.{TreeHasCode, ItemsHaveCode, FactorsHaveCode, ArgumentHasCode, ArgumentsHaveCode, StatementHasCode, StatementsHaveCode};
ghost use Rattle.flp_emit.specs.Marks.{BeginWith, marked, marks_inside, marks_of, argument_marks, statement_marks};
ghost use Rattle.flp_emit.specs.Counts.{capped, AreTerms};

use crate::Memory;
use crate::index::{index_value, turns_of};
use crate::marks::{behind_first, first_is_shared, inside_first, marks_of_statements};
use crate::scope::{Place, Turns, enter};
use crate::sorts::shared_place;
use flp_rename::renamed;
use flp_syntax::{Arg, Body, Expr, Item, Stmt};
use std::alloc::Global;

/// The terms of all forms that the code of a circuit has.
///
/// It unrolls the loops as [`crate::emit`] does, and keeps nothing.
pub fn term_count(alloc: Global, body: &Body) -> Result<u64, Memory>
    requires { ProgramFits (program_of body.now) }
    ensures { IfOk result (λ count. count ≡ capped (term_count (program_of body.now))) }
{
    let copy = renamed(alloc, body.stmts.as_slice())?;
    let stmts = copy.as_slice();
    let marks = marks_of_statements(alloc, stmts)?;
    let place = Place {
        alloc,
        body,
        scope: &[],
        marks: &marks,
    };
    let count = terms_of_statements(place, stmts)?;
    Ok(count)
}

// ---- expressions

/// The terms of an expression: those of its form, and those of the inputs of the calls inside it.
#[derive(Clone, Copy)]
struct Terms {
    form: u64,
    inputs: u64,
}

/// The terms of two parts together.
fn together(one: Terms, other: Terms) -> Terms
    ensures form { result.form ≡ capped (one.form + other.form) }
    ensures inputs { result.inputs ≡ capped (one.inputs + other.inputs) }
{
    Terms {
        form: one.form.saturating_add(other.form),
        inputs: one.inputs.saturating_add(other.inputs),
    }
}

/// The terms of an expression.
#[cycle(terms)]
fn terms_of<'a>(place: Place<'a, '_>, expr: &'a Expr) -> Result<Terms, Memory>
    requires { TreeHasCode (program_of place.body.now) (scope_of place.scope.now) place.marks.now (tree_of expr.now) }
    ensures { IfOk result (AreTerms (form_terms place.entry.body.now.meas (scope_of place.entry.scope.now) (tree_of expr.now)) (input_terms place.entry.body.now.meas (scope_of place.entry.scope.now) (tree_of expr.now))) }
{
    if first_is_shared(place.marks) {
        let marks = inside_first(place.marks);
        let within = Place { marks, ..place };
        terms_of_shared(within, expr)
    } else {
        Ok(Terms { form: 1, inputs: 0 })
    }
}

/// The terms of a shared expression, by the marks inside it.
#[cycle(terms)]
#[tactic(auto, using(flp_syntax::specs::View::view_equations))]
fn terms_of_shared<'a>(place: Place<'a, '_>, expr: &'a Expr) -> Result<Terms, Memory>
    requires shared { is_shared (tree_of expr.now) ≡ true }
    requires fits { TreeFits (program_of place.body.now) (scope_of place.scope.now) (tree_of expr.now) }
    requires linear { TreeIsLinear false (tree_of expr.now) }
    requires marks { BeginWith place.marks.now (marks_inside (tree_of expr.now)) }
    ensures { IfOk result (AreTerms (form_terms place.entry.body.now.meas (scope_of place.entry.scope.now) (tree_of expr.now)) (input_terms place.entry.body.now.meas (scope_of place.entry.scope.now) (tree_of expr.now))) }
{
    match expr {
        Expr::Meas { .. } => Ok(Terms { form: 1, inputs: 0 }),
        Expr::MeasOrZero { index, .. } => {
            let word = index_value(place.scope, index);
            Ok(Terms {
                form: u64::from(u64::from(word) < place.body.meas),
                inputs: 0,
            })
        }
        Expr::Sum {
            name,
            from,
            to,
            inner,
            ..
        } => terms_of_turns(place, turns_of(place.scope, name, from, to), inner),
        Expr::Call { args, .. } => {
            let inputs = terms_of_arguments(place, args.as_slice())?;
            Ok(Terms { form: 1, inputs })
        }
        Expr::Add { items, .. } => terms_of_items(place, items.as_slice()),
        Expr::Mul { factors, .. } => terms_of_factors(place, factors.as_slice()),
        Expr::Number { .. } | Expr::Var { .. } | Expr::Joint { .. } | Expr::Pow { .. } => {
            unreachable!()
        }
    }
}

/// Those of all turns of a loop.
#[cycle(terms)]
fn terms_of_turns<'a>(
    place: Place<'a, '_>,
    over: Turns<'a>,
    inner: &'a Expr,
) -> Result<Terms, Memory>
    requires fits { (turn : ℕ) → over.from ≤ turn → turn < over.to → TreeFits (program_of place.body.now) (inside (scope_of place.scope.now) over.name.now turn) (tree_of inner.now) }
    requires linear { TreeIsLinear false (tree_of inner.now) }
    requires marks { BeginWith place.marks.now (marks_of (tree_of inner.now)) }
    ensures { IfOk result (AreTerms (sum_by (λ turn. form_terms place.entry.body.now.meas (inside (scope_of place.entry.scope.now) over.entry.name.now turn) (tree_of inner.now)) (turns over.entry.from over.entry.to)) (sum_by (λ turn. input_terms place.entry.body.now.meas (inside (scope_of place.entry.scope.now) over.entry.name.now turn) (tree_of inner.now)) (turns over.entry.from over.entry.to))) }
{
    let mut all = Terms { form: 0, inputs: 0 };
    let mut room = Vec::new(place.alloc);
    for turn in over.from..over.to {
        enter(&mut room, place.scope, over.name, turn)?;
        let terms = terms_of(
            Place {
                scope: &room,
                ..place
            },
            inner,
        )?;
        all = together(all, terms);
    }
    Ok(all)
}

/// Those of all items.
#[cycle(terms)]
fn terms_of_items<'a>(place: Place<'a, '_>, list: &'a [Item]) -> Result<Terms, Memory>
    requires { ItemsHaveCode (program_of place.body.now) (scope_of place.scope.now) place.marks.now (items (map item_of list.now)) }
    ensures { IfOk result (AreTerms (item_terms place.entry.body.now.meas (scope_of place.entry.scope.now) (items (map item_of list.entry.now))) (input_terms_of_items place.entry.body.now.meas (scope_of place.entry.scope.now) (items (map item_of list.entry.now)))) }
{
    let mut marks = place.marks;
    let mut all = Terms { form: 0, inputs: 0 };
    for item in list {
        let terms = terms_of(Place { marks, ..place }, &item.expr)?;
        all = together(all, terms);
        marks = behind_first(marks);
    }
    Ok(all)
}

/// Those of a product: of its one shared factor.
#[cycle(terms)]
fn terms_of_factors<'a>(place: Place<'a, '_>, factors: &'a [Expr]) -> Result<Terms, Memory>
    requires shared { has_shared (trees (map tree_of factors.now)) ≡ true }
    requires code { FactorsHaveCode (program_of place.body.now) (scope_of place.scope.now) place.marks.now (trees (map tree_of factors.now)) }
    ensures { IfOk result (AreTerms (shared_factor_terms place.entry.body.now.meas (scope_of place.entry.scope.now) (trees (map tree_of factors.entry.now))) (input_terms_of_factors place.entry.body.now.meas (scope_of place.entry.scope.now) (trees (map tree_of factors.entry.now)))) }
{
    let (number, marks) = shared_place(factors, place.marks);
    let factor = &factors[number];
    let terms = terms_of(Place { marks, ..place }, factor)?;
    Ok(terms)
}

/// The terms of an expression in one number.
#[cycle(terms)]
fn terms_of_expression<'a>(place: Place<'a, '_>, expr: &'a Expr) -> Result<u64, Memory>
    requires { TreeHasCode (program_of place.body.now) (scope_of place.scope.now) place.marks.now (tree_of expr.now) }
    ensures { IfOk result (λ count. count ≡ capped (form_terms place.entry.body.now.meas (scope_of place.entry.scope.now) (tree_of expr.now) + input_terms place.entry.body.now.meas (scope_of place.entry.scope.now) (tree_of expr.now))) }
{
    let terms = terms_of(place, expr)?;
    Ok(terms.form.saturating_add(terms.inputs))
}

// ---- arguments

/// The terms of arguments, with those of the calls inside them.
#[cycle(terms)]
fn terms_of_arguments<'a>(place: Place<'a, '_>, args: &'a [Arg]) -> Result<u64, Memory>
    requires { ArgumentsHaveCode (program_of place.body.now) (scope_of place.scope.now) place.marks.now (arguments (map arg_of args.now)) }
    ensures { IfOk result (λ count. count ≡ capped (terms_of_arguments place.entry.body.now.meas (scope_of place.entry.scope.now) (arguments (map arg_of args.entry.now)))) }
{
    let mut marks = place.marks;
    let mut count: u64 = 0;
    for arg in args {
        let terms = terms_of_argument(Place { marks, ..place }, arg)?;
        count = count.saturating_add(terms);
        marks = behind_first(marks);
    }
    Ok(count)
}

/// The terms of an argument: of an expression, or of the turns of a loop.
#[cycle(terms)]
#[tactic(auto, using(flp_syntax::specs::View::view_equations))]
fn terms_of_argument<'a>(place: Place<'a, '_>, arg: &'a Arg) -> Result<u64, Memory>
    requires { ArgumentHasCode (program_of place.body.now) (scope_of place.scope.now) place.marks.now (arg_of arg.now) }
    ensures { IfOk result (λ count. count ≡ capped (terms_of_argument place.entry.body.now.meas (scope_of place.entry.scope.now) (arg_of arg.now))) }
{
    match arg {
        Arg::One(expr) => terms_of_expression(place, expr),
        Arg::Each {
            name,
            from,
            to,
            inner,
            ..
        } => {
            let inner = inner.as_slice();
            arguments_in_turns(place, turns_of(place.scope, name, from, to), inner)
        }
    }
}

/// The terms of arguments at each turn of a loop.
#[cycle(terms)]
fn arguments_in_turns<'a>(
    place: Place<'a, '_>,
    over: Turns<'a>,
    inner: &'a [Arg],
) -> Result<u64, Memory>
    requires fits { (turn : ℕ) → over.from ≤ turn → turn < over.to → ArgumentsFit (program_of place.body.now) (inside (scope_of place.scope.now) over.name.now turn) (arguments (map arg_of inner.now)) }
    requires linear { ArgumentsAreLinear false (arguments (map arg_of inner.now)) }
    requires marks { BeginWith place.marks.now (marked true (argument_marks (arguments (map arg_of inner.now)))) }
    ensures { IfOk result (λ count. count ≡ capped (sum_by (λ turn. terms_of_arguments place.entry.body.now.meas (inside (scope_of place.entry.scope.now) over.entry.name.now turn) (arguments (map arg_of inner.entry.now))) (turns over.entry.from over.entry.to))) }
{
    let marks = inside_first(place.marks);
    let within = Place { marks, ..place };
    let mut count: u64 = 0;
    let mut room = Vec::new(place.alloc);
    for turn in over.from..over.to {
        enter(&mut room, place.scope, over.name, turn)?;
        let terms = terms_of_arguments(
            Place {
                scope: &room,
                ..within
            },
            inner,
        )?;
        count = count.saturating_add(terms);
    }
    Ok(count)
}

// ---- statements

/// The terms of statements.
#[cycle(statement_terms)]
fn terms_of_statements<'a>(place: Place<'a, '_>, stmts: &'a [Stmt]) -> Result<u64, Memory>
    requires { StatementsHaveCode (program_of place.body.now) (scope_of place.scope.now) place.marks.now (statements (map view.statement_of stmts.now)) }
    ensures { IfOk result (λ count. count ≡ capped (terms_of_statements place.entry.body.now.meas (scope_of place.entry.scope.now) (statements (map view.statement_of stmts.entry.now)))) }
{
    let mut marks = place.marks;
    let mut count: u64 = 0;
    for stmt in stmts {
        let terms = terms_of_statement(Place { marks, ..place }, stmt)?;
        count = count.saturating_add(terms);
        marks = behind_first(marks);
    }
    Ok(count)
}

/// The terms of a statement: those of its expression, or of the turns of a loop.
#[cycle(statement_terms)]
#[tactic(auto, using(flp_syntax::specs::View::view_equations))]
fn terms_of_statement<'a>(place: Place<'a, '_>, stmt: &'a Stmt) -> Result<u64, Memory>
    requires { StatementHasCode (program_of place.body.now) (scope_of place.scope.now) place.marks.now (view.statement_of stmt.now) }
    ensures { IfOk result (λ count. count ≡ capped (statement_terms place.entry.body.now.meas (scope_of place.entry.scope.now) (view.statement_of stmt.now))) }
{
    match stmt {
        Stmt::Check { expr, .. } => terms_of_expression(place, expr),
        Stmt::Out { expr, .. } => terms_of_expression(place, expr),
        Stmt::Each {
            name,
            from,
            to,
            inner,
            ..
        } => {
            let inner = inner.as_slice();
            statements_in_turns(place, turns_of(place.scope, name, from, to), inner)
        }
    }
}

/// The terms of statements at each turn of a loop.
#[cycle(statement_terms)]
fn statements_in_turns<'a>(
    place: Place<'a, '_>,
    over: Turns<'a>,
    inner: &'a [Stmt],
) -> Result<u64, Memory>
    requires fits { (turn : ℕ) → over.from ≤ turn → turn < over.to → StatementsFit (program_of place.body.now) (inside (scope_of place.scope.now) over.name.now turn) (statements (map view.statement_of inner.now)) }
    requires linear { StatementsAreLinear (statements (map view.statement_of inner.now)) }
    requires marks { BeginWith place.marks.now (marked true (statement_marks (statements (map view.statement_of inner.now)))) }
    ensures { IfOk result (λ count. count ≡ capped (sum_by (λ turn. terms_of_statements place.entry.body.now.meas (inside (scope_of place.entry.scope.now) over.entry.name.now turn) (statements (map view.statement_of inner.entry.now))) (turns over.entry.from over.entry.to))) }
{
    let marks = inside_first(place.marks);
    let within = Place { marks, ..place };
    let mut count: u64 = 0;
    let mut room = Vec::new(place.alloc);
    for turn in over.from..over.to {
        enter(&mut room, place.scope, over.name, turn)?;
        let terms = terms_of_statements(
            Place {
                scope: &room,
                ..within
            },
            inner,
        )?;
        count = count.saturating_add(terms);
    }
    Ok(count)
}
