//! Which parts of a circuit are shared: found once, and then read in step with the text.
//!
//! What stands inside a loop without a turn is met by no walk, yet whether it is shared decides what the loop counts as.
//! Asked of the text each time, such a loop would cost its whole inside each time it is met. By marks it costs one
//! look. So a walk takes at most a constant for each node that it meets, and to make the marks takes the text's length
//! times its depth, once.
ghost use Rattle.std.specs.Prelude.{◌≡◌, ◌<◌, ◌++◌, ◌∷◌, [], Bool, List, map, length, IfOk};
ghost use Rattle.flp_syntax.specs.Tree.{Tree, items, trees, arguments, statements};
ghost use Rattle.flp_syntax.specs.Sorts.{is_shared};
ghost use Rattle.flp_syntax.specs.View.{tree_of, item_of, arg_of};
ghost use Rattle.flp_syntax.specs.View as view;
ghost use Rattle.flp_emit.specs.declared.marks.Mark as mark;
ghost use Rattle.flp_emit.specs.Marks.{marked, marks_inside, item_marks, factor_marks, marks_of_argument, argument_marks, marks_of, marks_of_statement, statement_marks, BeginWith};

use crate::Memory;
use flp_syntax::{Arg, Expr, Item, Stmt, is_shared};
use std::alloc::Global;

/// The mark of a part of a circuit: whether it is shared, and how many marks it has with the parts inside it.
#[derive(Clone, Copy)]
pub(crate) struct Mark {
    pub shared: bool,
    pub size: usize,
}

// ---- marks that are read

/// Whether the first part is shared.
pub(crate) fn first_is_shared(marks: &[Mark]) -> bool
    ensures { (shared : Bool) (inner : List mark.Mark) → BeginWith marks.now (marked shared inner) → result ≡ shared }
{
    match marks {
        [first, ..] => first.shared,
        [] => false,
    }
}

/// The marks from those inside the first part on.
pub(crate) fn inside_first(marks: &[Mark]) -> &[Mark]
    ensures { (shared : Bool) (inner : List mark.Mark) → BeginWith marks.now (marked shared inner) → BeginWith result.now inner }
{
    match marks {
        [_, rest @ ..] => rest,
        [] => marks,
    }
}

/// The marks behind the first part.
pub(crate) fn behind_first(marks: &[Mark]) -> &[Mark]
    ensures { (shared : Bool) (inner more : List mark.Mark) → BeginWith marks.now (marked shared inner ++ more) → BeginWith result.now more }
{
    match marks {
        [first, ..] if first.size <= marks.len() => &marks[first.size..],
        _ => marks,
    }
}

// ---- marks that are made

/// The marks of statements.
pub(crate) fn marks_of_statements(alloc: Global, stmts: &[Stmt]) -> Result<Vec<Mark>, Memory>
    ensures { IfOk result (λ marks. BeginWith marks.items (statement_marks (statements (map view.statement_of stmts.now)))) }
{
    let mut marks = Vec::new(alloc);
    mark_statements(&mut marks, stmts)?;
    Ok(marks)
}

/// Appends the marks of statements.
#[cycle(statements)]
fn mark_statements(marks: &mut Vec<Mark>, stmts: &[Stmt]) -> Result<(), Memory>
    ensures { IfOk result (λ _. marks.new.items ≡ marks.old.items ++ statement_marks (statements (map view.statement_of stmts.now))) }
{
    for stmt in stmts {
        mark_statement(marks, stmt)?;
    }
    Ok(())
}

/// Appends the marks of a statement.
#[cycle(statements)]
#[tactic(auto, using(flp_syntax::specs::View::view_equations))]
fn mark_statement(marks: &mut Vec<Mark>, stmt: &Stmt) -> Result<(), Memory>
    ensures { IfOk result (λ _. marks.new.items ≡ marks.old.items ++ marks_of_statement (view.statement_of stmt.now)) }
{
    match stmt {
        Stmt::Check { expr, .. } => mark_expression(marks, expr),
        Stmt::Out { expr, .. } => mark_expression(marks, expr),
        Stmt::Each { inner, .. } => {
            let place = begin_part(marks, true)?;
            mark_statements(marks, inner.as_slice())?;
            end_part(marks, place);
            Ok(())
        }
    }
}

/// Appends the marks of an expression.
#[cycle(expressions)]
fn mark_expression(marks: &mut Vec<Mark>, expr: &Expr) -> Result<(), Memory>
    ensures { IfOk result (λ _. marks.new.items ≡ marks.old.items ++ marks_of (tree_of expr.now)) }
{
    let place = begin_part(marks, is_shared(expr))?;
    mark_inside(marks, expr)?;
    end_part(marks, place);
    Ok(())
}

/// Appends the marks inside an expression.
#[cycle(expressions)]
#[tactic(auto, using(flp_syntax::specs::View::view_equations))]
fn mark_inside(marks: &mut Vec<Mark>, expr: &Expr) -> Result<(), Memory>
    ensures { IfOk result (λ _. marks.new.items ≡ marks.old.items ++ marks_inside (tree_of expr.now)) }
{
    match expr {
        Expr::Number { .. } => Ok(()),
        Expr::Var { .. } => Ok(()),
        Expr::Joint { .. } => Ok(()),
        Expr::Meas { .. } => Ok(()),
        Expr::MeasOrZero { .. } => Ok(()),
        Expr::Sum { inner, .. } => mark_expression(marks, inner),
        Expr::Call { args, .. } => mark_arguments(marks, args.as_slice()),
        Expr::Add { items, .. } => mark_items(marks, items.as_slice()),
        Expr::Mul { factors, .. } => mark_factors(marks, factors.as_slice()),
        Expr::Pow { base, .. } => mark_expression(marks, base),
    }
}

/// Appends the marks of items.
#[cycle(expressions)]
fn mark_items(marks: &mut Vec<Mark>, list: &[Item]) -> Result<(), Memory>
    ensures { IfOk result (λ _. marks.new.items ≡ marks.old.items ++ item_marks (items (map item_of list.now))) }
{
    for item in list {
        mark_expression(marks, &item.expr)?;
    }
    Ok(())
}

/// Appends the marks of factors.
#[cycle(expressions)]
fn mark_factors(marks: &mut Vec<Mark>, factors: &[Expr]) -> Result<(), Memory>
    ensures { IfOk result (λ _. marks.new.items ≡ marks.old.items ++ factor_marks (trees (map tree_of factors.now))) }
{
    for factor in factors {
        mark_expression(marks, factor)?;
    }
    Ok(())
}

/// Appends the marks of arguments.
#[cycle(expressions)]
fn mark_arguments(marks: &mut Vec<Mark>, args: &[Arg]) -> Result<(), Memory>
    ensures { IfOk result (λ _. marks.new.items ≡ marks.old.items ++ argument_marks (arguments (map arg_of args.now))) }
{
    for arg in args {
        mark_argument(marks, arg)?;
    }
    Ok(())
}

/// Appends the marks of an argument.
#[cycle(expressions)]
#[tactic(auto, using(flp_syntax::specs::View::view_equations))]
fn mark_argument(marks: &mut Vec<Mark>, arg: &Arg) -> Result<(), Memory>
    ensures { IfOk result (λ _. marks.new.items ≡ marks.old.items ++ marks_of_argument (arg_of arg.now)) }
{
    match arg {
        Arg::One(expr) => mark_expression(marks, expr),
        Arg::Each { inner, .. } => {
            let place = begin_part(marks, true)?;
            mark_arguments(marks, inner.as_slice())?;
            end_part(marks, place);
            Ok(())
        }
    }
}

/// Begins a part: its mark, which counts itself alone so far, and where it stands.
fn begin_part(marks: &mut Vec<Mark>, shared: bool) -> Result<usize, Memory>
    ensures { IfOk result (λ place. (place ≡ length marks.old.items) × (marks.new.items ≡ marks.old.items ++ record { shared = shared; size = 1 } ∷ [])) }
{
    let place = marks.len();
    marks.push(Mark { shared, size: 1 })?;
    Ok(place)
}

/// Ends a part whose mark stands at this place, in front of those inside it.
fn end_part(marks: &mut Vec<Mark>, place: usize)
    requires { place < length marks.old.items }
    ensures { (front inner : List mark.Mark) (first : mark.Mark) → marks.old.items ≡ front ++ first ∷ inner → place ≡ length front → marks.new.items ≡ front ++ marked first.shared inner }
{
    let size = marks.len() - place;
    let Mark { shared, .. } = marks[place];
    marks[place] = Mark { shared, size };
}
