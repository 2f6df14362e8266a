//! Statements: each check and each out becomes a linear form.
ghost use Rattle.std.specs.Prelude.{◌≤◌, ◌<◌, ℕ, true, map, IfOk};
ghost use Rattle.flp_syntax.specs.Tree.{statements};
ghost use Rattle.flp_syntax.specs.Scope.{inside, turns};
ghost use Rattle.flp_syntax.specs.View.{program_of};
ghost use Rattle.flp_syntax.specs.View as view;
ghost use Rattle.flp_meaning.specs.Meaning.{all_results, statement_of, statements_of};
ghost use Rattle.flp_syntax.specs.Linear.{StatementsAreLinear};
ghost use Rattle.flp_syntax.specs.Fits.{StatementsFit};
ghost use Rattle.flp_syntax.specs.View.{scope_of};
ghost use Rattle.flp_emit.specs.Walking.{StatementHasCode, StatementsHaveCode};
ghost use Rattle.flp_emit.specs.Marks.{BeginWith, marked, statement_marks};
ghost use Rattle.flp_emit.specs.Code.{read_by};
ghost use Rattle.flp_emit.specs.Emitting.{IsReady, Performed};

use crate::Memory;
use crate::index::turns_of;
use crate::made::{Done, Made};
use crate::marks::{behind_first, inside_first};
use crate::scope::{Place, Turns, enter};
use crate::shared::form_of;
use flp_syntax::Stmt;

/// Appends the forms of statements.
#[cycle(stmts)]
pub(crate) fn perform<'a>(
    place: Place<'a, '_>,
    made: &mut Made,
    done: &mut Done,
    stmts: &'a [Stmt],
) -> Result<(), Memory>
    requires ready { IsReady (program_of place.body.now) made.old }
    requires code { StatementsHaveCode (program_of place.body.now) (scope_of place.scope.now) place.marks.now (statements (map view.statement_of stmts.now)) }
    ensures { IfOk result (λ _. Performed place.entry.body.now.meas made.old made.new done.old done.new (λ joint share. all_results (statements_of (program_of place.entry.body.now).gadgets (read_by joint share) (scope_of place.entry.scope.now) (statements (map view.statement_of stmts.entry.now))))) }
{
    let mut marks = place.marks;
    for stmt in stmts {
        perform_one(Place { marks, ..place }, made, done, stmt)?;
        marks = behind_first(marks);
    }
    Ok(())
}

/// Appends the form of a statement, or those of the turns of a loop.
#[cycle(stmts)]
#[tactic(auto, using(flp_syntax::specs::View::view_equations))]
fn perform_one<'a>(
    place: Place<'a, '_>,
    made: &mut Made,
    done: &mut Done,
    stmt: &'a Stmt,
) -> Result<(), Memory>
    requires ready { IsReady (program_of place.body.now) made.old }
    requires code { StatementHasCode (program_of place.body.now) (scope_of place.scope.now) place.marks.now (view.statement_of stmt.now) }
    ensures { IfOk result (λ _. Performed place.entry.body.now.meas made.old made.new done.old done.new (λ joint share. statement_of (program_of place.entry.body.now).gadgets (read_by joint share) (scope_of place.entry.scope.now) (view.statement_of stmt.now))) }
{
    match stmt {
        Stmt::Check { expr, .. } => {
            let form = form_of(place, made, expr)?;
            done.checks.push(&form)?;
            Ok(())
        }
        Stmt::Out { expr, .. } => {
            let form = form_of(place, made, expr)?;
            done.outs.push(&form)?;
            Ok(())
        }
        Stmt::Each {
            name,
            from,
            to,
            inner,
            ..
        } => {
            let over = turns_of(place.scope, name, from, to);
            perform_turns(place, made, done, over, inner.as_slice())
        }
    }
}

/// Appends the forms of statements at each turn of a loop.
#[cycle(stmts)]
fn perform_turns<'a>(
    place: Place<'a, '_>,
    made: &mut Made,
    done: &mut Done,
    over: Turns<'a>,
    inner: &'a [Stmt],
) -> Result<(), Memory>
    requires ready { IsReady (program_of place.body.now) made.old }
    requires fits { (turn : ℕ) → over.from ≤ turn → turn < over.to → StatementsFit (program_of place.body.now) (inside (scope_of place.scope.now) over.name.now turn) (statements (map view.statement_of inner.now)) }
    requires linear { StatementsAreLinear (statements (map view.statement_of inner.now)) }
    requires marks { BeginWith place.marks.now (marked true (statement_marks (statements (map view.statement_of inner.now)))) }
    ensures { IfOk result (λ _. Performed place.entry.body.now.meas made.old made.new done.old done.new (λ joint share. all_results (map (λ turn. all_results (statements_of (program_of place.entry.body.now).gadgets (read_by joint share) (inside (scope_of place.entry.scope.now) over.entry.name.now turn) (statements (map view.statement_of inner.entry.now)))) (turns over.entry.from over.entry.to)))) }
{
    let marks = inside_first(place.marks);
    let within = Place { marks, ..place };
    let mut room = Vec::new(place.alloc);
    for turn in over.from..over.to {
        enter(&mut room, place.scope, over.name, turn)?;
        perform(
            Place {
                scope: &room,
                ..within
            },
            made,
            done,
            inner,
        )?;
    }
    Ok(())
}
