//! Statements with their loops named by depth.
ghost use Rattle.std.specs.Prelude.{◌≡◌, ◌++◌, ◌∷◌, [], map, IfOk};
ghost use Rattle.flp_syntax.specs.Tree as tree;
ghost use Rattle.flp_syntax.specs.View.{statement_of, names_of};
ghost use Rattle.flp_rename.specs.Renamed.{renamed_statement, renamed_statements};

use crate::index::loop_head;
use crate::names::names_inside;
use crate::tree::tree;
use flp_list::List;
use flp_syntax::Stmt;
use std::alloc::{AllocError, Global};

/// The statements of a body, each loop named by its depth and each variable by that of its loop.
///
/// It takes as much memory as the statements have, and is as deep on the stack as they are.
pub fn renamed(alloc: Global, stmts: &[Stmt]) -> Result<List<Stmt>, AllocError>
    ensures { IfOk result (λ copy. tree.statements (map statement_of copy) ≡ renamed_statements [] (tree.statements (map statement_of stmts.now))) }
{
    statements(alloc, &[], stmts)
}

/// Statements.
#[cycle(stmt)]
fn statements<'a>(
    alloc: Global,
    names: &[&'a [u8]],
    stmts: &'a [Stmt],
) -> Result<List<Stmt>, AllocError>
    ensures { IfOk result (λ copy. tree.statements (map statement_of copy) ≡ renamed_statements (names_of names.now) (tree.statements (map statement_of stmts.now))) }
{
    let mut copy = Vec::with_capacity(alloc, stmts.len())?;
    for stmt in stmts {
        let stmt = statement(alloc, names, stmt)?;
        copy.push(stmt)?;
    }
    Ok(List::from_vec(copy))
}

/// Statements inside a loop of this name.
#[cycle(stmt)]
fn statements_within<'a>(
    alloc: Global,
    names: &[&'a [u8]],
    name: &'a [u8],
    stmts: &'a [Stmt],
) -> Result<List<Stmt>, AllocError>
    ensures { IfOk result (λ copy. tree.statements (map statement_of copy) ≡ renamed_statements (names_of names.now ++ name.now ∷ []) (tree.statements (map statement_of stmts.now))) }
{
    let within = names_inside(alloc, names, name)?;
    let copy = statements(alloc, &within, stmts)?;
    Ok(copy)
}

/// A statement.
#[cycle(stmt)]
#[tactic(auto, using(flp_syntax::specs::View::view_equations))]
fn statement<'a>(alloc: Global, names: &[&'a [u8]], stmt: &'a Stmt) -> Result<Stmt, AllocError>
    ensures { IfOk result (λ copy. statement_of copy ≡ renamed_statement (names_of names.now) (statement_of stmt.now)) }
{
    match stmt {
        Stmt::Check { at, expr } => {
            let expr = tree(alloc, names, expr)?;
            Ok(Stmt::Check { at: *at, expr })
        }
        Stmt::Out { at, expr } => {
            let expr = tree(alloc, names, expr)?;
            Ok(Stmt::Out { at: *at, expr })
        }
        Stmt::Each {
            at,
            name,
            from,
            to,
            inner,
        } => {
            let inner = statements_within(alloc, names, name.as_slice(), inner.as_slice())?;
            let head = loop_head(alloc, names, from, to)?;
            Ok(Stmt::Each {
                at: *at,
                name: head.name,
                from: head.from,
                to: head.to,
                inner,
            })
        }
    }
}
