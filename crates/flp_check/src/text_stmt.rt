//! Names and sorts of statements.
ghost use Rattle.std.specs.Prelude.{map, IfOk};
ghost use Rattle.flp_syntax.specs.Tree as tree;
ghost use Rattle.flp_syntax.specs.View.{index_of, statement_of, declaration_of};
ghost use Rattle.flp_syntax.specs.View.{names_of};
ghost use Rattle.flp_check.specs.Flaws.{stmt_flaws, stmts_flaws, Finds};

use crate::flaw::{Found, Rule};
use crate::scope::{Loop, names_inside};
use crate::text::{Place, Search};
use flp_syntax::{Stmt, is_shared, tree_at};
use std::alloc::AllocError;

impl Search<'_> {
    /// Statements.
    #[cycle(stmt)]
    pub fn stmts<'a>(
        &self,
        names: &[&'a [u8]],
        stmts: &'a [Stmt],
        found: &mut Found,
    ) -> Result<(), AllocError>
        ensures { IfOk result (λ _. Finds found.old.first (stmts_flaws (map declaration_of self.now.gadgets.now) (names_of names.now) (tree.statements (map statement_of stmts.entry.now))) found.new.first) }
    {
        for stmt in stmts {
            self.stmt(names, stmt, found)?;
        }
        Ok(())
    }

    /// A statement.
    #[cycle(stmt)]
    fn stmt<'a>(
        &self,
        names: &[&'a [u8]],
        stmt: &'a Stmt,
        found: &mut Found,
    ) -> Result<(), AllocError>
        ensures { IfOk result (λ _. Finds found.old.first (stmt_flaws (map declaration_of self.now.gadgets.now) (names_of names.now) (statement_of stmt.now)) found.new.first) }
    {
        match stmt {
            Stmt::Check { expr, .. } => {
                let place = Place {
                    names,
                    in_out: false,
                };
                self.expr(place, expr, found)
            }
            Stmt::Out { expr, .. } => {
                let place = Place {
                    names,
                    in_out: true,
                };
                found.note(!is_shared(expr), tree_at(expr), Rule::NotLinear);
                self.expr(place, expr, found)?;
                Ok(())
            }
            Stmt::Each {
                at,
                name,
                from,
                to,
                inner,
            } => self.each(
                names,
                Loop {
                    at: *at,
                    name,
                    from,
                    to,
                },
                inner.as_slice(),
                found,
            ),
        }
    }

    /// Statements over the turns of a loop.
    #[cycle(stmt)]
    fn each<'a>(
        &self,
        names: &[&'a [u8]],
        ahead: Loop<'a>,
        inner: &'a [Stmt],
        found: &mut Found,
    ) -> Result<(), AllocError>
        ensures { IfOk result (λ _. Finds found.old.first (stmt_flaws (map declaration_of self.now.gadgets.now) (names_of names.now) (tree.each ahead.entry.at ahead.entry.name.now (index_of ahead.entry.from.now) (index_of ahead.entry.to.now) (tree.statements (map statement_of inner.entry.now)))) found.new.first) }
    {
        self.range(names, ahead, found);
        let within = names_inside(self.alloc, names, ahead.name.as_slice())?;
        self.stmts(&within, inner, found)?;
        Ok(())
    }
}
