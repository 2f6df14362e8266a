//! What unrolling meets in statements.
ghost use Rattle.std.specs.Prelude.{◌++◌, map};
ghost use Rattle.std.specs.List.{flat_map};
ghost use Rattle.flp_syntax.specs.Tree as tree;
ghost use Rattle.flp_syntax.specs.Scope.{index_value, inside, turns};
ghost use Rattle.flp_syntax.specs.View.{index_of, statement_of, program_of};
ghost use Rattle.flp_check.specs.Events.{range_events, stmt_events, stmts_events};
ghost use Rattle.flp_check.specs.Counts.{Walks};
ghost use Rattle.flp_check.specs.Held.{counts_of};
ghost use Rattle.flp_syntax.specs.View.{scope_of};

use crate::counter::Counter;
use crate::scope::Loop;
use crate::unroll::Unroller;
use flp_list::Bytes;
use flp_syntax::{Bound, LangFault, Stmt};

impl Unroller<'_> {
    /// Statements.
    #[cycle(stmt)]
    pub fn stmts<'a>(
        &self,
        scope: &[Bound<'a>],
        stmts: &'a [Stmt],
        counter: &mut Counter,
    ) -> Result<(), LangFault>
        ensures { Walks (counts_of counter.old) (stmts_events (program_of self.now.body.now) (scope_of scope.now) (tree.statements (map statement_of stmts.entry.now))) result (counts_of counter.new) }
    {
        for stmt in stmts {
            self.stmt(scope, stmt, counter)?;
        }
        Ok(())
    }

    /// A statement.
    #[cycle(stmt)]
    fn stmt<'a>(
        &self,
        scope: &[Bound<'a>],
        stmt: &'a Stmt,
        counter: &mut Counter,
    ) -> Result<(), LangFault>
        ensures { Walks (counts_of counter.old) (stmt_events (program_of self.now.body.now) (scope_of scope.now) (statement_of stmt.now)) result (counts_of counter.new) }
    {
        counter.visit()?;
        match stmt {
            Stmt::Check { expr, .. } => {
                counter.check()?;
                self.expr(scope, expr, counter)
            }
            Stmt::Out { expr, .. } => {
                counter.output()?;
                self.expr(scope, expr, counter)
            }
            Stmt::Each {
                at,
                name,
                from,
                to,
                inner,
            } => self.each(
                scope,
                Loop {
                    at: *at,
                    name,
                    from,
                    to,
                },
                inner.as_slice(),
                counter,
            ),
        }
    }

    /// Statements over the turns of a loop, behind its node.
    #[cycle(stmt)]
    fn each<'a>(
        &self,
        scope: &[Bound<'a>],
        ahead: Loop<'a>,
        inner: &'a [Stmt],
        counter: &mut Counter,
    ) -> Result<(), LangFault>
        ensures { Walks (counts_of counter.old) (range_events (scope_of scope.now) (index_of ahead.entry.from.now) (index_of ahead.entry.to.now) ++ flat_map (λ value. stmts_events (program_of self.now.body.now) (inside (scope_of scope.now) ahead.entry.name.now value) (tree.statements (map statement_of inner.entry.now))) (turns (index_value (scope_of scope.now) (index_of ahead.entry.from.now)) (index_value (scope_of scope.now) (index_of ahead.entry.to.now)))) result (counts_of counter.new) }
    {
        let bounds = counter.range(scope, ahead)?;
        self.stmt_turns(scope, ahead.name, bounds, inner, counter)
    }

    /// The turns of a loop of statements.
    #[cycle(stmt)]
    fn stmt_turns<'a>(
        &self,
        scope: &[Bound<'a>],
        name: &'a Bytes,
        bounds: (u32, u32),
        inner: &'a [Stmt],
        counter: &mut Counter,
    ) -> Result<(), LangFault>
        ensures { Walks (counts_of counter.old) (flat_map (λ value. stmts_events (program_of self.now.body.now) (inside (scope_of scope.now) name.now value) (tree.statements (map statement_of inner.entry.now))) (turns bounds.0 bounds.1)) result (counts_of counter.new) }
    {
        let (from, to) = bounds;
        let name = name.as_slice();
        let mut within = scope.to_vec(self.alloc)?;
        for value in from..to {
            within.push(Bound { name, value })?;
            self.stmts(&within, inner, counter)?;
            within.truncate(scope.len());
        }
        Ok(())
    }
}
