//! Writing statements.
ghost use Rattle.std.specs.Prelude.{◌≡◌, List, OnOk, map};
ghost use Rattle.flp_syntax.specs.Tree.{statements};
ghost use Rattle.flp_syntax.specs.View.{statement_of};
ghost use Rattle.flp_lang.specs.Print.{put_stmt, put_stmts};
ghost use Rattle.flp_lang.specs.Written.{Wrote};

use crate::Memory;
use crate::printer::Printer;
use flp_syntax::{Mark, Stmt};

impl Printer {
    /// A statement.
    #[tactic(auto, using(flp_syntax::specs::View::view_equations))]
    #[cycle(printed_stmt)]
    fn stmt(&mut self, stmt: &Stmt) -> Result<(), Memory>
        ensures { OnOk result (Wrote self.old.text.items (put_stmt (statement_of stmt.now)) self.new.text.items) }
    {
        match stmt {
            Stmt::Check { expr, .. } => {
                self.mark(Mark::Check)?;
                self.expr(expr)?;
                self.mark(Mark::Semicolon)
            }
            Stmt::Out { expr, .. } => {
                self.mark(Mark::Out)?;
                self.expr(expr)?;
                self.mark(Mark::Semicolon)
            }
            Stmt::Each {
                name,
                from,
                to,
                inner,
                ..
            } => {
                self.mark(Mark::Each)?;
                self.range(name.as_slice(), from, to)?;
                self.stmts(inner.as_slice())?;
                self.mark(Mark::Close)
            }
        }
    }

    /// Statements, one behind the other.
    #[tactic(auto, using(flp_syntax::specs::View::view_equations))]
    #[cycle(printed_stmt)]
    pub fn stmts(&mut self, stmts: &[Stmt]) -> Result<(), Memory>
        ensures { OnOk result (Wrote self.old.text.items (put_stmts (statements (map statement_of stmts.now))) self.new.text.items) }
    {
        for stmt in stmts {
            self.stmt(stmt)?;
        }
        Ok(())
    }
}
