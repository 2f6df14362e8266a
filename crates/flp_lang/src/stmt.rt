//! The rules of statements.
ghost use Rattle.std.specs.Prelude.{◌≡◌, ◌≤◌, ◌<◌, ℕ, List, length, map, IfOk};
ghost use Rattle.flp_syntax.specs.Tree.{Statement};
ghost use Rattle.flp_syntax.specs.View.{statement_of};
ghost use Rattle.flp_lang.specs.Ahead as ahead;
ghost use Rattle.flp_lang.specs.Ahead.{Ahead, next, fixed};
ghost use Rattle.flp_lang.specs.Run.{Runs, check_ahead, out_ahead, each_ahead};

use crate::parser::Parser;
use flp_list::List;
use flp_syntax::{LangFault, Mark, Stmt};

impl Parser<'_> {
    /// `stmt { stmt }`
    #[cycle(stmt)]
    pub fn stmts(&mut self, level: u32) -> Result<Vec<Stmt>, LangFault>
        requires { level ≤ 64 }
        ensures runs { (K : List Statement → Ahead) → Runs (level, 0) self.old.at (next ahead.stmts K) self.old.rest.now result (λ _. (level, 0)) self.new.at (λ v. K (map statement_of v.items)) self.new.rest.now }
        ensures left { IfOk result (λ _. length self.new.rest.now < length self.old.rest.now) }
    {
        let first = self.stmt(level)?;
        let mut stmts = Vec::new(self.alloc);
        stmts.push(first)?;
        while self.starts_stmt() {
            let stmt = self.stmt(level)?;
            stmts.push(stmt)?;
        }
        Ok(stmts)
    }

    /// `stmt`, by what begins it
    #[cycle(stmt)]
    fn stmt(&mut self, level: u32) -> Result<Stmt, LangFault>
        requires { level ≤ 64 }
        ensures runs { (K : Statement → Ahead) → Runs (level, 0) self.old.at (next ahead.stmt K) self.old.rest.now result (λ _. (level, 0)) self.new.at (λ v. K (statement_of v)) self.new.rest.now }
        ensures left { IfOk result (λ _. length self.new.rest.now < length self.old.rest.now) }
    {
        if self.is_next(Mark::Check) {
            return self.check(level);
        }
        if self.is_next(Mark::Out) {
            return self.out(level);
        }
        self.each(level)
    }

    /// `"check" expr ";"`
    fn check(&mut self, level: u32) -> Result<Stmt, LangFault>
        requires { level ≤ 64 }
        ensures runs { (K : Statement → Ahead) → Runs (level, 0) self.old.at (check_ahead self.old.at K) self.old.rest.now result (λ _. (level, 0)) self.new.at (λ v. K (statement_of v)) self.new.rest.now }
        ensures left { IfOk result (λ _. length self.new.rest.now < length self.old.rest.now) }
    {
        let at = self.at;
        self.expect(Mark::Check)?;
        let expr = self.expr(level)?;
        self.expect(Mark::Semicolon)?;
        Ok(Stmt::Check { at, expr })
    }

    /// `"out" expr ";"`
    fn out(&mut self, level: u32) -> Result<Stmt, LangFault>
        requires { level ≤ 64 }
        ensures runs { (K : Statement → Ahead) → Runs (level, 0) self.old.at (out_ahead self.old.at K) self.old.rest.now result (λ _. (level, 0)) self.new.at (λ v. K (statement_of v)) self.new.rest.now }
        ensures left { IfOk result (λ _. length self.new.rest.now < length self.old.rest.now) }
    {
        let at = self.at;
        self.expect(Mark::Out)?;
        let expr = self.expr(level)?;
        self.expect(Mark::Semicolon)?;
        Ok(Stmt::Out { at, expr })
    }

    /// `"each" NAME "in" idx ".." idx "(" stmt { stmt } ")"`
    #[cycle(stmt)]
    fn each(&mut self, level: u32) -> Result<Stmt, LangFault>
        requires { level ≤ 64 }
        ensures runs { (K : Statement → Ahead) → Runs (level, 0) self.old.at (each_ahead self.old.at K) self.old.rest.now result (λ _. (level, 0)) self.new.at (λ v. K (statement_of v)) self.new.rest.now }
        ensures left { IfOk result (λ _. length self.new.rest.now < length self.old.rest.now) }
    {
        let at = self.at;
        self.expect(Mark::Each)?;
        let range = self.range(level)?;
        let stmts = self.stmts(range.inner)?;
        self.expect(Mark::Close)?;
        Ok(Stmt::Each {
            at,
            name: range.name,
            from: range.from,
            to: range.to,
            inner: List::from_vec(stmts),
        })
    }
}
