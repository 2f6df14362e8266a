//! The rules of expressions.
ghost use Rattle.std.specs.Prelude.{◌≡◌, ◌≤◌, ◌<◌, ℕ, List, Bool, Option, Some, None, length, map, IfOk, ◌∷◌};
ghost use Rattle.flp_syntax.specs.Tree.{Index, Tree, Argument, number, sum_of, product_of, power_of};
ghost use Rattle.flp_syntax.specs.View.{index_of, tree_of, item_of, arg_of};
ghost use Rattle.flp_lang.specs.Ahead as ahead;
ghost use Rattle.flp_lang.specs.Ahead.{Ahead, next, fixed};
ghost use Rattle.flp_lang.specs.Run.{Runs, joint_ahead, meas_ahead, sum_ahead, named_ahead};

use crate::parser::{Parser, Start};
use flp_list::List;
use flp_syntax::{Arg, Expr, Idx, Item, LangFault, Mark, tree_at};
use std::alloc::{AllocError, Global};

/// The sum of a first expression, with its sign, and more; a lone one without minus is itself.
fn sum_of(minus: bool, first: Expr, mut more: Vec<Item>) -> Result<Expr, AllocError>
    ensures { IfOk result (λ v. tree_of v ≡ sum_of minus (tree_of first) (map item_of more.items)) }
{
    if !minus {
        if more.is_empty() {
            return Ok(first);
        }
    }
    let at = tree_at(&first);
    more.insert(0, Item { minus, expr: first })?;
    Ok(Expr::Add {
        at,
        items: List::from_vec(more),
    })
}

/// The product of a first expression and more; where there are no more, the first.
fn product_of(first: Expr, mut more: Vec<Expr>) -> Result<Expr, AllocError>
    ensures { IfOk result (λ v. tree_of v ≡ product_of (tree_of first) (map tree_of more.items)) }
{
    if more.is_empty() {
        return Ok(first);
    }
    let at = tree_at(&first);
    more.insert(0, first)?;
    Ok(Expr::Mul {
        at,
        factors: List::from_vec(more),
    })
}

/// The power of an expression.
fn power_of(alloc: Global, base: Expr, exponent: Idx) -> Result<Expr, AllocError>
    ensures { IfOk result (λ v. tree_of v ≡ power_of (tree_of base) (Some (index_of exponent))) }
{
    let at = tree_at(&base);
    let base = Box::new(alloc, base)?;
    Ok(Expr::Pow { at, base, exponent })
}

impl Parser<'_> {
    /// `expr = [ "-" ] term { ( "+" | "-" ) term }`
    #[cycle(expr)]
    pub fn expr(&mut self, level: u32) -> Result<Expr, LangFault>
        requires { level ≤ 64 }
        ensures runs { (K : Tree → Ahead) → Runs (level, 0) self.old.at (next ahead.expr K) self.old.rest.now result (λ _. (level, 0)) self.new.at (λ v. K (tree_of v)) self.new.rest.now }
        ensures left { IfOk result (λ _. length self.new.rest.now < length self.old.rest.now) }
    {
        let minus = self.eat(Mark::Minus);
        let first = self.term(level)?;
        let more = self.more_terms(level)?;
        Ok(sum_of(minus, first, more)?)
    }

    /// `{ ( "+" | "-" ) term }`
    #[cycle(expr)]
    fn more_terms(&mut self, level: u32) -> Result<Vec<Item>, LangFault>
        requires { level ≤ 64 }
        ensures runs { (K : List (Bool × Tree) → Ahead) → Runs (level, 0) self.old.at (next ahead.terms K) self.old.rest.now result (λ _. (level, 0)) self.new.at (λ v. K (map item_of v.items)) self.new.rest.now }
        ensures left { IfOk result (λ _. length self.new.rest.now ≤ length self.old.rest.now) }
    {
        let mut items = Vec::new(self.alloc);
        loop {
            match self.sign() {
                Some(minus) => {
                    let expr = self.term(level)?;
                    items.push(Item { minus, expr })?;
                }
                None => break,
            }
        }
        Ok(items)
    }

    /// `term = factor { "*" factor }`
    #[cycle(expr)]
    fn term(&mut self, level: u32) -> Result<Expr, LangFault>
        requires { level ≤ 64 }
        ensures runs { (K : Tree → Ahead) → Runs (level, 0) self.old.at (next ahead.term K) self.old.rest.now result (λ _. (level, 0)) self.new.at (λ v. K (tree_of v)) self.new.rest.now }
        ensures left { IfOk result (λ _. length self.new.rest.now < length self.old.rest.now) }
    {
        let first = self.factor(level)?;
        let more = self.more_factors(level)?;
        Ok(product_of(first, more)?)
    }

    /// `{ "*" factor }`
    #[cycle(expr)]
    fn more_factors(&mut self, level: u32) -> Result<Vec<Expr>, LangFault>
        requires { level ≤ 64 }
        ensures runs { (K : List Tree → Ahead) → Runs (level, 0) self.old.at (next ahead.factors K) self.old.rest.now result (λ _. (level, 0)) self.new.at (λ v. K (map tree_of v.items)) self.new.rest.now }
        ensures left { IfOk result (λ _. length self.new.rest.now ≤ length self.old.rest.now) }
    {
        let mut factors = Vec::new(self.alloc);
        while self.eat(Mark::Star) {
            let factor = self.factor(level)?;
            factors.push(factor)?;
        }
        Ok(factors)
    }

    /// `factor = prim [ "^" iprim ]`
    #[cycle(expr)]
    fn factor(&mut self, level: u32) -> Result<Expr, LangFault>
        requires { level ≤ 64 }
        ensures runs { (K : Tree → Ahead) → Runs (level, 0) self.old.at (next ahead.factor K) self.old.rest.now result (λ _. (level, 0)) self.new.at (λ v. K (tree_of v)) self.new.rest.now }
        ensures left { IfOk result (λ _. length self.new.rest.now < length self.old.rest.now) }
    {
        let base = self.prim(level)?;
        if !self.eat(Mark::Caret) {
            return Ok(base);
        }
        let exponent = self.index_prim(level)?;
        Ok(power_of(self.alloc, base, exponent)?)
    }

    /// `prim`, by what begins it
    #[cycle(expr)]
    fn prim(&mut self, level: u32) -> Result<Expr, LangFault>
        requires { level ≤ 64 }
        ensures runs { (K : Tree → Ahead) → Runs (level, 0) self.old.at (next ahead.prim K) self.old.rest.now result (λ _. (level, 0)) self.new.at (λ v. K (tree_of v)) self.new.rest.now }
        ensures left { IfOk result (λ _. length self.new.rest.now < length self.old.rest.now) }
    {
        match self.start() {
            Start::Number => self.number_expr(level),
            Start::Joint => self.joint(level),
            Start::Meas => self.meas(level),
            Start::Sum => self.sum(level),
            Start::Name => self.named(level),
            Start::Group => {
                let inner = self.open(level)?;
                let expr = self.expr(inner)?;
                self.expect(Mark::Close)?;
                Ok(expr)
            }
            Start::Other => Err(LangFault::Syntax(self.at)),
        }
    }

    /// `NUMBER`
    fn number_expr(&mut self, level: u32) -> Result<Expr, LangFault>
        ensures runs { (K : Tree → Ahead) → Runs (level, 0) self.old.at (next ahead.a_numeral (λ n. K (number self.old.at n))) self.old.rest.now result (λ _. (level, 0)) self.new.at (λ v. K (tree_of v)) self.new.rest.now }
        ensures left { IfOk result (λ _. length self.new.rest.now < length self.old.rest.now) }
    {
        let at = self.at;
        let value = self.expect_number()?;
        Ok(Expr::Number { at, value })
    }

    /// `"joint" "[" idx "]"`
    fn joint(&mut self, level: u32) -> Result<Expr, LangFault>
        requires { level ≤ 64 }
        ensures runs { (K : Tree → Ahead) → Runs (level, 0) self.old.at (joint_ahead self.old.at K) self.old.rest.now result (λ _. (level, 0)) self.new.at (λ v. K (tree_of v)) self.new.rest.now }
        ensures left { IfOk result (λ _. length self.new.rest.now < length self.old.rest.now) }
    {
        let at = self.at;
        self.expect(Mark::Joint)?;
        let index = self.bracketed(level)?;
        Ok(Expr::Joint { at, index })
    }

    /// `"meas" "[" idx "]" | "meas" "?" "[" idx "]"`
    fn meas(&mut self, level: u32) -> Result<Expr, LangFault>
        requires { level ≤ 64 }
        ensures runs { (K : Tree → Ahead) → Runs (level, 0) self.old.at (meas_ahead self.old.at K) self.old.rest.now result (λ _. (level, 0)) self.new.at (λ v. K (tree_of v)) self.new.rest.now }
        ensures left { IfOk result (λ _. length self.new.rest.now < length self.old.rest.now) }
    {
        let at = self.at;
        self.expect(Mark::Meas)?;
        let or_zero = self.eat(Mark::Question);
        let index = self.bracketed(level)?;
        if or_zero {
            return Ok(Expr::MeasOrZero { at, index });
        }
        Ok(Expr::Meas { at, index })
    }

    /// `"sum" NAME "in" idx ".." idx "(" expr ")"`
    #[cycle(expr)]
    fn sum(&mut self, level: u32) -> Result<Expr, LangFault>
        requires { level ≤ 64 }
        ensures runs { (K : Tree → Ahead) → Runs (level, 0) self.old.at (sum_ahead self.old.at K) self.old.rest.now result (λ _. (level, 0)) self.new.at (λ v. K (tree_of v)) self.new.rest.now }
        ensures left { IfOk result (λ _. length self.new.rest.now < length self.old.rest.now) }
    {
        let at = self.at;
        self.expect(Mark::Sum)?;
        let range = self.range(level)?;
        let body = self.expr(range.inner)?;
        self.expect(Mark::Close)?;
        let inner = Box::new(self.alloc, body)?;
        Ok(Expr::Sum {
            at,
            name: range.name,
            from: range.from,
            to: range.to,
            inner,
        })
    }

    /// `NAME "(" args ")" | NAME`
    #[cycle(expr)]
    fn named(&mut self, level: u32) -> Result<Expr, LangFault>
        requires { level ≤ 64 }
        ensures runs { (K : Tree → Ahead) → Runs (level, 0) self.old.at (named_ahead self.old.at K) self.old.rest.now result (λ _. (level, 0)) self.new.at (λ v. K (tree_of v)) self.new.rest.now }
        ensures left { IfOk result (λ _. length self.new.rest.now < length self.old.rest.now) }
    {
        let at = self.at;
        let name = self.expect_name()?;
        if !self.is_next(Mark::Open) {
            return Ok(Expr::Var { at, name });
        }
        let inner = self.open(level)?;
        let args = self.args(inner)?;
        self.expect(Mark::Close)?;
        Ok(Expr::Call {
            at,
            name,
            args: List::from_vec(args),
        })
    }

    /// `args = arg { "," arg }`
    #[cycle(expr)]
    fn args(&mut self, level: u32) -> Result<Vec<Arg>, LangFault>
        requires { level ≤ 64 }
        ensures runs { (K : List Argument → Ahead) → Runs (level, 0) self.old.at (next ahead.args K) self.old.rest.now result (λ _. (level, 0)) self.new.at (λ v. K (map arg_of v.items)) self.new.rest.now }
        ensures left { IfOk result (λ _. length self.new.rest.now < length self.old.rest.now) }
    {
        let first = self.arg(level)?;
        let mut args = Vec::new(self.alloc);
        args.push(first)?;
        while self.eat(Mark::Comma) {
            let arg = self.arg(level)?;
            args.push(arg)?;
        }
        Ok(args)
    }

    /// `arg = expr | "each" NAME "in" idx ".." idx "(" args ")"`
    #[cycle(expr)]
    fn arg(&mut self, level: u32) -> Result<Arg, LangFault>
        requires { level ≤ 64 }
        ensures runs { (K : Argument → Ahead) → Runs (level, 0) self.old.at (next ahead.arg K) self.old.rest.now result (λ _. (level, 0)) self.new.at (λ v. K (arg_of v)) self.new.rest.now }
        ensures left { IfOk result (λ _. length self.new.rest.now < length self.old.rest.now) }
    {
        if !self.is_next(Mark::Each) {
            let expr = self.expr(level)?;
            return Ok(Arg::One(expr));
        }
        let at = self.at;
        self.expect(Mark::Each)?;
        let range = self.range(level)?;
        let args = self.args(range.inner)?;
        self.expect(Mark::Close)?;
        Ok(Arg::Each {
            at,
            name: range.name,
            from: range.from,
            to: range.to,
            inner: List::from_vec(args),
        })
    }
}
