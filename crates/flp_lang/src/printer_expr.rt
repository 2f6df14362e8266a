//! Writing expressions.
ghost use Rattle.std.specs.Prelude.{◌≡◌, List, OnOk, map, ◌∷◌, ◌||◌};
ghost use Rattle.flp_syntax.specs.declared.token.Token.TheVariants as tokens;
ghost use Rattle.flp_syntax.specs.declared.token.Mark.TheVariants as marks;
ghost use Rattle.flp_syntax.specs.Tree as mirror;
ghost use Rattle.flp_syntax.specs.Tree.{trees, arguments};
ghost use Rattle.flp_syntax.specs.View.{tree_of, item_of, arg_of};
ghost use Rattle.flp_lang.specs.Print.{wrap, is_add, is_mul, is_pow, put_tree, put_items, put_factors, put_args, put_arg};
ghost use Rattle.flp_lang.specs.Written.{Wrote};

use crate::Memory;
use crate::printer::Printer;
use flp_syntax::{Arg, Expr, Item, Mark};

/// Whether it is a sum.
#[tactic(auto, using(flp_syntax::specs::View::view_equations))]
fn is_sum(expr: &Expr) -> bool
    ensures { result ≡ (is_add (tree_of expr.now)) }
{
    match expr {
        Expr::Add { .. } => true,
        Expr::Number { .. }
        | Expr::Var { .. }
        | Expr::Joint { .. }
        | Expr::Meas { .. }
        | Expr::MeasOrZero { .. }
        | Expr::Sum { .. }
        | Expr::Call { .. }
        | Expr::Mul { .. }
        | Expr::Pow { .. } => false,
    }
}

/// Whether it is a sum or a product.
#[tactic(auto, using(flp_syntax::specs::View::view_equations))]
fn is_sum_or_product(expr: &Expr) -> bool
    ensures { result ≡ (is_add (tree_of expr.now) || is_mul (tree_of expr.now)) }
{
    match expr {
        Expr::Add { .. } | Expr::Mul { .. } => true,
        Expr::Number { .. }
        | Expr::Var { .. }
        | Expr::Joint { .. }
        | Expr::Meas { .. }
        | Expr::MeasOrZero { .. }
        | Expr::Sum { .. }
        | Expr::Call { .. }
        | Expr::Pow { .. } => false,
    }
}

/// Whether it is a sum, a product or a power.
#[tactic(auto, using(flp_syntax::specs::View::view_equations))]
fn is_compound(expr: &Expr) -> bool
    ensures { result ≡ (is_add (tree_of expr.now) || is_mul (tree_of expr.now) || is_pow (tree_of expr.now)) }
{
    match expr {
        Expr::Add { .. } | Expr::Mul { .. } | Expr::Pow { .. } => true,
        Expr::Number { .. }
        | Expr::Var { .. }
        | Expr::Joint { .. }
        | Expr::Meas { .. }
        | Expr::MeasOrZero { .. }
        | Expr::Sum { .. }
        | Expr::Call { .. } => false,
    }
}

impl Printer {
    /// An expression.
    #[tactic(auto, using(flp_syntax::specs::View::view_equations))]
    #[cycle(printed_expr)]
    pub fn expr(&mut self, expr: &Expr) -> Result<(), Memory>
        ensures { OnOk result (Wrote self.old.text.items (put_tree (tree_of expr.now)) self.new.text.items) }
    {
        match expr {
            Expr::Number { value, .. } => self.number(value.value()),
            Expr::Var { name, .. } => self.name(name.as_slice()),
            Expr::Joint { index, .. } => {
                self.mark(Mark::Joint)?;
                self.bracketed(index)
            }
            Expr::Meas { index, .. } => {
                self.mark(Mark::Meas)?;
                self.bracketed(index)
            }
            Expr::MeasOrZero { index, .. } => {
                self.mark(Mark::Meas)?;
                self.mark(Mark::Question)?;
                self.bracketed(index)
            }
            Expr::Sum {
                name,
                from,
                to,
                inner,
                ..
            } => {
                self.mark(Mark::Sum)?;
                self.range(name.as_slice(), from, to)?;
                self.expr(inner)?;
                self.mark(Mark::Close)
            }
            Expr::Call { name, args, .. } => self.call(name.as_slice(), args.as_slice()),
            Expr::Add { items, .. } => self.items(items.as_slice()),
            Expr::Mul { factors, .. } => self.factors(factors.as_slice()),
            Expr::Pow { base, exponent, .. } => {
                self.base(base)?;
                self.mark(Mark::Caret)?;
                self.index_factor(exponent)
            }
        }
    }

    /// `NAME "(" args ")"`
    #[cycle(printed_expr)]
    fn call(&mut self, name: &[u8], args: &[Arg]) -> Result<(), Memory>
        ensures { OnOk result (Wrote self.old.text.items (λ s. tokens.Name name.now ∷ tokens.Fixed marks.Open ∷ put_args (arguments (map arg_of args.now)) (tokens.Fixed marks.Close ∷ s)) self.new.text.items) }
    {
        self.name(name)?;
        self.mark(Mark::Open)?;
        self.args(args)?;
        self.mark(Mark::Close)
    }

    /// An expression, in parentheses or not.
    #[cycle(printed_expr)]
    fn group(&mut self, wrapped: bool, expr: &Expr) -> Result<(), Memory>
        ensures { OnOk result (Wrote self.old.text.items (wrap wrapped (put_tree (tree_of expr.now))) self.new.text.items) }
    {
        if !wrapped {
            return self.expr(expr);
        }
        self.mark(Mark::Open)?;
        self.expr(expr)?;
        self.mark(Mark::Close)
    }

    /// An item of a sum behind its sign: a sum stands in parentheses.
    #[cycle(printed_expr)]
    fn item(&mut self, expr: &Expr) -> Result<(), Memory>
        ensures { OnOk result (Wrote self.old.text.items (wrap (is_add (tree_of expr.now)) (put_tree (tree_of expr.now))) self.new.text.items) }
    {
        self.group(is_sum(expr), expr)
    }

    /// A factor: a sum and a product stand in parentheses.
    #[cycle(printed_expr)]
    fn factor(&mut self, expr: &Expr) -> Result<(), Memory>
        ensures { OnOk result (Wrote self.old.text.items (wrap (is_add (tree_of expr.now) || is_mul (tree_of expr.now)) (put_tree (tree_of expr.now))) self.new.text.items) }
    {
        self.group(is_sum_or_product(expr), expr)
    }

    /// A base: a sum, a product and a power stand in parentheses.
    #[cycle(printed_expr)]
    fn base(&mut self, expr: &Expr) -> Result<(), Memory>
        ensures { OnOk result (Wrote self.old.text.items (wrap (is_add (tree_of expr.now) || is_mul (tree_of expr.now) || is_pow (tree_of expr.now)) (put_tree (tree_of expr.now))) self.new.text.items) }
    {
        self.group(is_compound(expr), expr)
    }

    /// The items of a sum, each with its sign.
    #[tactic(auto, using(crate::proofs::Writing::item_of_out))]
    #[cycle(printed_expr)]
    fn items(&mut self, items: &[Item]) -> Result<(), Memory>
        ensures { OnOk result (Wrote self.old.text.items (put_items (mirror.items (map item_of items.now))) self.new.text.items) }
    {
        let Some((first, more)) = items.split_first() else {
            return Ok(());
        };
        self.minus(first.minus)?;
        self.item(&first.expr)?;
        for item in more {
            self.sign(item.minus)?;
            self.item(&item.expr)?;
        }
        Ok(())
    }

    /// The factors of a product.
    #[tactic(auto, using(flp_syntax::specs::View::view_equations))]
    #[cycle(printed_expr)]
    fn factors(&mut self, factors: &[Expr]) -> Result<(), Memory>
        ensures { OnOk result (Wrote self.old.text.items (put_factors (trees (map tree_of factors.now))) self.new.text.items) }
    {
        let Some((first, more)) = factors.split_first() else {
            return Ok(());
        };
        self.factor(first)?;
        for expr in more {
            self.mark(Mark::Star)?;
            self.factor(expr)?;
        }
        Ok(())
    }

    /// `args = arg { "," arg }`
    #[tactic(auto, using(flp_syntax::specs::View::view_equations))]
    #[cycle(printed_expr)]
    fn args(&mut self, args: &[Arg]) -> Result<(), Memory>
        ensures { OnOk result (Wrote self.old.text.items (put_args (arguments (map arg_of args.now))) self.new.text.items) }
    {
        let Some((first, more)) = args.split_first() else {
            return Ok(());
        };
        self.arg(first)?;
        for arg in more {
            self.mark(Mark::Comma)?;
            self.arg(arg)?;
        }
        Ok(())
    }

    /// `arg = expr | "each" NAME "in" idx ".." idx "(" args ")"`
    #[tactic(auto, using(flp_syntax::specs::View::view_equations))]
    #[cycle(printed_expr)]
    fn arg(&mut self, arg: &Arg) -> Result<(), Memory>
        ensures { OnOk result (Wrote self.old.text.items (put_arg (arg_of arg.now)) self.new.text.items) }
    {
        match arg {
            Arg::One(expr) => self.expr(expr),
            Arg::Each {
                name,
                from,
                to,
                inner,
                ..
            } => {
                self.mark(Mark::Each)?;
                self.range(name.as_slice(), from, to)?;
                self.args(inner.as_slice())?;
                self.mark(Mark::Close)
            }
        }
    }
}
