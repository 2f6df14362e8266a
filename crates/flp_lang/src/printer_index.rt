//! Writing indices.
ghost use Rattle.std.specs.Prelude.{◌≡◌, List, OnOk, map, ◌∷◌, ◌||◌};
ghost use Rattle.flp_syntax.specs.declared.token.Token.TheVariants as tokens;
ghost use Rattle.flp_syntax.specs.declared.token.Mark.TheVariants as marks;
ghost use Rattle.flp_syntax.specs.Tree.{index_items, indices};
ghost use Rattle.flp_syntax.specs.View.{index_of, index_item_of};
ghost use Rattle.flp_lang.specs.Print.{wrap, is_index_add, is_index_mul, put_index, put_index_items, put_index_factors, put_exponent, put_range, put_minus, put_sign};
ghost use Rattle.flp_lang.specs.Written.{Wrote};

use crate::Memory;
use crate::printer::Printer;
use flp_syntax::{Idx, IdxItem, Mark};

/// Whether it is a sum.
#[tactic(auto, using(flp_syntax::specs::View::view_equations))]
fn is_sum(idx: &Idx) -> bool
    ensures { result ≡ is_index_add (index_of idx.now) }
{
    match idx {
        Idx::Add { .. } => true,
        Idx::Number { .. } | Idx::Var { .. } | Idx::Mul { .. } => false,
    }
}

/// Whether it is a sum or a product.
#[tactic(auto, using(flp_syntax::specs::View::view_equations))]
fn is_sum_or_product(idx: &Idx) -> bool
    ensures { result ≡ (is_index_add (index_of idx.now) || is_index_mul (index_of idx.now)) }
{
    match idx {
        Idx::Add { .. } | Idx::Mul { .. } => true,
        Idx::Number { .. } | Idx::Var { .. } => false,
    }
}

impl Printer {
    /// A minus, where the first item of a sum has one.
    pub fn minus(&mut self, minus: bool) -> Result<(), Memory>
        ensures { OnOk result (Wrote self.old.text.items (put_minus minus) self.new.text.items) }
    {
        if minus {
            self.mark(Mark::Minus)
        } else {
            Ok(())
        }
    }

    /// The sign before a further item of a sum.
    pub fn sign(&mut self, minus: bool) -> Result<(), Memory>
        ensures { OnOk result (Wrote self.old.text.items (put_sign minus) self.new.text.items) }
    {
        if minus {
            self.mark(Mark::Minus)
        } else {
            self.mark(Mark::Plus)
        }
    }

    /// An index.
    #[tactic(auto, using(flp_syntax::specs::View::view_equations))]
    #[cycle(printed_index)]
    pub fn index(&mut self, idx: &Idx) -> Result<(), Memory>
        ensures { OnOk result (Wrote self.old.text.items (put_index (index_of idx.now)) self.new.text.items) }
    {
        match idx {
            Idx::Number { value, .. } => self.number(*value),
            Idx::Var { name, .. } => self.name(name.as_slice()),
            Idx::Add { items, .. } => self.index_items(items.as_slice()),
            Idx::Mul { factors, .. } => self.index_factors(factors.as_slice()),
        }
    }

    /// An index, in parentheses or not.
    #[cycle(printed_index)]
    fn index_group(&mut self, wrapped: bool, idx: &Idx) -> Result<(), Memory>
        ensures { OnOk result (Wrote self.old.text.items (wrap wrapped (put_index (index_of idx.now))) self.new.text.items) }
    {
        if !wrapped {
            return self.index(idx);
        }
        self.mark(Mark::Open)?;
        self.index(idx)?;
        self.mark(Mark::Close)
    }

    /// An item of a sum behind its sign: a sum stands in parentheses.
    #[cycle(printed_index)]
    fn index_item(&mut self, idx: &Idx) -> Result<(), Memory>
        ensures { OnOk result (Wrote self.old.text.items (wrap (is_index_add (index_of idx.now)) (put_index (index_of idx.now))) self.new.text.items) }
    {
        self.index_group(is_sum(idx), idx)
    }

    /// A factor, and an exponent: a sum and a product stand in parentheses.
    #[cycle(printed_index)]
    pub fn index_factor(&mut self, idx: &Idx) -> Result<(), Memory>
        ensures { OnOk result (Wrote self.old.text.items (put_exponent (index_of idx.now)) self.new.text.items) }
    {
        self.index_group(is_sum_or_product(idx), idx)
    }

    /// The items of a sum, each with its sign.
    #[tactic(auto, using(crate::proofs::Writing::index_item_of_out))]
    #[cycle(printed_index)]
    fn index_items(&mut self, items: &[IdxItem]) -> Result<(), Memory>
        ensures { OnOk result (Wrote self.old.text.items (put_index_items (index_items (map index_item_of items.now))) self.new.text.items) }
    {
        let Some((first, more)) = items.split_first() else {
            return Ok(());
        };
        self.minus(first.minus)?;
        self.index_item(&first.idx)?;
        for item in more {
            self.sign(item.minus)?;
            self.index_item(&item.idx)?;
        }
        Ok(())
    }

    /// The factors of a product.
    #[tactic(auto, using(flp_syntax::specs::View::view_equations))]
    #[cycle(printed_index)]
    fn index_factors(&mut self, factors: &[Idx]) -> Result<(), Memory>
        ensures { OnOk result (Wrote self.old.text.items (put_index_factors (indices (map index_of factors.now))) self.new.text.items) }
    {
        let Some((first, more)) = factors.split_first() else {
            return Ok(());
        };
        self.index_factor(first)?;
        for factor in more {
            self.mark(Mark::Star)?;
            self.index_factor(factor)?;
        }
        Ok(())
    }

    /// An index in brackets.
    pub fn bracketed(&mut self, idx: &Idx) -> Result<(), Memory>
        ensures { OnOk result (Wrote self.old.text.items (λ s. tokens.Fixed marks.OpenBracket ∷ put_index (index_of idx.now) (tokens.Fixed marks.CloseBracket ∷ s)) self.new.text.items) }
    {
        self.mark(Mark::OpenBracket)?;
        self.index(idx)?;
        self.mark(Mark::CloseBracket)
    }

    /// `NAME "in" from ".." to "("`
    pub fn range(&mut self, name: &[u8], from: &Idx, to: &Idx) -> Result<(), Memory>
        ensures { OnOk result (Wrote self.old.text.items (put_range name.now (index_of from.now) (index_of to.now)) self.new.text.items) }
    {
        self.name(name)?;
        self.mark(Mark::In)?;
        self.index(from)?;
        self.mark(Mark::DotDot)?;
        self.index(to)?;
        self.mark(Mark::Open)
    }
}
