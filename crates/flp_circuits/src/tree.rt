//! Parts of syntax trees, each with the number of its first token.
//!
//! A part that stands behind others takes its own number from the caller; what is written inside a part is numbered from
//! the part's first token on, as `print` writes it.
#![tactic(auto, using(flp_syntax::specs::View::view_equations))]

ghost use Rattle.std.specs.Prelude.{◌≡◌, ◌<◌, ◌+◌, ◌^◌, ◌∷◌, List, [], true, false, IfOk};
ghost use Rattle.flp_syntax.specs.Tree.{index_number, index_var, number, meas, meas_or_zero, joint, pow, mul, add, call, one, arguments, trees, items};
ghost use Rattle.flp_syntax.specs.View.{index_of, tree_of, item_of, arg_of, statement_of};
ghost use Rattle.flp_circuits.specs.Standard.{num, idx, index_sum_of, index_product_of, shifted, in_row, sum_below, bits_sum, words_sum, word_of_chunk, each_out};

use flp_field::Fe;
use flp_list::{Bytes, List};
use flp_syntax::{Expr, Idx, IdxItem, Item, Stmt};
use std::alloc::{AllocError, Global};

/// The list of one element.
pub fn one<T: Drop>(alloc: Global, first: T) -> Result<List<T>, AllocError>
    ensures { IfOk result (λ list. list ≡ first ∷ []) }
{
    let mut items = Vec::new(alloc);
    items.push(first)?;
    Ok(List::from_vec(items))
}

/// The list of two elements.
pub fn two<T: Drop>(alloc: Global, first: T, second: T) -> Result<List<T>, AllocError>
    ensures { IfOk result (λ list. list ≡ first ∷ second ∷ []) }
{
    let mut items = Vec::new(alloc);
    items.push(first)?;
    items.push(second)?;
    Ok(List::from_vec(items))
}

/// The list of three elements.
pub fn three<T: Drop>(alloc: Global, first: T, second: T, third: T) -> Result<List<T>, AllocError>
    ensures { IfOk result (λ list. list ≡ first ∷ second ∷ third ∷ []) }
{
    let mut items = Vec::new(alloc);
    items.push(first)?;
    items.push(second)?;
    items.push(third)?;
    Ok(List::from_vec(items))
}

/// The name of one letter.
pub fn name(alloc: Global, letter: u8) -> Result<Bytes, AllocError>
    ensures { IfOk result (λ name. name ≡ letter ∷ []) }
{
    one(alloc, letter)
}

/// `value`, as an index
pub fn index(at: u32, value: u64) -> Idx
    ensures { index_of result ≡ index_number at value }
{
    Idx::Number { at, value }
}

/// `letter`, as an index
pub fn index_name(alloc: Global, at: u32, letter: u8) -> Result<Idx, AllocError>
    ensures { IfOk result (λ v. index_of v ≡ index_var at (letter ∷ [])) }
{
    let name = name(alloc, letter)?;
    Ok(Idx::Var { at, name })
}

/// `first + second`
pub fn index_sum(alloc: Global, at: u32, first: Idx, second: Idx) -> Result<Idx, AllocError>
    ensures { IfOk result (λ v. index_of v ≡ index_sum_of at (index_of first) (index_of second)) }
{
    let first = IdxItem {
        minus: false,
        idx: first,
    };
    let second = IdxItem {
        minus: false,
        idx: second,
    };
    let items = two(alloc, first, second)?;
    Ok(Idx::Add { at, items })
}

/// `first * second`
pub fn index_product(alloc: Global, at: u32, first: Idx, second: Idx) -> Result<Idx, AllocError>
    ensures { IfOk result (λ v. index_of v ≡ index_product_of at (index_of first) (index_of second)) }
{
    let factors = two(alloc, first, second)?;
    Ok(Idx::Mul { at, factors })
}

/// `value + letter`
pub fn shifted(alloc: Global, at: u32, value: u64, letter: u8) -> Result<Idx, AllocError>
    requires { at < 1000 }
    ensures { IfOk result (λ v. index_of v ≡ shifted at value (letter ∷ [])) }
{
    let second = index_name(alloc, at + 2, letter)?;
    index_sum(alloc, at, index(at, value), second)
}

/// `row * width + letter`
pub fn in_row(alloc: Global, at: u32, row: u8, width: u64, letter: u8) -> Result<Idx, AllocError>
    requires { at < 1000 }
    ensures { IfOk result (λ v. index_of v ≡ in_row at (row ∷ []) width (letter ∷ [])) }
{
    let row = index_name(alloc, at, row)?;
    let start = index_product(alloc, at, row, index(at + 2, width))?;
    let second = index_name(alloc, at + 4, letter)?;
    index_sum(alloc, at, start, second)
}

/// The word of a number.
fn word(value: u64) -> Fe
    requires { value < 2 ^ 63 }
    ensures { result ≡ value }
{
    Fe::new(value).unwrap()
}

/// `value`
pub fn number(at: u32, value: u64) -> Expr
    requires { value < 2 ^ 63 }
    ensures { tree_of result ≡ number at value }
{
    Expr::Number {
        at,
        value: word(value),
    }
}

/// `meas[index]`
pub fn meas(at: u32, index: Idx) -> Expr
    ensures { tree_of result ≡ meas at (index_of index) }
{
    Expr::Meas { at, index }
}

/// An item that is added.
pub fn plus(expr: Expr) -> Item
    ensures { item_of result ≡ (false, tree_of expr) }
{
    Item { minus: false, expr }
}

/// An item that is subtracted.
pub fn minus(expr: Expr) -> Item
    ensures { item_of result ≡ (true, tree_of expr) }
{
    Item { minus: true, expr }
}

/// `first * second`
pub fn product(alloc: Global, at: u32, first: Expr, second: Expr) -> Result<Expr, AllocError>
    ensures { IfOk result (λ v. tree_of v ≡ mul at (trees (tree_of first ∷ tree_of second ∷ []))) }
{
    let factors = two(alloc, first, second)?;
    Ok(Expr::Mul { at, factors })
}

/// `base ^ exponent`
pub fn power(alloc: Global, at: u32, base: Expr, exponent: Idx) -> Result<Expr, AllocError>
    ensures { IfOk result (λ v. tree_of v ≡ pow at (tree_of base) (index_of exponent)) }
{
    let base = Box::new(alloc, base)?;
    Ok(Expr::Pow { at, base, exponent })
}

/// `sum letter in 0..to ( inner )`
pub fn sum_below(
    alloc: Global,
    at: u32,
    letter: u8,
    to: u64,
    inner: Expr,
) -> Result<Expr, AllocError>
    requires { at < 1000 }
    ensures { IfOk result (λ v. tree_of v ≡ sum_below at (letter ∷ []) to (tree_of inner)) }
{
    let name = name(alloc, letter)?;
    let inner = Box::new(alloc, inner)?;
    Ok(Expr::Sum {
        at,
        name,
        from: index(at + 3, 0),
        to: index(at + 5, to),
        inner,
    })
}

/// `sum letter in 0..bits ( 2^letter * meas[place] )`
pub fn bits_sum(
    alloc: Global,
    at: u32,
    letter: u8,
    bits: u64,
    place: Idx,
) -> Result<Expr, AllocError>
    requires { at < 1000 }
    ensures { IfOk result (λ v. tree_of v ≡ bits_sum at (letter ∷ []) bits (index_of place)) }
{
    let exponent = index_name(alloc, at + 9, letter)?;
    let two = number(at + 7, 2);
    let weight = power(alloc, at + 7, two, exponent)?;
    let inner = product(alloc, at + 7, weight, meas(at + 11, place))?;
    sum_below(alloc, at, letter, bits, inner)
}

/// `sum letter in 0..count ( meas[letter] )`
pub fn words_sum(alloc: Global, at: u32, letter: u8, count: u64) -> Result<Expr, AllocError>
    requires { at < 1000 }
    ensures { IfOk result (λ v. tree_of v ≡ words_sum at (letter ∷ []) count) }
{
    let place = index_name(alloc, at + 9, letter)?;
    sum_below(alloc, at, letter, count, meas(at + 7, place))
}

/// `each letter in 0..to ( out inner; )`
pub fn each_out(
    alloc: Global,
    at: u32,
    letter: u8,
    to: u64,
    inner: Expr,
) -> Result<Stmt, AllocError>
    requires { at < 1000 }
    ensures { IfOk result (λ v. statement_of v ≡ each_out at (letter ∷ []) to (tree_of inner)) }
{
    let name = name(alloc, letter)?;
    let out = Stmt::Out {
        at: at + 7,
        expr: inner,
    };
    let inner = one(alloc, out)?;
    Ok(Stmt::Each {
        at,
        name,
        from: index(at + 3, 0),
        to: index(at + 5, to),
        inner,
    })
}
