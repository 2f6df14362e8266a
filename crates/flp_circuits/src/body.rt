//! The standard circuits as syntax trees.
//!
//! The tokens of a circuit are numbered as `print` writes it; the texts are in `specs/Standard.antt`.
#![tactic(auto, using(flp_syntax::specs::View::view_equations))]

ghost use Rattle.std.specs.Prelude.{◌≡◌, ◌<◌, ◌+◌, ◌*◌, ◌^◌, ◌∷◌, ◌++◌, List, [], map, true, false, IfOk, MatchResult};
ghost use Rattle.flp_syntax.specs.Tree.{statements, arguments, mul_kind, poly_kind, psum_kind, one, number, index_var, add, items, call, check, out, each, meas, Statement};
ghost use Rattle.flp_syntax.specs.View.{index_of, tree_of, item_of, arg_of, statement_of, kind_of, declaration_of, program_of};
ghost use Rattle.flp_syntax.specs.WellFormed.{ProgramIsWell};
ghost use Rattle.flp_circuits.specs.Bits.{bit_length, headroom};
ghost use Rattle.flp_circuits.specs.Sizes.{meas_len_of, quotient_up, Fits, IsParamFault};
ghost use Rattle.flp_circuits.specs.Standard.{name_i, name_j, name_c, name_g, idx, word_of_chunk, joint_power, chunk_args, chunk_call, range_check, each_number_out, one_check, weight_check, each_word_out, gadget_g, bit_coefs, count_program, sum_program, chunked_program, sum_vec_statements, histogram_statements, multihot_statements, standard_program};

use crate::bits::{bit_length, headroom};
use crate::fault::ParamFault;
use crate::params::{calls_of, judge};
use crate::tree::{
    bits_sum, each_out, in_row, index, index_name, index_sum, meas, minus, name, number, one, plus,
    power, product, shifted, sum_below, three, two, words_sum,
};
use flp_field::Fe;
use flp_list::List;
use flp_syntax::{Arg, Body, Coef, Decl, Expr, KindText, Params, Stmt};
use std::alloc::{AllocError, Global};

/// The one gadget of each standard circuit.
const GADGET: u8 = b'g';

/// `gadget g = kind;` behind the lengths
fn gadget(alloc: Global, kind: KindText) -> Result<List<Decl>, AllocError>
    ensures { IfOk result (λ list. map declaration_of list ≡ gadget_g (kind_of kind)) }
{
    let name = name(alloc, GADGET)?;
    one(alloc, Decl { at: 6, name, kind })
}

/// `poly 0 -1 1`
fn bit_kind(alloc: Global) -> Result<KindText, AllocError>
    ensures { IfOk result (λ v. kind_of v ≡ poly_kind bit_coefs) }
{
    let constant = Coef {
        minus: false,
        size: Fe::ZERO,
    };
    let linear = Coef {
        minus: true,
        size: Fe::ONE,
    };
    let square = Coef {
        minus: false,
        size: Fe::ONE,
    };
    let coefs = three(alloc, constant, linear, square)?;
    Ok(KindText::Poly(coefs))
}

/// `psum chunk mul`
fn chunk_kind(alloc: Global, chunk: u64) -> Result<KindText, AllocError>
    ensures { IfOk result (λ v. kind_of v ≡ psum_kind chunk mul_kind) }
{
    let inner = Box::new(alloc, KindText::Mul)?;
    Ok(KindText::Psum(chunk, inner))
}

/// `first + second - third`
fn balance(
    alloc: Global,
    at: u32,
    first: Expr,
    second: Expr,
    third: Expr,
) -> Result<Expr, AllocError>
    ensures { IfOk result (λ v. tree_of v ≡ add at (items ((false, tree_of first) ∷ (false, tree_of second) ∷ (true, tree_of third) ∷ []))) }
{
    let items = three(alloc, plus(first), plus(second), minus(third))?;
    Ok(Expr::Add { at, items })
}

/// `first - second`
fn difference(alloc: Global, at: u32, first: Expr, second: Expr) -> Result<Expr, AllocError>
    ensures { IfOk result (λ v. tree_of v ≡ add at (items ((false, tree_of first) ∷ (true, tree_of second) ∷ []))) }
{
    let items = two(alloc, plus(first), minus(second))?;
    Ok(Expr::Add { at, items })
}

/// `each i in 0..count ( out meas[i]; )`
fn each_word_out(alloc: Global, at: u32, count: u64) -> Result<Stmt, AllocError>
    requires { at < 500 }
    ensures { IfOk result (λ v. statement_of v ≡ each_word_out at count) }
{
    let place = index_name(alloc, at + 10, b'i')?;
    each_out(alloc, at, b'i', count, meas(at + 8, place))
}

/// `meas?[c * chunk + j]`
fn word_of_chunk(alloc: Global, at: u32, chunk: u64) -> Result<Expr, AllocError>
    requires { at < 500 }
    ensures { IfOk result (λ v. tree_of v ≡ word_of_chunk at chunk) }
{
    let index = in_row(alloc, at + 3, b'c', chunk, b'j')?;
    Ok(Expr::MeasOrZero { at, index })
}

/// `joint[c]^(j + 1)`
fn joint_power(alloc: Global, at: u32) -> Result<Expr, AllocError>
    requires { at < 500 }
    ensures { IfOk result (λ v. tree_of v ≡ joint_power at) }
{
    let call = index_name(alloc, at + 2, b'c')?;
    let place = index_name(alloc, at + 6, b'j')?;
    let exponent = index_sum(alloc, at + 6, place, index(at + 8, 1))?;
    power(alloc, at, Expr::Joint { at, index: call }, exponent)
}

/// `joint[c]^(j + 1) * meas?[c * chunk + j], meas?[c * chunk + j] - 1`
fn chunk_args(alloc: Global, at: u32, chunk: u64) -> Result<List<Arg>, AllocError>
    requires { at < 400 }
    ensures { IfOk result (λ list. map arg_of list ≡ chunk_args at chunk) }
{
    let power = joint_power(alloc, at)?;
    let word = word_of_chunk(alloc, at + 11, chunk)?;
    let weighted = product(alloc, at, power, word)?;
    let again = word_of_chunk(alloc, at + 21, chunk)?;
    let less_one = difference(alloc, at + 21, again, number(at + 31, 1))?;
    two(alloc, Arg::One(weighted), Arg::One(less_one))
}

/// `g( each j in 0..chunk ( .. ) )`
fn chunk_call(alloc: Global, at: u32, chunk: u64) -> Result<Expr, AllocError>
    requires { at < 300 }
    ensures { IfOk result (λ v. tree_of v ≡ chunk_call at chunk) }
{
    let inner = chunk_args(alloc, at + 9, chunk)?;
    let each = Arg::Each {
        at: at + 2,
        name: name(alloc, b'j')?,
        from: index(at + 5, 0),
        to: index(at + 7, chunk),
        inner,
    };
    let args = one(alloc, each)?;
    let name = name(alloc, GADGET)?;
    Ok(Expr::Call { at, name, args })
}

/// `check sum c in 0..calls ( .. );`, the range check, which is the first statement
fn range_check(alloc: Global, calls: u64, chunk: u64) -> Result<Stmt, AllocError>
    ensures { IfOk result (λ v. statement_of v ≡ check 13 (range_check 14 calls chunk)) }
{
    let call = chunk_call(alloc, 21, chunk)?;
    let expr = sum_below(alloc, 14, b'c', calls, call)?;
    Ok(Stmt::Check { at: 13, expr })
}

fn count(alloc: Global) -> Result<Body, AllocError>
    ensures { IfOk result (λ body. program_of body ≡ count_program) }
{
    let args = two(
        alloc,
        Arg::One(meas(14, index(16, 0))),
        Arg::One(meas(19, index(21, 0))),
    )?;
    let name = name(alloc, GADGET)?;
    let square = Expr::Call { at: 12, name, args };
    let expr = difference(alloc, 12, square, meas(25, index(27, 0)))?;
    let check = Stmt::Check { at: 11, expr };
    let out = Stmt::Out {
        at: 30,
        expr: meas(31, index(33, 0)),
    };
    Ok(Body {
        meas: 1,
        joint: 0,
        gadgets: gadget(alloc, KindText::Mul)?,
        stmts: two(alloc, check, out)?,
    })
}

/// `each i in 0..words ( check g(meas[i]); )`
fn each_bit(alloc: Global, words: u64) -> Result<Stmt, AllocError>
    ensures { IfOk result (λ v. statement_of v ≡ each 15 name_i (idx 18 0) (idx 20 words) (statements (check 22 (call 23 name_g (arguments (one (meas 25 (index_var 27 name_i)) ∷ []))) ∷ []))) }
{
    let place = index_name(alloc, 27, b'i')?;
    let args = one(alloc, Arg::One(meas(25, place)))?;
    let gadget = name(alloc, GADGET)?;
    let expr = Expr::Call {
        at: 23,
        name: gadget,
        args,
    };
    let inner = one(alloc, Stmt::Check { at: 22, expr })?;
    let name = name(alloc, b'i')?;
    Ok(Stmt::Each {
        at: 15,
        name,
        from: index(18, 0),
        to: index(20, words),
        inner,
    })
}

fn sum(alloc: Global, max: u64) -> Result<Body, AllocError>
    requires { max < 2 ^ 63 }
    ensures { IfOk result (λ body. program_of body ≡ sum_program (bit_length max) (headroom max)) }
{
    let bits = bit_length(max) as u64;
    let bounds = each_bit(alloc, 2 * bits)?;
    let low = index_name(alloc, 48, b'i')?;
    let plain = bits_sum(alloc, 35, b'i', bits, low)?;
    let high = shifted(alloc, 65, bits, b'i')?;
    let raised = bits_sum(alloc, 52, b'i', bits, high)?;
    let expr = balance(alloc, 33, number(33, headroom(max)), plain, raised)?;
    let check = Stmt::Check { at: 32, expr };
    let place = index_name(alloc, 85, b'i')?;
    let expr = bits_sum(alloc, 72, b'i', bits, place)?;
    let out = Stmt::Out { at: 71, expr };
    let kind = bit_kind(alloc)?;
    Ok(Body {
        meas: 2 * bits,
        joint: 0,
        gadgets: gadget(alloc, kind)?,
        stmts: three(alloc, bounds, check, out)?,
    })
}

/// `meas words; joint calls; gadget g = psum chunk mul;` and these statements
fn chunked(alloc: Global, words: u64, chunk: u64, stmts: Vec<Stmt>) -> Result<Body, AllocError>
    requires chunk { 0 < chunk }
    requires room { words + chunk < 2 ^ 63 }
    ensures { IfOk result (λ body. program_of body ≡ record { meas = words; joint = quotient_up words chunk; gadgets = gadget_g (psum_kind chunk mul_kind); stmts = statements (map statement_of stmts.items) }) }
{
    let kind = chunk_kind(alloc, chunk)?;
    Ok(Body {
        meas: words,
        joint: calls_of(words, chunk),
        gadgets: gadget(alloc, kind)?,
        stmts: List::from_vec(stmts),
    })
}

/// `each i in 0..length ( out sum j in 0..bits ( 2^j * meas[i * bits + j] ); )`
fn each_number_out(alloc: Global, length: u64, bits: u64) -> Result<Stmt, AllocError>
    ensures { IfOk result (λ v. statement_of v ≡ each_number_out length bits) }
{
    let place = in_row(alloc, 87, b'i', bits, b'j')?;
    let number = bits_sum(alloc, 74, b'j', bits, place)?;
    each_out(alloc, 66, b'i', length, number)
}

fn sum_vec(alloc: Global, length: u64, bits: u64, chunk: u64) -> Result<Body, AllocError>
    requires chunk { 0 < chunk }
    requires room { length * bits + chunk < 2 ^ 63 }
    ensures { IfOk result (λ body. program_of body ≡ chunked_program (length * bits) chunk (sum_vec_statements length bits)) }
{
    let words = length * bits;
    let mut stmts = Vec::new(alloc);
    stmts.push(range_check(alloc, calls_of(words, chunk), chunk)?)?;
    stmts.push(each_number_out(alloc, length, bits)?)?;
    chunked(alloc, words, chunk, stmts)
}

/// `check sum i in 0..length ( meas[i] ) - 1;`
fn one_check(alloc: Global, length: u64) -> Result<Stmt, AllocError>
    ensures { IfOk result (λ v. statement_of v ≡ one_check length) }
{
    let total = words_sum(alloc, 67, b'i', length)?;
    let expr = difference(alloc, 67, total, number(80, 1))?;
    Ok(Stmt::Check { at: 66, expr })
}

fn histogram(alloc: Global, length: u64, chunk: u64) -> Result<Body, AllocError>
    requires chunk { 0 < chunk }
    requires room { length + chunk < 2 ^ 63 }
    ensures { IfOk result (λ body. program_of body ≡ chunked_program length chunk (histogram_statements length)) }
{
    let mut stmts = Vec::new(alloc);
    stmts.push(range_check(alloc, calls_of(length, chunk), chunk)?)?;
    stmts.push(one_check(alloc, length)?)?;
    stmts.push(each_word_out(alloc, 82, length)?)?;
    chunked(alloc, length, chunk, stmts)
}

/// `check f + sum i in 0..length ( meas[i] ) - sum i in 0..bits ( 2^i * meas[length + i] );`
fn weight_check(alloc: Global, length: u64, weight: u64) -> Result<Stmt, AllocError>
    requires { weight < 2 ^ 63 }
    ensures { IfOk result (λ v. statement_of v ≡ weight_check length (bit_length weight) (headroom weight)) }
{
    let bits = bit_length(weight) as u64;
    let total = words_sum(alloc, 69, b'i', length)?;
    let place = shifted(alloc, 95, length, b'i')?;
    let raised = bits_sum(alloc, 82, b'i', bits, place)?;
    let expr = balance(alloc, 67, number(67, headroom(weight)), total, raised)?;
    Ok(Stmt::Check { at: 66, expr })
}

fn multihot(alloc: Global, length: u64, weight: u64, chunk: u64) -> Result<Body, AllocError>
    requires chunk { 0 < chunk }
    requires weight { weight < 2 ^ 63 }
    requires room { length + 64 + chunk < 2 ^ 63 }
    ensures { IfOk result (λ body. program_of body ≡ chunked_program (length + bit_length weight) chunk (multihot_statements length (bit_length weight) (headroom weight))) }
{
    let words = length + bit_length(weight) as u64;
    let mut stmts = Vec::new(alloc);
    stmts.push(range_check(alloc, calls_of(words, chunk), chunk)?)?;
    stmts.push(weight_check(alloc, length, weight)?)?;
    stmts.push(each_word_out(alloc, 101, length)?)?;
    chunked(alloc, words, chunk, stmts)
}

fn build(alloc: Global, params: &Params) -> Result<Body, AllocError>
    requires { Fits params.now }
    ensures { IfOk result (λ body. program_of body ≡ standard_program params.now) }
{
    match *params {
        Params::Count => count(alloc),
        Params::Sum { max } => sum(alloc, max),
        Params::SumVec {
            length,
            bits,
            chunk,
        } => sum_vec(alloc, length, bits, chunk),
        Params::Histogram { length, chunk } => histogram(alloc, length, chunk),
        Params::Multihot {
            length,
            weight,
            chunk,
        } => multihot(alloc, length, weight, chunk),
    }
}

/// The circuit of the parameters, or the first cause for which they are refused.
///
/// Where parameters are not refused, only memory can be wanting.
pub fn body_of(alloc: Global, params: &Params) -> Result<Body, ParamFault>
    ensures fits { MatchResult result (λ body. Fits params.now) (λ fault. IsParamFault params.now fault) }
    ensures circuit { IfOk result (λ body. program_of body ≡ standard_program params.now) }
    ensures well { IfOk result (λ body. ProgramIsWell (program_of body)) }
{
    judge(params)?;
    Ok(build(alloc, params)?)
}
