//! Which joint word catches words that are the encoding of no measurement.
ghost use Rattle.std.specs.Prelude.{◌≡◌, ◌+◌, ◌<◌, ◌≤◌, ◌%◌, ◌↔◌, ◌==◌, IsNone, length, position, sum, nat_lt};
ghost use Rattle.flp_field.specs.Word.{modulus, IsWord};
ghost use Rattle.flp_syntax.specs.declared.syntax.Params.TheVariants.{Multihot};
ghost use Rattle.flp_circuits.specs.Bits.{bit_length};
ghost use Rattle.flp_circuits.specs.Sizes.{meas_len_of, Fits};
ghost use Rattle.flp_joint.specs.Decoding.{IsEncoding};
ghost use Rattle.flp_joint.specs.Caught.{are_zero, fixed_checks, chunk_of, least_call, caught_in};

use crate::bits::headroom;
use crate::caught::Caught;
use crate::encoded::is_encoding;
use flp_field::Fe;
use flp_poly::eval;
use flp_syntax::Params;

/// The sum of the words, as a word.
fn total(x: &[Fe]) -> Fe
    ensures { result ≡ sum x.now % modulus }
{
    let mut total = Fe::ZERO;
    for word in x {
        total = total.add(*word);
    }
    total
}

/// The word of a number that is one.
fn word_of(n: u64) -> Fe
    requires { IsWord n }
    ensures { result ≡ n }
{
    Fe::new(n).unwrap_or(Fe::ZERO)
}

/// Whether the sum of so many words, with the headroom of `weight`, is the number that the other words make.
fn is_balanced(count: u64, weight: u64, chunk: u64, x: &[Fe]) -> bool
    requires fits { Fits (Multihot count weight chunk) }
    requires words { length x.now ≡ count + bit_length weight }
    ensures { result ≡ are_zero (fixed_checks (Multihot count weight chunk) x.now) }
{
    flp_circuits::laws::bit_lengths();
    let (numbers, bits) = x.split_at(count as usize);
    let raised = total(numbers).add(word_of(headroom(weight, bits.len())));
    raised == eval(bits, Fe::ONE.add(Fe::ONE))
}

/// Whether each check passes that no joint word enters.
fn passes_fixed(params: &Params, x: &[Fe]) -> bool
    requires fits { Fits params.now }
    requires words { length x.now ≡ meas_len_of params.now }
    ensures { result ≡ are_zero (fixed_checks params.now x.now) }
{
    flp_circuits::laws::bit_lengths();
    flp_field::laws::words(x);
    match *params {
        Params::Count => is_encoding(params, x),
        Params::Sum { .. } => is_encoding(params, x),
        Params::SumVec { .. } => true,
        Params::Histogram { .. } => total(x) == Fe::ONE,
        Params::Multihot {
            length,
            weight,
            chunk,
        } => is_balanced(length, weight, chunk, x),
    }
}

/// How many words a call of the range check takes, where there is one.
fn chunk_of(params: &Params) -> Option<u64>
    ensures { result ≡ chunk_of params.now }
{
    match *params {
        Params::Count | Params::Sum { .. } => None,
        Params::SumVec { chunk, .. } => Some(chunk),
        Params::Histogram { chunk, .. } => Some(chunk),
        Params::Multihot { chunk, .. } => Some(chunk),
    }
}

/// The place of the first word other than 0 and 1.
fn first_other(x: &[Fe]) -> Option<usize>
    ensures { result ≡ position (λ w. nat_lt 1 w) x.now }
{
    x.iter().position(|word| word.value() > 1)
}

/// The least call with a word other than 0 and 1 in its chunk.
fn least_call(chunk: u64, x: &[Fe]) -> Option<Caught>
    requires some { 0 < chunk }
    requires short { chunk ≤ 512 }
    requires few { length x.now ≤ 65536 }
    ensures { result ≡ least_call chunk x.now }
{
    let place = first_other(x)? as u64;
    Some(Caught::Word {
        word: (place / chunk) as u32,
        bound: chunk as u32,
    })
}

/// What joint words tell: never where a check fails that they do not enter, else the least call with a word other than 0
/// and 1.
fn judge(params: &Params, x: &[Fe]) -> Option<Caught>
    requires fits { Fits params.now }
    requires words { length x.now ≡ meas_len_of params.now }
    ensures { result ≡ caught_in params.now x.now }
{
    if !passes_fixed(params, x) {
        return Some(Caught::Never);
    }
    least_call(chunk_of(params)?, x)
}

/// What joint words tell of words: None exactly where they are the encoding of a measurement that is not refused.
///
/// `x` has [`flp_circuits::meas_len`] words. No memory is taken.
pub fn joint_word(params: &Params, x: &[Fe]) -> Option<Caught>
    requires fits { Fits params.now }
    requires words { length x.now ≡ meas_len_of params.now }
    ensures caught { result ≡ caught_in params.now x.now }
    ensures encoding { IsNone result ↔ IsEncoding params.now x.now }
{
    flp_circuits::laws::bit_lengths();
    flp_field::laws::words(x);
    judge(params, x)
}
