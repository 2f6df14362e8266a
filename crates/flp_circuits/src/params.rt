//! The parameters of the standard circuits: what is refused, and the lengths that they give.
ghost use Rattle.std.specs.Prelude.{◌≡◌, ◌<◌, ◌≤◌, ◌+◌, ◌*◌, ◌^◌, ◌↔◌, IsTrue, MatchResult};
ghost use Rattle.std.specs.Result.{result_err};
ghost use Rattle.flp_circuits.specs.Sizes.{input_len_of, meas_len_of, quotient_up, by_chunks, first_too_large, first_refusal, Fits};
ghost use Rattle.flp_syntax.specs.declared.syntax.Params.TheVariants.{Sum, SumVec, Histogram, Multihot};
ghost use Rattle.flp_circuits.specs.declared.fault.ParamFault.TheVariants.{Zero, TooLarge};

use crate::bits::bit_length;
use crate::fault::{Param, ParamFault};
use flp_syntax::Params;

const MAX_LIMIT: u64 = 9223372036854775807;

const LENGTH_LIMIT: u64 = 65536;

const BITS_LIMIT: u64 = 63;

const CHUNK_LIMIT: u64 = 512;

const MEAS_LIMIT: u64 = 65536;

const CALLS_LIMIT: u64 = 4095;

/// Refuses a parameter that is 0.
fn positive(which: Param, value: u64) -> Result<(), ParamFault>
    ensures { MatchResult result (λ _. 0 < value) (λ fault. (value ≡ 0) × (fault ≡ Zero which)) }
{
    if value == 0 {
        return Err(ParamFault::Zero(which));
    }
    Ok(())
}

/// Refuses a number above its limit.
fn at_most(which: Param, value: u64, limit: u64) -> Result<(), ParamFault>
    ensures { MatchResult result (λ _. value ≤ limit) (λ fault. (limit < value) × (fault ≡ TooLarge which value)) }
{
    if value > limit {
        return Err(ParamFault::TooLarge(which, value));
    }
    Ok(())
}

/// How many calls take so many words by chunks.
pub fn calls_of(words: u64, chunk: u64) -> u64
    requires chunk { 0 < chunk }
    requires room { words + chunk < 2 ^ 63 }
    ensures { result ≡ quotient_up words chunk }
{
    (words + (chunk - 1)) / chunk
}

/// Refuses too many words of an encoding, and too many calls of a gadget that takes them by chunks.
fn counts_fit(meas: u64, chunk: u64) -> Result<(), ParamFault>
    requires chunk { 0 < chunk }
    requires room { meas + chunk < 2 ^ 63 }
    ensures { result_err result ≡ first_too_large (by_chunks meas chunk) }
{
    at_most(Param::Meas, meas, MEAS_LIMIT)?;
    at_most(Param::Calls, calls_of(meas, chunk), CALLS_LIMIT)
}

fn sum_fits(max: u64) -> Result<(), ParamFault>
    ensures { result_err result ≡ first_refusal (Sum max) }
{
    positive(Param::Max, max)?;
    at_most(Param::Max, max, MAX_LIMIT)
}

fn sum_vec_fits(length: u64, bits: u64, chunk: u64) -> Result<(), ParamFault>
    ensures { result_err result ≡ first_refusal (SumVec length bits chunk) }
{
    positive(Param::Length, length)?;
    positive(Param::Bits, bits)?;
    positive(Param::Chunk, chunk)?;
    at_most(Param::Length, length, LENGTH_LIMIT)?;
    at_most(Param::Bits, bits, BITS_LIMIT)?;
    at_most(Param::Chunk, chunk, CHUNK_LIMIT)?;
    counts_fit(length * bits, chunk)
}

fn histogram_fits(length: u64, chunk: u64) -> Result<(), ParamFault>
    ensures { result_err result ≡ first_refusal (Histogram length chunk) }
{
    positive(Param::Length, length)?;
    positive(Param::Chunk, chunk)?;
    at_most(Param::Length, length, LENGTH_LIMIT)?;
    at_most(Param::Chunk, chunk, CHUNK_LIMIT)?;
    counts_fit(length, chunk)
}

fn multihot_fits(length: u64, weight: u64, chunk: u64) -> Result<(), ParamFault>
    ensures { result_err result ≡ first_refusal (Multihot length weight chunk) }
{
    positive(Param::Length, length)?;
    positive(Param::Weight, weight)?;
    positive(Param::Chunk, chunk)?;
    at_most(Param::Length, length, LENGTH_LIMIT)?;
    at_most(Param::Weight, weight, length)?;
    at_most(Param::Chunk, chunk, CHUNK_LIMIT)?;
    counts_fit(length + bit_length(weight) as u64, chunk)
}

/// Refuses parameters by their first fault.
pub fn judge(params: &Params) -> Result<(), ParamFault>
    ensures { result_err result ≡ first_refusal params.now }
{
    match *params {
        Params::Count => Ok(()),
        Params::Sum { max } => sum_fits(max),
        Params::SumVec {
            length,
            bits,
            chunk,
        } => sum_vec_fits(length, bits, chunk),
        Params::Histogram { length, chunk } => histogram_fits(length, chunk),
        Params::Multihot {
            length,
            weight,
            chunk,
        } => multihot_fits(length, weight, chunk),
    }
}

/// Whether [`crate::body_of`] refuses the parameters for no cause but want of memory.
pub fn fits(params: &Params) -> bool
    ensures { IsTrue result ↔ Fits params.now }
{
    judge(params).is_ok()
}

/// How many numbers a measurement has.
pub fn input_len(params: &Params) -> u64
    requires { Fits params.now }
    ensures { result ≡ input_len_of params.now }
{
    match *params {
        Params::Count | Params::Sum { .. } | Params::Histogram { .. } => 1,
        Params::SumVec { length, .. } | Params::Multihot { length, .. } => length,
    }
}

/// How many words an encoding has.
pub fn meas_len(params: &Params) -> u64
    requires { Fits params.now }
    ensures { result ≡ meas_len_of params.now }
{
    match *params {
        Params::Count => 1,
        Params::Sum { max } => 2 * bit_length(max) as u64,
        Params::SumVec { length, bits, .. } => length * bits,
        Params::Histogram { length, .. } => length,
        Params::Multihot { length, weight, .. } => length + bit_length(weight) as u64,
    }
}
