//! The encodings of measurements.
ghost use Rattle.std.specs.Prelude.{◌≡◌, ◌+◌, ◌*◌, ◌^◌, ◌<◌, ◌≤◌, ◌++◌, ◌∷◌, ◌==◌, List, [], None, length, sum, count_by, OnOk, OnErr, All};
ghost use Rattle.std.specs.List.{flat_map};
ghost use Rattle.std.specs.Result.{result_err};
ghost use Rattle.flp_circuits.specs.Bits.{bit_length, headroom, bits_of};
ghost use Rattle.flp_circuits.specs.Sizes.{input_len_of, meas_len_of, Fits};
ghost use Rattle.flp_circuits.specs.Encoding.{encoding_of, one_at, range_of, range_fault, weight_of, weight_fault, meas_fault};

use crate::bits::{bit_length, headroom, write_bits};
use crate::fault::MeasFault;
use crate::params::input_len;
use flp_field::Fe;
use flp_syntax::Params;

/// Each number of a measurement is below this.
fn range(params: &Params) -> u64
    requires { Fits params.now }
    ensures { result ≡ range_of params.now }
{
    match *params {
        Params::Count | Params::Multihot { .. } => 2,
        Params::Sum { max } => max + 1,
        Params::SumVec { bits, .. } => 1 << bits,
        Params::Histogram { length, .. } => length,
    }
}

/// Refuses the first number out of range.
fn in_range(range: u64, input: &[u64]) -> Result<(), MeasFault>
    requires { length input.now ≤ 65536 }
    ensures { result_err result ≡ range_fault range 0 input.now }
{
    for (place, n) in input.iter().enumerate() {
        if *n >= range {
            return Err(MeasFault::Range(place as u32, *n));
        }
    }
    Ok(())
}

/// How many numbers are 1.
fn weight(input: &[u64]) -> u64
    ensures { result ≡ weight_of input.now }
{
    input.iter().filter(|n| **n == 1).count() as u64
}

/// Refuses more ones than the weight.
fn within_weight(params: &Params, input: &[u64]) -> Result<(), MeasFault>
    ensures { result_err result ≡ weight_fault params.now input.now }
{
    if let Params::Multihot { weight: limit, .. } = *params {
        let ones = weight(input);
        if ones > limit {
            return Err(MeasFault::Weight(ones));
        }
    }
    Ok(())
}

/// Refuses a measurement by its first fault.
fn judge(params: &Params, input: &[u64]) -> Result<(), MeasFault>
    requires { Fits params.now }
    ensures { result_err result ≡ meas_fault params.now input.now }
{
    let count = input.len() as u64;
    if count != input_len(params) {
        return Err(MeasFault::Count(count));
    }
    in_range(range(params), input)?;
    within_weight(params, input)
}

/// The word that is 0 or 1 as the number is.
fn bit_word(n: u64) -> Fe
    requires { n < 2 }
    ensures { result ≡ n }
{
    if n == 1 { Fe::ONE } else { Fe::ZERO }
}

/// Writes the number, which is 0 or 1, as a word.
fn write_number(n: u64, out: &mut [Fe])
    requires one { length out.old ≡ 1 }
    requires bit { n < 2 }
    ensures { out.new ≡ n ∷ [] }
{
    out[0] = bit_word(n);
}

/// Writes the bits of the number, and the bits of the number with the headroom of the greatest one.
fn write_sum(max: u64, n: u64, out: &mut [Fe])
    requires limit { max < 2 ^ 63 }
    requires range { n ≤ max }
    requires places { length out.old ≡ 2 * bit_length max }
    ensures { out.new ≡ bits_of (bit_length max) n ++ bits_of (bit_length max) (n + headroom max) }
{
    let (low, high) = out.split_at_mut(bit_length(max) as usize);
    write_bits(n, low);
    write_bits(n + headroom(max), high);
}

/// Writes so many bits of each number, one number after another.
fn write_numbers(bits: usize, input: &[u64], out: &mut [Fe])
    requires places { length out.old ≡ length input.now * bits }
    ensures { out.new ≡ flat_map (bits_of bits) input.now }
{
    let mut at = 0;
    for n in input {
        write_bits(*n, &mut out[at..at + bits]);
        at += bits;
    }
}

/// Writes 1 at the place, and 0 elsewhere.
fn write_place(place: u64, out: &mut [Fe])
    requires { place < length out.old }
    ensures { out.new ≡ one_at (length out.old) place }
{
    out.fill(Fe::ZERO);
    out[place as usize] = Fe::ONE;
}

/// Writes numbers, each 0 or 1, as words.
fn write_words(input: &[u64], out: &mut [Fe])
    requires places { length out.old ≡ length input.now }
    requires bits { All (λ n. n < 2) input.now }
    ensures { out.new ≡ input.now }
{
    for (place, n) in input.iter().enumerate() {
        out[place] = bit_word(*n);
    }
}

/// The sum of the numbers.
fn total(input: &[u64]) -> u64
    requires { sum input.now < 2 ^ 63 }
    ensures { result ≡ sum input.now }
{
    input.iter().sum()
}

/// Writes numbers, each 0 or 1, and then the bits of their sum with the weight's headroom.
fn write_multihot(weight: u64, input: &[u64], out: &mut [Fe])
    requires limit { weight < 2 ^ 63 }
    requires bits { All (λ n. n < 2) input.now }
    requires within { sum input.now ≤ weight }
    requires places { length out.old ≡ length input.now + bit_length weight }
    ensures { out.new ≡ input.now ++ bits_of (bit_length weight) (sum input.now + headroom weight) }
{
    let (words, bits) = out.split_at_mut(input.len());
    write_words(input, words);
    write_bits(total(input) + headroom(weight), bits);
}

/// Writes the encoding of a measurement that is not refused.
fn write(params: &Params, input: &[u64], out: &mut [Fe])
    requires fits { Fits params.now }
    requires judged { meas_fault params.now input.now ≡ None }
    requires places { length out.old ≡ meas_len_of params.now }
    ensures { out.new ≡ encoding_of params.now input.now }
{
    match *params {
        Params::Count => write_number(input[0], out),
        Params::Sum { max } => write_sum(max, input[0], out),
        Params::SumVec { bits, .. } => write_numbers(bits as usize, input, out),
        Params::Histogram { .. } => write_place(input[0], out),
        Params::Multihot { weight, .. } => write_multihot(weight, input, out),
    }
}

/// Writes the encoding of a measurement, or refuses it by its first fault and leaves `out` as it is.
///
/// `out` has [`crate::meas_len`] places. No memory is taken.
pub fn encode(params: &Params, input: &[u64], out: &mut [Fe]) -> Result<(), MeasFault>
    requires fits { Fits params.now }
    requires places { length out.old ≡ meas_len_of params.now }
    ensures cause { result_err result ≡ meas_fault params.now input.now }
    ensures written { OnOk result (out.new ≡ encoding_of params.now input.now) }
    ensures unchanged { OnErr result (out.new ≡ out.old) }
{
    judge(params, input)?;
    write(params, input, out);
    Ok(())
}
