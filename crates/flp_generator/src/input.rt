//! What a place encodes.
ghost use Rattle.std.specs.Prelude.{◌≡◌, ◌+◌, ◌≤◌, ◌<◌, ◌^◌, ◌%◌, length, IfSome};
ghost use Rattle.flp_circuits.specs.Sizes.{input_len_of, meas_len_of, Fits};
ghost use Rattle.flp_circuits.specs.Encoding.{encoding_of};
ghost use Rattle.flp_plan.specs.Counted.{counted_lengths};
ghost use Rattle.flp_jobs.specs.Setting.{IsCircuitOf};
ghost use Rattle.flp_generator.specs.Input.{residues, ones_below, measurement, trial_encoding};

use flp_circuits::encode;
use flp_field::Fe;
use flp_load::Loaded;
use flp_syntax::Params;

/// Writes to place j of `numbers` the number k + j modulo `modulo`.
fn write_residues(modulo: u64, k: u64, numbers: &mut [u64])
    requires some { 1 ≤ modulo }
    requires small { k + length numbers.old < 2 ^ 64 }
    ensures { numbers.new ≡ residues modulo (length numbers.old) k }
{
    for (j, number) in numbers.iter_mut().enumerate() {
        *number = (k + j as u64) % modulo;
    }
}

/// Writes to place j of `numbers` 1 where j + k modulo their count is below `below`, and else 0.
fn write_ones(below: u64, k: u64, numbers: &mut [u64])
    requires { k + length numbers.old < 2 ^ 64 }
    ensures { numbers.new ≡ ones_below (length numbers.old) below k }
{
    let count = numbers.len() as u64;
    for (j, number) in numbers.iter_mut().enumerate() {
        *number = u64::from((j as u64 + k) % count < below);
    }
}

/// Writes the measurement of number k to `numbers`, which has a place for each of its numbers.
fn write_measurement(params: &Params, k: u64, numbers: &mut [u64])
    requires fits { Fits params.now }
    requires small { k < 2 ^ 33 }
    requires numbers { length numbers.old ≡ input_len_of params.now }
    ensures { numbers.new ≡ measurement params.now k }
{
    match *params {
        Params::Count => numbers[0] = k % 2,
        Params::Sum { max } => numbers[0] = k % (max + 1),
        Params::SumVec { bits, .. } => write_residues(1 << bits, k, numbers),
        Params::Histogram { length, .. } => numbers[0] = k % length,
        Params::Multihot { weight, .. } => write_ones(k % (weight + 1), k, numbers),
    }
}

/// Writes the encoding of the measurement of number k to `x`, which has a place for each of its words.
fn write_measured(params: &Params, k: u64, numbers: &mut [u64], x: &mut [Fe])
    requires fits { Fits params.now }
    requires small { k < 2 ^ 33 }
    requires numbers { length numbers.old ≡ input_len_of params.now }
    requires x { length x.old ≡ meas_len_of params.now }
    ensures { x.new ≡ encoding_of params.now (measurement params.now k) }
{
    write_measurement(params, k, numbers);
    match encode(params, numbers, x) {
        Ok(()) => {}
        Err(_) => unreachable!("each number is in range, and few are 1"),
    }
}

/// The word 0 or 1 that a number is modulo 2.
fn bit(number: u64) -> Fe
    ensures { result ≡ number % 2 }
{
    if number % 2 == 0 { Fe::ZERO } else { Fe::ONE }
}

/// Writes 0 and 1 in turn to `x`: to place j the word k + j modulo 2.
fn write_turns(k: u64, x: &mut [Fe])
    requires { k + length x.old < 2 ^ 64 }
    ensures { x.new ≡ residues 2 (length x.old) k }
{
    for (j, word) in x.iter_mut().enumerate() {
        *word = bit(k + j as u64);
    }
}

/// Writes the encoding of number k to `x`, which has a place for each of its words. Where the circuit is a standard one,
/// `numbers` has a place for each number of a measurement.
pub(crate) fn write_encoding(loaded: &Loaded, k: u64, numbers: &mut [u64], x: &mut [Fe])
    requires circuit { IsCircuitOf loaded.now.params loaded.now.plan.circuit }
    requires small { k < 2 ^ 33 }
    requires numbers { IfSome loaded.now.params (λ params. length numbers.old ≡ input_len_of params) }
    requires x { length x.old ≡ (counted_lengths loaded.now.plan.circuit).meas }
    requires few { length x.old ≤ 65536 }
    ensures { x.new ≡ trial_encoding loaded.now.params (counted_lengths loaded.now.plan.circuit).meas k }
{
    match &loaded.params {
        Some(params) => write_measured(params, k, numbers, x),
        None => write_turns(k, x),
    }
}
