//! Measurements read back from their encodings.
ghost use Rattle.std.specs.Prelude.{◌≡◌, ◌*◌, ◌^◌, ◌<◌, ◌≤◌, ◌↔◌, ◌==◌, IsTrue, All, length, position};
ghost use Rattle.std.specs.Bool.{OnTrue, OnFalse};
ghost use Rattle.std.specs.List.{flat_map};
ghost use Rattle.flp_circuits.specs.Bits.{bits_of};
ghost use Rattle.flp_circuits.specs.Sizes.{input_len_of, meas_len_of, Fits};
ghost use Rattle.flp_circuits.specs.Encoding.{one_at, weight_of};
ghost use Rattle.flp_joint.specs.Decoding.{AreBits, IsEncoding, Encodes};

use crate::bits::number_of;
use crate::encoded::is_encoding;
use flp_field::Fe;
use flp_syntax::Params;

/// Reads numbers of so many bits, one after another.
fn read_numbers(bits: usize, x: &[Fe], out: &mut [u64])
    requires few { bits ≤ 63 }
    requires places { length x.now ≡ length out.old * bits }
    requires bits { AreBits x.now }
    ensures size { length out.new ≡ length out.old }
    ensures below { All (λ n. n < 2 ^ bits) out.new }
    ensures numbers { flat_map (bits_of bits) out.new ≡ x.now }
{
    let mut at = 0;
    for n in out.iter_mut() {
        *n = number_of(&x[at..at + bits]);
        at += bits;
    }
}

/// Reads words as numbers.
fn read_words(x: &[Fe], out: &mut [u64])
    requires places { length x.now ≡ length out.old }
    ensures { out.new ≡ x.now }
{
    for (place, word) in x.iter().enumerate() {
        out[place] = word.value();
    }
}

/// The place of the first 1.
fn first_one(x: &[Fe]) -> Option<usize>
    ensures { result ≡ position (λ n. n == 1) x.now }
{
    x.iter().position(|word| word.value() == 1)
}

/// The place of the 1 among bits of which no other is 1.
fn place_of_one(x: &[Fe]) -> usize
    requires bits { AreBits x.now }
    requires one { weight_of x.now ≡ 1 }
    ensures below { result < length x.now }
    ensures place { one_at (length x.now) result ≡ x.now }
{
    first_one(x).unwrap_or(0)
}

/// Writes the measurement whose encoding the words are.
fn read(params: &Params, x: &[Fe], out: &mut [u64])
    requires fits { Fits params.now }
    requires encoding { IsEncoding params.now x.now }
    requires places { length out.old ≡ input_len_of params.now }
    ensures { Encodes params.now out.new x.now }
{
    flp_circuits::laws::bit_lengths();
    match *params {
        Params::Count => read_words(x, out),
        Params::Sum { .. } => out[0] = number_of(&x[..x.len() / 2]),
        Params::SumVec { bits, .. } => read_numbers(bits as usize, x, out),
        Params::Histogram { .. } => out[0] = place_of_one(x) as u64,
        Params::Multihot { length, .. } => read_words(&x[..length as usize], out),
    }
}

/// Whether the words are the encoding of a measurement that is not refused, which is then written. Else `out` is as before.
///
/// `x` has [`flp_circuits::meas_len`] words and `out` [`flp_circuits::input_len`] places. No memory is taken.
pub fn decode(params: &Params, x: &[Fe], out: &mut [u64]) -> bool
    requires fits { Fits params.now }
    requires words { length x.now ≡ meas_len_of params.now }
    requires places { length out.old ≡ input_len_of params.now }
    ensures whether { IsTrue result ↔ IsEncoding params.now x.now }
    ensures written { OnTrue result (Encodes params.now out.new x.now) }
    ensures unchanged { OnFalse result (out.new ≡ out.old) }
{
    if !is_encoding(params, x) {
        return false;
    }
    read(params, x, out);
    true
}
