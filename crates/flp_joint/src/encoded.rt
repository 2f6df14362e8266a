//! Which words are the encoding of a measurement.
ghost use Rattle.std.specs.Prelude.{◌≡◌, ◌+◌, ◌*◌, ◌^◌, ◌<◌, ◌≤◌, ◌↔◌, IsTrue, length};
ghost use Rattle.flp_syntax.specs.declared.syntax.Params.TheVariants.{Sum, Multihot};
ghost use Rattle.flp_circuits.specs.Bits.{bit_length};
ghost use Rattle.flp_circuits.specs.Sizes.{meas_len_of, Fits};
ghost use Rattle.flp_joint.specs.Decoding.{AreBits, IsEncoding};

use crate::bits::{are_bits, headroom, number_of, ones};
use flp_field::Fe;
use flp_syntax::Params;

/// Whether these bits are those of a number up to `max`, and of that number with the headroom of `max`.
fn is_sum(max: u64, x: &[Fe]) -> bool
    requires limit { max < 2 ^ 63 }
    requires words { length x.now ≡ 2 * bit_length max }
    requires bits { AreBits x.now }
    ensures { IsTrue result ↔ IsEncoding (Sum max) x.now }
{
    flp_circuits::laws::bit_lengths();
    let (low, high) = x.split_at(x.len() / 2);
    number_of(low) + headroom(max, low.len()) == number_of(high)
}

/// Whether these bits are so many numbers, with at most `weight` ones, and the bits of their sum with the headroom of
/// `weight`.
fn is_multihot(count: u64, weight: u64, chunk: u64, x: &[Fe]) -> bool
    requires fits { Fits (Multihot count weight chunk) }
    requires words { length x.now ≡ count + bit_length weight }
    requires bits { AreBits x.now }
    ensures { IsTrue result ↔ IsEncoding (Multihot count weight chunk) x.now }
{
    flp_circuits::laws::bit_lengths();
    let (numbers, bits) = x.split_at(count as usize);
    ones(numbers) + headroom(weight, bits.len()) == number_of(bits)
}

/// Whether these bits are the encoding of a measurement.
fn adds_up(params: &Params, x: &[Fe]) -> bool
    requires fits { Fits params.now }
    requires words { length x.now ≡ meas_len_of params.now }
    requires bits { AreBits x.now }
    ensures { IsTrue result ↔ IsEncoding params.now x.now }
{
    match *params {
        Params::Count => true,
        Params::Sum { max } => is_sum(max, x),
        Params::SumVec { .. } => true,
        Params::Histogram { .. } => ones(x) == 1,
        Params::Multihot {
            length,
            weight,
            chunk,
        } => is_multihot(length, weight, chunk, x),
    }
}

/// Whether the words are the encoding of a measurement that is not refused.
pub fn is_encoding(params: &Params, x: &[Fe]) -> bool
    requires fits { Fits params.now }
    requires words { length x.now ≡ meas_len_of params.now }
    ensures { IsTrue result ↔ IsEncoding params.now x.now }
{
    are_bits(x) && adds_up(params, x)
}
