//! Words that are bits, and the numbers whose bits they are, lowest first.
ghost use Rattle.std.specs.Prelude.{◌≡◌, ◌^◌, ◌<◌, ◌≤◌, ◌↔◌, IsTrue, length};
ghost use Rattle.flp_circuits.specs.Bits.{bit_length, headroom, bits_of};
ghost use Rattle.flp_circuits.specs.Encoding.{weight_of};
ghost use Rattle.flp_joint.specs.Decoding.{AreBits};

use flp_field::Fe;

/// Whether each word is 0 or 1.
pub fn are_bits(x: &[Fe]) -> bool
    ensures { IsTrue result ↔ AreBits x.now }
{
    x.iter().all(|word| word.value() < 2)
}

/// How many words are 1.
pub fn ones(x: &[Fe]) -> u64
    ensures { result ≡ weight_of x.now }
{
    x.iter().filter(|word| word.value() == 1).count() as u64
}

/// The number whose bits these are.
pub fn number_of(bits: &[Fe]) -> u64
    requires bits { AreBits bits.now }
    requires few { length bits.now ≤ 63 }
    ensures below { result < 2 ^ length bits.now }
    ensures bits { bits_of (length bits.now) result ≡ bits.now }
{
    let mut number = 0;
    let mut left = bits.len();
    while left > 0 {
        left -= 1;
        number = 2 * number + bits[left].value();
    }
    number
}

/// What has to be added to a number to reach the greatest one of its bit length, which is given.
pub fn headroom(n: u64, bits: usize) -> u64
    requires limit { n < 2 ^ 63 }
    requires length { bits ≡ bit_length n }
    ensures { result ≡ headroom n }
{
    flp_circuits::laws::bit_lengths();
    (1 << bits) - 1 - n
}
