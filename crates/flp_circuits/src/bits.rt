//! The bits of numbers.
ghost use Rattle.std.specs.Prelude.{◌≡◌, ◌<◌, ◌≤◌, ◌%◌, ◌^◌, length};
ghost use Rattle.flp_circuits.specs.Bits.{bit_length, headroom, bits_of};

use flp_field::Fe;

/// The bit length of `n`: the least exponent whose power of two is above it.
pub fn bit_length(n: u64) -> u32
    ensures same { result ≡ bit_length n }
    ensures limit { result ≤ 64 }
{
    let mut rest = n;
    let mut bits = 0;
    while rest > 0 {
        rest /= 2;
        bits += 1;
    }
    bits
}

/// What has to be added to `n` to reach the greatest number of its bit length.
pub fn headroom(n: u64) -> u64
    requires { n < 2 ^ 63 }
    ensures same { result ≡ headroom n }
    ensures limit { result < 2 ^ 63 }
{
    (1 << bit_length(n)) - 1 - n
}

/// The lowest bit of `n`, as a word.
fn lowest_bit(n: u64) -> Fe
    ensures { result ≡ n % 2 }
{
    if n % 2 == 1 { Fe::ONE } else { Fe::ZERO }
}

/// Writes as many bits of `n` as there are places, lowest first.
pub fn write_bits(n: u64, out: &mut [Fe])
    ensures { out.new ≡ bits_of (length out.old) n }
{
    let mut rest = n;
    for bit in out.iter_mut() {
        *bit = lowest_bit(rest);
        rest /= 2;
    }
}
