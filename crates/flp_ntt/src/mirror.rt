//! The order of a transform's values: from places whose binary digits are reversed to natural order.
ghost use Rattle.std.specs.Prelude.{◌≡◌, ℕ, ◌+◌, ◌^◌, ◌<◌, length, slice_index};
ghost use Rattle.flp_ntt.specs.Levels.{reversed};

use flp_field::Fe;

/// Exchanges the elements at each two places whose log binary digits are those of one another in
/// reverse. There are 2^log elements.
pub fn reorder(values: &mut [Fe], log: u32)
    requires size { length values.old ≡ 2 ^ log }
    requires limit { log < 64 }
    ensures { (k : ℕ) → k < 2 ^ log → slice_index values.new k ≡ slice_index values.old (reversed log k) }
{
    let mut mirror = 0;
    for k in 0..values.len() {
        if k < mirror {
            values.swap(k, mirror);
        }
        mirror = next_mirror(mirror, log);
    }
}

/// The mirror of the number after the one with this mirror: 1 is added at the highest of log binary
/// digits, and the carry goes down. After the last number it is 0.
fn next_mirror(mirror: usize, log: u32) -> usize
    requires below { mirror < 2 ^ log }
    requires limit { log < 64 }
    ensures below { result < 2 ^ log }
    ensures next { (k : ℕ) → k + 1 < 2 ^ log → mirror ≡ reversed log k → result ≡ reversed log (k + 1) }
{
    let mut rest = mirror;
    let mut level = log;
    while level > 0 {
        level -= 1;
        let digit = 1 << level;
        if rest < digit {
            return rest + digit;
        }
        rest -= digit;
    }
    rest
}
