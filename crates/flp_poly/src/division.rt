//! Division of a polynomial by x - root.
ghost use Rattle.std.specs.Prelude.{◌≡◌, ◌+◌, ◌<◌, length};
ghost use Rattle.flp_poly.specs.Polynomial.{value_at, IsDivided};

use flp_field::{Fe, laws};

/// Divides a polynomial by x - `root`, by synthetic division: writes the quotient to `out` and answers
/// the remainder, which is the value at the root.
///
/// The polynomial is not empty, and `out` has a place less than it.
pub fn divide_root(poly: &[Fe], root: Fe, out: &mut [Fe]) -> Fe
    requires { length out.old + 1 ≡ length poly.now }
    ensures divided { IsDivided poly.now root out.new result }
    ensures remainder { result ≡ value_at poly.now root }
{
    // What is divided is made of words: the proof reads it from here, and a build drops both lines.
    laws::words(poly);
    let _word = root.value();
    let mut left = out.len();
    let mut rest = poly[left];
    while left > 0 {
        left -= 1;
        out[left] = rest;
        rest = poly[left].add(root.mul(rest));
    }
    rest
}
