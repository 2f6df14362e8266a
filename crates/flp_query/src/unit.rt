//! What the constant 1 counts as on a share.
ghost use Rattle.std.specs.Prelude.{◌≡◌, ◌≤◌};
ghost use Rattle.flp_query.specs.Unit.{share_unit};

use flp_field::{Fe, laws};

/// The inverse of the number of shares.
pub(crate) fn unit_of(shares: u32) -> Fe
    requires some { 1 ≤ shares }
    requires few { shares ≤ 16 }
    ensures { result ≡ share_unit shares }
{
    // The proof reads from here that a word has one inverse.
    laws::inverses();
    let unit = Fe::inverse_of(shares);
    let _word = unit.value();
    unit
}
