//! What is known of a batch whose records were all verified, and what is printed of it at last.
ghost use Rattle.std.specs.Prelude.{◌≡◌};
ghost use Rattle.flp_tally.specs.Held.{IsSeatOf};

use crate::numbers::Numbers;
use flp_field::Fe;
use flp_known::Known;
use flp_list::List;
use flp_tally::{Seat, Tally};

/// Whether the aggregate is released.
#[derive(Clone, Copy, Debug, PartialEq, Eq)]
pub enum End {
    /// Each policy allows it.
    Released,
    /// The policy of this number, from 0, is the first that does not allow it.
    Withheld(u32),
}

/// A batch that was verified: how many places have each verdict, the nonces that are known behind it, whether its
/// aggregate is released, and the tally with all its rows.
///
/// The seat is one of the tally with the full weight, and the tally has as many elements as the circuit has outs.
#[derive(Drop)]
pub struct Counted {
    pub outs: u32,
    pub numbers: Numbers,
    pub known: Known,
    pub end: End,
    pub tally: Tally,
    pub seat: Seat,
    ghost seated: { IsSeatOf tally seat },
    ghost whole: { seat.view.weight ≡ seat.view.full },
    ghost sized: { tally.elements ≡ outs },
}

/// How many places of a batch have each verdict, and the sum of the outs of the accepted ones, word by word.
#[derive(Debug, Drop)]
pub struct Summary {
    pub numbers: Numbers,
    pub totals: List<Fe>,
}
