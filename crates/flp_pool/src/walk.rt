//! One worker: its walk over the range, and one turn of it.
ghost use Rattle.std.specs.Prelude.{◌≡◌, ◌≢◌, ◌⊎◌, ◌+◌, ◌-◌, ◌<◌, ◌≤◌, ℕ, IsTrue, IsFalse};
ghost use Rattle.flp_tally.specs.Held.{IsSeatOf};
ghost use Rattle.flp_tally.specs.Views.{times, with_seen, with_missed};
ghost use Rattle.flp_pool.specs.Range.{HasRange};
ghost use Rattle.flp_pool.specs.Walk.{Walks};

use crate::span::{Span, part_of};
use crate::work::Work;
use flp_tally::{Claim, Seat, Tally};

/// Walks the range once: the worker's own part, then what lies above it, and then what lies below.
pub(crate) fn walk_round<W: Work>(
    work: &W,
    tally: &Tally,
    span: Span,
    worker: u32,
    seat: &mut Seat,
    state: &mut W::State,
)
    requires range { (span.lo ≤ span.hi) × (span.hi ≤ tally.now.reports) × (worker < span.workers) }
    requires numbers { HasRange (W.takes work.now) (W.row_of work.now) tally.now.elements span.lo span.hi }
    requires state { W.right work.now state.old × (span.hi - span.lo ≤ W.room state.old) }
    requires seat { IsSeatOf tally.now seat.old }
    ensures seat { IsSeatOf tally.now seat.new }
    ensures walk { Walks W.room W.done (W.right work.now) (W.row_of work.now) span.lo span.hi seat.old.view seat.new.view state.old state.new }
{
    let (start, end) = part_of(span, worker);
    walk_part(work, tally, start, end, false, seat, state);
    walk_part(work, tally, end, span.hi, true, seat, state);
    walk_part(work, tally, span.lo, start, true, seat, state);
}

/// Walks a part. Where others began with it, most of its numbers are claimed by now.
fn walk_part<W: Work>(
    work: &W,
    tally: &Tally,
    lo: u32,
    hi: u32,
    begun: bool,
    seat: &mut Seat,
    state: &mut W::State,
)
    requires range { (lo ≤ hi) × (hi ≤ tally.now.reports) }
    requires numbers { HasRange (W.takes work.now) (W.row_of work.now) tally.now.elements lo hi }
    requires state { W.right work.now state.old × (hi - lo ≤ W.room state.old) }
    requires seat { IsSeatOf tally.now seat.old }
    ensures seat { IsSeatOf tally.now seat.new }
    ensures walk { Walks W.room W.done (W.right work.now) (W.row_of work.now) lo hi seat.old.view seat.new.view state.old state.new }
{
    for number in lo..hi {
        if !is_passed(tally, number, begun, seat) {
            turn(work, tally, number, seat, state);
        }
    }
}

/// Whether the number is seen to be claimed. Only in a part that others began is it looked at: a look leaves the word to
/// all who look, and a claim takes it from them.
fn is_passed(tally: &Tally, number: u32, begun: bool, seat: &mut Seat) -> bool
    requires range { number < tally.now.reports }
    requires seat { IsSeatOf tally.now seat.old }
    ensures seat { IsSeatOf tally.now seat.new }
    ensures claimed { IsTrue result → seat.new.view ≡ with_seen seat.old.view number }
    ensures alone { IsTrue result → seat.old.view.weight ≡ seat.old.view.full → times number seat.old.view.claimed ≢ 0 }
    ensures free { IsFalse result → (seat.new.view ≡ seat.old.view) ⊎ (seat.new.view ≡ with_missed seat.old.view number) }
{
    if !begun {
        return false;
    }
    tally.peek(seat, number)
}

/// Claims a number, and where it was free does its item and adds the row that it brings.
fn turn<W: Work>(work: &W, tally: &Tally, number: u32, seat: &mut Seat, state: &mut W::State)
    requires range { number < tally.now.reports }
    requires numbers { HasRange (W.takes work.now) (W.row_of work.now) tally.now.elements number (number + 1) }
    requires state { W.right work.now state.old × (1 ≤ W.room state.old) }
    requires seat { IsSeatOf tally.now seat.old }
    ensures seat { IsSeatOf tally.now seat.new }
    ensures walk { Walks W.room W.done (W.right work.now) (W.row_of work.now) number (number + 1) seat.old.view seat.new.view state.old state.new }
{
    match tally.claim(seat, number) {
        Claim::Mine => {}
        Claim::Taken => return,
    }
    if !work.item(number, state) {
        return;
    }
    tally.add(seat, number, work.row(state));
}
