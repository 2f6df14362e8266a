//! The fork of a seat to workers, and the run over a range.
ghost use Rattle.std.specs.Prelude.{◌≡◌, ◌+◌, ◌-◌, ◌<◌, ◌≤◌, ℕ, length, Some, sum_by};
ghost use denote.Param.Send.{IsSend};
ghost use Rattle.std.specs.Thread.{IsSync};
ghost use Rattle.flp_tally.specs.Held.{IsSeatOf};
ghost use Rattle.flp_pool.specs.Work.{Ready};
ghost use Rattle.flp_pool.specs.Range.{HasRange, LacksRange, Ran};
ghost use Rattle.flp_pool.specs.Fork.{MayRun, RanIn};

use crate::gate::Gate;
use crate::span::Span;
use crate::walk::walk_round;
use crate::work::Work;
use flp_tally::{Seat, Tally};
use std::thread::{Threads, join_mut};

/// Does each number from `lo` up to `hi` once, by as many workers as there are states, and gives the seat back.
///
/// Each worker enters the gate once with its number, and then walks the range from a start of its own, doing the
/// numbers that it claims and adding their rows under them. In its own part of the range it claims each number; what
/// others began it claims only where a look finds it free. A worker for which no thread can be started is run by the
/// caller itself. No memory is taken.
///
/// There are 1 to 16 workers, and no more than the seat has weight. The seat holds the full weight and has claimed no
/// number of the range. Each state is right and has room for the whole range, and each row that the work has there is as
/// long as the tally has elements.
pub fn run_range<R: Threads + Sync, W: Work, G: Gate>(
    rt: &R,
    work: &W,
    tally: &Tally,
    seat: Seat,
    workers: u32,
    lo: u32,
    hi: u32,
    states: &mut [W::State],
    gate: &G,
) -> Seat
    requires workers { (1 ≤ workers) × (workers ≤ 16) × (workers ≤ seat.view.weight) × (length states.old ≡ workers) }
    requires range { (lo ≤ hi) × (hi ≤ tally.now.reports) }
    requires states { Ready W.room (W.right work.now) (hi - lo) states.old }
    requires numbers { HasRange (W.takes work.now) (W.row_of work.now) tally.now.elements lo hi }
    requires seat { IsSeatOf tally.now seat × (seat.view.weight ≡ seat.view.full) }
    requires free { LacksRange lo hi seat.view.claimed }
    ensures seat { IsSeatOf tally.now result × (result.view.weight ≡ result.view.full) }
    ensures ran { Ran W.room W.done (W.right work.now) (W.row_of work.now) lo hi seat.view result.view states.old states.new }
    ensures again { (n : ℕ) → Ready W.room (W.right work.now) (hi - lo + n) states.old → Ready W.room (W.right work.now) n states.new }
    ensures still_free { (top : ℕ) → LacksRange lo top seat.view.claimed → LacksRange hi top result.view.claimed }
{
    let mut slot = Some(seat);
    run_from(
        rt,
        work,
        tally,
        gate,
        Span { workers, lo, hi },
        0,
        &mut slot,
        states,
    );
    let Some(seat) = slot else { unreachable!() };
    seat
}

/// Runs a part of the workers, one for each state, numbered from `first`.
#[cycle(fork)]
fn run_from<R: Threads + Sync, S: Send, W: Work<State = S>, G: Gate>(
    rt: &R,
    work: &W,
    tally: &Tally,
    gate: &G,
    span: Span,
    first: u32,
    slot: &mut Option<Seat>,
    states: &mut [S],
)
    requires { MayRun W.room (W.right work.now) (W.takes work.now) (W.row_of work.now) tally.now span.workers span.lo span.hi first slot.old states.old }
    ensures { RanIn W.room W.done (W.right work.now) (W.row_of work.now) span.lo span.hi slot.old slot.new states.old states.new }
{
    let Some(mut seat) = slot.take() else {
        unreachable!()
    };
    if states.len() == 1 {
        gate.enter(first);
        walk_round(work, tally, span, first, &mut seat, &mut states[0]);
        *slot = Some(seat);
        return;
    }
    let (one, two) = tally.split(seat);
    let mut one = Some(one);
    let mut two = Some(two);
    let half = states.len() - states.len() / 2;
    let (a, b) = states.split_at_mut(half);
    run_both(
        rt,
        work,
        tally,
        gate,
        span,
        first,
        &mut one,
        a,
        first + half as u32,
        &mut two,
        b,
    );
    let (Some(one), Some(two)) = (one, two) else {
        unreachable!()
    };
    *slot = Some(tally.join(one, two));
}

/// Runs two parts at once.
#[cycle(fork)]
fn run_both<R: Threads + Sync, S: Send, W: Work<State = S>, G: Gate>(
    rt: &R,
    work: &W,
    tally: &Tally,
    gate: &G,
    span: Span,
    first: u32,
    one: &mut Option<Seat>,
    a: &mut [S],
    second: u32,
    two: &mut Option<Seat>,
    b: &mut [S],
)
    requires left { MayRun W.room (W.right work.now) (W.takes work.now) (W.row_of work.now) tally.now span.workers span.lo span.hi first one.old a.old }
    requires right { MayRun W.room (W.right work.now) (W.takes work.now) (W.row_of work.now) tally.now span.workers span.lo span.hi second two.old b.old }
    ensures left { RanIn W.room W.done (W.right work.now) (W.row_of work.now) span.lo span.hi one.old one.new a.old a.new }
    ensures right { RanIn W.room W.done (W.right work.now) (W.row_of work.now) span.lo span.hi two.old two.new b.old b.new }
{
    let mut left = ||
        requires { IsSync R.row × IsSync W.row × IsSync G.row × IsSend S.row × MayRun W.room (W.right work.now) (W.takes work.now) (W.row_of work.now) tally.now span.workers span.lo span.hi first one.now a.now }
        ensures { RanIn W.room W.done (W.right work.entry.now) (W.row_of work.entry.now) span.lo span.hi one.entry.now one.exit.now a.entry.now a.exit.now }
    { run_from(rt, work, tally, gate, span, first, one, a) };
    let mut right = ||
        requires { IsSync R.row × IsSync W.row × IsSync G.row × IsSend S.row × MayRun W.room (W.right work.now) (W.takes work.now) (W.row_of work.now) tally.now span.workers span.lo span.hi second two.now b.now }
        ensures { RanIn W.room W.done (W.right work.entry.now) (W.row_of work.entry.now) span.lo span.hi two.entry.now two.exit.now b.entry.now b.exit.now }
    { run_from(rt, work, tally, gate, span, second, two, b) };
    join_mut(rt, &mut left, &mut right);
}
