//! All workers, and a segment verified by them.
ghost use Rattle.std.specs.Prelude.{◌≡◌, ◌<◌, ◌≤◌, ℕ, List, [], Some, All, length, map, take, IfOk, slice_get};
ghost use Rattle.std.specs.List.{flat_map};
ghost use Rattle.flp_report.specs.Shape.{width_of};
ghost use Rattle.flp_policy.specs.declared.verdict.Verdict.{Verdict as Found};
ghost use Rattle.flp_tally.specs.Held.{IsSeatOf};
ghost use Rattle.flp_pool.specs.Range.{LacksRange, TakesRange};
ghost use Rattle.flp_round.specs.Notes.{IsWithin, IsNoteOf, HasVerdicts};
ghost use Rattle.flp_round.specs.Verifier.{IsFresh, noted, places_of, notes_room, emptied};
ghost use Rattle.flp_round.specs.Round.{size_of, end_of, verdicts_in, row_at};
ghost use Rattle.flp_round.specs.Crew.{workers_of, room_of, verdicts_of, IsCrewFor};

use crate::Memory;
use crate::round::Round;
use crate::verifier::Verifier;
use flp_plan::Plan;
use flp_policy::Verdict;
use flp_pool::{Gate, run_range};
use flp_report::Shape;
use flp_tally::{Seat, Tally};
use std::alloc::Global;
use std::thread::Threads;

/// The workers that verify a batch, segment by segment, and the verdicts of the segment that was verified last.
#[derive(Drop)]
pub struct Crew {
    verifiers: Vec<Verifier>,
    verdicts: Vec<Verdict>,
    /// How many verdicts the last segment has.
    used: usize,
}

impl Crew {
    /// So many workers for records of this shape, whose circuit has this plan, with room for segments of `room` records.
    pub fn new(
        alloc: Global,
        plan: &Plan,
        shape: &Shape,
        workers: u32,
        room: u32,
    ) -> Result<Crew, Memory>
        ensures made { IfOk result (λ c. IsCrewFor plan.now shape.now c) }
        ensures workers { IfOk result (λ c. workers_of c ≡ workers) }
        ensures room { IfOk result (λ c. room_of c ≡ room) }
        ensures empty { IfOk result (λ c. verdicts_of c ≡ []) }
    {
        let mut verifiers = Vec::with_capacity(alloc, workers as usize)?;
        for _ in 0..workers {
            verifiers.push(Verifier::new(alloc, plan, shape, room)?)?;
        }
        let verdicts = vec![in alloc; Verdict::Replayed; room as usize]?;
        Ok(Crew {
            verifiers,
            verdicts,
            used: 0,
        })
    }

    /// The verdict on the record of this number, from 0, among those of the segment that was verified last.
    pub fn verdict(&self, index: u32) -> Verdict
        requires { index < length (verdicts_of self.now) }
        ensures { slice_get (verdicts_of self.now) index ≡ Some result }
    {
        self.verdicts[index as usize]
    }
}

/// Puts the verdicts that all verifiers noted in their places behind `first`, and leaves the verifiers with no notes.
fn gather(verifiers: &mut [Verifier], first: u32, verdicts: &mut [Verdict])
    requires count { All (λ v. v.count ≤ notes_room v) verifiers.old }
    requires notes { All (λ v. All (IsWithin first (length verdicts.old)) (noted v)) verifiers.old }
    ensures length { length verdicts.new ≡ length verdicts.old }
    ensures put { (right : List Found) → All (λ v. All (IsNoteOf first right) (noted v)) verifiers.old → HasVerdicts first right (flat_map places_of verifiers.old) verdicts.new }
    ensures emptied { verifiers.new ≡ map emptied verifiers.old }
{
    for index in 0..verifiers.len() {
        verifiers[index].hand_over(first, verdicts);
    }
}

/// Verifies a segment by all workers of the crew, and gives the seat back.
///
/// The workers claim the places of the segment in the batch, each once. The row of each accepted record is added under
/// its place, and no other row. After that the crew has the verdicts.
pub fn verify_segment<R: Threads + Sync, G: Gate>(
    rt: &R,
    round: &Round<'_>,
    tally: &Tally,
    seat: Seat,
    crew: &mut Crew,
    gate: &G,
) -> Seat
    requires crew { IsCrewFor round.now.plan.now round.now.shape crew.old × (size_of round.now ≤ room_of crew.old) }
    requires workers { (1 ≤ workers_of crew.old) × (workers_of crew.old ≤ 16) × (workers_of crew.old ≤ seat.view.weight) }
    requires tally { (tally.now.elements ≡ width_of round.now.shape) × (end_of round.now ≤ tally.now.reports) }
    requires seat { IsSeatOf tally.now seat × (seat.view.weight ≡ seat.view.full) }
    requires free { LacksRange round.now.first (end_of round.now) seat.view.claimed }
    ensures seat { IsSeatOf tally.now result × (result.view.weight ≡ result.view.full) }
    ensures taken { TakesRange (row_at round.now) round.now.first (end_of round.now) seat.view result.view }
    ensures still_free { (top : ℕ) → LacksRange round.now.first top seat.view.claimed → LacksRange (end_of round.now) top result.view.claimed }
    ensures verdicts { verdicts_of crew.new ≡ verdicts_in round.now }
    ensures crew { IsCrewFor round.now.plan.now round.now.shape crew.new × (room_of crew.new ≡ room_of crew.old) × (workers_of crew.new ≡ workers_of crew.old) }
{
    let seat = verify_places(
        rt,
        round,
        tally,
        seat,
        &mut crew.verifiers,
        &mut crew.verdicts,
        gate,
    );
    crew.used = round.replayed.len();
    seat
}

/// Verifies a segment by all verifiers, and puts the verdicts in the order of its records.
fn verify_places<R: Threads + Sync, G: Gate>(
    rt: &R,
    round: &Round<'_>,
    tally: &Tally,
    seat: Seat,
    verifiers: &mut [Verifier],
    verdicts: &mut [Verdict],
    gate: &G,
) -> Seat
    requires verifiers { All (IsFresh round.now.plan.now round.now.shape (length verdicts.old)) verifiers.old }
    requires room { size_of round.now ≤ length verdicts.old }
    requires workers { (1 ≤ length verifiers.old) × (length verifiers.old ≤ 16) × (length verifiers.old ≤ seat.view.weight) }
    requires tally { (tally.now.elements ≡ width_of round.now.shape) × (end_of round.now ≤ tally.now.reports) }
    requires seat { IsSeatOf tally.now seat × (seat.view.weight ≡ seat.view.full) }
    requires free { LacksRange round.now.first (end_of round.now) seat.view.claimed }
    ensures seat { IsSeatOf tally.now result × (result.view.weight ≡ result.view.full) }
    ensures taken { TakesRange (row_at round.now) round.now.first (end_of round.now) seat.view result.view }
    ensures still_free { (top : ℕ) → LacksRange round.now.first top seat.view.claimed → LacksRange (end_of round.now) top result.view.claimed }
    ensures verdicts { take (size_of round.now) verdicts.new ≡ verdicts_in round.now }
    ensures verifiers { All (IsFresh round.now.plan.now round.now.shape (length verdicts.old)) verifiers.new }
{
    let first = round.first;
    let workers = verifiers.len() as u32;
    let seat = run_range(
        rt,
        round,
        tally,
        seat,
        workers,
        first,
        round.end(),
        verifiers,
        gate,
    );
    gather(verifiers, first, verdicts);
    seat
}
