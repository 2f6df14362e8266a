//! What one worker verifies with, and what it keeps.
ghost use Rattle.std.specs.Prelude.{◌≡◌, ◌+◌, ◌≤◌, ℕ, List, [], ◌∷◌, ◌++◌, All, length, IfOk};
ghost use Rattle.flp_policy.specs.declared.verdict.Verdict.{Verdict as Found};
ghost use Rattle.flp_policy.specs.declared.verdict.Verdict.TheVariants.{Accepted as AcceptedVerdict};
ghost use Rattle.flp_round.specs.Notes.{places_in, IsWithin, IsNoteOf, HasVerdicts};

use crate::Memory;
use crate::row::write_row;
use flp_field::Fe;
use flp_plan::Plan;
use flp_policy::Verdict;
use flp_report::{Record, Shape};
use flp_worker::Worker;
use std::alloc::Global;

/// What was found of the record at a place.
#[derive(Clone, Copy, Debug)]
pub struct Note {
    pub(crate) place: u32,
    pub(crate) verdict: Verdict,
}

impl Note {
    /// What stands in a place for a note before one is taken.
    const NONE: Note = Note {
        place: 0,
        verdict: Verdict::Replayed,
    };
}

/// A worker with the row of its last record, and with what it found since its notes were gathered.
#[derive(Drop)]
pub struct Verifier {
    worker: Worker,
    notes: Vec<Note>,
    /// How many of the notes were taken.
    count: usize,
    /// Whether the last record was accepted.
    accepted: bool,
    row: Vec<Fe>,
}

impl Verifier {
    ghost use Rattle.flp_report.specs.Shape.{width_of};
    ghost use Rattle.flp_report.specs.Record.{record_of, shape_of};
    ghost use Rattle.flp_report.specs.Buckets.{HasBucket};
    ghost use Rattle.flp_plan.specs.Counted.{counted_lengths};
    ghost use Rattle.flp_policy.specs.Verdicts.{is_accepted};
    ghost use Rattle.flp_worker.specs.Verdict.{verdict_of};
    ghost use Rattle.flp_worker.specs.Worker.{IsShapeOf};
    ghost use Rattle.flp_round.specs.Findings.{outs_row};
    ghost use Rattle.flp_round.specs.Verifier.{IsVerifierFor, IsFresh, HasNotesOf, noted, places_of, notes_room, room_left, emptied};

    /// What verifies records of this shape, whose circuit has this plan, and has room for so many notes.
    pub(crate) fn new(
        alloc: Global,
        plan: &Plan,
        shape: &Shape,
        room: u32,
    ) -> Result<Verifier, Memory>
        ensures { IfOk result (λ v. IsFresh plan.now shape.now room v) }
    {
        Ok(Verifier {
            worker: Worker::new(alloc, plan, shape)?,
            notes: vec![in alloc; Note::NONE; room as usize]?,
            count: 0,
            accepted: false,
            row: vec![in alloc; Fe::ZERO; shape.width() as usize]?,
        })
    }

    /// The verdict on a record whose nonce is new. Where it is accepted, its row is written.
    pub(crate) fn verify(&mut self, plan: &Plan, shape: &Shape, given: &Record) -> Verdict
        requires fits { IsShapeOf plan.now.circuit shape.now }
        requires outs { shape.now.outs ≡ (counted_lengths plan.now.circuit).outs }
        requires record_shape { shape_of given.now ≡ shape.now }
        requires bucket { HasBucket shape.now (record_of given.now) }
        requires made { IsVerifierFor plan.now shape.now self.old }
        ensures verdict { result ≡ verdict_of plan.now.circuit shape.now (record_of given.now) }
        ensures row { result ≡ AcceptedVerdict → self.new.row.items ≡ outs_row plan.now.circuit shape.now (record_of given.now) }
        ensures made { IsVerifierFor plan.now shape.now self.new }
        ensures notes { HasNotesOf self.old self.new }
    {
        let verdict = self.worker.verify_record(plan, shape, given);
        if verdict.is_accepted() {
            write_row(
                self.worker.row(),
                shape.buckets,
                given.bucket(),
                &mut self.row,
            );
        }
        verdict
    }

    /// Notes what was found at a place.
    pub(crate) fn note(&mut self, place: u32, verdict: Verdict)
        requires { 1 ≤ room_left self.old }
        ensures noted { noted self.new ≡ noted self.old ++ record { place = place; verdict = verdict } ∷ [] }
        ensures count { self.new.count ≡ self.old.count + 1 }
        ensures room { notes_room self.new ≡ notes_room self.old }
        ensures accepted { self.new.accepted ≡ is_accepted verdict }
        ensures row { self.new.row ≡ self.old.row }
        ensures worker { self.new.worker ≡ self.old.worker }
    {
        self.notes[self.count] = Note { place, verdict };
        self.count += 1;
        self.accepted = verdict.is_accepted();
    }

    /// The row of the last record.
    pub(crate) fn row(&self) -> &[Fe]
        ensures { result.now ≡ self.now.row.items }
    {
        &self.row
    }

    /// Puts each verdict that was noted in its place, where the first of `verdicts` has the place `first`, and forgets the
    /// notes.
    pub(crate) fn hand_over(&mut self, first: u32, verdicts: &mut [Verdict])
        requires count { self.old.count ≤ notes_room self.old }
        requires notes { All (IsWithin first (length verdicts.old)) (noted self.old) }
        ensures length { length verdicts.new ≡ length verdicts.old }
        ensures put { (right : List Found) (places : List ℕ) → All (IsNoteOf first right) (noted self.old) → HasVerdicts first right places verdicts.old
            → HasVerdicts first right (places ++ places_of self.old) verdicts.new }
        ensures emptied { self.new ≡ emptied self.old }
    {
        put_notes(&self.notes[..self.count], first, verdicts);
        self.count = 0;
    }
}

/// Puts the verdict of each note in its place, where the first of `verdicts` has the place `first`.
fn put_notes(notes: &[Note], first: u32, verdicts: &mut [Verdict])
    requires { All (IsWithin first (length verdicts.old)) notes.now }
    ensures length { length verdicts.new ≡ length verdicts.old }
    ensures put { (right : List Found) (places : List ℕ) → All (IsNoteOf first right) notes.now → HasVerdicts first right places verdicts.old
        → HasVerdicts first right (places ++ places_in notes.now) verdicts.new }
{
    for note in notes {
        verdicts[(note.place - first) as usize] = note.verdict;
    }
}
