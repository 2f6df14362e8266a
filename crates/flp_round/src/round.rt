//! A segment that is verified, and what is done for each of its places.
ghost use Rattle.std.specs.Prelude.{◌≡◌, ◌+◌, ◌^◌, ◌<◌, All, length};
ghost use Rattle.flp_report.specs.Buckets.{HasBucket};
ghost use Rattle.flp_report.specs.Segment.{shape_in, used_in, records_in};
ghost use Rattle.flp_plan.specs.Counted.{counted_lengths};
ghost use Rattle.flp_worker.specs.Worker.{IsShapeOf};

use crate::verifier::Verifier;
use flp_field::Fe;
use flp_plan::Plan;
use flp_policy::Verdict;
use flp_pool::Work;
use flp_report::{Segment, Shape};

/// A segment that is verified: the records that a reading left in it, which of them are replayed, and the place in the
/// batch of the first. The shape is that of the records and of the plan's circuit, and there is a mark for each record.
#[derive(Clone, Copy)]
pub struct Round<'a> {
    pub plan: &'a Plan,
    pub shape: Shape,
    pub segment: &'a Segment,
    pub replayed: &'a [bool],
    pub first: u32,
    ghost fits: { IsShapeOf plan.now.circuit shape },
    ghost outs: { shape.outs ≡ (counted_lengths plan.now.circuit).outs },
    ghost same: { shape_in segment.now ≡ shape },
    ghost marks: { length replayed.now ≡ used_in segment.now },
    ghost buckets: { All (HasBucket shape) (records_in segment.now) },
    ghost few: { first + used_in segment.now < 2 ^ 32 },
}

impl<'a> Round<'a> {
    ghost use Rattle.std.specs.Prelude.{◌-◌, if◌then◌else◌, Some, None, slice_get, slice_index_or};
    ghost use Rattle.flp_policy.specs.Verdicts.{is_accepted};
    ghost use Rattle.flp_policy.specs.declared.verdict.Verdict.TheVariants.{Replayed as ReplayedVerdict};
    ghost use Rattle.flp_round.specs.Round.{size_of, end_of, HasPlace, verdicts_in, row_at};
    ghost use Rattle.flp_round.specs.Verifier.{IsVerifierFor, HasNotesOf};

    /// The place that follows that of the last record.
    pub(crate) fn end(&self) -> u32
        ensures { result ≡ end_of self.now }
    {
        self.first + self.replayed.len() as u32
    }

    /// Whether the record of this number, from 0, is replayed.
    fn is_replayed(&self, index: u32) -> bool
        requires { index < size_of self.now }
        ensures { slice_get self.now.replayed.now index ≡ Some result }
    {
        self.replayed[index as usize]
    }

    /// The verdict of a place. Where it is accepted, the verifier writes its row.
    fn verify(&self, place: u32, state: &mut Verifier) -> Verdict
        requires place { HasPlace self.now place }
        requires made { IsVerifierFor self.now.plan.now self.now.shape state.old }
        ensures verdict { result ≡ slice_index_or (verdicts_in self.now) (place - self.now.first) ReplayedVerdict }
        ensures row { row_at self.now place ≡ (if is_accepted result then Some state.new.row.items else None) }
        ensures made { IsVerifierFor self.now.plan.now self.now.shape state.new }
        ensures notes { HasNotesOf state.old state.new }
    {
        let index = place - self.first;
        if self.is_replayed(index) {
            return Verdict::Replayed;
        }
        state.verify(self.plan, &self.shape, &self.segment.record_at(index))
    }
}

impl<'a> Work for Round<'a> {
    type State = Verifier;

    ghost use Rattle.flp_round.specs.Round.{HasPlace, IsRight, row_at};
    ghost use Rattle.flp_round.specs.Verifier.{places_of, room_left, last_row};

    ghost row_of = { row_at };

    ghost last = { last_row };

    ghost room = { room_left };

    ghost done = { places_of };

    ghost right = { IsRight };

    ghost takes = { HasPlace };

    fn item(&self, place: u32, state: &mut Verifier) -> bool {
        let verdict = self.verify(place, state);
        state.note(place, verdict);
        verdict.is_accepted()
    }

    fn row<'b>(&self, state: &'b Verifier) -> &'b [Fe] {
        state.row()
    }
}
