//! What holds in every schedule: each kind of step keeps the rule from any state that meets it, and what the rule says.
//! Each function's contract is the law; none does anything when it runs.
ghost use Rattle.flp_tally.specs.Kinds.{Keeps, SplitStep, JoinStep, ClaimStep, AddStep, NoteStep, PeekStep, LearnStep, NeverWraps, ClaimedOnce, BitIsClaimed, SeenIsClaimedBySome, AddedOnce};
ghost use Rattle.flp_tally.specs.StepKinds.{ClaimsAreSteps, PeeksAreSteps, AddsAreSteps, NotesAreSteps, LearnsAreSteps, SplitsAreSteps, JoinsAreSteps};

/// Each step that a call of a tally makes is of one of the kinds, by what it tells its seat.
pub fn steps_are_kinds()
    ensures splits { SplitsAreSteps }
    ensures joins { JoinsAreSteps }
    ensures claims { ClaimsAreSteps }
    ensures adds { AddsAreSteps }
    ensures notes { NotesAreSteps }
    ensures peeks { PeeksAreSteps }
    ensures learns { LearnsAreSteps }
{}

/// A split keeps the rule.
pub fn split_keeps_the_rule()
    ensures { Keeps SplitStep }
{}

/// A join keeps the rule.
pub fn join_keeps_the_rule()
    ensures { Keeps JoinStep }
{}

/// A claim keeps the rule.
pub fn claim_keeps_the_rule()
    ensures { Keeps ClaimStep }
{}

/// An addition to a cell keeps the rule.
pub fn add_keeps_the_rule()
    ensures { Keeps AddStep }
{}

/// An entry with the amount 0 that joins by a load keeps the rule.
pub fn note_keeps_the_rule()
    ensures { Keeps NoteStep }
{}

/// A look at a claim bit keeps the rule.
pub fn peek_keeps_the_rule()
    ensures { Keeps PeekStep }
{}

/// The load by which a joined seat learns keeps the rule.
pub fn learn_keeps_the_rule()
    ensures { Keeps LearnStep }
{}

/// No sum in a cell wraps.
pub fn cells_never_wrap()
    ensures { NeverWraps }
{}

/// No number is claimed twice, by one seat or by two.
pub fn claimed_once()
    ensures { ClaimedOnce }
{}

/// A claim bit is set exactly where its number is claimed.
pub fn bit_is_claimed()
    ensures { BitIsClaimed }
{}

/// A number that a seat has seen is claimed by some seat.
pub fn seen_is_claimed()
    ensures { SeenIsClaimedBySome }
{}

/// An entry's number is claimed by the seat that added it, and no seat adds to one cell twice under one number.
pub fn added_once()
    ensures { AddedOnce }
{}
