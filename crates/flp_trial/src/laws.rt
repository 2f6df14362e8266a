//! The laws of what `trial` replies, each the contract of a function that does nothing. The statements are in
//! `specs/Laws.antt` and `specs/Places.antt`.
ghost use Rattle.flp_trial.specs.Laws.{OneTrial, OneFault, NeverBoth};
ghost use Rattle.flp_trial.specs.Places.{TrialsAreFound};

/// An input has one trial with one text, or is refused for one cause, and not both.
pub fn one_answer()
    ensures trial { OneTrial }
    ensures fault { OneFault }
    ensures never_both { NeverBoth }
{
    flp_load::laws::one_answer();
}

/// Of each eight places the first four are accepted, where they encode what is valid; and of the others the first is
/// rejected, where no answer of a call enters another, the second is in the domain of the first gadget, the third is
/// malformed at its first word, and the last is replayed. Standard circuits encode what is valid, and no answer enters
/// their calls: so of eight times so many places half are accepted, and an eighth has each other verdict.
pub fn places()
    ensures { TrialsAreFound }
{
    flp_circuits::laws::encodings();
    flp_load::laws::loaded_is_bounded();
    flp_verdict::laws::once();
    flp_verdict::laws::honest();
    flp_generator::laws::words_stay_out();
}
