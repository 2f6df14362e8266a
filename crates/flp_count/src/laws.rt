//! The law of lists of choices, the contract of a function that does nothing. A caller's proof takes it from here.
ghost use Rattle.flp_count.specs.Laws.{ChoicesAreFew};

/// Where each test takes few choices, at most the product of these counts are lists of one choice for each test that it
/// takes.
pub fn choices_are_few()
    ensures { ChoicesAreFew }
{}
