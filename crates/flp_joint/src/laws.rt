//! The laws of encodings and of joint words, each the contract of a function that does nothing. A caller's proof takes the
//! law from here; the statements are in `specs/Laws.antt`.
ghost use Rattle.flp_joint.specs.Laws.{EncodingsHaveOneInput, CaughtMeans};

/// No words are the encoding of two measurements.
pub fn one_input()
    ensures { EncodingsHaveOneInput }
{
    flp_circuits::laws::bit_lengths();
}

/// What [`joint_word`](crate::joint_word) tells of words holds.
///
/// Where it tells nothing, they are the encoding of a measurement. Where it is never, they are valid under no joint words.
/// Where it is a word with a bound, that is the joint word of the least call of the range check that has a word other than 0
/// and 1; the words are valid under joint words that are all 0, and, whatever the other joint words are, under at most as many
/// values of that word as the bound says, and with k proofs under at most the bound's k-th power of lists of values.
pub fn joint_words()
    ensures { CaughtMeans }
{
    flp_circuits::laws::bit_lengths();
    flp_circuits::laws::checks_are_formulas();
}
