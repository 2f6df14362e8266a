//! The laws of the definitions, each the contract of a function that does nothing. A caller's proof takes
//! the law from here; the statements are in `specs/MeaningLaws.antt`, `specs/LinearLaws.antt` and
//! `specs/ProofLaws.antt`.
ghost use Rattle.flp_meaning.specs.MeaningLaws.{GadgetsAreFixed, CallsAreFixed, ChecksAreFixed, OutsAreFixed};
ghost use Rattle.flp_meaning.specs.MeaningLaws.{AnsweredIsDirect, CallsAreFilled, FailingCheckIsFound};
ghost use Rattle.flp_meaning.specs.LinearLaws.{OutsReadWordsAlone, VerifiersHaveLength, VerifiersSumUp};
ghost use Rattle.flp_meaning.specs.ProofLaws.{FirstIsFound, LeastPower, DomainsHold, WiresRunThrough};
ghost use Rattle.flp_meaning.specs.ProofLaws.{HonestProofHasLength, HonestProofHasParts, HonestProofAnswers};
ghost use Rattle.flp_meaning.specs.ProofLaws.{HonestProofProves, HonestProofIsAccepted, DecisionsMean, TrueProofsAreDirect};
ghost use Rattle.flp_meaning.specs.Examples.{CountExample, CubeExample, HalfExample, HistogramExample};

/// Under every reading the calls are of the same gadgets in the same order, and there are as many checks and as
/// many outs.
pub fn counts_are_fixed()
    ensures gadgets { GadgetsAreFixed }
    ensures calls { CallsAreFixed }
    ensures checks { ChecksAreFixed }
    ensures outs { OutsAreFixed }
{}

/// With the calls' own values as answers, and 1 as unit, the answered reading is the direct one. With those of
/// the first k calls it makes the same calls up to the next one.
pub fn answered_is_direct()
    ensures own { AnsweredIsDirect }
    ensures filled { CallsAreFilled }
{}

/// An encoding that is not valid fails at the least check that is not 0.
pub fn failing_check()
    ensures { FailingCheckIsFound }
{}

/// In a linear circuit the outs depend on the encoding alone.
pub fn outs_read_words_alone()
    ensures { OutsReadWordsAlone }
{}

/// A verifier has the length that the circuit says. In a linear circuit the verifiers of any number of shares,
/// each made by the same query, sum up word by word to the verifier of the summed shares.
pub fn verifiers_sum_up()
    ensures length { VerifiersHaveLength }
    ensures many { VerifiersSumUp }
{}

/// The first number that passes a test is found, and so is the least power of two that is at least a number.
pub fn least_numbers()
    ensures first { FirstIsFound }
    ensures power { LeastPower }
{}

/// The domain of a gadget has a point for each call and one more, and at most 4,096. On it each wire takes its
/// seed and then its input of each call.
pub fn wires()
    ensures domains { DomainsHold }
    ensures values { WiresRunThrough }
{}

/// The honest proof has the length that the circuit says, and for each gadget the seeds and the formula at the
/// wires. It answers each call by the call's own value, so that the circuit, read with its answers, is the
/// circuit in the direct reading.
pub fn honest_proof()
    ensures length { HonestProofHasLength }
    ensures parts { HonestProofHasParts }
    ensures answers { HonestProofAnswers }
    ensures proves { HonestProofProves }
{}

/// The honest proof of a valid encoding is accepted by each query none of whose points lies in a domain.
pub fn honest_is_accepted()
    ensures { HonestProofIsAccepted }
{}

/// A verifier is taken exactly where its check is 0 and, at the point of each gadget, the formula at the wires
/// has the value of the proof's polynomial.
pub fn decisions()
    ensures { DecisionsMean }
{}

/// Where a proof's polynomial for each gadget is the formula at the wires, which are those of the proof's own
/// answers, the circuit, read with these answers, is the circuit in the direct reading.
pub fn true_proofs()
    ensures { TrueProofsAreDirect }
{}

/// What the definitions give for Count, with its honest proof, verifier and share at the point 2; for a circuit
/// with a call inside a call; for a public constant on half a share; and for a histogram of four buckets.
pub fn examples()
    ensures count { CountExample }
    ensures cube { CubeExample }
    ensures half { HalfExample }
    ensures histogram { HistogramExample }
{}
