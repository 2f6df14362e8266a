//! The laws of the batch that is made, each the contract of a function that does nothing. The statements are in
//! `specs/Laws.antt`.
ghost use Rattle.flp_generator.specs.Laws.{TrialsAreBatches, WordsStayOut};

/// What is made is a batch of the circuit of its text, with the records of all places.
pub fn trials_are_batches()
    ensures { TrialsAreBatches }
{
    flp_load::laws::loaded_is_bounded();
}

/// No word of the sequence with an exponent of at most 2^50 lies in a domain that a gadget can have. The query points of a
/// place are such words, but where the place's change is of its point.
pub fn words_stay_out()
    ensures { WordsStayOut }
{}
