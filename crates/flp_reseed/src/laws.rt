//! The law of what `hide` prints, the contract of a function that does nothing. The statement is in `specs/Laws.antt`.
ghost use Rattle.flp_reseed.specs.Laws.{SeedsMatch};

/// In each job file of which lines are printed, the printed seeds of a proof match those of the first place: the wires of
/// both encodings have the same values at the query points, with no other seeds they have, reseeding back gives the first
/// place's seeds, and the honest proofs of both encodings have the same verifier.
pub fn seeds_match()
    ensures { SeedsMatch }
{
    flp_load::laws::loaded_is_bounded();
}
