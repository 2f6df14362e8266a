//! The laws of loading, each the contract of a function that does nothing. The statements are in `specs/Laws.antt`.
ghost use Rattle.flp_load.specs.Laws.{OneCircuit, OneFault, NeverBoth, FittingIsLoaded, LoadedIsBounded};

/// A text is loaded as one circuit, has one first fault, and not both.
pub fn one_answer()
    ensures circuit { OneCircuit }
    ensures fault { OneFault }
    ensures never_both { NeverBoth }
{}

/// A text that names a standard circuit by parameters that fit is loaded.
pub fn fitting_is_loaded()
    ensures { FittingIsLoaded }
{}

/// A circuit that is loaded is within the limits on gadgets and their calls.
pub fn loaded_is_bounded()
    ensures { LoadedIsBounded }
{}
