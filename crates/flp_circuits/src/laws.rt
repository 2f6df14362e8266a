//! The laws of the standard circuits, each the contract of a function that does nothing. A caller's proof takes the law
//! from here; the statements are in `specs/Laws.antt`.
ghost use Rattle.flp_circuits.specs.Laws.{BitLengthsAreLeast, CircuitsAreWell, ChecksAreFormulas, EncodingsAreValid, EncodingsHaveLength, OutsAreVectors, CircuitsPass, PlansAreSmall};

/// The bit length of a number is the least exponent whose power of two is above it.
pub fn bit_lengths()
    ensures { BitLengthsAreLeast }
{}

/// Each standard circuit is well formed.
pub fn well_formed()
    ensures { CircuitsAreWell }
{}

/// The checks of a standard circuit are the formulas, for any words of an encoding and any joint words.
pub fn checks_are_formulas()
    ensures { ChecksAreFormulas }
{}

/// The encoding of a measurement that is not refused is valid under all joint words, has as many words as the
/// circuit reads, and its outs are the measurement's vector.
pub fn encodings()
    ensures valid { EncodingsAreValid }
    ensures lengths { EncodingsHaveLength }
    ensures vectors { OutsAreVectors }
{}

/// `check` finds no fault in the circuit of parameters that fit.
pub fn circuits_pass()
    ensures { CircuitsPass }
{}

/// A plan of the circuit of parameters that fit is within the limits on wires and terms.
pub fn plans_are_small()
    ensures { PlansAreSmall }
{}
