//! Why parameters and measurements are refused.
use std::alloc::{AllocError, AllocFailed};

/// A parameter of a standard circuit, or a number that its parameters give.
#[derive(Debug, Clone, Copy, PartialEq, Eq)]
pub enum Param {
    /// The greatest number of a sum.
    Max,
    /// How many numbers or buckets there are.
    Length,
    /// How many bits each number has.
    Bits,
    /// How many words of the encoding a call of the gadget takes.
    Chunk,
    /// How many numbers may be 1.
    Weight,
    /// How many words the encoding has.
    Meas,
    /// How many calls of the gadget there are.
    Calls,
}

/// Why parameters are refused.
#[derive(Debug, Clone, Copy, PartialEq, Eq)]
pub enum ParamFault {
    /// No memory was left.
    Memory,
    /// A parameter is 0.
    Zero(Param),
    /// A parameter, or a number that parameters give, is above its limit: its value.
    TooLarge(Param, u64),
}

/// Why a measurement is refused.
#[derive(Debug, Clone, Copy, PartialEq, Eq)]
pub enum MeasFault {
    /// The circuit takes another count of numbers: the count that was given.
    Count(u64),
    /// The first number out of range: its place, from 0, and the number.
    Range(u32, u64),
    /// More numbers are 1 than the weight: how many.
    Weight(u64),
}

impl From<AllocError> for ParamFault {
    ghost use Rattle.std.specs.Prelude.{◌≡◌};
    ghost use Rattle.flp_circuits.specs.declared.fault.ParamFault.TheVariants.{Memory};

    ghost from_gives = { λ _ fault. fault ≡ Memory };

    fn from(_: AllocError) -> ParamFault {
        ParamFault::Memory
    }
}

impl<T: Drop> From<AllocFailed<T>> for ParamFault {
    ghost use Rattle.std.specs.Prelude.{◌≡◌};
    ghost use Rattle.flp_circuits.specs.declared.fault.ParamFault.TheVariants.{Memory};

    ghost from_gives = { λ _ fault. fault ≡ Memory };

    fn from(_: AllocFailed<T>) -> ParamFault {
        ParamFault::Memory
    }
}
