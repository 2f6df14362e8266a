//! Why a circuit is not compiled.
use std::alloc::{AllocError, AllocFailed};

/// Why a circuit is not compiled.
#[derive(Debug, Clone, Copy, PartialEq, Eq)]
pub enum PlanFault {
    /// No memory was left.
    Memory,
    /// A count that is past its limit: the whole count.
    Limit(PlanCounted, u64),
}

/// What compiling limits. The wires are counted first.
#[derive(Debug, Clone, Copy, PartialEq, Eq)]
pub enum PlanCounted {
    /// The points of all wires: for each gadget its inputs times the size of its domain.
    Wires,
    /// The terms of the linear forms of all inputs of calls, checks and outs.
    Terms,
}

impl From<AllocError> for PlanFault {
    ghost use Rattle.std.specs.Prelude.{◌≡◌};
    ghost use Rattle.flp_plan.specs.declared.fault.PlanFault.TheVariants.{Memory};

    ghost from_gives = { λ _ fault. fault ≡ Memory };

    fn from(_: AllocError) -> PlanFault {
        PlanFault::Memory
    }
}

impl<T: Drop> From<AllocFailed<T>> for PlanFault {
    ghost use Rattle.std.specs.Prelude.{◌≡◌};
    ghost use Rattle.flp_plan.specs.declared.fault.PlanFault.TheVariants.{Memory};

    ghost from_gives = { λ _ fault. fault ≡ Memory };

    fn from(_: AllocFailed<T>) -> PlanFault {
        PlanFault::Memory
    }
}
