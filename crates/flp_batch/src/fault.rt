//! Why a walk through a batch ends early.
ghost use Rattle.std.specs.Prelude.{◌≡◌};
ghost use Rattle.flp_batch.specs.Fault.{fault_from, fault_of_text};
ghost use Rattle.flp_batch.specs.declared.fault.EngineFault.TheVariants.{Memory as OutOfMemory};

use flp_load::{CircuitFault, LoadFault};
use flp_report::{BatchFault, ReadFault};
use std::alloc::AllocError;
use thiserror::Error;

/// Why a walk through a batch ends early.
#[derive(Clone, Copy, Debug, PartialEq, Eq, Error)]
pub enum EngineFault {
    /// Want of memory.
    #[error("no memory")]
    Memory,
    /// The input failed.
    #[error("the input failed")]
    Read,
    /// The output failed.
    #[error("the output failed")]
    Write,
    /// The input is no batch.
    #[error("the input is no batch: {0:?}")]
    Batch(BatchFault),
    /// The text of the batch is no circuit's.
    #[error("{0}")]
    Circuit(CircuitFault),
}

impl From<AllocError> for EngineFault {
    ghost from_gives = { λ _ fault. fault ≡ OutOfMemory };

    fn from(_: AllocError) -> EngineFault {
        EngineFault::Memory
    }
}

impl From<ReadFault> for EngineFault {
    ghost from_gives = { λ read fault. fault ≡ fault_from read };

    fn from(fault: ReadFault) -> EngineFault {
        match fault {
            ReadFault::Memory => EngineFault::Memory,
            ReadFault::Failed => EngineFault::Read,
            ReadFault::Batch(fault) => EngineFault::Batch(fault),
        }
    }
}

impl From<LoadFault> for EngineFault {
    ghost from_gives = { λ load fault. fault ≡ fault_of_text load };

    fn from(fault: LoadFault) -> EngineFault {
        match fault {
            LoadFault::Memory => EngineFault::Memory,
            LoadFault::Circuit(fault) => EngineFault::Circuit(fault),
        }
    }
}
