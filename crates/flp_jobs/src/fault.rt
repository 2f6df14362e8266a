//! Why no batch is made, or not the whole of it is written.
ghost use Rattle.std.specs.Prelude.{◌≡◌};
ghost use Rattle.flp_batch.specs.declared.fault.EngineFault.TheVariants.{Memory as OutOfMemory};
ghost use Rattle.flp_jobs.specs.declared.fault.ProveFault.TheVariants.{File as OfFile};

use flp_batch::EngineFault;
use std::alloc::AllocError;

/// Why no report is made of a job.
#[derive(Clone, Copy, Debug, PartialEq, Eq)]
pub enum PlaceFault {
    /// The first number of the measurement that is out of range, by its place among them, from 0.
    Range { number: u32, value: u64 },
    /// More numbers of the measurement are 1 than the weight: how many.
    Weight(u64),
    /// The least check that is not 0 under the joint words of the least such proof, both from 0.
    Check { check: u32, proof: u32 },
}

/// Why no batch is made of an input, or why it is not written whole.
#[derive(Clone, Copy, Debug, PartialEq, Eq)]
pub enum ProveFault {
    /// The input is no job file, or its text no circuit's; or a call failed, or memory was not found.
    File(EngineFault),
    /// The least place, from 0, of a job of which no report is made, and why.
    Place(u32, PlaceFault),
}

impl From<EngineFault> for ProveFault {
    ghost from_gives = { λ engine fault. fault ≡ OfFile engine };

    fn from(fault: EngineFault) -> ProveFault {
        ProveFault::File(fault)
    }
}

impl From<AllocError> for ProveFault {
    ghost from_gives = { λ _ fault. fault ≡ OfFile OutOfMemory };

    fn from(_: AllocError) -> ProveFault {
        ProveFault::File(EngineFault::Memory)
    }
}
