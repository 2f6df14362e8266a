//! Why no batch is made.
ghost use Rattle.std.specs.Prelude.{◌≡◌};
ghost use Rattle.flp_generator.specs.declared.fault.GeneratorFault.TheVariants.{Memory as OutOfMemory};

use std::alloc::AllocError;

/// Why no batch is made.
#[derive(Clone, Copy, Debug, PartialEq, Eq)]
pub enum GeneratorFault {
    /// There was no memory for it.
    Memory,
    /// A record, or else the whole batch, has too many bytes: how many.
    TooLarge(u64),
}

impl From<AllocError> for GeneratorFault {
    ghost from_gives = { λ _ fault. fault ≡ OutOfMemory };

    fn from(_: AllocError) -> GeneratorFault {
        GeneratorFault::Memory
    }
}
