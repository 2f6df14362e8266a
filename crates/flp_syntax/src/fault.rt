//! Why a circuit text is refused.
use std::alloc::{AllocError, AllocFailed};

/// Why a circuit text is refused, and where.
///
/// `Lex` carries the place of a byte, the faults that carry a `u32` else the number of a token, from 0; `Uncalled` the
/// number of a gadget. `parse` gives `TextLength`, `Lex`, `Syntax` and `Depth`.
#[derive(Debug, Clone, Copy, PartialEq, Eq)]
pub enum LangFault {
    /// No memory was left.
    Memory,
    /// The text is longer than 65,536 bytes: its length.
    TextLength(u64),
    /// The first byte at which no blank, comment or token begins.
    Lex(u32),
    /// The least token with which no circuit text goes on, or the number of tokens where the text ends too early.
    Syntax(u32),
    /// A called name that is no gadget, or a used name that is no loop variable in scope.
    Name(u32),
    /// A name that is taken.
    Twice(u32),
    /// A product, a power or an output that is not linear.
    NotLinear(u32),
    /// An index out of range.
    Index(u32),
    /// A call whose number of arguments is not its gadget's arity.
    Arity(u32),
    /// A gadget without a call.
    Uncalled(u32),
    /// A count that is past its limit.
    Limit(Counted, u64),
    /// The least token that opens the 65th level, where the tokens up to it can go on as a circuit text.
    Depth(u32),
}

/// What a limit counts.
#[derive(Debug, Clone, Copy, PartialEq, Eq)]
pub enum Counted {
    /// Words of an encoding.
    Meas,
    /// Joint words.
    Joint,
    /// Declared gadgets.
    Gadgets,
    /// Inputs of a gadget.
    Arity,
    /// The degree of a gadget.
    Degree,
    /// Nodes that are met.
    Visits,
    /// Calls of a gadget.
    Calls,
    /// Checks.
    Checks,
    /// Outputs.
    Outs,
}

impl From<AllocError> for LangFault {
    ghost use Rattle.std.specs.Prelude.{◌≡◌};
    ghost use Rattle.flp_syntax.specs.declared.fault.LangFault.TheVariants.{Memory};

    ghost from_gives = { λ _ fault. fault ≡ Memory };

    fn from(_: AllocError) -> LangFault {
        LangFault::Memory
    }
}

impl<T: Drop> From<AllocFailed<T>> for LangFault {
    ghost use Rattle.std.specs.Prelude.{◌≡◌};
    ghost use Rattle.flp_syntax.specs.declared.fault.LangFault.TheVariants.{Memory};

    ghost from_gives = { λ _ fault. fault ≡ Memory };

    fn from(_: AllocFailed<T>) -> LangFault {
        LangFault::Memory
    }
}
