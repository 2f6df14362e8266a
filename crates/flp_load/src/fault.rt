//! Why a circuit text is not loaded.
use flp_circuits::ParamFault;
use flp_plan::PlanFault;
use flp_syntax::LangFault;
use thiserror::Error;

/// Why a circuit text is refused: its first fault. None of them is want of memory.
#[derive(Debug, Clone, Copy, PartialEq, Eq, Error)]
pub enum CircuitFault {
    /// The text is no circuit text, or its body is no circuit.
    #[error("the text is refused: {0:?}")]
    Lang(LangFault),
    /// The parameters of a standard circuit are refused.
    #[error("the parameters are refused: {0:?}")]
    Param(ParamFault),
    /// The circuit is too large for a plan.
    #[error("the circuit is refused: {0:?}")]
    Plan(PlanFault),
}

/// Why a circuit text is not loaded.
#[derive(Debug, Clone, Copy, PartialEq, Eq, Error)]
pub enum LoadFault {
    /// No memory was left.
    #[error("no memory")]
    Memory,
    /// The text is refused.
    #[error("{0}")]
    Circuit(CircuitFault),
}
