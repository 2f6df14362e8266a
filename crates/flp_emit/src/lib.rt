//! The compiler's core: from a circuit to public values in a straight line and linear forms over them.
//!
//! [`emit`] unrolls the loops of a circuit. Each public expression becomes a step of a straight line, each check, out
//! and input of a call a linear form over the words of an encoding, the answers of earlier calls and the unit. Under
//! all joint words and on every share the values of these forms are those that the circuit means when its calls are
//! answered by a list (`specs/Code.antt`). `specs/Fitting.antt` says which circuits have code.
//!
//! Such code is an arithmetic circuit of affine gates and gadget calls, as in the chapter "Fully Linear Proofs" of the
//! VDAF draft of the IETF, after Boneh et al., "Zero-Knowledge Proofs on Secret-Shared Data via Fully Linear PCPs",
//! CRYPTO 2019.
#![tactic(auto)]

mod body;
mod code;
mod index;
mod made;
mod marks;
mod public;
mod scope;
mod shared;
mod sorts;
mod stmt;
mod terms;
mod value;

pub use body::emit;
pub use code::{CallForms, Code};
pub use terms::term_count;
/// Want of memory.
pub use std::alloc::AllocError as Memory;
