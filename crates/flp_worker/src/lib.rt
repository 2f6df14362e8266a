//! One record of a batch, whose proofs are queried share by share.
//!
//! A [`Worker`] is made once for a plan and a shape, and answers for each record whether it counts, its nonce apart.
//! Each share is queried for itself, and the sums of the shares' verifiers decide; what comes out is the verdict on
//! the unshared encoding and the unshared proofs, as `specs/Verdict.antt` defines it. After that the worker lends
//! the outs of the unshared encoding, and the verifier of each share for each proof.
//!
//! [`Words`] are those of one record, with their parts and the sums over the shares.
//!
//! [`Worker::new`] alone takes memory.
//!
//! The way of a record is after that of Prio3 in the VDAF draft of the IETF, with any number of proofs.
#![tactic(auto)]

mod row;
mod verify;
mod words;
mod worker;

/// Want of memory.
pub use std::alloc::AllocError as Memory;
pub use words::Words;
pub use worker::Worker;
