//! The commands of parties that keep their shares to themselves: each has a file with its own share of a batch alone.
//!
//! [`deal`] makes the share file of one party from a batch. `specs/Share.antt` says what stands in such a file, and its
//! contract says that it writes this file, as a function of the bytes that it reads.
#![tactic(auto)]

mod command;
mod dealing;
mod share_head;

pub use command::deal;
pub use flp_batch::EngineFault;

/// Want of memory, as std's allocators answer it.
pub use std::alloc::AllocError as Memory;
