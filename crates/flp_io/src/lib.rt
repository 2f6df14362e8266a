//! Sources and sinks of bytes, whose faults are counted.
//!
//! A [`Source`] gives bytes and a [`Sink`] takes them. Contracts know of each what it has left or
//! has taken, where it tells that, and a count of its faults. A call answers [`Failed`] only where
//! that count rose in the call, so every refusal above that speaks of a failed read or write can
//! show its cause. And they know whether a source or a sink may be called: after a failure, and
//! behind the end, nothing says so any more, so no code over them calls it again.
//!
//! | To | Use |
//! |---|---|
//! | read until a buffer is full or the input ends | [`fill`] |
//! | write a whole piece | [`put`] |
//! | write many small pieces by few calls | [`Block`] |
//! | read from or write to files, standard streams and the like | [`ReaderSource`], [`WriterSink`] |
//! | test a caller: short reads and writes, faults at chosen calls, no room | [`MemorySource`], [`MemorySink`] |
//! | parse bytes that lie in memory | [`SureSource`] |
//! | drop what is written | [`NullSink`] |
//!
//! Every loop over a source or a sink rests on [`fill`] and [`put`]. Counts are of bytes.
#![tactic(auto)]

mod adapters;
mod block;
mod copies;
mod failed;
pub mod laws;
mod memory;
mod null;
mod sink;
mod source;
mod sure;

pub use adapters::{ReaderSource, WriterSink};
pub use block::Block;
pub use failed::Failed;
pub use memory::{MemorySink, MemorySource};
pub use null::NullSink;
pub use sink::{Sink, put};
pub use source::{Source, fill};
pub use sure::SureSource;

/// Want of memory, as std's allocators answer it.
pub use std::alloc::AllocError as Memory;
