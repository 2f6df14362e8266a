//! Batched writing.
ghost use Rattle.std.specs.Prelude.{◌≡◌, ◌≤◌, ◌+◌, ◌++◌, [], length, IfOk, OnOk, IsErr, IsOk};
ghost use Rattle.flp_io.specs.Block.{Passes};
ghost use Rattle.flp_io.specs.Faults.{Uses};
ghost use Rattle.flp_io.specs.Writes.{TakesPrefix, WritesTo};

use crate::{Failed, Memory, Sink, put};
use std::alloc::Global;
use std::marker::Model;

/// How many bytes a block holds back at most.
const ROOM: usize = 16_384;

/// Holds back bytes for a sink, so that many small pieces are written by few calls.
///
/// The sink is handed in at each call, always the same one; what the block holds is the bytes that it
/// was given and the sink was not. Contracts see these bytes. They are lost when the block is dropped,
/// so end with [`flush`](Block::flush). Its room of 16,384 bytes is taken at [`new`](Block::new), and
/// no call takes memory afterwards.
#[derive(Debug, Drop)]
pub struct Block {
    bytes: Vec<u8>,
}

impl Model for Block {
    ghost use Rattle.std.specs.Prelude.{◌≤◌, ℕ, List, vec_len, vec_capacity};

    ghost Value = { List ℕ };

    ghost view = { λ b. b.bytes.items };

    ghost invariant = { λ b. (16384 ≤ vec_capacity b.bytes) × (vec_len b.bytes ≤ 16384) };
}

impl Block {
    /// A block that holds nothing.
    ///
    /// # Errors
    /// There was no memory for its room.
    pub fn new(alloc: Global) -> Result<Block, Memory>
        ensures { IfOk result (λ block. block ≡ []) }
    {
        let mut bytes = Vec::new(alloc);
        bytes.reserve(ROOM)?;
        Ok(Block { bytes })
    }

    /// Puts a piece behind what the block holds. Where both do not fit into its room, it writes what it
    /// holds, and a piece that is longer than the room behind that.
    ///
    /// # Errors
    /// The sink failed. It then took a prefix of what was held and the piece, and is not to be written
    /// to again.
    #[tactic(auto, using(crate::proofs::BlockLemmas::block_steps))]
    pub fn push<K: Sink>(&mut self, sink: &mut K, piece: &[u8]) -> Result<(), Failed>
        requires ready { K.ready sink.old }
        ensures passes { OnOk result (Passes (K.taken sink.old) self.old piece.now (K.taken sink.new) self.new) }
        ensures front { TakesPrefix (K.taken sink.old) (K.taken sink.new) (self.old ++ piece.now) }
        ensures uses { Uses K.faults K.ready sink.old sink.new (IsErr result) (IsOk result) }
    {
        if piece.len() <= ROOM - self.bytes.len() {
            self.hold(piece);
            return Ok(());
        }
        self.flush(sink)?;
        if piece.len() <= ROOM {
            self.hold(piece);
            return Ok(());
        }
        put(sink, piece)
    }

    // Puts a piece for which there is room behind what the block holds.
    fn hold(&mut self, piece: &[u8])
        requires { length self.old + length piece.now ≤ 16384 }
        ensures { self.new ≡ self.old ++ piece.now }
    {
        match self.bytes.extend_from_slice(piece) {
            Ok(()) => {}
            Err(_) => unreachable!("the room was reserved"),
        }
    }

    /// Writes what the block holds, which is nothing afterwards.
    ///
    /// # Errors
    /// The sink failed. It then took a prefix of what was held, and is not to be written to again.
    pub fn flush<K: Sink>(&mut self, sink: &mut K) -> Result<(), Failed>
        requires ready { K.ready sink.old }
        ensures sink { WritesTo K.taken K.faults K.spare K.ready sink.old sink.new self.old result }
        ensures none { OnOk result (self.new ≡ []) }
    {
        put(sink, self.bytes.as_slice())?;
        self.bytes.clear();
        Ok(())
    }
}
