// A source and a sink over memory, which fail at chosen calls: fakes for tests of what reads and
// writes.
ghost use Rattle.std.specs.Prelude.{◌≡◌, ◌+◌, ◌||◌, ◌≤◌, ℕ, [], Some, if◌then◌else◌, is_err, length, max, min, nat_lt, IfOk, IsErr, IsOk, MatchResult, OnErr, OnOk};
ghost use Rattle.std.specs.Io.{ReadsAtMost, WritesAtMost};
ghost use Rattle.std.specs.Io.KnownBytes.{ReadConsumes, WriteAppends};
ghost use Rattle.flp_io.specs.Faults.{next_count, is_chosen, Uses, always_ready};
ghost use Rattle.flp_io.specs.Reads.{ReadsOn};
ghost use Rattle.flp_io.specs.SinkState.{spare_of, write_faults_of};
ghost use Rattle.flp_io.specs.SourceState.{read_faults_of};
ghost use Rattle.flp_io.specs.Writes.{TakesSome, WriteSpares};

use crate::copies::copy_front;
use crate::{Failed, Memory, Sink, Source};
use std::alloc::Global;
use std::marker::Model;

/// Gives the bytes of a `Vec`, at most `step` a call, and fails at chosen calls.
///
/// Calls are numbered from 0. The number stops at `u64::MAX`.
#[derive(Debug, Drop)]
pub struct MemorySource {
    bytes: Vec<u8>,
    at: usize,
    step: usize,
    fails: Vec<u64>,
    calls: u64,
    faults: u64,
}

impl Model for MemorySource {
    ghost use Rattle.std.specs.Prelude.{◌≤◌, drop, vec_len};
    ghost use Rattle.flp_io.specs.SourceState.{SourceState};

    ghost Value = { SourceState };

    ghost view = { λ s. record {
      left = drop s.at s.bytes.items;
      step = s.step;
      fails = s.fails.items;
      calls = s.calls;
      faults = s.faults;
    } };

    ghost invariant = { λ s. (s.at ≤ vec_len s.bytes) × (1 ≤ s.step) };
}

impl MemorySource {
    /// A source of these bytes that hands out at most `step` of them a call. The calls whose
    /// numbers stand in `fails` fail.
    pub fn new(bytes: Vec<u8>, step: usize, fails: Vec<u64>) -> MemorySource
        requires { 1 ≤ step }
        ensures left { result.left ≡ bytes.items }
        ensures settings { (result.step ≡ step) × (result.fails ≡ fails.items) }
        ensures counts { (result.calls ≡ 0) × (result.faults ≡ 0) }
    {
        MemorySource {
            bytes,
            at: 0,
            step,
            fails,
            calls: 0,
            faults: 0,
        }
    }
}

impl Source for MemorySource {
    ghost left = { λ s. Some s.left };

    ghost faults = { read_faults_of };

    ghost ready = { always_ready };

    fn read(&mut self, buf: &mut [u8]) -> Result<usize, Failed>
        ensures bound { ReadsAtMost result buf.new }
        ensures bytes { ReadConsumes (Some self.old.left) (Some self.new.left) result buf.new }
        ensures uses { Uses read_faults_of always_ready self.old self.new (IsErr result) (ReadsOn result buf.new) }

        // As many bytes as there are, the step allows and the buffer holds; a fault exactly where
        // one was chosen.
        ensures count { IfOk result
            (λ n. n ≡ min (min (length self.old.left) self.old.step) (length buf.new)) }
        ensures exact { is_err result ≡ is_chosen self.old.fails self.old.calls }

        ensures calls { self.new.calls ≡ next_count self.old.calls }
        ensures faults { self.new.faults
            ≡ (if is_err result then next_count self.old.faults else self.old.faults) }
        ensures no_fault { self.old.fails ≡ [] → IsOk result × (self.new.faults ≡ self.old.faults) }
        ensures settings { (self.new.step ≡ self.old.step) × (self.new.fails ≡ self.old.fails) }
    {
        let call = self.calls;
        self.calls = call.saturating_add(1);
        if self.fails.contains(&call) {
            self.faults = self.faults.saturating_add(1);
            return Err(Failed);
        }
        let count = copy_front(&self.bytes[self.at..], self.step, buf);
        self.at += count;
        Ok(count)
    }
}

/// Takes bytes into a `Vec`, at most `step` a call, and fails at chosen calls and where its room
/// is short of the piece.
///
/// Calls are numbered from 0. The number stops at `u64::MAX`.
#[derive(Debug, Drop)]
pub struct MemorySink {
    bytes: Vec<u8>,
    room: usize,
    step: usize,
    fails: Vec<u64>,
    calls: u64,
    faults: u64,
}

impl Model for MemorySink {
    ghost use Rattle.std.specs.Prelude.{◌+◌, ◌≤◌, vec_len, vec_capacity};
    ghost use Rattle.flp_io.specs.SinkState.{SinkState};

    ghost Value = { SinkState };

    ghost view = { λ s. record {
      taken = s.bytes.items;
      room = s.room;
      step = s.step;
      fails = s.fails.items;
      calls = s.calls;
      faults = s.faults;
    } };

    ghost invariant = { λ s. (vec_len s.bytes + s.room ≤ vec_capacity s.bytes) × (1 ≤ s.step) };
}

impl MemorySink {
    /// An empty sink with no room that takes at most `step` bytes a call. The calls whose numbers
    /// stand in `fails` fail. It keeps the allocator, and takes no memory yet.
    pub fn new(alloc: Global, step: usize, fails: Vec<u64>) -> MemorySink
        requires { 1 ≤ step }
        ensures taken { (result.taken ≡ []) × (result.room ≡ 0) }
        ensures settings { (result.step ≡ step) × (result.fails ≡ fails.items) }
        ensures counts { (result.calls ≡ 0) × (result.faults ≡ 0) }
    {
        MemorySink {
            bytes: Vec::new(alloc),
            room: 0,
            step,
            fails,
            calls: 0,
            faults: 0,
        }
    }

    /// Makes the room at least `bytes`. It is never refused where the room is as large already.
    pub fn reserve(&mut self, bytes: usize) -> Result<(), Memory>
        ensures ok { OnOk result (self.new ≡ record self.old { room = max self.old.room bytes }) }
        ensures err { OnErr result (self.new ≡ self.old) }
        ensures enough { bytes ≤ self.old.room → IsOk result }
    {
        if self.room < bytes {
            self.bytes.reserve(bytes)?;
            self.room = bytes;
        }
        Ok(())
    }

    /// The bytes that it took.
    pub fn taken(&self) -> &[u8]
        ensures { result.now ≡ self.now.taken }
    {
        self.bytes.as_slice()
    }

    /// The bytes that it took, without copying them.
    pub fn into_bytes(self) -> Vec<u8>
        ensures { result.items ≡ self.taken }
    {
        self.bytes
    }
}

impl Sink for MemorySink {
    ghost taken = { λ s. Some s.taken };

    ghost faults = { write_faults_of };

    ghost spare = { spare_of };

    ghost ready = { always_ready };

    fn write(&mut self, piece: &[u8]) -> Result<usize, Failed>
        ensures bound { WritesAtMost result piece.now }
        ensures some { TakesSome result piece.now }
        ensures bytes { WriteAppends (Some self.old.taken) (Some self.new.taken) result piece.now }
        ensures room { WriteSpares (spare_of self.old) (spare_of self.new) result
            (length piece.now) }
        ensures uses { Uses write_faults_of always_ready self.old self.new (IsErr result) (IsOk result) }

        // As many bytes as the step allows; a fault exactly where one was chosen or the piece is
        // longer than the room.
        ensures count { IfOk result (λ n. n ≡ min (length piece.now) self.old.step) }
        ensures exact { is_err result ≡ (is_chosen self.old.fails self.old.calls
            || nat_lt self.old.room (length piece.now)) }

        ensures left_room { MatchResult result
            (λ n. self.new.room + n ≡ self.old.room) (λ _. self.new.room ≡ self.old.room) }
        ensures calls { self.new.calls ≡ next_count self.old.calls }
        ensures faults { self.new.faults
            ≡ (if is_err result then next_count self.old.faults else self.old.faults) }
        ensures settings { (self.new.step ≡ self.old.step) × (self.new.fails ≡ self.old.fails) }
    {
        let call = self.calls;
        self.calls = call.saturating_add(1);
        if self.fails.contains(&call) || self.room < piece.len() {
            self.faults = self.faults.saturating_add(1);
            return Err(Failed);
        }
        let count = piece.len().min(self.step);
        match self.bytes.extend_from_slice(&piece[..count]) {
            Ok(()) => {}
            Err(_) => unreachable!("the room was reserved"),
        }
        self.room -= count;
        Ok(count)
    }
}
