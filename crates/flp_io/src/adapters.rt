// std's readers and writers as sources and sinks: the edge to the outside, whose behaviour std
// states.
ghost use Rattle.std.specs.Prelude.{◌≡◌, None, if◌then◌else◌, is_err, length, IsErr, IsOk};
ghost use Rattle.std.specs.Io.{ReadsAtMost, WritesAtMost};
ghost use Rattle.std.specs.Io.KnownBytes.{ReadConsumes, WriteAppends};
ghost use Rattle.flp_io.specs.Adapters.{reader_of, read_faults, writer_of, write_faults};
ghost use Rattle.flp_io.specs.Faults.{next_count, Uses, always_ready};
ghost use Rattle.flp_io.specs.Reads.{ReadsOn};
ghost use Rattle.flp_io.specs.Writes.{TakesSome, WriteSpares};

use crate::{Failed, Sink, Source};
use std::io::{Read, Write};

/// A reader as a source. It tells the bytes that the reader tells, which a file or a terminal does
/// not, and counts each error of the reader.
#[derive(Debug, Drop)]
pub struct ReaderSource<R> {
    reader: R,
    faults: u64,
}

impl<R: Read> ReaderSource<R> {
    /// A source that reads from `reader`, with no fault so far.
    pub fn new(reader: R) -> ReaderSource<R>
        ensures reader { reader_of result ≡ reader }
        ensures faults { read_faults result ≡ 0 }
    {
        ReaderSource { reader, faults: 0 }
    }
}

impl<R: Read> Source for ReaderSource<R> {
    ghost left = { λ s. R.remaining (reader_of s) };

    ghost faults = { read_faults };

    ghost ready = { always_ready };

    fn read(&mut self, buf: &mut [u8]) -> Result<usize, Failed>
        ensures bound { ReadsAtMost result buf.new }
        ensures bytes { ReadConsumes (R.remaining (reader_of self.old))
            (R.remaining (reader_of self.new)) result buf.new }
        ensures uses { Uses read_faults always_ready self.old self.new (IsErr result) (ReadsOn result buf.new) }
        ensures exact { read_faults self.new
            ≡ (if is_err result then next_count (read_faults self.old) else read_faults self.old) }
    {
        match self.reader.read(buf) {
            Ok(count) => Ok(count),
            Err(_) => {
                self.faults = self.faults.saturating_add(1);
                Err(Failed)
            }
        }
    }
}

/// A writer as a sink. It tells the bytes that the writer tells, which a file or a terminal does
/// not, tells no room, and counts each error of the writer and each write that took nothing of a
/// piece.
#[derive(Debug, Drop)]
pub struct WriterSink<W> {
    writer: W,
    faults: u64,
}

impl<W: Write> WriterSink<W> {
    /// A sink that writes to `writer`, with no fault so far.
    pub fn new(writer: W) -> WriterSink<W>
        ensures writer { writer_of result ≡ writer }
        ensures faults { write_faults result ≡ 0 }
    {
        WriterSink { writer, faults: 0 }
    }
}

impl<W: Write> Sink for WriterSink<W> {
    ghost taken = { λ s. W.contents (writer_of s) };

    ghost faults = { write_faults };

    ghost spare = { λ _. None };

    ghost ready = { always_ready };

    fn write(&mut self, piece: &[u8]) -> Result<usize, Failed>
        ensures bound { WritesAtMost result piece.now }
        ensures some { TakesSome result piece.now }
        ensures bytes { WriteAppends (W.contents (writer_of self.old))
            (W.contents (writer_of self.new)) result piece.now }
        ensures room { WriteSpares None None result (length piece.now) }
        ensures uses { Uses write_faults always_ready self.old self.new (IsErr result) (IsOk result) }
        ensures exact { write_faults self.new
            ≡ (if is_err result then next_count (write_faults self.old) else write_faults self.old) }
    {
        match self.writer.write(piece) {
            Ok(count) if 0 < count || piece.is_empty() => Ok(count),
            _ => {
                self.faults = self.faults.saturating_add(1);
                Err(Failed)
            }
        }
    }
}
