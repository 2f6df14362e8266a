//! The reading of the records, one segment after the other, and of the end of the input behind them.
ghost use Rattle.std.specs.Prelude.{◌≡◌, ◌+◌, ◌<◌, ◌≤◌, min, All, Err, OnOk, IfOk, IfErr, IsOk, []};
ghost use Rattle.std.specs.Io.KnownBytes.{Consumes, IsAtEnd};
ghost use Rattle.flp_io.specs.Faults.{Uses};
ghost use Rattle.flp_report.specs.declared.header.Header.{Header as Head};
ghost use Rattle.flp_report.specs.declared.shape.Shape.{Shape as Form};
ghost use Rattle.flp_report.specs.Buckets.{HasBucket};
ghost use Rattle.flp_report.specs.Pieces.{IsCut};
ghost use Rattle.flp_report.specs.Reader.{source_of, SameLoan, claims_left, reports_left};
ghost use Rattle.flp_report.specs.Segment.{shape_in, room_of, used_in, held_in, records_in};
ghost use Rattle.flp_report.specs.Shape.{bytes_of, segment_of};
ghost use Rattle.flp_batch.specs.Among.{IsAmong, Fails};

use crate::fault::EngineFault;
use flp_io::Source;
use flp_report::{BatchReader, Header, Segment, Shape};

/// Reads the segment behind the first `done` records into the room: as many records as a segment has, or those that
/// are left, and answers their number.
///
/// The room has this shape and fits a whole segment, or all records where they are fewer. An error is the first fault
/// of the file, or [`EngineFault::Read`]. It takes no memory.
pub fn read_segment<S: Source>(
    reader: &mut BatchReader<'_, S>,
    header: &Header,
    shape: &Shape,
    done: u32,
    room: &mut Segment,
) -> Result<u32, EngineFault>
    requires among { IsAmong reader.old header.now shape.now done }
    requires left { done < header.now.reports }
    requires room { (shape_in room.old ≡ shape.now) × (min (segment_of shape.now) header.now.reports ≤ room_of room.old) }
    requires readable { S.ready (source_of reader.old) }
    ensures same { SameLoan reader.old reader.new }
    ensures room { (shape_in room.new ≡ shape_in room.old) × (room_of room.new ≡ room_of room.old) }
    ensures among { IfOk result (λ count. (0 < count) × IsAmong reader.new header.now shape.now (done + count)) }
    ensures holds { IfOk result (λ count. (used_in room.new ≡ count) × IsCut (bytes_of shape.now) count (held_in room.new) (records_in room.new)) }
    ensures records { OnOk result (Consumes (S.left (source_of reader.old)) (S.left (source_of reader.new)) (held_in room.new)) }
    ensures buckets { OnOk result (All (HasBucket shape.now) (records_in room.new)) }
    ensures fails { IfErr result (Fails header.now shape.now done (S.left (source_of reader.old)) (S.left (source_of reader.new))) }
    ensures source { Uses S.faults S.ready (source_of reader.old) (source_of reader.new) (result ≡ Err EngineFault.Read) (IsOk result) }
{
    let count = shape.segment().min(header.reports - done);
    match reader.segment(count, room) {
        Ok(()) => Ok(count),
        Err(fault) => Err(EngineFault::from(fault)),
    }
}

/// Sees that the input ends where no record is left. It takes no memory.
///
/// An error is the fault that a byte follows, or [`EngineFault::Read`].
pub fn read_end<S: Source>(reader: &mut BatchReader<'_, S>) -> Result<(), EngineFault>
    requires none { (claims_left reader.old ≡ 0) × (reports_left reader.old ≡ 0) }
    requires readable { S.ready (source_of reader.old) }
    ensures same { SameLoan reader.old reader.new }
    ensures ended { OnOk result (IsAtEnd (S.left (source_of reader.new))) }
    ensures none_read { OnOk result (Consumes (S.left (source_of reader.old)) (S.left (source_of reader.new)) []) }
    ensures fails { IfErr result (λ fault. (header : Head) (shape : Form) → IsAmong reader.old header shape header.reports
        → Fails header shape header.reports (S.left (source_of reader.old)) (S.left (source_of reader.new)) fault) }
    ensures source { Uses S.faults S.ready (source_of reader.old) (source_of reader.new) (result ≡ Err EngineFault.Read) ⊥ }
{
    match reader.end() {
        Ok(()) => Ok(()),
        Err(fault) => Err(EngineFault::from(fault)),
    }
}
