//! Room for records, made once and filled again and again.
ghost use Rattle.std.specs.Prelude.{◌≡◌, ◌*◌, ◌+◌, ◌<◌, ◌≤◌, IfOk, Some, slice_get, vec_len};
ghost use Rattle.flp_report.specs.Shape.{bytes_of};
ghost use Rattle.flp_report.specs.declared.shape.TheConstants.{RECORD_LIMIT};

use crate::Memory;
use crate::record::Record;
use crate::shape::{RECORD_LIMIT, Shape};
use std::alloc::Global;

/// Room for a number of records of one shape, and the records that the last reading left in it.
///
/// It is made once, and [`BatchReader::segment`](crate::BatchReader::segment) fills it again and
/// again without taking memory.
#[derive(Drop)]
pub struct Segment {
    shape: Shape,
    room: u32,
    pub(crate) used: u32,
    pub(crate) bytes: Vec<u8>,
    ghost in_use: { used ≤ room },
    ghost short: { bytes_of shape ≤ RECORD_LIMIT },
    ghost sized: { vec_len bytes ≡ room * bytes_of shape },
}

impl Segment {
    ghost use Rattle.flp_report.specs.Record.{record_of, shape_of};
    ghost use Rattle.flp_report.specs.Segment.{room_of, used_in, shape_in, record_in, records_in};

    /// Room for `count` records of this shape, each of at most [`RECORD_LIMIT`] bytes, with none in it.
    pub fn new(alloc: Global, shape: &Shape, count: u32) -> Result<Segment, Memory>
        requires { bytes_of shape.now ≤ RECORD_LIMIT }
        ensures shape { IfOk result (λ s. shape_in s ≡ shape.now) }
        ensures room { IfOk result (λ s. room_of s ≡ count) }
        ensures empty { IfOk result (λ s. used_in s ≡ 0) }
    {
        let size = count as usize * shape.bytes() as usize;
        let bytes = vec![in alloc; 0; size]?;
        Ok(Segment {
            shape: *shape,
            room: count,
            used: 0,
            bytes,
        })
    }

    /// The record of this number, from 0, among those of the last reading. Its bytes are lent.
    pub fn record_at(&self, index: u32) -> Record<'_>
        requires { index < used_in self.now }
        ensures bytes { record_of result ≡ record_in self.now index }
        ensures numbered { slice_get (records_in self.now) index ≡ Some (record_of result) }
        ensures shape { shape_of result ≡ shape_in self.now }
    {
        let size = self.shape.bytes() as usize;
        let start = index as usize * size;
        Record::new(self.shape, &self.bytes[start..start + size])
    }
}
