//! What is made once for all segments of a batch.
ghost use Rattle.std.specs.Prelude.{IfOk};
ghost use Rattle.flp_verify.specs.Settled.{IsRoomFor};

use crate::Memory;
use crate::front::Front;
use flp_io::Block;
use flp_report::Segment;
use flp_round::Crew;
use std::alloc::Global;

/// Room for a segment, with a mark for each of its records, the workers that verify it, and a block for its lines.
#[derive(Drop)]
pub struct Room {
    pub(crate) segment: Segment,
    pub(crate) marks: Vec<bool>,
    pub(crate) crew: Crew,
    pub(crate) block: Block,
}

impl Room {
    /// Room for the segments behind this front.
    pub(crate) fn new(alloc: Global, front: &Front) -> Result<Room, Memory>
        ensures { IfOk result (IsRoomFor front.now) }
    {
        let records = front.shape.segment().min(front.header.reports);
        let crew = Crew::new(
            alloc,
            &front.loaded.plan,
            &front.shape,
            front.workers,
            records,
        )?;
        let marks = vec![in alloc; false; records as usize]?;
        let segment = Segment::new(alloc, &front.shape, records)?;
        let block = Block::new(alloc)?;
        Ok(Room {
            segment,
            marks,
            crew,
            block,
        })
    }
}
