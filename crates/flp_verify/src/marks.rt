//! Which records of a segment are replayed.
ghost use Rattle.std.specs.Prelude.{◌≡◌, ◌≤◌, length, map, take, OnOk};
ghost use Rattle.flp_report.specs.Record.{nonce_in};
ghost use Rattle.flp_report.specs.Segment.{used_in, records_in};
ghost use Rattle.flp_known.specs.Order.{with_nonces};
ghost use Rattle.flp_known.specs.Known.{known_in};
ghost use Rattle.flp_verify.specs.Marks.{marks_behind};

use crate::Memory;
use flp_known::Known;
use flp_report::Segment;

/// Marks which of the `count` records in a segment are replayed, in the first places of the marks and in the order of the
/// records, and knows their nonces from then on.
///
/// The error is want of memory, which is taken for new nonces alone.
pub(crate) fn mark(
    known: &mut Known,
    segment: &Segment,
    count: u32,
    marks: &mut [bool],
) -> Result<(), Memory>
    requires used { used_in segment.now ≡ count }
    requires places { count ≤ length marks.old }
    ensures size { length marks.new ≡ length marks.old }
    ensures marked { OnOk result (take count marks.new ≡ marks_behind (known_in known.old) (records_in segment.now)) }
    ensures known { OnOk result (known_in known.new ≡ with_nonces (known_in known.old) (map nonce_in (records_in segment.now))) }
{
    for index in 0..count {
        let record = segment.record_at(index);
        marks[index as usize] = !known.add(record.nonce())?;
    }
    Ok(())
}
