//! The row that a record brings.
ghost use Rattle.std.specs.Prelude.{◌≡◌, ◌+◌, ◌*◌, ◌≤◌, length};
ghost use Rattle.flp_round.specs.Findings.{row_with};

use flp_field::Fe;
use flp_share::clear;

/// Writes outs to the places of this bucket, and 0 to those of all others. The row has as many places for each bucket as
/// there are outs.
pub(crate) fn write_row(outs: &[Fe], buckets: u32, bucket: u32, row: &mut [Fe])
    requires bucket { bucket + 1 ≤ buckets }
    requires room { length row.old ≡ buckets * length outs.now }
    ensures { row.new ≡ row_with buckets bucket outs.now }
{
    clear(row);
    let start = bucket as usize * outs.len();
    row[start..start + outs.len()].copy_from_slice(outs);
}
