//! Writing what stands in front of the records of a share file.
ghost use Rattle.std.specs.Prelude.{◌≡◌, ◌++◌, ◌≤◌, length};
ghost use Rattle.std.specs.List.{flat_map};
ghost use Rattle.byteorder.specs.Endian.{little_bytes};
ghost use Rattle.flp_io.specs.Writes.{WritesTo};
ghost use Rattle.flp_report.specs.Nonces.{nonces_in};
ghost use Rattle.flp_party.specs.Share.{share_letters, share_numbers, share_head, share_front};

use byteorder::{ByteOrder, LittleEndian};
use flp_io::{Failed, Sink, put};
use flp_report::{Header, Nonces, write_claims};

/// The letters with which a share file begins.
const LETTERS: [u8; 8] = *b"FLPSHARE";

/// Writes the numbers of a share file, 4 bytes each.
fn put_numbers<K: Sink>(sink: &mut K, numbers: [u32; 7]) -> Result<(), Failed>
    requires ready { K.ready sink.old }
    ensures { WritesTo K.taken K.faults K.spare K.ready sink.old sink.new (flat_map (little_bytes 4) numbers) result }
{
    let mut bytes = [0; 28];
    LittleEndian::write_u32_into(&numbers, &mut bytes);
    put(sink, &bytes)
}

/// Writes what stands in front of the text.
fn put_start<K: Sink>(sink: &mut K, party: u32, header: &Header) -> Result<(), Failed>
    requires ready { K.ready sink.old }
    requires text { length header.now.text ≤ 65536 }
    ensures { WritesTo K.taken K.faults K.spare K.ready sink.old sink.new
        (share_letters ++ flat_map (little_bytes 4) (share_numbers party header.now)) result }
{
    match put(sink, &LETTERS) {
        Ok(()) => {}
        Err(fault) => return Err(fault),
    }
    let length = header.text.as_slice().len() as u32;
    put_numbers(
        sink,
        [
            header.version,
            header.shares,
            header.proofs,
            length,
            header.claims,
            header.reports,
            party,
        ],
    )
}

/// Writes what stands in front of the old claims.
fn put_head<K: Sink>(sink: &mut K, party: u32, header: &Header) -> Result<(), Failed>
    requires ready { K.ready sink.old }
    requires text { length header.now.text ≤ 65536 }
    ensures { WritesTo K.taken K.faults K.spare K.ready sink.old sink.new (share_head party header.now) result }
{
    match put_start(sink, party, header) {
        Ok(()) => {}
        Err(fault) => return Err(fault),
    }
    put(sink, header.text.as_slice())
}

/// Writes what stands in front of the records of a party's share file, where the batch has this header and these old
/// claims: its numbers, the party, a text of at most 65,536 bytes, and the old claims.
///
/// After [`Failed`] the sink took some prefix of these bytes.
pub(crate) fn put_front<K: Sink>(
    sink: &mut K,
    party: u32,
    header: &Header,
    claims: &Nonces,
) -> Result<(), Failed>
    requires ready { K.ready sink.old }
    requires text { length header.now.text ≤ 65536 }
    ensures { WritesTo K.taken K.faults K.spare K.ready sink.old sink.new (share_front party header.now (nonces_in claims.now)) result }
{
    flp_report::laws::held_parts();
    match put_head(sink, party, header) {
        Ok(()) => {}
        Err(fault) => return Err(fault),
    }
    write_claims(sink, claims)
}
