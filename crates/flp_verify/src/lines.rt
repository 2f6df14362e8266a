//! The lines of the records, each put through a block.
ghost use Rattle.std.specs.Prelude.{◌≡◌, ◌++◌, [], length, decimal, codes, OnOk, IsErr, IsOk};
ghost use Rattle.std.specs.Io.KnownBytes.{Appends};
ghost use Rattle.flp_io.specs.Faults.{Uses};
ghost use Rattle.flp_io.specs.Writes.{TakesPrefix};
ghost use Rattle.flp_report.specs.Record.{record_of, nonce_in};
ghost use Rattle.flp_report.specs.Segment.{used_in, records_in};
ghost use Rattle.flp_round.specs.Crew.{verdicts_of};
ghost use Rattle.flp_verdict.specs.Text.{spelled, line_with, judged_lines};
ghost use Rattle.flp_known.specs.Puts.{Puts};
ghost use Rattle.flp_verify.specs.Told.{beside};

use flp_io::{Block, Failed, Sink};
use flp_known::put_piece;
use flp_policy::Verdict;
use flp_report::{Record, Segment};
use flp_round::Crew;
use flp_verdict::{put_nonce, put_number, put_spaced_number};

/// Puts how a report in a domain is spelled: the number of the proof and of the gadget.
fn put_domain<K: Sink>(
    block: &mut Block,
    sink: &mut K,
    proof: u64,
    gadget: u64,
) -> Result<(), Failed>
    requires { K.ready sink.old }
    ensures { Puts K.taken K.faults K.ready sink.old sink.new block.old block.new (codes "domain " ++ (decimal proof ++ (codes " " ++ decimal gadget))) result }
{
    put_piece(block, sink, b"domain ")?;
    put_number(block, sink, proof)?;
    put_spaced_number(block, sink, gadget)
}

/// Puts how a malformed report is spelled: the number of the word.
fn put_malformed<K: Sink>(block: &mut Block, sink: &mut K, word: u64) -> Result<(), Failed>
    requires { K.ready sink.old }
    ensures { Puts K.taken K.faults K.ready sink.old sink.new block.old block.new (codes "malformed " ++ decimal word) result }
{
    put_piece(block, sink, b"malformed ")?;
    put_number(block, sink, word)
}

/// Puts how a verdict is spelled.
fn put_verdict<K: Sink>(block: &mut Block, sink: &mut K, verdict: Verdict) -> Result<(), Failed>
    requires { K.ready sink.old }
    ensures { Puts K.taken K.faults K.ready sink.old sink.new block.old block.new (spelled verdict) result }
{
    match verdict {
        Verdict::Accepted => put_piece(block, sink, b"accepted"),
        Verdict::Rejected => put_piece(block, sink, b"rejected"),
        Verdict::InDomain { proof, gadget } => put_domain(
            block,
            sink,
            u64::from(proof),
            u64::from(gadget),
        ),
        Verdict::Malformed { word } => put_malformed(block, sink, u64::from(word)),
        Verdict::Replayed => put_piece(block, sink, b"replayed"),
    }
}

/// Puts the line of a record that has this verdict.
fn put_verdict_line<K: Sink>(
    block: &mut Block,
    sink: &mut K,
    given: &Record,
    verdict: Verdict,
) -> Result<(), Failed>
    requires { K.ready sink.old }
    ensures { Puts K.taken K.faults K.ready sink.old sink.new block.old block.new (line_with (nonce_in (record_of given.now)) (spelled verdict)) result }
{
    put_nonce(block, sink, given.nonce())?;
    put_verdict(block, sink, verdict)?;
    put_piece(block, sink, b"\n")
}

/// Puts the lines of the records of a segment, in their order.
fn put_verdict_lines<K: Sink>(
    block: &mut Block,
    sink: &mut K,
    segment: &Segment,
    crew: &Crew,
    count: u32,
) -> Result<(), Failed>
    requires ready { K.ready sink.old }
    requires records { count ≡ used_in segment.now }
    requires verdicts { count ≡ length (verdicts_of crew.now) }
    ensures { Puts K.taken K.faults K.ready sink.old sink.new block.old block.new (judged_lines (beside (records_in segment.now) (verdicts_of crew.now))) result }
{
    for index in 0..count {
        let given = segment.record_at(index);
        put_verdict_line(block, sink, &given, crew.verdict(index))?;
    }
    Ok(())
}

/// Writes the line of each record of a segment, in their order, behind what the block holds, and all of it to the output.
/// The crew has the verdicts on these records.
///
/// # Errors
/// The output failed. It then took a prefix of what was held and the lines, and is not to be written to again.
pub(crate) fn put_segment<K: Sink>(
    segment: &Segment,
    crew: &Crew,
    count: u32,
    block: &mut Block,
    output: &mut K,
) -> Result<(), Failed>
    requires ready { K.ready output.old }
    requires records { count ≡ used_in segment.now }
    requires verdicts { count ≡ length (verdicts_of crew.now) }
    ensures whole { OnOk result (Appends (K.taken output.old) (K.taken output.new) (block.old ++ judged_lines (beside (records_in segment.now) (verdicts_of crew.now)))) }
    ensures front { TakesPrefix (K.taken output.old) (K.taken output.new) (block.old ++ judged_lines (beside (records_in segment.now) (verdicts_of crew.now))) }
    ensures empty { OnOk result (block.new ≡ []) }
    ensures uses { Uses K.faults K.ready output.old output.new (IsErr result) (IsOk result) }
{
    put_verdict_lines(block, output, segment, crew, count)?;
    block.flush(output)
}
