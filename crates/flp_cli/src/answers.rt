//! The exit statuses and the lines on the error output.
ghost use Rattle.std.specs.Prelude.{◌≡◌, ◌≤◌, ◌++◌, if◌then◌else◌, length};
ghost use Rattle.flp_io.specs.Writes.{WritesTo};
ghost use Rattle.flp_lines.specs.Fault.{memory_line};
ghost use Rattle.flp_cli.specs.Answers.{ending_status, file_status, engine_status, status_of, place_text, place_line, failure_line, usage_line};
ghost use Rattle.flp_cli.specs.Stream.{over, Says};

use flp_io::{Failed, Sink, put};
use flp_jobs::{PlaceFault, ProveFault};
use flp_lines::{FileKind, Line, put_file_fault, put_memory};
use flp_report::BatchFault;
use flp_verify::EngineFault;

/// How a command ended that wrote its whole text.
#[derive(Clone, Copy, Debug, PartialEq, Eq)]
pub(crate) enum Ending {
    /// It is done.
    Done,
    /// It is done, and the aggregate is withheld.
    Withheld,
}

/// The exit status of a command that wrote its whole text.
pub(crate) fn ending_status(ending: Ending) -> u8
    ensures { result ≡ ending_status ending }
{
    match ending {
        Ending::Done => 0,
        Ending::Withheld => 9,
    }
}

/// The exit status of a fault of the file.
fn file_status(fault: BatchFault) -> u8
    ensures { result ≡ file_status fault }
{
    match fault {
        BatchFault::TextLength(_) => 7,
        _ => 6,
    }
}

/// The exit status of a fault that every command may have.
fn engine_status(fault: EngineFault) -> u8
    ensures { result ≡ engine_status fault }
{
    match fault {
        EngineFault::Memory => 3,
        EngineFault::Read => 4,
        EngineFault::Write => 5,
        EngineFault::Batch(fault) => file_status(fault),
        EngineFault::Circuit(_) => 7,
    }
}

/// The exit status of a fault of a command.
pub fn status_of(fault: ProveFault) -> u8
    ensures { result ≡ status_of fault }
{
    match fault {
        ProveFault::File(fault) => engine_status(fault),
        ProveFault::Place(_, _) => 8,
    }
}

/// Appends the words of a bad place.
fn push_place_text(line: &mut Line, fault: PlaceFault)
    requires { length line.old ≤ 34 }
    ensures text { line.new ≡ line.old ++ place_text fault }
    ensures size { length line.new ≤ 95 }
{
    match fault {
        PlaceFault::Range { number, value } => {
            line.push_paired(b"range ", u64::from(number), value)
        }
        PlaceFault::Weight(count) => line.push_numbered(b"weight ", count),
        PlaceFault::Check { check, proof } => {
            line.push_numbered(b"check ", u64::from(check));
            line.push_numbered(b" of proof ", u64::from(proof));
        }
    }
}

/// The line of a bad place.
fn place_line(place: u32, fault: PlaceFault) -> Line
    ensures { result ≡ place_line place fault }
{
    let mut line = Line::new();
    line.push_numbered(b"flp: place ", u64::from(place));
    line.push(b": ");
    push_place_text(&mut line, fault);
    line.push(b"\n");
    line
}

/// Writes the line of a fault of a command that reads a file of this kind.
pub fn put_fault<E: Sink>(errors: &mut E, kind: FileKind, fault: ProveFault) -> Result<(), Failed>
    requires ready { E.ready errors.old }
    ensures { WritesTo E.taken E.faults E.spare E.ready errors.old errors.new (failure_line kind fault) result }
{
    match fault {
        ProveFault::File(fault) => put_file_fault(errors, kind, fault),
        ProveFault::Place(place, fault) => put(errors, place_line(place, fault).as_slice()),
    }
}

/// Says that there was no memory for the words, or else that they cannot be had or name no command,
/// and gives the exit status.
#[tactic(auto, using(crate::proofs::SaysLemmas::says_written))]
pub fn without_words<E: Sink>(errors: &mut E, memory: bool) -> u8
    requires ready { E.ready errors.old }
    ensures status { result ≡ (if memory then 3 else 2) }
    ensures says { Says (over E.taken E.faults errors.old errors.new) (if memory then memory_line else usage_line) }
{
    if memory {
        let _said = put_memory(errors);
        return 3;
    }
    let _said = put(
        errors,
        b"flp: usage: flp verify, prove, lengths, prep, explain or trial\n",
    );
    2
}
