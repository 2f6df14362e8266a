//! The lines of the faults that commands share.
ghost use Rattle.std.specs.Prelude.{◌≡◌, ◌≤◌, ◌++◌, codes, length};
ghost use Rattle.flp_io.specs.Writes.{WritesTo};
ghost use Rattle.flp_lines.specs.Fault.{file_name, line_start, circuit_line, refused_line, fault_line, memory_line};

use crate::batch::push_batch_fault;
use crate::circuit::push_circuit_fault;
use crate::line::Line;
use flp_batch::EngineFault;
use flp_io::{Failed, Sink, put};
use flp_load::CircuitFault;
use flp_report::BatchFault;
use flp_syntax::LangFault;

/// What a command reads.
#[derive(Clone, Copy, Debug, PartialEq, Eq)]
pub enum FileKind {
    /// A batch of reports.
    Batch,
    /// A job file.
    Job,
    /// A circuit text.
    Circuit,
}

/// The name of a kind of file.
fn file_name(kind: FileKind) -> &'static [u8]
    ensures name { result.now ≡ file_name kind }
    ensures size { length result.now ≤ 7 }
{
    match kind {
        FileKind::Batch => b"batch",
        FileKind::Job => b"job",
        FileKind::Circuit => b"circuit",
    }
}

/// How the line of a refused file begins.
fn line_start(kind: FileKind) -> Line
    ensures text { result ≡ line_start kind }
    ensures size { length result ≤ 14 }
{
    let mut line = Line::new();
    line.push(b"flp: ");
    line.push(file_name(kind));
    line.push(b": ");
    line
}

/// The line of a refused circuit.
fn circuit_line(fault: CircuitFault) -> Line
    ensures { result ≡ circuit_line fault }
{
    let mut line = line_start(FileKind::Circuit);
    push_circuit_fault(&mut line, fault);
    line.push(b"\n");
    line
}

/// The line of a refused file; a text that is too long is a refused circuit.
fn refused_line(kind: FileKind, fault: BatchFault) -> Line
    ensures { result ≡ refused_line kind fault }
{
    match fault {
        BatchFault::TextLength(length) => circuit_line(CircuitFault::Lang(LangFault::TextLength(
            u64::from(length),
        ))),
        fault => {
            let mut line = line_start(kind);
            push_batch_fault(&mut line, fault);
            line.push(b"\n");
            line
        }
    }
}

/// Writes the line of want of memory.
///
/// # Errors
/// The sink failed. It has then taken a prefix of the line.
pub fn put_memory<E: Sink>(errors: &mut E) -> Result<(), Failed>
    requires ready { E.ready errors.old }
    ensures { WritesTo E.taken E.faults E.spare E.ready errors.old errors.new memory_line result }
{
    put(errors, b"flp: no memory\n")
}

/// Writes the line of a fault of a command that reads a file of this kind.
///
/// # Errors
/// The sink failed. It has then taken a prefix of the line.
pub fn put_file_fault<E: Sink>(
    errors: &mut E,
    kind: FileKind,
    fault: EngineFault,
) -> Result<(), Failed>
    requires ready { E.ready errors.old }
    ensures { WritesTo E.taken E.faults E.spare E.ready errors.old errors.new (fault_line kind fault) result }
{
    match fault {
        EngineFault::Memory => put_memory(errors),
        EngineFault::Read => put(errors, b"flp: read fault\n"),
        EngineFault::Write => put(errors, b"flp: write fault\n"),
        EngineFault::Batch(fault) => put(errors, refused_line(kind, fault).as_slice()),
        EngineFault::Circuit(fault) => put(errors, circuit_line(fault).as_slice()),
    }
}
