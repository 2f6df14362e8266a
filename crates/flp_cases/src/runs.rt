//! Runs of the program, over memory.

use crate::watch::{Fixed, Watch, Watched};
use flp_case_text::{Answer, Case, Failing, Rule, Shelf, differences, is_as_wanted, words};
use flp_cli::{Policy, run};
use flp_io::{MemorySink, MemorySource, fill};
use flp_policy::{CeilingRejected, Floor};
use std::alloc::{AllocError, Global};
use std::thread::Threads;

/// The room of the error output.
const LINE: usize = 4096;

/// The room of an output of which nothing is said.
const ROOM: usize = 1 << 22;

/// The numbers of the calls that fail: this one, where calls of this kind do.
fn fails(alloc: Global, fails: bool, call: u64) -> Result<Vec<u64>, AllocError> {
    let mut calls = Vec::new(alloc);
    if fails {
        calls.push(call)?;
    }
    Ok(calls)
}

/// A source of the case's input, which gives so many bytes at once.
fn source(alloc: Global, case: &Case, step: usize, call: u64) -> Result<MemorySource, AllocError> {
    let calls = fails(alloc, case.failing == Failing::Read, call)?;
    let bytes = case.input.as_slice().to_vec(alloc)?;
    Ok(MemorySource::new(bytes, step.max(1), calls))
}

/// A sink with room for what is to be written, and for more.
fn sink(alloc: Global, case: &Case, call: u64) -> Result<MemorySink, AllocError> {
    let calls = fails(alloc, case.failing == Failing::Write, call)?;
    let mut sink = MemorySink::new(alloc, case.write_step.max(1), calls);
    sink.reserve(case.output.len().saturating_add(ROOM))?;
    Ok(sink)
}

/// The error output, which has no room where its writes fail.
fn errors(alloc: Global, case: &Case) -> Result<MemorySink, AllocError> {
    let mut sink = MemorySink::new(alloc, LINE, Vec::new(alloc));
    if !case.errors_fail {
        sink.reserve(LINE)?;
    }
    Ok(sink)
}

/// What a run reads and writes.
#[derive(Drop)]
struct Streams {
    input: MemorySource,
    output: MemorySink,
    errors: MemorySink,
}

/// How many bytes of the input are unread, where the case says how many are to be.
fn left(alloc: Global, case: &Case, input: &mut MemorySource) -> Result<usize, AllocError> {
    if case.left.is_none() {
        return Ok(0);
    }
    let mut rest = vec![in alloc; 0; case.input.len()]?;
    Ok(fill(input, rest.as_mut_slice()).unwrap_or(0))
}

/// The status where policies or the gate saw what is not due to them, or where there are more policies than may be. The
/// program has none such.
const SEEN: u8 = 255;

/// Runs the program with these policies, for which this watch counts.
fn watched_status<R: Threads + Sync>(
    rt: &R,
    alloc: Global,
    words: &[&str],
    streams: &mut Streams,
    watch: &Watch,
    policies: Vec<Box<dyn Policy>>,
) -> u8 {
    if policies.len() >= u32::MAX as usize {
        return SEEN;
    }
    let status = run(
        rt,
        alloc,
        words,
        &mut streams.input,
        &mut streams.output,
        &mut streams.errors,
        &watch.gate,
        policies,
    );
    if watch.is_due(words, status, streams.output.taken()) {
        status
    } else {
        SEEN
    }
}

/// Runs the program, with the policies of the case and behind them one that always allows, and with its gate.
fn status<R: Threads + Sync>(
    rt: &R,
    alloc: Global,
    case: &Case,
    words: &[&str],
    streams: &mut Streams,
) -> Result<u8, AllocError> {
    let mut watch = Watch::new(alloc, case.meeting);
    let mut policies: Vec<Box<dyn Policy>> = Vec::new(alloc);
    for rule in &case.policies {
        let heard = watch.listen(alloc)?;
        match *rule {
            Rule::Floor(n) => policies.push(Box::new(alloc, Watched::new(Floor::new(n), heard))?)?,
            Rule::Ceiling(n) => {
                let policy = Watched::new(CeilingRejected::new(n), heard);
                policies.push(Box::new(alloc, policy)?)?;
            }
            Rule::Never => policies.push(Box::new(alloc, Watched::new(Fixed(false), heard))?)?,
        }
    }
    let last = Watched::new(Fixed(true), watch.listen(alloc)?);
    policies.push(Box::new(alloc, last)?)?;
    Ok(watched_status(rt, alloc, words, streams, &watch, policies))
}

/// Runs the program once.
fn answer<R: Threads + Sync>(
    rt: &R,
    alloc: Global,
    case: &Case,
    command: &str,
    step: usize,
    call: u64,
) -> Result<Answer, AllocError> {
    let mut streams = Streams {
        input: source(alloc, case, step, call)?,
        output: sink(alloc, case, call)?,
        errors: errors(alloc, case)?,
    };
    let words = words(alloc, command)?;
    let status = status(rt, alloc, case, words.as_slice(), &mut streams)?;
    let left = left(alloc, case, &mut streams.input)?;
    Ok(Answer {
        status,
        output: streams.output.into_bytes(),
        says: streams.errors.into_bytes(),
        left,
    })
}

/// Runs a command line of a case, once for each call that is to fail, says how its answers differ, and gives the last
/// output.
fn run_calls<R: Threads + Sync>(
    rt: &R,
    alloc: Global,
    case: &Case,
    command: &str,
    step: usize,
    text: &mut String,
) -> Result<Vec<u8>, AllocError> {
    let mut last = Vec::new(alloc);
    for call in case.first..case.first.saturating_add(case.runs) {
        let answer = answer(rt, alloc, case, command, step, call)?;
        if !is_as_wanted(case, call, &answer) {
            text.push_str(differences(alloc, case, command, call, &answer)?.as_str())?;
        }
        last = answer.output;
    }
    Ok(last)
}

/// The same for each number of bytes that are read at once.
fn run_command<R: Threads + Sync>(
    rt: &R,
    alloc: Global,
    case: &Case,
    command: &str,
    text: &mut String,
) -> Result<Vec<u8>, AllocError> {
    let mut last = Vec::new(alloc);
    for step in &case.read_steps {
        last = run_calls(rt, alloc, case, command, *step, text)?;
    }
    Ok(last)
}

/// Runs a case, says how its answers differ, and puts the last output on the shelf.
pub fn run_case<R: Threads + Sync>(
    rt: &R,
    alloc: Global,
    shelf: &mut Shelf,
    case: Case,
) -> Result<String, AllocError> {
    let mut text = String::new(alloc);
    let mut last = Vec::new(alloc);
    for command in &case.commands {
        last = run_command(rt, alloc, &case, command.as_str(), &mut text)?;
    }
    shelf.keep(case.name, last)?;
    Ok(text)
}
