//! Cases, and the failures of their reads and writes.
ghost use Rattle.std.specs.Prelude.{◌≡◌, take};
ghost use Rattle.flp_case_text.specs.Wanted.{wanted_output};

use crate::bytes::parts;
use crate::numbers::{number, size, small};
use crate::{Fault, Rule};
use std::alloc::{AllocError, Global};

/// Which calls fail.
#[derive(Debug, Clone, Copy, PartialEq, Eq)]
pub enum Failing {
    /// None does.
    Nothing,
    /// A read.
    Read,
    /// A write.
    Write,
}

/// What the program is run on, and what it is to answer.
#[derive(Debug, Drop)]
pub struct Case {
    /// What it shows.
    pub name: String,
    /// Command lines, the program's own name first, each of which is to be answered so.
    pub commands: Vec<String>,
    /// The bytes of the input.
    pub input: Vec<u8>,
    /// How many bytes a read gives at most, in a run for each number.
    pub read_steps: Vec<usize>,
    /// How many bytes a write takes at most.
    pub write_step: usize,
    /// Which reads or writes fail.
    pub failing: Failing,
    /// Of the reads or writes the number of the first that fails, counted from 0.
    pub first: u64,
    /// How many of them fail, in a run for each.
    pub runs: u64,
    /// Whether writes of a byte fail in turn, so that a byte was written by each write before.
    pub in_turn: bool,
    /// Whether each write on the error output fails.
    pub errors_fail: bool,
    /// The policies that are handed in.
    pub policies: Vec<Rule>,
    /// How many workers meet at the gate; where it is 0, none waits there.
    pub meeting: u8,
    /// The exit status.
    pub status: u8,
    /// What is written to the error output.
    pub says: Vec<u8>,
    /// What is written to the output.
    pub output: Vec<u8>,
    /// Whether all outputs are right.
    pub any_output: bool,
    /// How many bytes of the input are left unread, where that is told.
    pub left: Option<usize>,
}

/// How many bytes are read or written at once, where nothing is said.
const STEP: usize = 4096;

impl Case {
    /// A case without a command line, whose input is empty and of which nothing is to come.
    pub(crate) fn new(alloc: Global, name: &str) -> Result<Case, AllocError> {
        let mut read_steps = Vec::new(alloc);
        read_steps.push(STEP)?;
        Ok(Case {
            name: String::from_str(alloc, name)?,
            commands: Vec::new(alloc),
            input: Vec::new(alloc),
            read_steps,
            write_step: STEP,
            failing: Failing::Nothing,
            first: 0,
            runs: 1,
            in_turn: false,
            errors_fail: false,
            policies: Vec::new(alloc),
            meeting: 0,
            status: 0,
            says: Vec::new(alloc),
            output: Vec::new(alloc),
            any_output: false,
            left: None,
        })
    }

    /// One more command line.
    pub(crate) fn add_command(&mut self, alloc: Global, command: &str) -> Result<(), Fault> {
        self.commands.push(String::from_str(alloc, command)?)?;
        Ok(())
    }

    /// `read N`, `write N`: one call fails; `reads N COUNT`, `writes N COUNT`: so many in turn from N on, with a byte
    /// a call; `errors`.
    pub(crate) fn set_failing(&mut self, rest: &str) -> Result<(), Fault> {
        let (what, rest) = parts(rest);
        let (first, runs) = parts(rest);
        match what {
            "read" => self.fails(Failing::Read, number(first)?, 1),
            "write" => self.fails(Failing::Write, number(first)?, 1),
            "reads" => {
                self.set_read_steps("1")?;
                self.fails(Failing::Read, number(first)?, number(runs)?);
            }
            "writes" => {
                self.write_step = 1;
                self.in_turn = true;
                self.fails(Failing::Write, number(first)?, number(runs)?);
            }
            "errors" => self.errors_fail = true,
            _ => return Err(Fault::Line(0)),
        }
        Ok(())
    }

    fn set_read_steps(&mut self, rest: &str) -> Result<(), Fault> {
        self.read_steps.clear();
        for token in rest.split_whitespace() {
            self.read_steps.push(size(token)?)?;
        }
        Ok(())
    }

    fn fails(&mut self, failing: Failing, first: u64, runs: u64) {
        self.failing = failing;
        self.first = first;
        self.runs = runs;
    }

    /// Whether there is a run.
    pub(crate) fn has_runs(&self) -> bool {
        !self.commands.is_empty() && !self.read_steps.is_empty() && self.runs > 0
    }

    /// What is to be written where the call of this number fails.
    pub(crate) fn wanted(&self, call: u64) -> &[u8]
        ensures { result.now ≡ wanted_output self.now call }
    {
        if self.in_turn {
            front(self.output.as_slice(), call)
        } else {
            self.output.as_slice()
        }
    }

    /// A setting of the run: command lines, steps, failures, policies and the gate. Whether the line is one.
    pub(crate) fn set(&mut self, alloc: Global, line: &str) -> Result<bool, Fault> {
        let (key, rest) = parts(line);
        match key {
            "run" => self.add_command(alloc, rest)?,
            "reads" => self.set_read_steps(rest)?,
            "writes" => self.write_step = size(rest)?,
            "fail" => self.set_failing(rest)?,
            "policy" => self.policies.push(Rule::read(rest)?)?,
            "meet" => self.meeting = small(rest)?,
            "left" => self.left = Some(size(rest)?),
            "any" => self.any_output = true,
            _ => return Ok(false),
        }
        Ok(true)
    }
}

/// The first so many bytes, or all.
fn front(bytes: &[u8], count: u64) -> &[u8]
    ensures { result.now ≡ take count bytes.now }
{
    let count = count.min(bytes.len() as u64);
    &bytes[..count as usize]
}

/// The words of a command line; `""` is an empty one.
pub fn words(alloc: Global, command: &str) -> Result<Vec<&str>, AllocError> {
    let mut words = Vec::new(alloc);
    for token in command.split_whitespace() {
        words.push(if token == "\"\"" { "" } else { token })?;
    }
    Ok(words)
}
