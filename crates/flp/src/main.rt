//! The program `flp`: its words, standard streams and exit status around [`flp_cli::run`].
#![tactic(auto)]

use flp_cli::{NoGate, run, without_words};
use flp_io::{ReaderSource, WriterSink};
use std::alloc::{AllocError, Global};
use std::io::{self, ErrorKind};
use std::process::ExitCode;

/// The words as slices of text.
fn lent(alloc: Global, words: &[String]) -> Result<Vec<&str>, AllocError> {
    let mut texts = Vec::with_capacity(alloc, words.len())?;
    for word in words {
        texts.push(word.as_str())?;
    }
    Ok(texts)
}

/// The words of the command line, the program's name first.
fn words(rt: &HostRuntime) -> io::Result<Vec<String>> {
    let words = std::env::args(rt)?.collect(rt.alloc())?;
    Ok(words)
}

fn main(rt: HostRuntime) -> ExitCode {
    let mut errors = WriterSink::new(rt.stderr());
    let words = match words(&rt) {
        Ok(words) => words,
        Err(error) => {
            let memory = error.kind() == ErrorKind::OutOfMemory;
            return ExitCode::from(without_words(&mut errors, memory));
        }
    };
    let texts = match lent(rt.alloc(), words.as_slice()) {
        Ok(texts) => texts,
        Err(_) => return ExitCode::from(without_words(&mut errors, true)),
    };
    let mut input = ReaderSource::new(rt.stdin());
    let mut output = WriterSink::new(rt.stdout());
    let policies = Vec::new(rt.alloc());
    ExitCode::from(run(
        &rt,
        rt.alloc(),
        texts.as_slice(),
        &mut input,
        &mut output,
        &mut errors,
        &NoGate,
        policies,
    ))
}
