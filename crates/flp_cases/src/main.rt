//! Runs the cases of the files in its folder, and prints those that are answered otherwise, and their number.
#![tactic(auto)]

mod files;
mod runs;
mod watch;

use files::{case_files, folder, put_pieces};
use flp_case_text::{Fault, Shelf, read_block};
use runs::run_case;
use std::io;
use std::process::ExitCode;
use std::rt::Files;
use std::thread::Threads;
use watch::is_watchful;

/// The cases that were run, and those that differ.
#[derive(Clone, Copy)]
struct Tally {
    cases: u64,
    differ: u64,
}

/// Runs the cases of a block, and prints those that differ.
fn run_block<R: Print + AllocGlobal + Threads + Sync>(
    rt: &R,
    shelf: &mut Shelf,
    tally: &mut Tally,
    block: &str,
) -> Result<(), Fault> {
    for case in read_block(rt.alloc(), shelf, block)? {
        tally.cases = tally.cases.saturating_add(1);
        let text = run_case(rt, rt.alloc(), shelf, case)?;
        if !text.is_empty() {
            tally.differ = tally.differ.saturating_add(1);
            let _printed = rt.print(text);
        }
    }
    Ok(())
}

/// Runs the cases of a file. What it names is forgotten at its end.
fn run_file<R: Files + Print + AllocGlobal + Threads + Sync>(
    rt: &R,
    shelf: &mut Shelf,
    tally: &mut Tally,
    path: &str,
) -> io::Result<bool> {
    let text = std::fs::read_to_string(rt, path)?;
    let count = shelf.count();
    let mut line = 1usize;
    for block in text.as_str().split("\n\n") {
        match run_block(rt, shelf, tally, block) {
            Ok(()) => {}
            Err(Fault::Memory) => {
                println!(rt; "{path}: no memory")?;
                return Ok(false);
            }
            Err(Fault::Line(at)) => {
                let number = line.saturating_add(at);
                println!(rt; "{path}, line {number}: not understood")?;
                return Ok(false);
            }
        }
        line = line.saturating_add(block.lines().count()).saturating_add(1);
    }
    shelf.shorten(count);
    Ok(true)
}

/// Runs the cases of all files. Whether there were some, all were understood, and who came would have been counted.
fn run_files<R: Files + Print + AllocGlobal + Threads + Sync + Clone + Drop>(
    rt: &R,
) -> io::Result<bool> {
    let mut shelf = Shelf::new(rt.alloc());
    let folder = folder(rt);
    put_pieces(rt, folder, &mut shelf)?;
    let mut tally = Tally {
        cases: 0,
        differ: 0,
    };
    let mut understood = true;
    for name in &case_files(rt, folder)? {
        let path = format!(in rt.alloc(); "{folder}{name}")?;
        if !run_file(rt, &mut shelf, &mut tally, path.as_str())? {
            understood = false;
        }
    }
    let differ = tally.differ;
    println!(rt; "{differ} cases differ")?;
    Ok(is_watchful(rt.alloc())? && understood && tally.cases > 0)
}

fn main(rt: HostRuntime) -> ExitCode {
    match run_files(&rt) {
        Ok(true) => ExitCode::SUCCESS,
        _ => ExitCode::FAILURE,
    }
}
