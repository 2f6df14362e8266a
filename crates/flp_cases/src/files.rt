//! The files of cases, and those that cases use.

use flp_case_text::Shelf;
use std::fs::{exists, read, read_dir};
use std::io;
use std::rt::Files;

/// The folder of the files: `data/`, where there is one, or the one in which the program runs.
pub fn folder<R: Files>(rt: &R) -> &'static str {
    if exists(rt, "data").unwrap_or(false) {
        "data/"
    } else {
        "./"
    }
}

/// The names of the files, in their order.
fn names<R: Files + AllocGlobal + Clone + Drop>(rt: &R, folder: &str) -> io::Result<Vec<String>> {
    let mut names = Vec::new(rt.alloc());
    for entry in read_dir(rt, folder)? {
        let entry = entry?;
        names.push(String::from_str(rt.alloc(), entry.file_name())?)?;
    }
    names.sort()?;
    Ok(names)
}

/// The names of the files of cases.
pub fn case_files<R: Files + AllocGlobal + Clone + Drop>(
    rt: &R,
    folder: &str,
) -> io::Result<Vec<String>> {
    let mut found = Vec::new(rt.alloc());
    for name in names(rt, folder)? {
        if name.as_str().ends_with(".cases") {
            found.push(name)?;
        }
    }
    Ok(found)
}

/// The endings of the files whose bytes cases use.
const ENDINGS: [&str; 3] = [".circuit", ".batch", ".job"];

/// Whether cases use a file of this name.
fn is_piece(name: &str) -> bool {
    ENDINGS.iter().any(|ending| name.ends_with(*ending))
}

/// Puts the bytes of each file that cases use on the shelf.
pub fn put_pieces<R: Files + AllocGlobal + Clone + Drop>(
    rt: &R,
    folder: &str,
    shelf: &mut Shelf,
) -> io::Result<()> {
    for name in names(rt, folder)? {
        if is_piece(name.as_str()) {
            let path = format!(in rt.alloc(); "{folder}{name}")?;
            let bytes = read(rt, path.as_str())?;
            shelf.keep(name, bytes)?;
        }
    }
    Ok(())
}
