//! The files of a row, and where a text first differs from the one that is wanted.

use std::alloc::{AllocError, Global};
use std::rt::Files;
use std::{fs, io};

/// The text of a row's file, whose name is without its extension.
pub fn read(rt: &(impl Files + AllocGlobal), name: &str, extension: &str) -> io::Result<String> {
    fs::read_to_string(rt, format!(in rt.alloc(); "{name}.{extension}")?)
}

/// The text of a file that may be missing.
pub fn read_or(
    rt: &(impl Files + AllocGlobal),
    name: &str,
    extension: &str,
    missing: &str,
) -> io::Result<String> {
    match read(rt, name, extension) {
        Err(e) if e.kind() == io::ErrorKind::NotFound => Ok(String::from_str(rt.alloc(), missing)?),
        text => text,
    }
}

/// The first line in which two texts differ.
pub fn first_difference(
    alloc: Global,
    given: &str,
    wanted: &str,
) -> Result<Option<String>, AllocError> {
    let mut lines = wanted.split('\n');
    for (number, line) in (1u64..).zip(given.split('\n')) {
        let other = lines.next();
        if other != Some(line) {
            return Ok(Some(format!(in alloc; "line {number} is {line:?}, and not {other:?}")?));
        }
    }
    match lines.next() {
        Some(line) => Ok(Some(format!(in alloc; "lacks the line {line:?}")?)),
        None => Ok(None),
    }
}
