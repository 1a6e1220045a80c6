//! One script, and what it must write.

use crate::files::{first_difference, read_or};
use ipc_program::{ProgramFault, Task, task_of_words};
use ipc_script::run_script;
use std::alloc::{AllocError, Global};
use std::rt::Files;
use std::{fs, io};

/// What a run gives: what it wrote, and how a program that makes it ends.
#[derive(Drop)]
struct Outcome {
    output: String,
    error: String,
    status: String,
}

/// Whether the script of this name gives what it must, and else where it first doesn't.
pub fn judge(rt: &(impl Files + AllocGlobal), name: &str) -> io::Result<String> {
    let alloc = rt.alloc();
    let input = fs::read(rt, format!(in alloc; "{name}.in")?)?;
    let arguments = read_or(rt, name, "args", "")?;
    let given = outcome_of(alloc, arguments.as_str(), &input)?;
    let wanted = Outcome {
        output: read_or(rt, name, "out", "")?,
        error: read_or(rt, name, "err", "")?,
        status: read_or(rt, name, "status", "0\n")?,
    };
    for (part, given, wanted) in [
        ("output", &given.output, &wanted.output),
        ("error", &given.error, &wanted.error),
        ("status", &given.status, &wanted.status),
    ] {
        if let Some(difference) = first_difference(alloc, given.as_str(), wanted.as_str())? {
            return Ok(format!(in alloc; "{part} {difference}")?);
        }
    }
    Ok(String::from_str(alloc, "as written")?)
}

/// What the program gives by these arguments, one a line.
fn outcome_of(alloc: Global, arguments: &str, input: &[u8]) -> Result<Outcome, AllocError> {
    let words = words_of(alloc, arguments)?;
    let mut output = Vec::new(alloc);
    let (error, status) = match run(alloc, &words, input, &mut output) {
        Ok(()) => (String::new(alloc), 0),
        Err(fault) => (format!(in alloc; "{fault}")?, fault.status()),
    };
    Ok(Outcome {
        output: String::from_utf8_lossy(alloc, &output)?,
        error,
        status: format!(in alloc; "{status}\n")?,
    })
}

/// The program's name, and the arguments.
pub fn words_of(alloc: Global, arguments: &str) -> Result<Vec<&str>, AllocError> {
    let mut words = Vec::new(alloc);
    words.push("mqserve")?;
    for word in arguments.lines() {
        words.push(word)?;
    }
    Ok(words)
}

fn run(
    alloc: Global,
    words: &[&str],
    input: &[u8],
    output: &mut Vec<u8>,
) -> Result<(), ProgramFault> {
    match task_of_words(alloc, "", words)? {
        Task::Script(limits) => Ok(run_script(alloc, limits, input, output)?),
        // No connection comes here, and no trail.
        _ => Err(ProgramFault::Net),
    }
}
