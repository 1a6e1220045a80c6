//! Lines on standard output.

use crate::fault::ProgramFault;
use std::fmt::Display;

/// Writes a line of two words.
pub fn say<R: Print, D: Display + Drop>(rt: &R, verb: &str, what: D) -> Result<(), ProgramFault> {
    match println!(rt; "{verb} {what}") {
        Ok(()) => Ok(()),
        Err(error) => Err(ProgramFault::of_output(&error)),
    }
}

/// Writes a line of this text.
pub fn print_line<R: Print>(rt: &R, text: &str) -> Result<(), ProgramFault> {
    match println!(rt; "{text}") {
        Ok(()) => Ok(()),
        Err(error) => Err(ProgramFault::of_output(&error)),
    }
}
