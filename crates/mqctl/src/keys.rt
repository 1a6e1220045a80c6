//! Keys that stand in no argument, where a list of processes would show them.

use ipc_client::{ClientFault, ProgramFault, key_in};
use std::env;
use std::env::VarError;
use std::fs::File;
use std::io::ErrorKind;

/// The value of the variable `MQSERVE_KEY`.
pub fn key_in_environment(rt: &HostRuntime) -> Result<String, ProgramFault> {
    match env::var(rt, "MQSERVE_KEY") {
        Ok(key) => Ok(key),
        Err(VarError::OutOfMemory) => Err(ClientFault::Memory.into()),
        Err(_) => Err(ProgramFault::Arguments),
    }
}

/// The first line of the file.
pub fn key_in_file(rt: &HostRuntime, path: &str) -> Result<String, ProgramFault> {
    match File::open(rt, path) {
        Ok(file) => Ok(key_in(rt.alloc(), file)?),
        Err(error) if error.kind() == ErrorKind::OutOfMemory => Err(ClientFault::Memory.into()),
        Err(_) => Err(ClientFault::Read.into()),
    }
}
