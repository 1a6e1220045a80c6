//! Whether scripts, encodings and the client's sessions write what they must. Each stops where it is refused memory:
//! what it has written by then are the first lines of what it is to write.

use crate::fault::Fault;
use ipc_client::{ClientFault, client_session, encode_lines};
use ipc_core::Limits;
use ipc_script::{ScriptFault, run_script};
use std::alloc::Global;

/// What was refused memory once these lines were written.
fn stopped(written: &[u8], wanted: &[u8]) -> Result<bool, Fault> {
    let is_whole = written.is_empty() || written.ends_with(b"\n");
    if is_whole && wanted.starts_with(written) {
        Err(Fault::Refused)
    } else {
        Ok(false)
    }
}

pub fn runs(alloc: Global, script: &str, wanted: &[u8]) -> Result<bool, Fault> {
    let mut written = Vec::new(alloc);
    match run_script(alloc, Limits::STANDARD, script.as_bytes(), &mut written) {
        Ok(()) => Ok(written.as_slice() == wanted),
        Err(ScriptFault::Memory) => stopped(&written, wanted),
        Err(_) => Ok(false),
    }
}

/// Some command is at fault.
pub fn encodes(alloc: Global, commands: &str, wanted: &[u8]) -> Result<bool, Fault> {
    let mut written = Vec::new(alloc);
    match encode_lines(alloc, commands.as_bytes(), &mut written) {
        Ok(is_faultless) => Ok(!is_faultless && written.as_slice() == wanted),
        Err(ClientFault::Memory) => stopped(&written, wanted),
        Err(_) => Ok(false),
    }
}

/// Some command is at fault.
pub fn speaks(
    alloc: Global,
    commands: &str,
    came: &[u8],
    sent: &[u8],
    wanted: &[u8],
) -> Result<bool, Fault> {
    let (mut requests, mut written) = (Vec::new(alloc), Vec::new(alloc));
    let commands = commands.as_bytes();
    let outcome = client_session(alloc, b"ka1", came, &mut requests, commands, &mut written);
    match outcome {
        Ok(is_faultless) => {
            Ok(!is_faultless && requests.as_slice() == sent && written.as_slice() == wanted)
        }
        Err(ClientFault::Memory) if sent.starts_with(&requests) => stopped(&written, wanted),
        Err(_) => Ok(false),
    }
}
