//! Records, spelled by hand, and what is read of a file.

use ipc_log::{LogFault, TrailFault, crc32c, put_head, put_record, read_head, read_record};
use ipc_terms::Call;
use ipc_wire::{Request, read_request};
use std::alloc::Global;
use std::test::Fail;

/// A body behind its length, as a frame.
pub(crate) fn framed(alloc: Global, body: &[u8]) -> Result<Vec<u8>, Fail> {
    let length = u32::try_from(body.len()).unwrap_or(0);
    let mut frame = Vec::from_slice(alloc, &length.to_be_bytes())?;
    frame.extend_from_slice(body)?;
    Ok(frame)
}

/// The call of a request's body.
pub(crate) fn call_of(alloc: Global, body: &[u8]) -> Result<Call, Fail> {
    let frame = framed(alloc, body)?;
    let Ok(Some((request, _))) = read_request(alloc, false, &frame) else {
        return Err(Fail::new("no call"));
    };
    match request {
        Request::Do(call) => Ok(call),
        Request::Hello(_) => Err(Fail::new("a hello")),
    }
}

/// Puts bytes and their sum behind what stands there.
fn put_summed(out: &mut Vec<u8>, bytes: &[u8]) -> Result<(), Fail> {
    out.extend_from_slice(bytes)?;
    out.extend_from_slice(&crc32c(bytes).to_be_bytes())?;
    Ok(())
}

/// A record of this body, and of this length in place of the body's.
pub(crate) fn closed(alloc: Global, length: usize, body: &[u8]) -> Result<Vec<u8>, Fail> {
    let mut text = Vec::new(alloc);
    put_summed(&mut text, &u32::try_from(length).unwrap_or(0).to_be_bytes())?;
    put_summed(&mut text, body)?;
    Ok(text)
}

/// What is read of a file.
#[derive(Drop)]
pub(crate) struct Found {
    /// The spellings of its head and of its records, one after the other.
    pub(crate) again: Vec<u8>,
    pub(crate) records: u64,
    pub(crate) fault: Option<TrailFault>,
}

/// Reads records as long as there are some.
fn read_records(
    alloc: Global,
    found: &mut Found,
    first: u64,
    bytes: &[u8],
) -> Result<Option<TrailFault>, Fail> {
    let mut rest = bytes;
    for at in first..u64::MAX {
        match read_record(alloc, at, rest) {
            Ok(Some((read, taken))) => {
                put_record(&mut found.again, at, &read)?;
                found.records = found.records.saturating_add(1);
                rest = &rest[taken..];
            }
            Ok(None) => return Ok(None),
            Err(LogFault::Trail(fault)) => return Ok(Some(fault)),
            Err(LogFault::NoMemory) => return Err(Fail::new("memory")),
        }
    }
    Ok(None)
}

/// Reads a file: its head, and its records up to where they end, or to a fault.
pub(crate) fn read_file(alloc: Global, file: &[u8]) -> Result<Found, Fail> {
    let mut found = Found {
        again: Vec::new(alloc),
        records: 0,
        fault: None,
    };
    match read_head(file) {
        Ok(Some((head, taken))) => {
            put_head(&mut found.again, &head)?;
            found.fault = read_records(alloc, &mut found, head.first, &file[taken..])?;
        }
        Ok(None) => {}
        Err(LogFault::Trail(fault)) => found.fault = Some(fault),
        Err(LogFault::NoMemory) => return Err(Fail::new("memory")),
    }
    Ok(found)
}
