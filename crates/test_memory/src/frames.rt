//! Streams of frames, and frames alone.

use crate::fault::Fault;
use crate::made::call;
use crate::subject::{Fresh, Subject};
use ipc_wire::{
    Frames, Request, WireFault, put_request, read_answer, read_request, write_answer, write_request,
};
use std::alloc::Global;

pub enum Step {
    /// Feeds a piece; the frames of its requests.
    Feed(&'static [u8], &'static [u8]),
    Ended(Option<WireFault>),
    /// The frame of a command's request, read and written again.
    Request(&'static str, &'static [u8]),
    /// The frame of an answer, read and written again.
    Answer(&'static [u8]),
}

use Step::{Answer, Ended, Feed, Request as Ask};

/// A hello by the key `ka1`.
const HELLO: &[u8] = b"\0\0\0\x06\x01\0\x03ka1";

pub static CASES: [(&str, &[Step]); 3] = [
    (
        "Frames::feed",
        &[
            Feed(b"\0\0\0\x06\x01\0", b""),
            Feed(b"\x03ka1", HELLO),
            Feed(
                b"\0\0\0\x0a\x03\0\x02/a\x03\x01\x01\xb6\0\0\0\0\x0f\x06\0\0\0\0\0\0\0\0\0\0\0\x05hi\0\0\0\x01",
                b"\0\0\0\x0a\x03\0\x02/a\x03\x01\x01\xb6\0\0\0\0\x0f\x06\0\0\0\0\0\0\0\0\0\0\0\x05hi",
            ),
            Ended(None),
            Feed(b"\x17\0\0\0\0", b"\0\0\0\x01\x17"),
            Ended(Some(WireFault::Empty)),
            Feed(b"\0\0\0\x01\x17", b""),
        ],
    ),
    (
        "write_request",
        &[
            Ask(
                "mq-send 1 9 hi",
                b"\0\0\0\x0f\x06\0\0\0\0\0\0\0\x01\0\0\0\x09hi",
            ),
            Ask(
                "sem-open /s --create",
                b"\0\0\0\x0c\x0b\0\x02/s\x01\x01\x80\0\0\0\0",
            ),
            Ask("stat mq /q", b"\0\0\0\x07\x13\x01\x01\0\x02/q"),
            Ask("interrupt", b"\0\0\0\x01\x17"),
        ],
    ),
    (
        "write_answer",
        &[
            Answer(b"\0\0\0\x09\x41\0\0\0\0\0\0\0\0"),
            Answer(b"\0\0\0\x07\x47\0\0\0\x05hi"),
            Answer(b"\0\0\0\x0d\x49\0\x03\0\x02/a\0\0\0\x02/b"),
            Answer(
                b"\0\0\0\x1a\x4b\0\x01\0\0\0\0\0\0\0\x03\xff\xff\xff\xff\xff\xff\xff\xff\x01\0\0\0\x02/x",
            ),
            Answer(b"\0\0\0\x03\x4c\0\x1f"),
        ],
    ),
];

/// Whether these are the frames of the requests.
fn are_frames(alloc: Global, requests: &[Request], wanted: &[u8]) -> Result<bool, Fault> {
    let mut bytes = Vec::new(alloc);
    for request in requests {
        put_request(&mut bytes, request)?;
    }
    Ok(bytes.as_slice() == wanted)
}

/// Feeds the piece, and says whether these are the frames of the requests that it gives.
fn feeds(frames: &mut Frames, alloc: Global, piece: &[u8], wanted: &[u8]) -> Result<bool, Fault> {
    let requests = frames.feed(alloc, piece)?;
    match are_frames(alloc, &requests, wanted) {
        Ok(given) => Ok(given),
        Err(fault) => Err(fault.of_case()),
    }
}

/// Whether the command's request has this frame, and is read from it.
fn is_request(alloc: Global, command: &str, wanted: &[u8]) -> Result<bool, Fault> {
    let written = write_request(alloc, &Request::Do(call(alloc, command)?))?;
    match read_request(alloc, false, &written)? {
        Some((request, b"")) => Ok(write_request(alloc, &request)?.as_slice() == wanted),
        _ => Ok(false),
    }
}

/// Whether the answer that is read from this frame has it.
fn is_answer(alloc: Global, wanted: &[u8]) -> Result<bool, Fault> {
    match read_answer(alloc, wanted)? {
        Some((answer, length)) => {
            let written = write_answer(alloc, &answer)?;
            Ok(written.as_slice() == wanted && length == wanted.len())
        }
        None => Ok(false),
    }
}

impl Subject for Frames {
    type Step = Step;

    type Seen = Option<WireFault>;

    fn gives(&mut self, alloc: Global, step: &Step) -> Result<bool, Fault> {
        match step {
            Feed(piece, wanted) => feeds(self, alloc, piece, wanted),
            Ended(wanted) => Ok(self.fault() == *wanted),
            Ask(command, wanted) => is_request(alloc, command, wanted),
            Answer(wanted) => is_answer(alloc, wanted),
        }
    }

    fn seen(&self, _alloc: Global, _step: &Step) -> Result<Option<WireFault>, Fault> {
        Ok(self.fault())
    }
}

impl Fresh for Frames {
    fn fresh(alloc: Global) -> Result<Frames, Fault> {
        Ok(Frames::new(alloc))
    }
}
