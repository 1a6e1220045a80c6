//! Streams of requests, and what they are answered.

use ipc_server::Ending;
use ipc_wire::WireFault;
use std::alloc::{AllocError, Global};

/// A hello with the key `ka1`.
pub(crate) const HELLO: &[u8] = b"\0\0\0\x06\x01\0\x03ka1";

/// Session 0 has started.
pub(crate) const STARTED: &[u8] = b"\0\0\0\x09\x41\0\0\0\0\0\0\0\0";

pub(crate) const INTERRUPT: &[u8] = b"\0\0\0\x01\x17";

/// The session is blocked in no call, so there is nothing to interrupt.
pub(crate) const NOT_IN_CALL: &[u8] = b"\0\0\0\x03\x4c\0\x03";

/// Opens the queue `/a` for both, and makes it where there is none.
pub(crate) const OPEN: &[u8] = b"\0\0\0\x0a\x03\0\x02/a\x03\x01\x01\xb6\0";

/// Description 0 is opened.
pub(crate) const OPENED: &[u8] = b"\0\0\0\x09\x43\0\0\0\0\0\0\0\0";

/// Sends `hi` to description 0, at priority 5.
pub(crate) const SEND: &[u8] = b"\0\0\0\x0f\x06\0\0\0\0\0\0\0\0\0\0\0\x05hi";

pub(crate) const SENT: &[u8] = b"\0\0\0\x01\x46";

/// Receives from description 0.
pub(crate) const RECEIVE: &[u8] = b"\0\0\0\x0d\x07\0\0\0\0\0\0\0\0\0\0\x20\0";

/// `hi` is received, at priority 5.
pub(crate) const RECEIVED: &[u8] = b"\0\0\0\x07\x47\0\0\0\x05hi";

const UMASK: &[u8] = b"\0\0\0\x03\x02\0\0";

/// Request frames, each with its answer.
pub(crate) type Frames = &'static [(&'static [u8], &'static [u8])];

/// A session sends a message and receives it.
pub(crate) const ONE_MESSAGE: Frames = &[
    (HELLO, STARTED),
    (OPEN, OPENED),
    (SEND, SENT),
    (RECEIVE, RECEIVED),
];

/// A connection's stream, and how it ends.
pub(crate) struct Stream {
    pub(crate) frames: Frames,
    /// What comes behind the last frame that is looked at.
    pub(crate) rest: &'static [u8],
    pub(crate) ending: Ending,
}

pub(crate) static STREAMS: [Stream; 16] = [
    Stream {
        frames: &[],
        rest: b"",
        ending: Ending::Closed,
    },
    Stream {
        frames: &[(HELLO, STARTED), (OPEN, OPENED)],
        rest: b"",
        ending: Ending::Closed,
    },
    Stream {
        frames: ONE_MESSAGE,
        rest: b"",
        ending: Ending::Closed,
    },
    Stream {
        frames: &[(HELLO, STARTED), (INTERRUPT, NOT_IN_CALL)],
        rest: b"",
        ending: Ending::Closed,
    },
    // A call that blocks is not answered.
    Stream {
        frames: &[(HELLO, STARTED), (OPEN, OPENED), (RECEIVE, b"")],
        rest: b"",
        ending: Ending::Closed,
    },
    Stream {
        frames: &[
            (HELLO, STARTED),
            (UMASK, b"\0\0\0\x03\x44\0\x12"),
            (UMASK, b"\0\0\0\x03\x44\0\0"),
        ],
        rest: b"",
        ending: Ending::Closed,
    },
    // Keys of nobody.
    Stream {
        frames: &[(b"\0\0\0\x05\x01\0\x02zz", b"\0\0\0\x03\x4c\0\x1f")],
        rest: b"",
        ending: Ending::BadKey,
    },
    Stream {
        frames: &[(b"\0\0\0\x03\x01\0\0", b"\0\0\0\x03\x4c\0\x1f")],
        rest: UMASK,
        ending: Ending::BadKey,
    },
    // Faults of the stream.
    Stream {
        frames: &[(HELLO, STARTED), (b"\0\0\0\0", b"")],
        rest: b"",
        ending: Ending::Wire(WireFault::Empty),
    },
    Stream {
        frames: &[(HELLO, STARTED), (b"\x01\0\0\x55", b"")],
        rest: b"",
        ending: Ending::Wire(WireFault::TooLong),
    },
    Stream {
        frames: &[(HELLO, STARTED), (b"\0\0\0\x01\xff", b"")],
        rest: b"",
        ending: Ending::Wire(WireFault::BadOpcode),
    },
    Stream {
        frames: &[(HELLO, STARTED), (b"\0\0\0\x01\x04", b"")],
        rest: b"",
        ending: Ending::Wire(WireFault::BadField),
    },
    Stream {
        frames: &[(HELLO, STARTED), (b"\0\0\0\x02\x17\0", b"")],
        rest: b"",
        ending: Ending::Wire(WireFault::Trailing),
    },
    // A call before the hello, and a second hello.
    Stream {
        frames: &[(INTERRUPT, b"")],
        rest: b"",
        ending: Ending::Wire(WireFault::BadOpcode),
    },
    Stream {
        frames: &[(HELLO, STARTED), (HELLO, b"")],
        rest: b"",
        ending: Ending::Wire(WireFault::BadOpcode),
    },
    // Calls before a fault are answered, and one behind it is not.
    Stream {
        frames: &[
            (HELLO, STARTED),
            (INTERRUPT, NOT_IN_CALL),
            (UMASK, b"\0\0\0\x03\x44\0\x12"),
            (b"\0\0\0\0", b""),
        ],
        rest: INTERRUPT,
        ending: Ending::Wire(WireFault::Empty),
    },
];

/// The frames, one behind the other.
pub(crate) fn bytes_of(alloc: Global, frames: Frames) -> Result<Vec<u8>, AllocError> {
    let mut bytes = Vec::new(alloc);
    for (frame, _) in frames {
        bytes.extend_from_slice(frame)?;
    }
    Ok(bytes)
}

/// What the frames are answered of which a stream of so many bytes has the whole.
pub(crate) fn answers_within(
    alloc: Global,
    frames: Frames,
    length: usize,
) -> Result<Vec<u8>, AllocError> {
    let mut answers = Vec::new(alloc);
    let mut left = length;
    for (frame, answer) in frames {
        let Some(rest) = left.checked_sub(frame.len()) else {
            break;
        };
        left = rest;
        answers.extend_from_slice(answer)?;
    }
    Ok(answers)
}
