//! Hubs.

use crate::fault::Fault;
use crate::made::config;
use crate::subject::{Fresh, Subject};
use ipc_hub::{Conn, End, Fed, Hub, HubFault};
use ipc_wire::WireFault;
use std::alloc::Global;

pub enum Step {
    /// Opens the connection of this number.
    Open(u64),
    /// Feeds a piece, and then nothing as long as a step runs out of memory; what becomes of it.
    Feed(u64, &'static [u8], Fed),
    /// The same as long as fewer answers are untaken.
    FeedSome(u64, &'static [u8], usize, Fed),
    HangUp(u64),
    Tick(u64),
    /// What the connection takes.
    Take(u64, &'static [u8]),
    /// The same behind bytes that stay.
    TakeInto(u64, &'static [u8]),
    /// The connection that was answered.
    Next(Option<u64>),
    /// Calls on the connection are answered so.
    Ended(u64, HubFault),
}

use Step::{Ended, Feed, FeedSome, HangUp, Next, Open, Take, TakeInto, Tick};

/// A hello by the key `ka1`, an open of `/a` that creates it, a send and a receive.
const ALL: &[u8] =
    b"\0\0\0\x06\x01\0\x03ka1\0\0\0\x0a\x03\0\x02/a\x03\x01\x01\xb6\0\0\0\0\x0f\x06\0\0\0\0\0\0\0\0\0\0\0\x05hi\0\0\0\x0d\x07\0\0\0\0\0\0\0\0\0\0\x20\0";

/// What it is answered.
const ALL_ANSWERS: &[u8] =
    b"\0\0\0\x09\x41\0\0\0\0\0\0\0\0\0\0\0\x09\x43\0\0\0\0\0\0\0\0\0\0\0\x01\x46\0\0\0\x07\x47\0\0\0\x05hi";

/// All but the last, and that.
const FIRST_ANSWERS: &[u8] =
    b"\0\0\0\x09\x41\0\0\0\0\0\0\0\0\0\0\0\x09\x43\0\0\0\0\0\0\0\0\0\0\0\x01\x46";

const LAST_ANSWER: &[u8] = b"\0\0\0\x07\x47\0\0\0\x05hi";

/// A hello by the key `kb1`.
const HELLO: &[u8] = b"\0\0\0\x06\x01\0\x03kb1";

/// A session 1 was started.
const STARTED: &[u8] = b"\0\0\0\x09\x41\0\0\0\0\0\0\0\x01";

/// A hello by the key `ka1`, an open of `/s` that creates it, and a wait for it until the moment 5.
const TIMED_WAIT: &[u8] =
    b"\0\0\0\x06\x01\0\x03ka1\0\0\0\x0c\x0b\0\x02/s\x01\x01\xb6\0\0\0\0\0\0\0\x11\x1c\0\0\0\0\0\0\0\0\0\0\0\0\0\0\0\x05";

/// What it is answered before that moment.
const WAITING: &[u8] = b"\0\0\0\x09\x41\0\0\0\0\0\0\0\0\0\0\0\x09\x43\0\0\0\0\0\0\0\0";

/// The same of session 1.
const WAITING_BEHIND: &[u8] = b"\0\0\0\x09\x41\0\0\0\0\0\0\0\x01\0\0\0\x09\x43\0\0\0\0\0\0\0\0";

/// And at that moment.
const TIMED_OUT: &[u8] = b"\0\0\0\x03\x4c\0\x20";

/// What stands in a buffer before frames are put behind it.
const FRONT: &[u8] = b"in front";

/// How often nothing is fed.
const FEEDS: usize = 3;

pub static CASES: [(&str, &[Step]); 6] = [
    (
        "Hub::feed",
        &[
            Open(0),
            Feed(0, ALL, Fed::Done),
            Take(0, ALL_ANSWERS),
            Take(0, b""),
            Open(1),
            Open(2),
            Open(3),
            Feed(2, b"\0\0\0\x05\x01\0\x02zz", Fed::Over(End::BadKey)),
            Feed(1, HELLO, Fed::Done),
            // Opens the queue to read, and parks a receive.
            Feed(
                1,
                b"\0\0\0\x0a\x03\0\x02/a\x01\0\0\0\0\0\0\0\x0d\x07\0\0\0\0\0\0\0\x01\0\0\x20\0",
                Fed::Done,
            ),
            // Sends to it, and a fault follows.
            Feed(
                0,
                b"\0\0\0\x0f\x06\0\0\0\0\0\0\0\0\0\0\0\x05ho\0\0\0\0",
                Fed::Over(End::Wire(WireFault::Empty)),
            ),
            Take(0, b"\0\0\0\x01\x46"),
            Take(2, b"\0\0\0\x03\x4c\0\x1f"),
            Ended(2, HubFault::Ended),
            Ended(0, HubFault::Ended),
            Ended(9, HubFault::NoSuchConn),
        ],
    ),
    (
        "Hub::feed_some",
        &[
            Open(0),
            FeedSome(0, ALL, 3, Fed::Full),
            Take(0, FIRST_ANSWERS),
            FeedSome(0, b"", 3, Fed::Done),
            Take(0, LAST_ANSWER),
        ],
    ),
    (
        "Hub::next_answered",
        &[
            Open(0),
            Open(1),
            Next(None),
            Feed(1, HELLO, Fed::Done),
            Next(Some(1)),
            Next(None),
            Feed(0, TIMED_WAIT, Fed::Done),
            TakeInto(0, WAITING_BEHIND),
            TakeInto(1, b"\0\0\0\x09\x41\0\0\0\0\0\0\0\0"),
            Next(Some(0)),
            Tick(5),
            Next(Some(0)),
            Next(None),
            TakeInto(0, TIMED_OUT),
        ],
    ),
    (
        "Hub::hang_up",
        &[
            Open(0),
            Feed(0, b"\0\0\0\x06\x01\0\x03ka1\0\0\0", Fed::Done),
            HangUp(0),
            Take(0, b"\0\0\0\x09\x41\0\0\0\0\0\0\0\0"),
            Ended(0, HubFault::Ended),
            Open(1),
            HangUp(1),
            Take(1, b""),
        ],
    ),
    (
        "Hub::tick",
        &[
            Open(0),
            Open(1),
            Feed(0, TIMED_WAIT, Fed::Done),
            Feed(1, HELLO, Fed::Done),
            Tick(4),
            Take(0, WAITING),
            Tick(5),
            Take(1, STARTED),
            Take(0, TIMED_OUT),
            Tick(5),
            Take(0, b""),
        ],
    ),
    (
        "Hub::take",
        &[
            Open(0),
            Open(1),
            Feed(0, ALL, Fed::Done),
            Feed(1, HELLO, Fed::Done),
            Take(1, STARTED),
            Take(0, ALL_ANSWERS),
        ],
    ),
];

/// Feeds nothing until each step was made, and gives what becomes of what was fed.
fn feed_nothing(hub: &mut Hub, alloc: Global, conn: Conn, most: usize) -> Result<Fed, Fault> {
    for _ in 0..FEEDS {
        match hub.feed_some(alloc, conn, b"", most) {
            Ok(Fed::Short) | Err(HubFault::NoMemory) => {}
            Ok(fed) => return Ok(fed),
            Err(_) => return Err(Fault::Otherwise),
        }
    }
    Err(Fault::Anew)
}

fn feed(hub: &mut Hub, alloc: Global, conn: Conn, piece: &[u8]) -> Result<Fed, Fault> {
    match hub.feed(alloc, conn, piece)? {
        Fed::Short => feed_nothing(hub, alloc, conn, usize::MAX),
        fed => Ok(fed),
    }
}

fn feed_some(
    hub: &mut Hub,
    alloc: Global,
    conn: Conn,
    piece: &[u8],
    most: usize,
) -> Result<Fed, Fault> {
    match hub.feed_some(alloc, conn, piece, most)? {
        Fed::Short => feed_nothing(hub, alloc, conn, most),
        fed => Ok(fed),
    }
}

/// Whether these frames are put behind what stands in a buffer. Where they are not, it stays.
fn takes_behind(hub: &mut Hub, alloc: Global, conn: Conn, wanted: &[u8]) -> Result<bool, Fault> {
    let mut bytes = Vec::from_slice(alloc, FRONT)?;
    let answer = hub.take_into(conn, &mut bytes);
    let (front, taken) = bytes.as_slice().split_at(FRONT.len().min(bytes.len()));
    if front != FRONT || (answer.is_err() && !taken.is_empty()) {
        return Err(Fault::Otherwise);
    }
    answer?;
    Ok(taken == wanted)
}

impl Subject for Hub {
    type Step = Step;

    /// Nothing of a hub is seen but what is taken from it.
    type Seen = ();

    fn gives(&mut self, alloc: Global, step: &Step) -> Result<bool, Fault> {
        Ok(match *step {
            Open(number) => self.open(alloc)? == Conn(number),
            Feed(number, piece, wanted) => feed(self, alloc, Conn(number), piece)? == wanted,
            FeedSome(number, piece, most, wanted) => {
                feed_some(self, alloc, Conn(number), piece, most)? == wanted
            }
            HangUp(number) => {
                self.hang_up(alloc, Conn(number))?;
                true
            }
            Tick(moment) => {
                self.tick(alloc, moment)?;
                true
            }
            Take(number, wanted) => self.take(alloc, Conn(number))?.as_slice() == wanted,
            TakeInto(number, wanted) => takes_behind(self, alloc, Conn(number), wanted)?,
            Next(wanted) => self.next_answered() == wanted.map(Conn),
            Ended(number, fault) => self.hang_up(alloc, Conn(number)) == Err(fault),
        })
    }

    fn seen(&self, _alloc: Global, _step: &Step) -> Result<(), Fault> {
        Ok(())
    }
}

impl Fresh for Hub {
    fn fresh(alloc: Global) -> Result<Hub, Fault> {
        Ok(Hub::new(alloc, config(alloc)?)?)
    }
}
