//! What a hub answers to calls, a line a call.

use ipc_hub::{Conn, Hub};
use std::alloc::{AllocError, Global};

/// A call of a hub, on one connection but for a tick.
#[derive(Clone, Copy)]
pub enum Call<'a> {
    Feed(&'a [u8]),
    /// As long as fewer answers are untaken.
    FeedSome(&'a [u8], usize),
    HangUp,
    /// A tick of this moment.
    Tick(u64),
    /// What is taken is shown as hexadecimal digits.
    Take,
    /// Whether the connection is over, how many answers are untaken, and how many bytes are kept.
    Look,
}

pub fn line_of(alloc: Global, hub: &mut Hub, conn: Conn, call: Call) -> Result<String, AllocError> {
    match call {
        Call::Feed(piece) => {
            let answer = hub.feed(alloc, conn, piece);
            format!(in alloc; "feed {answer:?}\n")
        }
        Call::FeedSome(piece, most) => {
            let answer = hub.feed_some(alloc, conn, piece, most);
            format!(in alloc; "feed_some {answer:?}\n")
        }
        Call::HangUp => {
            let answer = hub.hang_up(alloc, conn);
            format!(in alloc; "hang_up {answer:?}\n")
        }
        Call::Tick(moment) => {
            let answer = hub.tick(alloc, moment);
            format!(in alloc; "tick {answer:?}\n")
        }
        Call::Take => match hub.take(alloc, conn) {
            Ok(bytes) => format!(in alloc; "take Ok({})\n", hex::encode(alloc, bytes)?),
            Err(fault) => format!(in alloc; "take Err({fault:?})\n"),
        },
        Call::Look => {
            let (is_over, untaken, kept) = (hub.is_over(conn), hub.untaken(conn), hub.kept(conn));
            format!(in alloc; "look {is_over:?} {untaken:?} {kept:?}\n")
        }
    }
}

/// Adds the answers to the calls.
pub fn put_lines(
    lines: &mut String,
    alloc: Global,
    hub: &mut Hub,
    conn: Conn,
    calls: &[Call],
) -> Result<(), AllocError> {
    for call in calls {
        lines.push_str(line_of(alloc, hub, conn, *call)?.as_str())?;
    }
    Ok(())
}
