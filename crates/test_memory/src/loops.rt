//! The loop over links that know their moves. A round that is refused memory goes on in the next: each link takes what it takes in
//! ample memory, and the trail has the same records. But where the buffer of a link's own answers can't grow, that link is cut:
//! what it took by then is the beginning of that, all links are closed once their peers send no more, and the case begins anew.

use crate::books::TRIES;
use crate::fault::Fault;
use crate::made::config;
use crate::subject::Outcome;
use ipc_loop::{Ending, Server};
use ipc_terms::Uid;
use ipc_wire::WireFault;
use std::alloc::Global;
use test_links::{Cut, Recorder, settle};

/// What a link's peer does, or the clock.
enum Step {
    /// Connects the link of this number.
    Connect(u64),
    /// Sends a piece.
    Send(u64, &'static [u8]),
    /// Sends no more.
    Finish(u64),
    /// The clock shows a moment.
    Show(u64),
}

use Step::{Connect, Finish, Send, Show};

static STEPS: [Step; 18] = [
    // Ann creates `/a`, and bob, who opens it, parks a receive.
    Connect(0),
    Send(
        0,
        b"\0\0\0\x06\x01\0\x03ka1\0\0\0\x0a\x03\0\x02/a\x03\x01\x01\xb6\0",
    ),
    Connect(1),
    Send(
        1,
        b"\0\0\0\x06\x01\0\x03kb1\0\0\0\x0a\x03\0\x02/a\x01\0\0\0\0",
    ),
    Send(1, b"\0\0\0\x0d\x07\0\0\0\0\0\0\0\x01\0\0\x20\0"),
    // Her send serves it.
    Send(0, b"\0\0\0\x0f\x06\0\0\0\0\0\0\0\0\0\0\0\x05ho"),
    // Nobody's key.
    Connect(2),
    Send(2, b"\0\0\0\x05\x01\0\x02zz"),
    // Bob receives until the moment 5, which comes.
    Send(
        1,
        b"\0\0\0\x15\x1b\0\0\0\0\0\0\0\x01\0\0\x20\0\0\0\0\0\0\0\0\x05",
    ),
    Show(5),
    // A hello, and a frame at fault.
    Connect(3),
    Send(3, b"\0\0\0\x06\x01\0\x03ka1\0\0\0\0"),
    Finish(0),
    Finish(1),
    // The user 0 reads the trail.
    Connect(4),
    Send(4, b"\0\0\0\x07\x01\0\x04r00t"),
    Send(4, b"\0\0\0\x0b\x18\0\0\0\0\0\0\0\0\x03\xe8"),
    Finish(4),
];

/// What comes of a link.
struct Served {
    /// What it takes.
    taken: &'static [u8],
    /// Whose it is, if its hello is accepted.
    user: Option<u32>,
    /// How many of its requests are stepped.
    requests: u64,
    ending: Ending,
}

/// What comes of each link. The last takes `RECORDS` too.
static LINKS: [Served; 5] = [
    Served {
        taken: b"\0\0\0\x09\x41\0\0\0\0\0\0\0\0\0\0\0\x09\x43\0\0\0\0\0\0\0\0\0\0\0\x01\x46",
        user: Some(1000),
        requests: 3,
        ending: Ending::Closed,
    },
    Served {
        taken: b"\0\0\0\x09\x41\0\0\0\0\0\0\0\x01\0\0\0\x09\x43\0\0\0\0\0\0\0\x01\0\0\0\x07\x47\0\0\0\x05ho\0\0\0\x03\x4c\0\x20",
        user: Some(1001),
        requests: 4,
        ending: Ending::Closed,
    },
    Served {
        taken: b"\0\0\0\x03\x4c\0\x1f",
        user: None,
        requests: 1,
        ending: Ending::BadKey,
    },
    Served {
        taken: b"\0\0\0\x09\x41\0\0\0\0\0\0\0\x02",
        user: Some(1000),
        requests: 1,
        ending: Ending::Wire(WireFault::Empty),
    },
    Served {
        taken: b"\0\0\0\x09\x41\0\0\0\0\0\0\0\x03",
        user: Some(0),
        requests: 2,
        ending: Ending::Closed,
    },
];

/// In a record, whose hello and tick are.
const NOBODY: u64 = u64::MAX;

/// The session, the call, the rule and the name of each record, the name behind its length.
static RECORDS: [(u64, u8, u16, &[u8]); 14] = [
    (NOBODY, 1, 0, b"\0\0"),
    (0, 3, 0, b"\0\x02/a"),
    (NOBODY, 1, 0, b"\0\0"),
    (1, 3, 0, b"\0\x02/a"),
    (1, 7, 0, b"\0\0"),
    (0, 6, 0, b"\0\0"),
    (NOBODY, 1, 31, b"\0\0"),
    (1, 27, 0, b"\0\0"),
    (NOBODY, 29, 0, b"\0\0"),
    (NOBODY, 1, 0, b"\0\0"),
    (2, 25, 0, b"\0\0"),
    (0, 25, 0, b"\0\0"),
    (1, 25, 0, b"\0\0"),
    (NOBODY, 1, 0, b"\0\0"),
];

/// Puts the frame of the records behind what stands there.
fn put_records(out: &mut Vec<u8>) -> Result<(), Fault> {
    out.extend_from_slice(b"\0\0\x01\x2d\x4b\0\x0e")?;
    for (place, (session, call, rule, name)) in RECORDS.iter().enumerate() {
        out.extend_from_slice(&(place as u64).to_be_bytes())?;
        out.extend_from_slice(&session.to_be_bytes())?;
        out.push(*call)?;
        out.extend_from_slice(&rule.to_be_bytes())?;
        out.extend_from_slice(name)?;
    }
    Ok(())
}

/// All that the link takes.
fn wanted_of(alloc: Global, number: u64, front: &[u8]) -> Result<Vec<u8>, Fault> {
    let mut all = Vec::from_slice(alloc, front)?;
    if number.saturating_add(1) == LINKS.len() as u64 {
        put_records(&mut all)?;
    }
    Ok(all)
}

fn act(host: &mut Recorder, step: &Step) -> Result<(), Fault> {
    match *step {
        Connect(number) => if host.connect()? != number {
            return Err(Fault::Otherwise);
        },
        Send(number, piece) => host.send(number, piece)?,
        Finish(number) => host.finish(number),
        Show(moment) => host.show(moment),
    }
    Ok(())
}

/// Has the server come to rest.
fn rest(server: &mut Server, host: &mut Recorder) -> Result<(), Fault> {
    match settle(server, host) {
        Ok(true) => Ok(()),
        _ => Err(Fault::Otherwise),
    }
}

/// Makes the steps, each with the rounds that it brings.
fn act_all(server: &mut Server, host: &mut Recorder) -> Result<(), Fault> {
    for step in &STEPS {
        act(host, step)?;
        rest(server, host)?;
    }
    Ok(())
}

/// Whether a link that ended so, and took so much, may have been cut for want of memory: what it took is the beginning. A
/// link that was over before keeps the reason of that.
fn may_be_cut(ended: Ending, ending: Ending, taken: &[u8], wanted: &[u8]) -> bool {
    let was_over = ended == ending && ended != Ending::Closed && taken.len() < wanted.len();
    (ended == Ending::NoMemory || was_over) && wanted.starts_with(taken)
}

/// Whether the host was told whose the link is, and how many of its requests were stepped.
fn is_told(host: &Recorder, number: u64, link: &Served) -> bool {
    host.user(number) == link.user.map(Uid) && host.requests(number) == Some(link.requests)
}

/// Whether the link took all that it takes, and ended as it ends. `Anew` where it was cut for want of memory.
fn is_served(alloc: Global, host: &Recorder, number: u64, link: &Served) -> Result<bool, Fault> {
    let wanted = wanted_of(alloc, number, link.taken)?;
    let taken = host.taken(number)?;
    match host.ending(number) {
        Some(ended) if may_be_cut(ended, link.ending, &taken, &wanted) => Err(Fault::Anew),
        ended => Ok(ended == Some(link.ending) && taken == wanted && is_told(host, number, link)),
    }
}

/// Whether all links are closed once no peer sends any more.
fn close_all(server: &mut Server, host: &mut Recorder) -> Result<bool, Fault> {
    for number in 0..LINKS.len() as u64 {
        host.finish(number);
    }
    rest(server, host)?;
    for number in 0..LINKS.len() as u64 {
        if host.ending(number).is_none() {
            return Ok(false);
        }
    }
    Ok(true)
}

/// Whether each link is served. Where one was cut, the case is to begin anew.
fn are_served(alloc: Global, host: &Recorder) -> Result<bool, Fault> {
    let mut all = true;
    let mut is_cut = false;
    for (number, link) in LINKS.iter().enumerate() {
        match is_served(alloc, host, number as u64, link) {
            Ok(is_served) => all &= is_served,
            Err(Fault::Anew) => is_cut = true,
            Err(fault) => return Err(fault.of_case()),
        }
    }
    if is_cut {
        return Err(Fault::Anew);
    }
    Ok(all)
}

/// Serves the links over a new server.
fn serve(alloc: Global, server: &mut Server, cut: Cut) -> Result<bool, Fault> {
    let mut host = Recorder::new(alloc, cut);
    if let Err(fault) = act_all(server, &mut host) {
        return Err(fault.of_case());
    }
    if !close_all(server, &mut host)? {
        return Ok(false);
    }
    are_served(alloc, &host)
}

fn serve_once(alloc: Global, cut: Cut) -> Result<bool, Fault> {
    let mut server = Server::new(alloc, config(alloc)?, LINKS.len(), None)?;
    let served = serve(alloc, &mut server, cut);
    drop(server);
    served
}

/// Serves the links, which cut so what they give and take; anew, where one was cut for want of memory.
pub fn go_anew(alloc: Global, cut: Cut) -> Outcome {
    for _ in 0..TRIES {
        match serve_once(alloc, cut) {
            Ok(true) => return Ok(()),
            Ok(false) => return Err((0, Fault::Otherwise)),
            Err(Fault::Refused | Fault::Anew) => {}
            Err(fault) => return Err((0, fault)),
        }
    }
    Err((0, Fault::Refused))
}
