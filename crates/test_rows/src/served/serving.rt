//! One stream, and what its link takes.

use crate::files::{first_difference, read};
use crate::served::memory::{Link, Manner, Memory};
use crate::streams::common::{bytes_of, config};
use anyhow::Result;
use ipc_loop::Server;
use std::alloc::Global;
use std::rt::Files;
use test_links::Cut;

/// How many links are open at once.
const CONNECTIONS: usize = 8;

/// How the links give and take.
const MANNERS: [Manner; 4] = [
    Manner::PLAIN,
    Manner {
        most: 7,
        ..Manner::PLAIN
    },
    Manner {
        most: 1,
        ..Manner::PLAIN
    },
    Manner {
        most: 3,
        waits: true,
        fails_at: None,
    },
];

/// How links that know their moves give and take.
pub const CUTS: [Cut; 2] = [Cut::Whole, Cut::Pieces(1)];

/// How many rounds a server takes at most.
const MOST_ROUNDS: u32 = 100_000;

/// The digits of the first line that tells what is taken.
fn taken_in(lines: &str) -> &str {
    for line in lines.lines() {
        if let Some(rest) = line.strip_prefix("take Ok(") {
            return rest.strip_suffix(')').unwrap_or(rest);
        }
    }
    ""
}

fn new_server(alloc: Global, links: u64) -> Result<Server> {
    Ok(Server::new(alloc, config(alloc)?, CONNECTIONS, Some(links))?)
}

/// Serves the links until all are closed. Says whether they were in time.
fn serve_all(server: &mut Server, host: &mut Memory) -> Result<bool> {
    for _ in 0..MOST_ROUNDS {
        if server.is_over() {
            return Ok(true);
        }
        server.round(host)?;
    }
    Ok(false)
}

/// What is wrong with what a link took.
fn difference(alloc: Global, link: Option<&Link>, wanted: &str) -> Result<Option<String>> {
    let Some(link) = link else {
        return Ok(Some(String::from_str(alloc, "no link")?));
    };
    let given = hex::encode(alloc, link.taken.as_slice())?;
    Ok(first_difference(alloc, given.as_str(), wanted)?)
}

/// What is wrong where the stream is served beside another, and the links behave so.
fn differs(
    alloc: Global,
    manner: Manner,
    (stream, wanted): (&[u8], &str),
    (beside, theirs): (&[u8], &str),
) -> Result<Option<String>> {
    let mut host = Memory::new(alloc, &[stream, beside], manner)?;
    let mut server = new_server(alloc, 2)?;
    let in_time = serve_all(&mut server, &mut host);
    drop(server);
    if !in_time? {
        return Ok(Some(String::from_str(alloc, "goes on")?));
    }
    if !host.was_told_first() {
        return Ok(Some(String::from_str(alloc, "answers before it saves")?));
    }
    match difference(alloc, host.links.first(), wanted)? {
        Some(difference) => Ok(Some(difference)),
        None => difference(alloc, host.links.get(1), theirs),
    }
}

/// How many reads and writes are made to fail, one each time.
const MOST_FAILED: u64 = 12;

/// What is wrong where the read or write of this number fails: the server must end, that link alone must end by it, and the
/// first link must have taken the first of what it takes else.
fn breaks(
    alloc: Global,
    fails_at: u64,
    (stream, wanted): (&[u8], &str),
    beside: &[u8],
) -> Result<Option<String>> {
    let manner = Manner {
        fails_at: Some(fails_at),
        ..Manner::PLAIN
    };
    let mut host = Memory::new(alloc, &[stream, beside], manner)?;
    let mut server = new_server(alloc, 2)?;
    let in_time = serve_all(&mut server, &mut host);
    drop(server);
    let Some(link) = host.links.first() else {
        return Ok(Some(String::from_str(alloc, "no link")?));
    };
    let given = hex::encode(alloc, link.taken.as_slice())?;
    if in_time? && host.failed_alone() && wanted.starts_with(given.as_str()) {
        return Ok(None);
    }
    Ok(Some(format!(in alloc; "takes {given}")?))
}

/// Whether the stream of this name is answered as it must be, however its link behaves, and else how it isn't.
pub fn judge(rt: &(impl Files + AllocGlobal), name: &str) -> Result<String> {
    let alloc = rt.alloc();
    let stream = bytes_of(alloc, read(rt, name, "in")?.as_str())?;
    let out = read(rt, name, "out")?;
    let beside = bytes_of(alloc, read(rt, "streams/beside", "in")?.as_str())?;
    let theirs = read(rt, name, "beside")?;
    let ours = (stream.as_slice(), taken_in(out.as_str()));
    let others = (beside.as_slice(), taken_in(theirs.as_str()));
    for (number, manner) in MANNERS.iter().enumerate() {
        if let Some(difference) = differs(alloc, *manner, ours, others)? {
            return Ok(format!(in alloc; "manner {number}: {difference}")?);
        }
    }
    for fails_at in 1..=MOST_FAILED {
        if let Some(difference) = breaks(alloc, fails_at, ours, others.0)? {
            return Ok(format!(in alloc; "failure {fails_at}: {difference}")?);
        }
    }
    Ok(String::from_str(alloc, "as written")?)
}
