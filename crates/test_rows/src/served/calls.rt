//! Calls on several connections of a hub, over links of the loop.
//!
//! What a connection is fed its link's peer sends, a hang-up is the end of what it sends, and a tick is a moment of the clock.
//! Each link takes all that its connection takes in the row. Of calls on a number without a connection nothing comes, since no
//! link has it.

use crate::files::{first_difference, read};
use crate::served::serving::CUTS;
use crate::streams::common::{bytes_of, config};
use anyhow::Result;
use ipc_loop::Server;
use std::alloc::Global;
use std::rt::Files;
use test_links::{Cut, Recorder, settle};

/// The rows, and how many links of each are compared. The last connection of the timed receive reads the records of ticks that
/// end no call: the loop makes none of these.
pub const ROWS: [(&str, usize); 6] = [
    ("receive_served_by_another_connection", 2),
    ("answered_connections_are_named", 3),
    ("timed_receive_ends_at_its_deadline", 2),
    ("frame_cut_off_by_the_hang_up", 2),
    ("trail_of_each_end", 4),
    ("numbers_not_given", 2),
];

/// How many links are open at once.
const CONNECTIONS: usize = 8;

/// The number in front, and what stands behind it.
fn numbered(words: &str) -> Result<(u64, &str)> {
    let (number, rest) = words.split_once(' ').unwrap_or((words, ""));
    Ok((number.parse::<u64>()?, rest))
}

fn send(alloc: Global, host: &mut Recorder, number: u64, digits: &str) -> Result<()> {
    let bytes = bytes_of(alloc, digits)?;
    host.send(number, &bytes)?;
    Ok(())
}

/// Does what the line of a call says.
fn act(alloc: Global, host: &mut Recorder, line: &str) -> Result<()> {
    let (call, rest) = line.split_once(' ').unwrap_or((line, ""));
    match call {
        "open" => {
            host.connect()?;
        }
        "feed" => {
            let (number, digits) = numbered(rest)?;
            send(alloc, host, number, digits)?;
        }
        "feed_some" => {
            let (number, rest) = numbered(rest)?;
            let (_, digits) = numbered(rest)?;
            send(alloc, host, number, digits)?;
        }
        "hang_up" => host.finish(numbered(rest)?.0),
        "tick" => host.show(numbered(rest)?.0),
        // What else a hub is asked, as who was answered, the loop asks by itself.
        _ => {}
    }
    Ok(())
}

/// Does what the lines say, one after the other. Says whether the server came to rest behind each.
fn act_all(alloc: Global, server: &mut Server, host: &mut Recorder, calls: &str) -> Result<bool> {
    for line in calls.lines() {
        act(alloc, host, line)?;
        if !settle(server, host)? {
            return Ok(false);
        }
    }
    Ok(true)
}

/// The digits of what a call takes, by its line and that of its answer.
fn digits_taken<'a>(call: &str, answer: &'a str) -> Option<(u64, &'a str)> {
    let (verb, number) = call.split_once(' ')?;
    let digits = match verb {
        "take" => answer.strip_prefix("take Ok(")?.strip_suffix(')')?,
        "take_into" => answer.strip_prefix("take_into Ok(()) abcd")?,
        _ => return None,
    };
    Some((number.parse::<u64>().ok()?, digits))
}

/// The digits of all that the connection takes in the row.
fn wanted_of(alloc: Global, number: u64, calls: &str, answers: &str) -> Result<String> {
    let mut digits = String::new(alloc);
    for (call, answer) in calls.lines().zip(answers.lines()) {
        if let Some((taker, more)) = digits_taken(call, answer) {
            if taker == number {
                digits.push_str(more)?;
            }
        }
    }
    Ok(digits)
}

/// What is wrong where the links cut so what they give and take.
fn differs(
    alloc: Global,
    cut: Cut,
    count: usize,
    calls: &str,
    answers: &str,
) -> Result<Option<String>> {
    let mut host = Recorder::new(alloc, cut);
    let mut server = Server::new(alloc, config(alloc)?, CONNECTIONS, None)?;
    let rests = act_all(alloc, &mut server, &mut host, calls);
    drop(server);
    if !rests? {
        return Ok(Some(String::from_str(alloc, "goes on")?));
    }
    for number in 0..count as u64 {
        let wanted = wanted_of(alloc, number, calls, answers)?;
        let given = hex::encode(alloc, host.taken(number)?)?;
        if let Some(difference) = first_difference(alloc, given.as_str(), wanted.as_str())? {
            return Ok(Some(format!(in alloc; "link {number}: {difference}")?));
        }
    }
    Ok(None)
}

/// Whether the links take what the connections of the row of this name take, and else which doesn't.
pub fn judge(rt: &(impl Files + AllocGlobal), name: &str, count: usize) -> Result<String> {
    let alloc = rt.alloc();
    let calls = read(rt, name, "calls")?;
    let answers = read(rt, name, "out")?;
    for (number, cut) in CUTS.iter().enumerate() {
        if let Some(difference) = differs(alloc, *cut, count, calls.as_str(), answers.as_str())? {
            return Ok(format!(in alloc; "cut {number}: {difference}")?);
        }
    }
    Ok(String::from_str(alloc, "as written")?)
}
