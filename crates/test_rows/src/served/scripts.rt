//! Scripts, served by the loop: a label's session is a connection, and each step a frame of it.
//!
//! A hello connects a link, and a hang-up is the end of what its peer sends; a call goes by the link of the label's newest
//! session, and a tick is a moment of the clock. What links take is written as a script writes it: first what the step's own link
//! takes, then what another does, each under the label that started its session. It is compared with what the script writes.
//! These have no frame:
//!
//! - a line at fault: what the script writes of it is written here too, as a client does
//! - a call or a hang-up of a label without a live session: no link is there to send it by. It is left out, and counted
//! - a tick that ends no call: the loop makes none, so none is recorded
//!
//! Each is served by a server that keeps all records, and one that shows no records also by a server that keeps one at most.
//!
//! A script whose outcome hangs by what is left out is one of `LEFT_OUT`, and one that ends before its steps has none to serve.

use crate::files::{first_difference, read_or};
use crate::scripts::{ROWS, words_of};
use crate::served::play::Play;
use anyhow::{Result, bail};
use ipc_access::Users;
use ipc_core::{Config, Limits};
use ipc_lines::{LineFault, Lines};
use ipc_loop::Keeping;
use ipc_program::{Task, task_of_words};
use std::alloc::Global;
use std::fs;
use std::rt::Files;
use test_links::Cut;

/// Scripts that are not served. In the first three several calls are due at one moment: a tick of a script ends one, and the loop
/// ends all in one round. The others read records of ticks that end nothing, or of a call without a session.
const LEFT_OUT: [&str; 6] = [
    "timed_calls",
    "timed_calls_end_by_place",
    "timed_out_and_called_again",
    "audit_pages",
    "ticks_in_the_audit",
    "tick_words",
];

/// One record is kept, and none once another is made.
const FEWEST: Keeping = Keeping {
    records: Some(1),
    bytes: Some(0),
};

/// How links are cut, and how many records are kept.
const WAYS: [(Cut, Keeping); 3] = [
    (Cut::Whole, Keeping::ALL),
    (Cut::Pieces(1), Keeping::ALL),
    (Cut::Pieces(2), FEWEST),
];

/// The next line, and `None` at the end, or where it is at fault: there a script stops too.
fn next_line<'a>(lines: &'a mut Lines<&[u8]>) -> Result<Option<&'a str>> {
    match lines.next_line() {
        Ok(line) => Ok(line),
        Err(LineFault::Bad(_)) => Ok(None),
        Err(_) => bail!("a line isn't read"),
    }
}

/// The users of the lines up to a line `.`. `None` where they are at fault.
fn users_in(alloc: Global, lines: &mut Lines<&[u8]>) -> Result<Option<Users>> {
    let mut file = Vec::new(alloc);
    for _ in 0..u64::MAX {
        let Some(line) = next_line(lines)? else {
            return Ok(None);
        };
        if line == "." {
            break;
        }
        file.extend_from_slice(line.as_bytes())?;
        file.push(b'\n')?;
    }
    Ok(Users::read(alloc, &file).ok())
}

/// The limits by the arguments, one a line. `None` where they are at fault.
fn limits_in(alloc: Global, arguments: &str) -> Result<Option<Limits>> {
    let words = words_of(alloc, arguments)?;
    match task_of_words(alloc, "", &words) {
        Ok(Task::Script(limits)) => Ok(Some(limits)),
        _ => Ok(None),
    }
}

/// Plays the lines, and ends all links.
fn play_all(play: &mut Play, lines: &mut Lines<&[u8]>) -> Result<()> {
    for _ in 0..u64::MAX {
        let Some(line) = next_line(lines)? else {
            break;
        };
        play.take_line(line)?;
    }
    play.end_all()
}

/// What the script writes where it is served, and how many calls are left out. `None` where it has no steps.
fn served(
    alloc: Global,
    (cut, keeping): (Cut, Keeping),
    limits: Limits,
    input: &[u8],
) -> Result<Option<(String, u64)>> {
    let Ok(mut lines) = Lines::new(alloc, input) else {
        bail!("no memory");
    };
    let Some(users) = users_in(alloc, &mut lines)? else {
        return Ok(None);
    };
    let Ok(mut play) = Play::new(alloc, Config { users, limits }, cut, keeping) else {
        return Ok(None);
    };
    let played = play_all(&mut play, &mut lines);
    let (output, left_out) = play.into_output();
    match played {
        Ok(()) => Ok(Some((output, left_out))),
        Err(fault) => Ok(Some((format!(in alloc; "{output}{fault}")?, left_out))),
    }
}

/// Whether the script of this name is answered as it must be, and else where it first isn't.
fn judge(rt: &(impl Files + AllocGlobal), name: &str) -> Result<String> {
    let alloc = rt.alloc();
    let input = fs::read(rt, format!(in alloc; "{name}.in")?)?;
    let wanted = read_or(rt, name, "out", "")?;
    let Some(limits) = limits_in(alloc, read_or(rt, name, "args", "")?.as_str())? else {
        return Ok(String::from_str(alloc, "no steps")?);
    };
    let mut verdict = String::from_str(alloc, "as written")?;
    for (number, way) in WAYS.iter().enumerate() {
        if way.1 == FEWEST && shows_records(wanted.as_str()) {
            continue;
        }
        let Some((given, left_out)) = served(alloc, *way, limits, &input)? else {
            return Ok(String::from_str(alloc, "no steps")?);
        };
        if let Some(difference) = first_difference(alloc, given.as_str(), wanted.as_str())? {
            return Ok(format!(in alloc; "way {number}: {difference}")?);
        }
        if left_out > 0 {
            verdict = format!(in alloc; "as written; calls without a session: {left_out}")?;
        }
    }
    Ok(verdict)
}

/// Whether a session is shown records of the trail.
fn shows_records(lines: &str) -> bool {
    for line in lines.lines() {
        if line.split_once(" records ").is_some() {
            return true;
        }
    }
    false
}

/// Steps of user 0, and what they write where the newest record alone is kept: an audit begins at the oldest that is left when it
/// is stepped, and never before.
const AUDITS: &str =
    "root:k:0:0::\n.\nr hello k\nr umask 027\nr umask 022\nr audit 0 5\nr audit 2 5\nr audit 9 5\n";

const WRITTEN: &str =
    "r started 0\nr mask 022\nr mask 027\nr records 1 2:0:umask:0:hex:\nr records 1 3:0:audit:0:hex:\nr records 0\n";

/// Whether audits begin at the oldest record that is kept.
fn judge_audits(alloc: Global) -> Result<String> {
    let keeping = Keeping {
        records: Some(1),
        bytes: None,
    };
    let way = (Cut::Whole, keeping);
    let Some((given, _)) = served(alloc, way, Limits::STANDARD, AUDITS.as_bytes())? else {
        return Ok(String::from_str(alloc, "no steps")?);
    };
    match first_difference(alloc, given.as_str(), WRITTEN)? {
        Some(difference) => Ok(difference),
        None => Ok(String::from_str(alloc, "as written")?),
    }
}

/// Prints for each script whether it is answered by the loop as it must be.
pub fn run(rt: &HostRuntime) -> Result<()> {
    for name in &ROWS {
        if LEFT_OUT.iter().any(|other| *other == *name) {
            println!(rt; "served {name}: left out")?;
            continue;
        }
        let verdict = judge(rt, format!(in rt.alloc(); "scripts/{name}")?.as_str())?;
        println!(rt; "served {name}: {verdict}")?;
    }
    let verdict = judge_audits(rt.alloc())?;
    println!(rt; "served audits of the newest record: {verdict}")?;
    Ok(())
}
