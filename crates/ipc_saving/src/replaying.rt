//! A trail that is stepped again: what its records count up to, and lines of them or of answers.

use crate::showing::{Shown, shown_of, texts_of};
use ipc_access::Users;
use ipc_history::{Counts, HistoryFault, Past, TrailReader, replay, replay_next};
use ipc_program::{ProgramFault, Replaying, print_line, say, users_at};
use ipc_terms::EVERY_RULE;
use std::alloc::Global;
use std::fs::File;
use std::io::BufReader;
use std::rt::Files;

/// How many bytes are read at a time.
const PIECE: usize = 65_536;

/// What stands in front of the lines of a record that is retold.
const RETOLD: &str = "~";

/// A file of a trail, as it is read.
type Reading = TrailReader<BufReader<File>>;

/// Steps the records of the files again, of which each goes on where the one before it ends, and prints lines of those, or of those
/// answers, that are asked for; and what all count up to, and behind it that they are legal: the rule of each is the policy's verdict.
pub fn replay_trail<R: AllocGlobal + Files<File = File> + Print>(
    rt: &R,
    replaying: &Replaying,
) -> Result<(), ProgramFault> {
    let users = users_at(rt, replaying.users.as_str())?;
    // The arguments have one file or more.
    let Some((first, others)) = replaying.files.split_first() else {
        return Err(ProgramFault::Trail(HistoryFault::NoHead));
    };
    let shown = shown_of(replaying);
    let mut reader = open(rt, first.as_str())?;
    let mut past = begin(rt.alloc(), users, &mut reader, shown)?;
    go_through(rt, &mut past, reader, others, shown)
}

/// Steps what is left of the first file, and the other files.
fn go_through<R: AllocGlobal + Files<File = File> + Print>(
    rt: &R,
    past: &mut Past,
    mut reader: Reading,
    others: &[String],
    shown: Option<Shown>,
) -> Result<(), ProgramFault> {
    if let Some(shown) = shown {
        show(rt, past, &mut reader, shown)?;
    }
    for path in others {
        if reader.is_torn() {
            return Err(ProgramFault::CutOff(past.place()));
        }
        reader = open(rt, path.as_str())?;
        go_on(rt, past, &mut reader, shown)?;
    }
    if past.place() < past.retelling().records {
        return Err(ProgramFault::CutOff(past.place()));
    }
    tell(rt, past, reader.is_torn())
}

fn open<R: AllocGlobal + Files<File = File>>(rt: &R, path: &str) -> Result<Reading, ProgramFault> {
    let alloc = rt.alloc();
    let file = match File::open(rt, path) {
        Ok(file) => file,
        Err(error) => return Err(ProgramFault::of_file(&error)),
    };
    match BufReader::with_capacity(alloc, PIECE, file) {
        Ok(reader) => Ok(TrailReader::new(alloc, reader)),
        Err(error) => Err(ProgramFault::of_file(&error)),
    }
}

/// What happened by the first file. Where lines are printed no record is stepped yet.
fn begin(
    alloc: Global,
    users: Users,
    reader: &mut Reading,
    shown: Option<Shown>,
) -> Result<Past, ProgramFault> {
    match shown {
        None => Ok(replay(alloc, users, reader)?),
        Some(_) => before_all(alloc, users, reader),
    }
}

/// What happened before the first record.
fn before_all(alloc: Global, users: Users, reader: &mut Reading) -> Result<Past, ProgramFault> {
    let head = reader.next_head(alloc)?;
    Ok(Past::new(alloc, users, &head)?)
}

/// Steps the records of a file that goes on where the past ends.
fn go_on<R: AllocGlobal + Print>(
    rt: &R,
    past: &mut Past,
    reader: &mut Reading,
    shown: Option<Shown>,
) -> Result<(), ProgramFault> {
    let alloc = rt.alloc();
    let Some(shown) = shown else {
        return Ok(replay_next(alloc, past, reader)?);
    };
    let head = reader.next_head(alloc)?;
    past.goes_on(&head)?;
    show(rt, past, reader, shown)
}

/// Steps the records that come. Behind each its lines are printed: what they tell was decided as the policy says.
fn show<R: AllocGlobal + Print>(
    rt: &R,
    past: &mut Past,
    reader: &mut Reading,
    shown: Shown,
) -> Result<(), ProgramFault> {
    let alloc = rt.alloc();
    for _ in 0..u64::MAX {
        let place = past.place();
        let Some(next) = reader.next_record(alloc, place)? else {
            return Ok(());
        };
        let Ok(texts) = texts_of(alloc, past.state(), place, &next, shown) else {
            return Err(HistoryFault::NoMemory.into());
        };
        let mark = if place < past.retelling().records {
            RETOLD
        } else {
            ""
        };
        past.step(alloc, next)?;
        print_all(rt, mark, &texts)?;
    }
    // Memory ends long before.
    Err(HistoryFault::NoMemory.into())
}

/// Prints these lines, each behind the mark.
fn print_all<R: Print>(rt: &R, mark: &str, texts: &[String]) -> Result<(), ProgramFault> {
    for text in texts {
        match println!(rt; "{mark}{text}") {
            Ok(()) => {}
            Err(error) => return Err(ProgramFault::of_output(&error)),
        }
    }
    Ok(())
}

/// Prints what the records count up to, whether the last one is cut off, and that they are legal.
fn tell<R: Print>(rt: &R, past: &Past, is_torn: bool) -> Result<(), ProgramFault> {
    let counts = past.counts();
    say(rt, "records", past.place())?;
    let retold = past.retelling().records;
    if retold > 0 {
        say(rt, "retold", retold)?;
    }
    say(rt, "calls", counts.calls)?;
    say(rt, "sessions", counts.sessions)?;
    say(rt, "refused hellos", counts.refused_hellos)?;
    tell_verdicts(rt, counts)?;
    if is_torn {
        say(rt, "torn", past.place())?;
    }
    past.is_legal();
    print_line(rt, "legal")
}

/// Prints how many events were accepted, and how many each rule refused that refused one.
fn tell_verdicts<R: Print>(rt: &R, counts: &Counts) -> Result<(), ProgramFault> {
    say(rt, "accepted", counts.verdicts[0])?;
    for (rule, count) in EVERY_RULE.iter().zip(&counts.verdicts[1..]) {
        if *count > 0 {
            let (number, error, name) = (rule.number(), rule.errno(), rule.name());
            say(
                rt,
                "refused",
                format_args!("{number} {error} {name} {count}"),
            )?;
        }
    }
    Ok(())
}
