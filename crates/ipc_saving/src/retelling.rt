//! A trail that is retold as a short one.

ghost use Rattle.std.specs.Prelude.{IfOk};
ghost use Rattle.ipc_living.specs.Living.{AreSenders};

use crate::files::{OWNER_S_MODE, beside_streams, lock, remove, sync_folder};
use crate::heads::head_of;
use crate::stepped::{SteppedTrail, open_locked, step_files};
use ipc_history::HistoryFault;
use ipc_living::{Living, Story};
use ipc_log::{Head, Retelling, put_head};
use ipc_policy::{Config, Limits};
use ipc_program::{ProgramFault, Retold, print_line, say, users_at, users_of};
use ipc_script::ScriptFault;
use std::fs::File;
use std::io::{Seek, SeekFrom, Write};
use std::os::unix::fs::OpenOptionsExt;
use std::rt::Files;
use std::{fs, io};

/// How many records a retelling has whose end isn't written: more than there can be, so that nobody takes it for whole.
const UNFINISHED: u64 = u64::MAX;

/// Writes a short trail into a new file in which the same lives as at the old one's end once everybody has hung up, perhaps under
/// another configuration, and prints how long both are. Nothing is left of it at an `Err`.
pub fn compact_trail<R: AllocGlobal + Files<File = File> + Print>(
    rt: &R,
    retold: &Retold,
) -> Result<(), ProgramFault> {
    let (old, config, _first) = step_old(rt, retold)?;
    let (records, is_torn) = (old.past.place(), old.is_torn);
    let told = retell(rt, config, old, retold.new.as_str())?;
    tell(rt, records, is_torn, told)
}

/// The trail that is retold, stepped; the configuration under which it is retold; and its first file, locked as long as it is open.
pub fn step_old<R: AllocGlobal + Files<File = File>>(
    rt: &R,
    retold: &Retold,
) -> Result<(SteppedTrail, Config, File), ProgramFault>
    ensures { IfOk result (λ old. AreSenders old.0.senders old.0.past.history) }
{
    // The arguments have one file or more.
    let Some((first, others)) = retold.old.split_first() else {
        return Err(ProgramFault::Trail(HistoryFault::NoHead));
    };
    let first = open_locked(rt, first.as_str())?;
    let file = bytes_at(rt, retold.users.as_str())?;
    let old = step_files(rt, &file, &first, others)?;
    let config = new_config(rt, retold, &file, old.past.state().config().limits)?;
    Ok((old, config, first))
}

/// The bytes of a user file.
pub fn bytes_at<R: AllocGlobal + Files<File = File>>(
    rt: &R,
    path: &str,
) -> Result<Vec<u8>, ProgramFault> {
    match fs::read(rt, path) {
        Ok(bytes) => Ok(bytes),
        Err(error) => Err(ProgramFault::of_file(&error)),
    }
}

/// The configuration under which a trail of these limits is retold, whose user file has these bytes.
fn new_config<R: AllocGlobal + Files<File = File>>(
    rt: &R,
    retold: &Retold,
    file: &[u8],
    old: Limits,
) -> Result<Config, ProgramFault> {
    let users = match &retold.to {
        Some(path) => users_at(rt, path.as_str())?,
        None => users_of(rt.alloc(), file)?,
    };
    let given = retold.limits;
    let limits = Limits {
        msg_max: given.msg_max.unwrap_or(old.msg_max),
        msgsize_max: given.msgsize_max.unwrap_or(old.msgsize_max),
        queues_max: given.queues_max.unwrap_or(old.queues_max),
    };
    Ok(Config { users, limits })
}

/// Prints how many records the old trail has, whether its last one is cut off, how many retell it, and that the same lives.
pub fn tell<R: Print>(rt: &R, records: u64, is_torn: bool, told: u64) -> Result<(), ProgramFault> {
    say(rt, "records", records)?;
    if is_torn {
        say(rt, "torn", records)?;
    }
    say(rt, "retold", told)?;
    print_line(rt, "same")
}

/// Writes the short trail into a file that is made at this path. How many records it has.
pub fn retell<R: AllocGlobal + Files<File = File>>(
    rt: &R,
    config: Config,
    old: SteppedTrail,
    path: &str,
) -> Result<u64, ProgramFault>
    requires { AreSenders old.senders old.past.history }
{
    let SteppedTrail {
        past,
        senders,
        digest,
        is_torn: _,
    } = old;
    let retelling = Retelling {
        generation: past.retelling().generation.saturating_add(1),
        records: UNFINISHED,
        old_records: past.place(),
        old_digest: digest,
    };
    let Ok(living) = Living::after(rt.alloc(), past, senders) else {
        return Err(ScriptFault::Memory.into());
    };
    let head = head_of(rt.alloc(), &config, retelling)?;
    let out = match create(rt, path) {
        Ok(out) => out,
        Err(error) => return Err(ProgramFault::of_trail_file(&error)),
    };
    match write_all(rt, &living, config, &head, out, path) {
        Ok(told) => Ok(told),
        Err(fault) => {
            let _ = remove(rt, path);
            Err(fault)
        }
    }
}

/// Makes a file, and locks it. Its owner alone may read it.
fn create<R: Files<File = File>>(rt: &R, path: &str) -> io::Result<File> {
    let file = File::options()
        .write(true)
        .create_new(true)
        .mode(OWNER_S_MODE)
        .open(rt, path)?;
    let file = beside_streams(&file)?;
    lock(&file)?;
    Ok(file)
}

/// Writes the short trail. How many records it has.
fn write_all<R: AllocGlobal + Files<File = File>>(
    rt: &R,
    living: &Living,
    config: Config,
    head: &Head,
    out: File,
    path: &str,
) -> Result<u64, ProgramFault> {
    let story = living.retell(rt.alloc(), config, head, out)?;
    let told = story.len();
    let retelling = Retelling {
        records: told,
        ..head.retelling
    };
    match finish(rt, story, &Head { retelling, ..*head }, path) {
        Ok(()) => Ok(told),
        Err(error) => Err(ProgramFault::of_trail_file(&error)),
    }
}

/// Writes the head anew once all behind it is on the disk.
fn finish<R: AllocGlobal + Files<File = File>>(
    rt: &R,
    story: Story<File>,
    head: &Head,
    path: &str,
) -> io::Result<()> {
    let mut out = story.into_out();
    out.sync_all()?;
    let mut text = Vec::new(rt.alloc());
    if put_head(&mut text, head).is_err() {
        return Err(io::Error::from(io::ErrorKind::OutOfMemory));
    }
    out.seek(SeekFrom::Start(0))?;
    out.write_all(&text)?;
    out.sync_all()?;
    sync_folder(rt, path)
}
