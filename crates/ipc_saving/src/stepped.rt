//! A trail that is retold: its files stepped, with notes of who sent what.

ghost use Rattle.std.specs.Prelude.{IfOk, OnOk};
ghost use Rattle.ipc_living.specs.Living.{AreSenders};

use crate::digests::{add_file, digest_of};
use crate::files::lock;
use crate::reading::{reader_of, whole_length};
use ipc_access::Users;
use ipc_history::Past;
use ipc_living::{Senders, step_noting};
use ipc_log::TrailDigest;
use ipc_program::{ProgramFault, users_of};
use sha2::{Digest, Sha256};
use std::alloc::Global;
use std::fs::File;
use std::rt::Files;

/// A trail whose files were stepped.
#[derive(Drop)]
pub struct SteppedTrail {
    pub past: Past,
    /// Who sent the messages that stand in queues.
    pub senders: Senders,
    /// That of the files, each without what follows its last whole record.
    pub digest: TrailDigest,
    /// Whether the last file ends within a record.
    pub is_torn: bool,
}

/// Steps the files of a trail, the first one and the others of these paths, of which each goes on where the one before it ends, by the
/// users of a user file of these bytes.
pub fn step_files<R: AllocGlobal + Files<File = File>>(
    rt: &R,
    file: &[u8],
    first: &File,
    others: &[String],
) -> Result<SteppedTrail, ProgramFault>
    ensures { IfOk result (λ trail. AreSenders trail.senders trail.past.history) }
{
    let alloc = rt.alloc();
    let users = users_of(alloc, file)?;
    let mut hasher = Sha256::new();
    let (mut past, mut senders, mut is_torn) = step_first(alloc, users, first, &mut hasher)?;
    for path in others {
        if is_torn {
            return Err(ProgramFault::CutOff(past.place()));
        }
        is_torn = step_next(rt, path.as_str(), &mut past, &mut senders, &mut hasher)?;
    }
    if past.place() < past.retelling().records {
        return Err(ProgramFault::CutOff(past.place()));
    }
    Ok(SteppedTrail {
        past,
        senders,
        digest: digest_of(hasher),
        is_torn,
    })
}

/// Steps a first file: what happened, who sent, and whether it ends within a record.
fn step_first(
    alloc: Global,
    users: Users,
    file: &File,
    hasher: &mut Sha256,
) -> Result<(Past, Senders, bool), ProgramFault>
    ensures { IfOk result (λ read. AreSenders read.1 read.0.history) }
{
    let mut reader = reader_of(alloc, file)?;
    let head = reader.next_head(alloc)?;
    let mut past = Past::new(alloc, users, &head)?;
    let mut senders = Senders::new(alloc);
    step_noting(alloc, &mut past, &mut senders, &mut reader, u64::MAX)?;
    add(alloc, hasher, file, reader.rest())?;
    Ok((past, senders, reader.is_torn()))
}

/// Steps a file that goes on where the past ends. Whether it ends within a record.
fn step_next<R: AllocGlobal + Files<File = File>>(
    rt: &R,
    path: &str,
    past: &mut Past,
    senders: &mut Senders,
    hasher: &mut Sha256,
) -> Result<bool, ProgramFault>
    requires { AreSenders senders.old past.old.history }
    ensures { OnOk result (AreSenders senders.new past.new.history) }
{
    let alloc = rt.alloc();
    let file = open(rt, path)?;
    let mut reader = reader_of(alloc, &file)?;
    let head = reader.next_head(alloc)?;
    past.goes_on(&head)?;
    step_noting(alloc, past, senders, &mut reader, u64::MAX)?;
    add(alloc, hasher, &file, reader.rest())?;
    Ok(reader.is_torn())
}

/// Adds to the digest what the file has, without so many bytes at its end.
fn add(alloc: Global, hasher: &mut Sha256, file: &File, rest: usize) -> Result<(), ProgramFault> {
    let whole = whole_length(file, rest)?;
    match add_file(alloc, hasher, file, whole) {
        Ok(()) => Ok(()),
        Err(error) => Err(ProgramFault::of_file(&error)),
    }
}

/// Opens a file to be read.
pub fn open<R: Files<File = File>>(rt: &R, path: &str) -> Result<File, ProgramFault> {
    match File::open(rt, path) {
        Ok(file) => Ok(file),
        Err(error) => Err(ProgramFault::of_file(&error)),
    }
}

/// Opens a file to be read, and locks it: no server writes it.
pub fn open_locked<R: Files<File = File>>(rt: &R, path: &str) -> Result<File, ProgramFault> {
    let file = open(rt, path)?;
    match lock(&file) {
        Ok(()) => Ok(file),
        Err(error) => Err(ProgramFault::of_trail_file(&error)),
    }
}
