//! A trail that is retold before a server goes on with it.

use crate::files::{is_at, path_at, path_of_kept, path_of_new, remove, sync_folder};
use crate::reading::reader_of;
use crate::resuming::{FoundTrail, find_old, open_old};
use crate::retelling::{bytes_at, retell};
use crate::stepped::step_files;
use ipc_history::HistoryFault;
use ipc_policy::Config;
use ipc_program::{ProgramFault, TrailFile, users_of};
use std::alloc::{AllocError, Global};
use std::fs::File;
use std::io::{ErrorKind, Seek, SeekFrom};
use std::rt::Files;
use std::{fs, io};

/// Retells the trail, if its files have more than so many bytes and it has more than twice the records that its last retelling took,
/// and puts the short one in its place: that is one step, before which all is as it was. The trail to go on with.
pub fn shorten<R: AllocGlobal + Clone + Drop + Files<File = File>>(
    rt: &R,
    users: &str,
    wanted: &TrailFile,
    bytes: u64,
    found: FoundTrail,
) -> Result<FoundTrail, ProgramFault> {
    let path = wanted.path.as_str();
    let FoundTrail { mut file, places } = found;
    let others = paths_of(rt.alloc(), path, &places)?;
    let size = match size_of(rt, &file, &others) {
        Ok(size) => size,
        Err(error) => return Err(ProgramFault::of_file(&error)),
    };
    if size <= bytes || !retell_long(rt, users, wanted, &file, &others)? {
        rewind(&mut file)?;
        return Ok(FoundTrail { file, places });
    }
    match find_old(rt, wanted)? {
        Some(new) => Ok(new),
        None => Err(ProgramFault::NoTrail),
    }
}

/// The paths of a trail's other files.
fn paths_of(alloc: Global, path: &str, places: &[u64]) -> Result<Vec<String>, AllocError> {
    let mut paths = Vec::with_capacity(alloc, places.len())?;
    for place in places {
        paths.push(path_at(alloc, path, *place)?)?;
    }
    Ok(paths)
}

/// How many bytes the files have together.
fn size_of<R: Files>(rt: &R, first: &File, others: &[String]) -> io::Result<u64> {
    let mut size = first.metadata()?.len();
    for path in others {
        size = size.saturating_add(fs::metadata(rt, path.as_str())?.len());
    }
    Ok(size)
}

fn rewind(file: &mut File) -> Result<(), ProgramFault> {
    match file.seek(SeekFrom::Start(0)) {
        Ok(_) => Ok(()),
        Err(error) => Err(ProgramFault::of_file(&error)),
    }
}

/// Retells the trail, if it has more than twice the records that its last retelling took, and puts the short one in its place. Whether
/// it did.
fn retell_long<R: AllocGlobal + Files<File = File>>(
    rt: &R,
    users: &str,
    wanted: &TrailFile,
    first: &File,
    others: &[String],
) -> Result<bool, ProgramFault> {
    let alloc = rt.alloc();
    let path = wanted.path.as_str();
    let file = bytes_at(rt, users)?;
    let old = step_files(rt, &file, first, others)?;
    let retelling = old.past.retelling();
    if old.past.place() / 2 <= retelling.records {
        return Ok(false);
    }
    let config = Config {
        users: users_of(alloc, &file)?,
        limits: old.past.state().config().limits,
    };
    let new = path_of_new(alloc, path)?;
    if let Err(error) = remove_if_there(rt, new.as_str()) {
        return Err(ProgramFault::of_trail_file(&error));
    }
    retell(rt, config, old, new.as_str())?;
    match switch(rt, wanted, first, new.as_str(), retelling.generation) {
        Ok(()) => Ok(true),
        Err(error) => Err(ProgramFault::of_trail_file(&error)),
    }
}

/// Removes what an earlier start left.
fn remove_if_there<R: Files<File = File>>(rt: &R, path: &str) -> io::Result<()> {
    match remove(rt, path) {
        Err(error) if error.kind() == ErrorKind::NotFound => Ok(()),
        other => other,
    }
}

/// Puts the new file in the place of the first one, which is kept where that is asked for.
fn switch<R: AllocGlobal + Files<File = File>>(
    rt: &R,
    wanted: &TrailFile,
    first: &File,
    new: &str,
    generation: u64,
) -> io::Result<()> {
    let path = wanted.path.as_str();
    if wanted.is_kept {
        let kept = path_of_kept(rt.alloc(), path, generation)?;
        link(rt, path, first, kept.as_str())?;
    }
    fs::rename(rt, new, path)?;
    sync_folder(rt, path)
}

/// Gives the first file, which has this path, another one as well. An earlier start may have done so.
fn link<R: Files>(rt: &R, path: &str, first: &File, kept: &str) -> io::Result<()> {
    match fs::hard_link(rt, path, kept) {
        Err(error) if error.kind() == ErrorKind::AlreadyExists => {
            if is_at(rt, first, kept)? {
                return Ok(());
            }
            Err(error)
        }
        other => other,
    }
}

/// The places at which the trail of this first file goes on. Files of a trail that it retells are removed, or, where old files are
/// kept, get a name of their own: a start before this one may have ended amid that.
pub fn current_places<R: AllocGlobal + Files<File = File>>(
    rt: &R,
    wanted: &TrailFile,
    first: &File,
    places: Vec<u64>,
) -> Result<Vec<u64>, ProgramFault> {
    let alloc = rt.alloc();
    let Some(generation) = generation_of(alloc, first)? else {
        return Ok(places);
    };
    let mut current = Vec::with_capacity(alloc, places.len())?;
    for place in &places {
        if !put_away(rt, wanted, *place, generation)? {
            keep_place(&mut current, *place)?;
        }
    }
    Ok(current)
}

fn keep_place(places: &mut Vec<u64>, place: u64) -> Result<(), AllocError> {
    places.push(place)?;
    Ok(())
}

/// How often the trail of this file was retold, if its head is whole. It is read from its beginning then.
fn generation_of(alloc: Global, mut file: &File) -> Result<Option<u64>, ProgramFault> {
    let mut reader = reader_of(alloc, file)?;
    let generation = match reader.next_head(alloc) {
        Ok(head) => Some(head.retelling.generation),
        Err(HistoryFault::NoMemory) => return Err(HistoryFault::NoMemory.into()),
        Err(_) => None,
    };
    match file.seek(SeekFrom::Start(0)) {
        Ok(_) => Ok(generation),
        Err(error) => Err(ProgramFault::of_file(&error)),
    }
}

/// Puts the file away that goes on at this place, if the trail that it goes on was retold less often. Whether it did.
fn put_away<R: AllocGlobal + Files<File = File>>(
    rt: &R,
    wanted: &TrailFile,
    place: u64,
    generation: u64,
) -> Result<bool, ProgramFault> {
    let alloc = rt.alloc();
    let path = path_at(alloc, wanted.path.as_str(), place)?;
    let file = match open_old(rt, path.as_str()) {
        Ok(Some(file)) => file,
        Ok(None) => return Ok(false),
        Err(error) => return Err(ProgramFault::of_trail_file(&error)),
    };
    let older = match generation_of(alloc, &file)? {
        Some(older) if older < generation => older,
        _ => return Ok(false),
    };
    let away = if wanted.is_kept {
        keep(rt, wanted, path.as_str(), older, place)
    } else {
        remove(rt, path.as_str())
    };
    match away {
        Ok(()) => Ok(true),
        Err(error) => Err(ProgramFault::of_trail_file(&error)),
    }
}

/// Gives the file that went on at this place its name beside the first one that is kept.
fn keep<R: AllocGlobal + Files<File = File>>(
    rt: &R,
    wanted: &TrailFile,
    path: &str,
    generation: u64,
    place: u64,
) -> io::Result<()> {
    let alloc = rt.alloc();
    let first = path_of_kept(alloc, wanted.path.as_str(), generation)?;
    let kept = path_at(alloc, first.as_str(), place)?;
    fs::rename(rt, path, kept.as_str())?;
    sync_folder(rt, path)
}
