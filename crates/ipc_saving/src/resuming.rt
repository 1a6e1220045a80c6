//! A trail that is in files already, and is gone on with.

use crate::files::{beside_streams, is_at, lock, path_at, places_beside, remove, sync_folder};
use crate::open_trail::{OpenTrail, Segments};
use crate::reading::{reader_of, whole_length};
use crate::shortening::current_places;
use ipc_access::Users;
use ipc_core::{Config, Limits};
use ipc_history::{HistoryFault, Past, TrailReader, replay_next};
use ipc_log::{Head, Retelling, TrailWriter};
use ipc_program::{ProgramFault, TrailFile};
use ipc_script::ScriptFault;
use ipc_state::State;
use std::alloc::Global;
use std::fs::File;
use std::io;
use std::io::{ErrorKind, Seek, SeekFrom};
use std::rt::Files;

/// A trail that is there.
#[derive(Drop)]
pub struct FoundTrail {
    /// Its first file, locked.
    pub file: File,
    /// The places at which it goes on in other files, in rising order.
    pub places: Vec<u64>,
}

/// A file of a trail, read to its end.
#[derive(Drop)]
struct ReadFile {
    file: File,
    /// How many bytes of it are its head and whole records.
    whole: u64,
    /// Whether more stands behind them.
    is_torn: bool,
}

/// A trail that was there, locked, and nothing in its files changed yet.
#[derive(Drop)]
pub struct OldTrail {
    /// Its first file, where the last is another.
    first: Option<File>,
    last: ReadFile,
    retelling: Retelling,
    /// The records that come behind these: the hang-ups of the sessions that were live.
    writer: TrailWriter,
}

/// The trail that is wanted, its first file locked. None where there is none. A file of it without the first one is a fault, and so
/// is a first one that another process has locked, or that is no plain file. Files that go on a trail that the first one retells are
/// put out of the way.
pub fn find_old<R: AllocGlobal + Clone + Drop + Files<File = File>>(
    rt: &R,
    wanted: &TrailFile,
) -> Result<Option<FoundTrail>, ProgramFault> {
    let path = wanted.path.as_str();
    let found = match open_old(rt, path) {
        Ok(found) => found,
        Err(error) => return Err(ProgramFault::of_trail_file(&error)),
    };
    let places = match places_beside(rt, path) {
        Ok(places) => places,
        Err(error) => return Err(ProgramFault::of_trail_file(&error)),
    };
    match (found, places.first()) {
        (None, None) => Ok(None),
        (None, Some(place)) => Err(HistoryFault::OtherPlace(*place).into()),
        (Some(file), _) => {
            let places = current_places(rt, wanted, &file, places)?;
            Ok(Some(FoundTrail { file, places }))
        }
    }
}

/// Opens a file that is there, and locks it. None where nothing has this path. `WouldBlock` where another process has it
/// locked, or has put another file in its place since, and `InvalidInput` where it is no plain file.
pub fn open_old<R: Files<File = File>>(rt: &R, path: &str) -> io::Result<Option<File>> {
    let file = match File::options().read(true).write(true).open(rt, path) {
        Ok(file) => file,
        Err(error) if error.kind() == ErrorKind::NotFound => return Ok(None),
        Err(error) => return Err(error),
    };
    if !file.metadata()?.is_file() {
        return Err(io::Error::from(ErrorKind::InvalidInput));
    }
    let file = beside_streams(&file)?;
    lock(&file)?;
    if !is_at(rt, &file, path)? {
        return Err(io::Error::from(ErrorKind::WouldBlock));
    }
    Ok(Some(file))
}

/// Replays the trail, which must be of these users and limits, and hangs up who was live.
pub fn replay_old<R: AllocGlobal + Files<File = File>>(
    rt: &R,
    path: &str,
    found: FoundTrail,
    config: Config,
) -> Result<(State, OldTrail), ProgramFault> {
    let alloc = rt.alloc();
    let FoundTrail { file, places } = found;
    let Config { users, limits } = config;
    let (mut past, read) = read_first(alloc, file, users, limits)?;
    let (first, last) = read_others(rt, path, &places, &mut past, read)?;
    if past.place() < past.retelling().records {
        return Err(ProgramFault::CutOff(past.place()));
    }
    let retelling = past.retelling();
    let mut writer = TrailWriter::behind(alloc, past.place());
    let Ok(state) = past.resume(alloc) else {
        return Err(ScriptFault::Memory.into());
    };
    if writer.spell(state.trail()).is_err() {
        return Err(ScriptFault::Memory.into());
    }
    let old = OldTrail {
        first,
        last,
        retelling,
        writer,
    };
    Ok((state, old))
}

/// What happened by the records of the first file.
fn read_first(
    alloc: Global,
    file: File,
    users: Users,
    limits: Limits,
) -> Result<(Past, ReadFile), ProgramFault> {
    let mut reader = reader_of(alloc, &file)?;
    let past = read_all(alloc, users, limits, &mut reader)?;
    let (whole, is_torn) = (whole_length(&file, reader.rest())?, reader.is_torn());
    let read = ReadFile {
        file,
        whole,
        is_torn,
    };
    Ok((past, read))
}

/// What happened by the records of the file.
fn read_all<R: io::Read + Drop>(
    alloc: Global,
    users: Users,
    limits: Limits,
    reader: &mut TrailReader<R>,
) -> Result<Past, ProgramFault> {
    let head = reader.next_head(alloc)?;
    let mut past = Past::new(alloc, users, &head)?;
    if past.state().config().limits != limits {
        return Err(HistoryFault::OtherLimits.into());
    }
    past.read_records(alloc, reader)?;
    Ok(past)
}

/// Steps the records of the other files, each of which goes on where the one before it ends: the first file, where the last is
/// another, and the last.
fn read_others<R: AllocGlobal + Files<File = File>>(
    rt: &R,
    path: &str,
    places: &[u64],
    past: &mut Past,
    read: ReadFile,
) -> Result<(Option<File>, ReadFile), ProgramFault> {
    let mut first = None;
    let mut last = read;
    let last_place = places.last().copied();
    for place in places {
        if *place != past.place() {
            return Err(HistoryFault::OtherPlace(*place).into());
        }
        if last.is_torn {
            return Err(ProgramFault::CutOff(*place));
        }
        let path = path_at(rt.alloc(), path, *place)?;
        let Some(next) = read_next(rt, path.as_str(), past, last_place == Some(*place))? else {
            return Ok((first, last));
        };
        let before = std::mem::replace(&mut last, next);
        if first.is_none() {
            first = Some(before.file);
        }
    }
    Ok((first, last))
}

/// Steps the records of a file that goes on where the past ends. The last one is removed where its head isn't whole: it was
/// being made, and nothing stands in it.
fn read_next<R: AllocGlobal + Files<File = File>>(
    rt: &R,
    path: &str,
    past: &mut Past,
    is_last: bool,
) -> Result<Option<ReadFile>, ProgramFault> {
    let alloc = rt.alloc();
    let file = match open_old(rt, path) {
        Ok(Some(file)) => file,
        Ok(None) => return Err(ProgramFault::NoTrail),
        Err(error) => return Err(ProgramFault::of_trail_file(&error)),
    };
    let mut reader = reader_of(alloc, &file)?;
    match replay_next(alloc, past, &mut reader) {
        Ok(()) => {}
        Err(HistoryFault::NoHead) if is_last => return removed(rt, path),
        Err(fault) => return Err(fault.into()),
    }
    let (whole, is_torn) = (whole_length(&file, reader.rest())?, reader.is_torn());
    Ok(Some(ReadFile {
        file,
        whole,
        is_torn,
    }))
}

/// Removes the file; it is none.
fn removed<R: Files<File = File>>(rt: &R, path: &str) -> Result<Option<ReadFile>, ProgramFault> {
    match remove(rt, path) {
        Ok(()) => Ok(None),
        Err(error) => Err(ProgramFault::of_trail_file(&error)),
    }
}

impl OldTrail {
    /// Cuts off what isn't whole, and writes the hang-ups behind the records of the last file. At an `Err` that has whole records alone,
    /// if it can be cut. The head is the first file's, but for what it says of a retelling.
    pub fn go_on<R: AllocGlobal + Files<File = File>>(
        self,
        rt: &R,
        wanted: &TrailFile,
        head: &Head,
    ) -> io::Result<OpenTrail> {
        let OldTrail {
            first,
            last,
            retelling,
            writer,
        } = self;
        let ReadFile {
            mut file,
            whole,
            is_torn: _,
        } = last;
        let head = Head { retelling, ..*head };
        let segments = Segments::wanted(rt.alloc(), wanted, &head)?;
        file.set_len(whole)?;
        file.seek(SeekFrom::Start(whole))?;
        let mut trail = OpenTrail::new(first, file, whole, writer, segments, wanted.is_synced);
        let written = match trail.put() {
            // Who made the last file may not have asked for its name to be on the disk.
            Ok(()) if wanted.is_synced => sync_folder(rt, wanted.path.as_str()),
            other => other,
        };
        match written {
            Ok(()) => Ok(trail),
            Err(error) => {
                trail.cut(whole);
                Err(error)
            }
        }
    }
}
