//! The files of a trail: its first one, and one for each place at which it goes on in another, whose path is that of the first, a point
//! and the place.

use ipc_words::read_decimal;
use std::alloc::{AllocError, Global};
use std::fs::{File, TryLockError};
use std::io::ErrorKind;
use std::os::unix::fs::MetadataExt;
use std::rt::Files;
use std::{fs, io};

/// The permission bits of a new file: its owner alone may read and write it.
pub const OWNER_S_MODE: u32 = 0o600;

/// The path of the file in which the trail of this path goes on at the place.
pub fn path_at(alloc: Global, path: &str, place: u64) -> Result<String, AllocError> {
    format!(in alloc; "{path}.{place}")
}

/// The path at which the trail of this path is retold, before that takes its place.
pub fn path_of_new(alloc: Global, path: &str) -> Result<String, AllocError> {
    format!(in alloc; "{path}~new")
}

/// The path at which the first file of the trail of this path is kept that was retold so often.
pub fn path_of_kept(alloc: Global, path: &str, generation: u64) -> Result<String, AllocError> {
    format!(in alloc; "{path}~{generation}")
}

/// The places at which the trail of this path goes on in other files, in rising order.
pub fn places_beside<R: AllocGlobal + Clone + Drop + Files>(
    rt: &R,
    path: &str,
) -> io::Result<Vec<u64>> {
    let (folder, name) = parted(path);
    let mut places = Vec::new(rt.alloc());
    for entry in fs::read_dir(rt, folder)? {
        match entry {
            Ok(entry) => {
                if let Some(place) = place_of(entry.file_name(), name) {
                    places.push(place)?;
                }
            }
            // A name that isn't UTF-8 is none of these.
            Err(error) if error.kind() == ErrorKind::InvalidFilename => {}
            Err(error) => return Err(error),
        }
    }
    places.sort_unstable();
    Ok(places)
}

/// The place that stands behind the name of the trail's first file.
fn place_of(found: &str, name: &str) -> Option<u64> {
    let number = found.strip_prefix(name)?.strip_prefix('.')?;
    read_decimal(number, u64::MAX)
}

/// The folder of a path, and the name in it.
fn parted(path: &str) -> (&str, &str) {
    match path.rsplit_once('/') {
        Some(("", name)) => ("/", name),
        Some((folder, name)) => (folder, name),
        None => (".", path),
    }
}

/// The same file, by a descriptor behind those of the standard streams. Where one of these was closed at the start its descriptor is the
/// next that a file gets, and what is printed would go into the file.
pub fn beside_streams(file: &File) -> io::Result<File> {
    file.try_clone()
}

/// Locks the file, as long as this process has it open. `WouldBlock` where another has.
pub fn lock(file: &File) -> io::Result<()> {
    match file.try_lock() {
        Ok(()) => Ok(()),
        Err(TryLockError::WouldBlock) => Err(io::Error::from(ErrorKind::WouldBlock)),
        Err(TryLockError::Error(error)) => Err(error),
    }
}

/// Whether this file has this path.
pub fn is_at<R: Files>(rt: &R, file: &File, path: &str) -> io::Result<bool> {
    let (own, there) = (file.metadata()?, fs::metadata(rt, path)?);
    Ok(own.dev() == there.dev() && own.ino() == there.ino())
}

/// Removes a file, and has the system put on the disk that it is gone: were it there again, the trail would seem to go on in it.
pub fn remove<R: Files<File = File>>(rt: &R, path: &str) -> io::Result<()> {
    fs::remove_file(rt, path)?;
    sync_folder(rt, path)
}

/// Has the system put on the disk that the folder has this file: a sync of the file alone doesn't say so (fsync(2)).
pub fn sync_folder<R: Files<File = File>>(rt: &R, path: &str) -> io::Result<()> {
    let (folder, _) = parted(path);
    File::open(rt, folder)?.sync_all()
}
