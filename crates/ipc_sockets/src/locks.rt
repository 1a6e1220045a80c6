//! Locks that one process has at a time.

use crate::identity::Identity;
use std::fs::{File, TryLockError};
use std::io::ErrorKind;
use std::os::unix::fs::OpenOptionsExt;
use std::rt::Files;
use std::{fs, io};

/// Its owner alone may lock it.
const MODE: u32 = 0o600;

/// A file that this process has locked. The system lets it go where the process ends, however that is.
#[derive(Drop)]
pub struct Lock {
    path: String,
    file: File,
}

impl Lock {
    /// Locks the file at this path, which is made if it isn't there. It never waits: where another has it,
    /// `AddrInUse`; and so where it is no plain file, or was removed meanwhile, as by who ends just now.
    pub fn take<R: Files<File = File>>(rt: &R, path: String) -> io::Result<Lock> {
        let file = open_or_make(rt, path.as_str())?;
        match file.try_lock() {
            Ok(()) => {}
            Err(TryLockError::WouldBlock) => return Err(io::Error::from(ErrorKind::AddrInUse)),
            Err(TryLockError::Error(error)) => return Err(error),
        }
        let lock = Lock { path, file };
        if lock.is_at_its_path(rt) {
            return Ok(lock);
        }
        Err(io::Error::from(ErrorKind::AddrInUse))
    }

    /// Removes the file, if it is still at its path, and lets it go.
    pub fn give_back<R: Files>(self, rt: &R) {
        if self.is_at_its_path(rt) {
            let _ = fs::remove_file(rt, self.path.as_str());
        }
    }

    /// Whether who opens the path now gets the file that is locked.
    fn is_at_its_path<R: Files>(&self, rt: &R) -> bool {
        let (Ok(file), Ok(found)) = (self.file.metadata(), Identity::at(rt, self.path.as_str()))
        else {
            return false;
        };
        Identity::of(&file) == found
    }
}

fn open_or_make<R: Files<File = File>>(rt: &R, path: &str) -> io::Result<File> {
    let made = File::options()
        .write(true)
        .create_new(true)
        .mode(MODE)
        .open(rt, path);
    match made {
        Err(error) if error.kind() == ErrorKind::AlreadyExists => open_plain(rt, path),
        made => made,
    }
}

/// Opens a plain file, and nothing else: a FIFO would wait, and a link would lead to another file.
fn open_plain<R: Files<File = File>>(rt: &R, path: &str) -> io::Result<File> {
    if fs::symlink_metadata(rt, path)?.is_file() {
        return File::open(rt, path);
    }
    Err(io::Error::from(ErrorKind::AddrInUse))
}
