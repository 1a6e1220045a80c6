//! Which file is at a path.

use std::fs::Metadata;
use std::os::unix::fs::MetadataExt;
use std::rt::Files;
use std::{fs, io};

/// A file, by what the system tells it from all others that there are.
#[derive(Clone, Copy, PartialEq, Eq)]
pub struct Identity {
    device: u64,
    inode: u64,
}

impl Identity {
    pub fn of(file: &Metadata) -> Identity {
        Identity {
            device: file.dev(),
            inode: file.ino(),
        }
    }

    /// Of what is at the path. A link is a file of its own.
    pub fn at<R: Files>(rt: &R, path: &str) -> io::Result<Identity> {
        let file = fs::symlink_metadata(rt, path)?;
        Ok(Identity::of(&file))
    }
}
