//! The socket of the program's user, where the server knows its users by their sockets.

ghost use Rattle.std.specs.Prelude.{◌≡◌, ◌≢◌, ◌++◌, ℕ, List, codes, MatchOption};

use crate::connection::fault_of;
use ipc_client::ClientFault;
use std::fs::Metadata;
use std::io::ErrorKind;
use std::os::unix::fs::{FileTypeExt, MetadataExt};
use std::os::unix::net::UnixStream;
use std::{fs, io};

/// The path behind `unix-user:`, where the address is of a user's own socket.
pub fn own_place(address: &str) -> Option<&str>
    ensures { MatchOption result ((place : List ℕ) → address.now ≢ codes "unix-user:" ++ place) (λ place. address.now ≡ codes "unix-user:" ++ place.now) }
{
    address.strip_prefix("unix-user:")
}

/// Connects to the socket: in a folder to one that the program's user owns and that somebody listens at, and anything else is the socket.
pub fn connect_as_owner(rt: &HostRuntime, place: &str) -> Result<UnixStream, ClientFault> {
    match connect_at(rt, place) {
        Ok(stream) => Ok(stream),
        Err(error) => Err(fault_of(&error)),
    }
}

fn connect_at(rt: &HostRuntime, place: &str) -> io::Result<UnixStream> {
    if fs::metadata(rt, place)?.is_dir() {
        connect_within(rt, place)
    } else {
        UnixStream::connect(rt, place)
    }
}

/// Connects to the first own socket of the folder that somebody listens at. A server that a signal ended left others.
fn connect_within(rt: &HostRuntime, folder: &str) -> io::Result<UnixStream> {
    let mut refusal = io::Error::from(ErrorKind::NotFound);
    for entry in fs::read_dir(rt, folder)? {
        let entry = match entry {
            Ok(entry) => entry,
            // A name that isn't UTF-8 is none of a server's.
            Err(error) if error.kind() == ErrorKind::InvalidFilename => continue,
            Err(error) => return Err(error),
        };
        if !is_own(entry.metadata())? {
            continue;
        }
        let name = entry.file_name();
        let path = format!(in rt.alloc(); "{folder}/{name}")?;
        match UnixStream::connect(rt, path.as_str()) {
            Ok(stream) => return Ok(stream),
            Err(error) => refusal = error,
        }
    }
    Err(refusal)
}

/// Whether it is a socket that the program's user owns. What is gone meanwhile is none.
fn is_own(found: io::Result<Metadata>) -> io::Result<bool> {
    match found {
        Ok(file) => Ok(file.file_type().is_socket() && file.uid() == libc::getuid()),
        Err(error) if error.kind() == ErrorKind::NotFound => Ok(false),
        Err(error) => Err(error),
    }
}
