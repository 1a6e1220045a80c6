//! Unix sockets, which are files.

use crate::calls::done;
use crate::identity::Identity;
use crate::locks::Lock;
use ipc_terms::{Gid, Uid};
use mio::net::UnixStream;
use std::alloc::Global;
use std::fs::{File, Metadata, Permissions};
use std::io::ErrorKind;
use std::net::Net;
use std::os::fd::{AsFd, AsRawFd, OwnedFd};
use std::os::unix::fs::{FileTypeExt, MetadataExt, PermissionsExt, lchown};
use std::os::unix::net::{SocketAddr, UnixListener};
use std::rt::Files;
use std::{fs, io};

/// What stands before the path in the address of a Unix socket.
pub const UNIX: &str = "unix:";

/// The bits of a file's mode that say who may do what.
const PERMISSION_BITS: u32 = 0o777;

/// As many connections may wait to be accepted as the system lets.
const MOST_WAITING: i32 = i32::MAX;

/// The path of a Unix socket's file, where the address is of one.
pub fn path_of(address: &str) -> Option<&str> {
    address.strip_prefix(UNIX)
}

/// Who may connect at a socket's file.
#[derive(Clone, Copy)]
pub struct Access {
    /// The file's permission bits.
    pub mode: u32,
    /// Who gets the file. Otherwise it stays the process's own.
    pub owner: Option<(Uid, Gid)>,
}

/// A socket's file that was made.
#[derive(Drop)]
pub struct Made {
    pub path: String,
    pub identity: Identity,
}

/// Sockets' files that were made, and their lock, a file that no other server gets meanwhile.
#[derive(Drop)]
pub struct SocketFiles {
    pub made: Vec<Made>,
    pub lock: Lock,
}

impl SocketFiles {
    /// Removes each file that is still the one that was made, and then the lock.
    pub fn remove<R: Files>(self, rt: &R) {
        let SocketFiles { made, lock } = self;
        for file in &made {
            remove_made(rt, file.path.as_str(), file.identity);
        }
        lock.give_back(rt);
    }
}

/// Removes what is at the path, if it is this file.
fn remove_made<R: Files>(rt: &R, path: &str, made: Identity) {
    if let Ok(found) = Identity::at(rt, path) {
        if found == made {
            let _ = fs::remove_file(rt, path);
        }
    }
}

/// Listens at a file, which is made and has these permission bits before anybody can connect; its lock is a file of the same
/// name and `.lock`. `AddrInUse` where another server has the lock, or where a file is there already, but for a socket at which
/// nobody listens, which is removed first. An `Err` leaves no file that was made.
pub fn listen_at_file<R: Files<File = File> + Net>(
    rt: &R,
    alloc: Global,
    path: &str,
    mode: u32,
) -> io::Result<(UnixListener, SocketFiles)> {
    let kept = String::from_str(alloc, path)?;
    let mut made = Vec::with_capacity(alloc, 1)?;
    let lock = Lock::take(rt, format!(in alloc; "{path}.lock")?)?;
    match listen_alone(rt, path, Access { mode, owner: None }) {
        Ok((listener, identity)) => {
            let file = Made {
                path: kept,
                identity,
            };
            made.push(file)?;
            Ok((listener, SocketFiles { made, lock }))
        }
        Err(error) => {
            lock.give_back(rt);
            Err(error)
        }
    }
}

/// The same of one file, for who has the lock, with whoever may connect.
pub fn listen_alone<R: Files + Net>(
    rt: &R,
    path: &str,
    access: Access,
) -> io::Result<(UnixListener, Identity)> {
    let address = SocketAddr::from_pathname(path)?;
    let socket = rt.unix_socket()?;
    // The file is made with those of the socket's bits that the process's mask leaves.
    done(libc::fchmod(socket.as_raw_fd(), access.mode))?;
    remove_left_over(rt, path, access)?;
    rt.bind_unix(socket.as_fd(), &address)?;
    let file = fs::symlink_metadata(rt, path)?;
    let made = Identity::of(&file);
    match open_up(rt, &socket, path, file.mode(), access) {
        Ok(()) => Ok((UnixListener::from(socket), made)),
        Err(error) => {
            remove_made(rt, path, made);
            Err(error)
        }
    }
}

/// Gives the file the bits that it lacks, and then to its owner, and listens. Until then a connect is refused. Whoever owns it may
/// exchange it, so nothing is changed by its path behind that.
fn open_up<R: Files>(
    rt: &R,
    socket: &OwnedFd,
    path: &str,
    found: u32,
    access: Access,
) -> io::Result<()> {
    if found & PERMISSION_BITS != access.mode {
        fs::set_permissions(rt, path, Permissions::from_mode(access.mode))?;
    }
    if let Some((user, group)) = access.owner {
        lchown(rt, path, Some(user.0), Some(group.0))?;
    }
    done(libc::net::listen(socket.as_raw_fd(), MOST_WAITING))
}

/// Removes a socket at which nobody listens.
fn remove_left_over<R: Files + Net>(rt: &R, path: &str, access: Access) -> io::Result<()> {
    match fs::symlink_metadata(rt, path) {
        Ok(file) if file.file_type().is_socket() && is_left_over(rt, path, &file, access) => {
            fs::remove_file(rt, path)
        }
        _ => Ok(()),
    }
}

/// Whether nobody listens there. It never waits, also where too many wait there to be accepted. Another of these servers
/// isn't asked: it has the lock. Who isn't root may not ask at a socket that was given away: that is left over if it is
/// just what it is to become.
fn is_left_over<N: Net>(net: &N, path: &str, file: &Metadata, access: Access) -> bool {
    match UnixStream::connect(net, path) {
        Ok(_) => false,
        Err(error) => match error.kind() {
            ErrorKind::ConnectionRefused => true,
            ErrorKind::PermissionDenied => is_given_away(file, access),
            _ => false,
        },
    }
}

/// Whether the file has the owner and the mode that it would be given.
fn is_given_away(file: &Metadata, access: Access) -> bool {
    match access.owner {
        Some((user, group)) => {
            let is_owned = file.uid() == user.0 && file.gid() == group.0;
            is_owned && file.mode() & PERMISSION_BITS == access.mode
        }
        None => false,
    }
}
