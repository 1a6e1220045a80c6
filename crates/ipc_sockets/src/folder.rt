//! A folder with a socket for each user.

ghost use Rattle.std.specs.Prelude.{◌≡◌, ◌≢◌, ◌++◌, ℕ, List, codes, length, IfOk, MatchOption};
ghost use Rattle.ipc_sockets.specs.Folders.{is_file_name};

use crate::files::{Access, Made, SocketFiles, listen_alone};
use crate::locks::Lock;
use ipc_terms::{Bytes, Gid, Uid};
use std::alloc::Global;
use std::fs::{File, Metadata};
use std::io::ErrorKind;
use std::net::Net;
use std::os::unix::fs::MetadataExt;
use std::os::unix::net::UnixListener;
use std::rt::Files;
use std::{fs, io};

/// What stands before the folder in the address of users' sockets.
const UNIX_USERS: &str = "unix-users:";

/// The name of the folder's lock, which no socket has.
const LOCK: &str = ".lock";

/// Its owner alone may connect.
const MODE: u32 = 0o600;

/// The bits of a folder's mode by which its group or others may write.
const WRITE_OF_OTHERS: u32 = 0o022;

/// Who may write to the folder removes and renames nothing there but what is its own.
const STICKY: u32 = 0o1000;

/// No file has this owner: to the system it stands for none.
const NOBODY: u32 = u32::MAX;

/// A user who has a socket of its own.
#[derive(Drop)]
pub struct UserSocket {
    /// The name of the socket's file.
    pub name: String,
    pub user: Uid,
    pub group: Gid,
    /// What each connection there begins with, before what its peer sends: the frame of the user's hello.
    pub hello: Bytes,
}

/// The folder, where the address is of users' sockets.
pub fn folder_of(address: &str) -> Option<&str>
    ensures { MatchOption result ((folder : List ℕ) → address.now ≢ codes "unix-users:" ++ folder) (λ folder. address.now ≡ codes "unix-users:" ++ folder.now) }
{
    address.strip_prefix(UNIX_USERS)
}

/// Listens at a socket of each user in the folder, FOLDER/NAME, which is made, has mode 0600 and is the user's before anybody can
/// connect. The folder's lock is `.lock` in it. An `Err` leaves no file that was made:
///
/// - `PermissionDenied` where the folder is none, or a link; where it is neither root's nor the process's own; where its group or others may
///   write to it and it isn't sticky; or where the process may not give files away
/// - `InvalidInput` where a user's name can't be that of a file there, or its path has more than 107 bytes, or an ID is that of nobody
/// - `AddrInUse` where another server has the lock, or a file of a user's name is there already, but for a socket at which nobody
///   listens, which is removed first; so too where two users have one name
pub fn listen_in_folder<R: Files<File = File> + Net>(
    rt: &R,
    alloc: Global,
    folder: &str,
    users: &[UserSocket],
) -> io::Result<(Vec<UnixListener>, SocketFiles)>
    ensures { IfOk result (λ listening. length listening.0.items ≡ length users.now) }
{
    if !is_kept(&fs::symlink_metadata(rt, folder)?) {
        return Err(io::Error::from(ErrorKind::PermissionDenied));
    }
    let mut listeners = Vec::with_capacity(alloc, users.len())?;
    let made = Vec::with_capacity(alloc, users.len())?;
    let lock = Lock::take(rt, format!(in alloc; "{folder}/{LOCK}")?)?;
    let mut files = SocketFiles { made, lock };
    for user in users {
        match listen_for(rt, alloc, folder, user) {
            Ok((listener, file)) => {
                files.made.push(file)?;
                listeners.push(listener)?;
            }
            Err(error) => {
                files.remove(rt);
                return Err(error);
            }
        }
    }
    Ok((listeners, files))
}

/// Whether nobody but root and this process's user can put another file in the place of one that these two own.
fn is_kept(folder: &Metadata) -> bool {
    let is_ours = folder.uid() == 0 || folder.uid() == libc::geteuid();
    let is_closed = folder.mode() & WRITE_OF_OTHERS == 0 || folder.mode() & STICKY != 0;
    folder.is_dir() && is_ours && is_closed
}

/// Listens at the user's socket.
fn listen_for<R: Files + Net>(
    rt: &R,
    alloc: Global,
    folder: &str,
    user: &UserSocket,
) -> io::Result<(UnixListener, Made)> {
    let name = user.name.as_str();
    if !is_name(name) || user.user.0 == NOBODY || user.group.0 == NOBODY {
        return Err(io::Error::from(ErrorKind::InvalidInput));
    }
    let path = format!(in alloc; "{folder}/{name}")?;
    let access = Access {
        mode: MODE,
        owner: Some((user.user, user.group)),
    };
    let (listener, identity) = listen_alone(rt, path.as_str(), access)?;
    Ok((listener, Made { path, identity }))
}

/// Whether the folder can have a file of this name beside its lock. A zero byte is refused with the path.
fn is_name(name: &str) -> bool
    ensures { result ≡ is_file_name name.now }
{
    let is_taken = name == LOCK || name == "." || name == "..";
    !is_taken && !name.is_empty() && !name.as_bytes().contains(&b'/')
}
