//! Users as owners of sockets.

ghost use Rattle.std.specs.Prelude.{IfOk};
ghost use Rattle.std.specs.List.{AllZip};
ghost use Rattle.ipc_sockets.specs.Owners.{IsOf};

use crate::folder::UserSocket;
use ipc_access::{User, Users};
use ipc_terms::Bytes;
use ipc_wire::{Request, WriteFault, write_request};
use std::alloc::Global;
use std::io::ErrorKind;
use std::{io, str};

/// A socket for each user, of the user's name, ID and group. Whoever connects there has said its hello. `InvalidInput` where a name is
/// not UTF-8 or a key has more than 65,535 bytes, as none of a user file's.
pub fn sockets_of(alloc: Global, users: &Users) -> io::Result<Vec<UserSocket>>
    ensures { IfOk result (λ sockets. AllZip IsOf users.now sockets.items) }
{
    let users = users.as_slice();
    let mut sockets = Vec::with_capacity(alloc, users.len())?;
    for user in users {
        if sockets.push(socket_of(alloc, user)?).is_err() {
            return Err(io::Error::from(ErrorKind::OutOfMemory));
        }
    }
    Ok(sockets)
}

fn socket_of(alloc: Global, user: &User) -> io::Result<UserSocket>
    ensures { IfOk result (IsOf user.now) }
{
    let Ok(name) = str::from_utf8(user.name.as_slice()) else {
        return Err(io::Error::from(ErrorKind::InvalidInput));
    };
    let hello = match write_request(alloc, &Request::Hello(user.key.clone()?)) {
        Ok(frame) => frame,
        Err(WriteFault::NoMemory) => return Err(io::Error::from(ErrorKind::OutOfMemory)),
        Err(WriteFault::TooLong) => return Err(io::Error::from(ErrorKind::InvalidInput)),
    };
    Ok(UserSocket {
        name: String::from_str(alloc, name)?,
        user: user.cred.uid,
        group: user.cred.gid,
        hello: Bytes::from_vec(hello)?,
    })
}
