//! The users of a user file.

ghost use Rattle.std.specs.Prelude.{◌≡◌, IfOk};
ghost use Rattle.ipc_access.specs.UserFile.{lines_of, users_of};

use crate::fault::ProgramFault;
use ipc_access::Users;
use ipc_script::ScriptFault;
use std::alloc::Global;
use std::fs;
use std::fs::File;
use std::rt::Files;

/// Those of the file at this path.
pub fn users_at<R: AllocGlobal + Files<File = File>>(
    rt: &R,
    path: &str,
) -> Result<Users, ProgramFault> {
    match fs::read(rt, path) {
        Ok(file) => users_of(rt.alloc(), &file),
        Err(error) => Err(ProgramFault::of_file(&error)),
    }
}

/// Those of a file of these bytes.
pub fn users_of(alloc: Global, file: &[u8]) -> Result<Users, ProgramFault>
    ensures { IfOk result (λ users. users ≡ users_of (lines_of file.now)) }
{
    match Users::read(alloc, file) {
        Ok(users) => Ok(users),
        Err(fault) => Err(ScriptFault::from(fault).into()),
    }
}
