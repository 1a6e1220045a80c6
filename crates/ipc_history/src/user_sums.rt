//! By what number users are known again.

ghost use Rattle.std.specs.Prelude.{◌≡◌, ◌++◌, flat_map, IfOk, OnOk};
ghost use Rattle.std.specs.Int.{w32, w64, to_be_bytes};
ghost use Rattle.ipc_history.specs.Users.{spelled_group, spelled_user, users_sum};

use ipc_access::{User, Users};
use ipc_log::crc32c;
use ipc_terms::{Gid, NoMemory};
use std::alloc::{AllocError, Global};

/// The sum of all that the verdicts read of the users: their IDs, groups and limits, in the order of their file. A trail's head
/// has it. Names and keys aren't read: a key that is changed changes no verdict, and nothing of a key is told.
#[tactic(auto, unfolding(crate::specs::Users::users_sum))]
pub fn users_sum(alloc: Global, users: &Users) -> Result<u64, NoMemory>
    ensures { IfOk result (λ sum. sum ≡ users_sum users.now) }
{
    let mut bytes = Vec::new(alloc);
    put_users(&mut bytes, users.as_slice())?;
    Ok(u64::from(crc32c(&bytes)))
}

fn put_users(bytes: &mut Vec<u8>, users: &[User]) -> Result<(), AllocError>
    ensures { OnOk result (bytes.new.items ≡ bytes.old.items ++ flat_map spelled_user users.now) }
{
    for user in users {
        put_user(bytes, user)?;
    }
    Ok(())
}

#[tactic(auto, unfolding(crate::specs::Users::spelled_user))]
fn put_user(bytes: &mut Vec<u8>, user: &User) -> Result<(), AllocError>
    ensures { OnOk result (bytes.new.items ≡ bytes.old.items ++ spelled_user user.now) }
{
    let cred = &user.cred;
    let groups = cred.groups.as_slice();
    put_number(bytes, cred.uid.0)?;
    put_number(bytes, cred.gid.0)?;
    put_long(bytes, cred.limit)?;
    put_long(bytes, groups.len() as u64)?;
    put_groups(bytes, groups)?;
    Ok(())
}

fn put_number(bytes: &mut Vec<u8>, number: u32) -> Result<(), AllocError>
    ensures { OnOk result (bytes.new.items ≡ bytes.old.items ++ to_be_bytes w32 number) }
{
    bytes.extend_from_slice(&number.to_be_bytes())?;
    Ok(())
}

fn put_long(bytes: &mut Vec<u8>, number: u64) -> Result<(), AllocError>
    ensures { OnOk result (bytes.new.items ≡ bytes.old.items ++ to_be_bytes w64 number) }
{
    bytes.extend_from_slice(&number.to_be_bytes())?;
    Ok(())
}

fn put_groups(bytes: &mut Vec<u8>, groups: &[Gid]) -> Result<(), AllocError>
    ensures { OnOk result (bytes.new.items ≡ bytes.old.items ++ flat_map spelled_group groups.now) }
{
    for group in groups {
        bytes.extend_from_slice(&group.0.to_be_bytes())?;
    }
    Ok(())
}
