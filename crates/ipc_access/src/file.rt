//! The user file.

ghost use Rattle.std.specs.Prelude.{◌≡◌, ◌+◌, ◌≢◌, IfOk, IfErr, Some, None, length, map, nat_lt};
ghost use Rattle.ipc_access.specs.UserLine.{user_of};
ghost use Rattle.ipc_access.specs.Places.{AreOf, fault_among};
ghost use Rattle.ipc_access.specs.UserFile.{ends_empty, lines_of, users_of, fault_after, user_fault};

use crate::fault::UserFault;
use crate::line::{parts_of, user_of};
use crate::seen::Seen;
use crate::users::{User, Users};
use std::alloc::{AllocError, Global};

/// The most users that a file may have.
const MOST_USERS: usize = 4_096;

impl Users {
    /// Reads a user file: lines `name:key:uid:gid:groups:limit`, each ended by a line feed, which
    /// may be missing after the last. A name is 1 to 32 of `a-z`, `0-9`, `_` and `-`; a key 1 to 64
    /// ASCII letters and digits; IDs are decimal `u32`; groups are parted by commas, at most 64;
    /// the limit is in bytes, at most 10^15, and where it is missing 819,200. No number has leading
    /// zeros. The first line at fault decides.
    #[tactic(auto, using(crate::proofs::FileLemmas::begun, crate::proofs::FileLemmas::done, crate::proofs::FileLemmas::done_faultless))]
    pub fn read(alloc: Global, bytes: &[u8]) -> Result<Users, UserFault>
        // What is read is the users that the lines spell, and nothing is wrong with the lines.
        ensures users { IfOk result (λ users. users ≡ users_of (lines_of bytes.now)) }
        ensures faultless { IfOk result (λ _. user_fault (lines_of bytes.now) ≡ None) }
        // Otherwise the fault is that of the first line at fault, or memory was wanting.
        ensures fault { IfErr result (λ fault. fault ≢ UserFault.NoMemory → user_fault (lines_of bytes.now) ≡ Some fault) }
    {
        let lines = lines_of(alloc, bytes)?;
        let mut rows = Vec::new(alloc);
        let mut seen = Seen::new(alloc);
        for line in &lines {
            let user = next_user(alloc, &seen, &rows, line)?;
            seen.add(alloc, &user)?;
            rows.push(user)?;
        }
        let Seen { keys, ids, .. } = seen;
        Ok(Users::from_parts(rows, keys, ids))
    }
}

/// The lines of the file.
#[tactic(auto, unfolding(crate::specs::UserFile::lines_of))]
fn lines_of(alloc: Global, bytes: &[u8]) -> Result<Vec<&[u8]>, AllocError>
    ensures { IfOk result (λ lines. map (λ line. line.now) lines.items ≡ lines_of bytes.now) }
{
    let mut lines = parts_of(alloc, b'\n', bytes)?;
    if ends_empty(&lines) {
        lines.pop();
    }
    Ok(lines)
}

/// Whether the last piece is empty.
fn ends_empty(pieces: &[&[u8]]) -> bool
    ensures { result ≡ ends_empty (map (λ piece. piece.now) pieces.now) }
{
    pieces.last().is_some_and(|piece| piece.is_empty())
}

/// The user that the next line spells, after lines that spell these users.
fn next_user(alloc: Global, seen: &Seen, earlier: &[User], line: &[u8]) -> Result<User, UserFault>
    requires { AreOf seen.now earlier.now }
    ensures user { IfOk result (λ user. user_of line.now ≡ Some user) }
    ensures faultless { IfOk result (λ _. fault_after earlier.now (length earlier.now + 1) line.now ≡ None) }
    ensures unseen { IfOk result (λ user. fault_among seen.now 0 user ≡ None) }
    ensures fault { IfErr result (λ fault. fault ≢ UserFault.NoMemory → fault_after earlier.now (length earlier.now + 1) line.now ≡ Some fault) }
{
    if is_full(earlier) {
        return Err(UserFault::TooMany);
    }
    let number = earlier.len() as u64 + 1;
    let Some(user) = user_of(alloc, line)? else {
        return Err(UserFault::BadLine(number));
    };
    match seen.fault_of(number, &user) {
        Some(fault) => Err(fault),
        None => Ok(user),
    }
}

/// Whether there are as many users as a file may have.
fn is_full(users: &[User]) -> bool
    ensures { result ≡ nat_lt 4096 (length users.now + 1) }
{
    users.len() >= MOST_USERS
}
