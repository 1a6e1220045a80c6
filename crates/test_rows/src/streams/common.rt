//! What streams and calls have in common: the users, the hub that they are fed to, and the bytes that digits mean.

use anyhow::Result;
use ipc_access::Users;
use ipc_core::{Config, Limits};
use ipc_hub::Hub;
use std::alloc::Global;

const USERS: &[u8] =
    b"root:r00t:0:0::\nann:ka1:1000:1000:50:\nbob:kb1:1001:1001:50,51:\ncy:kc1:1002:1002::\n";

/// These users and the standard limits.
pub fn config(alloc: Global) -> Result<Config> {
    let users = Users::read(alloc, USERS)?;
    let limits = Limits::STANDARD;
    Ok(Config { users, limits })
}

pub fn new_hub(alloc: Global) -> Result<Hub> {
    Ok(Hub::new(alloc, config(alloc)?)?)
}

/// The bytes whose hexadecimal digits stand in the words.
pub fn bytes_of(alloc: Global, words: &str) -> Result<Vec<u8>> {
    let mut digits = String::new(alloc);
    for word in words.split_whitespace() {
        digits.push_str(word)?;
    }
    Ok(hex::decode(alloc, digits)?)
}
