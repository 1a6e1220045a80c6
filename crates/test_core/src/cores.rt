//! Cores that tests make.

use ipc_access::Users;
use ipc_core::{Config, Core, Limits};
use std::alloc::Global;
use std::test::Fail;

/// What a core of the users of this file begins with.
pub(crate) fn config(alloc: Global, file: &[u8], limits: Limits) -> Result<Config, Fail> {
    let users = Users::read(alloc, file)?;
    Ok(Config { users, limits })
}

/// A core of the standard limits.
pub(crate) fn core_of(alloc: Global, file: &[u8]) -> Result<Core, Fail> {
    let config = config(alloc, file, Limits::STANDARD)?;
    Ok(Core::new(alloc, config)?)
}
