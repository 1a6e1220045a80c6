//! Heads of trails.

use ipc_history::users_sum;
use ipc_log::{Head, Retelling};
use ipc_policy::{Config, Limits};
use ipc_program::ProgramFault;
use ipc_script::ScriptFault;
use std::alloc::Global;

/// The head of a trail's first file under this configuration.
pub fn head_of(alloc: Global, config: &Config, retelling: Retelling) -> Result<Head, ProgramFault> {
    let Ok(users) = users_sum(alloc, &config.users) else {
        return Err(ScriptFault::Memory.into());
    };
    let Limits {
        msg_max,
        msgsize_max,
        queues_max,
    } = config.limits;
    Ok(Head {
        first: 0,
        msg_max,
        msgsize_max,
        queues_max,
        users,
        retelling,
    })
}
