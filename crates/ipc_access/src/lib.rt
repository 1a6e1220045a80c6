//! Users, and what a mode grants to whom.
#![tactic(auto)]

mod class;
mod fault;
mod file;
mod line;
mod ownership;
mod places;
mod removal;
mod seen;
mod users;

pub use class::{Class, Cred, Groups, READ, SEARCH, WRITE, class_of, grants};
pub use fault::UserFault;
/// A directory's owner, group and mode.
pub use ipc_terms::Facts as DirFacts;
pub use ownership::{may_chmod, may_chown};
pub use places::UserIds;
pub use removal::may_remove;
pub use users::{User, Users};
