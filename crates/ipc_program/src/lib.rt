//! The server's program: its arguments, its users, its lines on standard output, and the exit status of each fault that ends it.
#![tactic(auto)]

mod addresses;
mod arguments;
mod fault;
mod metrics;
mod output;
mod tasks;
mod trails;
mod users;

pub use arguments::task_of_words;
pub use fault::ProgramFault;
pub use output::{print_line, say};
pub use tasks::{Kept, NewLimits, Places, Replaying, Retold, Serving, Task, Threading, TrailFile};
pub use users::{users_at, users_of};
