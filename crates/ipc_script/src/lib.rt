//! Scripts: a user file and the calls of labelled sessions, read line by line and answered line by line.
#![tactic(auto)]

mod fault;
mod labels;
mod script;
mod stepping;

pub use fault::ScriptFault;
pub use script::{run_script, run_script_on};
