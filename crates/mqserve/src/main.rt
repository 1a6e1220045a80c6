//! The server's program. `mqserve` or `mqserve script` runs a script from standard input, and writes its answers to
//! standard output. `mqserve serve` serves connections.
#![tactic(auto)]

mod guidance;
mod journal;
mod log;
mod logged;
mod one_thread;
mod saved;
mod serving;
mod tally;
mod ticking;
mod watch;

use guidance::{help_text, hint};
use ipc_core::Limits;
use ipc_program::{ProgramFault, Task, task_of_words};
use ipc_saving::{compact_trail, compare_trails, replay_trail};
use ipc_script::run_script;
use serving::serve;
use std::env;
use std::process::ExitCode;

fn main(rt: HostRuntime) -> ExitCode {
    let outcome = match task_given(&rt) {
        Ok(Task::Script(limits)) => script(&rt, limits),
        Ok(Task::Serve(serving)) => serve(&rt, &serving),
        Ok(Task::Replay(replaying)) => replay_trail(&rt, &replaying),
        Ok(Task::Compact(retold)) => compact_trail(&rt, &retold),
        Ok(Task::Compare(retold)) => compare_trails(&rt, &retold),
        Err(fault) => Err(fault),
    };
    match outcome {
        Ok(()) => ExitCode::SUCCESS,
        Err(fault) => {
            fault.print(&rt);
            ExitCode::from(fault.status())
        }
    }
}

/// What the arguments ask for.
fn task_given(rt: &HostRuntime) -> Result<Task, ProgramFault> {
    let words: Vec<String> = env::args(rt)?.collect(rt.alloc())?;
    let help = help_text(rt.alloc())?;
    task_of_words(rt.alloc(), help.as_str(), &words)
}

/// Runs the script on standard input.
fn script(rt: &HostRuntime, limits: Limits) -> Result<(), ProgramFault> {
    hint(rt);
    run_script(rt.alloc(), limits, rt.stdin(), rt.stdout())?;
    Ok(())
}
