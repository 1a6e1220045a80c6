//! Runs rows of data whose outcome is known, and prints for each whether it comes out so: scripts, and streams through a hub, and
//! both over links. With the word `streams` it leaves out the scripts.
#![tactic(auto)]

mod files;
mod scripts;
mod served;
mod streams;

use anyhow::Result;
use std::env;

fn main(rt: HostRuntime) -> Result<()> {
    let words: Vec<String> = env::args(&rt)?.collect(rt.alloc())?;
    if words.get(1).is_none_or(|word| word.as_str() != "streams") {
        scripts::run(&rt)?;
        served::run_scripts(&rt)?;
    }
    streams::run(&rt)?;
    served::run(&rt)
}
