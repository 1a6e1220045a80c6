//! Streams, calls on several connections and scripts, served by the loop over links in memory.
//!
//! Of a stream's `NAME.out` the first line that begins `take` has what the link takes. The links give and take all at once, some
//! bytes at a time, byte by byte, and so that each second call would wait; each time another link serves `beside.in`. Then each of
//! the first reads and writes fails, one a run. Calls and scripts are served over links that know their moves, and give and take
//! all at once, and then in pieces by chance.

mod calls;
mod memory;
mod play;
mod scripts;
mod serving;

use crate::streams::STREAMS;
use anyhow::Result;

/// Prints for each script whether it is answered as it must be.
pub fn run_scripts(rt: &HostRuntime) -> Result<()> {
    scripts::run(rt)
}

/// Prints for each stream, and for each row of calls, whether its links take what they must.
pub fn run(rt: &HostRuntime) -> Result<()> {
    for name in &STREAMS {
        let verdict = serving::judge(rt, format!(in rt.alloc(); "streams/{name}")?.as_str())?;
        println!(rt; "served {name}: {verdict}")?;
    }
    for (name, count) in &calls::ROWS {
        let verdict = calls::judge(
            rt,
            format!(in rt.alloc(); "streams/{name}")?.as_str(),
            *count,
        )?;
        println!(rt; "served {name}: {verdict}")?;
    }
    Ok(())
}
