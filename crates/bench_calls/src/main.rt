//! Times calls without sockets, and prints how much came out, and the microseconds.
//!
//! - `bench_calls hub KIND CONNECTIONS PIECE ROUNDS`: makes calls through a hub, and counts the bytes that came out.
//! - `bench_calls frames MESSAGE PIECE COUNT`: reads sends, and counts the requests.
//! - `bench_calls stream MESSAGE PIECE COUNT`: feeds the same to a hub, and counts the bytes that came out.
//! - `bench_calls numbers COUNT`: lets values come and go at their numbers, and tells no time.
//!
//! Without words it does a little of each, and prints no time.
#![tactic(auto)]

mod frames;
mod hub;
mod numbers;

use anyhow::{Result, bail};
use hub::KINDS;
use std::env;
use std::process::ExitCode;

/// A little of each: what comes out is known.
fn run_small(rt: &HostRuntime) -> Result<()> {
    for kind in &KINDS {
        let (bytes, _) = hub::run(rt, hub::Job::small(*kind))?;
        println!(rt; "{bytes} bytes")?;
    }
    let (requests, _) = frames::read(rt, frames::Job::small())?;
    println!(rt; "{requests} requests")?;
    let (bytes, _) = frames::step(rt, frames::Job::small())?;
    println!(rt; "{bytes} bytes")?;
    numbers::run(rt, 100)
}

fn run(rt: &HostRuntime) -> Result<()> {
    let words: Vec<String> = env::args(rt)?.collect(rt.alloc())?;
    let (count, microseconds) = match words.as_slice() {
        [] | [_] => return run_small(rt),
        [_, what, count] if what.as_str() == "numbers" => {
            return numbers::run(rt, count.parse()?);
        }
        [_, what, job @ ..] => match what.as_str() {
            "hub" => hub::run(rt, hub::Job::of_words(job)?)?,
            "frames" => frames::read(rt, frames::Job::of_words(job)?)?,
            "stream" => frames::step(rt, frames::Job::of_words(job)?)?,
            _ => bail!("takes hub, frames, stream or numbers"),
        },
    };
    println!(rt; "{count} {microseconds}")?;
    Ok(())
}

fn main(rt: HostRuntime) -> ExitCode {
    match run(&rt) {
        Ok(()) => ExitCode::SUCCESS,
        Err(fault) => {
            let _ = eprintln!(rt; "bench_calls: {fault}");
            ExitCode::FAILURE
        }
    }
}
