//! Runs workloads and prints a digest of all that they were answered: `workloads NAME SEED LIVES`. A life is that of one
//! server, from its start to its end. Without words each workload runs small.
#![tactic(auto)]

mod backlog;
mod chance;
mod connections;
mod directory;
mod exchange;
mod pipeline;
mod script;
mod setting;

use anyhow::{Result, bail};
use chance::Chance;
use setting::{Digest, Size};
use std::alloc::Global;
use std::env;
use std::hash::{FoldHasher, Hasher};
use std::process::ExitCode;
use std::sync::Wait;

/// What a workload does.
#[derive(Clone, Copy)]
enum Workload {
    Pipeline,
    Exchange,
    Directory,
    Backlog,
    Script,
}

const WORKLOADS: [Workload; 5] = [
    Workload::Pipeline,
    Workload::Exchange,
    Workload::Directory,
    Workload::Backlog,
    Workload::Script,
];

impl Workload {
    fn name(self) -> &'static str {
        match self {
            Workload::Pipeline => "pipeline",
            Workload::Exchange => "exchange",
            Workload::Directory => "directory",
            Workload::Backlog => "backlog",
            Workload::Script => "script",
        }
    }

    fn of_name(name: &str) -> Option<Workload> {
        for workload in &WORKLOADS {
            if workload.name() == name {
                return Some(*workload);
            }
        }
        None
    }

    /// One life of a server.
    fn live<R: Wait>(
        self,
        rt: &R,
        alloc: Global,
        chance: &mut Chance,
        size: Size,
        digest: &mut Digest,
    ) -> Result<()> {
        match self {
            Workload::Pipeline => pipeline::live(rt, alloc, chance, size, digest),
            Workload::Exchange => exchange::live(alloc, chance, size, digest),
            Workload::Directory => directory::live(alloc, chance, size, digest),
            Workload::Backlog => backlog::live(alloc, chance, size, digest),
            Workload::Script => script::live(alloc, chance, size, digest),
        }
    }
}

/// The digest of so many lives.
fn digest_of<R: Wait>(
    rt: &R,
    alloc: Global,
    workload: Workload,
    seed: u64,
    lives: u32,
    size: Size,
) -> Result<u64> {
    let mut chance = Chance::new(seed);
    let mut digest = Digest {
        hasher: FoldHasher::default(),
    };
    for _ in 0..lives {
        workload.live(rt, alloc, &mut chance, size, &mut digest)?;
    }
    Ok(digest.hasher.finish())
}

/// What the words ask for.
#[derive(Clone, Copy)]
enum Task {
    AllSmall,
    One {
        workload: Workload,
        seed: u64,
        lives: u32,
    },
}

fn task_of(words: &[String]) -> Result<Task> {
    let [_, name, seed, lives] = words else {
        return Ok(Task::AllSmall);
    };
    let Some(workload) = Workload::of_name(name) else {
        bail!("no such workload");
    };
    Ok(Task::One {
        workload,
        seed: seed.parse()?,
        lives: lives.parse()?,
    })
}

/// Runs a workload, and prints its name and its digest.
fn run_one<R: AllocGlobal + Print + Wait>(
    rt: &R,
    workload: Workload,
    seed: u64,
    lives: u32,
    size: Size,
) -> Result<()> {
    let digest = digest_of(rt, rt.alloc(), workload, seed, lives, size)?;
    println!(rt; "{} {digest:016x}", workload.name())?;
    Ok(())
}

fn run<R: AllocGlobal + Print + Wait>(rt: &R, task: Task) -> Result<()> {
    match task {
        Task::AllSmall => {
            for workload in &WORKLOADS {
                run_one(rt, *workload, 1, 2, Size::Small)?;
            }
            Ok(())
        }
        Task::One {
            workload,
            seed,
            lives,
        } => run_one(rt, workload, seed, lives, Size::Full),
    }
}

fn task_given(rt: &HostRuntime) -> Result<Task> {
    let words: Vec<String> = env::args(rt)?.collect(rt.alloc())?;
    task_of(words.as_slice())
}

fn main(rt: HostRuntime) -> ExitCode {
    let outcome = match task_given(&rt) {
        Ok(task) => run(&rt, task),
        Err(error) => Err(error),
    };
    match outcome {
        Ok(()) => ExitCode::SUCCESS,
        Err(error) => {
            let _said = eprintln!(rt; "workloads: {error}");
            ExitCode::FAILURE
        }
    }
}
