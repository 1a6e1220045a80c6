//! Calls that meet want of memory, each made again where it is refused memory.
//!
//! A case is steps on a value. Where a step is refused memory, the value is to be seen as before it, and the step, made
//! again, is to give what it gives in ample memory; so do the steps behind it. A line is printed for each case. With
//! ample memory no step is refused; `faults/run.py` runs the program again and again, and refuses each growth in turn.
#![tactic(auto)]

mod books;
mod cores;
mod descriptions;
mod fault;
mod frames;
mod hubs;
mod loops;
mod made;
mod names;
mod programs;
mod queues;
mod readings;
mod served;
mod shares;
mod subject;
mod texts;
mod trails;

use books::Case;
use ipc_core::Core;
use ipc_descr::Descrs;
use ipc_hub::Hub;
use ipc_names::NameDir;
use ipc_queue::Queue;
use ipc_sem::Sem;
use ipc_trail::Trail;
use ipc_wire::Frames;
use std::io;
use std::sync::Wait;
use subject::{Fresh, Outcome, go_anew};
use test_links::Cut;
use texts::Texts;

/// Prints how the case goes.
fn show<R: Print>(rt: &R, name: &str, outcome: Outcome) -> io::Result<()> {
    match outcome {
        Ok(()) => println!(rt; "{name}: ok"),
        Err((row, fault)) => println!(rt; "{name}: step {row} {fault}"),
    }
}

/// Prints how each of the cases goes.
fn show_all<S: Fresh, R: Print + AllocGlobal>(
    rt: &R,
    cases: &[(&str, &[S::Step])],
) -> io::Result<()> {
    for (name, steps) in cases {
        show(rt, name, go_anew::<S>(rt.alloc(), steps))?;
    }
    Ok(())
}

/// The cases of the parts of a core.
fn show_parts<R: Print + AllocGlobal>(rt: &R) -> io::Result<()> {
    show_all::<NameDir, R>(rt, &names::CASES)?;
    show_all::<Descrs, R>(rt, &descriptions::CASES)?;
    show_all::<Queue, R>(rt, &queues::QUEUES)?;
    show_all::<Sem, R>(rt, &queues::SEMAPHORES)?;
    show_all::<Trail, R>(rt, &trails::CASES)
}

/// The cases of the loop.
fn show_loops<R: Print + AllocGlobal>(rt: &R) -> io::Result<()> {
    let alloc = rt.alloc();
    show(rt, "Server::round", loops::go_anew(alloc, Cut::Whole))?;
    show(
        rt,
        "Server::round in pieces",
        loops::go_anew(alloc, Cut::Pieces(1)),
    )
}

/// The cases of books.
fn show_books<R: Print + AllocGlobal + Wait>(rt: &R) -> io::Result<()> {
    let alloc = rt.alloc();
    show(rt, "Book", books::go_anew(alloc, Case::Calls))?;
    show(rt, "Book::tick_for", books::go_anew(alloc, Case::Ticks))?;
    show(rt, "Shared", shares::go_anew(rt, alloc, Case::Calls))?;
    show(
        rt,
        "Shared::tick, Shared::tick_if_due",
        shares::go_anew(rt, alloc, Case::Ticks),
    )
}

fn main(rt: HostRuntime) -> io::Result<()> {
    show_parts(&rt)?;
    show_all::<Core, HostRuntime>(&rt, &cores::CASES)?;
    show_all::<Frames, HostRuntime>(&rt, &frames::CASES)?;
    show_all::<Texts, HostRuntime>(&rt, &texts::CASES)?;
    show_all::<Hub, HostRuntime>(&rt, &hubs::CASES)?;
    show_loops(&rt)?;
    show_books(&rt)?;
    show(
        &rt,
        "serve_connection",
        served::go_anew(&rt, rt.alloc(), served::Way::Alone),
    )?;
    show(
        &rt,
        "run_workers",
        served::go_anew(&rt, rt.alloc(), served::Way::ByWorkers),
    )
}
