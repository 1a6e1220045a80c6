//! Semaphores, as a table of steps.

use ipc_sem::{Overflow, Sem, WaitOutcome};
use ipc_terms::{NoMemory, SEM_VALUE_MAX, Sid};
use std::alloc::Global;
use std::test::Fail;

const ANN: Sid = Sid(0);

const BOB: Sid = Sid(1);

const CY: Sid = Sid(2);

/// One step on a semaphore, and what it is to give.
enum Step {
    /// Starts again, with a semaphore of this first value.
    New(u32),
    Post(Result<Option<Sid>, Overflow>),
    Wait(Sid, WaitOutcome),
    TryWait(bool),
    Withdraw(Sid, bool),
    Value(u32),
    Waiter(Option<Sid>),
    /// A call that does nothing.
    AtZero,
}

use Step::{AtZero, New, Post, TryWait, Value, Wait, Waiter, Withdraw};

static STEPS: [Step; 46] = [
    // One wait passes, one waits for a post.
    New(1),
    Value(1),
    Wait(ANN, WaitOutcome::Passed),
    Wait(BOB, WaitOutcome::Parked),
    Waiter(Some(BOB)),
    Post(Ok(Some(BOB))),
    Value(0),
    Waiter(None),
    // The wait that waits longest is served first.
    New(0),
    Wait(CY, WaitOutcome::Parked),
    Wait(ANN, WaitOutcome::Parked),
    Waiter(Some(CY)),
    Post(Ok(Some(CY))),
    Waiter(Some(ANN)),
    Value(0),
    Post(Ok(Some(ANN))),
    Post(Ok(None)),
    Value(1),
    // A wait that doesn't park.
    New(2),
    TryWait(true),
    Value(1),
    TryWait(true),
    TryWait(false),
    Value(0),
    Post(Ok(None)),
    TryWait(true),
    // A withdrawn wait gets nothing.
    New(0),
    Withdraw(ANN, false),
    Wait(ANN, WaitOutcome::Parked),
    Wait(BOB, WaitOutcome::Parked),
    Wait(CY, WaitOutcome::Parked),
    Withdraw(BOB, true),
    Withdraw(BOB, false),
    AtZero,
    Post(Ok(Some(ANN))),
    Post(Ok(Some(CY))),
    Waiter(None),
    // The greatest value.
    New(SEM_VALUE_MAX),
    Value(SEM_VALUE_MAX),
    Post(Err(Overflow)),
    Value(SEM_VALUE_MAX),
    Wait(ANN, WaitOutcome::Passed),
    Value(SEM_VALUE_MAX - 1),
    Post(Ok(None)),
    Post(Err(Overflow)),
    TryWait(true),
];

/// Does the step, and says whether it gave what it is to give.
fn gives(alloc: Global, semaphore: &mut Sem, step: &Step) -> Result<bool, NoMemory> {
    Ok(match *step {
        New(value) => starts(alloc, semaphore, value),
        Post(wanted) => semaphore.post() == wanted,
        Wait(who, wanted) => semaphore.wait(who)? == wanted,
        TryWait(wanted) => semaphore.try_wait() == wanted,
        Withdraw(who, wanted) => semaphore.withdraw(who) == wanted,
        Value(wanted) => semaphore.value() == wanted,
        Waiter(wanted) => semaphore.waiter() == wanted,
        AtZero => {
            semaphore.parks_at_zero();
            true
        }
    })
}

/// Starts again, and says whether a semaphore may have this first value.
fn starts(alloc: Global, semaphore: &mut Sem, value: u32) -> bool {
    if value <= SEM_VALUE_MAX {
        *semaphore = Sem::new(alloc, value);
    }
    value <= SEM_VALUE_MAX
}

/// Does the steps in order.
fn all_give(alloc: Global, semaphore: &mut Sem, steps: &[Step]) -> Result<(), Fail> {
    for (row, step) in steps.iter().enumerate() {
        if !gives(alloc, semaphore, step)? {
            return Err(Fail::new(format_args!("row {row} gives something else")));
        }
    }
    Ok(())
}

#[test]
fn worked_semaphores(rt: HostRuntime) -> Result<(), Fail> {
    let mut semaphore = Sem::new(rt.alloc(), 0);
    all_give(rt.alloc(), &mut semaphore, &STEPS)
}
