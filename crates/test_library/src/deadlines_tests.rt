//! Parked calls with deadlines: whose is due, which deadline is the least, and what is left when one ends.

use ipc_containers::{Deadlines, Timed, TimedCalls};
use ipc_terms::Sid;
use std::test::Fail;

/// The earlier call, with the later deadline.
const EARLIER: Timed = Timed {
    place: 3,
    session: Sid(0),
    deadline: 20,
};

const LATER: Timed = Timed {
    place: 7,
    session: Sid(1),
    deadline: 10,
};

#[test]
fn the_earliest_call_that_is_over_is_due(rt: HostRuntime) -> Result<(), Fail> {
    let mut deadlines = Deadlines::new();
    deadlines.push(rt.alloc(), EARLIER)?;
    deadlines.push(rt.alloc(), LATER)?;
    assert!(rt; deadlines.due(9).is_none() && deadlines.due(10) == Some(Sid(1)));
    assert!(rt; deadlines.due(19) == Some(Sid(1)) && deadlines.due(20) == Some(Sid(0)));
    assert!(rt; deadlines.least() == Some(10));
    deadlines.remove(3);
    assert!(rt; deadlines.due(20) == Some(Sid(1)));
    deadlines.remove(7);
    assert!(rt; deadlines.due(u64::MAX).is_none() && deadlines.least().is_none());
    Ok(())
}

#[test]
fn a_session_s_call_ends_and_another_comes(rt: HostRuntime) -> Result<(), Fail> {
    let mut calls = TimedCalls::new(rt.alloc());
    calls.push(rt.alloc(), EARLIER)?;
    calls.push(rt.alloc(), LATER)?;
    calls.end(Sid(1));
    assert!(rt; calls.due(19).is_none() && calls.due(20) == Some(Sid(0)));
    assert!(rt; calls.least() == Some(20));
    calls.end(Sid(0));
    assert!(rt; calls.due(u64::MAX).is_none());
    calls.push(rt.alloc(), LATER)?;
    assert!(rt; calls.due(10) == Some(Sid(1)));
    Ok(())
}
