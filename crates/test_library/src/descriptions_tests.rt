//! Each public call on descriptions, and worked lists of them.

use ipc_descr::{Descrs, Row};
use ipc_terms::{Access, Desc, Sid};
use std::alloc::Global;
use std::test::Fail;

const ANN: Sid = Sid(0);

const BOB: Sid = Sid(1);

/// One step on the descriptions, and what it is to give.
enum Step {
    /// Starts again, without descriptions.
    New,
    Open(Sid, u64, Access, bool, Desc),
    Get(Sid, Desc, Option<Row>),
    SetNonblock(Sid, Desc, bool),
    /// The first session, which holds the description, passes it on to the other.
    HandOver(Sid, Desc, Sid),
    Close(Sid, Desc, Option<u64>),
    CloseAll(Sid),
    First(Sid, Option<Desc>),
    Holder(Desc, Option<Sid>),
    Count(Sid, usize),
    Uses(u64, usize),
    Slot(Sid, Desc, Option<usize>),
    Opened(u64),
}

use Step::{
    Close, CloseAll, Count, First, Get, HandOver, Holder, New, Open, Opened, SetNonblock, Slot,
    Uses,
};

/// Opens. An open that is refused for want of memory is made again: it used up no number.
fn retried_open(
    descrs: &mut Descrs,
    sid: Sid,
    object: u64,
    access: Access,
    nonblock: bool,
) -> Result<Desc, Fail> {
    if descrs.opened() >= 1 << 63 {
        return Err(Fail::new("too many opens"));
    }
    match descrs.open(sid, object, access, nonblock) {
        Ok(desc) => Ok(desc),
        Err(_) => Ok(descrs.open(sid, object, access, nonblock)?),
    }
}

/// Sets whether calls by the description are refused where they would wait, and says whether the
/// session holds it.
fn sets(descrs: &mut Descrs, sid: Sid, desc: Desc, nonblock: bool) -> bool {
    let held = descrs.get(sid, desc).is_some();
    if held {
        descrs.set_nonblock(sid, desc, nonblock);
    }
    held
}

/// Passes the description on, and says whether the session held it and there was memory.
fn hands_over(descrs: &mut Descrs, sid: Sid, desc: Desc, taker: Sid) -> bool {
    let held = descrs.get(sid, desc).is_some();
    held && descrs.hand_over(sid, desc, taker).is_ok()
}

/// Does the step, and says whether it gave what it is to give.
fn gives(alloc: Global, descrs: &mut Descrs, step: &Step) -> Result<bool, Fail> {
    Ok(match *step {
        New => {
            *descrs = Descrs::new(alloc);
            true
        }
        Open(sid, object, access, nonblock, wanted) => {
            retried_open(descrs, sid, object, access, nonblock)? == wanted
        }
        Get(sid, desc, wanted) => descrs.get(sid, desc).copied() == wanted,
        SetNonblock(sid, desc, nonblock) => sets(descrs, sid, desc, nonblock),
        HandOver(sid, desc, taker) => hands_over(descrs, sid, desc, taker),
        Close(sid, desc, wanted) => descrs.close(sid, desc) == wanted,
        CloseAll(sid) => {
            descrs.close_all(sid);
            true
        }
        First(sid, wanted) => descrs.first(sid) == wanted,
        Holder(desc, wanted) => descrs.holder(desc) == wanted,
        Count(sid, wanted) => descrs.count(sid) == wanted,
        Uses(object, wanted) => descrs.uses(object) == wanted,
        Slot(sid, desc, wanted) => descrs.slot(sid, desc) == wanted,
        Opened(wanted) => descrs.opened() == wanted,
    })
}

/// Does the steps in order.
fn all_give(alloc: Global, descrs: &mut Descrs, steps: &[Step]) -> Result<(), Fail> {
    for (row, step) in steps.iter().enumerate() {
        if !gives(alloc, descrs, step)? {
            return Err(Fail::new(format_args!("row {row} gives something else")));
        }
    }
    Ok(())
}

const TO_WRITE: Row = Row {
    desc: Desc(0),
    session: BOB,
    object: 7,
    access: Access::Write,
    nonblock: false,
};

const TO_READ: Row = Row {
    desc: Desc(1),
    session: ANN,
    object: 7,
    access: Access::Read,
    nonblock: true,
};

const TO_BOTH: Row = Row {
    desc: Desc(2),
    session: BOB,
    object: 7,
    access: Access::Both,
    nonblock: false,
};

/// What bob opened, in ann's hands.
const PASSED_ON: Row = Row {
    desc: Desc(1),
    session: ANN,
    object: 4,
    access: Access::Both,
    nonblock: true,
};

static STEPS: [Step; 88] = [
    // No descriptions.
    New,
    Opened(0),
    Get(ANN, Desc(0), None),
    Close(ANN, Desc(0), None),
    First(ANN, None),
    Holder(Desc(0), None),
    Count(ANN, 0),
    Uses(0, 0),
    // Of two sessions.
    New,
    Open(ANN, 4, Access::Read, false, Desc(0)),
    Open(BOB, 4, Access::Both, true, Desc(1)),
    Get(BOB, Desc(0), None),
    Uses(4, 2),
    Holder(Desc(0), Some(ANN)),
    Close(ANN, Desc(0), Some(4)),
    First(BOB, Some(Desc(1))),
    // Its description is passed on, and nothing else of it changes.
    HandOver(BOB, Desc(1), ANN),
    Get(ANN, Desc(1), Some(PASSED_ON)),
    Get(BOB, Desc(1), None),
    Holder(Desc(1), Some(ANN)),
    First(ANN, Some(Desc(1))),
    First(BOB, None),
    Count(ANN, 1),
    Count(BOB, 0),
    Uses(4, 1),
    Slot(ANN, Desc(1), Some(1)),
    Opened(2),
    CloseAll(BOB),
    Get(ANN, Desc(1), Some(PASSED_ON)),
    // A number comes behind and before those that the taker holds; it may come back.
    New,
    Open(ANN, 4, Access::Read, false, Desc(0)),
    Open(BOB, 5, Access::Read, false, Desc(1)),
    Open(ANN, 6, Access::Read, false, Desc(2)),
    HandOver(ANN, Desc(2), BOB),
    HandOver(ANN, Desc(0), BOB),
    Count(BOB, 3),
    First(BOB, Some(Desc(0))),
    HandOver(BOB, Desc(1), ANN),
    HandOver(BOB, Desc(0), ANN),
    HandOver(ANN, Desc(0), ANN),
    Count(ANN, 2),
    First(ANN, Some(Desc(0))),
    First(BOB, Some(Desc(2))),
    CloseAll(ANN),
    Uses(4, 0),
    Uses(6, 1),
    // A closed description leaves its slot to a later one.
    New,
    Open(ANN, 1, Access::Read, false, Desc(0)),
    Open(ANN, 2, Access::Write, false, Desc(1)),
    Open(BOB, 1, Access::Both, false, Desc(2)),
    Slot(ANN, Desc(0), Some(0)),
    Close(ANN, Desc(0), Some(1)),
    Slot(ANN, Desc(0), None),
    Slot(ANN, Desc(1), Some(1)),
    Slot(BOB, Desc(2), Some(2)),
    Open(BOB, 3, Access::Read, false, Desc(3)),
    Slot(BOB, Desc(3), Some(0)),
    // Held and closed.
    New,
    Open(BOB, 7, Access::Write, false, Desc(0)),
    Open(ANN, 7, Access::Read, true, Desc(1)),
    Open(BOB, 7, Access::Both, false, Desc(2)),
    Get(BOB, Desc(0), Some(TO_WRITE)),
    SetNonblock(BOB, Desc(2), true),
    Get(
        BOB,
        Desc(2),
        Some(Row {
            nonblock: true,
            ..TO_BOTH
        }),
    ),
    SetNonblock(BOB, Desc(2), false),
    Get(BOB, Desc(2), Some(TO_BOTH)),
    Get(ANN, Desc(1), Some(TO_READ)),
    Close(ANN, Desc(0), None),
    Count(BOB, 2),
    Uses(7, 3),
    Close(BOB, Desc(0), Some(7)),
    Count(BOB, 1),
    Uses(7, 2),
    First(BOB, Some(Desc(2))),
    Opened(3),
    // A session hangs up.
    New,
    Open(ANN, 5, Access::Read, false, Desc(0)),
    Open(BOB, 5, Access::Read, false, Desc(1)),
    Open(ANN, 6, Access::Read, false, Desc(2)),
    CloseAll(ANN),
    Count(ANN, 0),
    First(ANN, None),
    Holder(Desc(2), None),
    Uses(5, 1),
    Uses(6, 0),
    Holder(Desc(1), Some(BOB)),
    Opened(3),
    Open(ANN, 6, Access::Both, false, Desc(3)),
];

#[test]
fn worked_descriptions(rt: HostRuntime) -> Result<(), Fail> {
    let mut descrs = Descrs::new(rt.alloc());
    all_give(rt.alloc(), &mut descrs, &STEPS)
}
