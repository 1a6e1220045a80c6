//! Descriptions and charges.

use crate::fault::Fault;
use crate::made::USERS;
use crate::subject::{Fresh, Subject};
use ipc_access::Users;
use ipc_descr::{Charges, Descrs, Row};
use ipc_terms::{Access, Desc, Sid, Uid};
use std::alloc::Global;

const ANN: Sid = Sid(0);

const BOB: Sid = Sid(1);

pub enum Step {
    /// Opens to read, and blocking.
    Open(Sid, u64, Desc),
    Close(Sid, Desc, Option<u64>),
    /// Hands on a description that the first holds to the second.
    HandOver(Sid, Desc, Sid),
    Slot(Sid, Desc, Option<usize>),
    /// Makes charges of the users, of whom ann has this limit and uses nothing.
    Charge(u64),
}

use Step::{Charge, Close, HandOver, Open, Slot};

pub static CASES: [(&str, &[Step]); 3] = [
    (
        "Descrs::open",
        &[
            Open(ANN, 4, Desc(0)),
            Open(BOB, 4, Desc(1)),
            Open(ANN, 5, Desc(2)),
            Close(ANN, Desc(0), Some(4)),
            Open(BOB, 6, Desc(3)),
            Slot(BOB, Desc(3), Some(0)),
            Slot(ANN, Desc(2), Some(2)),
            Close(BOB, Desc(1), Some(4)),
            Close(BOB, Desc(1), None),
        ],
    ),
    (
        "Descrs::hand_over",
        &[
            Open(ANN, 4, Desc(0)),
            Open(BOB, 4, Desc(1)),
            Open(ANN, 5, Desc(2)),
            HandOver(BOB, Desc(1), ANN),
            Slot(ANN, Desc(1), Some(1)),
            Slot(BOB, Desc(1), None),
            HandOver(ANN, Desc(2), BOB),
            HandOver(ANN, Desc(0), BOB),
            Slot(BOB, Desc(0), Some(0)),
            Close(ANN, Desc(2), None),
            Close(BOB, Desc(2), Some(5)),
            Close(ANN, Desc(1), Some(4)),
            Close(BOB, Desc(0), Some(4)),
        ],
    ),
    ("Charges::new", &[Charge(819_200)]),
];

fn open(descrs: &mut Descrs, sid: Sid, object: u64) -> Result<Desc, Fault> {
    if descrs.opened() >= 1 << 63 {
        return Err(Fault::Otherwise);
    }
    Ok(descrs.open(sid, object, Access::Read, false)?)
}

fn hand_over(descrs: &mut Descrs, sid: Sid, desc: Desc, taker: Sid) -> Result<bool, Fault> {
    if descrs.get(sid, desc).is_none() {
        return Ok(false);
    }
    descrs.hand_over(sid, desc, taker)?;
    Ok(descrs.holder(desc) == Some(taker))
}

fn are_charged(alloc: Global, limit: u64) -> Result<bool, Fault> {
    let charges = Charges::new(alloc, &Users::read(alloc, USERS)?)?;
    Ok(charges.limit(Uid(1000)) == limit && charges.used(Uid(1000)) == 0)
}

impl Subject for Descrs {
    type Step = Step;

    /// How many were opened, how many each session holds, how many give an object, and two of them.
    type Seen = (u64, (usize, usize), usize, (Option<Row>, Option<Row>));

    fn gives(&mut self, alloc: Global, step: &Step) -> Result<bool, Fault> {
        Ok(match *step {
            Open(sid, object, wanted) => open(self, sid, object)? == wanted,
            Close(sid, desc, wanted) => self.close(sid, desc) == wanted,
            HandOver(sid, desc, taker) => hand_over(self, sid, desc, taker)?,
            Slot(sid, desc, wanted) => self.slot(sid, desc) == wanted,
            Charge(limit) => are_charged(alloc, limit)?,
        })
    }

    fn seen(&self, _alloc: Global, _step: &Step) -> Result<Self::Seen, Fault> {
        let counts = (self.count(ANN), self.count(BOB));
        let rows = (self.get(ANN, Desc(2)), self.get(BOB, Desc(1)));
        Ok((
            self.opened(),
            counts,
            self.uses(4),
            (rows.0.copied(), rows.1.copied()),
        ))
    }
}

impl Fresh for Descrs {
    fn fresh(alloc: Global) -> Result<Descrs, Fault> {
        Ok(Descrs::new(alloc))
    }
}
