//! Each public call on charges, and what queues take.

use ipc_access::Users;
use ipc_descr::{Charges, bytes_of, checked_bytes_of};
use ipc_terms::Uid;
use std::test::Fail;

const FILE: &str = "ann:ka1:1000:1000:50:\nbob:kb1:1001:1001::100\n";

const ANN: Uid = Uid(1000);

const BOB: Uid = Uid(1001);

/// No user of the file.
const CY: Uid = Uid(1002);

/// One step on the charges, and what it is to give.
enum Step {
    /// Whether the bytes are within the limit, so that they are added.
    Add(Uid, u64, bool),
    /// Whether so many are charged, so that they are given back.
    GiveBack(Uid, u64, bool),
    SetLimit(Uid, u64),
    Used(Uid, u64),
    Limit(Uid, u64),
    /// What a queue of so many messages of so many bytes takes.
    Bytes(u32, u32, Option<u64>),
}

use Step::{Add, Bytes, GiveBack, Limit, SetLimit, Used};

fn adds(charges: &mut Charges, uid: Uid, bytes: u64) -> bool {
    let fits = match charges.used(uid).checked_add(bytes) {
        Some(all) => all <= charges.limit(uid),
        None => false,
    };
    if fits {
        charges.add(uid, bytes);
    }
    fits
}

fn gives_back(charges: &mut Charges, uid: Uid, bytes: u64) -> bool {
    let is_charged = bytes <= charges.used(uid);
    if is_charged {
        charges.give_back(uid, bytes);
    }
    is_charged
}

fn bytes(maxmsg: u32, msgsize: u32) -> Option<u64> {
    if maxmsg <= 65_536 && msgsize <= 16_777_216 {
        return Some(bytes_of(maxmsg, msgsize));
    }
    checked_bytes_of(maxmsg, msgsize)
}

/// Does the step, and says whether it gave what it is to give.
fn gives(charges: &mut Charges, step: &Step) -> bool {
    match *step {
        Add(uid, bytes, wanted) => adds(charges, uid, bytes) == wanted,
        GiveBack(uid, bytes, wanted) => gives_back(charges, uid, bytes) == wanted,
        SetLimit(uid, bytes) => {
            charges.set_limit(uid, bytes);
            true
        }
        Used(uid, wanted) => charges.used(uid) == wanted,
        Limit(uid, wanted) => charges.limit(uid) == wanted,
        Bytes(maxmsg, msgsize, wanted) => bytes(maxmsg, msgsize) == wanted,
    }
}

static STEPS: [Step; 26] = [
    Used(ANN, 0),
    Limit(ANN, 819_200),
    Add(ANN, 82_880, true),
    Used(ANN, 82_880),
    GiveBack(ANN, 82_880, true),
    Used(ANN, 0),
    GiveBack(ANN, 1, false),
    // The limit is reached at its last byte, and a lower one leaves what is used.
    Limit(BOB, 100),
    Add(BOB, 101, false),
    Add(BOB, 100, true),
    SetLimit(BOB, 50),
    Limit(BOB, 50),
    Used(BOB, 100),
    Add(BOB, 0, false),
    GiveBack(BOB, 60, true),
    Add(BOB, 10, true),
    Used(BOB, 50),
    // Who is no user has no limit to set.
    SetLimit(CY, 5),
    Limit(CY, 0),
    Used(CY, 0),
    // Of a queue without other attributes, of user 0's greatest, and of greater ones.
    Bytes(10, 8192, Some(82_880)),
    Bytes(65_536, 1, Some(4_784_128)),
    Bytes(65_536, 16_777_216, Some(1_099_516_346_368)),
    Bytes(65_537, 1, Some(4_784_177)),
    Bytes(u32::MAX, 1, Some(210_454_970_319)),
    Bytes(u32::MAX, u32::MAX, None),
];

#[test]
fn worked_charges(rt: HostRuntime) -> Result<(), Fail> {
    let users = Users::read(rt.alloc(), FILE.as_bytes())?;
    let mut charges = Charges::new(rt.alloc(), &users)?;
    for (row, step) in STEPS.iter().enumerate() {
        if !gives(&mut charges, step) {
            return Err(Fail::new(format_args!("row {row} gives something else")));
        }
    }
    Ok(())
}
