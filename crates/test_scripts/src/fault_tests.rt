//! The texts of faults, and the statuses that they end a program by.

use crate::shown::shows;
use ipc_access::UserFault;
use ipc_core::{CoreFault, Field};
use ipc_script::ScriptFault;
use ipc_terms::NoMemory;
use ipc_wire::{ReadFault, WireFault, WriteFault};
use ipc_words::WordFault;
use std::test::Fail;

static FAULTS: [(ScriptFault, &str, u8); 8] = [
    (
        ScriptFault::Users(UserFault::BadLine(2)),
        "users BadLine 2",
        3,
    ),
    (ScriptFault::Users(UserFault::TooMany), "users TooMany", 3),
    (ScriptFault::Config(Field::MsgMax), "config MsgMax", 3),
    (ScriptFault::Config(Field::QueuesMax), "config QueuesMax", 3),
    (ScriptFault::Read, "read", 4),
    (ScriptFault::Write, "write", 4),
    (ScriptFault::Memory, "memory", 5),
    (ScriptFault::Line(7), "line 7", 6),
];

#[test]
fn faults_have_words_and_statuses(rt: HostRuntime) -> Result<(), Fail> {
    for (fault, words, status) in &FAULTS {
        shows(rt.alloc(), fault, words)?;
        if fault.status() != *status {
            return Err(Fail::new(format_args!("{words} has another status")));
        }
    }
    Ok(())
}

static CORE_FAULTS: [(CoreFault, &str); 4] = [
    (CoreFault::BadConfig(Field::MsgMax), "config MsgMax"),
    (CoreFault::BadConfig(Field::MsgsizeMax), "config MsgsizeMax"),
    (CoreFault::BadConfig(Field::QueuesMax), "config QueuesMax"),
    (CoreFault::NoMemory, "memory"),
];

#[test]
fn core_faults_have_words(rt: HostRuntime) -> Result<(), Fail> {
    for (fault, words) in &CORE_FAULTS {
        shows(rt.alloc(), fault, words)?;
    }
    Ok(())
}

#[test]
fn other_faults_have_words(rt: HostRuntime) -> Result<(), Fail> {
    shows(rt.alloc(), &WordFault::Usage, "usage")?;
    shows(rt.alloc(), &WordFault::BadValue("access"), "value access")?;
    shows(rt.alloc(), &WordFault::NoMemory, "memory")?;
    shows(rt.alloc(), &UserFault::NoMemory, "memory")?;
    shows(rt.alloc(), &WireFault::TooLong, "frame too long")?;
    shows(rt.alloc(), &WireFault::BadOpcode, "opcode not allowed here")?;
    shows(rt.alloc(), &WriteFault::TooLong, "message too long")?;
    shows(
        rt.alloc(),
        &ReadFault::Wire(WireFault::BadField),
        "bad field",
    )?;
    shows(rt.alloc(), &NoMemory, "memory")
}
