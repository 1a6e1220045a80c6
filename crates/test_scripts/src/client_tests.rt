//! A command as a request frame, and the client's faults.

use crate::shown::shows;
use ipc_client::{ClientFault, ProgramFault, encode_lines, frame_of_words};
use std::test::Fail;

/// The frame of `interrupt`, and its line.
const FRAME: &[u8] = b"\0\0\0\x01\x17";

const LINE: &[u8] = b"0000000117\n";

#[test]
fn a_command_has_its_frame(rt: HostRuntime) -> Result<(), Fail> {
    let Ok(frame) = frame_of_words(rt.alloc(), &["interrupt"]) else {
        return Err(Fail::new("no frame"));
    };
    assert!(rt; frame.as_slice() == FRAME);
    let mut output = Vec::new(rt.alloc());
    let outcome = encode_lines(rt.alloc(), b"interrupt\n".as_slice(), &mut output);
    assert!(rt; outcome == Ok(true) && output.as_slice() == LINE);
    Ok(())
}

static FAULTS: [(ProgramFault, &str, u8); 6] = [
    (ProgramFault::Arguments, "arguments", 2),
    (ProgramFault::Client(ClientFault::Read), "read", 4),
    (ProgramFault::Client(ClientFault::Write), "write", 4),
    (ProgramFault::Client(ClientFault::Net), "net", 4),
    (ProgramFault::Client(ClientFault::Memory), "memory", 5),
    (ProgramFault::Client(ClientFault::Line(7)), "line 7", 6),
];

#[test]
fn client_s_faults_have_words_and_statuses(rt: HostRuntime) -> Result<(), Fail> {
    for (fault, words, status) in &FAULTS {
        shows(rt.alloc(), fault, words)?;
        if fault.status() != *status {
            return Err(Fail::new(format_args!("{words} has another status")));
        }
    }
    Ok(())
}
