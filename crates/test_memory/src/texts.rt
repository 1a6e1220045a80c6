//! What is read from texts, and written as texts.

use crate::fault::Fault;
use crate::programs::{encodes, runs, speaks};
use crate::readings::{is_at_fault, is_copied, is_framed, is_line, reads};
use crate::subject::{Fresh, Subject};
use ipc_access::UserFault;
use ipc_words::usage_of_commands;
use std::alloc::Global;

/// Nothing: all texts are in the steps.
#[derive(Drop)]
pub struct Texts;

pub enum Step {
    /// A command, of whose call an event is copied.
    Copy(&'static str),
    /// A user file, and how many users it has or its first fault.
    Users(&'static [u8], Result<usize, UserFault>),
    /// A command, and the frame of its request.
    Command(&'static str, &'static [u8]),
    /// A command at fault, and its line.
    AtFault(&'static str, &'static str),
    /// The frame of an answer, and its line.
    Line(&'static [u8], &'static str),
    /// How many lines the usage of the commands has.
    Usage(usize),
    /// A script, and what it writes.
    Script(&'static str, &'static str),
    /// Commands, and what their encoding writes.
    Encode(&'static str, &'static str),
    /// Commands, the frames that come, those that are sent, and what is written.
    Session(&'static str, &'static [u8], &'static [u8], &'static str),
}

use Step::{AtFault, Command, Copy, Encode, Line, Script, Session, Usage, Users};

pub static CASES: [(&str, &[Step]); 8] = [
    (
        "Event::copy",
        &[
            Copy("mq-send 0 5 hi"),
            Copy("mq-open /jobs rw --create --maxmsg 3 --msgsize 8"),
            Copy("stat sem /lock"),
            Copy("interrupt"),
        ],
    ),
    (
        "Users::read",
        &[
            Users(b"", Ok(0)),
            Users(
                b"root:r00t:0:0::\nann:ka1:1000:1000:50,51,52:9\nbob:kb1:1001:1001:50:\n",
                Ok(3),
            ),
            Users(b"ann:ka1:01:1::\n", Err(UserFault::BadLine(1))),
            Users(
                b"ann:ka1:1:1::\nann:kb1:2:2::\n",
                Err(UserFault::DuplicateName(2)),
            ),
            Users(
                b"ann:ka1:1:1::\nbob:ka1:2:2::\n",
                Err(UserFault::DuplicateKey(2)),
            ),
            Users(
                b"ann:ka1:1:1::\nbob:kb1:1:2::\n",
                Err(UserFault::DuplicateUid(2)),
            ),
        ],
    ),
    (
        "call_of_words",
        &[
            Command("umask 022", b"\0\0\0\x03\x02\0\x12"),
            Command(
                "mq-open hex:2f61 rw --create --maxmsg 3 --msgsize 8",
                b"\0\0\0\x12\x03\0\x02/a\x03\x01\x01\x80\x01\0\0\0\x03\0\0\0\x08",
            ),
            // An option before the values: `clap` reads it.
            Command(
                "mq-open --create hex:2f61 rw --maxmsg 3 --msgsize 8",
                b"\0\0\0\x12\x03\0\x02/a\x03\x01\x01\x80\x01\0\0\0\x03\0\0\0\x08",
            ),
            Command(
                "mq-send 0 5 hi",
                b"\0\0\0\x0f\x06\0\0\0\0\0\0\0\0\0\0\0\x05hi",
            ),
            Command(
                "chown keep 50 sem /a",
                b"\0\0\0\x0d\x15\0\x01\0\0\0\x32\x02\x01\0\x02/a",
            ),
            AtFault("umask 9", "fault value octal"),
            AtFault("mq-open /a", "fault usage"),
            AtFault("mq-unlink /a /b", "fault usage"),
        ],
    ),
    (
        "line_of_answer",
        &[
            Line(
                b"\0\0\0\x0e\x45\x01\0\0\0\x0a\0\0\x20\0\0\0\0\x03",
                "attrs 1 10 8192 3",
            ),
            Line(b"\0\0\0\x07\x47\0\0\0\x05h ", "received 5 hex:6820"),
            Line(
                b"\0\0\0\x0d\x49\0\x03\0\x02/a\0\0\0\x02/b",
                "names 3 /a hex: /b",
            ),
            Line(
                b"\0\0\0\x0b\x4a\0\0\x03\xe8\0\0\0\x32\x01\xb6",
                "stat 1000 50 0666",
            ),
            Line(
                b"\0\0\0\x1a\x4b\0\x01\0\0\0\0\0\0\0\x03\xff\xff\xff\xff\xff\xff\xff\xff\x01\0\0\0\x02/x",
                "records 1 3:-:hello:0:/x",
            ),
            Line(b"\0\0\0\x03\x4c\0\x1f", "refused 31 EACCES BadKey"),
        ],
    ),
    ("usage_of_commands", &[Usage(27)]),
    (
        "run_script",
        &[Script(
            "ann:ka1:1000:1000:50:\nbob:kb1:1001:1001::\n.\n# A queue.\na hello ka1\na mq-open /q rw --create --mode 0666\nb hello kb1\nb mq-open /q rw\na mq-send 0 5 hi\nb mq-receive 1 8192\nb ls mq 0 9\nc umask 9\nb mq-receive 1 8192\nb hangup\n?\n",
            "a started 0\na opened 0\nb started 1\nb refused 15 EACCES ModeDenied\na sent\nb refused 8 EBADF BadDescr\nb names 1 /q\nc fault value octal\nb refused 8 EBADF BadDescr\n- fault line\n",
        )],
    ),
    (
        "encode_lines",
        &[Encode(
            "mq-open /a rw --create --mode 0666\nmq-send 0 5 hi\nmq-receive 0 8192\numask 9\n",
            "0000000a0300022f61030101b600\n0000000f060000000000000000000000056869\n0000000d07000000000000000000002000\nfault value octal\n",
        )],
    ),
    (
        "client_session",
        &[Session(
            "umask 000\numask 9\ninterrupt\nls mq 0 9\n",
            b"\0\0\0\x09\x41\0\0\0\0\0\0\0\0\0\0\0\x03\x44\0\x12\0\0\0\x09\x4e\0\0\0\0\0\0\0\x05\0\0\0\x01\x42\0\0\0\x07\x49\0\x01\0\x02/a",
            b"\0\0\0\x06\x01\0\x03ka1\0\0\0\x03\x02\0\0\0\0\0\x01\x17\0\0\0\x08\x12\x01\0\0\0\0\0\x09",
            "mask 022\nfault value octal\nnotice 5\ndone\nnames 1 /a\n",
        )],
    ),
];

impl Subject for Texts {
    type Step = Step;

    type Seen = ();

    fn gives(&mut self, alloc: Global, step: &Step) -> Result<bool, Fault> {
        match *step {
            Copy(command) => is_copied(alloc, command),
            Users(file, wanted) => reads(alloc, file, wanted),
            Command(command, wanted) => is_framed(alloc, command, wanted),
            AtFault(command, wanted) => is_at_fault(alloc, command, wanted),
            Line(answer, wanted) => is_line(alloc, answer, wanted),
            Usage(wanted) => Ok(usage_of_commands(alloc)?.as_str().lines().count() == wanted),
            Script(script, wanted) => runs(alloc, script, wanted.as_bytes()),
            Encode(commands, wanted) => encodes(alloc, commands, wanted.as_bytes()),
            Session(commands, came, sent, wanted) => {
                speaks(alloc, commands, came, sent, wanted.as_bytes())
            }
        }
    }

    fn seen(&self, _alloc: Global, _step: &Step) -> Result<(), Fault> {
        Ok(())
    }
}

impl Fresh for Texts {
    fn fresh(_alloc: Global) -> Result<Texts, Fault> {
        Ok(Texts)
    }
}
