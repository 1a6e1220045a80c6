//! Sessions over connections of bytes: what is sent, what is printed, and how they end.

use crate::made::{HELLO, Row, goes, goes_cut, run_session};
use ipc_client::{ClientFault, LONGEST_KEY, client_session};
use std::io::Read;
use std::test::Fail;

static SESSIONS: [Row<'static>; 21] = [
    // A command that is refused.
    (
        "mq-close 0\n",
        b"\0\0\0\x09\x41\0\0\0\0\0\0\0\0\0\0\0\x03\x4c\0\x08",
        b"\0\0\0\x09\x04\0\0\0\0\0\0\0\0",
        "refused 8 EBADF BadDescr\n",
        Ok(false),
    ),
    // No command.
    ("", b"\0\0\0\x09\x41\0\0\0\0\0\0\0\0", b"", "", Ok(true)),
    // Two commands that are accepted.
    (
        "umask 000\numask 022\n",
        b"\0\0\0\x09\x41\0\0\0\0\0\0\0\0\0\0\0\x03\x44\0\x12\0\0\0\x03\x44\0\0",
        b"\0\0\0\x03\x02\0\0\0\0\0\x03\x02\0\x12",
        "mask 022\nmask 000\n",
        Ok(true),
    ),
    // A notice before the answer.
    (
        "interrupt\n",
        b"\0\0\0\x09\x41\0\0\0\0\0\0\0\0\0\0\0\x09\x4e\0\0\0\0\0\0\0\x05\0\0\0\x01\x42",
        b"\0\0\0\x01\x17",
        "notice 5\ndone\n",
        Ok(true),
    ),
    // A line at fault between two commands, which is not sent.
    (
        "umask 000\numask 9\numask 000",
        b"\0\0\0\x09\x41\0\0\0\0\0\0\0\0\0\0\0\x03\x44\0\x12\0\0\0\x03\x44\0\0",
        b"\0\0\0\x03\x02\0\0\0\0\0\x03\x02\0\0",
        "mask 022\nfault value octal\nmask 000\n",
        Ok(false),
    ),
    // A refused hello.
    (
        "umask 000\n",
        b"\0\0\0\x03\x4c\0\x1f",
        b"",
        "refused 31 EACCES BadKey\n",
        Ok(false),
    ),
    // A connection that ends before the hello's answer, and one in a call's.
    ("umask 000\n", b"", b"", "", Err(ClientFault::Net)),
    (
        "umask 000\numask 000\n",
        b"\0\0\0\x09\x41\0\0\0\0\0\0\0\0\0\0\0\x03\x44\0\x12\0\0\0\x03\x44",
        b"\0\0\0\x03\x02\0\0\0\0\0\x03\x02\0\0",
        "mask 022\n",
        Err(ClientFault::Net),
    ),
    // What is no answer.
    (
        "umask 000\n",
        b"\0\0\0\x09\x41\0\0\0\0\0\0\0\0\0\0\0\x01\x02",
        b"\0\0\0\x03\x02\0\0",
        "",
        Err(ClientFault::Net),
    ),
    ("", b"\0\0\0\0", b"", "", Err(ClientFault::Net)),
    // A request's opcode is no answer's.
    (
        "mq-close 0\n",
        b"\0\0\0\x09\x41\0\0\0\0\0\0\0\0\0\0\0\x01\x17",
        b"\0\0\0\x09\x04\0\0\0\0\0\0\0\0",
        "",
        Err(ClientFault::Net),
    ),
    // A line that is not UTF-8 is tested below; this one is empty, and at fault.
    (
        "\numask 000\n",
        b"\0\0\0\x09\x41\0\0\0\0\0\0\0\0\0\0\0\x03\x44\0\x12",
        b"\0\0\0\x03\x02\0\0",
        "fault usage\nmask 022\n",
        Ok(false),
    ),
    // A refused command before one that is accepted, and whose line has no end.
    (
        "interrupt\numask 027",
        b"\0\0\0\x09\x41\0\0\0\0\0\0\0\0\0\0\0\x03\x4c\0\x03\0\0\0\x03\x44\0\x12",
        b"\0\0\0\x01\x17\0\0\0\x03\x02\0\x17",
        "refused 3 EINVAL NotInCall\nmask 022\n",
        Ok(false),
    ),
    // A notice before the hello's answer, and two before a command's.
    (
        "sem-wait 0\n",
        b"\0\0\0\x09\x4e\0\0\0\0\0\0\0\x01\0\0\0\x09\x41\0\0\0\0\0\0\0\0\0\0\0\x09\x4e\0\0\0\0\0\0\0\x02\0\0\0\x09\x4e\0\0\0\0\0\0\0\x03\0\0\0\x01\x4d",
        b"\0\0\0\x09\x0f\0\0\0\0\0\0\0\0",
        "notice 1\nnotice 2\nnotice 3\ninterrupted EINTR\n",
        Ok(true),
    ),
    // Descriptions that came before the hello's answer and before commands' answers, and a notice among them.
    (
        "mq-give 1 0\nmq-close 5\n",
        b"\0\0\0\x09\x4f\0\0\0\0\0\0\0\x04\0\0\0\x09\x41\0\0\0\0\0\0\0\0\0\0\0\x09\x4f\0\0\0\0\0\0\0\x05\0\0\0\x09\x4e\0\0\0\0\0\0\0\x05\0\0\0\x03\x4c\0\x21\0\0\0\x09\x4f\0\0\0\0\0\0\0\x06\0\0\0\x01\x42",
        b"\0\0\0\x11\x1e\0\0\0\0\0\0\0\x01\0\0\0\0\0\0\0\0\0\0\0\x09\x04\0\0\0\0\0\0\0\x05",
        "taken 4\ntaken 5\nnotice 5\nrefused 33 ESRCH NoTaker\ntaken 6\ndone\n",
        Ok(false),
    ),
    // A description that came, and no answer behind it.
    (
        "interrupt\n",
        b"\0\0\0\x09\x41\0\0\0\0\0\0\0\0\0\0\0\x09\x4f\0\0\0\0\0\0\0\x05",
        b"\0\0\0\x01\x17",
        "taken 5\n",
        Err(ClientFault::Net),
    ),
    // Timed calls: one that is answered late, one that is timed out, and one that is done.
    (
        "mq-timedreceive 1 8 9\nmq-timedsend 1 2 9 hi\nsem-timedwait 2 9\n",
        b"\0\0\0\x09\x41\0\0\0\0\0\0\0\0\0\0\0\x07\x47\0\0\0\x02hi\0\0\0\x03\x4c\0\x20\0\0\0\x01\x42",
        b"\0\0\0\x15\x1b\0\0\0\0\0\0\0\x01\0\0\0\x08\0\0\0\0\0\0\0\x09\0\0\0\x17\x1a\0\0\0\0\0\0\0\x01\0\0\0\x02\0\0\0\0\0\0\0\x09hi\0\0\0\x11\x1c\0\0\0\0\0\0\0\x02\0\0\0\0\0\0\0\x09",
        "received 2 hi\nrefused 32 ETIMEDOUT TimedOut\ndone\n",
        Ok(false),
    ),
    // A tick is no command, and is not sent.
    (
        "tick 5\ninterrupt\n",
        b"\0\0\0\x09\x41\0\0\0\0\0\0\0\0\0\0\0\x01\x42",
        b"\0\0\0\x01\x17",
        "fault usage\ndone\n",
        Ok(false),
    ),
    // Faults of words between two commands, and blanks round words.
    (
        " \tsem-post   1\t\numask 9\n\n# a comment\nsem-getvalue 1\n",
        b"\0\0\0\x09\x41\0\0\0\0\0\0\0\0\0\0\0\x01\x42\0\0\0\x05\x48\0\0\0\x07",
        b"\0\0\0\x09\x0e\0\0\0\0\0\0\0\x01\0\0\0\x09\x11\0\0\0\0\0\0\0\x01",
        "done\nfault value octal\nfault usage\nfault usage\nvalue 7\n",
        Ok(false),
    ),
    // A last line that has no end and is no command.
    (
        "sem-post 0\nnone",
        b"\0\0\0\x09\x41\0\0\0\0\0\0\0\0\0\0\0\x01\x42",
        b"\0\0\0\x09\x0e\0\0\0\0\0\0\0\0",
        "done\nfault usage\n",
        Ok(false),
    ),
    // A connection that ends in the hello's answer.
    (
        "mq-close 0\n",
        b"\0\0\0\x09\x41\0\0\0",
        b"",
        "",
        Err(ClientFault::Net),
    ),
];

#[test]
fn sessions_go_so(rt: HostRuntime) -> Result<(), Fail> {
    for (number, row) in SESSIONS.iter().enumerate() {
        if !goes(rt.alloc(), row, row.1) {
            return Err(Fail::new(format_args!("session {number} goes otherwise")));
        }
    }
    Ok(())
}

#[test]
fn answers_come_cut_at_any_byte(rt: HostRuntime) -> Result<(), Fail> {
    for (number, row) in SESSIONS.iter().enumerate() {
        if !goes_cut(rt.alloc(), row) {
            return Err(Fail::new(format_args!("session {number} goes otherwise")));
        }
    }
    Ok(())
}

/// A server's answer to the hello, and then to a command.
const MASK: &[u8] = b"\0\0\0\x09\x41\0\0\0\0\0\0\0\0\0\0\0\x03\x44\0\x12";

/// A line that isn't UTF-8 ends the session; what came before it is printed.
#[test]
fn bad_lines_end_it(rt: HostRuntime) {
    let ended = run_session(rt.alloc(), MASK, b"umask 000\n\xff\n".as_slice());
    assert!(rt; ended.outcome == Err(ClientFault::Line(2)));
    assert!(rt; ended.printed.as_slice() == b"mask 022\n".as_slice());
    assert!(rt;
        ended.sent.as_slice().strip_prefix(HELLO) == Some(b"\0\0\0\x03\x02\0\0".as_slice())
    );
}

/// The longest line is a command, and one byte more ends the session before anything of it is sent.
#[test]
fn longer_lines_end_it(rt: HostRuntime) -> Result<(), Fail> {
    let bytes = Vec::from_elem(rt.alloc(), b'#', 1_048_577)?;
    let longest = run_session(rt.alloc(), MASK, &bytes[1..]);
    assert!(rt; longest.outcome == Ok(false));
    assert!(rt; longest.printed.as_slice() == b"fault usage\n".as_slice());
    let longer = run_session(rt.alloc(), MASK, b"umask 000\n".chain(bytes.as_slice()));
    assert!(rt; longer.outcome == Err(ClientFault::Line(2)));
    assert!(rt; longer.printed.as_slice() == b"mask 022\n".as_slice());
    Ok(())
}

/// A name that has no frame is a fault of its command, and nothing of it is sent.
#[test]
fn long_names_are_not_sent(rt: HostRuntime) -> Result<(), Fail> {
    let name = String::from_utf8_lossy(rt.alloc(), &Vec::from_elem(rt.alloc(), b'a', 65_536)?)?;
    let commands = format!(in rt.alloc(); "mq-unlink {name}\n")?;
    let ended = run_session(rt.alloc(), MASK, commands.as_str().as_bytes());
    assert!(rt; ended.outcome == Ok(false) && ended.sent.as_slice() == HELLO);
    assert!(rt; ended.printed.as_slice() == b"fault value name\n".as_slice());
    Ok(())
}

/// The longest key has a frame.
#[test]
fn longest_key_is_sent(rt: HostRuntime) -> Result<(), Fail> {
    let key = Vec::from_elem(rt.alloc(), b'k', LONGEST_KEY)?;
    let (mut sent, mut printed) = (Vec::new(rt.alloc()), Vec::new(rt.alloc()));
    assert!(rt; key.len() <= LONGEST_KEY);
    let none = b"".as_slice();
    let outcome = client_session(rt.alloc(), &key, MASK, &mut sent, none, &mut printed);
    assert!(rt; outcome == Ok(true) && sent.len() == 65_542 && printed.is_empty());
    assert!(rt; sent.starts_with(b"\0\x01\0\x02\x01\xff\xffk"));
    Ok(())
}
