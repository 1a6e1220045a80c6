//! Answers and their lines.

use ipc_terms::{
    Answer, Attributes, Bytes, Desc, EVERY_RULE, Facts, Gid, Line, Lines, Mode, NoMemory, Rule,
    Sid, Uid,
};
use ipc_words::{WordFault, line_of_answer, put_fault, put_line};
use std::alloc::Global;
use std::test::Fail;
use test_made::{name, names};

/// An answer, without memory of its own.
enum Said {
    Started(u64),
    Done,
    Opened(u64),
    Mask(u16),
    Sent,
    Received(u32, &'static [u8]),
    Attrs(bool, u32, u32, u32),
    Value(u32),
    Listed(&'static [&'static [u8]]),
    Facts(u32, u32, u16),
    /// Place, session, event, rule and name of each line.
    Recorded(&'static [(u64, u64, u8, u16, &'static [u8])]),
    Notice(u64),
    Taken(u64),
    Refused(Rule),
    Interrupted,
}

fn answer_of(alloc: Global, said: &Said) -> Result<Answer, NoMemory> {
    Ok(match said {
        Said::Started(number) => Answer::Started(Sid(*number)),
        Said::Done => Answer::Done,
        Said::Opened(number) => Answer::Opened(Desc(*number)),
        Said::Mask(bits) => Answer::Mask(Mode(*bits)),
        Said::Sent => Answer::Sent,
        Said::Received(priority, message) => Answer::Received {
            priority: *priority,
            bytes: Bytes::from_slice(alloc, message)?,
        },
        Said::Attrs(nonblock, maxmsg, msgsize, messages) => Answer::Attrs {
            nonblock: *nonblock,
            attributes: Attributes {
                maxmsg: *maxmsg,
                msgsize: *msgsize,
            },
            messages: *messages,
        },
        Said::Value(value) => Answer::Value(*value),
        Said::Listed(texts) => Answer::Names(names(alloc, texts)?),
        Said::Facts(owner, group, mode) => Answer::Stat(Facts {
            owner: Uid(*owner),
            group: Gid(*group),
            mode: Mode(*mode),
        }),
        Said::Recorded(shown) => Answer::Records(lines(alloc, shown)?),
        Said::Notice(number) => Answer::Notice(Desc(*number)),
        Said::Taken(number) => Answer::Taken(Desc(*number)),
        Said::Refused(rule) => Answer::Refused(*rule),
        Said::Interrupted => Answer::Interrupted,
    })
}

fn lines(alloc: Global, shown: &[(u64, u64, u8, u16, &[u8])]) -> Result<Lines, NoMemory> {
    let mut listed = Vec::new(alloc);
    for (place, session, op, rule, text) in shown {
        listed.push(Line {
            place: *place,
            sid: Sid(*session),
            op: *op,
            rule: *rule,
            name: name(alloc, text)?,
        })?;
    }
    Ok(Lines::new(listed))
}

static LINES: [(Said, &str); 58] = [
    (Said::Value(0), "value 0"),
    (Said::Value(u32::MAX), "value 4294967295"),
    (Said::Started(3), "started 3"),
    (Said::Started(u64::MAX), "started 18446744073709551615"),
    (Said::Done, "done"),
    (Said::Opened(0), "opened 0"),
    (Said::Sent, "sent"),
    (Said::Interrupted, "interrupted EINTR"),
    (Said::Mask(0), "mask 000"),
    (Said::Mask(0o22), "mask 022"),
    (Said::Mask(0o777), "mask 777"),
    (Said::Mask(0o1777), "mask 1777"),
    (
        Said::Refused(Rule::ModeDenied),
        "refused 15 EACCES ModeDenied",
    ),
    (Said::Refused(Rule::NoSession), "refused 1 ESRCH NoSession"),
    (Said::Refused(Rule::BadKey), "refused 31 EACCES BadKey"),
    (
        Said::Refused(Rule::TimedOut),
        "refused 32 ETIMEDOUT TimedOut",
    ),
    (Said::Refused(Rule::NoTaker), "refused 33 ESRCH NoTaker"),
    (Said::Received(0, b"hi"), "received 0 hi"),
    (Said::Received(5, b"!~"), "received 5 !~"),
    (Said::Received(32_767, b"-"), "received 32767 -"),
    (Said::Received(u32::MAX, b"hex"), "received 4294967295 hex"),
    // Without bytes, with one below `!` or above `~`, and with `hex:` in front.
    (Said::Received(1, b""), "received 1 hex:"),
    (Said::Received(1, b"a b"), "received 1 hex:612062"),
    (Said::Received(1, b"a\x7f"), "received 1 hex:617f"),
    (Said::Received(1, b"a\0"), "received 1 hex:6100"),
    (Said::Received(1, b"hex:"), "received 1 hex:6865783a"),
    (Said::Received(1, b"hex:2f"), "received 1 hex:6865783a3266"),
    (Said::Received(1, b"\xc3\xa9"), "received 1 hex:c3a9"),
    (Said::Received(1, b"\xab\xcd\xef"), "received 1 hex:abcdef"),
    (Said::Received(1, b"/jobs"), "received 1 /jobs"),
    (Said::Received(1, b"-a"), "received 1 -a"),
    (Said::Received(1, b"hexa:"), "received 1 hexa:"),
    (Said::Received(1, b"/hex:"), "received 1 /hex:"),
    (Said::Attrs(false, 10, 8192, 0), "attrs 0 10 8192 0"),
    (Said::Attrs(true, 1, 8, 1), "attrs 1 1 8 1"),
    (
        Said::Attrs(true, 65_536, 16_777_216, 7),
        "attrs 1 65536 16777216 7",
    ),
    (
        Said::Attrs(false, u32::MAX, 0, u32::MAX),
        "attrs 0 4294967295 0 4294967295",
    ),
    (Said::Listed(&[]), "names 0"),
    (Said::Listed(&[b"/a"]), "names 1 /a"),
    (Said::Listed(&[b"/b", b"/a"]), "names 2 /b /a"),
    (
        Said::Listed(&[b"/ ", b"/a", b"", b"/\xff"]),
        "names 4 hex:2f20 /a hex: hex:2fff",
    ),
    (Said::Facts(1000, 1000, 0o600), "stat 1000 1000 0600"),
    (Said::Facts(0, 0, 0o1777), "stat 0 0 1777"),
    (Said::Facts(1, u32::MAX, 0), "stat 1 4294967295 0000"),
    (Said::Facts(7, 8, 0o22), "stat 7 8 0022"),
    (Said::Facts(7, 8, 0o10777), "stat 7 8 10777"),
    (Said::Opened(u64::MAX), "opened 18446744073709551615"),
    (
        Said::Refused(Rule::Overflow),
        "refused 30 EOVERFLOW Overflow",
    ),
    (Said::Refused(Rule::Sticky), "refused 17 EACCES Sticky"),
    (Said::Notice(2), "notice 2"),
    (Said::Taken(2), "taken 2"),
    (Said::Taken(u64::MAX), "taken 18446744073709551615"),
    (Said::Recorded(&[]), "records 0"),
    (
        Said::Recorded(&[(3, u64::MAX, 1, 0, b""), (4, 1, 3, 13, b"/x")]),
        "records 2 3:-:hello:0:hex: 4:1:mq-open:13:/x",
    ),
    // Numbers of no event stay numbers.
    (
        Said::Recorded(&[
            (u64::MAX, 0, 0, u16::MAX, b"hex:"),
            (0, u64::MAX - 1, 31, 0, b"/ "),
            (1, 0, 255, 0, b""),
        ]),
        "records 3 18446744073709551615:0:0:65535:hex:6865783a 0:18446744073709551614:31:0:hex:2f20 1:0:255:0:hex:",
    ),
    (
        Said::Recorded(&[
            (0, 7, 26, 32, b""),
            (1, 7, 27, 0, b""),
            (2, 7, 28, 0, b""),
            (3, u64::MAX, 29, 0, b""),
            (4, 7, 30, 33, b""),
        ]),
        "records 5 0:7:mq-timedsend:32:hex: 1:7:mq-timedreceive:0:hex: 2:7:sem-timedwait:0:hex: 3:-:tick:0:hex: 4:7:mq-give:33:hex:",
    ),
    (
        Said::Recorded(&[
            (0, 7, 2, 0, b"a"),
            (1, 7, 4, 0, b"a"),
            (2, 7, 5, 0, b"a"),
            (3, 7, 6, 0, b"a"),
            (4, 7, 7, 0, b"a"),
            (5, 7, 8, 0, b"a"),
            (6, 7, 9, 0, b"a"),
            (7, 7, 10, 0, b"a"),
        ]),
        "records 8 0:7:umask:0:a 1:7:mq-close:0:a 2:7:mq-unlink:0:a 3:7:mq-send:0:a 4:7:mq-receive:0:a 5:7:mq-getattr:0:a 6:7:mq-setattr:0:a 7:7:mq-notify:0:a",
    ),
    (
        Said::Recorded(&[
            (0, 7, 11, 0, b"a"),
            (1, 7, 12, 0, b"a"),
            (2, 7, 13, 0, b"a"),
            (3, 7, 14, 0, b"a"),
            (4, 7, 15, 0, b"a"),
            (5, 7, 16, 0, b"a"),
            (6, 7, 17, 0, b"a"),
            (7, 7, 18, 0, b"a"),
            (8, 7, 19, 0, b"a"),
            (9, 7, 20, 0, b"a"),
            (10, 7, 21, 0, b"a"),
            (11, 7, 22, 0, b"a"),
            (12, 7, 23, 0, b"a"),
            (13, 7, 24, 0, b"a"),
            (14, 7, 25, 0, b"a"),
        ]),
        "records 15 0:7:sem-open:0:a 1:7:sem-close:0:a 2:7:sem-unlink:0:a 3:7:sem-post:0:a 4:7:sem-wait:0:a 5:7:sem-trywait:0:a 6:7:sem-getvalue:0:a 7:7:ls:0:a 8:7:stat:0:a 9:7:chmod:0:a 10:7:chown:0:a 11:7:set-limit:0:a 12:7:interrupt:0:a 13:7:audit:0:a 14:7:hangup:0:a",
    ),
];

fn has_line(alloc: Global, (said, line): &(Said, &str)) -> Result<bool, Fail> {
    let answer = answer_of(alloc, said)?;
    Ok(line_of_answer(alloc, &answer)?.as_str() == *line)
}

#[test]
fn answers_have_lines(rt: HostRuntime) -> Result<(), Fail> {
    for (row, shown) in LINES.iter().enumerate() {
        if !has_line(rt.alloc(), shown)? {
            return Err(Fail::new(format_args!("row {row} has another line")));
        }
    }
    Ok(())
}

#[test]
fn lines_are_added_to_a_text(rt: HostRuntime) -> Result<(), Fail> {
    let mut text = String::from_str(rt.alloc(), "a ")?;
    put_line(&mut text, &Answer::Value(7))?;
    assert!(rt; text.as_str() == "a value 7");
    put_fault(&mut text, &WordFault::BadValue("mode"))?;
    assert!(rt; text.as_str() == "a value 7fault value mode");
    put_fault(&mut text, &WordFault::Usage)?;
    assert!(rt; text.as_str() == "a value 7fault value modefault usage");
    Ok(())
}

/// The names of the rules, in the order of their numbers.
static NAMES: [&str; 33] = [
    "NoSession",
    "InCall",
    "NotInCall",
    "NameForm",
    "NameLong",
    "NotAdmin",
    "NoUser",
    "BadDescr",
    "NotForWrite",
    "NotForRead",
    "DirSearch",
    "DirRead",
    "Absent",
    "Present",
    "ModeDenied",
    "DirWrite",
    "Sticky",
    "NotOwner",
    "ChownDenied",
    "AttrRange",
    "ValueRange",
    "QueueCount",
    "ByteLimit",
    "DescrLimit",
    "PrioRange",
    "MessageLong",
    "BufferShort",
    "NotifyTaken",
    "WouldBlock",
    "Overflow",
    "BadKey",
    "TimedOut",
    "NoTaker",
];

/// Whether the line of a refusal by the rule ends with the name.
fn is_named(alloc: Global, rule: Rule, name: &str) -> Result<bool, Fail> {
    let line = line_of_answer(alloc, &Answer::Refused(rule))?;
    let ending = format!(in alloc; " {name}")?;
    Ok(line.as_str().ends_with(ending.as_str()))
}

#[test]
fn rules_are_printed_by_their_names(rt: HostRuntime) -> Result<(), Fail> {
    for (index, name) in NAMES.iter().enumerate() {
        let Some(rule) = EVERY_RULE.get(index) else {
            return Err(Fail::new("fewer rules"));
        };
        if !is_named(rt.alloc(), *rule, name)? {
            return Err(Fail::new(format_args!("{name} is printed otherwise")));
        }
    }
    Ok(())
}
