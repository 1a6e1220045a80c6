//! Bytes, names, flags, rules, and the numbers of calls and answers.

use bitflags::Flags;
use ipc_terms::{
    Answer, AnswerOp, Bytes, Call, CallOp, Desc, Event, Names, NoMemory, OpenFlags, Rule,
};
use std::alloc::Global;
use std::test::Fail;
use test_made::{joined, name, names};

/// Whether a copy of the bytes is equal to them, and they come back as they went in.
fn keeps_bytes(alloc: Global, text: &str) -> Result<bool, NoMemory> {
    let bytes = Bytes::from_vec(Vec::from_slice(alloc, text.as_bytes())?)?;
    let copy = bytes.clone()?;
    Ok(bytes == copy && bytes.as_slice() == copy.as_slice())
}

/// Whether a copy of the name is equal to it, and its bytes come back as they went in.
fn keeps_name(alloc: Global, text: &str) -> Result<bool, NoMemory> {
    let made = name(alloc, text.as_bytes())?;
    let copy = made.clone()?;
    Ok(made.is(&copy) && made.as_slice() == copy.into_bytes().as_slice())
}

/// Whether both are the same, on which names and their bytes are to agree.
fn same(alloc: Global, one: &str, other: &str) -> Result<Option<bool>, NoMemory> {
    let one = name(alloc, one.as_bytes())?;
    let other = name(alloc, other.as_bytes())?;
    let alike = one.is(&other);
    Ok(
        ((one == other) == alike && (one.into_bytes() == other.into_bytes()) == alike).then_some(
            alike,
        ),
    )
}

/// Two texts, and whether they are the same.
static TEXTS: [(&str, &str, bool); 5] = [
    ("/a", "/a", true),
    ("/a", "/b", false),
    ("/a", "/ab", false),
    ("\0\u{80}", "\0", false),
    ("", "", true),
];

#[test]
fn bytes_and_names_are_kept_and_compared(rt: HostRuntime) -> Result<(), Fail> {
    for (one, other, alike) in &TEXTS {
        let kept = keeps_bytes(rt.alloc(), one)? && keeps_name(rt.alloc(), one)?;
        if !kept || same(rt.alloc(), one, other)? != Some(*alike) {
            return Err(Fail::new(format_args!("at {one:?} and {other:?}")));
        }
    }
    Ok(())
}

/// Whether the lists of these names are equal.
fn are_equal(alloc: Global, one: &[&[u8]], other: &[&[u8]]) -> Result<bool, NoMemory> {
    let one = names(alloc, one)?;
    let other = names(alloc, other)?;
    Ok(one == other)
}

/// Whether the list gives its names in order, and gives them back so.
fn come_back(alloc: Global, listed: &[&[u8]], wanted: &[u8]) -> Result<bool, NoMemory> {
    let listed = names(alloc, listed)?;
    let is_shown = joined(alloc, listed.as_slice())?.as_slice() == wanted;
    Ok(joined(alloc, &listed.into_vec())?.as_slice() == wanted && is_shown)
}

static DOWN: [&[u8]; 2] = [b"/b", b"/a"];

static UP: [&[u8]; 2] = [b"/a", b"/b"];

#[test]
fn lists_of_names_are_their_names_in_order(rt: HostRuntime) -> Result<(), Fail> {
    assert!(rt; are_equal(rt.alloc(), &DOWN, &DOWN)? && !are_equal(rt.alloc(), &DOWN, &UP)?);
    assert!(rt; come_back(rt.alloc(), &DOWN, b"/b/a")?);
    Ok(())
}

/// Rules, their numbers, their error words and their names.
static RULES: [(Rule, u16, &str, &str); 7] = [
    (Rule::NoSession, 1, "ESRCH", "NoSession"),
    (Rule::NameLong, 5, "ENAMETOOLONG", "NameLong"),
    (Rule::Sticky, 17, "EACCES", "Sticky"),
    (Rule::WouldBlock, 29, "EAGAIN", "WouldBlock"),
    (Rule::BadKey, 31, "EACCES", "BadKey"),
    (Rule::TimedOut, 32, "ETIMEDOUT", "TimedOut"),
    (Rule::NoTaker, 33, "ESRCH", "NoTaker"),
];

#[test]
fn rules_have_numbers_error_words_and_names(_rt: HostRuntime) -> Result<(), Fail> {
    for (rule, number, word, name) in &RULES {
        if rule.number() != *number || rule.errno() != *word || rule.name() != *name {
            return Err(Fail::new(format_args!("at {word}")));
        }
    }
    Ok(())
}

/// Whether the number is that of a call or of an answer, and stands for itself.
fn stands_for_itself(number: u8) -> bool {
    let call = CallOp::of_number(number).map(|op| op.number());
    let answer = AnswerOp::of_number(number).map(|op| op.number());
    let (known_call, known_answer) = match number {
        2..=24 | 26..=28 | 30 => (Some(number), None),
        65..=79 => (None, Some(number)),
        _ => (None, None),
    };
    call == known_call && answer == known_answer
}

#[test]
fn calls_are_2_to_30_but_25_and_29_and_answers_65_to_79(_rt: HostRuntime) -> Result<(), Fail> {
    for number in 0..=u8::MAX {
        if !stands_for_itself(number) {
            return Err(Fail::new(format_args!("at {number}")));
        }
    }
    Ok(())
}

#[test]
fn a_call_and_an_answer_say_which_they_are(rt: HostRuntime) {
    assert!(rt; Call::SemTryWait(Desc(7)).op() == CallOp::SemTryWait);
    assert!(rt; Call::Interrupt.op().number() == 23);
    assert!(rt; Answer::Notice(Desc(7)).op() == AnswerOp::Notice);
    assert!(rt; Answer::Done.op().number() == 66);
    assert!(rt; Event::Tick { moment: 7 }.op() == 29);
}

/// Bits, and whether they create, exclude, and refuse where others wait.
static FLAGS: [(u8, bool, bool, bool); 5] = [
    (0, false, false, false),
    (1, true, false, false),
    (2, false, true, false),
    (5, true, false, true),
    (6, false, true, true),
];

#[test]
fn flags_are_bits(rt: HostRuntime) -> Result<(), Fail> {
    assert!(rt; (OpenFlags::CREATE | OpenFlags::NONBLOCK).bits() == 5);
    for (bits, creates, exclusive, nonblock) in &FLAGS {
        let flags = OpenFlags::from_bits_retain(*bits);
        if flags.contains(OpenFlags::CREATE) != *creates
            || flags.contains(OpenFlags::EXCLUSIVE) != *exclusive
            || flags.contains(OpenFlags::NONBLOCK) != *nonblock
        {
            return Err(Fail::new(format_args!("at {bits}")));
        }
    }
    Ok(())
}
