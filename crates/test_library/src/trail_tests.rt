//! Trails: what was pushed stands at its place, and a send's message with it.

use ipc_terms::{Call, Event, Line, NoMemory, Record, Rule, Sid, Uid};
use ipc_trail::{Receipt, Trail};
use std::alloc::Global;
use std::test::Fail;
use test_made::{act, name, send, timed_send};

/// A record, and what is to stand at its place.
#[derive(Drop)]
enum Pushed {
    /// A hello of this user.
    Hello(u32),
    /// A send of this priority and these bytes, and the rule that refused it.
    Send(u32, &'static [u8], Option<Rule>),
    /// The same with a deadline.
    TimedSend(u32, &'static [u8], Option<Rule>),
    /// A tick of this moment.
    Tick(u64),
}

use Pushed::{Hello, Send, Tick, TimedSend};

/// The record: session 0 acts, by description 0.
fn made(alloc: Global, pushed: &Pushed) -> Result<Record, NoMemory> {
    match pushed {
        Hello(user) => {
            let found = Some(Uid(*user));
            Ok(record_of(Event::Hello { found }, None))
        }
        Send(priority, bytes, rule) => {
            let call = send(alloc, 0, *priority, bytes)?;
            Ok(record_of(act(0, call), *rule))
        }
        TimedSend(priority, bytes, rule) => {
            let call = timed_send(alloc, 0, *priority, 9, bytes)?;
            Ok(record_of(act(0, call), *rule))
        }
        Tick(moment) => Ok(record_of(Event::Tick { moment: *moment }, None)),
    }
}

fn record_of(event: Event, rule: Option<Rule>) -> Record {
    Record { event, rule }
}

/// Pushes the record at the end, where nothing stood before.
fn pushes(alloc: Global, trail: &mut Trail, pushed: &Pushed) -> Result<bool, NoMemory> {
    let place = trail.len();
    let is_free = trail.get(place).is_none();
    let added = made(alloc, pushed)?;
    trail.reserve_one()?;
    trail.push_reserved(added);
    Ok(is_free && trail.len() == place + 1)
}

/// Whether this stands at the place. The message of a send is read by its place.
fn stands(trail: &Trail, place: usize, pushed: &Pushed) -> bool {
    let Some(record) = trail.get(place) else {
        return false;
    };
    match (&record.event, pushed) {
        (Event::Hello { found: Some(found) }, Hello(user)) => {
            found.0 == *user && record.rule == None
        }
        (
            Event::Do {
                call: Call::MqSend { .. },
                ..
            },
            Send(priority, bytes, rule),
        )
        | (
            Event::Do {
                call: Call::MqTimedSend { .. },
                ..
            },
            TimedSend(priority, bytes, rule),
        ) => {
            let place = place as u64;
            record.rule == *rule
                && trail.prio_at(place) == *priority
                && trail.bytes_at(place).as_slice() == *bytes
        }
        (Event::Tick { moment }, Tick(told)) => moment == told && record.rule == None,
        _ => false,
    }
}

/// Refused sends have messages too, and a message may be empty.
static PUSHED: [Pushed; 11] = [
    Hello(0),
    Send(3, b"old", None),
    Hello(1000),
    Send(0, b"", None),
    Send(32_768, b"v", Some(Rule::PrioRange)),
    Send(32_767, b"\0\xff", None),
    Hello(7),
    Send(5, b"old", None),
    Tick(9),
    TimedSend(4, b"late", Some(Rule::TimedOut)),
    TimedSend(32_767, b"new", None),
];

#[test]
fn what_was_pushed_stands_at_its_place(rt: HostRuntime) -> Result<(), Fail> {
    let mut trail = Trail::new(rt.alloc());
    for pushed in &PUSHED {
        if !pushes(rt.alloc(), &mut trail, pushed)? {
            return Err(Fail::new("a place was taken"));
        }
    }
    assert!(rt; trail.get(usize::MAX).is_none());
    all_stand(&trail)
}

fn all_stand(trail: &Trail) -> Result<(), Fail> {
    for (place, pushed) in PUSHED.iter().enumerate() {
        if !stands(trail, place, pushed) {
            return Err(Fail::new(format_args!("at {place}")));
        }
    }
    Ok(())
}

#[test]
fn the_oldest_are_forgotten(rt: HostRuntime) -> Result<(), Fail> {
    let mut trail = trail_of(rt.alloc(), &PUSHED)?;
    for place in 1..=PUSHED.len() {
        trail.forget_one();
        if !begins_at(rt.alloc(), &trail, place)? {
            return Err(Fail::new(format_args!("the trail from {place}")));
        }
    }
    trail.forget_one();
    assert!(rt; begins_at(rt.alloc(), &trail, PUSHED.len())?);
    assert!(rt; trail.bytes() == 0);
    Ok(())
}

#[test]
fn a_record_counts_with_its_message(rt: HostRuntime) -> Result<(), Fail> {
    let mut trail = trail_of(rt.alloc(), &[Send(0, b"7 bytes", None)])?;
    let sent = trail.bytes();
    let _is_free = pushes(rt.alloc(), &mut trail, &Tick(9))?;
    let both = trail.bytes();
    trail.forget_one();
    assert!(rt; trail.bytes().saturating_add(sent) == both);
    assert!(rt; trail.bytes().saturating_add(7) <= sent);
    Ok(())
}

#[test]
fn a_record_counts_with_its_name(rt: HostRuntime) -> Result<(), Fail> {
    let alloc = rt.alloc();
    let mut trail = trail_of(alloc, &[Tick(9)])?;
    let tick = trail.bytes();
    let unlinked = Call::MqUnlink(name(alloc, b"/twelve bytes")?);
    trail.reserve_one()?;
    trail.push_reserved(record_of(act(0, unlinked), None));
    assert!(rt; trail.bytes() == tick.saturating_add(tick).saturating_add(13));
    trail.forget_one();
    trail.forget_one();
    assert!(rt; trail.bytes() == 0);
    Ok(())
}

/// Whether the trail has the records from the place on, and as many places as before.
fn begins_at(alloc: Global, trail: &Trail, first: usize) -> Result<bool, NoMemory> {
    for (place, pushed) in PUSHED.iter().enumerate() {
        if stands(trail, place, pushed) != (place >= first) {
            return Ok(false);
        }
    }
    let page = trail.page(alloc, 0, 1)?;
    let shown = page.as_slice().first().map(|line| line.place);
    let oldest = trail.get(first).map(|_| first as u64);
    Ok(shown == oldest && trail.first() == first as u64 && trail.len() == PUSHED.len())
}

/// Session, event and rule that the audit shows of each of `PUSHED`.
static SHOWN: [(u64, u8, u16); 11] = [
    (u64::MAX, 1, 0),
    (0, 6, 0),
    (u64::MAX, 1, 0),
    (0, 6, 0),
    (0, 6, 25),
    (0, 6, 0),
    (u64::MAX, 1, 0),
    (0, 6, 0),
    (u64::MAX, 29, 0),
    (0, 26, 32),
    (0, 26, 0),
];

/// The start and the count of a page, and how many lines it has.
static PAGES: [(u64, u16, usize); 7] = [
    (0, 5, 5),
    (0, 11, 11),
    (6, 12, 5),
    (3, 0, 0),
    (3, 1, 1),
    (11, 1, 0),
    (u64::MAX, u16::MAX, 0),
];

#[test]
fn pages_and_receipts_show_the_records(rt: HostRuntime) -> Result<(), Fail> {
    let trail = trail_of(rt.alloc(), &PUSHED)?;
    for (start, count, lines) in &PAGES {
        if !is_page(rt.alloc(), &trail, (*start, *count), *lines)? {
            return Err(Fail::new(format_args!("the page from {start}")));
        }
    }
    assert!(rt; trail.receipt(PUSHED.len()).is_none());
    all_have_receipts(&trail)
}

fn trail_of(alloc: Global, pushed: &[Pushed]) -> Result<Trail, NoMemory> {
    let mut trail = Trail::new(alloc);
    for one in pushed {
        let _is_last = pushes(alloc, &mut trail, one)?;
    }
    Ok(trail)
}

/// Whether the page has so many lines, each of its own place.
fn is_page(
    alloc: Global,
    trail: &Trail,
    asked: (u64, u16),
    lines: usize,
) -> Result<bool, NoMemory> {
    let (start, count) = asked;
    let page = trail.page(alloc, start, count)?;
    let shown = page.as_slice();
    for (index, line) in shown.iter().enumerate() {
        if !is_shown(line, start.wrapping_add(index as u64)) {
            return Ok(false);
        }
    }
    Ok(shown.len() == lines)
}

fn is_shown(line: &Line, place: u64) -> bool {
    let seen = (line.sid.0, line.op, line.rule);
    line.place == place
        && line.name.as_slice().is_empty()
        && SHOWN.get(place as usize) == Some(&seen)
}

fn all_have_receipts(trail: &Trail) -> Result<(), Fail> {
    for (place, (session, op, rule)) in SHOWN.iter().enumerate() {
        let wanted = Receipt {
            place: place as u64,
            sid: Sid(*session),
            op: *op,
            rule: *rule,
        };
        if trail.receipt(place) != Some(wanted) {
            return Err(Fail::new(format_args!("the receipt at {place}")));
        }
    }
    Ok(())
}

/// The length of an unlinked name, and how many bytes of it are shown.
static NAMES: [(usize, usize); 4] = [(0, 0), (255, 255), (256, 256), (257, 256)];

#[test]
fn names_are_cut_at_256_bytes(rt: HostRuntime) -> Result<(), Fail> {
    for (length, shown) in &NAMES {
        if shown_of_name(rt.alloc(), *length)? != *shown {
            return Err(Fail::new(format_args!("a name of {length} bytes")));
        }
    }
    Ok(())
}

/// How many bytes of a name of this length the audit shows.
fn shown_of_name(alloc: Global, length: usize) -> Result<usize, NoMemory> {
    let unlinked = unlink_of(alloc, length)?;
    let mut trail = Trail::new(alloc);
    trail.reserve_one()?;
    trail.push_reserved(unlinked);
    let page = trail.page(alloc, 0, 5)?;
    Ok(name_length(page.as_slice()))
}

/// A refused unlink of a name of this length.
fn unlink_of(alloc: Global, length: usize) -> Result<Record, NoMemory> {
    let text = Vec::from_elem(alloc, b'a', length)?;
    let unlinked = name(alloc, &text)?;
    Ok(record_of(act(0, Call::MqUnlink(unlinked)), Some(Rule::NameForm)))
}

/// How long the name is in the one line, which shows the unlink and its rule.
fn name_length(lines: &[Line]) -> usize {
    match lines {
        [line] if line.op == 5 && line.rule == 4 => line.name.as_slice().len(),
        _ => usize::MAX,
    }
}

/// The start and the count of a page of 1,001 lines, and how many it has.
static LONG_PAGES: [(u64, u16, usize); 5] = [
    (0, 999, 999),
    (0, 1_000, 1_000),
    (0, 1_001, 1_000),
    (1, u16::MAX, 1_000),
    (2, u16::MAX, 999),
];

#[test]
fn a_page_has_at_most_1000_lines(rt: HostRuntime) -> Result<(), Fail> {
    let trail = hellos(rt.alloc(), 1_001)?;
    for (start, count, lines) in &LONG_PAGES {
        let page = trail.page(rt.alloc(), *start, *count)?;
        if page.as_slice().len() != *lines {
            return Err(Fail::new(format_args!("{count} from {start}")));
        }
    }
    Ok(())
}

fn hellos(alloc: Global, count: u32) -> Result<Trail, NoMemory> {
    let mut trail = Trail::new(alloc);
    for user in 0..count {
        let _is_last = pushes(alloc, &mut trail, &Hello(user))?;
    }
    Ok(trail)
}
