//! Seats on threads of their own, and one message from seat to seat.

use super::pairs::{Pair, closed_by};
use ipc_book::{Bell, OfferFault, Seat, Shared};
use ipc_terms::{Access, Answer, Bytes, Call, Desc, Mode, Name, OpenFlags, QueueOpen, Sid};
use std::alloc::{AllocError, Global};
use std::process::Abort;
use std::sync::ledger::Ledger;
use std::sync::{Arc, Wait};
use std::test::*;
use std::thread;
use std::thread::Threads;

#[test]
fn two_threads(rt: HostRuntime) -> Result<(), Fail> {
    assert!(rt; closed_by(&rt, rt.alloc(), Pair::Threads)?.records == 204);
    Ok(())
}

#[test]
fn one_message(rt: HostRuntime) -> Result<(), Fail> {
    assert!(rt; closed_by(&rt, rt.alloc(), Pair::Message)?.records == 6);
    Ok(())
}

#[test]
fn one_offer(rt: HostRuntime) -> Result<(), Fail> {
    assert!(rt; closed_by(&rt, rt.alloc(), Pair::Offer)?.records == 7);
    Ok(())
}

/// A seat that comes with the key and makes these calls.
pub(crate) fn act<L: Ledger, R: Wait>(
    rt: &R,
    alloc: Global,
    book: &Shared<L>,
    key: &[u8],
    calls: Vec<Call>,
) -> Option<Seat<L>> {
    let Ok(mut seat) = book.seat(rt, alloc) else {
        return None;
    };
    book.hello(rt, alloc, &mut seat, key).ok()?;
    for call in calls {
        book.call(rt, alloc, &mut seat, call).ok()?;
    }
    Some(seat)
}

fn umasks(alloc: Global) -> Result<Vec<Call>, AllocError> {
    let mut calls = Vec::new(alloc);
    for _ in 0..100 {
        calls.push(Call::Umask(Mode(0)))?;
    }
    Ok(calls)
}

/// A hello, 100 times a umask, a look at all answers, and a hang-up. No seat, where an answer is wrong.
fn work<L: Ledger, R: Wait>(
    rt: &R,
    alloc: Global,
    book: &Shared<L>,
    key: &[u8],
) -> Option<Seat<L>> {
    let mut seat = act(rt, alloc, book, key, umasks(alloc).ok()?)?;
    let waiting = book.waiting(rt, &seat);
    let answers = book.collect(rt, &seat);
    let is_right = waiting == 101
        && answers.len() == 101
        && answers
            .iter()
            .enumerate()
            .all(|(place, answer)| is_right(place, answer, seat.sid()))
        && book.collect(rt, &seat).len() == 0;
    if !is_right {
        return None;
    }
    book.hang_up(rt, alloc, &mut seat).ok()?;
    Some(seat)
}

fn is_right(place: usize, answer: &Answer, session: Option<Sid>) -> bool {
    match answer {
        Answer::Started(sid) => place == 0 && session == Some(*sid),
        Answer::Mask(mask) => mask.0 == if place == 1 { 0o22 } else { 0 },
        _ => false,
    }
}

/// Two seats on two threads make 102 events each.
pub(crate) fn work_beside<L: Ledger + Send + Sync, R: Threads + Wait + Abort + Sync>(
    rt: &R,
    alloc: Global,
    book: &Shared<L>,
) -> Result<(Seat<L>, Seat<L>), Fail> {
    let (one, two) = thread::join(
        rt,
        move || work(rt, alloc, book, b"ka1"),
        move || work(rt, alloc, book, b"kb1"),
    );
    let one = one.ok_or("the work of ka1")?;
    let two = two.ok_or("the work of kb1")?;
    assert!(rt; one.len() == 102 && two.len() == 102);
    Ok((one, two))
}

/// Opens the queue, and makes it where there is none.
fn opening(alloc: Global, access: Access) -> Result<Call, AllocError> {
    Ok(Call::MqOpen(QueueOpen {
        name: Name::new(Bytes::from_slice(alloc, b"/k")?),
        access,
        flags: OpenFlags::CREATE,
        mode: Mode(0o666),
        attributes: None,
    }))
}

/// Opens the queue for both, and sends a message by the description.
fn calls_of_sender(alloc: Global, desc: Desc) -> Result<Vec<Call>, Fail> {
    let mut calls = Vec::new(alloc);
    calls.push(opening(alloc, Access::Both)?)?;
    calls.push(Call::MqSend {
        desc,
        priority: 0,
        bytes: Bytes::from_slice(alloc, b"hi")?,
    })?;
    Ok(calls)
}

/// Opens the queue for this access, and receives a message by the description.
fn calls_of_receiver(alloc: Global, access: Access, desc: Desc) -> Result<Vec<Call>, Fail> {
    let mut calls = Vec::new(alloc);
    calls.push(opening(alloc, access)?)?;
    calls.push(Call::MqReceive { desc, length: 8192 })?;
    Ok(calls)
}

/// One seat opens a queue and sends a message to it, another opens it and gets the message.
pub(crate) fn pass_one<L: Ledger, R: Wait + Abort>(
    rt: &R,
    alloc: Global,
    book: &Shared<L>,
) -> Result<(Seat<L>, Seat<L>), Fail> {
    let sent = calls_of_sender(alloc, Desc(0))?;
    let ann = act(rt, alloc, book, b"ka1", sent).ok_or("ann's calls")?;
    let received = calls_of_receiver(alloc, Access::Read, Desc(1))?;
    let bob = act(rt, alloc, book, b"kb1", received).ok_or("bob's calls")?;
    assert!(rt; is_bobs(book.collect(rt, &bob).as_slice()));
    Ok((ann, bob))
}

fn is_bobs(answers: &[Answer]) -> bool {
    match answers {
        [
            Answer::Started(Sid(1)),
            Answer::Opened(Desc(1)),
            Answer::Received { priority: 0, bytes },
        ] => { bytes.as_slice() == b"hi".as_slice() }
        _ => false,
    }
}

/// A new bell of the session.
pub(crate) fn bell_of<L: Ledger, R: Wait>(
    rt: &R,
    alloc: Global,
    book: &Shared<L>,
    sid: Sid,
) -> Result<Arc<Bell>, Fail> {
    let bell = Arc::new(alloc, Bell::new())?;
    book.add_bell(rt, sid, &bell)?;
    Ok(bell)
}

/// A seat with two answers untaken is full where two are the most: the call comes back.
fn offer_in_vain<L: Ledger, R: Wait + Abort>(
    rt: &R,
    alloc: Global,
    book: &Shared<L>,
    seat: &mut Seat<L>,
) -> Result<Call, Fail> {
    let (fault, call) = book
        .offer(rt, alloc, seat, Call::Interrupt, 2)
        .err()
        .ok_or("no room")?;
    assert!(rt; matches!((&fault, &call), (OfferFault::Full, Call::Interrupt)));
    Ok(call)
}

/// A message that another seat sends to the blocked session rings its bell, which the book then gives up.
fn send_and_ring<L: Ledger, R: Wait + Abort>(
    rt: &R,
    alloc: Global,
    book: &Shared<L>,
    blocked: Sid,
) -> Result<Seat<L>, Fail> {
    let bell = bell_of(rt, alloc, book, blocked)?;
    let sent = calls_of_sender(alloc, Desc(1))?;
    let other = act(rt, alloc, book, b"kb1", sent).ok_or("a sender")?;
    book.remove_bell(rt, blocked);
    assert!(rt; bell.rings() == 1 && Arc::strong_count(&bell) == 1);
    Ok(other)
}

/// A call that came back is stepped once the answers are taken. Each seat has its own answers waiting.
pub(crate) fn offer_one<L: Ledger, R: Wait + Abort>(
    rt: &R,
    alloc: Global,
    book: &Shared<L>,
) -> Result<(Seat<L>, Seat<L>), Fail> {
    let received = calls_of_receiver(alloc, Access::Both, Desc(0))?;
    let mut bob = act(rt, alloc, book, b"kb1", received).ok_or("a receiver")?;
    let call = offer_in_vain(rt, alloc, book, &mut bob)?;
    let other = send_and_ring(rt, alloc, book, bob.sid().ok_or("a session")?)?;
    assert!(rt; book.collect(rt, &bob).len() == 3 && book.waiting(rt, &bob) == 0);
    assert!(rt; book.waiting(rt, &other) == 3);
    book.offer(rt, alloc, &mut bob, call, 2).ok().ok_or("room")?;
    Ok((bob, other))
}
