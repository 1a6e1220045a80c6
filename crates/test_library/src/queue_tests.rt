//! Queues, as a table of steps.

use ipc_queue::{Queue, ReceiveOutcome, SendOutcome};
use ipc_terms::{Bytes, Desc, NoMemory, Sid};
use std::alloc::Global;
use std::test::Fail;

const ANN: Sid = Sid(0);

const BOB: Sid = Sid(1);

const CY: Sid = Sid(2);

/// One step on a queue, and what it is to give.
enum Step {
    /// Starts again, with an empty queue of at most so many messages.
    New(u32),
    Send(u64, u32, Sid, SendOutcome),
    Receive(Sid, ReceiveOutcome),
    Withdraw(Sid, bool),
    Register(u64, bool),
    Unregister(u64),
    Registered(Option<Desc>),
    Length(usize),
    Full(bool),
    Next(Option<u64>),
    Receiver(Option<Sid>),
    Sender(Option<Sid>),
    /// A call that does nothing.
    OneKind,
    /// Sends so many messages, to a queue that isn't full before.
    Fill(u64),
    /// Messages by their places and priorities, which all enter.
    Enter(&'static [(u64, u32)]),
    /// The places in the order in which they come out, as `next` says of each before.
    ComeOut(&'static [u64]),
}

use Step::{
    ComeOut, Enter, Fill, Full, Length, New, Next, OneKind, Receive, Receiver, Register,
    Registered, Send, Sender, Unregister, Withdraw,
};

static STEPS: [Step; 176] = [
    // Nothing is in an empty queue.
    New(2),
    Length(0),
    Next(None),
    Receiver(None),
    Sender(None),
    Full(false),
    // Messages enter and leave.
    New(2),
    Send(10, 1, ANN, SendOutcome::Queued),
    Length(1),
    Next(Some(10)),
    Full(false),
    Send(11, 5, ANN, SendOutcome::Queued),
    Length(2),
    Next(Some(11)),
    Full(true),
    Receive(BOB, ReceiveOutcome::Took(11)),
    Length(1),
    Full(false),
    Receive(BOB, ReceiveOutcome::Took(10)),
    Length(0),
    Next(None),
    // A call that can't be served waits, and is served by the next of the other kind.
    New(2),
    Send(10, 1, ANN, SendOutcome::Queued),
    Send(11, 5, ANN, SendOutcome::Queued),
    Send(12, 9, BOB, SendOutcome::Parked),
    Length(2),
    Sender(Some(BOB)),
    Next(Some(11)),
    Receive(CY, ReceiveOutcome::TookAndAdmitted(11, BOB)),
    Length(2),
    Sender(None),
    Receive(CY, ReceiveOutcome::Took(12)),
    Receive(CY, ReceiveOutcome::Took(10)),
    Receive(CY, ReceiveOutcome::Parked),
    Receiver(Some(CY)),
    Send(13, 0, ANN, SendOutcome::HandedTo(CY)),
    Receiver(None),
    Length(0),
    Next(None),
    // The receive that waits longest is served first.
    New(1),
    Receive(CY, ReceiveOutcome::Parked),
    Receive(ANN, ReceiveOutcome::Parked),
    Receiver(Some(CY)),
    Send(5, 0, BOB, SendOutcome::HandedTo(CY)),
    Receiver(Some(ANN)),
    Send(6, 0, BOB, SendOutcome::HandedTo(ANN)),
    Receiver(None),
    Send(7, 0, BOB, SendOutcome::Queued),
    // The send that waits longest enters first, whatever its priority.
    New(2),
    Send(0, 3, ANN, SendOutcome::Queued),
    Send(1, 3, ANN, SendOutcome::Queued),
    Send(2, 3, CY, SendOutcome::Parked),
    Send(3, 9, ANN, SendOutcome::Parked),
    Sender(Some(CY)),
    Receive(BOB, ReceiveOutcome::TookAndAdmitted(0, CY)),
    Sender(Some(ANN)),
    Receive(BOB, ReceiveOutcome::TookAndAdmitted(1, ANN)),
    Sender(None),
    Receive(BOB, ReceiveOutcome::Took(3)),
    Receive(BOB, ReceiveOutcome::Took(2)),
    // A withdrawn send leaves nothing.
    New(1),
    Send(0, 0, ANN, SendOutcome::Queued),
    Send(1, 0, CY, SendOutcome::Parked),
    Send(2, 0, ANN, SendOutcome::Parked),
    Send(3, 0, CY, SendOutcome::Parked),
    Withdraw(BOB, false),
    Sender(Some(CY)),
    OneKind,
    Withdraw(CY, true),
    Sender(Some(ANN)),
    Receive(BOB, ReceiveOutcome::TookAndAdmitted(0, ANN)),
    Sender(Some(CY)),
    Withdraw(CY, true),
    Withdraw(CY, false),
    Withdraw(ANN, false),
    Receive(BOB, ReceiveOutcome::Took(2)),
    // A withdrawn receive gets nothing.
    New(1),
    Withdraw(CY, false),
    Receive(CY, ReceiveOutcome::Parked),
    Receive(ANN, ReceiveOutcome::Parked),
    Withdraw(BOB, false),
    Withdraw(CY, true),
    Withdraw(CY, false),
    Receiver(Some(ANN)),
    Send(4, 0, BOB, SendOutcome::HandedTo(ANN)),
    Send(5, 0, BOB, SendOutcome::Queued),
    // One description is registered, and it alone ends that.
    New(1),
    Registered(None),
    Unregister(7),
    Register(7, true),
    Register(7, false),
    Register(8, false),
    Unregister(8),
    Registered(Some(Desc(7))),
    Unregister(7),
    Registered(None),
    Register(8, true),
    Registered(Some(Desc(8))),
    // A message that a parked receive takes gives no notice; the next that enters the empty queue gives one.
    New(2),
    Register(7, true),
    Receive(BOB, ReceiveOutcome::Parked),
    Send(0, 0, ANN, SendOutcome::HandedTo(BOB)),
    Registered(Some(Desc(7))),
    Send(1, 0, ANN, SendOutcome::QueuedAndNotice(Desc(7))),
    Registered(None),
    Register(8, true),
    Send(2, 0, ANN, SendOutcome::Queued),
    Send(3, 0, ANN, SendOutcome::Parked),
    Withdraw(ANN, true),
    Registered(Some(Desc(8))),
    // A message that a receive lets in gives none.
    New(1),
    Send(0, 0, ANN, SendOutcome::Queued),
    Register(1, true),
    Send(1, 9, ANN, SendOutcome::Parked),
    Receive(BOB, ReceiveOutcome::TookAndAdmitted(0, ANN)),
    Registered(Some(Desc(1))),
    Receive(BOB, ReceiveOutcome::Took(1)),
    Send(2, 0, ANN, SendOutcome::QueuedAndNotice(Desc(1))),
    Receive(BOB, ReceiveOutcome::Took(2)),
    Send(3, 0, ANN, SendOutcome::Queued),
    // A queue of one message.
    New(1),
    Full(false),
    Send(4, 32_767, ANN, SendOutcome::Queued),
    Full(true),
    Receive(BOB, ReceiveOutcome::Took(4)),
    Full(false),
    Send(6, 0, ANN, SendOutcome::Queued),
    Next(Some(6)),
    // A later message of a greater priority overtakes.
    New(3),
    Send(0, 1, ANN, SendOutcome::Queued),
    Send(1, 1, ANN, SendOutcome::Queued),
    Receive(BOB, ReceiveOutcome::Took(0)),
    Send(5, 1, ANN, SendOutcome::Queued),
    Send(6, 2, ANN, SendOutcome::Queued),
    Receive(BOB, ReceiveOutcome::Took(6)),
    Receive(BOB, ReceiveOutcome::Took(1)),
    Receive(BOB, ReceiveOutcome::Took(5)),
    // The greatest priority comes out first, and of one priority the oldest.
    New(4),
    Enter(&[(3, 1), (4, 5), (5, 5), (6, 0)]),
    Full(true),
    ComeOut(&[4, 5, 3, 6]),
    New(4),
    Enter(&[(0, 0), (1, 1), (2, 2), (3, 3)]),
    Full(true),
    ComeOut(&[3, 2, 1, 0]),
    New(4),
    Enter(&[(0, 3), (1, 2), (2, 1), (3, 0)]),
    Full(true),
    ComeOut(&[0, 1, 2, 3]),
    New(4),
    Enter(&[(7, 4), (8, 4), (9, 4), (10, 4)]),
    Full(true),
    ComeOut(&[7, 8, 9, 10]),
    New(4),
    Enter(&[(1, 0), (2, 9), (3, 0), (4, 9)]),
    Full(true),
    ComeOut(&[2, 4, 1, 3]),
    New(4),
    Enter(&[(0, 32_766), (1, 32_767), (2, 0), (3, 32_767)]),
    Full(true),
    ComeOut(&[1, 3, 0, 2]),
    New(4),
    Enter(&[(9, 2), (8, 2), (7, 3), (6, 3)]),
    Full(true),
    ComeOut(&[7, 6, 9, 8]),
    New(4),
    Enter(&[(5, 0), (5, 1), (5, 1), (5, 0)]),
    Full(true),
    ComeOut(&[5, 5, 5, 5]),
    // A queue of 1,000 fills at the last.
    New(1_000),
    Fill(1_000),
    Full(true),
    Length(1_000),
    Receive(BOB, ReceiveOutcome::Took(1)),
    Receive(BOB, ReceiveOutcome::Took(3)),
    Length(998),
];

/// Does the step, and says whether it gave what it is to give.
fn gives(alloc: Global, queue: &mut Queue, step: &Step) -> Result<bool, NoMemory> {
    Ok(match *step {
        New(maxmsg) => starts(alloc, queue, maxmsg),
        Send(place, priority, who, wanted) => queue.send(place, priority, who)? == wanted,
        Receive(who, wanted) => queue.receive(who)? == wanted,
        Withdraw(who, wanted) => queue.withdraw(who) == wanted,
        Register(number, wanted) => queue.register(Desc(number)) == wanted,
        Unregister(number) => {
            queue.unregister(Desc(number));
            true
        }
        Registered(wanted) => queue.registered() == wanted,
        Length(wanted) => queue.len() == wanted,
        Full(wanted) => queue.is_full() == wanted,
        Next(wanted) => queue.next() == wanted,
        Receiver(wanted) => queue.receiver() == wanted,
        Sender(wanted) => queue.sender() == wanted,
        OneKind => {
            queue.parks_one_kind();
            true
        }
        Fill(count) => fills(queue, count)?,
        Enter(messages) => enter(queue, messages)?,
        ComeOut(places) => come_out(queue, places)?,
    })
}

/// Starts again, and says whether a queue may be of so many messages.
fn starts(alloc: Global, queue: &mut Queue, maxmsg: u32) -> bool {
    if maxmsg > 0 {
        *queue = Queue::new(alloc, maxmsg, 8);
    }
    maxmsg > 0
}

fn fills(queue: &mut Queue, count: u64) -> Result<bool, NoMemory> {
    for place in 0..count {
        let priority = u32::from(place % 2 == 1);
        if queue.is_full() || queue.send(place, priority, ANN)? != SendOutcome::Queued {
            return Ok(false);
        }
    }
    Ok(true)
}

fn enter(queue: &mut Queue, messages: &[(u64, u32)]) -> Result<bool, NoMemory> {
    for (place, priority) in messages {
        if queue.send(*place, *priority, ANN)? != SendOutcome::Queued {
            return Ok(false);
        }
    }
    Ok(true)
}

fn come_out(queue: &mut Queue, places: &[u64]) -> Result<bool, NoMemory> {
    for place in places {
        if queue.next() != Some(*place) || queue.receive(BOB)? != ReceiveOutcome::Took(*place) {
            return Ok(false);
        }
    }
    Ok(true)
}

/// Does the steps in order.
fn all_give(alloc: Global, queue: &mut Queue, steps: &[Step]) -> Result<(), Fail> {
    for (row, step) in steps.iter().enumerate() {
        if !gives(alloc, queue, step)? {
            return Err(Fail::new(format_args!("row {row} gives something else")));
        }
    }
    Ok(())
}

#[test]
fn worked_queues(rt: HostRuntime) -> Result<(), Fail> {
    let mut queue = Queue::new(rt.alloc(), 1, 8);
    all_give(rt.alloc(), &mut queue, &STEPS)
}

#[test]
fn a_message_stands_with_its_bytes(rt: HostRuntime) -> Result<(), Fail> {
    let mut queue = Queue::new(rt.alloc(), 1, 8);
    let bytes = Bytes::from_slice(rt.alloc(), b"build-7")?;
    assert!(rt; queue.send_message(4, 5, &bytes, ANN)? == SendOutcome::Queued);
    let Some(next) = queue.next_message() else {
        return Err(Fail::new("no message"));
    };
    assert!(rt; next.place == 4 && next.priority == 5);
    assert!(rt; next.bytes.as_slice() == b"build-7".as_slice());
    assert!(rt; queue.send_message(5, 5, &bytes, ANN)? == SendOutcome::Parked);
    assert!(rt; queue.bytes() == 7);
    Ok(())
}
