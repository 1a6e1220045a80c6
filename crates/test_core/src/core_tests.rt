//! The core's calls: what is posted, what stands in outboxes, and what a run gives.

use crate::cores::{config, core_of};
use bitflags::Flags;
use ipc_core::{Core, CoreFault, Field, Limits, answers_of, laws};
use ipc_terms::{Answer, Call, Desc, Event, Mode, NoMemory, OpenFlags, Rule, Sid, Uid};
use std::alloc::Global;
use std::mem;
use std::test::Fail;
use test_made::{act, open, receive, send};

const FILE: &[u8] = b"root:r00t:0:0::\nann:ka1:1000:1000:50:\nbob:kb1:1001:1001:50,51:\n";

/// What happens, as plain data. A queue is opened for both, and created for all where it isn't there.
enum Asked {
    Hello(Option<Uid>),
    Umask(u64, u16),
    Create(u64, &'static [u8]),
    Send(u64, u64, u32, &'static [u8]),
    Receive(u64, u64),
    /// A receive by the description that waits no longer than to the moment.
    ReceiveUntil(u64, u64, u64),
    /// The description, and who takes it.
    Give(u64, u64, u64),
    Interrupt(u64),
    Hangup(u64),
    Tick(u64),
}

fn event(alloc: Global, asked: &Asked) -> Result<Event, NoMemory> {
    Ok(match asked {
        Hello(found) => Event::Hello { found: *found },
        Hangup(sid) => Event::Hangup { sid: Sid(*sid) },
        Umask(sid, mask) => act(*sid, Call::Umask(Mode(*mask))),
        Create(sid, name) => act(*sid, open(alloc, name, OpenFlags::CREATE, 0o666)?),
        Send(sid, desc, priority, bytes) => act(*sid, send(alloc, *desc, *priority, bytes)?),
        Receive(sid, desc) => act(*sid, receive(*desc)),
        ReceiveUntil(sid, desc, deadline) => act(*sid, receive_until(*desc, *deadline)),
        Give(sid, desc, taker) => act(*sid, give(*desc, *taker)),
        Interrupt(sid) => act(*sid, Call::Interrupt),
        Tick(moment) => Event::Tick { moment: *moment },
    })
}

fn receive_until(desc: u64, deadline: u64) -> Call {
    Call::MqTimedReceive {
        desc: Desc(desc),
        length: 8192,
        deadline,
    }
}

fn give(desc: u64, taker: u64) -> Call {
    Call::MqGive {
        desc: Desc(desc),
        taker: Sid(taker),
    }
}

/// One step on a core, and what it is to give.
enum Step {
    /// The event is posted: the verdict, who is answered first, and who second.
    Post(Asked, Option<Rule>, Option<Sid>, Option<Sid>),
    /// The verdict on an event that is not made.
    Decide(Asked, Option<Rule>),
    /// The session that a tick of this moment would answer.
    Due(u64, Option<Sid>),
    /// The least deadline of a parked call.
    Least(Option<u64>),
    /// How many answers the session has not taken yet.
    Waiting(u64, usize),
    /// How many it takes.
    Take(u64, usize),
    /// Its untaken answers are cleared.
    Clear(u64),
    /// How many events are recorded.
    Records(usize),
    /// So many records are forgotten, and the place of the oldest that is left.
    Forget(u64, u64),
    /// The limits are the standard ones.
    Standard,
    /// Starts again, without records.
    New,
    /// The events of `RUN`, one after the other, and the answers to each.
    Run,
}

use Asked::{Create, Give, Hangup, Hello, Interrupt, Receive, ReceiveUntil, Send, Tick, Umask};
use Step::{Clear, Decide, Due, Forget, Least, New, Post, Records, Run, Standard, Take, Waiting};

const ANN: Option<Sid> = Some(Sid(0));

const BOB: Option<Sid> = Some(Sid(1));

fn posts(
    alloc: Global,
    core: &mut Core,
    asked: &Asked,
    verdict: Option<Rule>,
    (caller, other): (Option<Sid>, Option<Sid>),
) -> Result<bool, Fail> {
    let asked = event(alloc, asked)?;
    let told = answers_of(core.state(), alloc, &asked)?;
    let posted = core.post(alloc, asked)?;
    Ok(
        (posted.verdict == verdict && posted.caller == caller && posted.other == other)
            && are_of(&told, (caller, other)),
    )
}

/// Whether the answers are for these sessions.
fn are_of(told: &[(Sid, Answer)], (caller, other): (Option<Sid>, Option<Sid>)) -> bool {
    match told {
        [] => caller.is_none() && other.is_none(),
        [(first, _)] => caller == Some(*first) && other.is_none(),
        [(first, _), (second, _)] => caller == Some(*first) && other == Some(*second),
        _ => false,
    }
}

/// A start, a refusal and the mask before.
static RUN: [Asked; 3] = [Hello(Some(Uid(1000))), Hello(None), Umask(0, 0)];

fn events(alloc: Global, asked: &[Asked]) -> Result<Vec<Event>, NoMemory> {
    let mut events = Vec::new(alloc);
    for asked in asked {
        events.push(event(alloc, asked)?)?;
    }
    Ok(events)
}

/// Whether the run's events are answered by a start, a refusal and the mask before.
fn are_answers(given: &[Vec<(Sid, Answer)>]) -> bool {
    let [started, refused, mask] = given else {
        return false;
    };
    match (started.as_slice(), refused.as_slice(), mask.as_slice()) {
        (
            [(starter, Answer::Started(sid))],
            [(nobody, Answer::Refused(rule))],
            [(caller, Answer::Mask(before))],
        ) => {
            (starter.0 == 0 && sid.0 == 0)
                && (*nobody == Sid::NOBODY && *rule == Rule::BadKey)
                && (caller.0 == 0 && before.0 == 0o22)
        }
        _ => false,
    }
}

/// Whether these are the start and the mask before.
fn are_untaken(answers: &[Answer]) -> bool {
    matches!(answers, [Answer::Started(Sid(0)), Answer::Mask(Mode(0o22))])
}

/// Whether a run answers each event, and what was answered to its session waits there.
fn runs(alloc: Global, core: &mut Core) -> Result<bool, NoMemory> {
    let events = events(alloc, &RUN)?;
    match core.run(alloc, events) {
        Ok(given) => Ok(are_answers(&given) && are_untaken(&core.take(Sid(0)))),
        Err((_, fault)) => Err(fault),
    }
}

/// Starts again, with a core of the standard limits. A call drops the old one: the proof of any other drop
/// of a core is long.
fn starts(alloc: Global, core: &mut Core) -> Result<bool, Fail> {
    let started = core_of(alloc, FILE)?;
    drop(mem::replace(core, started));
    Ok(true)
}

/// Forgets so many records, and says whether the oldest that is left has this place.
fn forgets(core: &mut Core, times: u64, first: u64) -> bool {
    for _ in 0..times {
        core.forget_one();
    }
    core.trail().first() == first
}

/// Does the step, and says whether it gave what it is to give.
fn gives(alloc: Global, core: &mut Core, step: &Step) -> Result<bool, Fail> {
    Ok(match step {
        Post(asked, rule, caller, other) => { posts(alloc, core, asked, *rule, (*caller, *other))? }
        Decide(asked, rule) => core.decide(&event(alloc, asked)?) == *rule,
        Due(moment, sid) => core.due(*moment) == *sid,
        Least(deadline) => core.least_deadline() == *deadline,
        Waiting(sid, count) => {
            core.waiting(Sid(*sid)) == *count && core.answers(Sid(*sid)).len() == *count
        }
        Take(sid, count) => core.take(Sid(*sid)).len() == *count,
        Clear(sid) => {
            core.clear(Sid(*sid));
            core.waiting(Sid(*sid)) == 0
        }
        Records(count) => core.trail().len() == *count,
        Forget(times, first) => forgets(core, *times, *first),
        Standard => core.config().limits == Limits::STANDARD,
        New => starts(alloc, core)?,
        Run => runs(alloc, core)?,
    })
}

/// Answers wait in outboxes until they are taken, once; a call that parks is answered later; what is
/// answered to nobody, or to a session that is not live, stands nowhere.
static STEPS: [Step; 81] = [
    Records(0),
    Post(Hello(Some(Uid(1000))), None, ANN, None),
    Post(Hello(None), Some(Rule::BadKey), Some(Sid::NOBODY), None),
    Post(Hello(Some(Uid(1001))), None, BOB, None),
    Records(3),
    Waiting(0, 1),
    Waiting(1, 1),
    Waiting(7, 0),
    Post(Umask(0, 0), None, ANN, None),
    Post(Create(0, b"/q"), None, ANN, None),
    Post(Create(1, b"/q"), None, BOB, None),
    Decide(Send(1, 0, 0, b"hi"), Some(Rule::BadDescr)),
    Records(6),
    Post(Receive(1, 1), None, None, None),
    Decide(Receive(1, 1), Some(Rule::InCall)),
    Waiting(1, 2),
    Post(Send(0, 0, 3, b"hi"), None, ANN, BOB),
    Waiting(1, 3),
    Take(1, 3),
    Take(1, 0),
    Waiting(0, 4),
    Post(Interrupt(0), Some(Rule::NotInCall), ANN, None),
    Take(0, 5),
    Post(Receive(1, 1), None, None, None),
    Post(Interrupt(1), None, BOB, BOB),
    Take(1, 2),
    Post(Receive(1, 1), None, None, None),
    Post(Hangup(1), None, None, None),
    Post(Send(0, 0, 0, b"ho"), None, ANN, None),
    Waiting(1, 0),
    Post(Umask(1, 0), Some(Rule::NoSession), BOB, None),
    Waiting(1, 0),
    Take(0, 1),
    Records(15),
    Post(Umask(0, 0), None, ANN, None),
    Clear(1),
    Waiting(0, 1),
    Clear(0),
    Post(Umask(0, 0), None, ANN, None),
    Waiting(0, 1),
    Standard,
    // A tick answers the session that is due, and nobody where none is; a description is passed on.
    New,
    Post(Hello(Some(Uid(1000))), None, ANN, None),
    Post(Hello(Some(Uid(1001))), None, BOB, None),
    Post(Create(0, b"/q"), None, ANN, None),
    Post(Give(0, 0, 1), None, ANN, BOB),
    Post(Create(0, b"/q"), None, ANN, None),
    Due(u64::MAX, None),
    Least(None),
    Post(ReceiveUntil(1, 0, 7), None, None, None),
    Post(ReceiveUntil(0, 1, 5), None, None, None),
    Due(4, None),
    Due(5, ANN),
    Due(6, ANN),
    Due(7, BOB),
    Least(Some(5)),
    Post(Tick(4), None, None, None),
    Post(Tick(9), None, BOB, None),
    Due(0, ANN),
    Least(Some(5)),
    Take(1, 3),
    Decide(Tick(0), None),
    Post(Tick(0), None, ANN, None),
    Due(u64::MAX, None),
    Post(ReceiveUntil(0, 1, 9), Some(Rule::TimedOut), ANN, None),
    Post(ReceiveUntil(0, 1, 10), None, None, None),
    Records(12),
    // What was forgotten is decided on and answered as if it were there; a message stays.
    New,
    Post(Hello(Some(Uid(1000))), None, ANN, None),
    Post(Create(0, b"/q"), None, ANN, None),
    Post(Send(0, 0, 3, b"hi"), None, ANN, None),
    Forget(2, 2),
    Forget(9, 3),
    Records(3),
    Waiting(0, 3),
    Post(Receive(0, 0), None, ANN, None),
    Decide(Receive(0, 1), Some(Rule::BadDescr)),
    Forget(0, 3),
    Records(4),
    // A run answers each event, and what was answered waits.
    New,
    Run,
];

/// Does the steps in order.
fn all_give(alloc: Global, core: &mut Core, steps: &[Step]) -> Result<(), Fail> {
    for (row, step) in steps.iter().enumerate() {
        if !gives(alloc, core, step)? {
            return Err(Fail::new(format_args!("row {row} gives something else")));
        }
    }
    Ok(())
}

#[test]
fn worked_cores(rt: HostRuntime) -> Result<(), Fail> {
    let mut core = core_of(rt.alloc(), FILE)?;
    let given = all_give(rt.alloc(), &mut core, &STEPS);
    drop(core);
    given
}

/// Two queues, with two messages and with one.
static ALIVE: [Asked; 6] = [
    Hello(Some(Uid(1000))),
    Create(0, b"/q"),
    Create(0, b"/r"),
    Send(0, 0, 1, b"abc"),
    Send(0, 0, 2, b"de"),
    Send(0, 1, 0, b"f"),
];

#[test]
fn what_is_alive_is_counted(rt: HostRuntime) -> Result<(), Fail> {
    let mut core = core_of(rt.alloc(), FILE)?;
    for asked in &ALIVE {
        core.post(rt.alloc(), event(rt.alloc(), asked)?)?;
    }
    let counts = core.state().tables().counts();
    assert!(rt; counts.queues == 2 && counts.semaphores == 0);
    assert!(rt; counts.messages == 3 && counts.bytes == 6);
    Ok(())
}

/// Limits, and the fault of the field that is out of its range.
static LIMITS: [(u32, u32, u32, Option<CoreFault>); 7] = [
    (1, 1, 0, None),
    (65_536, 16_777_216, 65_536, None),
    (0, 0, 65_537, Some(CoreFault::BadConfig(Field::MsgMax))),
    (65_537, 1, 0, Some(CoreFault::BadConfig(Field::MsgMax))),
    (1, 0, 65_537, Some(CoreFault::BadConfig(Field::MsgsizeMax))),
    (
        1,
        16_777_217,
        0,
        Some(CoreFault::BadConfig(Field::MsgsizeMax)),
    ),
    (1, 1, 65_537, Some(CoreFault::BadConfig(Field::QueuesMax))),
];

/// The fault of a core with these limits.
fn fault(alloc: Global, limits: Limits) -> Result<Option<CoreFault>, Fail> {
    let config = config(alloc, FILE, limits)?;
    Ok(Core::new(alloc, config).err())
}

#[test]
fn limits_have_ranges(rt: HostRuntime) -> Result<(), Fail> {
    for (msg_max, msgsize_max, queues_max, bad) in &LIMITS {
        let limits = Limits {
            msg_max: *msg_max,
            msgsize_max: *msgsize_max,
            queues_max: *queues_max,
        };
        if fault(rt.alloc(), limits)? != *bad {
            return Err(Fail::new(format_args!("with {msg_max}, {msgsize_max} and {queues_max}")));
        }
    }
    Ok(())
}

#[test]
fn the_laws_are_there(_rt: HostRuntime) {
    laws::least();
    laws::quiet();
    laws::grow();
    laws::listed();
    laws::bound();
    laws::parked_by_place();
    laws::inside_by_place();
    laws::in_order();
    laws::parked_listed();
    laws::parked_alive();
    laws::bounded();
    laws::in_range();
    laws::counted();
    laws::rights();
    laws::within_limit();
    laws::confined();
    laws::once();
    laws::each_is_added();
    laws::all_is_kept();
    laws::take_is_its_own();
    laws::answered();
    laws::sized();
}
