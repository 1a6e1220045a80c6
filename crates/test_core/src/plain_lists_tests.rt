//! Many events of three sessions, against lists that are kept without any table.

use crate::cores::core_of;
use ipc_core::Core;
use ipc_descr::Descrs;
use ipc_terms::{Access, Answer, Call, Desc, Event, NoMemory, OpenFlags, Rule, Sid, Uid};
use std::alloc::Global;
use std::test::Fail;
use test_made::{act, open, receive, send};

const FILE: &[u8] = b"ann:ka1:1000:1000::\n";

const EVENTS: u32 = 50_000;

const SESSIONS: u64 = 3;

/// How many messages a queue has room for, where nothing else is said.
const ROOM: usize = 10;

/// The number of the queue of the test.
const QUEUE: u64 = 0;

/// What a session asks for: each message is its own number.
#[derive(Clone, Copy)]
enum Asked {
    Open,
    Close(u64),
    Send(u64, u32, u32),
    Receive(u64),
}

/// What is answered.
#[derive(Clone, Copy)]
enum Wanted {
    Opened(u64),
    Done,
    Sent,
    Received(u32, u32),
    Refused(Rule),
}

/// Who holds which description, in order of opening, and the messages of the queue in order of entry, each with its
/// priority.
#[derive(Drop)]
struct Lists {
    held: Vec<(u64, u64)>,
    messages: Vec<(u32, u32)>,
    opens: u64,
}

impl Lists {
    fn holds(&self, session: u64, desc: u64) -> bool {
        self.held.contains(&(session, desc))
    }

    /// How many descriptions the session holds.
    fn count(&self, session: u64) -> usize {
        let mut count = 0_usize;
        for (holder, _) in &self.held {
            if *holder == session {
                count = count.wrapping_add(1);
            }
        }
        count
    }

    fn opened(&mut self, session: u64) -> Result<Wanted, NoMemory> {
        let desc = self.opens;
        self.held.push((session, desc))?;
        self.opens = desc.wrapping_add(1);
        Ok(Wanted::Opened(desc))
    }

    fn closed(&mut self, session: u64, desc: u64) -> Wanted {
        self.held.retain(|held| *held != (session, desc));
        Wanted::Done
    }

    fn sent(&mut self, priority: u32, number: u32) -> Result<Wanted, NoMemory> {
        if self.messages.len() >= ROOM {
            return Ok(Wanted::Refused(Rule::WouldBlock));
        }
        self.messages.push((priority, number))?;
        Ok(Wanted::Sent)
    }

    /// The greatest priority, where there is a message.
    fn greatest(&self) -> u32 {
        let mut greatest = 0;
        for (priority, _) in &self.messages {
            if *priority > greatest {
                greatest = *priority;
            }
        }
        greatest
    }

    /// The earliest of the greatest priority.
    fn received(&mut self) -> Wanted {
        let greatest = self.greatest();
        let next = self
            .messages
            .iter()
            .position(|message| message.0 == greatest);
        match next {
            Some(index) => {
                let (priority, number) = self.messages.remove(index);
                Wanted::Received(priority, number)
            }
            None => Wanted::Refused(Rule::WouldBlock),
        }
    }

    /// What the call is answered, and what it makes of the lists.
    fn step(&mut self, session: u64, asked: &Asked) -> Result<Wanted, NoMemory> {
        match *asked {
            Asked::Open => self.opened(session),
            Asked::Close(desc) | Asked::Send(desc, _, _) | Asked::Receive(desc)
                if !self.holds(session, desc) => { Ok(Wanted::Refused(Rule::BadDescr)) }
            Asked::Close(desc) => Ok(self.closed(session, desc)),
            Asked::Send(_, priority, number) => self.sent(priority, number),
            Asked::Receive(_) => Ok(self.received()),
        }
    }

    /// Who asks for what, by a random number: mostly by a description that the session holds.
    fn asked(&self, random: u64, number: u32) -> (u64, Asked) {
        let kind = (random >> 60) as u32;
        let (session, desc) = match self
            .held
            .get((random >> 20) as usize % (self.held.len() + 1))
        {
            Some(held) => *held,
            None => (random >> 50 & 1, 0),
        };
        match kind {
            0 => (random >> 40 & 1, Asked::Open),
            1 => (SESSIONS - 1, Asked::Open),
            2 | 3 => (session, Asked::Close(desc)),
            4 => (SESSIONS - 1, Asked::Receive(desc)),
            5..=10 => (
                session,
                Asked::Send(desc, (random >> 32) as u32 % 5, number),
            ),
            _ => (session, Asked::Receive(desc)),
        }
    }
}

fn call_of(alloc: Global, asked: &Asked) -> Result<Call, NoMemory> {
    Ok(match *asked {
        Asked::Open => open(alloc, b"/q", OpenFlags::CREATE | OpenFlags::NONBLOCK, 0o600)?,
        Asked::Close(desc) => Call::MqClose(Desc(desc)),
        Asked::Send(desc, priority, number) => {
            send(alloc, desc, priority, &number.to_be_bytes())?
        }
        Asked::Receive(desc) => receive(desc),
    })
}

fn is_wanted(answer: &Answer, wanted: &Wanted) -> bool {
    match (answer, wanted) {
        (Answer::Opened(desc), Wanted::Opened(number)) => desc.0 == *number,
        (Answer::Done, Wanted::Done) | (Answer::Sent, Wanted::Sent) => true,
        (Answer::Received { priority, bytes }, Wanted::Received(greatest, number)) => {
            priority == greatest && bytes.as_slice() == number.to_be_bytes().as_slice()
        }
        (Answer::Refused(rule), Wanted::Refused(least)) => rule == least,
        _ => false,
    }
}

/// Makes the same change of the descriptions by themselves.
fn follow(descrs: &mut Descrs, session: u64, wanted: &Wanted, asked: &Asked) -> Result<(), Fail> {
    match (wanted, asked) {
        (Wanted::Opened(_), _) if descrs.opened() < 1 << 63 => {
            descrs.open(Sid(session), QUEUE, Access::Both, true)?;
        }
        (Wanted::Done, Asked::Close(desc)) => {
            descrs.close(Sid(session), Desc(*desc));
        }
        _ => {}
    }
    Ok(())
}

/// Whether the descriptions are as many as in the list, of the session and of the queue.
fn are_counted(descrs: &Descrs, lists: &Lists, session: u64) -> bool {
    descrs.count(Sid(session)) == lists.count(session) && descrs.uses(QUEUE) == lists.held.len()
}

/// The core, the descriptions by themselves, and the lists.
#[derive(Drop)]
struct Compared {
    core: Core,
    descrs: Descrs,
    lists: Lists,
}

impl Compared {
    /// A core of one user, no descriptions, and empty lists.
    fn new(alloc: Global) -> Result<Compared, Fail> {
        Ok(Compared {
            core: core_of(alloc, FILE)?,
            descrs: Descrs::new(alloc),
            lists: Lists {
                held: Vec::new(alloc),
                messages: Vec::new(alloc),
                opens: 0,
            },
        })
    }

    /// Makes the step, and says whether all agree on it.
    fn agree(&mut self, alloc: Global, session: u64, asked: &Asked) -> Result<bool, Fail> {
        let wanted = self.lists.step(session, asked)?;
        follow(&mut self.descrs, session, &wanted, asked)?;
        let call = call_of(alloc, asked)?;
        let answers = self.core.step(alloc, act(session, call))?;
        self.core.take(Sid(session));
        Ok(match answers.as_slice() {
            [(to, answer)] => {
                to.0 == session
                    && is_wanted(answer, &wanted)
                    && are_counted(&self.descrs, &self.lists, session)
            }
            _ => false,
        })
    }

    /// Starts the sessions, and gives the first event on which they disagree, if there is one.
    fn first_disagreement(&mut self, alloc: Global) -> Result<Option<u32>, Fail> {
        start_sessions(&mut self.core, alloc)?;
        let mut random: u64 = 1;
        for number in 0..EVENTS {
            random = random
                .wrapping_mul(6_364_136_223_846_793_005)
                .wrapping_add(1_442_695_040_888_963_407);
            let (session, asked) = self.lists.asked(random, number);
            if !self.agree(alloc, session, &asked)? {
                return Ok(Some(number));
            }
        }
        Ok(None)
    }
}

/// Starts three sessions of the user.
fn start_sessions(core: &mut Core, alloc: Global) -> Result<(), Fail> {
    for _ in 0..SESSIONS {
        let found = Some(Uid(1000));
        core.step(alloc, Event::Hello { found })?;
    }
    Ok(())
}

/// A call drops the comparison: the proof of any other drop is long.
fn disagreement(alloc: Global) -> Result<Option<u32>, Fail> {
    let mut compared = Compared::new(alloc)?;
    let found = compared.first_disagreement(alloc);
    drop(compared);
    found
}

#[test]
fn many_events_are_answered_as_plain_lists_say(rt: HostRuntime) -> Result<(), Fail> {
    match disagreement(rt.alloc())? {
        Some(number) => Err(Fail::new(format_args!("event {number} is answered otherwise"))),
        None => Ok(()),
    }
}
