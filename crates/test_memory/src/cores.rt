//! Cores.

use crate::fault::Fault;
use crate::made::{act, are_lines, config, put_lines};
use crate::subject::{Fresh, Subject};
use ipc_core::Core;
use ipc_terms::{Answer, Event, Rule, Sid, Uid};
use ipc_words::put_line;
use std::alloc::Global;

/// What happens.
pub enum Asked {
    Hello(Option<Uid>),
    Act(u64, &'static str),
    HangUp(u64),
    Tick(u64),
}

pub enum Step {
    /// Steps an event; the lines of what is answered, each behind its session.
    Make(Asked, &'static str),
    /// Posts an event; the rule that refuses it, whom it answers first, and whom second.
    Put(Asked, Option<Rule>, Option<Sid>, Option<Sid>),
    /// Runs events, of which none is refused memory in the end.
    Run(&'static [Asked]),
    /// The lines of what the session takes.
    Take(u64, &'static str),
}

use Asked::{Act, HangUp, Hello, Tick};
use Step::{Make, Put, Run, Take};

const ANN: Asked = Hello(Some(Uid(1000)));

const BOB: Asked = Hello(Some(Uid(1001)));

/// How often a run is made.
const RUNS: usize = 3;

/// Whom a session of ann's and one of bob's are.
const ANNS: Option<Sid> = Some(Sid(0));

const BOBS: Option<Sid> = Some(Sid(1));

pub static CASES: [(&str, &[Step]); 5] = [
    (
        "Core::step",
        &[
            Make(ANN, "0 started 0\n"),
            Make(BOB, "1 started 1\n"),
            Make(
                Hello(None),
                "18446744073709551615 refused 31 EACCES BadKey\n",
            ),
            Make(Act(0, "umask 000"), "0 mask 022\n"),
            Make(
                Act(
                    0,
                    "mq-open /q rw --create --mode 0666 --maxmsg 1 --msgsize 8",
                ),
                "0 opened 0\n",
            ),
            Make(
                Act(0, "mq-open /q rw --create --excl"),
                "0 refused 14 EEXIST Present\n",
            ),
            Make(Act(1, "mq-open /q rw"), "1 opened 1\n"),
            Make(Act(1, "mq-notify 1 on"), "1 done\n"),
            Make(Act(0, "mq-send 0 5 hi"), "0 sent\n1 notice 1\n"),
            Make(Act(0, "mq-send 0 9 ho"), ""),
            Make(Act(1, "mq-receive 1 8"), "1 received 5 hi\n0 sent\n"),
            Make(Act(1, "mq-receive 1 8"), "1 received 9 ho\n"),
            Make(Act(1, "mq-receive 1 8"), ""),
            Make(Act(0, "mq-send 0 0 hu"), "0 sent\n1 received 0 hu\n"),
            Make(Act(0, "mq-getattr 0"), "0 attrs 0 1 8 0\n"),
            Make(Act(0, "mq-setattr 0 nonblock"), "0 attrs 0 1 8 0\n"),
            Make(Act(0, "sem-open /s --create --mode 0666"), "0 opened 2\n"),
            Make(Act(0, "sem-wait 2"), ""),
            Make(Act(0, "interrupt"), "0 interrupted EINTR\n0 done\n"),
            Make(Act(1, "sem-open /s"), "1 opened 3\n"),
            Make(Act(1, "sem-wait 3"), ""),
            Make(Act(0, "sem-post 2"), "0 done\n1 done\n"),
            Make(Act(0, "sem-post 2"), "0 done\n"),
            Make(Act(0, "sem-getvalue 2"), "0 value 1\n"),
            Make(Act(0, "sem-trywait 2"), "0 done\n"),
            Make(Act(0, "chmod 0600 mq /q"), "0 done\n"),
            Make(Act(0, "chown keep 50 mq /q"), "0 done\n"),
            Make(Act(0, "stat mq /q"), "0 stat 1000 50 0600\n"),
            Make(Act(0, "ls mq 0 9"), "0 names 1 /q\n"),
            Make(Act(0, "set-limit 1000 9"), "0 refused 6 EPERM NotAdmin\n"),
            Make(Act(0, "mq-unlink /q"), "0 done\n"),
            Make(Act(0, "mq-close 0"), "0 done\n"),
            Make(Act(0, "sem-close 2"), "0 done\n"),
            Make(Act(0, "sem-unlink /s"), "0 done\n"),
            Make(HangUp(1), ""),
            Make(Hello(Some(Uid(0))), "2 started 2\n"),
            Make(
                Act(2, "audit 33 2"),
                "2 records 2 33:0:sem-unlink:0:/s 34:1:hangup:0:hex:\n",
            ),
            Take(
                1,
                "started 1\nopened 1\ndone\nnotice 1\nreceived 5 hi\nreceived 9 ho\nreceived 0 hu\nopened 3\ndone\n",
            ),
            Take(1, ""),
        ],
    ),
    (
        "Core::step of timed calls",
        &[
            Make(ANN, "0 started 0\n"),
            Make(BOB, "1 started 1\n"),
            Make(Act(0, "umask 000"), "0 mask 022\n"),
            Make(
                Act(
                    0,
                    "mq-open /q rw --create --mode 0666 --maxmsg 1 --msgsize 8",
                ),
                "0 opened 0\n",
            ),
            Make(Act(1, "mq-open /q rw"), "1 opened 1\n"),
            Make(Act(0, "mq-timedreceive 0 8 5"), ""),
            Make(Act(1, "mq-timedreceive 1 8 5"), ""),
            Make(Tick(4), ""),
            Make(Tick(9), "0 refused 32 ETIMEDOUT TimedOut\n"),
            Make(Act(0, "mq-timedsend 0 3 0 p"), "0 sent\n1 received 3 p\n"),
            Make(Act(0, "mq-timedsend 0 0 0 q"), "0 sent\n"),
            Make(
                Act(0, "mq-timedsend 0 3 9 r"),
                "0 refused 32 ETIMEDOUT TimedOut\n",
            ),
            Make(Act(0, "mq-timedsend 0 3 12 s"), ""),
            Make(Act(1, "sem-open /s --create"), "1 opened 2\n"),
            Make(Act(1, "sem-timedwait 2 11"), ""),
            Make(Tick(12), "0 refused 32 ETIMEDOUT TimedOut\n"),
            Make(Tick(0), "1 refused 32 ETIMEDOUT TimedOut\n"),
            Make(Tick(12), ""),
            Make(Act(1, "sem-timedwait 2 13"), ""),
            Make(Act(1, "interrupt"), "1 interrupted EINTR\n1 done\n"),
            Make(Tick(20), ""),
        ],
    ),
    (
        "Core::step of gives",
        &[
            Make(ANN, "0 started 0\n"),
            Make(BOB, "1 started 1\n"),
            Make(Act(0, "mq-open /h rw --create"), "0 opened 0\n"),
            Make(Act(0, "mq-notify 0 on"), "0 done\n"),
            Make(Act(0, "mq-give 0 0"), "0 refused 33 ESRCH NoTaker\n"),
            Make(Act(0, "mq-give 0 1"), "0 done\n1 taken 0\n"),
            Make(Act(0, "mq-send 0 0 x"), "0 refused 8 EBADF BadDescr\n"),
            Make(Act(1, "mq-send 0 0 x"), "1 sent\n"),
            Make(Act(1, "mq-receive 0 8192"), "1 received 0 x\n"),
            Make(HangUp(0), ""),
            Make(Act(1, "mq-give 0 0"), "1 refused 33 ESRCH NoTaker\n"),
            Make(Act(1, "mq-close 0"), "1 done\n"),
        ],
    ),
    (
        "Core::post",
        &[
            Put(ANN, None, ANNS, None),
            Put(BOB, None, BOBS, None),
            Put(
                Act(0, "mq-open /q rw --create --mode 0666"),
                None,
                ANNS,
                None,
            ),
            Put(Act(1, "mq-open /q rw"), Some(Rule::ModeDenied), BOBS, None),
            Put(Act(0, "mq-receive 0 8192"), None, None, None),
            Put(Act(0, "interrupt"), None, ANNS, ANNS),
            Put(Act(0, "mq-send 0 0 hi"), None, ANNS, None),
            Put(HangUp(1), None, None, None),
            Put(HangUp(1), Some(Rule::NoSession), BOBS, None),
            Take(0, "started 0\nopened 0\ninterrupted EINTR\ndone\nsent\n"),
            Take(1, "started 1\nrefused 15 EACCES ModeDenied\n"),
        ],
    ),
    (
        "Core::run",
        &[
            Make(ANN, "0 started 0\n"),
            Run(&[
                BOB,
                Act(0, "mq-open /q rw --create --maxmsg 1 --msgsize 8"),
                Act(0, "mq-send 0 5 hi"),
                Act(0, "mq-send 0 5 ho"),
                HangUp(1),
                Act(0, "interrupt"),
            ]),
            Take(0, "started 0\nopened 0\nsent\ninterrupted EINTR\ndone\n"),
            Make(Act(0, "mq-getattr 0"), "0 attrs 0 1 8 1\n"),
        ],
    ),
];

fn event(alloc: Global, asked: &Asked) -> Result<Event, Fault> {
    match asked {
        Hello(found) => Ok(Event::Hello { found: *found }),
        Act(session, command) => act(alloc, *session, command),
        HangUp(session) => Ok(Event::Hangup { sid: Sid(*session) }),
        Tick(moment) => Ok(Event::Tick { moment: *moment }),
    }
}

fn events(alloc: Global, asked: &[Asked]) -> Result<Vec<Event>, Fault> {
    let mut events = Vec::new(alloc);
    for one in asked {
        events.push(event(alloc, one)?)?;
    }
    Ok(events)
}

/// The lines of answers, each behind its session.
fn told(alloc: Global, given: &[(Sid, Answer)]) -> Result<String, Fault> {
    let mut text = String::new(alloc);
    for (sid, answer) in given {
        write!(text, "{} ", sid.0)?;
        put_line(&mut text, answer)?;
        text.push_str("\n")?;
    }
    Ok(text)
}

/// Steps the event, and says whether these are the lines of what it is answered.
fn makes(core: &mut Core, alloc: Global, asked: &Asked, lines: &str) -> Result<bool, Fault> {
    let asked = event(alloc, asked)?;
    let given = core.step(alloc, asked)?;
    match told(alloc, &given) {
        Ok(text) => Ok(text.as_str() == lines),
        Err(fault) => Err(fault.of_case()),
    }
}

/// Posts the event, and says whether this is what it did.
fn puts(
    core: &mut Core,
    alloc: Global,
    asked: &Asked,
    rule: Option<Rule>,
    answered: (Option<Sid>, Option<Sid>),
) -> Result<bool, Fault> {
    let asked = event(alloc, asked)?;
    let posted = core.post(alloc, asked)?;
    Ok(posted.verdict == rule && (posted.caller, posted.other) == answered)
}

/// Runs events. Where a run is refused memory, so many events stand as it says, and the rest are run again.
fn runs(core: &mut Core, alloc: Global, asked: &[Asked]) -> Result<bool, Fault> {
    let mut rest = asked;
    for _ in 0..RUNS {
        let before = core.trail().len();
        let events = events(alloc, rest)?;
        let Err((stand, _fault)) = core.run(alloc, events) else {
            return Ok(core.trail().len() == before.wrapping_add(rest.len()));
        };
        if core.trail().len() != before.wrapping_add(stand) || stand > rest.len() {
            return Ok(false);
        }
        rest = &rest[stand..];
    }
    Err(Fault::Refused)
}

/// Whether these are the lines of what the session takes.
fn takes(core: &mut Core, alloc: Global, session: u64, lines: &str) -> Result<bool, Fault> {
    are_lines(alloc, &core.take(Sid(session)), lines)
}

/// How many records the trail has, and what the first three sessions have not taken.
pub fn seen_of(core: &Core, alloc: Global) -> Result<String, Fault> {
    let mut text = format!(in alloc; "{}\n", core.trail().len())?;
    for session in 0..3 {
        write!(text, "{session}: {}\n", core.waiting(Sid(session)))?;
        put_lines(&mut text, core.answers(Sid(session)))?;
    }
    Ok(text)
}

impl Subject for Core {
    type Step = Step;

    /// The verdict on the event of the step, and what is seen.
    type Seen = (Option<Rule>, String);

    fn gives(&mut self, alloc: Global, step: &Step) -> Result<bool, Fault> {
        match step {
            Make(asked, lines) => makes(self, alloc, asked, lines),
            Put(asked, rule, caller, other) => {
                puts(self, alloc, asked, *rule, (*caller, *other))
            }
            Run(asked) => match runs(self, alloc, asked) {
                Ok(all_stand) => Ok(all_stand),
                Err(fault) => Err(fault.of_case()),
            },
            Take(session, lines) => takes(self, alloc, *session, lines),
        }
    }

    fn seen(&self, alloc: Global, step: &Step) -> Result<Self::Seen, Fault> {
        let verdict = match step {
            Make(asked, _) | Put(asked, ..) => self.decide(&event(alloc, asked)?),
            Run(_) | Take(..) => None,
        };
        Ok((verdict, seen_of(self, alloc)?))
    }
}

impl Fresh for Core {
    fn fresh(alloc: Global) -> Result<Core, Fault> {
        Ok(Core::new(alloc, config(alloc)?)?)
    }
}
