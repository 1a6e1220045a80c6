//! What the records of a trail count up to.

ghost use Rattle.std.specs.Prelude.{◌≡◌, ◌+◌, ◌-◌, ◌^◌, ◌<◌, List, [], ◌∷◌, min, length, if◌then◌else◌};
ghost use Rattle.ipc_terms.specs.declared.record.Record.{Record};
ghost use Rattle.ipc_log.specs.Fields.{verdict_code};
ghost use Rattle.ipc_history.specs.Counts.{AreCounts, is_call, is_end, is_hello, is_refused_hello, is_session};

use ipc_terms::{Event, Record, Rule};

/// The verdicts: that an event is accepted, and one for each rule.
const VERDICTS: usize = 34;

/// What the records of a trail count up to.
#[derive(Clone, Copy)]
pub struct Counts {
    /// The calls, accepted or refused.
    pub calls: u64,
    /// The hellos that were accepted: each began a session.
    pub sessions: u64,
    pub refused_hellos: u64,
    /// The hang-ups that were accepted: each ended a session.
    pub ended: u64,
    /// The events of all kinds by their verdicts: those that were accepted, and behind them those that each rule refused, at its
    /// number.
    pub verdicts: [u64; VERDICTS],
}

impl Counts {
    /// Nothing is counted.
    pub fn new() -> Counts
        ensures { AreCounts result [] }
    {
        Counts {
            calls: 0,
            sessions: 0,
            refused_hellos: 0,
            ended: 0,
            verdicts: [0; VERDICTS],
        }
    }

    /// Counts a record more. A count that has reached the greatest number stays there.
    pub fn add(&mut self, added: &Record)
        ensures { (h : List Record) → length h < 2 ^ 63 → AreCounts self.old h → AreCounts self.new (added.now ∷ h) }
    {
        self.calls = raised(self.calls, is_call(added));
        self.sessions = raised(self.sessions, is_session(added));
        self.refused_hellos = raised(self.refused_hellos, is_refused_hello(added));
        self.ended = raised(self.ended, is_end(added));
        let code = code_of(added.rule);
        self.verdicts[code] = raised(self.verdicts[code], true);
    }
}

fn is_call(added: &Record) -> bool
    ensures { result ≡ is_call added.now }
{
    matches!(added.event, Event::Do { .. })
}

fn is_hello(event: &Event) -> bool
    ensures { result ≡ is_hello event.now }
{
    matches!(event, Event::Hello { .. })
}

/// Whether a session began.
fn is_session(added: &Record) -> bool
    ensures { result ≡ is_session added.now }
{
    is_hello(&added.event) && added.rule.is_none()
}

fn is_refused_hello(added: &Record) -> bool
    ensures { result ≡ is_refused_hello added.now }
{
    is_hello(&added.event) && added.rule.is_some()
}

/// Whether a session ended.
fn is_end(added: &Record) -> bool
    ensures { result ≡ is_end added.now }
{
    matches!(added.event, Event::Hangup { .. }) && added.rule.is_none()
}

/// One more, where this is one. No trail is so long that a count stops at the greatest number.
fn raised(count: u64, is_one: bool) -> u64
    ensures { result ≡ (if is_one then min (count + 1) (2 ^ 64 - 1) else count) }
{
    if is_one {
        count.saturating_add(1)
    } else {
        count
    }
}

/// 0 where the event is accepted, else the number of the rule that refuses it.
fn code_of(rule: Option<Rule>) -> usize
    ensures code { result ≡ verdict_code rule }
    ensures within { result < 34 }
{
    match rule {
        None => 0,
        Some(rule) => rule.number() as usize,
    }
}
