//! What an operator sees of a server: the page of numbers, and lines of the log.

use crate::logged::LoggedSockets;
use ipc_history::Counts;
use ipc_loop::{Host, Server};
use ipc_metrics::{Numbers, page, processor_ticks, resident_pages};
use ipc_sockets::moment;
use ipc_state::State;
use std::fs;
use std::rt::Files;
use std::sync::Wait;
use std::time::Clock;

/// How many bytes a page of memory has on x86-64.
const MEMORY_PAGE: u64 = 4_096;

/// How many seconds the log is told nothing after a line of numbers, where no other time is asked for.
const STANDARD_SECONDS: u64 = 60;

/// Sockets of a server that is looked at.
pub trait Watched<'a, R: 'a>: Host {
    fn logged(&mut self) -> &mut LoggedSockets<'a, R>;
}

/// Looks at a server between its rounds.
#[derive(Drop)]
pub struct Watch {
    rounds: u64,
    /// How many milliseconds pass between two lines of the log, at least.
    between: u64,
    /// The moment from which on the log is told, once something is recorded.
    next: u64,
    /// How many records there were when the log was told last.
    told: usize,
}

impl Watch {
    /// Looks at a server that begins now, after so many records. The log is told every so many seconds.
    pub fn new<R: Clock>(rt: &R, seconds: Option<u64>, recorded: usize) -> Watch {
        let between = seconds.unwrap_or(STANDARD_SECONDS).saturating_mul(1_000);
        Watch {
            rounds: 0,
            between,
            next: moment(rt).saturating_add(between),
            told: recorded,
        }
    }

    /// A round is over: whoever asks for numbers gets them, and the log is told some where that is due.
    pub fn look<'a, R, H>(&mut self, rt: &R, server: &Server, host: &mut H)
    where
        R: AllocGlobal + Files + Print + Eprint + Wait + Clock + 'a,
        H: Watched<'a, R>,
    {
        self.rounds = self.rounds.saturating_add(1);
        let logged = host.logged();
        let Some(tally) = &logged.tally else {
            return;
        };
        let counts = *tally.counts();
        if logged.sockets.is_asked() {
            let numbers = self.numbers(rt, server, &counts);
            // Where there is no memory, who asks waits for the next round.
            if let Ok(page) = page(rt.alloc(), &numbers) {
                logged.sockets.show(page.as_str());
            }
        }
        logged.wake = self.tell(rt, server, logged, &counts);
    }

    /// Tells the log, if that is due. The moment at which it is due next, if something is recorded already.
    fn tell<R>(
        &mut self,
        rt: &R,
        server: &Server,
        logged: &LoggedSockets<'_, R>,
        counts: &Counts,
    ) -> Option<u64>
    where
        R: AllocGlobal + Files + Print + Eprint + Wait + Clock,
    {
        let recorded = server.hub().recorded();
        if recorded == self.told || !logged.log.is_kept() {
            return None;
        }
        let now = moment(rt);
        // The clock may have been set back.
        self.next = self.next.min(now.saturating_add(self.between));
        if now < self.next {
            return Some(self.next);
        }
        logged.log.kept(&self.numbers(rt, server, counts));
        self.told = recorded;
        self.next = now.saturating_add(self.between);
        None
    }

    /// The numbers of the server now.
    fn numbers<R: AllocGlobal + Files>(&self, rt: &R, server: &Server, counts: &Counts) -> Numbers {
        let hub = server.hub();
        let state = hub.core().state();
        let objects = state.tables().counts();
        let recorded = hub.recorded() as u64;
        Numbers {
            sessions: counts.sessions.saturating_sub(counts.ended),
            connections: server.connections() as u64,
            queues: objects.queues,
            semaphores: objects.semaphores,
            messages: objects.messages,
            message_bytes: objects.bytes,
            charged_bytes: charged(state),
            recorded,
            kept: recorded.saturating_sub(hub.first_kept()),
            kept_bytes: hub.record_bytes(),
            verdicts: counts.verdicts,
            rounds: self.rounds,
            processor_ticks: ticks_so_far(rt),
            resident: pages_now(rt).saturating_mul(MEMORY_PAGE),
        }
    }
}

/// How many bytes the queues of all users take of their limits.
fn charged(state: &State) -> u64 {
    let charges = state.tables().charges();
    let mut bytes: u64 = 0;
    for user in state.config().users.as_slice() {
        bytes = bytes.saturating_add(charges.used(user.cred.uid));
    }
    bytes
}

/// How much processor time the process took, in ticks; 0 where the system doesn't tell.
fn ticks_so_far<R: AllocGlobal + Files>(rt: &R) -> u64 {
    match fs::read_to_string(rt, "/proc/self/stat") {
        Ok(text) => processor_ticks(text.as_str()).unwrap_or(0),
        Err(_) => 0,
    }
}

/// How many pages of memory are resident; 0 where the system doesn't tell.
fn pages_now<R: AllocGlobal + Files>(rt: &R) -> u64 {
    match fs::read_to_string(rt, "/proc/self/statm") {
        Ok(text) => resident_pages(text.as_str()).unwrap_or(0),
        Err(_) => 0,
    }
}
