//! Workers: threads that each serve one connection at a time.

ghost use Rattle.std.specs.Prelude.{◌≡◌, ◌≤◌, ◌+◌, true, IfOk, vec_len, vec_capacity};

use crate::ending::Ending;
use crate::gate::Gate;
use crate::journal::{Journal, NoJournal};
use crate::links::{Link, LinkReader, LinkWriter, Listen};
use crate::serve::{Connection, serve_told};
use crossbeam_channel::{Receiver, Sender, bounded};
use ipc_book::{Seat, Shared};
use std::alloc::Global;
use std::io::ErrorKind;
use std::sync::Wait;
use std::sync::ledger::Ledger;
use std::thread;
use std::thread::{JoinHandle, Scope, Threads};

/// Why workers ended before they had served all that they were to serve.
#[derive(Clone, Copy, PartialEq, Eq)]
pub enum WorkersFault {
    /// No further connection can be accepted.
    AcceptFailed,
    /// A seat, the channel or a thread could not be made.
    NoMemory,
}

/// A connection, and how many were accepted before it.
#[derive(Drop)]
pub(crate) struct Accepted<C> {
    number: u64,
    link: C,
}

/// What the workers share.
#[derive(Drop)]
pub(crate) struct Crew<'a, L: Ledger, C, G, J> {
    shared: &'a Shared<L>,
    accepted: Receiver<Accepted<C>>,
    gate: &'a G,
    journal: &'a J,
    alloc: Global,
}

/// Accepts connections on this thread and serves each on one of so many workers, which serve one at a time: who
/// connects while all are busy waits. Ends once as many connections as `stop_after` says were accepted and have ended;
/// without it, when no more can be accepted. One seat is made for each worker, and each seat that was made comes back in
/// every case.
pub fn run_workers<
    L: Ledger + Send + Sync,
    R: Threads + Wait + Sync,
    C: Link + Send + Sync + Drop,
    N: Listen<Conn = C>,
    G: Gate + Sync,
>(
    rt: &R,
    alloc: Global,
    listener: &N,
    shared: &Shared<L>,
    workers: usize,
    stop_after: Option<u64>,
    gate: &G,
) -> Result<Vec<Seat<L>>, (WorkersFault, Vec<Seat<L>>)>
    requires { 1 ≤ workers }
    ensures { IfOk result (λ seats. vec_len seats ≡ workers) }
{
    run_workers_with_journal(
        rt, alloc, listener, shared, workers, stop_after, gate, &NoJournal,
    )
}

/// Does the same as `run_workers`, and tells the journal of each connection.
pub fn run_workers_with_journal<
    L: Ledger + Send + Sync,
    R: Threads + Wait + Sync,
    C: Link + Send + Sync + Drop,
    N: Listen<Conn = C>,
    G: Gate + Sync,
    J: Journal + Sync,
>(
    rt: &R,
    alloc: Global,
    listener: &N,
    shared: &Shared<L>,
    workers: usize,
    stop_after: Option<u64>,
    gate: &G,
    journal: &J,
) -> Result<Vec<Seat<L>>, (WorkersFault, Vec<Seat<L>>)>
    requires { 1 ≤ workers }
    ensures { IfOk result (λ seats. vec_len seats ≡ workers) }
{
    let (seats, is_whole) = seat_all(rt, alloc, shared, workers);
    if !is_whole {
        return Err((WorkersFault::NoMemory, seats));
    }
    let Ok(handles) = Vec::with_capacity(alloc, workers) else {
        return Err((WorkersFault::NoMemory, seats));
    };
    let Ok((sender, accepted)) = bounded(alloc, 1) else {
        return Err((WorkersFault::NoMemory, seats));
    };
    let crew = Crew {
        shared,
        accepted,
        gate,
        journal,
        alloc,
    };
    let (seats, result) = crew.serve_accepted(rt, listener, sender, stop_after, seats, handles);
    match result {
        Ok(()) => Ok(seats),
        Err(fault) => Err((fault, seats)),
    }
}

/// A seat for each worker, and whether there was memory for all.
fn seat_all<L: Ledger, R: Wait>(
    rt: &R,
    alloc: Global,
    shared: &Shared<L>,
    workers: usize,
) -> (Vec<Seat<L>>, bool)
    ensures room { vec_len result.0 ≤ vec_capacity result.0 }
    ensures all { result.1 ≡ true → vec_len result.0 ≡ workers }
{
    let Ok(mut seats) = Vec::with_capacity(alloc, workers) else {
        return (Vec::new(alloc), false);
    };
    for _ in 0..workers {
        let Ok(seat) = shared.seat(rt, alloc) else {
            return (seats, false);
        };
        seats.push_reserved(seat);
    }
    (seats, true)
}

impl<L: Ledger + Send + Sync, C: Link + Send + Sync + Drop, G: Gate + Sync, J: Journal + Sync> Crew<
    '_,
    L,
    C,
    G,
    J,
> {
    /// Starts the workers, accepts connections for them, and waits for their ends.
    fn serve_accepted<R: Threads + Wait + Sync, N: Listen<Conn = C>>(
        &self,
        rt: &R,
        listener: &N,
        sender: Sender<Accepted<C>>,
        stop_after: Option<u64>,
        seats: Vec<Seat<L>>,
        handles: Vec<JoinHandle<Seat<L>>>,
    ) -> (Vec<Seat<L>>, Result<(), WorkersFault>)
        requires none { vec_len handles ≡ 0 }
        requires room { vec_len seats ≤ vec_capacity handles }
        ensures { vec_len result.0 ≡ vec_len seats }
    {
        thread::scope(
            thread::scope_env(),
            rt,
            move |scope| -> (Vec<Seat<L>>, Result<(), WorkersFault>)
                requires { (vec_len handles ≡ 0) × (vec_len seats ≤ vec_capacity handles) }
                ensures { vec_len result.0 ≡ vec_len seats }
            {
                let mut seats = seats;
                let mut handles = handles;
                let started = start_all(rt, scope, self, sender, &mut seats, &mut handles);
                let result = match started {
                    Some(sender) => accept_all(rt, listener, sender, stop_after),
                    None => Err(WorkersFault::NoMemory),
                };
                join_all(rt, handles, &mut seats);
                (seats, result)
            },
        )
    }

    /// Serves connections until no more come, and gives the seat back.
    fn work<R: Threads + Wait + Sync>(&self, rt: &R, seat: Seat<L>) -> Seat<L> {
        let mut seat = seat;
        for _ in rt.forever() {
            let Ok(accepted) = self.accepted.recv(rt) else {
                return seat;
            };
            seat = self.serve_one(rt, seat, accepted);
        }
        unreachable!()
    }

    /// Serves one connection. Where the session before it could not be hung up for want of memory, and still can't be,
    /// the connection is hung up at once.
    fn serve_one<R: Threads + Wait + Sync>(
        &self,
        rt: &R,
        seat: Seat<L>,
        accepted: Accepted<C>,
    ) -> Seat<L> {
        let mut seat = seat;
        self.journal.begun(accepted.number, accepted.link.peer());
        if seat.sid().is_some() {
            let _ = self.shared.hang_up(rt, self.alloc, &mut seat);
        }
        if seat.sid().is_some() {
            self.journal.ended(accepted.number, 0, Ending::StillLive);
            return seat;
        }
        let connection = Connection {
            shared: self.shared,
            gate: self.gate,
            journal: self.journal,
            conn: accepted.number,
            alloc: self.alloc,
            reader: LinkReader(&accepted.link),
            writer: LinkWriter(&accepted.link),
        };
        serve_told(rt, connection, seat).seat
    }
}

/// Starts a worker on each seat. Gives the channel's end back if all were started. Else closes it, and keeps the seats
/// of those that were not.
fn start_all<
    's,
    E: 's,
    L: Ledger + Send + Sync,
    R: Threads + Wait + Sync,
    C: Link + Send + Sync + Drop,
    G: Gate + Sync,
    J: Journal + Sync,
>(
    rt: &'s R,
    scope: &'s Scope<'s, E>,
    crew: &'s Crew<'s, L, C, G, J>,
    sender: Sender<Accepted<C>>,
    seats: &mut Vec<Seat<L>>,
    handles: &mut Vec<JoinHandle<Seat<L>>>,
) -> Option<Sender<Accepted<C>>>
    requires room { vec_len seats.old + vec_len handles.old ≤ vec_capacity handles.old }
    ensures count { vec_len seats.new + vec_len handles.new ≡ vec_len seats.old + vec_len handles.old }
    ensures capacity { vec_capacity seats.old ≤ vec_capacity seats.new }
{
    while let Some(seat) = seats.pop() {
        match scope.spawn(move || crew.work(rt, seat)) {
            Ok(handle) => handles.push_reserved(handle),
            Err(refused) => {
                // There is no thread for it, so it ends here, at once: nobody sends any more.
                drop(sender);
                seats.push_reserved((refused.value)());
                return None;
            }
        }
    }
    Some(sender)
}

/// Waits for the workers' ends, and takes their seats.
fn join_all<L: Ledger, R: Threads>(
    rt: &R,
    handles: Vec<JoinHandle<Seat<L>>>,
    seats: &mut Vec<Seat<L>>,
)
    requires { vec_len seats.old + vec_len handles ≤ vec_capacity seats.old }
    ensures { vec_len seats.new ≡ vec_len seats.old + vec_len handles }
{
    for handle in handles {
        seats.push_reserved(handle.join(rt));
    }
}

/// Accepts so many connections, or all, and hands each to the worker that is free first.
fn accept_all<R: Wait, C: Link + Drop, N: Listen<Conn = C>>(
    rt: &R,
    listener: &N,
    sender: Sender<Accepted<C>>,
    stop_after: Option<u64>,
) -> Result<(), WorkersFault> {
    for number in 0..stop_after.unwrap_or(u64::MAX) {
        let Some(link) = accept_one(rt, listener) else {
            return Err(WorkersFault::AcceptFailed);
        };
        if sender.send(rt, Accepted { number, link }).is_err() {
            return Err(WorkersFault::NoMemory);
        }
    }
    Ok(())
}

/// The next connection. One that broke off before it was accepted is passed over.
fn accept_one<R: Wait, N: Listen>(rt: &R, listener: &N) -> Option<N::Conn> {
    for _ in rt.forever() {
        match listener.accept() {
            Ok(link) => return Some(link),
            Err(error) => match error.kind() {
                ErrorKind::Interrupted | ErrorKind::ConnectionAborted => {}
                _ => return None,
            },
        }
    }
    unreachable!()
}
