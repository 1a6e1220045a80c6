//! One connection, served to its end.

ghost use Rattle.std.specs.Prelude.{◌≡◌, ◌≢◌, None};
ghost use Rattle.ipc_server.specs.declared.ending.Ending.TheVariants.{StillLive};
ghost use Rattle.ipc_server.specs.Begun.{BeginsWith};

use crate::desk::{Chair, Desk, Place};
use crate::ending::{Ending, Served};
use crate::gate::Gate;
use crate::held::{Held, Origin};
use crate::journal::{Journal, NoJournal};
use crate::reading::read_and_step;
use crate::writing::write_answers;
use ipc_book::{Bell, Seat, Shared, StepFault};
use std::alloc::Global;
use std::io::{Read, Write};
use std::marker::Brand;
use std::sync::ledger::Ledger;
use std::sync::{Arc, Condvar, Mutex, Wait};
use std::thread;
use std::thread::Threads;

/// How often a hang-up that wants memory is tried.
const MOST_HANG_UPS: u32 = 1_000;

/// Serves a connection through a seat that has no session. Reads and steps on this thread, and writes answers on another,
/// so that an answer goes out at once whoever's step made it. Before the session is hung up its answers are written, unless
/// writing failed. The seat comes back whatever happens: its receipts go on from those that it came with, and unless the
/// ending is `StillLive` it has no session.
pub fn serve_connection<
    L: Ledger + Send + Sync,
    R: Threads + Wait + Sync,
    I: Read + Drop,
    O: Write + Send + Drop,
    G: Gate + Sync,
>(
    rt: &R,
    alloc: Global,
    shared: &Shared<L>,
    seat: Seat<L>,
    conn: u64,
    reader: I,
    writer: O,
    gate: &G,
) -> Served<L>
    requires { seat.sid ≡ None }
    ensures kept { BeginsWith seat.list result.seat.list }
    ensures hung_up { result.ending ≢ StillLive → result.seat.sid ≡ None }
{
    let connection = Connection {
        shared,
        gate,
        journal: &NoJournal,
        conn,
        alloc,
        reader,
        writer,
    };
    serve_told(rt, connection, seat)
}

/// Does the same, and tells the journal of it.
pub(crate) fn serve_told<
    L: Ledger + Send + Sync,
    R: Threads + Wait + Sync,
    I: Read + Drop,
    O: Write + Send + Drop,
    G: Gate + Sync,
    J: Journal + Sync,
>(rt: &R, connection: Connection<'_, L, G, J, I, O>, seat: Seat<L>) -> Served<L>
    requires { seat.sid ≡ None }
    ensures kept { BeginsWith seat.list result.seat.list }
    ensures hung_up { result.ending ≢ StillLive → result.seat.sid ≡ None }
{
    serve_from::<L, Brand, R, I, O, G, J>(rt, connection, seat)
}

/// A connection, and what it is served with.
#[derive(Drop)]
pub(crate) struct Connection<'a, L: Ledger, G, J, I, O> {
    pub(crate) shared: &'a Shared<L>,
    pub(crate) gate: &'a G,
    pub(crate) journal: &'a J,
    /// How many connections were accepted before it.
    pub(crate) conn: u64,
    pub(crate) alloc: Global,
    pub(crate) reader: I,
    pub(crate) writer: O,
}

fn serve_from<
    L: Ledger + Send + Sync,
    B: Origin + Send + Sync,
    R: Threads + Wait + Sync,
    I: Read + Drop,
    O: Write + Send + Drop,
    G: Gate + Sync,
    J: Journal + Sync,
>(rt: &R, connection: Connection<'_, L, G, J, I, O>, seat: Seat<L>) -> Served<L>
    requires none { seat.sid ≡ None }
    requires origin { seat.list ≡ B.list }
    ensures kept { BeginsWith B.list result.seat.list }
    ensures hung_up { result.ending ≢ StillLive → result.seat.sid ≡ None }
{
    let (journal, conn, before) = (connection.journal, connection.conn, seat.len());
    let Ok(bell) = Arc::new(connection.alloc, Bell::new()) else {
        journal.ended(conn, 0, Ending::NoMemory);
        return Served {
            seat,
            ending: Ending::NoMemory,
        };
    };
    let held: Held<L, B> = Held::new(seat);
    let chair = Chair {
        place: Mutex::new(Place {
            held,
            last: None,
            is_over: false,
            failure: None,
        }),
        has_room: Condvar::new(),
    };
    let desk = Desk {
        shared: connection.shared,
        chair: &chair,
        bell: &bell,
        gate: connection.gate,
        journal,
        conn,
        alloc: connection.alloc,
    };
    let ending = desk.serve(rt, connection.reader, connection.writer);
    let Chair { place, has_room: _ } = chair;
    let Place { held, failure, .. } = place.into_inner();
    let ending = failure.unwrap_or(ending);
    let requests = held.seat.len().saturating_sub(before);
    let served = hang_up(rt, connection.alloc, connection.shared, held, ending);
    journal.ended(conn, requests, served.ending);
    served
}

impl<L: Ledger + Send + Sync, B: Origin + Send + Sync, G: Gate + Sync, J: Journal + Sync> Desk<
    '_,
    L,
    B,
    G,
    J,
> {
    /// Reads and steps on this thread, and writes on another.
    fn serve<R: Threads + Wait + Sync, I: Read + Drop, O: Write + Send + Drop>(
        &self,
        rt: &R,
        reader: I,
        writer: O,
    ) -> Ending {
        thread::scope(thread::scope_env(), rt, |scope| {
            if scope
                .spawn(move || write_answers(rt, self, writer))
                .is_err()
            {
                return Ending::NoMemory;
            }
            let ending = read_and_step(rt, self, reader);
            self.finish(rt);
            ending
        })
    }
}

/// Hangs the session up, if there is one, and gives the seat back.
fn hang_up<L: Ledger, B: Origin, R: Wait>(
    rt: &R,
    alloc: Global,
    shared: &Shared<L>,
    held: Held<L, B>,
    ending: Ending,
) -> Served<L>
    ensures kept { BeginsWith B.list result.seat.list }
    ensures hung_up { result.ending ≢ StillLive → result.seat.sid ≡ None }
{
    let mut held = held;
    let session = held.sid();
    // Answers that could not be written go now: nobody can take them once the session has ended.
    drop(held.collect(rt, shared));
    for _ in 0..MOST_HANG_UPS {
        if held.sid().is_none() {
            break;
        }
        if let Err(StepFault::Stale { .. }) = held.hang_up(rt, alloc, shared) {
            break;
        }
    }
    if let Some(session) = session {
        shared.remove_bell(rt, session);
    }
    let ending = match held.sid() {
        Some(_) => Ending::StillLive,
        None => ending,
    };
    let Held { seat, of: _ } = held;
    Served { seat, ending }
}
