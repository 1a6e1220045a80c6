//! Serving connections: what both servers have in common, and the one of workers.

ghost use Rattle.std.specs.Prelude.{◌≡◌, ◌≤◌, ◌^◌, None};

use crate::journal::LogOfWorkers;
use crate::log::open_log;
use crate::one_thread::serve_on_one_thread;
use crate::ticking::{ServerClock, start_ticker};
use ipc_access::Users;
use ipc_book::{Book, Shared};
use ipc_core::Config;
use ipc_program::{ProgramFault, Serving, Threading, say, users_of};
use ipc_script::ScriptFault;
use ipc_server::{Journal, Link, Listen, OpenGate, WorkersFault, run_workers_with_journal};
use ipc_sockets::{listen_at_file, path_of, probe_silent_peers};
use std::alloc::Global;
use std::fs::File;
use std::marker::Brand;
use std::net::{Net, TcpListener, TcpStream};
use std::rt::Files;
use std::sync::Wait;
use std::sync::ledger::{Blank, Ledger};
use std::thread::Threads;
use std::time::Clock;
use std::{fs, io, thread};

/// Serves as many connections as are asked for, or until none can be accepted any more, and says how many were served.
pub fn serve<
    R: AllocGlobal
        + Clone
        + Drop
        + Files<File = File>
        + Print
        + Eprint
        + Net<Listener = TcpListener, Stream = TcpStream>
        + Threads
        + Wait
        + Clock
        + Sync,
>(rt: &R, serving: &Serving) -> Result<(), ProgramFault> {
    let file = match fs::read(rt, serving.users.as_str()) {
        Ok(file) => file,
        Err(error) => return Err(ProgramFault::of_file(&error)),
    };
    let config = Config {
        users: users_of(rt.alloc(), &file)?,
        limits: serving.limits,
    };
    match serving.threading {
        Threading::Workers(workers) => {
            let users = users_of(rt.alloc(), &file)?;
            serve_by_workers(rt, serving, workers, config, users)?;
        }
        Threading::OneThread(connections, kept) => {
            serve_on_one_thread(rt, serving, connections, kept, config)?
        }
    }
    say(rt, "served", serving.stop_after.unwrap_or(u64::MAX))
}

/// Serves by workers, whose log tells which of these users a connection is of.
fn serve_by_workers<
    R: AllocGlobal
        + Files<File = File>
        + Print
        + Eprint
        + Net<Listener = TcpListener, Stream = TcpStream>
        + Threads
        + Wait
        + Clock
        + Sync,
>(
    rt: &R,
    serving: &Serving,
    workers: usize,
    config: Config,
    users: Users,
) -> Result<(), ProgramFault>
    requires somebody { 1 ≤ workers }
{
    let log = open_log(rt, &serving.log, workers);
    let journal = LogOfWorkers { log: &log, users };
    serve_book::<Brand, R, LogOfWorkers<'_, R>>(
        rt,
        serving,
        workers,
        config,
        &journal,
        Blank::new(1 << 63),
    )
}

/// Serves by workers, over a new book.
fn serve_book<
    L: Ledger + Send + Sync,
    R: AllocGlobal
        + Files<File = File>
        + Print
        + Net<Listener = TcpListener, Stream = TcpStream>
        + Threads
        + Wait
        + Clock
        + Sync,
    J: Journal + Sync,
>(
    rt: &R,
    serving: &Serving,
    workers: usize,
    config: Config,
    journal: &J,
    blank: Blank,
) -> Result<(), ProgramFault>
    requires name { blank.name ≡ L.name }
    requires parts { blank.parts ≡ L.parts }
    requires many { blank.parts ≡ 2 ^ 63 }
    requires somebody { 1 ≤ workers }
{
    let book: Book<L> = match Book::new(rt.alloc(), config, blank) {
        Ok(book) => book,
        Err(fault) => return Err(ScriptFault::from(fault).into()),
    };
    let shared = Shared::new(book);
    let Some(path) = path_of(serving.address.as_str()) else {
        let listener = match bind(rt, serving.address.as_str()) {
            Ok(listener) => listener,
            Err(error) => return Err(ProgramFault::of_address(&error)),
        };
        return work(rt, serving, workers, &listener, journal, &shared);
    };
    let (listener, file) = match listen_at_file(rt, rt.alloc(), path, serving.socket_mode) {
        Ok(listening) => listening,
        Err(error) => return Err(ProgramFault::of_address(&error)),
    };
    let served = work(rt, serving, workers, &listener, journal, &shared);
    file.remove(rt);
    served
}

/// Listens over TCP. Peers that are silent are probed.
fn bind<R: Net<Listener = TcpListener, Stream = TcpStream>>(
    rt: &R,
    address: &str,
) -> io::Result<TcpListener> {
    let listener = TcpListener::bind(rt, address)?;
    probe_silent_peers(&listener)?;
    Ok(listener)
}

/// Says that connections are served, and serves them.
fn work<
    L: Ledger + Send + Sync,
    R: AllocGlobal + Print + Threads + Wait + Clock + Sync,
    C: Link + Send + Sync + Drop,
    N: Listen<Conn = C>,
    J: Journal + Sync,
>(
    rt: &R,
    serving: &Serving,
    workers: usize,
    listener: &N,
    journal: &J,
    shared: &Shared<L>,
) -> Result<(), ProgramFault>
    requires { 1 ≤ workers }
{
    say(rt, "serving", serving.address.as_str())?;
    match serve_and_tick(rt, serving.stop_after, workers, listener, journal, shared) {
        Ok(()) => Ok(()),
        Err(WorkersFault::AcceptFailed) => Err(ProgramFault::Net),
        Err(WorkersFault::NoMemory) => Err(ScriptFault::Memory.into()),
    }
}

/// Serves the connections by workers. A ticker runs on a thread of its own until they have ended.
fn serve_and_tick<
    L: Ledger + Send + Sync,
    R: AllocGlobal + Threads + Wait + Clock + Sync,
    C: Link + Send + Sync + Drop,
    N: Listen<Conn = C>,
    J: Journal + Sync,
>(
    rt: &R,
    stop_after: Option<u64>,
    workers: usize,
    listener: &N,
    journal: &J,
    shared: &Shared<L>,
) -> Result<(), WorkersFault>
    requires { 1 ≤ workers }
{
    let alloc = rt.alloc();
    let Ok(seat) = shared.seat(rt, alloc) else {
        return Err(WorkersFault::NoMemory);
    };
    let clock = ServerClock::new(rt, alloc);
    thread::scope(
        thread::scope_env(),
        rt,
        |scope| -> Result<(), WorkersFault>
            requires idle { seat.sid ≡ None }
            requires somebody { 1 ≤ workers }
        {
            let Some(ticker) = start_ticker(scope, &clock, shared, seat) else {
                return Err(WorkersFault::NoMemory);
            };
            let served = run_workers_with_journal(
                rt, alloc, listener, shared, workers, stop_after, &OpenGate, journal,
            );
            clock.stop();
            let _seat = ticker.join(rt);
            match served {
                Ok(_) => Ok(()),
                Err((fault, _)) => Err(fault),
            }
        },
    )
}
