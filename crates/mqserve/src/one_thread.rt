//! Serving connections on one thread.

use crate::log::open_log;
use crate::logged::LoggedSockets;
use crate::saved::SavedSockets;
use crate::tally::Tally;
use crate::watch::{Watch, Watched};
use ipc_access::Users;
use ipc_core::{Config, Core};
use ipc_hub::Hub;
use ipc_log::{Head, NO_RETELLING};
use ipc_loop::{Keeping, Server};
use ipc_program::{Kept, ProgramFault, Serving, TrailFile, say};
use ipc_saving::{OldTrail, OpenTrail, find_old, head_of, replay_old, shorten};
use ipc_script::ScriptFault;
use ipc_sockets::{Sockets, UserSocket, folder_of, sockets_of};
use ipc_terms::NoMemory;
use std::alloc::Global;
use std::fs::File;
use std::io;
use std::net::Net;
use std::rt::Files;
use std::sync::Wait;
use std::time::Clock;

/// Serves at most so many connections at a time, until as many as are asked for have ended.
pub fn serve_on_one_thread<
    R: AllocGlobal + Clone + Drop + Files<File = File> + Print + Eprint + Net + Wait + Clock,
>(
    rt: &R,
    serving: &Serving,
    connections: usize,
    kept: Kept,
    config: Config,
) -> Result<(), ProgramFault> {
    let address = serving.address.as_str();
    let users = owners(rt.alloc(), address, &config.users)?;
    // A trail may be long, so it is replayed before anybody can connect.
    let (mut server, trail) = start(rt, serving, connections, config)?;
    server.keep(Keeping {
        records: kept.records,
        bytes: kept.bytes,
    });
    // It may wait, at a FIFO, so it comes before anybody can connect.
    let log = open_log(rt, &serving.log, connections);
    let sockets = match bind(rt, serving, &users) {
        Ok(sockets) => sockets,
        Err(error) => return Err(ProgramFault::of_address(&error)),
    };
    let sockets = LoggedSockets {
        sockets,
        log: &log,
        tally: tally_of(serving, &server),
        wake: None,
    };
    match trail {
        Some(trail) => serve_and_save(rt, serving, &mut server, sockets, trail),
        None => serve_only(rt, serving, &mut server, sockets),
    }
}

/// Counts the records of a server whose numbers are shown or logged.
fn tally_of(serving: &Serving, server: &Server) -> Option<Tally> {
    if serving.metrics.is_none() && serving.log.is_none() {
        return None;
    }
    Some(Tally::new(server.hub().recorded() as u64))
}

/// Whom the sockets at the address are of, where it is a folder of them.
fn owners(alloc: Global, address: &str, users: &Users) -> Result<Vec<UserSocket>, ProgramFault> {
    if folder_of(address).is_none() {
        return Ok(Vec::new(alloc));
    }
    match sockets_of(alloc, users) {
        Ok(sockets) => Ok(sockets),
        Err(error) => Err(ProgramFault::of_address(&error)),
    }
}

/// Where the trail goes of a server that starts.
#[derive(Drop)]
struct Goal<'a> {
    wanted: &'a TrailFile,
    head: Head,
    /// The trail that was there; else its first file is to be made.
    old: Option<OldTrail>,
}

/// The server, and where its trail goes, if that is anywhere. Nothing is written yet.
fn start<'a, R: AllocGlobal + Clone + Drop + Files<File = File>>(
    rt: &R,
    serving: &'a Serving,
    connections: usize,
    config: Config,
) -> Result<(Server, Option<Goal<'a>>), ProgramFault> {
    let alloc = rt.alloc();
    let stop_after = serving.stop_after;
    let Some(wanted) = &serving.trail else {
        let server = new_server(alloc, config, connections, stop_after)?;
        return Ok((server, None));
    };
    let head = head_of(alloc, &config, NO_RETELLING)?;
    let mut goal = Goal {
        wanted,
        head,
        old: None,
    };
    let Some(mut found) = find_old(rt, wanted)? else {
        let server = new_server(alloc, config, connections, stop_after)?;
        return Ok((server, Some(goal)));
    };
    if let Some(bytes) = wanted.compact {
        found = shorten(rt, serving.users.as_str(), wanted, bytes, found)?;
    }
    let (state, old) = replay_old(rt, wanted.path.as_str(), found, config)?;
    goal.old = Some(old);
    let hub = Hub::of_core(alloc, Core::of_state(alloc, state));
    match Server::of_hub(alloc, hub, connections, stop_after) {
        Ok(server) => Ok((server, Some(goal))),
        Err(NoMemory) => Err(ScriptFault::Memory.into()),
    }
}

/// A server with an empty trail.
fn new_server(
    alloc: Global,
    config: Config,
    connections: usize,
    stop_after: Option<u64>,
) -> Result<Server, ProgramFault> {
    match Server::new(alloc, config, connections, stop_after) {
        Ok(server) => Ok(server),
        Err(fault) => Err(ScriptFault::from(fault).into()),
    }
}

/// Serves, and keeps the trail in memory alone.
fn serve_only<R: AllocGlobal + Files + Print + Eprint + Wait + Clock>(
    rt: &R,
    serving: &Serving,
    server: &mut Server,
    mut sockets: LoggedSockets<'_, R>,
) -> Result<(), ProgramFault> {
    let served = work(rt, serving, server, &mut sockets);
    sockets.sockets.finish();
    served
}

/// Serves, and puts the trail into a file, which is made or changed behind all that may fail before.
fn serve_and_save<R: AllocGlobal + Files<File = File> + Print + Eprint + Wait + Clock>(
    rt: &R,
    serving: &Serving,
    server: &mut Server,
    mut sockets: LoggedSockets<'_, R>,
    trail: Goal<'_>,
) -> Result<(), ProgramFault> {
    let Goal { wanted, head, old } = trail;
    let opened = match old {
        Some(old) => old.go_on(rt, wanted, &head),
        None => OpenTrail::create(rt, wanted, &head),
    };
    let trail = match opened {
        Ok(trail) => trail,
        Err(error) => {
            sockets.sockets.finish();
            return Err(ProgramFault::of_trail_file(&error));
        }
    };
    let mut sockets = SavedSockets::new(rt, rt.alloc(), sockets, trail);
    let served = work(rt, serving, server, &mut sockets);
    sockets.finish();
    served
}

/// Listens at the address, or at the sockets of these users where it is a folder of them, and shows numbers where that is asked for.
/// An `Err` leaves no file.
fn bind<'a, R: AllocGlobal + Files<File = File> + Net + Clock>(
    rt: &'a R,
    serving: &Serving,
    users: &[UserSocket],
) -> io::Result<Sockets<'a, R>> {
    let address = serving.address.as_str();
    let mut sockets = match folder_of(address) {
        Some(folder) => Sockets::bind_for_users(rt, rt.alloc(), folder, users)?,
        None => Sockets::bind(rt, rt.alloc(), address, serving.socket_mode)?,
    };
    if let Some(place) = &serving.metrics {
        if let Err(error) = sockets.show_at(rt.alloc(), place.as_str()) {
            sockets.finish();
            return Err(error);
        }
    }
    Ok(sockets)
}

/// Says that connections are served, and serves them in rounds.
fn work<'a, R, H>(
    rt: &R,
    serving: &Serving,
    server: &mut Server,
    sockets: &mut H,
) -> Result<(), ProgramFault>
where
    R: AllocGlobal + Files + Print + Eprint + Wait + Clock + 'a,
    H: Watched<'a, R>,
{
    say(rt, "serving", serving.address.as_str())?;
    let mut watch = Watch::new(rt, serving.stats, server.hub().recorded());
    for _ in rt.forever() {
        if server.is_over() {
            return Ok(());
        }
        if server.is_out_of_memory() {
            return Err(ScriptFault::Memory.into());
        }
        if server.round(sockets).is_err() {
            return Err(ProgramFault::Net);
        }
        watch.look(rt, server, sockets);
    }
    unreachable!()
}
