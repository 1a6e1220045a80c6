//! Accepting connections.

ghost use Rattle.std.specs.Prelude.{◌≡◌, [], ◌∷◌, ◌++◌, ℕ, List, Option, Some, true, false, length, IfErr, OnOk, OnErr};
ghost use Rattle.std.specs.IoError.{error_kind};
ghost use Rattle.ipc_hub.specs.Hub.{Hub, untaken_at, is_over_at};
ghost use Rattle.ipc_loop.specs.Moves.{Moved};
ghost use Rattle.ipc_loop.specs.Ports.{Port, new_port, port_at, open_at, Continues};
ghost use Rattle.ipc_loop.specs.Bounds.{are_all, IsWithin, HasRoom, AddsAtMostOne};
ghost use Rattle.ipc_loop.specs.Serving.{Serves, ServesAndOpens, KeepsUpToDate};
ghost use Rattle.ipc_loop.specs.Asking.{Asks};
ghost use Rattle.ipc_loop.specs.Listening.{Listens, HasNoRoom, Comes, behind_refusal, refusal_of, is_again};

use crate::links::Host;
use crate::ports::Ports;
use crate::serving::is_over;
use ipc_hub::{Conn, Hub};
use ipc_terms::NoMemory;
use std::alloc::Global;
use std::io;
use std::io::ErrorKind;

/// How many connections are accepted before those that are ready get their turn.
const MOST_ACCEPTED: u32 = 64;

/// How many links are accepted.
#[derive(Clone, Copy)]
pub struct Bounds {
    /// How many are open at most.
    pub most: usize,
    /// After so many nobody is accepted any more.
    pub stop_after: Option<u64>,
}

/// Who is accepted.
#[derive(Drop)]
pub struct Accepting {
    pub bounds: Bounds,
    /// Somebody may be waiting to be accepted.
    pub may_accept: bool,
    /// Why accepting failed, if it did in the last round. It is tried again after a pause.
    pub pausing: Option<ErrorKind>,
}

/// Opens the hub's connection of this number, which is the next, if it isn't open.
fn open_next(hub: &mut Hub, number: u64, alloc: Global) -> Result<(), NoMemory>
    ensures serves { (moves : Option (List Moved)) (ports : ℕ → Option Port) → Serves hub.old moves ports hub.new moves ports }
    ensures marks { (ports : ℕ → Option Port) → KeepsUpToDate hub.old ports hub.new ports }
{
    if hub.untaken(Conn(number)).is_ok() {
        return Ok(());
    }
    let Ok(_) = hub.open(alloc) else {
        return Err(NoMemory);
    };
    Ok(())
}

/// Makes all for the next link but the link: its connection, which goes on and was answered nothing, and its port. So nobody is
/// accepted for whom there is no memory. An `Err` changes no port.
fn prepare(hub: &mut Hub, ports: &mut Ports, alloc: Global) -> Result<(), NoMemory>
    ensures untaken { OnOk result (untaken_at hub.new (length ports.old.all) ≡ []) }
    ensures going { OnOk result (is_over_at hub.new (length ports.old.all) ≡ false) }
    ensures serves { (moves : Option (List Moved)) (all : ℕ → Option Port) → Serves hub.old moves all hub.new moves all }
    ensures marks { (all : ℕ → Option Port) → KeepsUpToDate hub.old all hub.new all }
    ensures ok { OnOk result (ports.new.all ≡ ports.old.all ++ Some new_port ∷ []) }
    ensures err { OnErr result (ports.new.all ≡ ports.old.all) }
    ensures turns { ports.new.turns ≡ ports.old.turns }
    ensures next { ports.new.next ≡ ports.old.next }
{
    let number = ports.len() as u64;
    open_next(hub, number, alloc)?;
    let Ok(0) = hub.untaken(Conn(number)) else {
        return Err(NoMemory);
    };
    if is_over(hub, number) {
        return Err(NoMemory);
    }
    ports.forget_numbers();
    ports.push()
}

/// Accepts the next link, whose number is how many were accepted before.
fn accept<H: Host>(hub: &mut Hub, host: &mut H, ports: &mut Ports, alloc: Global) -> io::Result<()>
    ensures serves { ServesAndOpens hub.old (H.moves host.old) ports.old.all hub.new (H.moves host.new) ports.new.all }
    ensures marks { KeepsUpToDate hub.old (open_at ports.old.all) hub.new (open_at ports.new.all) }
    ensures adds { AddsAtMostOne ports.old.all ports.new.all }
    ensures turns { ports.new.turns ≡ ports.old.turns }
    ensures next { ports.new.next ≡ ports.old.next }
    ensures asks { Asks [] (H.moves host.old) (H.moves host.new) (port_at ports.old.all) (port_at ports.new.all) }
    ensures comes { Comes (H.moves host.old) (H.moves host.new) ports.old.all ports.new.all result }
    ensures silent { H.told host.new ≡ H.told host.old }
{
    let number = ports.len() as u64;
    let Ok(()) = prepare(hub, ports, alloc) else {
        return Err(io::Error::from(ErrorKind::OutOfMemory));
    };
    let Err(error) = host.accept(number) else {
        return Ok(());
    };
    ports.undo_push();
    Err(error)
}

impl Accepting {
    /// Whether as many links were accepted as are to be.
    pub fn has_all(&self, ports: &Ports) -> bool
        ensures { result ≡ are_all self.now.bounds.stop_after (length ports.now.all) }
    {
        match self.bounds.stop_after {
            Some(count) => count <= ports.len() as u64,
            None => false,
        }
    }

    /// Whether another may be accepted.
    pub fn is_open(&self, ports: &Ports) -> bool
        ensures room { result ≡ true → HasRoom self.now.bounds ports.now.all }
        ensures asked { self.now.may_accept ≡ true → HasRoom self.now.bounds ports.now.all → result ≡ true }
        ensures full { self.now.may_accept ≡ true → result ≡ false → HasNoRoom self.now.bounds ports.now.all }
    {
        self.may_accept && !self.has_all(ports) && ports.open() < self.bounds.most
    }

    /// Accepts those that wait, up to a number.
    pub fn accept_some<H: Host>(
        &mut self,
        hub: &mut Hub,
        host: &mut H,
        ports: &mut Ports,
        alloc: Global,
    )
        ensures serves { ServesAndOpens hub.old (H.moves host.old) ports.old.all hub.new (H.moves host.new) ports.new.all }
        ensures marks { KeepsUpToDate hub.old (open_at ports.old.all) hub.new (open_at ports.new.all) }
        ensures bounds { self.new.bounds ≡ self.old.bounds }
        ensures within { IsWithin self.old.bounds ports.old.all → IsWithin self.old.bounds ports.new.all }
        ensures continues { Continues ports.old.all ports.new.all }
        ensures turns { ports.new.turns ≡ ports.old.turns }
        ensures next { ports.new.next ≡ ports.old.next }
        ensures asks { Asks [] (H.moves host.old) (H.moves host.new) (port_at ports.old.all) (port_at ports.new.all) }
        ensures listens { Listens self.old.bounds self.old.may_accept (H.moves host.old) (H.moves host.new) ports.old.all ports.new.all self.new.may_accept self.new.pausing }
        ensures silent { H.told host.new ≡ H.told host.old }
    {
        self.pausing = None;
        for _ in 0..MOST_ACCEPTED {
            if !self.is_open(ports) {
                return;
            }
            let accepted = accept(hub, host, ports, alloc);
            if !self.goes_on(accepted) {
                return;
            }
        }
    }

    /// Whether another is accepted at once.
    fn goes_on(&mut self, accepted: io::Result<()>) -> bool
        ensures bounds { self.new.bounds ≡ self.old.bounds }
        ensures ok { OnOk accepted (self.new ≡ self.old) }
        ensures more { OnOk accepted (result ≡ true) }
        ensures err { IfErr accepted (λ e. self.new ≡ behind_refusal (refusal_of (error_kind e)) (error_kind e) self.old) }
        ensures again { IfErr accepted (λ e. result ≡ is_again (refusal_of (error_kind e))) }
    {
        let Err(error) = accepted else {
            return true;
        };
        match error.kind() {
            ErrorKind::Interrupted | ErrorKind::ConnectionAborted => true,
            ErrorKind::WouldBlock => {
                self.may_accept = false;
                false
            }
            // As with too many open files. It is tried again in each round, and after a pause.
            kind => {
                self.pausing = Some(kind);
                false
            }
        }
    }
}
