//! What the loop does with its ports.

ghost use Rattle.std.specs.Prelude.{◌≡◌, [], ◌∷◌, ◌++◌, ℕ, List, Some, slice_get, vec_capacity, IfNone};
ghost use Rattle.std.specs.Option.{option_to_list};
ghost use Rattle.ipc_loop.specs.Ports.{Port, port_at, open_at, OnlyCloses, KeepsListed};
ghost use Rattle.ipc_loop.specs.Standing.{AreKept, AreKeptBut, IsSettled, seen, flags};
ghost use Rattle.ipc_loop.specs.Asking.{Asks, Refuses};
ghost use Rattle.ipc_loop.specs.Hearing.{NotesAll, Hears};
ghost use Rattle.ipc_loop.specs.Serving.{Serves, IsUpToDate, IsUpToDateByMark, KeepsUpToDate, NobodyIsOwed, NobodyIsDone};

use crate::ending::Ending;
use crate::links::{Host, Ready};
use crate::ports::{Place, Ports};
use crate::serving::Desk;
use ipc_containers::Numbered;
use ipc_hub::{Conn, Hub};

/// How many bytes of unfinished frames the hub keeps at most.
const MOST_UNFINISHED: usize = 67_108_864;

/// Queues the port of this number, if it has work. Or, where nothing else is left to do for it, closes its link, of which nothing
/// is left then, and drops the answers that nobody can take any more.
fn settle<H: Host>(
    all: &mut Numbered<Place>,
    next: &mut Vec<u64>,
    open: &mut usize,
    hub: &mut Hub,
    host: &mut H,
    number: u64,
)
    requires { (turns : List ℕ) × (most : ℕ) × AreKeptBut number (seen all.old) (flags all.old) turns next.old.items open.old most (vec_capacity next.old) }
    ensures settled { (port : Port) → slice_get (seen all.old) number ≡ Some (Some port) → IsSettled hub.old (H.moves host.old) (seen all.old) number port hub.new (H.moves host.new) (seen all.new) }
    ensures kept { (turns : List ℕ) (most : ℕ) → AreKeptBut number (seen all.old) (flags all.old) turns next.old.items open.old most (vec_capacity next.old) → AreKept (seen all.new) (flags all.new) turns next.new.items open.new most (vec_capacity next.new) }
    ensures marked { hub.new.marked ≡ hub.old.marked }
    ensures next { KeepsListed next.old.items next.new.items }
    ensures silent { H.told host.new ≡ H.told host.old }
{
    let Some(place) = all.get_mut(number as usize) else {
        return;
    };
    if !place.port.is_done(hub, number) {
        place.queue(number, next);
        return;
    }
    let requests = place.port.requests();
    let ending = place.port.why().unwrap_or(Ending::NoMemory);
    hub.is_sound();
    let Ok(()) = hub.discard(Conn(number)) else {
        unreachable!();
    };
    all.take(number as usize);
    *open -= 1;
    host.close(number, requests, ending);
}

/// The connection with the largest unfinished frame, of those whose links are open, if one has any.
fn largest(hub: &Hub, ports: &Ports) -> Option<u64> {
    let (mut largest, mut most) = (None, 0);
    for number in ports.numbers() {
        let bytes = match ports.all.get(*number as usize) {
            Some(place) => place.port.unfinished(hub, *number),
            None => 0,
        };
        if bytes > most {
            (largest, most) = (Some(*number), bytes);
        }
    }
    largest
}

impl Ports {
    /// Gives the next that is queued for this round a turn. Its number, or none, where no more are queued.
    fn turn<H: Host>(&mut self, hub: &mut Hub, host: &mut H, desk: &mut Desk) -> Option<u64>
        ensures serves { Serves hub.old (H.moves host.old) (port_at self.old.all) hub.new (H.moves host.new) (port_at self.new.all) }
        ensures marks { KeepsUpToDate hub.old (open_at self.old.all) hub.new (open_at self.new.all) }
        ensures closes { OnlyCloses self.old.all self.new.all }
        ensures asks { Asks (option_to_list result) (H.moves host.old) (H.moves host.new) (port_at self.old.all) (port_at self.new.all) }
        ensures first { self.old.turns ≡ self.new.turns ++ option_to_list result }
        ensures over { IfNone result (self.new.turns ≡ []) }
        ensures silent { H.told host.new ≡ H.told host.old }
    {
        let number = self.turns.pop()?;
        let Some(place) = self.all.get_mut(number as usize) else {
            return Some(number);
        };
        place.is_queued = false;
        let before = place.port.unfinished(hub, number);
        place.port.serve(hub, host, number, desk);
        desk.is_waiting |= place.port.is_ending();
        desk.weigh(before, place.port.unfinished(hub, number));
        settle(
            &mut self.all,
            &mut self.next,
            &mut self.open,
            hub,
            host,
            number,
        );
        Some(number)
    }

    /// Ends the link, whose unfinished frame is too large beside those of the others.
    fn give_up<H: Host>(&mut self, hub: &mut Hub, host: &mut H, number: u64, desk: &mut Desk)
        ensures serves { Serves hub.old (H.moves host.old) (port_at self.old.all) hub.new (H.moves host.new) (port_at self.new.all) }
        ensures marks { KeepsUpToDate hub.old (open_at self.old.all) hub.new (open_at self.new.all) }
        ensures closes { OnlyCloses self.old.all self.new.all }
        ensures turns { self.new.turns ≡ self.old.turns }
        ensures asks { Asks [] (H.moves host.old) (H.moves host.new) (port_at self.old.all) (port_at self.new.all) }
        ensures silent { H.told host.new ≡ H.told host.old }
    {
        let Some(place) = self.all.get_mut(number as usize) else {
            return;
        };
        let before = place.port.unfinished(hub, number);
        place.port.give_up(hub, desk.alloc, number);
        desk.weigh(before, place.port.unfinished(hub, number));
        settle(
            &mut self.all,
            &mut self.next,
            &mut self.open,
            hub,
            host,
            number,
        );
    }

    /// Writes what the connection was answered.
    fn answer<H: Host>(&mut self, hub: &mut Hub, host: &mut H, number: u64, desk: &mut Desk)
        ensures serves { Serves hub.old (H.moves host.old) (port_at self.old.all) hub.new (H.moves host.new) (port_at self.new.all) }
        ensures answered { IsUpToDate hub.new (open_at self.new.all) number }
        ensures marks { KeepsUpToDate hub.old (open_at self.old.all) hub.new (open_at self.new.all) }
        ensures closes { OnlyCloses self.old.all self.new.all }
        ensures marked { hub.new.marked ≡ hub.old.marked }
        ensures turns { self.new.turns ≡ self.old.turns }
        ensures refuses { Refuses (H.moves host.old) (H.moves host.new) (port_at self.old.all) (port_at self.new.all) }
        ensures silent { H.told host.new ≡ H.told host.old }
    {
        let Some(place) = self.all.get_mut(number as usize) else {
            return;
        };
        place.port.send(hub, host, number, desk);
        settle(
            &mut self.all,
            &mut self.next,
            &mut self.open,
            hub,
            host,
            number,
        );
    }

    /// Notes what became ready of a link.
    fn note<H: Host>(&mut self, hub: &mut Hub, host: &mut H, ready: Ready)
        ensures serves { Serves hub.old (H.moves host.old) (port_at self.old.all) hub.new (H.moves host.new) (port_at self.new.all) }
        ensures marks { KeepsUpToDate hub.old (open_at self.old.all) hub.new (open_at self.new.all) }
        ensures closes { OnlyCloses self.old.all self.new.all }
        ensures turns { self.new.turns ≡ self.old.turns }
        ensures next { KeepsListed self.old.next self.new.next }
        ensures asks { Asks [] (H.moves host.old) (H.moves host.new) (port_at self.old.all) (port_at self.new.all) }
        ensures silent { H.told host.new ≡ H.told host.old }
        ensures notes { NotesAll (ready ∷ []) self.old.all self.new.all }
    {
        let Ready::Link {
            number,
            is_readable,
            is_writable,
            has_ended,
        } = ready
        else {
            return;
        };
        let Some(place) = self.all.get_mut(number as usize) else {
            return;
        };
        place.port.note(is_readable, is_writable, has_ended);
        settle(
            &mut self.all,
            &mut self.next,
            &mut self.open,
            hub,
            host,
            number,
        );
    }
}

/// Ends the link with the largest unfinished frame, where all unfinished frames together have too many bytes.
fn keep_bound<H: Host>(hub: &mut Hub, host: &mut H, ports: &mut Ports, desk: &mut Desk)
    ensures serves { Serves hub.old (H.moves host.old) (port_at ports.old.all) hub.new (H.moves host.new) (port_at ports.new.all) }
    ensures marks { KeepsUpToDate hub.old (open_at ports.old.all) hub.new (open_at ports.new.all) }
    ensures closes { OnlyCloses ports.old.all ports.new.all }
    ensures turns { ports.new.turns ≡ ports.old.turns }
    ensures asks { Asks [] (H.moves host.old) (H.moves host.new) (port_at ports.old.all) (port_at ports.new.all) }
    ensures silent { H.told host.new ≡ H.told host.old }
{
    if desk.unfinished <= MOST_UNFINISHED {
        return;
    }
    let Some(number) = largest(hub, ports) else {
        return;
    };
    ports.give_up(hub, host, number, desk);
}

/// Gives each that is queued for this round a turn.
pub fn give_turns<H: Host>(hub: &mut Hub, host: &mut H, ports: &mut Ports, desk: &mut Desk)
    ensures serves { Serves hub.old (H.moves host.old) (port_at ports.old.all) hub.new (H.moves host.new) (port_at ports.new.all) }
    ensures marks { KeepsUpToDate hub.old (open_at ports.old.all) hub.new (open_at ports.new.all) }
    ensures closes { OnlyCloses ports.old.all ports.new.all }
    ensures turns { ports.new.turns ≡ [] }
    ensures asks { Asks ports.old.turns (H.moves host.old) (H.moves host.new) (port_at ports.old.all) (port_at ports.new.all) }
    ensures silent { H.told host.new ≡ H.told host.old }
{
    while let Some(_) = ports.turn(hub, host, desk) {
        keep_bound(hub, host, ports, desk);
    }
}

/// Writes what was answered to anybody since.
fn answer_each<H: Host>(hub: &mut Hub, host: &mut H, ports: &mut Ports, desk: &mut Desk)
    requires { (i : ℕ) → IsUpToDateByMark hub.old (open_at ports.old.all) i }
    ensures serves { Serves hub.old (H.moves host.old) (port_at ports.old.all) hub.new (H.moves host.new) (port_at ports.new.all) }
    ensures rests { NobodyIsOwed hub.new (open_at ports.new.all) }
    ensures undone { NobodyIsDone hub.new (open_at ports.new.all) }
    ensures closes { OnlyCloses ports.old.all ports.new.all }
    ensures turns { ports.new.turns ≡ ports.old.turns }
    ensures refuses { Refuses (H.moves host.old) (H.moves host.new) (port_at ports.old.all) (port_at ports.new.all) }
    ensures silent { H.told host.new ≡ H.told host.old }
{
    while let Some(conn) = hub.next_answered() {
        ports.answer(hub, host, conn.0, desk);
    }
}

/// The same, and hands the host what is recorded so far, also where nobody was answered.
pub fn answer_all<H: Host>(hub: &mut Hub, host: &mut H, ports: &mut Ports, desk: &mut Desk)
    requires { (i : ℕ) → IsUpToDateByMark hub.old (open_at ports.old.all) i }
    ensures serves { Serves hub.old (H.moves host.old) (port_at ports.old.all) hub.new (H.moves host.new) (port_at ports.new.all) }
    ensures rests { NobodyIsOwed hub.new (open_at ports.new.all) }
    ensures undone { NobodyIsDone hub.new (open_at ports.new.all) }
    ensures closes { OnlyCloses ports.old.all ports.new.all }
    ensures turns { ports.new.turns ≡ ports.old.turns }
    ensures refuses { Refuses (H.moves host.old) (H.moves host.new) (port_at ports.old.all) (port_at ports.new.all) }
    ensures silent { H.told host.new ≡ H.told host.old }
{
    answer_each(hub, host, ports, desk);
    host.save(hub.trail(), None);
}

/// Notes all that is ready. Says whether somebody connects.
pub fn note_all<H: Host>(hub: &mut Hub, host: &mut H, ports: &mut Ports) -> bool
    ensures serves { Serves hub.old (H.moves host.old) (port_at ports.old.all) hub.new (H.moves host.new) (port_at ports.new.all) }
    ensures marks { KeepsUpToDate hub.old (open_at ports.old.all) hub.new (open_at ports.new.all) }
    ensures closes { OnlyCloses ports.old.all ports.new.all }
    ensures turns { ports.new.turns ≡ ports.old.turns }
    ensures next { KeepsListed ports.old.next ports.new.next }
    ensures asks { Asks [] (H.moves host.old) (H.moves host.new) (port_at ports.old.all) (port_at ports.new.all) }
    ensures hears { Hears (H.told host.old) (H.told host.new) ports.old.all ports.new.all result }
{
    let mut is_told = false;
    for _ in 0..u64::MAX {
        let Some(ready) = host.next_ready() else {
            return is_told;
        };
        if let Ready::Listener = ready {
            is_told = true;
        }
        ports.note(hub, host, ready);
    }
    is_told
}
