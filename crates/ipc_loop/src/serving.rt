//! What a turn does for a link.

ghost use Rattle.std.specs.Prelude.{◌≡◌, ◌≤◌, ◌<◌, ◌||◌, ◌+◌, ◌-◌, ◌^◌, [], ℕ, List, Option, false, true, length, max, min, Some, None, is_some, unwrap_or, IfOk, IfSome, OnOk, OnErr};
ghost use Rattle.ipc_loop.specs.declared.ending.Ending.TheVariants.{ReadFailed};
ghost use Rattle.ipc_hub.specs.Hub.{Hub, Feeds, is_over_at, untaken_at};
ghost use Rattle.ipc_loop.specs.Moves.{Moved, is_fault};
ghost use Rattle.ipc_loop.specs.Ports.{is_all};
ghost use Rattle.ipc_loop.specs.Serving.{ServesPort, KeepsPortMarks, Offers, Writes, FeedsPort, StaysReadable, Answers, kept_at, has_session_at, is_done, ends_connection, is_fed_so, OthersStayUndone};
ghost use Rattle.ipc_loop.specs.Asking.{TakesTurn, OffersPort, Reads, Flushes, KeepsAllButLeft};
ghost use Rattle.ipc_loop.specs.Portions.{HasAll, Collects, StepsAndCollects, StepsPortion, AddsSpelled, AddsFew, IsUnder, KeepsBound};
ghost use Rattle.ipc_loop.specs.Requests.{requests_among, Counts};

use crate::ending::Ending;
use crate::links::Host;
use crate::port::Port;
use crate::unsent::Unsent;
use ipc_hub::{Conn, End, Fed, Hub, HubFault};
use ipc_terms::NoMemory;
use std::alloc::Global;
use std::io::ErrorKind;

/// A connection's requests are stepped in portions: until so many answers are untaken.
const PORTION: usize = 8;

/// Behind a portion that was spelled in more bytes, requests are stepped one at a time.
const SMALL: usize = 65_536;

/// How many portions a turn has at most.
const MOST_PORTIONS: u32 = 32;

/// Nothing is stepped or read once so many bytes of answers are to be written.
const MOST_SPELLED: usize = 1_048_576;

/// How many bytes of its stream a connection may keep before its hello is accepted: the frame of a key has no more.
const MOST_OF_A_STRANGER: usize = 65_542;

/// How often a step or a piece that wants memory is tried.
const MOST_TRIES: u32 = 100;

/// The most room that the buffer of answers keeps from round to round.
const KEPT_ROOM: usize = 1_048_576;

/// Where pieces are read, and where answers are spelled.
#[derive(Drop)]
pub struct Desk {
    pub alloc: Global,
    pub piece: Vec<u8>,
    pub answers: Vec<u8>,
    /// How many bytes of unfinished frames the hub keeps of all connections.
    pub unfinished: usize,
    /// In this round a hang-up or a tick found no memory.
    pub is_waiting: bool,
}

/// Whether the connection is over.
pub fn is_over(hub: &Hub, number: u64) -> bool
    ensures { result ≡ is_over_at hub.now number }
{
    match hub.is_over(Conn(number)) {
        Ok(is_over) => is_over,
        Err(_) => false,
    }
}

/// How many answers the connection has not taken.
fn untaken(hub: &Hub, number: u64) -> usize
    ensures { result ≡ length (untaken_at hub.now number) }
{
    match hub.untaken(Conn(number)) {
        Ok(count) => count,
        Err(_) => 0,
    }
}

/// How many bytes of the connection's stream the hub keeps.
fn kept(hub: &Hub, number: u64) -> usize
    ensures { result ≡ kept_at hub.now number }
{
    match hub.kept(Conn(number)) {
        Ok(count) => count,
        Err(_) => 0,
    }
}

/// Whether the connection's hello was accepted, as far as the hub still knows.
fn has_session(hub: &Hub, number: u64) -> bool
    ensures { result ≡ true → has_session_at hub.now number ≡ true }
{
    match hub.has_session(Conn(number)) {
        Ok(has_session) => has_session,
        Err(_) => false,
    }
}

impl Desk {
    /// The hub keeps so many bytes of a connection, where it kept so many before.
    pub fn weigh(&mut self, before: usize, after: usize) {
        self.unfinished = self.unfinished.saturating_sub(before).saturating_add(after);
    }

    /// Gives a buffer of answers that has grown large back.
    pub fn trim(&mut self) {
        if self.answers.capacity() > KEPT_ROOM {
            self.answers = Vec::new(self.alloc);
        }
    }
}

/// Whether a failure says more than that the call would have waited, or that a signal came.
fn is_fault(kind: ErrorKind) -> bool
    ensures { result ≡ is_fault kind }
{
    match kind {
        ErrorKind::WouldBlock | ErrorKind::Interrupted => false,
        _ => true,
    }
}

/// How many of the bytes the link took: none where it would wait, which is noted, or a signal came. `None` where the
/// write failed.
fn write_some<H: Host>(
    host: &mut H,
    number: u64,
    bytes: &[u8],
    may_write: &mut bool,
) -> Option<usize>
    ensures bound { IfSome result (λ n. n ≤ length bytes.now) }
    ensures offers { Offers number (H.moves host.old) (H.moves host.new) bytes.now result }
    ensures took { IfSome result (λ n. 0 < n → may_write.new ≡ may_write.old) }
    ensures silent { H.told host.new ≡ H.told host.old }
{
    let kind = match host.write(number, bytes) {
        Ok(count) => return Some(count),
        Err(error) => error.kind(),
    };
    if is_fault(kind) {
        return None;
    }
    if kind == ErrorKind::WouldBlock {
        *may_write = false;
    }
    Some(0)
}

/// Feeds a piece, until so many answers are untaken. Want of memory is tried some times.
fn feed_piece(
    hub: &mut Hub,
    alloc: Global,
    conn: Conn,
    piece: &[u8],
    most: usize,
) -> Result<Fed, HubFault>
    ensures ok { IfOk result (λ fed. Feeds hub.old conn.0 piece.now fed hub.new) }
    ensures bound { OnOk result (length (untaken_at hub.new conn.0) ≤ max (length (untaken_at hub.old conn.0)) (most + 1)) }
    ensures err { OnErr result (hub.new ≡ hub.old) }
{
    for _ in 1..MOST_TRIES {
        match hub.feed_some(alloc, conn, piece, most) {
            Err(HubFault::NoMemory) => {}
            Ok(fed) => return Ok(fed),
            Err(fault) => return Err(fault),
        }
    }
    hub.feed_some(alloc, conn, piece, most)
}

/// Until how many answers are untaken a portion is stepped, behind one that was spelled in many bytes or in few.
fn next_portion(is_large: bool) -> usize
    ensures { result ≤ 8 }
{
    if is_large { 1 } else { PORTION }
}

/// How many of the events that were recorded are requests: all but the hang-up that a fault brought.
fn requests_among(events: usize, fed: &Result<Fed, HubFault>) -> usize
    ensures { result ≡ requests_among events fed.now }
{
    match fed {
        Ok(Fed::Over(End::Wire(_))) => events.saturating_sub(1),
        _ => events,
    }
}

impl Port {
    /// The link isn't read any more; the first reason is kept.
    fn end(&mut self, ending: Ending)
        ensures left { self.new.left ≡ self.old.left }
        ensures may_read { self.new.may_read ≡ self.old.may_read }
        ensures may_write { self.new.may_write ≡ self.old.may_write }
        ensures ended { self.new.ending ≡ Some (unwrap_or self.old.ending ending) }
        ensures requests { self.new.requests ≡ self.old.requests }
    {
        if self.ending.is_none() {
            self.ending = Some(ending);
        }
    }

    /// The link isn't written any more either. Why bytes for it are dropped stands before why it wasn't read any more.
    fn cut(&mut self, alloc: Global, ending: Ending)
        ensures cut { self.new.left ≡ None }
        ensures may_write { self.new.may_write ≡ self.old.may_write }
        ensures ended { self.new.ending ≡ Some ending }
    {
        self.ending = Some(ending);
        self.is_cut = true;
        self.unsent = Unsent::new(alloc);
    }

    /// Whether all that was taken is written.
    fn is_written(&self) -> bool
        ensures { result ≡ is_all self.now.left }
    {
        !self.is_cut && self.unsent.is_empty()
    }

    /// Writes what is left, as far as the link takes it.
    fn flush<H: Host>(&mut self, alloc: Global, host: &mut H, number: u64)
        ensures writes { Writes number (H.moves host.old) (H.moves host.new) self.old [] self.new }
        ensures all { Flushes number (H.moves host.old) (H.moves host.new) self.old self.new }
        ensures writable { self.new.left ≡ Some [] → self.new.may_write ≡ true }
        ensures silent { H.told host.new ≡ H.told host.old }
    {
        if self.is_cut || self.unsent.is_empty() || !self.may_write {
            return;
        }
        match write_some(host, number, self.unsent.as_slice(), &mut self.may_write) {
            Some(count) => self.unsent.advance(count),
            None => self.cut(alloc, Ending::WriteFailed),
        }
    }

    /// The same, once the host has what is recorded so far.
    fn flush_saved<H: Host>(&mut self, hub: &Hub, alloc: Global, host: &mut H, number: u64)
        ensures writes { Writes number (H.moves host.old) (H.moves host.new) self.old [] self.new }
        ensures all { Flushes number (H.moves host.old) (H.moves host.new) self.old self.new }
        ensures silent { H.told host.new ≡ H.told host.old }
    {
        host.save(hub.trail(), Some(number));
        self.flush(alloc, host, number);
    }

    /// Lends a buffer for what is taken, where all before is written.
    fn lend(&mut self, buffer: &mut Vec<u8>)
        requires { self.old.left ≡ Some [] }
        ensures { self.new ≡ self.old }
    {
        self.unsent.lend(buffer);
    }

    /// Gives the buffer back.
    fn give_back(&mut self, alloc: Global, buffer: &mut Vec<u8>)
        ensures { self.new ≡ self.old }
    {
        self.unsent.give_back(alloc, buffer);
    }

    /// Takes what the connection was answered, behind what is left.
    fn take(&mut self, hub: &mut Hub, alloc: Global, number: u64)
        ensures serves { (moves : Option (List Moved)) → ServesPort number hub.old moves self.old hub.new moves self.new }
        ensures collects { Collects number hub.old hub.new self.new }
        ensures adds { AddsSpelled (untaken_at hub.old number) self.old.left self.new.left }
        ensures kept { KeepsAllButLeft self.old self.new }
        ensures may_write { self.new.may_write ≡ self.old.may_write }
        ensures undone { OthersStayUndone number hub.old hub.new }
    {
        if self.is_cut {
            return;
        }
        if untaken(hub, number) == 0 {
            return;
        }
        hub.is_sound();
        match self.unsent.take(hub, number) {
            Ok(()) => {}
            Err(NoMemory) => self.cut(alloc, Ending::NoMemory),
        }
    }

    /// Writes what is left, and then what the connection was answered since, as far as the link takes it.
    pub fn send<H: Host>(&mut self, hub: &mut Hub, host: &mut H, number: u64, desk: &mut Desk)
        ensures serves { ServesPort number hub.old (H.moves host.old) self.old hub.new (H.moves host.new) self.new }
        ensures answers { Answers number hub.old hub.new self.new }
        ensures offers { OffersPort number (H.moves host.old) (H.moves host.new) self.old self.new }
        ensures undone { OthersStayUndone number hub.old hub.new }
        ensures silent { H.told host.new ≡ H.told host.old }
    {
        self.flush(desk.alloc, host, number);
        if !self.is_written() {
            return;
        }
        self.lend(&mut desk.answers);
        self.take(hub, desk.alloc, number);
        self.flush_saved(hub, desk.alloc, host, number);
        self.give_back(desk.alloc, &mut desk.answers);
    }

    /// What became of a piece.
    fn note_fed(&mut self, fed: Result<Fed, HubFault>)
        ensures left { self.new.left ≡ self.old.left }
        ensures may_write { self.new.may_write ≡ self.old.may_write }
        ensures may_read { self.new.may_read ≡ self.old.may_read }
        ensures err { OnErr fed (is_some self.new.ending ≡ true) }
        ensures over { IfOk fed (λ fed. ends_connection fed ≡ true → is_some self.new.ending ≡ true) }
        ensures why { (ending : Ending) → self.old.ending ≡ None → self.new.ending ≡ Some ending → is_fed_so fed ending ≡ true }
        ensures requests { self.new.requests ≡ self.old.requests }
    {
        self.is_full = false;
        match fed {
            Ok(Fed::Done) => self.tries = 0,
            Ok(Fed::Full) => {
                self.tries = 0;
                self.is_full = true;
            }
            Ok(Fed::Short) if self.tries < MOST_TRIES => {
                self.tries += 1;
                self.is_full = true;
            }
            Ok(Fed::Over(End::Wire(fault))) => {
                self.is_over = true;
                self.end(Ending::Wire(fault));
            }
            Ok(Fed::Over(End::BadKey)) => {
                self.is_over = true;
                self.end(Ending::BadKey);
            }
            _ => self.end(Ending::NoMemory),
        }
    }

    /// Counts the requests that were stepped where so many events were recorded before, and finds whose hello was accepted: it
    /// is the first of the connection's requests.
    fn count(&mut self, hub: &Hub, before: usize, fed: &Result<Fed, HubFault>)
        ensures { self.new ≡ record self.old { requests = min (self.old.requests + requests_among (length hub.now.core.history - before) fed.now) (2 ^ 64 - 1) } }
    {
        if self.requests == 0 {
            self.newcomer = hub.started_at(before);
        }
        let requests = requests_among(hub.recorded().saturating_sub(before), fed);
        self.requests = self.requests.saturating_add(requests as u64);
    }

    /// Steps the requests of a piece, until so many answers are untaken.
    fn feed(&mut self, hub: &mut Hub, alloc: Global, number: u64, piece: &[u8], most: usize)
        requires { self.old.ending ≡ None }
        ensures fed { FeedsPort number hub.old self.old piece.now hub.new self.new }
        ensures steps { StepsPortion number (most + 1) hub.old self.old hub.new self.new }
        ensures counted { Counts hub.old self.old hub.new self.new }
        ensures may_read { self.new.may_read ≡ self.old.may_read }
        ensures may_write { self.new.may_write ≡ self.old.may_write }
        ensures undone { OthersStayUndone number hub.old hub.new }
    {
        let before = hub.recorded();
        let fed = feed_piece(hub, alloc, Conn(number), piece, most);
        self.count(hub, before, &fed);
        self.note_fed(fed);
    }

    /// Reads a piece of the stream, and steps it. More may be there until a read would wait, also behind a piece that is
    /// shorter than the buffer: at a Unix socket a read ends where a file was sent along, and over TCP before urgent bytes.
    fn read<H: Host>(
        &mut self,
        hub: &mut Hub,
        host: &mut H,
        number: u64,
        alloc: Global,
        buffer: &mut [u8],
    )
        requires { self.old.ending ≡ None }
        ensures serves { ServesPort number hub.old (H.moves host.old) self.old hub.new (H.moves host.new) self.new }
        ensures steps { StepsPortion number 9 hub.old self.old hub.new self.new }
        ensures more { StaysReadable number (H.moves host.old) (H.moves host.new) self.old self.new }
        ensures asks { Reads number (H.moves host.old) (H.moves host.new) self.old }
        ensures may_write { self.new.may_write ≡ self.old.may_write }
        ensures undone { OthersStayUndone number hub.old hub.new }
        ensures silent { H.told host.new ≡ H.told host.old }
    {
        match host.read(number, buffer) {
            Ok(count) => {
                if count == 0 {
                    self.end(Ending::Closed);
                } else {
                    self.feed(hub, alloc, number, &buffer[..count], PORTION);
                }
            }
            Err(error) => self.note_unread(error.kind()),
        }
    }

    /// Why a read gave nothing.
    fn note_unread(&mut self, kind: ErrorKind)
        ensures left { self.new.left ≡ self.old.left }
        ensures may_write { self.new.may_write ≡ self.old.may_write }
        ensures fault { is_fault kind ≡ true → self.new.ending ≡ Some (unwrap_or self.old.ending ReadFailed) }
        ensures other { is_fault kind ≡ false → self.new.ending ≡ self.old.ending }
    {
        if is_fault(kind) {
            self.end(Ending::ReadFailed);
        } else if kind == ErrorKind::WouldBlock {
            self.may_read = false;
        }
    }

    /// Steps what the hub kept, or else reads.
    fn start<H: Host>(&mut self, hub: &mut Hub, host: &mut H, number: u64, desk: &mut Desk)
        requires { self.old.ending ≡ None }
        ensures serves { ServesPort number hub.old (H.moves host.old) self.old hub.new (H.moves host.new) self.new }
        ensures steps { StepsPortion number 9 hub.old self.old hub.new self.new }
        ensures asks { Reads number (H.moves host.old) (H.moves host.new) self.old }
        ensures may_write { self.new.may_write ≡ self.old.may_write }
        ensures undone { OthersStayUndone number hub.old hub.new }
        ensures silent { H.told host.new ≡ H.told host.old }
    {
        if self.is_full {
            self.feed(hub, desk.alloc, number, &[], PORTION);
        } else if self.may_read {
            self.read(hub, host, number, desk.alloc, &mut desk.piece);
        }
    }

    /// Whether the link is still read, and few bytes are to be written.
    fn has_room(&self) -> bool
        ensures on { result ≡ true → self.now.ending ≡ None }
        ensures under { result ≡ true → IsUnder self.now.left }
        ensures room { (left : List ℕ) → self.now.ending ≡ None → self.now.left ≡ Some left → length left < 1048576 → result ≡ true }
    {
        self.ending.is_none() && self.unsent.len() < MOST_SPELLED
    }

    /// Steps one more portion of what the hub kept, or one request, and takes what it was answered. Says whether that was
    /// spelled in many bytes.
    fn step_again(&mut self, hub: &mut Hub, alloc: Global, number: u64, is_large: bool) -> bool
        requires { self.old.ending ≡ None }
        ensures serves { (moves : Option (List Moved)) → ServesPort number hub.old moves self.old hub.new moves self.new }
        ensures collects { StepsAndCollects number hub.old hub.new self.new }
        ensures adds { HasAll number hub.old self.old → AddsFew 9 self.old.left self.new.left }
        ensures may_write { self.new.may_write ≡ self.old.may_write }
        ensures undone { OthersStayUndone number hub.old hub.new }
    {
        let before = self.unsent.len();
        let most = next_portion(is_large);
        self.feed(hub, alloc, number, &[], most);
        self.take(hub, alloc, number);
        self.unsent.len().saturating_sub(before) > SMALL
    }

    /// Steps more of what the hub kept, until enough is to be written or nothing is left to step.
    fn step_on(&mut self, hub: &mut Hub, alloc: Global, number: u64, is_large: bool)
        requires { HasAll number hub.old self.old }
        ensures serves { (moves : Option (List Moved)) → ServesPort number hub.old moves self.old hub.new moves self.new }
        ensures collects { StepsAndCollects number hub.old hub.new self.new }
        ensures bound { KeepsBound self.old.left self.new.left }
        ensures may_write { self.new.may_write ≡ self.old.may_write }
        ensures undone { OthersStayUndone number hub.old hub.new }
    {
        let mut is_large = is_large;
        for _ in 1..MOST_PORTIONS {
            // Behind a step that found no memory, others get their turns first.
            if !self.is_full || self.tries > 0 {
                return;
            }
            if !self.has_room() {
                return;
            }
            is_large |= self.step_again(hub, alloc, number, is_large);
        }
    }

    /// Steps what the hub kept, or else reads and steps, where the link is still read, and takes what is answered, up to 1 MiB
    /// and a portion.
    fn go_on<H: Host>(&mut self, hub: &mut Hub, host: &mut H, number: u64, desk: &mut Desk)
        requires { HasAll number hub.old self.old }
        ensures serves { ServesPort number hub.old (H.moves host.old) self.old hub.new (H.moves host.new) self.new }
        ensures collects { StepsAndCollects number hub.old hub.new self.new }
        ensures bound { KeepsBound self.old.left self.new.left }
        ensures asks { Reads number (H.moves host.old) (H.moves host.new) self.old }
        ensures idle { (left : List ℕ) → self.old.left ≡ Some left → 1048576 ≤ length left → self.new ≡ self.old }
        ensures may_write { self.new.may_write ≡ self.old.may_write }
        ensures undone { OthersStayUndone number hub.old hub.new }
        ensures silent { H.told host.new ≡ H.told host.old }
    {
        if !self.has_room() {
            return;
        }
        let before = self.unsent.len();
        self.start(hub, host, number, desk);
        self.take(hub, desk.alloc, number);
        let is_large = self.unsent.len().saturating_sub(before) > SMALL;
        self.step_on(hub, desk.alloc, number, is_large);
    }

    /// Tells the host whose connection it is, once its hello was accepted.
    fn greet<H: Host>(&mut self, host: &mut H, number: u64)
        ensures moved { H.moves host.new ≡ H.moves host.old }
        ensures same { self.new ≡ self.old }
        ensures silent { H.told host.new ≡ H.told host.old }
    {
        if let Some(user) = self.newcomer.take() {
            host.greeted(number, user);
        }
    }

    /// Writes what is left. Where all is written, goes on, and writes what is answered.
    fn work<H: Host>(&mut self, hub: &mut Hub, host: &mut H, number: u64, desk: &mut Desk)
        ensures serves { ServesPort number hub.old (H.moves host.old) self.old hub.new (H.moves host.new) self.new }
        ensures marks { KeepsPortMarks number hub.old self.old hub.new self.new }
        ensures turn { TakesTurn number (H.moves host.old) (H.moves host.new) self.old self.new }
        ensures undone { OthersStayUndone number hub.old hub.new }
        ensures silent { H.told host.new ≡ H.told host.old }
    {
        self.flush(desk.alloc, host, number);
        if !self.is_written() {
            return;
        }
        self.lend(&mut desk.answers);
        self.take(hub, desk.alloc, number);
        self.go_on(hub, host, number, desk);
        self.greet(host, number);
        self.flush_saved(hub, desk.alloc, host, number);
        self.give_back(desk.alloc, &mut desk.answers);
    }

    /// Ends a link whose connection keeps too much before its hello is accepted.
    fn keep_few(&mut self, hub: &Hub, number: u64)
        ensures serves { (moves : Option (List Moved)) → ServesPort number hub.now moves self.old hub.now moves self.new }
        ensures marks { KeepsPortMarks number hub.now self.old hub.now self.new }
        ensures few { self.new.ending ≡ None → has_session_at hub.now number ≡ false → kept_at hub.now number ≤ 65542 }
        ensures left { self.new.left ≡ self.old.left }
    {
        if !has_session(hub, number) && kept(hub, number) > MOST_OF_A_STRANGER {
            self.end(Ending::TooMuchUnfinished);
        }
    }

    /// Hangs the connection up, if its link has come to its end. Where memory is wanting, the next turn tries again.
    fn hang_up(&mut self, hub: &mut Hub, alloc: Global, number: u64)
        ensures serves { (moves : Option (List Moved)) → ServesPort number hub.old moves self.old hub.new moves self.new }
        ensures marks { KeepsPortMarks number hub.old self.old hub.new self.new }
        ensures left { self.new.left ≡ self.old.left }
        ensures may_write { self.new.may_write ≡ self.old.may_write }
        ensures ending { self.new.ending ≡ self.old.ending }
        ensures undone { OthersStayUndone number hub.old hub.new }
    {
        if self.ending.is_none() || self.is_over {
            return;
        }
        match hub.hang_up(alloc, Conn(number)) {
            Ok(()) | Err(HubFault::Ended | HubFault::NoSuchConn) => self.is_over = true,
            Err(HubFault::NoMemory) => {}
        }
    }

    /// How many bytes of an unfinished frame the hub keeps of its connection. Where whole requests wait there for their turn, they are of
    /// one read, and none counts.
    pub fn unfinished(&self, hub: &Hub, number: u64) -> usize {
        if self.is_full { 0 } else { kept(hub, number) }
    }

    /// Ends a link whose unfinished frame is too large beside those of the others.
    pub fn give_up(&mut self, hub: &mut Hub, alloc: Global, number: u64)
        ensures serves { (moves : Option (List Moved)) → ServesPort number hub.old moves self.old hub.new moves self.new }
        ensures marks { KeepsPortMarks number hub.old self.old hub.new self.new }
        ensures left { self.new.left ≡ self.old.left }
        ensures may_write { self.new.may_write ≡ self.old.may_write }
        ensures ended { is_some self.new.ending ≡ true }
        ensures undone { OthersStayUndone number hub.old hub.new }
    {
        self.end(Ending::TooMuchUnfinished);
        self.hang_up(hub, alloc, number);
    }

    /// A turn: writes what can be written, and where all is written steps requests or reads, and writes what is answered.
    pub fn serve<H: Host>(&mut self, hub: &mut Hub, host: &mut H, number: u64, desk: &mut Desk)
        ensures serves { ServesPort number hub.old (H.moves host.old) self.old hub.new (H.moves host.new) self.new }
        ensures marks { KeepsPortMarks number hub.old self.old hub.new self.new }
        ensures turn { TakesTurn number (H.moves host.old) (H.moves host.new) self.old self.new }
        ensures undone { OthersStayUndone number hub.old hub.new }
        ensures silent { H.told host.new ≡ H.told host.old }
    {
        self.work(hub, host, number, desk);
        self.keep_few(hub, number);
        self.hang_up(hub, desk.alloc, number);
    }

    /// Whether nothing is left to do for the link but to close it.
    pub fn is_done(&self, hub: &Hub, number: u64) -> bool
        ensures { result ≡ is_done hub.now number self.now }
    {
        if !is_over(hub, number) {
            return false;
        }
        self.is_cut || self.unsent.is_empty() && untaken(hub, number) == 0
    }
}
