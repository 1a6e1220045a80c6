//! The hub.

ghost use Rattle.std.specs.Prelude.{◌≡◌, ◌<◌, ◌≤◌, ◌+◌, ◌++◌, [], ℕ, List, false, true, is_some, slice_get, None, Some, length, min, max, option_map, IfOk, IfErr, IfSome, IfNone, OnOk, OnErr, MatchOption};
ghost use Rattle.ipc_state.specs.Ranges.{first_bad};
ghost use Rattle.ipc_state.specs.NextDeadline.{IsNextDeadline, EndsOncePast};
ghost use Rattle.ipc_trail.specs.Sizes.{kept_bytes};
ghost use Rattle.ipc_policy.specs.Decides.Bodies.{due};
ghost use Rattle.ipc_policy.specs.Decides.Verdict.{Legal};
ghost use Rattle.ipc_core.specs.Outboxes.{BoxesAgree};
ghost use Rattle.ipc_hub.specs.Hub.{new_hub, with_connection, untaken_at, is_over_at, is_marked, started_at, IsGone, fault_of_change, fault_of_take, IsFaultOr, IsSessionFault, Feeds, HangsUp, Takes, Names, Ticks, Forgets};
ghost use Rattle.ipc_hub.specs.Sessions.{EachHasItsOwn};
ghost use Rattle.ipc_hub.specs.Stepping.{is_full, IsWithin};
ghost use Rattle.ipc_hub.specs.declared.fed.Fed.TheVariants.{Full};
ghost use Rattle.ipc_hub.specs.declared.fed.HubFault.TheVariants.{NoMemory as Refused};

use crate::connection::Connection;
use crate::fed::{Fed, HubFault};
use crate::marked_core::MarkedCore;
use ipc_containers::Numbered;
use ipc_core::{Config, Core, CoreFault};
use ipc_terms::{Event, Record, Uid};
use ipc_trail::Trail;
use std::alloc::Global;
use std::marker::Model;
use std::snapshot::Snapshot;

/// A connection of a hub, by its number: how many were opened before. No number is used twice.
#[derive(Clone, Copy, PartialEq, Eq)]
pub struct Conn(pub u64);

/// One core and many connections. Each connection is a stream of bytes in, which are a hello's frame and then
/// calls' frames, and a stream of bytes out, which are the frames of all that its session is answered.
pub struct Hub {
    core: MarkedCore,
    /// All but those that are gone: they are over, and nothing of them is left to be taken.
    connections: Numbered<Connection>,
    gone: Snapshot<Gone>,
}

/// The connections that are gone, as they were then. Proofs alone read it; nothing of it is kept at run time.
#[derive(Drop)]
enum Gone {
    /// None yet.
    Nothing,
    /// After all else the one of this number.
    Also(Snapshot<usize>, Snapshot<Connection>, Snapshot<Snapshot<Gone>>),
}

// Called, so that it isn't written out and proved at each exit of a function.
impl Drop for Hub {
    fn drop(self) {
        let Hub {
            core: _core,
            connections: _connections,
            gone: _gone,
        } = self;
    }
}

impl Model for Hub {
    ghost use Rattle.ipc_hub.specs.Hub.{Hub};
    ghost use Rattle.ipc_hub.specs.Gone.{all_of, AreAway};
    ghost use Rattle.ipc_hub.specs.Sessions.{Stands};

    ghost Value = { Hub };

    ghost view = { λ h. record { core = h.core.core; connections = all_of h.connections h.gone.value; marked = h.core.marked } };

    ghost invariant = { λ h. Stands h.core (all_of h.connections h.gone.value) × AreAway h.core.core h.connections h.gone.value };
}

impl Hub {
    /// A hub with an empty trail and no connection, or the first limit that is out of its range, in the order
    /// `msg_max`, `msgsize_max`, `queues_max`. An `Err` drops the configuration.
    pub fn new(alloc: Global, config: Config) -> Result<Hub, CoreFault>
        ensures ok { IfOk result (λ hub. hub ≡ new_hub config) }
        ensures in_range { OnOk result (first_bad config.limits ≡ None) }
        ensures bad { IfErr result (λ fault. MatchOption (first_bad config.limits) (fault ≡ CoreFault.NoMemory) (λ field. fault ≡ CoreFault.BadConfig field)) }
    {
        let core = Core::new(alloc, config)?;
        Ok(Hub::of_core(alloc, core))
    }

    /// A hub that goes on over a core, without a connection: of the sessions that the core has none is a connection's. Takes no
    /// memory.
    pub fn of_core(alloc: Global, core: Core) -> Hub
        ensures { result ≡ record { core = core; connections = []; marked = [] } }
    {
        Hub {
            core: MarkedCore::of_core(alloc, core),
            connections: Numbered::new(alloc),
            gone: Snapshot::of(&Gone::Nothing),
        }
    }

    /// The trail is legal, what is untaken is the last of what each session was answered while it was live, no
    /// two connections have one session, a session is live exactly as long as its connection is not over, and there are
    /// as many marks, set or not, as connections. Does nothing; facts of every hub.
    pub fn is_sound(&self)
        ensures legal { Legal self.now.core.config self.now.core.history }
        ensures last { BoxesAgree self.now.core.config self.now.core.history self.now.core.untaken }
        ensures sessions { EachHasItsOwn self.now.core self.now.connections }
        ensures marks { length self.now.marked ≡ length self.now.connections }
    {
        self.core.core().is_legal();
        self.core.core().keeps_the_last();
    }

    /// A new connection. An `Err` changes nothing.
    pub fn open(&mut self, alloc: Global) -> Result<Conn, HubFault>
        ensures number { IfOk result (λ conn. conn.0 ≡ length self.old.connections) }
        ensures ok { OnOk result (self.new ≡ with_connection self.old) }
        ensures err { OnErr result (self.new ≡ self.old) }
        ensures fault { IfErr result (λ fault. fault ≡ Refused) }
    {
        let conn = Conn(self.connections.next_number() as u64);
        self.connections.push(Connection::new(alloc)?)?;
        if self.core.push_connection().is_err() {
            self.connections.undo_push();
            return Err(HubFault::NoMemory);
        }
        Ok(conn)
    }

    /// Where the connection stands.
    fn place_of(&self, conn: Conn) -> Result<usize, HubFault>
        ensures ok { IfOk result (λ i. (i ≡ conn.0) × (i < length self.now.connections)) }
        ensures none { OnOk result (fault_of_take (slice_get self.now.connections conn.0) ≡ None) }
        ensures fault { IfErr result (λ fault. fault_of_take (slice_get self.now.connections conn.0) ≡ Some fault) }
    {
        let i = conn.0 as usize;
        if self.connections.next_number() <= i {
            return Err(HubFault::NoSuchConn);
        }
        Ok(i)
    }

    /// Where the connection stands, if it is not over.
    fn open_place_of(&self, conn: Conn) -> Result<usize, HubFault>
        ensures ok { IfOk result (λ i. (i ≡ conn.0) × (i < length self.now.connections)) }
        ensures none { OnOk result (fault_of_change (slice_get self.now.connections conn.0) ≡ None) }
        ensures fault { IfErr result (λ fault. fault_of_change (slice_get self.now.connections conn.0) ≡ Some fault) }
    {
        let i = self.place_of(conn)?;
        match self.connections.get(i) {
            Some(connection) if !connection.is_over() => Ok(i),
            _ => Err(HubFault::Ended),
        }
    }

    /// Feeds the connection as long as fewer of its answers are untaken than are allowed, if there is a bound.
    fn feed_within(
        &mut self,
        alloc: Global,
        conn: Conn,
        piece: &[u8],
        most: Option<usize>,
    ) -> Result<Fed, HubFault>
        ensures ok { IfOk result (λ fed. Feeds self.old conn.0 piece.now fed self.new) }
        ensures full { IfOk result (λ fed. fed ≡ Full → is_full most (length (untaken_at self.new conn.0)) ≡ true) }
        ensures within { OnOk result (IsWithin most (length (untaken_at self.old conn.0)) (length (untaken_at self.new conn.0))) }
        ensures err { OnErr result (self.new ≡ self.old) }
        ensures fault { IfErr result (λ fault. IsFaultOr (fault_of_change (slice_get self.old.connections conn.0)) fault) }
    {
        let i = self.open_place_of(conn)?;
        let Some(connection) = self.connections.get_mut(i) else {
            unreachable!();
        };
        Ok(connection.feed(&mut self.core, alloc, conn.0, most, piece)?)
    }

    /// Takes a piece of the connection's stream, and steps the requests of the frames that are whole now. How far
    /// a `Short` went is not said. An `Err` takes nothing of the piece and changes nothing.
    pub fn feed(&mut self, alloc: Global, conn: Conn, piece: &[u8]) -> Result<Fed, HubFault>
        ensures ok { IfOk result (λ fed. Feeds self.old conn.0 piece.now fed self.new) }
        ensures never_full { IfOk result (λ fed. fed ≡ Full → ⊥) }
        ensures err { OnErr result (self.new ≡ self.old) }
        ensures fault { IfErr result (λ fault. IsFaultOr (fault_of_change (slice_get self.old.connections conn.0)) fault) }
    {
        self.feed_within(alloc, conn, piece, None)
    }

    /// The same, but stops before the next step once so many answers of the connection are untaken, or more: `Full`.
    /// An `Err` takes nothing of the piece and changes nothing.
    pub fn feed_some(
        &mut self,
        alloc: Global,
        conn: Conn,
        piece: &[u8],
        most: usize,
    ) -> Result<Fed, HubFault>
        ensures ok { IfOk result (λ fed. Feeds self.old conn.0 piece.now fed self.new) }
        ensures full { IfOk result (λ fed. fed ≡ Full → most ≤ length (untaken_at self.new conn.0)) }
        ensures bound { OnOk result (length (untaken_at self.new conn.0) ≤ max (length (untaken_at self.old conn.0)) (most + 1)) }
        ensures err { OnErr result (self.new ≡ self.old) }
        ensures fault { IfErr result (λ fault. IsFaultOr (fault_of_change (slice_get self.old.connections conn.0)) fault) }
    {
        self.feed_within(alloc, conn, piece, Some(most))
    }

    /// Ends the connection and hangs its session up, if there is one. What was fed and not stepped is dropped;
    /// what was answered can still be taken. An `Err` changes nothing.
    pub fn hang_up(&mut self, alloc: Global, conn: Conn) -> Result<(), HubFault>
        ensures ok { OnOk result (HangsUp self.old conn.0 self.new) }
        ensures err { OnErr result (self.new ≡ self.old) }
        ensures fault { IfErr result (λ fault. IsFaultOr (fault_of_change (slice_get self.old.connections conn.0)) fault) }
    {
        let i = self.open_place_of(conn)?;
        let Some(connection) = self.connections.get_mut(i) else {
            unreachable!();
        };
        Ok(connection.hang_up(&mut self.core, alloc)?)
    }

    /// A connection that was answered since it was last named here, or opened, if there is one. Each is named once.
    /// It can't fail.
    pub fn next_answered(&mut self) -> Option<Conn>
        ensures some { IfSome result (λ conn. Names self.old conn.0 self.new) }
        ensures none { IfNone result ((i : ℕ) → is_marked self.old i ≡ false) }
        ensures same { IfNone result (self.new ≡ self.old) }
    {
        let number = self.core.next_answered()?;
        // One that is gone is answered nothing more.
        if self.connections.get(number as usize).is_none() {
            self.core.let_go(number);
        }
        Some(Conn(number))
    }

    /// Puts the frames of all that the connection was answered and has not taken at the end of a buffer, and leaves
    /// none; also of a connection that is over. An `Err` changes nothing, and leaves what stood in the buffer.
    pub fn take_into(&mut self, conn: Conn, out: &mut Vec<u8>) -> Result<(), HubFault>
        ensures ok { OnOk result ((bytes : List ℕ) × (out.new.items ≡ out.old.items ++ bytes) × Takes self.old conn.0 bytes self.new) }
        ensures err { OnErr result (self.new ≡ self.old) }
        ensures kept { OnErr result (out.new.items ≡ out.old.items) }
        ensures fault { IfErr result (λ fault. IsFaultOr (fault_of_take (slice_get self.old.connections conn.0)) fault) }
    {
        let i = self.place_of(conn)?;
        self.core.core().is_legal();
        self.core.core().keeps_the_last();
        let Some(connection) = self.connections.get_mut(i) else {
            return Ok(());
        };
        Ok(connection.take_into(&mut self.core, out)?)
    }

    /// The frames that `take_into` would put into an empty buffer. An `Err` changes nothing.
    pub fn take(&mut self, alloc: Global, conn: Conn) -> Result<Vec<u8>, HubFault>
        ensures ok { IfOk result (λ bytes. Takes self.old conn.0 bytes.items self.new) }
        ensures err { OnErr result (self.new ≡ self.old) }
        ensures fault { IfErr result (λ fault. IsFaultOr (fault_of_take (slice_get self.old.connections conn.0)) fault) }
    {
        let mut bytes = Vec::new(alloc);
        self.take_into(conn, &mut bytes)?;
        Ok(bytes)
    }

    /// Drops all that the connection was answered and has not taken, as a take does whose bytes go nowhere; also of a
    /// connection that is over, of which nothing is left then. No want of memory fails it. An `Err` changes nothing.
    pub fn discard(&mut self, conn: Conn) -> Result<(), HubFault>
        ensures ok { OnOk result ((bytes : List ℕ) × Takes self.old conn.0 bytes self.new) }
        ensures gone { OnOk result (is_over_at self.old conn.0 ≡ true → IsGone self.new conn.0) }
        ensures err { OnErr result (self.new ≡ self.old) }
        ensures fault { IfErr result (λ fault. fault_of_take (slice_get self.old.connections conn.0) ≡ Some fault) }
    {
        let i = self.place_of(conn)?;
        self.core.core().is_legal();
        self.core.core().keeps_the_last();
        let Some(connection) = self.connections.get_mut(i) else {
            return Ok(());
        };
        connection.discard(&mut self.core);
        self.let_go(i);
        Ok(())
    }

    /// Keeps nothing of the connection if it is over, and nothing of it is left, but its mark until it is named.
    fn let_go(&mut self, i: usize)
        requires { is_over_at self.old i ≡ true → IsGone self.old i }
        ensures { self.new ≡ self.old }
    {
        let Some(connection) = self.connections.get(i) else {
            return;
        };
        if connection.is_over() && connection.kept() == 0 {
            self.gone = Snapshot::of(&Gone::Also(
                Snapshot::of(&i),
                Snapshot::of(connection),
                Snapshot::of(&self.gone),
            ));
            self.connections.take(i);
            self.core.let_go(i as u64);
        }
    }

    /// The core of all connections.
    pub fn core(&self) -> &Core
        ensures { result.now ≡ self.now.core }
    {
        self.core.core()
    }

    /// The trail of all connections.
    pub fn trail(&self) -> &Trail
        ensures history { result.now.history ≡ self.now.core.history }
        ensures first { result.now.first ≡ self.now.core.first }
    {
        self.core.core().trail()
    }

    /// How many events are recorded.
    pub fn recorded(&self) -> usize
        ensures { result ≡ length self.now.core.history }
    {
        self.core.core().trail().len()
    }

    /// The place of the oldest record that is kept; how many events are recorded, where none is.
    pub fn first_kept(&self) -> u64
        ensures first { result ≡ self.now.core.first }
        ensures within { result ≤ length self.now.core.history }
    {
        self.core.core().trail().first()
    }

    /// About how many bytes the records that are kept take: 128 each, and the messages and names in them.
    pub fn record_bytes(&self) -> u64
        ensures { result ≤ kept_bytes self.now.core.first self.now.core.history }
    {
        self.core.core().trail().bytes()
    }

    /// Forgets the oldest record that is kept, if there is one. Each later event is decided on and answered as before: only
    /// an audit that would begin before the oldest record that is left begins there. Takes no memory.
    pub fn forget_one(&mut self)
        ensures forgets { Forgets self.old self.new }
        ensures one { self.new.core.first ≡ min (self.old.core.first + 1) (length self.old.core.history) }
    {
        self.core.forget_one();
    }

    /// The user whose session the event at this place of the trail started; places count from 0. `None` where no accepted
    /// hello stands there, and where the record was forgotten. A connection's hello is the first event of the feed that
    /// steps it, so it stands where `recorded` was before.
    pub fn started_at(&self, place: usize) -> Option<Uid>
        ensures { result ≡ started_at self.now place }
    {
        match self.core.core().trail().get(place)? {
            Record {
                event: Event::Hello { found },
                rule: None,
            } => *found,
            _ => None,
        }
    }

    /// Whether the connection is over.
    pub fn is_over(&self, conn: Conn) -> Result<bool, HubFault>
        ensures ok { IfOk result (λ b. option_map (λ x. x.is_over) (slice_get self.now.connections conn.0) ≡ Some b) }
        ensures fault { IfErr result (λ fault. fault_of_take (slice_get self.now.connections conn.0) ≡ Some fault) }
    {
        let i = self.place_of(conn)?;
        match self.connections.get(i) {
            Some(connection) => Ok(connection.is_over()),
            None => Ok(true),
        }
    }

    /// Whether the connection has a session, or had one: whether its hello was accepted. It is known no more of one that is over
    /// and of which nothing is left: `Ended`.
    pub fn has_session(&self, conn: Conn) -> Result<bool, HubFault>
        ensures ok { IfOk result (λ b. option_map (λ x. is_some x.session) (slice_get self.now.connections conn.0) ≡ Some b) }
        ensures fault { IfErr result (IsSessionFault (slice_get self.now.connections conn.0)) }
    {
        let i = self.place_of(conn)?;
        match self.connections.get(i) {
            Some(connection) => Ok(connection.has_session()),
            None => Err(HubFault::Ended),
        }
    }

    /// How many answers the connection has not taken.
    pub fn untaken(&self, conn: Conn) -> Result<usize, HubFault>
        ensures ok { IfOk result (λ n. n ≡ length (untaken_at self.now conn.0)) }
        ensures fault { IfErr result (λ fault. fault_of_take (slice_get self.now.connections conn.0) ≡ Some fault) }
        ensures there { OnOk result (fault_of_take (slice_get self.now.connections conn.0) ≡ None) }
    {
        let i = self.place_of(conn)?;
        match self.connections.get(i) {
            Some(connection) => Ok(connection.untaken(self.core.core())),
            None => Ok(0),
        }
    }

    /// How many bytes of the connection's stream are kept, which were not stepped.
    pub fn kept(&self, conn: Conn) -> Result<usize, HubFault>
        ensures ok { IfOk result (λ n. option_map (λ x. length x.kept) (slice_get self.now.connections conn.0) ≡ Some n) }
        ensures fault { IfErr result (λ fault. fault_of_take (slice_get self.now.connections conn.0) ≡ Some fault) }
    {
        let i = self.place_of(conn)?;
        match self.connections.get(i) {
            Some(connection) => Ok(connection.kept()),
            None => Ok(0),
        }
    }

    /// Whether a tick of this moment would end a call. Takes no memory.
    pub fn due(&self, moment: u64) -> bool
        ensures { result ≡ is_some (due self.now.core.config self.now.core.history moment) }
    {
        self.core.core().due(moment).is_some()
    }

    /// The least deadline of the calls that are parked, if one of them has one. A tick ends a call exactly where it is past.
    /// Takes no memory.
    pub fn least_deadline(&self) -> Option<u64>
        ensures least { IsNextDeadline self.now.core.config self.now.core.history result }
        ensures due { EndsOncePast self.now.core.config self.now.core.history result }
    {
        self.core.core().least_deadline()
    }

    /// Makes a tick of this moment, which ends the earliest parked timed call whose deadline is past, if there is
    /// one, and tells its session so. An `Err` changes nothing.
    pub fn tick(&mut self, alloc: Global, moment: u64) -> Result<(), HubFault>
        ensures ok { OnOk result (Ticks self.old moment self.new) }
        ensures err { OnErr result (self.new ≡ self.old) }
        ensures fault { IfErr result (λ fault. fault ≡ Refused) }
    {
        self.core.core().is_legal();
        self.core.core().keeps_the_last();
        self.core.post(alloc, Event::Tick { moment })?;
        Ok(())
    }
}
