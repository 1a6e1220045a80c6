//! Which connections were answered since they were last named.

ghost use Rattle.std.specs.Prelude.{◌≡◌, ◌==◌, ◌<◌, ◌++◌, ◌∷◌, [], ℕ, true, false, length, slice_set, IfSome, IfNone, OnOk, OnErr};
ghost use Rattle.std.specs.Option.{option_to_list};
ghost use Rattle.ipc_hub.specs.Marking.{is_set, owner_of, with_owner, without_newest, without_owner, MarksOwners};

use ipc_containers::Numbered;
use ipc_terms::{NoMemory, Sid};
use std::alloc::Global;
use std::marker::Model;

/// Room for so many marks stays, however few flags there are.
const FEW: usize = 64;

/// Whose each session is that is live, and the connections that were answered. Room for a mark is made with the connection, so a
/// mark takes no memory.
#[derive(Drop)]
pub struct Marks {
    /// How many sessions began before the first that has a connection.
    before: u64,
    /// The connections of the others that are live, by the sessions' numbers.
    owners: Numbered<u64>,
    /// Whether each connection is marked, of those that may be marked, or still are.
    flags: Numbered<bool>,
    /// How many flags there are.
    count: usize,
    /// The connections that are marked, each once.
    list: Vec<u64>,
}

impl Model for Marks {
    ghost use Rattle.std.specs.Prelude.{map, is_some, vec_capacity};
    ghost use Rattle.ipc_hub.specs.Marking.{flag_in, MarksView, AreMarks};

    ghost Value = { MarksView };

    ghost view = { λ m. record { owners = record { before = m.before; list = m.owners }; marked = map flag_in m.flags; flagged = map is_some m.flags } };

    ghost invariant = { λ m. AreMarks m.flags m.count m.list.items (vec_capacity m.list) };
}

impl Marks {
    /// No connection, and so many sessions, of which none has one. Takes no memory.
    pub fn new(alloc: Global, before: u64) -> Marks
        ensures { result ≡ record { owners = record { before = before; list = [] }; marked = []; flagged = [] } }
    {
        Marks {
            before,
            owners: Numbered::new(alloc),
            flags: Numbered::new(alloc),
            count: 0,
            list: Vec::new(alloc),
        }
    }

    /// One more connection, which has no mark. An `Err` changes nothing.
    pub fn push_connection(&mut self) -> Result<(), NoMemory>
        ensures ok { OnOk result (self.new ≡ record self.old { marked = self.old.marked ++ false ∷ []; flagged = self.old.flagged ++ true ∷ [] }) }
        ensures err { OnErr result (self.new ≡ self.old) }
    {
        let Some(count) = self.count.checked_add(1) else {
            return Err(NoMemory);
        };
        self.list.reserve(count - self.list.len())?;
        self.flags.push(false)?;
        self.count = count;
        Ok(())
    }

    /// Keeps no flag of the connection, if it has no mark. It can't fail.
    pub fn let_go(&mut self, connection: u64)
        ensures same { self.new ≡ record self.old { flagged = self.new.flagged } }
        ensures count { length self.new.flagged ≡ length self.old.flagged }
        ensures others { (j : ℕ) → (j == connection) ≡ false → is_set self.new.flagged j ≡ is_set self.old.flagged j }
        ensures gone { is_set self.old.marked connection ≡ false → is_set self.new.flagged connection ≡ false }
    {
        let i = connection as usize;
        let Some(has_mark) = self.flags.get(i) else {
            return;
        };
        if !*has_mark {
            self.flags.take(i);
            self.count -= 1;
            self.give_room_back();
        }
    }

    /// Where there is room for over four times as many marks as there are flags, room for twice as many is left. If the smaller
    /// block is refused, the room stays.
    fn give_room_back(&mut self)
        ensures { self.new ≡ self.old }
    {
        let wanted = self.count.max(FEW);
        if self.list.capacity() / 4 > wanted {
            self.list.shrink_to(2 * wanted);
        }
    }

    /// The next session is this connection's. An `Err` changes nothing.
    pub fn push_session(&mut self, connection: u64) -> Result<(), NoMemory>
        ensures ok { OnOk result (self.new ≡ record self.old { owners = with_owner connection self.old.owners }) }
        ensures err { OnErr result (self.new ≡ self.old) }
    {
        self.owners.push(connection)
    }

    /// Undoes the last push of a session, which did not start. It can't fail.
    pub fn undo_session(&mut self)
        ensures { self.new ≡ record self.old { owners = without_newest self.old.owners } }
    {
        self.owners.undo_push();
    }

    /// Keeps nothing of a session that has ended. It can't fail.
    pub fn end_session(&mut self, sid: Sid)
        ensures { self.new ≡ record self.old { owners = without_owner sid.0 self.old.owners } }
    {
        if let Some(place) = sid.0.checked_sub(self.before) {
            self.owners.take(place as usize);
        }
    }

    /// Marks the connection, if its flag is kept. Takes no memory.
    pub fn mark(&mut self, connection: u64)
        ensures kept { is_set self.old.flagged connection ≡ true → self.new ≡ record self.old { marked = slice_set self.old.marked connection true } }
        ensures none { is_set self.old.flagged connection ≡ false → self.new ≡ self.old }
        ensures within { is_set self.old.flagged connection ≡ true → connection < length self.old.marked }
    {
        let Some(is_marked) = self.flags.get_mut(connection as usize) else {
            return;
        };
        if !*is_marked {
            *is_marked = true;
            self.list.push_reserved(connection);
        }
    }

    /// Marks the session's connection, if its flag is kept. Takes no memory.
    pub fn mark_session(&mut self, session: Option<Sid>)
        ensures { MarksOwners self.old (option_to_list session) self.new }
    {
        let Some(sid) = session else {
            return;
        };
        if let Some(connection) = owner_of(self.before, &self.owners, sid) {
            self.mark(connection);
        }
    }

    /// A connection that is marked, which is marked no longer.
    pub fn next(&mut self) -> Option<u64>
        ensures some { IfSome result (λ i. (is_set self.old.marked i ≡ true) × (self.new ≡ record self.old { marked = slice_set self.old.marked i false })) }
        ensures none { IfNone result ((i : ℕ) → is_set self.old.marked i ≡ false) }
        ensures same { IfNone result (self.new ≡ self.old) }
    {
        let connection = self.list.pop()?;
        let Some(is_marked) = self.flags.get_mut(connection as usize) else {
            unreachable!();
        };
        *is_marked = false;
        Some(connection)
    }
}

/// The connection of the session, if it has one: where so many began before the first that has, and these are those of the others.
fn owner_of(before: u64, owners: &Numbered<u64>, sid: Sid) -> Option<u64>
    ensures { result ≡ owner_of (record { before = before; list = owners.now }) sid.0 }
{
    let place = sid.0.checked_sub(before)?;
    owners.get(place as usize).copied()
}
