//! The descriptions that are held.

ghost use Rattle.std.specs.Prelude.{◌≡◌, ◌^◌, ◌<◌, [], find, count_by, is_some, IsSome, IfOk, OnOk, OnErr};
ghost use Rattle.std.specs.Option.{option_map, option_copied};
ghost use Rattle.ipc_terms.specs.Lists.{changed_first};
ghost use Rattle.ipc_descr.specs.Descriptions.{is_desc, is_of, is_to, row_of, without_desc, without_session, with_open, with_nonblock, with_session, Rise};

use crate::row::Row;
use crate::table::Table;
use crate::tallies::Tallies;
use ipc_terms::{Access, Desc, NoMemory, Sid};
use std::alloc::Global;
use std::marker::Model;

/// The rows of the descriptions that are held, in the order of their numbers, and the number of
/// opens so far. No call goes through the rows.
#[derive(Drop)]
pub struct Descrs {
    table: Table,
    tallies: Tallies,
}

impl Model for Descrs {
    ghost use Rattle.ipc_descr.specs.Descriptions.{Descriptions};
    ghost use Rattle.ipc_descr.specs.Tallies.{Agrees};

    ghost Value = { Descriptions };

    ghost view = { λ a. a.table };

    ghost invariant = { λ a. Agrees a.tallies a.table.rows };
}

impl Descrs {
    /// No descriptions, and none opened so far.
    pub fn new(alloc: Global) -> Self
        ensures { result ≡ record { rows = []; opened = 0 } }
    {
        Descrs {
            table: Table::new(alloc),
            tallies: Tallies::new(alloc),
        }
    }

    /// Opens a description of the object for the session, and answers its number (POSIX.1-2017,
    /// `mq_open`, `sem_open`). An `Err` is want of memory: it changes nothing and uses up no number.
    pub fn open(
        &mut self,
        sid: Sid,
        object: u64,
        access: Access,
        nonblock: bool,
    ) -> Result<Desc, NoMemory>
        requires { self.old.opened < 2 ^ 63 }
        ensures ok { OnOk result (self.new ≡ with_open self.old sid object access nonblock) }
        ensures number { IfOk result (λ desc. desc.0 ≡ self.old.opened) }
        ensures err { OnErr result (self.new ≡ self.old) }
    {
        let desc = Desc(self.table.opened());
        let row = Row {
            desc,
            session: sid,
            object,
            access,
            nonblock,
        };
        self.tallies.enter(&row)?;
        match self.table.push(row) {
            Ok(()) => Ok(desc),
            Err(refused) => {
                self.tallies.leave(&row);
                Err(refused)
            }
        }
    }

    /// How many descriptions were ever opened. The numbers of those that are held rise, and stay below it.
    pub fn opened(&self) -> u64
        ensures opened { result ≡ self.now.opened }
        ensures rise { Rise 0 self.now.opened self.now.rows }
    {
        self.table.opened()
    }

    /// The row by which the session holds the description. `None`: it doesn't.
    pub fn get(&self, sid: Sid, desc: Desc) -> Option<&Row>
        ensures { option_copied result ≡ row_of self.now.rows sid.0 desc.0 }
    {
        self.table.get(sid, desc)
    }

    /// The slab key of that row. It stays until the description is closed, and may then be given to another.
    pub fn slot(&self, sid: Sid, desc: Desc) -> Option<usize>
        ensures { is_some result ≡ is_some (row_of self.now.rows sid.0 desc.0) }
    {
        self.table.slot(sid, desc)
    }

    /// Sets whether the calls by the description are refused where they would wait (`mq_setattr`).
    pub fn set_nonblock(&mut self, sid: Sid, desc: Desc, nonblock: bool)
        requires { IsSome (row_of self.old.rows sid.0 desc.0) }
        ensures { self.new ≡ record self.old { rows = changed_first (is_desc desc.0) (with_nonblock nonblock) self.old.rows } }
    {
        self.table.set_nonblock(sid, desc, nonblock);
    }

    /// Passes the description on to another session; nothing else of its row changes. An `Err` is want of memory: it
    /// changes nothing.
    pub fn hand_over(&mut self, sid: Sid, desc: Desc, taker: Sid) -> Result<(), NoMemory>
        requires { IsSome (row_of self.old.rows sid.0 desc.0) }
        ensures ok { OnOk result (self.new ≡ record self.old { rows = changed_first (is_desc desc.0) (with_session taker) self.old.rows }) }
        ensures err { OnErr result (self.new ≡ self.old) }
    {
        // Asked, so that it is known that the numbers of the rows rise.
        let _opened = self.table.opened();
        if sid != taker {
            self.tallies.pass(desc, sid, taker)?;
            self.table.set_session(sid, desc, taker);
        }
        Ok(())
    }

    /// Closes the description, and answers the object that it gave (`mq_close`, `sem_close`).
    /// `None`: the session doesn't hold it, and nothing changes.
    pub fn close(&mut self, sid: Sid, desc: Desc) -> Option<u64>
        ensures object { result ≡ option_map (λ row. row.object) (row_of self.old.rows sid.0 desc.0) }
        ensures rest { self.new ≡ record self.old { rows = without_desc self.old.rows sid.0 desc.0 } }
    {
        let closed = self.table.close(sid, desc)?;
        self.tallies.leave(&closed);
        Some(closed.object)
    }

    /// Closes all that the session holds, as where it hangs up, each in the time that one close takes.
    pub fn close_all(&mut self, sid: Sid)
        ensures { self.new ≡ record self.old { rows = without_session self.old.rows sid.0 } }
    {
        while let Some(desc) = self.first(sid) {
            self.close(sid, desc);
        }
    }

    /// The lowest description that the session holds.
    pub fn first(&self, sid: Sid) -> Option<Desc>
        ensures { result ≡ option_map (λ row. row.desc) (find (is_of sid.0) self.now.rows) }
    {
        self.tallies.first(sid)
    }

    /// The session that holds the description.
    pub fn holder(&self, desc: Desc) -> Option<Sid>
        ensures { result ≡ option_map (λ row. row.session) (find (is_desc desc.0) self.now.rows) }
    {
        self.table.holder(desc)
    }

    /// How many descriptions the session holds.
    pub fn count(&self, sid: Sid) -> usize
        ensures { result ≡ count_by (is_of sid.0) self.now.rows }
    {
        self.tallies.count(sid)
    }

    /// How many descriptions give the object, whoever holds them.
    pub fn uses(&self, object: u64) -> usize
        ensures { result ≡ count_by (is_to object) self.now.rows }
    {
        self.tallies.uses(object)
    }
}
