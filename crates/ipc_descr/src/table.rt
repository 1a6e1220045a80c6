//! The rows, found by their numbers.

ghost use Rattle.std.specs.Prelude.{◌≡◌, ◌+◌, ◌^◌, ◌<◌, [], ◌∷◌, ◌++◌, find, is_some, IsSome, IfSome, IfNone, OnOk, OnErr, Some};
ghost use Rattle.std.specs.Option.{OnSome, option_map, option_copied, option_and_then};
ghost use Rattle.slab.specs.Slab.{get, slab_len, Updates};
ghost use Rattle.ipc_terms.specs.Lists.{changed, changed_first};
ghost use Rattle.ipc_containers.specs.Slots.{at, emptied};
ghost use Rattle.ipc_descr.specs.Descriptions.{is_desc, if_of, row_of, without_desc, with_nonblock, with_session, Rise};
ghost use Rattle.ipc_descr.specs.Counting.{Gone};
ghost use Rattle.ipc_descr.specs.Places.{row_numbered};

use crate::row::Row;
use ipc_containers::Numbered;
use ipc_terms::{Desc, NoMemory, Sid};
use slab::Slab;
use std::alloc::Global;
use std::marker::Model;

/// The rows of the descriptions that are held, and the number of opens so far. Each row stands at a
/// key of a slab, and that key stands at the row's number. No look-up scans.
#[derive(Drop)]
pub struct Table {
    rows: Slab<Row>,
    /// The slab key at which the row of each number stands. A close takes it out: slab keys are used again.
    slots: Numbered<usize>,
}

impl Model for Table {
    ghost use Rattle.std.specs.Prelude.{length};
    ghost use Rattle.slab.specs.Slab.{get};
    ghost use Rattle.ipc_descr.specs.Descriptions.{Descriptions};
    ghost use Rattle.ipc_descr.specs.Places.{rows_of, Kept};

    ghost Value = { Descriptions };

    ghost view = { λ a. record { rows = rows_of (get a.rows) 0 a.slots; opened = length a.slots } };

    ghost invariant = { λ a. Kept a.rows a.slots };
}

impl Table {
    pub fn new(alloc: Global) -> Self
        ensures { result ≡ record { rows = []; opened = 0 } }
    {
        Table {
            rows: Slab::new(alloc),
            slots: Numbered::new(alloc),
        }
    }

    /// How many rows were ever added. The numbers of those that are left rise, and stay below it.
    pub fn opened(&self) -> u64
        ensures opened { result ≡ self.now.opened }
        ensures rise { Rise 0 self.now.opened self.now.rows }
    {
        self.slots.next_number() as u64
    }

    /// Adds a row, which has the next number. An `Err` changes nothing.
    pub fn push(&mut self, row: Row) -> Result<(), NoMemory>
        requires number { row.desc.0 ≡ self.old.opened }
        requires few { self.old.opened < 2 ^ 63 }
        ensures ok { OnOk result (self.new ≡ record { rows = self.old.rows ++ row ∷ []; opened = self.old.opened + 1 }) }
        ensures err { OnErr result (self.new ≡ self.old) }
    {
        self.rows.reserve(1)?;
        self.slots.push(self.rows.vacant_key())?;
        self.rows.insert_reserved(row);
        Ok(())
    }

    /// The slab key of the row by which the session holds the description.
    pub fn slot(&self, sid: Sid, desc: Desc) -> Option<usize>
        ensures { is_some result ≡ is_some (row_of self.now.rows sid.0 desc.0) }
    {
        slot_of(&self.rows, &self.slots, sid, desc)
    }

    /// The row by which the session holds the description.
    pub fn get(&self, sid: Sid, desc: Desc) -> Option<&Row>
        ensures { option_copied result ≡ row_of self.now.rows sid.0 desc.0 }
    {
        let slot = slot_of(&self.rows, &self.slots, sid, desc)?;
        self.rows.get(slot)
    }

    /// Sets whether the calls by the description are refused where they would wait.
    pub fn set_nonblock(&mut self, sid: Sid, desc: Desc, nonblock: bool)
        requires { IsSome (row_of self.old.rows sid.0 desc.0) }
        ensures { self.new ≡ record self.old { rows = changed_first (is_desc desc.0) (with_nonblock nonblock) self.old.rows } }
    {
        let Some(slot) = slot_of(&self.rows, &self.slots, sid, desc) else {
            return;
        };
        set_row(&mut self.rows, slot, nonblock);
    }

    /// Passes the description on to another session.
    pub fn set_session(&mut self, sid: Sid, desc: Desc, taker: Sid)
        requires { IsSome (row_of self.old.rows sid.0 desc.0) }
        ensures { self.new ≡ record self.old { rows = changed_first (is_desc desc.0) (with_session taker) self.old.rows } }
    {
        let Some(slot) = slot_of(&self.rows, &self.slots, sid, desc) else {
            return;
        };
        pass_row(&mut self.rows, slot, taker);
    }

    /// Takes out the row by which the session holds the description.
    pub fn close(&mut self, sid: Sid, desc: Desc) -> Option<Row>
        ensures row { result ≡ row_of self.old.rows sid.0 desc.0 }
        ensures rest { self.new ≡ record self.old { rows = without_desc self.old.rows sid.0 desc.0 } }
        ensures absent { IfNone result (self.new ≡ self.old) }
        ensures gone { IfSome result (λ row. Gone row self.old.rows self.new.rows) }
    {
        let slot = slot_of(&self.rows, &self.slots, sid, desc)?;
        take_row(&mut self.rows, &mut self.slots, slot, desc)
    }

    /// The session that holds the description.
    pub fn holder(&self, desc: Desc) -> Option<Sid>
        ensures { result ≡ option_map (λ row. row.session) (find (is_desc desc.0) self.now.rows) }
    {
        let row = find_row(&self.rows, &self.slots, desc)?;
        Some(row.session)
    }
}

/// The row of the description.
fn find_row<'a>(rows: &'a Slab<Row>, slots: &Numbered<usize>, desc: Desc) -> Option<&'a Row>
    ensures { option_copied result ≡ row_numbered (get rows.now) slots.now desc.0 }
{
    let slot = *slots.get(desc.0 as usize)?;
    let row = rows.get(slot)?;
    if row.desc.0 == desc.0 {
        Some(row)
    } else {
        None
    }
}

/// The slab key of the row by which the session holds the description.
fn slot_of(rows: &Slab<Row>, slots: &Numbered<usize>, sid: Sid, desc: Desc) -> Option<usize>
    ensures row { option_and_then (get rows.now) result ≡ option_and_then (if_of sid.0) (row_numbered (get rows.now) slots.now desc.0) }
    ensures held { is_some result ≡ is_some (option_and_then (if_of sid.0) (row_numbered (get rows.now) slots.now desc.0)) }
    ensures slot { IfSome result (λ slot. at slots.now desc.0 ≡ Some slot) }
{
    let slot = *slots.get(desc.0 as usize)?;
    let row = rows.get(slot)?;
    if row.desc.0 == desc.0 && row.session.0 == sid.0 {
        Some(slot)
    } else {
        None
    }
}

/// Takes the row out of the slab, and its key from its number.
fn take_row(
    rows: &mut Slab<Row>,
    slots: &mut Numbered<usize>,
    slot: usize,
    desc: Desc,
) -> Option<Row>
    ensures row { result ≡ get rows.old slot }
    ensures updates { Updates rows.old rows.new slot None }
    ensures len { OnSome result (slab_len rows.new + 1 ≡ slab_len rows.old) }
    ensures slots { slots.new ≡ changed emptied slots.old desc.0 }
{
    slots.take(desc.0 as usize);
    rows.try_remove(slot)
}

/// Makes the row another session's.
fn pass_row(rows: &mut Slab<Row>, slot: usize, taker: Sid)
    ensures row { Updates rows.old rows.new slot (option_map (with_session taker) (get rows.old slot)) }
    ensures len { slab_len rows.new ≡ slab_len rows.old }
{
    if let Some(row) = rows.get_mut(slot) {
        row.session = taker;
    }
}

/// Sets whether the calls by the description of the row are refused where they would wait.
fn set_row(rows: &mut Slab<Row>, slot: usize, nonblock: bool)
    ensures row { Updates rows.old rows.new slot (option_map (with_nonblock nonblock) (get rows.old slot)) }
    ensures len { slab_len rows.new ≡ slab_len rows.old }
{
    if let Some(row) = rows.get_mut(slot) {
        row.nonblock = nonblock;
    }
}
