//! Records of a trail on their way into a file.

ghost use Rattle.std.specs.Prelude.{◌≡◌, ◌≤◌, ◌<◌, ◌==◌, [], length, Some, IfOk, OnOk};
ghost use Rattle.ipc_log.specs.Trail.{spell_head};
ghost use Rattle.ipc_log.specs.Writing.{Spells, Writes};

use crate::head::{Head, put_head};
use crate::record_writing::put_record;
use ipc_fields::WriteFault;
use ipc_trail::Trail;
use std::alloc::Global;
use std::io;
use std::io::{ErrorKind, Write};
use std::marker::Model;

/// The most room that the buffer keeps once all is written.
const KEPT_ROOM: usize = 1_048_576;

/// The bytes of a trail's file that are spelled and not written yet: its head, and behind it each record once.
#[derive(Drop)]
pub struct TrailWriter {
    alloc: Global,
    text: Vec<u8>,
    /// How many bytes of the text are written.
    written: usize,
    /// How many records are spelled; the place of the next.
    spelled: u64,
}

impl Model for TrailWriter {
    ghost use Rattle.std.specs.Prelude.{◌≤◌, drop, length};
    ghost use Rattle.ipc_log.specs.Writing.{Pending};

    ghost Value = { Pending };

    ghost view = { λ w. record { left = drop w.written w.text.items; spelled = w.spelled } };

    ghost invariant = { λ w. w.written ≤ length w.text.items };
}

impl TrailWriter {
    /// The head is spelled, and no record.
    pub fn new(alloc: Global, head: &Head) -> Result<TrailWriter, WriteFault>
        ensures head { IfOk result (λ writer. spell_head head.now ≡ Some writer.left) }
        ensures first { IfOk result (λ writer. writer.spelled ≡ head.now.first) }
    {
        let mut text = Vec::new(alloc);
        put_head(&mut text, head)?;
        Ok(TrailWriter {
            alloc,
            text,
            written: 0,
            spelled: head.first,
        })
    }

    /// Nothing is spelled: what stands behind a head and the records before this place goes on with it. Takes no memory.
    pub fn behind(alloc: Global, place: u64) -> TrailWriter
        ensures left { result.left ≡ [] }
        ensures place { result.spelled ≡ place }
    {
        TrailWriter {
            alloc,
            text: Vec::new(alloc),
            written: 0,
            spelled: place,
        }
    }

    /// How many records are spelled, counted from the first of the trail.
    pub fn spelled(&self) -> u64
        ensures { result ≡ self.now.spelled }
    {
        self.spelled
    }

    /// How many bytes are spelled and not written.
    pub fn len(&self) -> usize
        ensures { result ≡ length self.now.left }
    {
        self.text.len() - self.written
    }

    /// Whether all that is spelled is written.
    pub fn is_empty(&self) -> bool
        ensures { result ≡ (length self.now.left == 0) }
    {
        self.len() == 0
    }

    /// Spells the records that the trail has and that aren't spelled yet. At an `Err` those before the one at fault are: there was
    /// no memory for it, or no frame spells its call.
    pub fn spell(&mut self, trail: &Trail) -> Result<(), WriteFault>
        requires { trail.now.first ≤ self.old.spelled }
        ensures spells { Spells trail.now.history self.old self.new }
        ensures all { OnOk result (length trail.now.history ≤ self.new.spelled) }
    {
        let recorded = trail.len() as u64;
        while self.spelled < recorded {
            let Some(next) = trail.get(self.spelled as usize) else {
                unreachable!();
            };
            put_record(&mut self.text, self.spelled, next)?;
            self.spelled += 1;
        }
        Ok(())
    }

    /// Writes what is spelled. At an `Err` what the writer didn't take is left: a next call goes on with it.
    pub fn write<W: Write>(&mut self, writer: &mut W) -> io::Result<()>
        ensures writes { Writes self.old self.new (W.contents writer.old) (W.contents writer.new) }
        ensures all { OnOk result (self.new.left ≡ []) }
    {
        while !self.is_empty() {
            self.write_some(writer)?;
        }
        self.trim();
        Ok(())
    }

    /// Writes as much as the writer takes at once, which is more than nothing.
    fn write_some<W: Write>(&mut self, writer: &mut W) -> io::Result<()>
        ensures writes { Writes self.old self.new (W.contents writer.old) (W.contents writer.new) }
        ensures less { OnOk result (length self.new.left < length self.old.left) }
    {
        let count = writer.write(&self.text[self.written..])?;
        if count == 0 {
            return Err(io::Error::from(ErrorKind::WriteZero));
        }
        self.written += count;
        Ok(())
    }

    /// Forgets what is written, where that is all, and gives a buffer that has grown large back.
    fn trim(&mut self)
        requires { self.old.left ≡ [] }
        ensures { self.new ≡ self.old }
    {
        if self.text.capacity() > KEPT_ROOM {
            self.text = Vec::new(self.alloc);
        }
        self.text.clear();
        self.written = 0;
    }
}
