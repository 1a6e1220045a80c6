//! The head and the records of a file, as its bytes come.

ghost use Rattle.std.specs.Prelude.{◌≡◌, ◌+◌, ◌≤◌, ⊤, false, length, nat_lt, IfErr, IfOk, IfNone};
ghost use Rattle.std.specs.Io.KnownBytes.{IsAtEnd};
ghost use Rattle.ipc_history.specs.Incoming.{IsBounded, Reads, TakesNone, incoming, new_incoming, unread, waiting};
ghost use Rattle.ipc_history.specs.Files.{IsHead, IsHeadIf, IsNextIf, IsNoHead, IsNoRecord, IsOfReader};

use crate::fault::HistoryFault;
use ipc_log::{Head, LogFault, read_head, read_record};
use ipc_terms::Record;
use ipc_wire::remove_front;
use std::alloc::Global;
use std::io::{ErrorKind, Read};

/// How many reads are made at most for a head or a record.
const MOST_READS: u64 = 1_000_000_000;

/// How many bytes a read asks for.
const PIECE: usize = 1_024;

/// What comes of a file.
#[derive(Drop)]
pub struct TrailReader<R: Read + Drop> {
    reader: R,
    /// The bytes that came, behind the head and the records that were taken.
    waiting: Vec<u8>,
    /// What the next read fills.
    piece: [u8; PIECE],
}

impl<R: Read + Drop> TrailReader<R> {
    /// Reads nothing yet, and takes no memory.
    pub fn new(alloc: Global, reader: R) -> Self
        ensures { incoming R.remaining result ≡ new_incoming (R.remaining reader) }
    {
        TrailReader {
            reader,
            waiting: Vec::new(alloc),
            piece: [0; PIECE],
        }
    }

    /// The head in front.
    pub fn next_head(&mut self, alloc: Global) -> Result<Head, HistoryFault>
        ensures head { IfOk result (λ head. Reads (IsHead head) (incoming R.remaining self.old) (incoming R.remaining self.new)) }
        ensures fault { IfErr result (λ fault. Reads (λ bytes rest. IsNoHead fault bytes) (incoming R.remaining self.old) (incoming R.remaining self.new)) }
        ensures bounded { IsBounded (waiting self.old) → IsBounded (waiting self.new) }
    {
        for _ in 0..MOST_READS {
            if let Some(head) = self.take_head(alloc)? {
                return Ok(head);
            }
            if !self.read_more()? {
                return Err(HistoryFault::NoHead);
            }
        }
        Err(HistoryFault::Read)
    }

    /// The record in front, which must be that of `place`. None where the bytes end there, or within it.
    pub fn next_record(&mut self, alloc: Global, place: u64) -> Result<Option<Record>, HistoryFault>
        ensures next { IfOk result (λ found. Reads (IsNextIf place found) (incoming R.remaining self.old) (incoming R.remaining self.new)) }
        ensures end { IfOk result (λ found. IfNone found (IsAtEnd (unread R.remaining self.new))) }
        ensures fault { IfErr result (λ fault. Reads (λ bytes rest. IsNoRecord place fault bytes) (incoming R.remaining self.old) (incoming R.remaining self.new)) }
        ensures bounded { IsBounded (waiting self.old) → IsBounded (waiting self.new) }
    {
        for _ in 0..MOST_READS {
            if let Some(found) = self.take_record(alloc, place)? {
                return Ok(Some(found));
            }
            if !self.read_more()? {
                return Ok(None);
            }
        }
        Err(HistoryFault::Read)
    }

    /// Whether bytes came that were not taken: once the records end, of one that is cut off.
    pub fn is_torn(&self) -> bool
        ensures { result ≡ nat_lt 0 (length (waiting self.now)) }
    {
        !self.waiting.is_empty()
    }

    /// How many bytes came that were not taken: once the records end, those of one that is cut off.
    pub fn rest(&self) -> usize
        ensures { result ≡ length (waiting self.now) }
    {
        self.waiting.len()
    }

    /// Takes the head in front of what came, if it is whole.
    fn take_head(&mut self, alloc: Global) -> Result<Option<Head>, HistoryFault>
        ensures some { IfOk result (λ found. IsHeadIf found (waiting self.old) (waiting self.new)) }
        ensures kept { unread R.remaining self.new ≡ unread R.remaining self.old }
        ensures fault { IfErr result (λ fault. IsNoHead fault (waiting self.old)) }
        ensures short { IfOk result (λ found. IfNone found (length (waiting self.new) ≤ 16777333)) }
        ensures less { length (waiting self.new) ≤ length (waiting self.old) }
    {
        match read_head(&self.waiting) {
            Ok(Some((head, length))) => {
                remove_front(alloc, &mut self.waiting, length);
                Ok(Some(head))
            }
            Ok(None) => Ok(None),
            Err(LogFault::Trail(fault)) => Err(HistoryFault::Head(fault)),
            Err(LogFault::NoMemory) => Err(HistoryFault::NoMemory),
        }
    }

    /// Takes the record in front of what came, if it is whole.
    fn take_record(&mut self, alloc: Global, place: u64) -> Result<Option<Record>, HistoryFault>
        ensures some { IfOk result (λ found. IsNextIf place found (waiting self.old) (waiting self.new)) }
        ensures kept { unread R.remaining self.new ≡ unread R.remaining self.old }
        ensures fault { IfErr result (λ fault. IsNoRecord place fault (waiting self.old)) }
        ensures short { IfOk result (λ found. IfNone found (length (waiting self.new) ≤ 16777333)) }
        ensures less { length (waiting self.new) ≤ length (waiting self.old) }
    {
        match read_record(alloc, place, &self.waiting) {
            Ok(Some((found, length))) => {
                remove_front(alloc, &mut self.waiting, length);
                Ok(Some(found))
            }
            Ok(None) => Ok(None),
            Err(LogFault::Trail(fault)) => Err(HistoryFault::Record { place, fault }),
            Err(LogFault::NoMemory) => Err(HistoryFault::NoMemory),
        }
    }

    /// Reads once, and says whether there may be more: an interrupted read brings nothing.
    fn read_more(&mut self) -> Result<bool, HistoryFault>
        ensures more { IfOk result (λ is_more. Reads TakesNone (incoming R.remaining self.old) (incoming R.remaining self.new)) }
        ensures end { IfOk result (λ is_more. is_more ≡ false → IsAtEnd (unread R.remaining self.new) × (waiting self.new ≡ waiting self.old)) }
        ensures fault { IfErr result IsOfReader }
        ensures lost { IfErr result (λ fault. Reads (λ bytes rest. ⊤) (incoming R.remaining self.old) (incoming R.remaining self.new)) }
        ensures piece { length (waiting self.new) ≤ length (waiting self.old) + 1024 }
    {
        let count = match self.reader.read(&mut self.piece) {
            Ok(count) => count,
            Err(error) if error.kind() == ErrorKind::Interrupted => return Ok(true),
            Err(_) => return Err(HistoryFault::Read),
        };
        self.waiting.extend_from_slice(&self.piece[..count])?;
        Ok(count > 0)
    }
}
