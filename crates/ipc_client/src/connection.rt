//! What comes from the server, over a bounded number of reads, and what is sent to it.

ghost use Rattle.std.specs.Prelude.{◌≡◌, ◌+◌, IfErr, IfOk, OnOk};
ghost use Rattle.std.specs.Io.KnownBytes.{Appends};
ghost use Rattle.std.specs.IoError.{error_kind};
ghost use Rattle.ipc_client.specs.Faults.{IsOfConnection, of_connection};
ghost use Rattle.ipc_client.specs.Connections.{IsNext, Reads, Takes, TakesNone, incoming, new_incoming, reads_left, unread, waiting};

use crate::fault::ClientFault;
use ipc_terms::{Answer, NoMemory};
use ipc_wire::{ReadFault, read_answer, remove_front};
use std::alloc::Global;
use std::io;
use std::io::{ErrorKind, Read, Write};

/// How many reads of a connection are made at most.
const MOST_READS: u64 = 1_000_000_000;

/// How many bytes a read asks for.
const PIECE: usize = 8_192;

/// What comes over a connection. Its answers come in the order of their frames.
#[derive(Drop)]
pub(crate) struct Connection<R: Read + Drop> {
    reader: R,
    /// The bytes that came and are not yet read as answers.
    waiting: Vec<u8>,
    /// What the next read fills.
    piece: Vec<u8>,
    /// How many more reads are made.
    left: u64,
}

impl<R: Read + Drop> Connection<R> {
    /// Reads nothing yet.
    pub(crate) fn new(alloc: Global, reader: R) -> Result<Self, NoMemory>
        ensures bounded { IfOk result (λ connection. reads_left connection ≡ 1000000000) }
        ensures new { IfOk result (λ connection. incoming R.remaining connection ≡ new_incoming (R.remaining reader)) }
    {
        Ok(Connection {
            reader,
            waiting: Vec::new(alloc),
            piece: Vec::from_elem(alloc, 0, PIECE)?,
            left: MOST_READS,
        })
    }

    /// The next answer, which is waited for. What came behind it is kept.
    pub(crate) fn next_answer(&mut self, alloc: Global) -> Result<Answer, ClientFault>
        ensures next { IfOk result (λ answer. Reads (IsNext answer) (incoming R.remaining self.old) (incoming R.remaining self.new)) }
        ensures fault { IfErr result IsOfConnection }
    {
        for _ in 0..u64::MAX {
            if let Some(answer) = self.take_answer(alloc)? {
                return Ok(answer);
            }
            self.read_more()?;
        }
        // The reads end long before.
        Err(ClientFault::Net)
    }

    /// Takes the answer in front of what came, if its frame is whole.
    fn take_answer(&mut self, alloc: Global) -> Result<Option<Answer>, ClientFault>
        ensures taken { Takes result (waiting self.old) (waiting self.new) }
        ensures kept { unread R.remaining self.new ≡ unread R.remaining self.old }
    {
        match read_answer(alloc, &self.waiting) {
            Ok(Some((answer, length))) => {
                remove_front(alloc, &mut self.waiting, length);
                Ok(Some(answer))
            }
            Ok(None) => Ok(None),
            Err(ReadFault::Wire(_)) => Err(ClientFault::Net),
            Err(ReadFault::NoMemory) => Err(ClientFault::Memory),
        }
    }

    /// Reads once. An interrupted read brings nothing.
    fn read_more(&mut self) -> Result<(), ClientFault>
        ensures more { OnOk result (Reads TakesNone (incoming R.remaining self.old) (incoming R.remaining self.new)) }
        ensures counted { OnOk result (reads_left self.old ≡ reads_left self.new + 1) }
        ensures fault { IfErr result IsOfConnection }
    {
        let Some(left) = self.left.checked_sub(1) else {
            return Err(ClientFault::Net);
        };
        self.left = left;
        match self.reader.read(&mut self.piece) {
            Ok(0) => Err(ClientFault::Net),
            Ok(count) => {
                self.waiting.extend_from_slice(&self.piece[..count])?;
                Ok(())
            }
            Err(error) if error.kind() == ErrorKind::Interrupted => Ok(()),
            Err(error) => Err(fault_of_connection(error)),
        }
    }
}

/// Writes a request's frame.
pub(crate) fn send<W: Write>(writer: &mut W, frame: &[u8]) -> Result<(), ClientFault>
    ensures sent { OnOk result (Appends (W.contents writer.old) (W.contents writer.new) frame.now) }
    ensures fault { IfErr result IsOfConnection }
{
    writer.write_all(frame).map_err(fault_of_connection)?;
    writer.flush().map_err(fault_of_connection)?;
    Ok(())
}

/// Want of memory is `Memory`, and every other error of the connection `Net`.
fn fault_of_connection(error: io::Error) -> ClientFault
    ensures { result ≡ of_connection (error_kind error) }
{
    match error.kind() {
        ErrorKind::OutOfMemory => ClientFault::Memory,
        _ => ClientFault::Net,
    }
}
