//! A host that knows its moves, so the clauses of the loop say something of it. Tests are the peers of its links: they
//! connect, send and finish between rounds.

ghost use Rattle.std.specs.Prelude.{◌≡◌, ◌-◌, [], ◌∷◌, ◌++◌, length, take, IfOk, OnOk, OnErr};
ghost use Rattle.std.specs.Io.{ReadsAtMost, WritesAtMost};
ghost use Rattle.ipc_loop.specs.Moves.{LinkOpened, LinkGave, LinkTook};
ghost use Rattle.test_links.specs.Recording.{moved_by, moves_in, told_in};

use crate::peers::{Cut, Peers};
use ipc_loop::{Ending, Host, Ready};
use ipc_terms::Uid;
use ipc_trail::Trail;
use std::alloc::{AllocError, Global};
use std::io;
use std::io::ErrorKind;
use std::snapshot::Snapshot;
use std::time::Duration;

/// What a link did, by its number.
#[derive(Drop)]
pub enum Entry {
    Opened(u64),
    Gave(u64, Vec<u8>),
    /// It took these of what it was offered, and left so many.
    Took(u64, Vec<u8>, u64),
}

/// What links did and were told, and what they were asked for in vain. Proofs alone read it; nothing of it is kept at run time.
#[derive(Drop)]
enum Past {
    /// Nothing yet.
    Nothing,
    /// After all else a link did this.
    Did(Snapshot<Entry>, Snapshot<Snapshot<Past>>),
    /// After all else a link was closed, and this was told.
    Closed(u64, Ending, Snapshot<Snapshot<Past>>),
    /// After all else nobody came.
    NobodyCame(ErrorKind, Snapshot<Snapshot<Past>>),
    /// After all else a link gave nothing.
    GaveNothing(u64, ErrorKind, Snapshot<Snapshot<Past>>),
    /// After all else a link took none of so many bytes.
    TookNothing(u64, u64, ErrorKind, Snapshot<Snapshot<Past>>),
}

/// What was told to be ready. Proofs alone read it; nothing of it is kept at run time.
#[derive(Drop)]
enum Told {
    /// Nothing yet.
    Nothing,
    /// After all else this.
    Also(Ready, Snapshot<Snapshot<Told>>),
}

/// Remembers all. What there is no memory to remember isn't done, as where a signal came.
#[derive(Drop)]
pub struct Recorder {
    alloc: Global,
    peers: Peers,
    log: Vec<Entry>,
    past: Snapshot<Past>,
    told: Snapshot<Told>,
    moment: u64,
}

fn copied(alloc: Global, bytes: &[u8]) -> Result<Vec<u8>, AllocError>
    ensures { IfOk result (λ v. v.items ≡ bytes.now) }
{
    let mut all = Vec::new(alloc);
    all.extend_from_slice(bytes)?;
    Ok(all)
}

fn interrupted() -> io::Error {
    io::Error::from(ErrorKind::Interrupted)
}

impl Recorder {
    /// A host whose links give and take so. Nobody connects yet, and its clock shows 0.
    pub fn new(alloc: Global, cut: Cut) -> Recorder {
        Recorder {
            alloc,
            peers: Peers::new(alloc, cut),
            log: Vec::new(alloc),
            past: Snapshot::of(&Past::Nothing),
            told: Snapshot::of(&Told::Nothing),
            moment: 0,
        }
    }

    /// Somebody connects: the number of the link.
    pub fn connect(&mut self) -> Result<u64, AllocError> {
        self.peers.connect()
    }

    /// The link's peer, if there is one, sends these bytes. An `Err` sends nothing.
    pub fn send(&mut self, number: u64, bytes: &[u8]) -> Result<(), AllocError> {
        self.peers.send(number, bytes)
    }

    /// The link's peer sends no more.
    pub fn finish(&mut self, number: u64) {
        self.peers.finish(number);
    }

    /// The clock shows this moment.
    pub fn show(&mut self, moment: u64) {
        self.moment = moment;
    }

    /// What links did, in order.
    pub fn moves(&self) -> &[Entry] {
        self.log.as_slice()
    }

    /// All that the link took.
    pub fn taken(&self, number: u64) -> Result<Vec<u8>, AllocError> {
        let mut all = Vec::new(self.alloc);
        for entry in &self.log {
            match entry {
                Entry::Took(taker, bytes, _) if *taker == number => all.extend_from_slice(bytes)?,
                _ => {}
            }
        }
        Ok(all)
    }

    /// Why the link was closed, if it was.
    pub fn ending(&self, number: u64) -> Option<Ending> {
        Some(self.peers.closed(number)?.1)
    }

    /// How many requests of the link were stepped, as the loop told where it closed it.
    pub fn requests(&self, number: u64) -> Option<u64> {
        Some(self.peers.closed(number)?.0)
    }

    /// Whose the link is, as the loop told.
    pub fn user(&self, number: u64) -> Option<Uid> {
        self.peers.user(number)
    }

    /// Whether all links are accepted, and of none that is open anything is left to read, or to tell.
    pub fn is_at_rest(&self) -> bool {
        self.peers.are_at_rest()
    }
}

impl Recorder {
    /// Remembers what a link did. An `Err` remembers nothing.
    fn note(&mut self, entry: Entry) -> io::Result<()>
        ensures ok { OnOk result (moves_in self.new.past.value ≡ moves_in self.old.past.value ++ moved_by entry ∷ []) }
        ensures err { OnErr result (self.new.past.value ≡ self.old.past.value) }
        ensures silent { told_in self.new.told.value ≡ told_in self.old.told.value }
    {
        let noted = Snapshot::of(&entry);
        if self.log.push(entry).is_err() {
            return Err(interrupted());
        }
        self.past = Snapshot::of(&Past::Did(noted, Snapshot::of(&self.past)));
        Ok(())
    }

    /// The next link is opened, if it has this number.
    fn open(&mut self, number: u64) -> io::Result<()>
        ensures ok { OnOk result (moves_in self.new.past.value ≡ moves_in self.old.past.value ++ LinkOpened number ∷ []) }
        ensures err { OnErr result (self.new.past.value ≡ self.old.past.value) }
        ensures silent { told_in self.new.told.value ≡ told_in self.old.told.value }
    {
        self.peers.may_accept(number)?;
        self.note(Entry::Opened(number))?;
        self.peers.accept();
        Ok(())
    }

    /// The link gives what it has next, as far as the buffer has room.
    fn give(&mut self, number: u64, buffer: &mut [u8]) -> io::Result<usize>
        ensures bound { ReadsAtMost result buffer.new }
        ensures ok { IfOk result (λ n. moves_in self.new.past.value ≡ moves_in self.old.past.value ++ LinkGave number (take n buffer.new) ∷ []) }
        ensures err { OnErr result (self.new.past.value ≡ self.old.past.value) }
        ensures silent { told_in self.new.told.value ≡ told_in self.old.told.value }
    {
        let count = self.peers.copy_to(number, buffer)?;
        let Ok(bytes) = copied(self.alloc, &buffer[..count]) else {
            return Err(interrupted());
        };
        self.note(Entry::Gave(number, bytes))?;
        self.peers.advance(number, count);
        Ok(count)
    }

    /// The link takes the first of the bytes.
    fn take(&mut self, number: u64, bytes: &[u8]) -> io::Result<usize>
        ensures bound { WritesAtMost result bytes.now }
        ensures ok { IfOk result (λ n. moves_in self.new.past.value ≡ moves_in self.old.past.value ++ LinkTook number (take n bytes.now) (length bytes.now - n) ∷ []) }
        ensures err { OnErr result (self.new.past.value ≡ self.old.past.value) }
        ensures silent { told_in self.new.told.value ≡ told_in self.old.told.value }
    {
        let count = self.peers.piece(number, bytes.len())?;
        let Ok(taken) = copied(self.alloc, &bytes[..count]) else {
            return Err(interrupted());
        };
        self.note(Entry::Took(number, taken, (bytes.len() - count) as u64))?;
        Ok(count)
    }
}

impl Host for Recorder {
    ghost use Rattle.std.specs.Prelude.{Some};
    ghost use Rattle.test_links.specs.Recording.{moves_in, told_in};

    ghost moves = { λ h. Some (moves_in h.past.value) };

    ghost told = { λ h. Some (told_in h.told.value) };

    ghost spare = { λ _. 18446744073709551615 };

    fn accept(&mut self, number: u64) -> io::Result<()> {
        let opened = self.open(number);
        if let Err(error) = &opened {
            self.past = Snapshot::of(&Past::NobodyCame(error.kind(), Snapshot::of(&self.past)));
        }
        opened
    }

    fn read(&mut self, number: u64, buffer: &mut [u8]) -> io::Result<usize> {
        let given = self.give(number, buffer);
        if let Err(error) = &given {
            self.past = Snapshot::of(&Past::GaveNothing(
                number,
                error.kind(),
                Snapshot::of(&self.past),
            ));
        }
        given
    }

    fn write(&mut self, number: u64, bytes: &[u8]) -> io::Result<usize> {
        let taken = self.take(number, bytes);
        if let Err(error) = &taken {
            let count = bytes.len() as u64;
            self.past = Snapshot::of(&Past::TookNothing(
                number,
                count,
                error.kind(),
                Snapshot::of(&self.past),
            ));
        }
        taken
    }

    fn greeted(&mut self, number: u64, user: Uid) {
        self.peers.greet(number, user);
    }

    fn save(&mut self, _trail: &Trail, _link: Option<u64>) {}

    fn spare(&self) -> u64 {
        u64::MAX
    }

    fn close(&mut self, number: u64, requests: u64, ending: Ending) {
        self.peers.close(number, requests, ending);
        self.past = Snapshot::of(&Past::Closed(number, ending, Snapshot::of(&self.past)));
    }

    fn wait(&mut self, _pause: Option<Duration>) -> io::Result<()> {
        self.peers.wait();
        Ok(())
    }

    fn next_ready(&mut self) -> Option<Ready> {
        let ready = self.peers.next_ready();
        if let Some(found) = ready {
            self.told = Snapshot::of(&Told::Also(found, Snapshot::of(&self.told)));
        }
        ready
    }

    fn moment(&mut self) -> u64 {
        self.moment
    }
}
