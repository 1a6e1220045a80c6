//! Sockets of a server whose trail goes into a file.

ghost use Rattle.std.specs.Prelude.{min};
ghost use Rattle.std.specs.Option.{option_map, unwrap_or};

use crate::logged::LoggedSockets;
use crate::watch::Watched;
use ipc_loop::{Ending, Host, Ready};
use ipc_saving::OpenTrail;
use ipc_terms::Uid;
use ipc_trail::Trail;
use std::alloc::Global;
use std::collections::BTreeSet;
use std::fs::File;
use std::io;
use std::io::ErrorKind;
use std::rt::Files;
use std::sync::Wait;
use std::time::{Clock, Duration};

/// So many bytes are spelled ahead of what the file takes, and no record more.
const MOST_AHEAD: usize = 1_048_576;

/// How many milliseconds a wait takes at most while the file takes nothing.
const LONGEST_WAIT: u64 = 100;

/// How many milliseconds a wait takes at most while the file has all that is spelled, and more is to be spelled.
const SHORTEST_WAIT: u64 = 1;

/// Sockets of a server whose trail goes into a file. A link takes no bytes before the file has the records that they answer.
#[derive(Drop)]
pub struct SavedSockets<'a, R> {
    rt: &'a R,
    sockets: LoggedSockets<'a, R>,
    trail: OpenTrail,
    /// How many records there are, and how many there were at the last wait.
    made: u64,
    made_before: u64,
    /// How many records the file has.
    saved: u64,
    /// The link that is offered what it was answered since the last wait.
    next: Option<u64>,
    /// Links that took no bytes since the file lacked records, and aren't told of yet.
    refused: BTreeSet<u64>,
    /// The last write or sync failed, and standard error was told.
    has_failed: bool,
}

impl<'a, R> SavedSockets<'a, R> {
    pub fn new(
        rt: &'a R,
        alloc: Global,
        sockets: LoggedSockets<'a, R>,
        trail: OpenTrail,
    ) -> SavedSockets<'a, R> {
        let saved = trail.writer.spelled();
        SavedSockets {
            rt,
            sockets,
            trail,
            made: saved,
            made_before: saved,
            saved,
            next: None,
            refused: BTreeSet::new(alloc),
            has_failed: false,
        }
    }

    /// Notes that the link took nothing. Where there is no memory for that it is offered the bytes again in this round, as if a signal
    /// had come. Others may come in between, so until the next wait nobody takes what the file lacks, whoever is offered it.
    fn refuse(&mut self, number: u64) -> io::Error {
        match self.refused.insert(number) {
            Ok(_) => io::Error::from(ErrorKind::WouldBlock),
            Err(_) => {
                self.made_before = self.made;
                io::Error::from(ErrorKind::Interrupted)
            }
        }
    }

    /// Whether the file has the records of what links are offered again.
    fn has_caught_up(&self) -> bool {
        self.made_before <= self.saved
    }

    /// The longest wait now.
    fn shorten(&self, pause: Option<Duration>) -> Option<Duration> {
        let longest = if self.saved < self.made {
            let takes_all = self.trail.writer.is_empty() && !self.has_failed;
            Duration::from_millis(if takes_all {
                SHORTEST_WAIT
            } else {
                LONGEST_WAIT
            })
        } else if self.refused.is_empty() {
            return pause;
        } else {
            Duration::ZERO
        };
        match pause {
            Some(pause) if pause < longest => Some(pause),
            _ => Some(longest),
        }
    }
}

impl<R: AllocGlobal + Files<File = File> + Eprint> SavedSockets<'_, R> {
    /// Puts what is spelled into the file, and begins another one where that is due. Where it can't, standard error is told once, and the
    /// next call goes on.
    fn put(&mut self) {
        if self.saved == self.trail.writer.spelled() && self.trail.writer.is_empty() {
            return;
        }
        match self.trail.put() {
            Ok(()) => {
                self.saved = self.trail.writer.spelled();
                self.has_failed = false;
                self.turn();
            }
            Err(error) if error.kind() == ErrorKind::Interrupted => {}
            Err(_) => self.tell_fault(),
        }
    }

    /// Begins another file, where that is due. Where none can be made standard error is told, and the one that there is goes on.
    fn turn(&mut self) {
        if self.trail.turn(self.rt).is_err() {
            let _ = eprintln!(self.rt; "mqserve: next trail file");
        }
    }

    /// Says that the file can't be written. A standard error that can't be written to is passed over.
    fn tell_fault(&mut self) {
        if !self.has_failed {
            let _ = eprintln!(self.rt; "mqserve: trail");
        }
        self.has_failed = true;
    }
}

impl<R: AllocGlobal + Files<File = File> + Eprint + Clock> SavedSockets<'_, R> {
    /// Puts what is left into the file, and ends the sockets.
    pub fn finish(&mut self) {
        self.put();
        self.sockets.sockets.finish();
    }
}

impl<'a, R: AllocGlobal + Files<File = File> + Print + Eprint + Wait + Clock> Watched<'a, R>
    for SavedSockets<'a, R> {
    fn logged(&mut self) -> &mut LoggedSockets<'a, R> {
        &mut self.sockets
    }
}

impl<R: AllocGlobal + Files<File = File> + Print + Eprint + Wait + Clock> Host
    for SavedSockets<'_, R> {
    ghost spare = { λ h. min h.saved (unwrap_or (option_map (λ t. t.counted) h.sockets.tally) 18446744073709551615) };

    fn accept(&mut self, number: u64) -> io::Result<()> {
        self.sockets.accept(number)
    }

    fn read(&mut self, number: u64, buffer: &mut [u8]) -> io::Result<usize> {
        self.sockets.read(number, buffer)
    }

    fn write(&mut self, number: u64, bytes: &[u8]) -> io::Result<usize> {
        let is_new = self.next == Some(number);
        let wanted = if is_new { self.made } else { self.made_before };
        if self.saved < wanted {
            return Err(self.refuse(number));
        }
        self.sockets.write(number, bytes)
    }

    fn greeted(&mut self, number: u64, user: Uid) {
        self.sockets.greeted(number, user);
    }

    fn save(&mut self, trail: &Trail, link: Option<u64>) {
        self.sockets.save(trail, link);
        self.made = trail.len() as u64;
        self.next = link;
        let writer = &mut self.trail.writer;
        if writer.len() < MOST_AHEAD && trail.first() <= writer.spelled() {
            // What there is no memory for is spelled by the next call.
            let _ = writer.spell(trail);
        }
        if !self.trail.is_synced {
            self.put();
        }
    }

    fn spare(&self) -> u64 {
        self.saved.min(self.sockets.spare())
    }

    fn close(&mut self, number: u64, requests: u64, ending: Ending) {
        self.sockets.close(number, requests, ending);
    }

    fn wait(&mut self, pause: Option<Duration>) -> io::Result<()> {
        self.put();
        if self.trail.is_lost {
            return Err(io::Error::from(ErrorKind::Other));
        }
        self.made_before = self.made;
        self.next = None;
        let pause = self.shorten(pause);
        self.sockets.wait(pause)
    }

    fn next_ready(&mut self) -> Option<Ready> {
        if self.has_caught_up() {
            if let Some(number) = self.refused.pop_first() {
                return Some(Ready::Link {
                    number,
                    is_readable: false,
                    is_writable: true,
                    has_ended: false,
                });
            }
        }
        self.sockets.next_ready()
    }

    fn moment(&mut self) -> u64 {
        self.sockets.moment()
    }
}
