//! Links in memory, which give what is written for them and keep what they are given.

use ipc_loop::{Ending, Host, Ready};
use ipc_terms::Uid;
use ipc_trail::Trail;
use std::alloc::{AllocError, Global};
use std::io;
use std::io::ErrorKind;
use std::time::Duration;

/// How the links behave.
#[derive(Clone, Copy)]
pub struct Manner {
    /// The most bytes that a link gives or takes at once.
    pub most: usize,
    /// Each second read of a link would wait, and each second write.
    pub waits: bool,
    /// The read or write of this number fails.
    pub fails_at: Option<u64>,
}

impl Manner {
    /// Links that give and take all at once.
    pub const PLAIN: Manner = Manner {
        most: usize::MAX,
        waits: false,
        fails_at: None,
    };
}

/// A link, its peer's stream, and what it took.
#[derive(Drop)]
pub struct Link {
    stream: Vec<u8>,
    given: usize,
    pub taken: Vec<u8>,
    /// How many bytes it was offered, with those that it took.
    offered: usize,
    ending: Option<Ending>,
    reads: u64,
    writes: u64,
    /// A read or a write met `WouldBlock`, so it is to be told of again.
    is_due: bool,
}

impl Link {
    fn new(alloc: Global, stream: &[u8]) -> Result<Link, AllocError> {
        let mut copy = Vec::new(alloc);
        copy.extend_from_slice(stream)?;
        Ok(Link {
            stream: copy,
            given: 0,
            taken: Vec::new(alloc),
            offered: 0,
            ending: None,
            reads: 0,
            writes: 0,
            is_due: true,
        })
    }
}

/// Links by their numbers, which are accepted in this order. Once all have given their streams the clock goes on, and
/// then the streams end.
#[derive(Drop)]
pub struct Memory {
    pub links: Vec<Link>,
    accepted: usize,
    /// How many links the wait has told of.
    told: usize,
    manner: Manner,
    /// How many reads and writes there were.
    calls: u64,
    /// The link whose read or write failed.
    failed: Option<u64>,
    /// How many records the host was told of last, and of which link's answers.
    recorded: usize,
    saved: Option<u64>,
    /// A link was offered answers of which the host wasn't told before.
    is_unsaved: bool,
    /// How many waits there were, and how many since all streams were given.
    waits: u64,
    idle_waits: u64,
}

/// The clock, once all streams are given.
const LATE: u64 = 5;

/// How many waits pass then, before the streams end.
const IDLE_WAITS: u64 = 1_024;

/// How many waits pass from one accepted link to the next.
const APART: u64 = 128;

impl Memory {
    pub fn new(alloc: Global, streams: &[&[u8]], manner: Manner) -> Result<Memory, AllocError> {
        let mut links = Vec::new(alloc);
        for stream in streams {
            links.push(Link::new(alloc, stream)?)?;
        }
        Ok(Memory {
            links,
            accepted: 0,
            told: 0,
            manner,
            calls: 0,
            failed: None,
            recorded: 0,
            saved: None,
            is_unsaved: false,
            waits: 0,
            idle_waits: 0,
        })
    }

    fn have_given(&self) -> bool {
        for link in &self.links {
            if link.ending.is_none() && link.given < link.stream.len() {
                return false;
            }
        }
        self.accepted == self.links.len()
    }

    fn have_ended(&self) -> bool {
        self.idle_waits > IDLE_WAITS
    }

    /// Whether no link ended by a failure but the one whose read or write failed, which did not end as if all were well.
    pub fn failed_alone(&self) -> bool {
        for (number, link) in self.links.iter().enumerate() {
            let is_well = match link.ending {
                Some(Ending::ReadFailed | Ending::WriteFailed) => {
                    self.failed == Some(number as u64)
                }
                Some(Ending::Closed) => self.failed != Some(number as u64),
                Some(_) => true,
                None => false,
            };
            if !is_well {
                return false;
            }
        }
        true
    }

    /// Whether the host was told what is recorded before each link was offered more.
    pub fn was_told_first(&self) -> bool {
        !self.is_unsaved && self.recorded > 0
    }

    /// Notes that the link is offered so many bytes behind those that it took.
    fn note_offer(&mut self, number: u64, count: usize) {
        let Some(link) = self.links.get_mut(number as usize) else {
            return;
        };
        let offered = link.taken.len().saturating_add(count);
        if offered > link.offered {
            link.offered = offered;
            self.is_unsaved |= self.saved != Some(number);
        }
    }

    /// Counts a read or a write of this link. An `Err` where it is to fail.
    fn count(&mut self, number: u64) -> io::Result<()> {
        self.calls = self.calls.saturating_add(1);
        if self.manner.fails_at == Some(self.calls) {
            self.failed = Some(number);
            return Err(io::Error::from(ErrorKind::ConnectionReset));
        }
        Ok(())
    }
}

impl Host for Memory {
    ghost spare = { λ _. 18446744073709551615 };

    fn accept(&mut self, number: u64) -> io::Result<()> {
        let wanted = APART.saturating_mul(self.accepted as u64);
        if self.accepted == self.links.len() || self.waits < wanted {
            return Err(io::Error::from(ErrorKind::WouldBlock));
        }
        if number != self.accepted as u64 {
            return Err(io::Error::from(ErrorKind::InvalidInput));
        }
        self.accepted = self.accepted.saturating_add(1);
        Ok(())
    }

    fn read(&mut self, number: u64, buffer: &mut [u8]) -> io::Result<usize> {
        self.count(number)?;
        let have_ended = self.have_ended();
        let manner = self.manner;
        let Some(link) = self.links.get_mut(number as usize) else {
            return Err(io::Error::from(ErrorKind::NotFound));
        };
        link.reads = link.reads.saturating_add(1);
        let rest = link.stream.get(link.given..).unwrap_or(&[]);
        if rest.is_empty() && have_ended {
            return Ok(0);
        }
        if rest.is_empty() || manner.waits && link.reads % 2 == 1 {
            link.is_due = true;
            return Err(io::Error::from(ErrorKind::WouldBlock));
        }
        let count = manner.most.min(rest.len()).min(buffer.len());
        if let Some((front, _)) = rest.split_at_checked(count) {
            buffer[..count].copy_from_slice(front);
        }
        link.given = link.given.saturating_add(count);
        Ok(count)
    }

    fn write(&mut self, number: u64, bytes: &[u8]) -> io::Result<usize> {
        self.count(number)?;
        self.note_offer(number, bytes.len());
        let manner = self.manner;
        let Some(link) = self.links.get_mut(number as usize) else {
            return Err(io::Error::from(ErrorKind::NotFound));
        };
        link.writes = link.writes.saturating_add(1);
        if manner.waits && link.writes % 2 == 1 {
            link.is_due = true;
            return Err(io::Error::from(ErrorKind::WouldBlock));
        }
        let count = manner.most.min(bytes.len());
        link.taken.extend_from_slice(&bytes[..count])?;
        Ok(count)
    }

    fn greeted(&mut self, _number: u64, _user: Uid) {}

    fn save(&mut self, trail: &Trail, link: Option<u64>) {
        self.is_unsaved |= trail.len() < self.recorded;
        self.recorded = trail.len();
        self.saved = link;
    }

    fn spare(&self) -> u64 {
        u64::MAX
    }

    fn close(&mut self, number: u64, _requests: u64, ending: Ending) {
        if let Some(link) = self.links.get_mut(number as usize) {
            link.ending = Some(ending);
        }
    }

    fn wait(&mut self, _pause: Option<Duration>) -> io::Result<()> {
        self.told = 0;
        self.waits = self.waits.saturating_add(1);
        if self.have_given() {
            self.idle_waits = self.idle_waits.saturating_add(1);
        }
        Ok(())
    }

    fn next_ready(&mut self) -> Option<Ready> {
        if self.told == 0 {
            self.told = 1;
            return Some(Ready::Listener);
        }
        for _ in 0..self.accepted {
            if self.told > self.accepted {
                return None;
            }
            let number = self.told.saturating_sub(1);
            self.told = self.told.saturating_add(1);
            if let Some(link) = self.links.get_mut(number) {
                if link.is_due {
                    link.is_due = false;
                    return Some(Ready::Link {
                        number: number as u64,
                        is_readable: true,
                        is_writable: true,
                        has_ended: false,
                    });
                }
            }
        }
        None
    }

    fn moment(&mut self) -> u64 {
        if self.idle_waits > IDLE_WAITS / 2 {
            LATE
        } else {
            0
        }
    }
}
