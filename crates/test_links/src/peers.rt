//! What the peers of links sent, and how much of it their links gave.

ghost use Rattle.std.specs.Prelude.{◌≤◌, length, IfOk, IfSome};

use crate::chance::Chance;
use ipc_loop::{Ending, Ready};
use ipc_terms::Uid;
use std::alloc::{AllocError, Global};
use std::io;
use std::io::ErrorKind;

/// In which pieces links give and take.
#[derive(Clone, Copy)]
pub enum Cut {
    /// All at once.
    Whole,
    /// By chance from this seed: some bytes at a time, and one call in four would wait.
    Pieces(u64),
}

/// The most bytes of a piece; of much, as large a part may move at once.
const MOST: u32 = 12;

/// One call in so many would wait.
const WAITS: u32 = 4;

/// A link, and what its peer has sent.
#[derive(Drop)]
struct Link {
    stream: Vec<u8>,
    given: usize,
    /// The peer sends no more.
    is_finished: bool,
    /// Whose it is, as the loop told.
    user: Option<Uid>,
    /// How many requests were stepped, and why it was closed, if it was.
    closed: Option<(u64, Ending)>,
    /// The next wait tells of it.
    is_due: bool,
}

impl Link {
    fn new(alloc: Global) -> Link {
        Link {
            stream: Vec::new(alloc),
            given: 0,
            is_finished: false,
            user: None,
            closed: None,
            is_due: true,
        }
    }

    /// What was sent and not given yet.
    fn rest(&self) -> &[u8] {
        self.stream.get(self.given..).unwrap_or(&[])
    }

    /// Whether nothing is left to read of it, nor to tell.
    fn is_at_rest(&self) -> bool {
        self.closed.is_some() || !self.is_finished && !self.is_due && self.rest().is_empty()
    }
}

/// The links by their numbers, and what a wait tells of them.
#[derive(Drop)]
pub struct Peers {
    alloc: Global,
    chance: Option<Chance>,
    links: Vec<Link>,
    accepted: usize,
    /// How many links this wait has told of, and whether of the listener.
    told: usize,
    has_told: bool,
}

impl Peers {
    pub fn new(alloc: Global, cut: Cut) -> Peers {
        let chance = match cut {
            Cut::Whole => None,
            Cut::Pieces(seed) => Some(Chance::new(seed)),
        };
        Peers {
            alloc,
            chance,
            links: Vec::new(alloc),
            accepted: 0,
            told: 0,
            has_told: false,
        }
    }

    pub fn connect(&mut self) -> Result<u64, AllocError> {
        let number = self.links.len() as u64;
        self.links.push(Link::new(self.alloc))?;
        Ok(number)
    }

    pub fn send(&mut self, number: u64, bytes: &[u8]) -> Result<(), AllocError> {
        if let Some(link) = self.links.get_mut(number as usize) {
            link.stream.extend_from_slice(bytes)?;
            link.is_due = true;
        }
        Ok(())
    }

    pub fn finish(&mut self, number: u64) {
        if let Some(link) = self.links.get_mut(number as usize) {
            link.is_finished = true;
            link.is_due = true;
        }
    }

    pub fn closed(&self, number: u64) -> Option<(u64, Ending)> {
        self.links.get(number as usize)?.closed
    }

    pub fn close(&mut self, number: u64, requests: u64, ending: Ending) {
        if let Some(link) = self.links.get_mut(number as usize) {
            link.closed = Some((requests, ending));
        }
    }

    pub fn user(&self, number: u64) -> Option<Uid> {
        self.links.get(number as usize)?.user
    }

    pub fn greet(&mut self, number: u64, user: Uid) {
        if let Some(link) = self.links.get_mut(number as usize) {
            link.user = Some(user);
        }
    }

    /// Whether all links are accepted, and of none that is open anything is left to read, or to tell.
    pub fn are_at_rest(&self) -> bool {
        for link in &self.links {
            if !link.is_at_rest() {
                return false;
            }
        }
        self.accepted == self.links.len()
    }

    /// Whether the link of this number is the next to be accepted.
    pub fn may_accept(&self, number: u64) -> io::Result<()> {
        if self.accepted == self.links.len() {
            return Err(io::Error::from(ErrorKind::WouldBlock));
        }
        if number != self.accepted as u64 {
            return Err(io::Error::from(ErrorKind::InvalidInput));
        }
        Ok(())
    }

    pub fn accept(&mut self) {
        self.accepted = self.accepted.saturating_add(1);
    }

    /// How many of so many bytes move at once. Where the call would wait, the next wait tells of the link.
    pub fn piece(&mut self, number: u64, count: usize) -> io::Result<usize>
        ensures { IfOk result (λ most. most ≤ count) }
    {
        let Some(chance) = &mut self.chance else {
            return Ok(count);
        };
        if chance.one_in(WAITS) {
            if let Some(link) = self.links.get_mut(number as usize) {
                link.is_due = true;
            }
            return Err(io::Error::from(ErrorKind::WouldBlock));
        }
        let most = chance.below(MOST) as usize + 1;
        Ok(count.min(most.max(count / MOST as usize)))
    }

    /// Copies what the link gives next to the buffer, without giving it, and says how many bytes that are.
    pub fn copy_to(&mut self, number: u64, buffer: &mut [u8]) -> io::Result<usize>
        ensures { IfOk result (λ count. count ≤ length buffer.new) }
    {
        let Some(link) = self.links.get(number as usize) else {
            return Err(io::Error::from(ErrorKind::NotFound));
        };
        let rest = link.rest().len();
        if rest == 0 && link.is_finished {
            return Ok(0);
        }
        if rest == 0 {
            return Err(io::Error::from(ErrorKind::WouldBlock));
        }
        let count = self.piece(number, rest.min(buffer.len()))?;
        self.fill(number, &mut buffer[..count]);
        Ok(count)
    }

    /// Fills the buffer with what the link gives next, where it has as much.
    fn fill(&self, number: u64, buffer: &mut [u8]) {
        let Some(link) = self.links.get(number as usize) else {
            return;
        };
        if let Some((front, _)) = link.rest().split_at_checked(buffer.len()) {
            buffer.copy_from_slice(front);
        }
    }

    /// The link gave so many bytes.
    pub fn advance(&mut self, number: u64, count: usize) {
        if let Some(link) = self.links.get_mut(number as usize) {
            link.given = link.given.saturating_add(count);
        }
    }

    /// A new wait.
    pub fn wait(&mut self) {
        self.told = 0;
        self.has_told = false;
    }

    /// The listener, and then each link that something is to be told of.
    pub fn next_ready(&mut self) -> Option<Ready> {
        if !self.has_told {
            self.has_told = true;
            return Some(Ready::Listener);
        }
        for number in self.told..self.accepted {
            self.told = number.saturating_add(1);
            if let Some(link) = self.links.get_mut(number) {
                if link.is_due {
                    link.is_due = false;
                    return Some(Ready::Link {
                        number: number as u64,
                        is_readable: true,
                        is_writable: true,
                        has_ended: link.is_finished,
                    });
                }
            }
        }
        None
    }
}
