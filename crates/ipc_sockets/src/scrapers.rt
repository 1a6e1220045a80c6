//! Connections that ask for the page of numbers, beside those that are served.

use crate::files::SocketFiles;
use crate::lingering::LingeringStreams;
use crate::streams::{Listener, Stream};
use ipc_metrics::{Asked, MOST_HEAD, asked_by, response};
use mio::{Registry, Token};
use std::alloc::Global;
use std::io;
use std::io::ErrorKind;
use std::rt::Files;
use std::time::{Clock, Duration};

/// How many are open at most: where one more comes, the first of them is closed. So who sends nothing is in nobody's way.
const MOST_SCRAPERS: usize = 8;

/// The listener's number. Those of its connections come behind it. No link gets so high a number.
const LISTENER: u64 = 1 << 62;

/// How many bytes are read at a time.
const PIECE: usize = 2_048;

/// After how many milliseconds accepting is tried again where it failed.
const NEXT_TRY: u64 = 100;

/// A connection that asks for the page once, and is closed behind its answer.
#[derive(Drop)]
struct Scraper {
    number: u64,
    stream: Stream,
    /// What came of its request.
    head: Vec<u8>,
    asked: Asked,
    /// What it is answered, once that is known.
    answer: Vec<u8>,
    /// How many bytes of its answer are written.
    written: usize,
    /// Something may have come, or may be written.
    is_ready: bool,
    /// There was no memory for its answer.
    is_given_up: bool,
}

impl Scraper {
    /// Whether it waits for its answer.
    fn is_waiting(&self) -> bool {
        !matches!(self.asked, Asked::Unfinished) && self.answer.is_empty()
    }

    /// Reads what came of its request, or writes what is left of its answer. Says whether it stays open.
    fn go_on(&mut self) -> bool {
        if !self.is_ready {
            return true;
        }
        self.is_ready = false;
        if self.is_given_up {
            return false;
        }
        if matches!(self.asked, Asked::Unfinished) {
            return self.read();
        }
        self.answer.is_empty() || !self.write()
    }

    /// Reads until all is asked, or nothing more is there. False where it ended, or a read failed, before.
    fn read(&mut self) -> bool {
        let mut piece = [0; PIECE];
        // A read that gives something gives a byte at least.
        for _ in 0..MOST_HEAD {
            match self.stream.read(&mut piece) {
                Ok(0) => return false,
                Ok(count) => {
                    if self.head.extend_from_slice(&piece[..count]).is_err() {
                        return false;
                    }
                    self.asked = asked_by(&self.head);
                    if !matches!(self.asked, Asked::Unfinished) {
                        return true;
                    }
                }
                Err(error) => return error.kind() == ErrorKind::WouldBlock,
            }
        }
        true
    }

    /// Writes its answer. Says whether all is written, or nothing more can be.
    fn write(&mut self) -> bool {
        // A write that takes something takes a byte at least.
        for _ in 0..self.answer.len() {
            let (_, left) = self.answer.split_at(self.written.min(self.answer.len()));
            if left.is_empty() {
                return true;
            }
            match self.stream.write(left) {
                Ok(count) => self.written = self.written.saturating_add(count),
                Err(error) => return error.kind() != ErrorKind::WouldBlock,
            }
        }
        true
    }
}

/// The listener of those that ask for the page, and who asks.
#[derive(Drop)]
pub struct Scrapers {
    alloc: Global,
    listener: Listener,
    /// The file that is listened at, if there is one.
    files: Option<SocketFiles>,
    /// The number that was given last.
    last: u64,
    /// Those that are open, the first of them longest.
    open: Vec<Scraper>,
    /// Somebody may be waiting to be accepted.
    may_accept: bool,
    /// Accepting failed, as for want of files, though somebody may be waiting.
    has_failed: bool,
}

impl Scrapers {
    /// Nobody asks yet.
    pub fn new(alloc: Global, registry: &Registry, mut listener: Listener) -> io::Result<Scrapers> {
        listener.register(registry, Token(LISTENER as usize))?;
        Ok(Scrapers {
            alloc,
            listener,
            files: None,
            last: LISTENER,
            open: Vec::with_capacity(alloc, MOST_SCRAPERS)?,
            may_accept: true,
            has_failed: false,
        })
    }

    /// What is listened at is this file.
    pub fn keep(&mut self, files: SocketFiles) {
        self.files = Some(files);
    }

    /// The pause, or less where somebody may be waiting to be accepted.
    pub fn shorten(&self, pause: Option<Duration>) -> Option<Duration> {
        if !self.may_accept {
            return pause;
        }
        let most = Duration::from_millis(if self.has_failed { NEXT_TRY } else { 0 });
        match pause {
            Some(pause) => Some(pause.min(most)),
            None => Some(most),
        }
    }

    /// Notes that the listener, or the connection, of this number is ready. Says whether there is such a one.
    pub fn note(&mut self, number: u64) -> bool {
        if number == LISTENER {
            self.may_accept = true;
            return true;
        }
        match self.open.iter_mut().find(|it| it.number == number) {
            Some(found) => {
                found.is_ready = true;
                true
            }
            None => false,
        }
    }

    /// Accepts who waits, and goes on with those that are ready. What is closed lingers.
    pub fn go_on<R: Clock>(
        &mut self,
        rt: &R,
        registry: &Registry,
        lingering: &mut LingeringStreams,
    ) {
        for _ in 0..MOST_SCRAPERS {
            if !self.may_accept {
                break;
            }
            let accepted = self.listener.accept();
            self.has_failed = false;
            match accepted {
                Ok(stream) => self.add(rt, registry, stream, lingering),
                Err(error) if error.kind() == ErrorKind::WouldBlock => self.may_accept = false,
                Err(_) => {
                    // The listener isn't told of again for who waits already.
                    self.has_failed = true;
                    break;
                }
            }
        }
        self.close_ended(rt, lingering);
    }

    /// Adds a connection. Where there are too many, or there is no memory, one is closed.
    fn add<R: Clock>(
        &mut self,
        rt: &R,
        registry: &Registry,
        mut stream: Stream,
        lingering: &mut LingeringStreams,
    ) {
        self.last = self.last.saturating_add(1);
        let number = self.last;
        if stream.register(registry, Token(number as usize)).is_err() {
            return;
        }
        if MOST_SCRAPERS <= self.open.len() {
            let first = self.open.remove(0);
            lingering.add(rt, first.number, first.stream);
        }
        let _ = self.open.push(Scraper {
            number,
            stream,
            head: Vec::new(self.alloc),
            asked: Asked::Unfinished,
            answer: Vec::new(self.alloc),
            written: 0,
            is_ready: true,
            is_given_up: false,
        });
    }

    /// Goes on with those that are ready, and has those linger that are done with.
    fn close_ended<R: Clock>(&mut self, rt: &R, lingering: &mut LingeringStreams) {
        let mut index = 0;
        for _ in 0..self.open.len() {
            if self.open.len() <= index {
                return;
            }
            if self.open[index].go_on() {
                index = index.saturating_add(1);
            } else {
                let ended = self.open.remove(index);
                lingering.add(rt, ended.number, ended.stream);
            }
        }
    }

    /// Whether somebody waits for an answer.
    pub fn is_asked(&self) -> bool {
        self.open.iter().any(|it| it.is_waiting())
    }

    /// Answers all that wait, by this page. Who can't be answered for want of memory is closed.
    pub fn show<R: Clock>(&mut self, rt: &R, page: &str, lingering: &mut LingeringStreams) {
        for scraper in self.open.iter_mut() {
            if !scraper.is_waiting() {
                continue;
            }
            match response(self.alloc, scraper.asked, page) {
                Ok(answer) => scraper.answer = answer,
                Err(_) => scraper.is_given_up = true,
            }
            scraper.is_ready = true;
        }
        self.close_ended(rt, lingering);
    }

    /// Removes the file that was listened at, if it is still there.
    pub fn remove_files<R: Files>(&mut self, rt: &R) {
        if let Some(files) = self.files.take() {
            files.remove(rt);
        }
    }
}
