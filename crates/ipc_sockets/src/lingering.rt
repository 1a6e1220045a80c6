//! Streams that are closed a little later than they are served.
//!
//! Where bytes of the peer are unread, a close resets the stream: what the peer sends next fails, and what it has not taken by
//! then is lost. So the stream's end is written, and what still comes is read, and dropped, until the peer has ended it too.

use crate::streams::Stream;
use std::alloc::Global;
use std::io;
use std::io::ErrorKind;
use std::time::{Clock, Duration, Instant};

/// How many streams linger at most, since each is an open file.
const MOST_STREAMS: usize = 16;

/// For how many milliseconds a stream lingers at most.
const MOST_MILLISECONDS: u64 = 1_000;

/// How many bytes of a stream are dropped at most.
const MOST_BYTES: usize = 1 << 20;

/// How many of them are read at a time.
const PIECE: usize = 8_192;

/// A stream whose end was written.
#[derive(Drop)]
struct Lingering {
    number: u64,
    stream: Stream,
    since: Instant,
    /// Something may have come.
    is_ready: bool,
    /// How many bytes may still be dropped.
    left: usize,
}

impl Lingering {
    /// How long it lingers still.
    fn time_left(&self, now: Instant) -> Duration {
        Duration::from_millis(MOST_MILLISECONDS).saturating_sub(now.duration_since(self.since))
    }

    /// Drops what came. Says whether the stream can be closed: its peer has ended it, a read failed, or too much came.
    fn is_over(&mut self) -> bool {
        let mut piece = [0; PIECE];
        // A read that gives something gives a byte at least.
        for _ in 0..self.left {
            match self.stream.read(&mut piece) {
                Ok(0) => return true,
                Ok(count) => self.left = self.left.saturating_sub(count),
                Err(error) => return error.kind() != ErrorKind::WouldBlock,
            }
            if self.left == 0 {
                return true;
            }
        }
        true
    }

    /// Whether it is to be closed now.
    fn is_to_close(&mut self, now: Instant) -> bool {
        if self.time_left(now).is_zero() {
            return true;
        }
        if !self.is_ready {
            return false;
        }
        self.is_ready = false;
        self.is_over()
    }
}

/// Streams that linger, the first of them longest.
#[derive(Drop)]
pub struct LingeringStreams {
    streams: Vec<Lingering>,
}

impl LingeringStreams {
    pub fn new(alloc: Global) -> io::Result<LingeringStreams> {
        Ok(LingeringStreams {
            streams: Vec::with_capacity(alloc, MOST_STREAMS)?,
        })
    }

    pub fn is_empty(&self) -> bool {
        self.streams.is_empty()
    }

    /// Writes the stream's end, and keeps it until it can be closed. Where too many linger, the first of them is closed.
    pub fn add<R: Clock>(&mut self, rt: &R, number: u64, stream: Stream) {
        let Ok(since) = Instant::now(rt) else {
            return;
        };
        if stream.end_writing().is_err() {
            return;
        }
        let mut added = Lingering {
            number,
            stream,
            since,
            is_ready: true,
            left: MOST_BYTES,
        };
        if added.is_to_close(since) {
            return;
        }
        if MOST_STREAMS <= self.streams.len() {
            let _first = self.streams.remove(0);
        }
        let _ = self.streams.push(added);
    }

    /// Notes that the stream of this number is ready, if it lingers.
    pub fn note(&mut self, number: u64) {
        if let Some(found) = self.streams.iter_mut().find(|it| it.number == number) {
            found.is_ready = true;
        }
    }

    /// Drops what came, and closes those that can be closed.
    pub fn go_on<R: Clock>(&mut self, rt: &R) {
        if self.streams.is_empty() {
            return;
        }
        match Instant::now(rt) {
            Ok(now) => self.streams.retain_mut(|it| !it.is_to_close(now)),
            Err(_) => self.streams.clear(),
        }
    }

    /// The pause, or less where the first is to be closed before.
    pub fn shorten<R: Clock>(&self, rt: &R, pause: Option<Duration>) -> Option<Duration> {
        let Some(first) = self.streams.first() else {
            return pause;
        };
        let left = match Instant::now(rt) {
            Ok(now) => first.time_left(now),
            Err(_) => Duration::ZERO,
        };
        match pause {
            Some(pause) => Some(pause.min(left)),
            None => Some(left),
        }
    }
}
