//! What one thread tells the log.

ghost use Rattle.std.specs.Option.{option_map, unwrap_or};

use crate::log::{Log, words_of_fault};
use crate::tally::Tally;
use crate::watch::Watched;
use ipc_loop::{Ending, Host, Ready};
use ipc_sockets::Sockets;
use ipc_terms::Uid;
use ipc_trail::Trail;
use std::io;
use std::sync::Wait;
use std::time::{Clock, Duration};

/// Sockets that write into a log what becomes of each connection.
#[derive(Drop)]
pub struct LoggedSockets<'a, R> {
    pub sockets: Sockets<'a, R>,
    pub log: &'a Log<'a, R>,
    /// What the records count up to, where somebody may want to know.
    pub tally: Option<Tally>,
    /// The moment by which a wait ends.
    pub wake: Option<u64>,
}

impl<R: Clock> LoggedSockets<'_, R> {
    /// The longest wait now.
    fn shorten(&mut self, pause: Option<Duration>) -> Option<Duration> {
        let Some(wake) = self.wake else {
            return pause;
        };
        let left = Duration::from_millis(wake.saturating_sub(self.sockets.moment()));
        match pause {
            Some(pause) if pause < left => Some(pause),
            _ => Some(left),
        }
    }
}

impl<'a, R: Print + Eprint + Wait + Clock> Watched<'a, R> for LoggedSockets<'a, R> {
    fn logged(&mut self) -> &mut LoggedSockets<'a, R> {
        self
    }
}

impl<R: Print + Eprint + Wait + Clock> Host for LoggedSockets<'_, R> {
    ghost spare = { λ h. unwrap_or (option_map (λ t. t.counted) h.tally) 18446744073709551615 };

    fn accept(&mut self, number: u64) -> io::Result<()> {
        self.sockets.accept(number)?;
        self.log.begun(number, self.sockets.peer(number));
        Ok(())
    }

    fn read(&mut self, number: u64, buffer: &mut [u8]) -> io::Result<usize> {
        self.sockets.read(number, buffer)
    }

    fn write(&mut self, number: u64, bytes: &[u8]) -> io::Result<usize> {
        self.sockets.write(number, bytes)
    }

    fn greeted(&mut self, number: u64, user: Uid) {
        self.sockets.greeted(number, user);
        self.log.greeted(number, user.0);
    }

    fn save(&mut self, trail: &Trail, link: Option<u64>) {
        if let Some(tally) = &mut self.tally {
            tally.go_on(trail);
        }
        self.sockets.save(trail, link);
    }

    fn spare(&self) -> u64 {
        match &self.tally {
            Some(tally) => tally.counted(),
            None => u64::MAX,
        }
    }

    fn close(&mut self, number: u64, requests: u64, ending: Ending) {
        self.sockets.close(number, requests, ending);
        let ending = words_of(ending);
        self.log.ended(number, format_args!("requests={requests} ending={ending}"));
    }

    fn wait(&mut self, pause: Option<Duration>) -> io::Result<()> {
        let pause = self.shorten(pause);
        self.sockets.wait(pause)
    }

    fn next_ready(&mut self) -> Option<Ready> {
        self.sockets.next_ready()
    }

    fn moment(&mut self) -> u64 {
        self.sockets.moment()
    }
}

/// The ending's word, and what else is to be said of it.
fn words_of(ending: Ending) -> &'static str {
    match ending {
        Ending::Closed => "Closed",
        Ending::ReadFailed => "ReadFailed",
        Ending::WriteFailed => "WriteFailed",
        Ending::Wire(fault) => words_of_fault(fault),
        Ending::BadKey => "BadKey rule=31",
        Ending::NoMemory => "NoMemory",
        Ending::TooMuchUnfinished => "TooMuchUnfinished",
    }
}
