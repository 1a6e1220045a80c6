//! The log: a line for what becomes of each connection.

use ipc_metrics::Numbers;
use ipc_sockets::moment;
use ipc_wire::WireFault;
use std::alloc::Global;
use std::fmt::Display;
use std::fs::File;
use std::io::Write;
use std::net::SocketAddr;
use std::rt::Files;
use std::sync::{Mutex, Wait};
use std::time::Clock;

/// Where lines go.
#[derive(Drop)]
enum Sink {
    Nowhere,
    Output,
    Kept(File),
}

/// What stands behind the log's lock, so that lines come one after the other.
#[derive(Drop)]
struct Lines {
    sink: Sink,
    /// How many connections have begun and not ended.
    open: usize,
}

/// A log of a server's connections, of which so many at most are served at a time.
#[derive(Drop)]
pub struct Log<'a, R> {
    rt: &'a R,
    alloc: Global,
    most: usize,
    lines: Mutex<Lines>,
}

/// Opens a log at the end of a file, which is made if it isn't there, or over standard output, which `-` names. Without a
/// file it is empty, and so it is where the file can't be opened, which standard error is told.
pub fn open_log<'a, R: AllocGlobal + Files<File = File> + Eprint>(
    rt: &'a R,
    path: &Option<String>,
    most: usize,
) -> Log<'a, R> {
    let sink = match path {
        None => Sink::Nowhere,
        Some(path) => sink_at(rt, path.as_str()),
    };
    Log {
        rt,
        alloc: rt.alloc(),
        most,
        lines: Mutex::new(Lines { sink, open: 0 }),
    }
}

/// The end of the file, or standard output where the path is `-`.
fn sink_at<R: Files<File = File> + Eprint>(rt: &R, path: &str) -> Sink {
    if path == "-" {
        return Sink::Output;
    }
    match File::options().append(true).create(true).open(rt, path) {
        Ok(file) => Sink::Kept(file),
        Err(_) => {
            tell_fault(rt);
            Sink::Nowhere
        }
    }
}

/// Says that there is no log any more. A standard error that can't be written to is passed over.
fn tell_fault<R: Eprint>(rt: &R) {
    let _ = eprintln!(rt; "mqserve: log");
}

impl<R: Print + Eprint + Wait + Clock> Log<'_, R> {
    /// Whether lines are written.
    pub fn is_kept(&self) -> bool {
        let lines = self.lines.lock(self.rt);
        !matches!(lines.sink, Sink::Nowhere)
    }

    /// So much is kept.
    pub fn kept(&self, numbers: &Numbers) {
        let mut lines = self.lines.lock(self.rt);
        let records = format_args!("records={} bytes={}", numbers.kept, numbers.kept_bytes);
        let Numbers {
            sessions,
            connections,
            messages,
            resident,
            ..
        } = numbers;
        let objects = numbers.queues.saturating_add(numbers.semaphores);
        self.write(
            &mut lines,
            format_args!(
                "kept {records} sessions={sessions} connections={connections} objects={objects} messages={messages} resident={resident}"
            ),
        );
    }

    /// A connection is served now. Its peer, where that is known.
    pub fn begun(&self, conn: u64, peer: Option<SocketAddr>) {
        let mut lines = self.lines.lock(self.rt);
        match peer {
            Some(peer) => self.write(
                &mut lines,
                format_args!("begun connection={conn} peer={peer}"),
            ),
            None => self.write(&mut lines, format_args!("begun connection={conn}")),
        }
        lines.open = lines.open.saturating_add(1);
        if lines.open == self.most {
            self.write(&mut lines, "busy");
        }
    }

    /// The user of this ID has a session over the connection.
    pub fn greeted(&self, conn: u64, user: u32) {
        let mut lines = self.lines.lock(self.rt);
        self.write(
            &mut lines,
            format_args!("hello connection={conn} user={user}"),
        );
    }

    /// A connection that had begun has ended.
    pub fn ended<D: Display + Drop>(&self, conn: u64, how: D) {
        let mut lines = self.lines.lock(self.rt);
        self.write(&mut lines, format_args!("ended connection={conn} {how}"));
        if lines.open == self.most {
            self.write(&mut lines, "free");
        }
        lines.open = lines.open.saturating_sub(1);
    }
}

impl<R: Print + Eprint + Clock> Log<'_, R> {
    /// Writes a line of what happened now. Where it can't be written the log ends, and nothing else.
    fn write<D: Display + Drop>(&self, lines: &mut Lines, what: D) {
        if matches!(lines.sink, Sink::Nowhere) {
            return;
        }
        let moment = moment(self.rt);
        let is_written = match format!(in self.alloc; "time={moment} event={what}\n") {
            Ok(line) => put(self.rt, &mut lines.sink, line.as_str()),
            Err(_) => false,
        };
        if !is_written {
            lines.sink = Sink::Nowhere;
            tell_fault(self.rt);
        }
    }
}

/// Whether the line is written.
fn put<R: Print>(rt: &R, sink: &mut Sink, line: &str) -> bool {
    match sink {
        Sink::Nowhere => true,
        Sink::Output => print!(rt; "{line}").is_ok(),
        Sink::Kept(file) => file.write_all(line.as_bytes()).is_ok(),
    }
}

/// How a connection ended whose stream was at fault.
pub fn words_of_fault(fault: WireFault) -> &'static str {
    match fault {
        WireFault::TooLong => "Wire fault=TooLong",
        WireFault::Empty => "Wire fault=Empty",
        WireFault::BadOpcode => "Wire fault=BadOpcode",
        WireFault::BadField => "Wire fault=BadField",
        WireFault::Trailing => "Wire fault=Trailing",
    }
}
