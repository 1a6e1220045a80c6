//! A connection that may begin with bytes which its peer didn't send.

ghost use Rattle.std.specs.Io.{ReadsAtMost};
ghost use Rattle.ipc_sockets.specs.Greetings.{Begins, left_of};

use crate::greeting::Greeting;
use crate::streams::Stream;
use std::io;

/// A connection.
#[derive(Drop)]
pub struct Link {
    pub stream: Stream,
    /// What it gives before its socket does.
    pub greeting: Option<Greeting>,
}

impl Link {
    /// How many bytes the link gave: those of its greeting that are left, and behind them what the socket gives, so that a first read
    /// has the requests of a peer that leaves at once too. 0 at the end of the stream. An error of the socket is told where nothing is
    /// left; one beside bytes of the greeting comes with the next read, or the end of the stream does.
    pub fn read(&mut self, buffer: &mut [u8]) -> io::Result<usize>
        ensures bound { ReadsAtMost result buffer.new }
        ensures begins { Begins (left_of self.old.greeting) (left_of self.new.greeting) buffer.old buffer.new result }
    {
        let Some(greeting) = &mut self.greeting else {
            return self.stream.read(buffer);
        };
        let count = greeting.read(buffer);
        if count == buffer.len() {
            return Ok(count);
        }
        match self.stream.read(&mut buffer[count..]) {
            Ok(more) => Ok(count + more),
            Err(error) if count == 0 => Err(error),
            Err(_) => Ok(count),
        }
    }
}
