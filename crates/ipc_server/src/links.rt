//! Connections, and what accepts them.

ghost use Rattle.std.specs.Io.{ReadsAtMost, WritesAtMost};

use std::io;
use std::io::{Read, Write};
use std::net::{SocketAddr, TcpListener, TcpStream};
use std::os::unix::net::{UnixListener, UnixStream};

/// A connection whose two ends are used by two threads at once.
pub trait Link {
    /// As `Read::read`: how many bytes were read, and 0 at the end of the stream.
    fn read(&self, buffer: &mut [u8]) -> io::Result<usize>
        ensures bound { ReadsAtMost result buffer.new };

    /// As `Write::write`: how many of the bytes were written.
    fn write(&self, bytes: &[u8]) -> io::Result<usize>
        ensures bound { WritesAtMost result bytes.now };

    /// Who is at the other end, where that is known.
    fn peer(&self) -> Option<SocketAddr> {
        None
    }
}

/// What gives connections, one after the other.
pub trait Listen {
    type Conn: Link;

    /// Blocks until somebody connects.
    fn accept(&self) -> io::Result<Self::Conn>;
}

impl Link for TcpStream {
    fn read(&self, buffer: &mut [u8]) -> io::Result<usize> {
        let mut stream = self;
        Read::read(&mut stream, buffer)
    }

    fn write(&self, bytes: &[u8]) -> io::Result<usize> {
        let mut stream = self;
        Write::write(&mut stream, bytes)
    }

    fn peer(&self) -> Option<SocketAddr> {
        self.peer_addr().ok()
    }
}

/// An answer goes out at once, and not with the next one (TCP_NODELAY).
impl Listen for TcpListener {
    type Conn = TcpStream;

    fn accept(&self) -> io::Result<TcpStream> {
        let (stream, _) = TcpListener::accept(self)?;
        // It fails where the peer is gone, which the first read tells.
        let _ = stream.set_nodelay(true);
        Ok(stream)
    }
}

impl Link for UnixStream {
    fn read(&self, buffer: &mut [u8]) -> io::Result<usize> {
        let mut stream = self;
        Read::read(&mut stream, buffer)
    }

    fn write(&self, bytes: &[u8]) -> io::Result<usize> {
        let mut stream = self;
        Write::write(&mut stream, bytes)
    }
}

impl Listen for UnixListener {
    type Conn = UnixStream;

    fn accept(&self) -> io::Result<UnixStream> {
        let (stream, _) = UnixListener::accept(self)?;
        Ok(stream)
    }
}

/// The end that is read.
#[derive(Drop)]
pub(crate) struct LinkReader<'a, C>(pub(crate) &'a C);

/// The end that is written.
#[derive(Drop)]
pub(crate) struct LinkWriter<'a, C>(pub(crate) &'a C);

impl<C: Link> Read for LinkReader<'_, C> {
    fn read(&mut self, buffer: &mut [u8]) -> io::Result<usize> {
        self.0.read(buffer)
    }
}

impl<C: Link> Write for LinkWriter<'_, C> {
    fn write(&mut self, bytes: &[u8]) -> io::Result<usize> {
        self.0.write(bytes)
    }

    fn flush(&mut self) -> io::Result<()> {
        Ok(())
    }
}
