//! Probes of peers that say nothing.

use crate::calls::done;
use libc::net;
use std::io;
use std::os::fd::AsRawFd;

/// After how many seconds of silence a peer is asked whether it is still there.
const SILENCE: i32 = 60;

/// How many seconds later it is asked again.
const INTERVAL: i32 = 10;

/// How often it is asked in vain before its connection breaks.
const MOST_PROBES: i32 = 6;

/// Has the system probe the peers of all connections that this TCP listener accepts from now on. Those that have vanished
/// without a word are found so after two minutes of silence, and a read then fails.
pub fn probe_silent_peers<L: AsRawFd>(listener: &L) -> io::Result<()> {
    let fd = listener.as_raw_fd();
    let (on, silence) = (value(1), value(SILENCE));
    let (interval, probes) = (value(INTERVAL), value(MOST_PROBES));
    // What is set of a listener is so of the connections that it accepts.
    done(unsafe { net::setsockopt(fd, net::SOL_SOCKET, net::SO_KEEPALIVE, &on, 4) })?;
    done(unsafe { net::setsockopt(fd, net::IPPROTO_TCP, net::TCP_KEEPIDLE, &silence, 4) })?;
    done(unsafe { net::setsockopt(fd, net::IPPROTO_TCP, net::TCP_KEEPINTVL, &interval, 4) })?;
    done(unsafe { net::setsockopt(fd, net::IPPROTO_TCP, net::TCP_KEEPCNT, &probes, 4) })
}

/// An option's value: a number in the first four bytes.
fn value(number: i32) -> [u8; 16] {
    let mut bytes = [0; 16];
    bytes[..4].copy_from_slice(&number.to_ne_bytes());
    bytes
}
