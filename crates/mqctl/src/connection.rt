//! Connections to the server.

use ipc_client::ClientFault;
use std::io;
use std::io::ErrorKind;
use std::net::TcpStream;
use std::os::unix::net::UnixStream;

/// Connects to `HOST:PORT`.
pub fn connect_over_tcp(rt: &HostRuntime, address: &str) -> Result<TcpStream, ClientFault> {
    match TcpStream::connect(rt, address) {
        Ok(stream) => {
            // Each request is waited for, so it is sent at once. A connection that is gone shows when it is used.
            let _ = stream.set_nodelay(true);
            Ok(stream)
        }
        Err(error) => Err(fault_of(&error)),
    }
}

/// Connects to the server that listens at a file.
pub fn connect_to_file(rt: &HostRuntime, path: &str) -> Result<UnixStream, ClientFault> {
    match UnixStream::connect(rt, path) {
        Ok(stream) => Ok(stream),
        Err(error) => Err(fault_of(&error)),
    }
}

/// The fault of a file or a connection that can't be had.
pub fn fault_of(error: &io::Error) -> ClientFault {
    match error.kind() {
        ErrorKind::OutOfMemory => ClientFault::Memory,
        _ => ClientFault::Net,
    }
}
