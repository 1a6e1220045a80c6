//! What is told before a connection reads and writes.

/// Is called before each read of a connection and before each write of its answers, with no lock held.
/// Connections are numbered as they are accepted.
pub trait Gate {
    fn before_read(&self, conn: u64);

    fn before_answer(&self, conn: u64);
}

/// Holds nobody up.
#[derive(Clone, Copy)]
pub struct OpenGate;

impl Gate for OpenGate {
    fn before_read(&self, _conn: u64) {}

    fn before_answer(&self, _conn: u64) {}
}
