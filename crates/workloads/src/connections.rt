//! Connections of a hub: requests in as frames, answers out as frames.

use crate::setting::{Digest, config, key_of};
use anyhow::Result;
use ipc_hub::{Conn, Hub};
use ipc_terms::{Bytes, Call};
use ipc_wire::{Request, put_request};
use std::alloc::Global;

/// A hub, and what is fed to one of its connections next.
#[derive(Drop)]
pub struct Connections {
    pub hub: Hub,
    pub alloc: Global,
    piece: Vec<u8>,
}

impl Connections {
    /// So many connections, each with a session, of the users in turn.
    pub fn new(alloc: Global, count: usize) -> Result<Connections> {
        let mut connections = Connections {
            hub: Hub::new(alloc, config(alloc)?)?,
            alloc,
            piece: Vec::new(alloc),
        };
        for number in 0..count {
            let conn = connections.hub.open(alloc)?;
            connections.greet(conn, &key_of(number))?;
        }
        Ok(connections)
    }

    fn greet(&mut self, conn: Conn, key: &[u8]) -> Result<()> {
        let hello = Request::Hello(Bytes::from_slice(self.alloc, key)?);
        put_request(&mut self.piece, &hello)?;
        self.feed(conn)?;
        self.hub.take(self.alloc, conn)?;
        Ok(())
    }

    /// Adds a request to the piece that is fed next.
    pub fn put(&mut self, call: Call) -> Result<()> {
        put_request(&mut self.piece, &Request::Do(call))?;
        Ok(())
    }

    /// Feeds the piece to the connection.
    pub fn feed(&mut self, conn: Conn) -> Result<()> {
        self.hub.feed(self.alloc, conn, &self.piece)?;
        self.piece.clear();
        Ok(())
    }

    /// Feeds one request.
    pub fn ask(&mut self, conn: Conn, call: Call) -> Result<()> {
        self.put(call)?;
        self.feed(conn)
    }

    /// Takes what the connection was answered into the digest.
    pub fn take(&mut self, conn: Conn, digest: &mut Digest) -> Result<()> {
        let bytes = self.hub.take(self.alloc, conn)?;
        digest.add(&bytes);
        Ok(())
    }
}
