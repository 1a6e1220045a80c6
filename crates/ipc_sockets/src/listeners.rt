//! Listeners that are asked in turn.

ghost use Rattle.std.specs.Prelude.{◌≡◌, ◌-◌, ◌^◌, [], ◌∷◌, ◌++◌, length, slice_get, Some, nat_lt, IfOk, OnOk, OnErr};
ghost use Rattle.ipc_sockets.specs.Greetings.{IsOneOf};

use crate::streams::{Listener, Stream};
use ipc_terms::Bytes;
use mio::{Registry, Token};
use std::alloc::{AllocError, Global};
use std::io;
use std::io::ErrorKind;
use std::marker::Model;

/// A listener, and what its connections begin with.
#[derive(Drop)]
struct Place {
    listener: Listener,
    greeting: Option<Bytes>,
    /// Somebody may be waiting there.
    may_give: bool,
}

/// Listeners, of which none is passed over for another that always has somebody waiting; seen as what their connections begin
/// with, in the order of their tokens.
#[derive(Drop)]
pub struct Listeners {
    places: Vec<Place>,
    /// Where the next connection is looked for first.
    next: usize,
}

impl Model for Listeners {
    ghost use Rattle.std.specs.Prelude.{ℕ, List, Option, map};

    ghost Value = { List (Option (List ℕ)) };

    ghost view = { λ l. map (λ p. p.greeting) l.places.items };
}

impl Listeners {
    /// No listener, and room for so many.
    pub fn new(alloc: Global, room: usize) -> Result<Listeners, AllocError>
        ensures { IfOk result (λ listeners. listeners ≡ []) }
    {
        Ok(Listeners {
            places: Vec::with_capacity(alloc, room)?,
            next: 0,
        })
    }

    /// Adds a listener whose connections begin with these bytes, if with any, before what their peers send. Waits tell of it. An
    /// `Err` adds none.
    pub fn add(
        &mut self,
        registry: &Registry,
        mut listener: Listener,
        greeting: Option<Bytes>,
    ) -> io::Result<()>
        ensures ok { OnOk result (self.new ≡ self.old ++ greeting ∷ []) }
        ensures err { OnErr result (self.new ≡ self.old) }
    {
        listener.register(registry, token_of(self.places.len()))?;
        self.places.push(Place {
            listener,
            greeting,
            may_give: true,
        })?;
        Ok(())
    }

    /// Notes that somebody may be waiting at the listener of this token. Says whether it is a listener's.
    pub fn note(&mut self, token: Token) -> bool
        ensures is_one { result ≡ nat_lt (2 ^ 64 - 1 - token.0) (length self.old) }
        ensures same { self.new ≡ self.old }
    {
        self.set(index_of(token), true)
    }

    /// The next connection, and what it begins with. They are asked in turn, first the one behind that which answered last:
    /// `WouldBlock` only where all say so.
    pub fn accept(&mut self) -> io::Result<(Stream, Option<Bytes>)>
        ensures begins { IfOk result (λ accepted. IsOneOf self.old accepted.1) }
        ensures same { self.new ≡ self.old }
    {
        let mut index = self.next;
        for _ in 0..self.places.len() {
            if self.places.len() <= index {
                index = 0;
            }
            match self.accept_at(index) {
                Err(error) if error.kind() == ErrorKind::WouldBlock => {
                    self.set(index, false);
                }
                accepted => {
                    self.next = index.saturating_add(1);
                    return accepted;
                }
            }
            index = index.saturating_add(1);
        }
        Err(io::Error::from(ErrorKind::WouldBlock))
    }

    /// The next connection at this listener, and what it begins with.
    fn accept_at(&self, index: usize) -> io::Result<(Stream, Option<Bytes>)>
        ensures { IfOk result (λ accepted. slice_get self.now index ≡ Some accepted.1) }
    {
        match self.places.get(index) {
            Some(place) if place.may_give => {
                let stream = place.listener.accept()?;
                Ok((stream, copy_of(&place.greeting)?))
            }
            _ => Err(io::Error::from(ErrorKind::WouldBlock)),
        }
    }

    /// Sets whether somebody may be waiting at this listener. Says whether there is such a listener.
    fn set(&mut self, index: usize, may_give: bool) -> bool
        ensures is_one { result ≡ nat_lt index (length self.old) }
        ensures same { self.new ≡ self.old }
    {
        let Some(place) = self.places.get_mut(index) else {
            return false;
        };
        place.may_give = may_give;
        true
    }
}

fn copy_of(greeting: &Option<Bytes>) -> Result<Option<Bytes>, AllocError>
    ensures { IfOk result (λ copy. copy ≡ greeting.now) }
{
    match greeting {
        Some(bytes) => Ok(Some(bytes.clone()?)),
        None => Ok(None),
    }
}

/// Listeners have the tokens from the last one down, which no connection has.
fn token_of(index: usize) -> Token
    ensures { result.0 ≡ 2 ^ 64 - 1 - index }
{
    Token(usize::MAX.saturating_sub(index))
}

fn index_of(token: Token) -> usize
    ensures { result ≡ 2 ^ 64 - 1 - token.0 }
{
    usize::MAX.saturating_sub(token.0)
}
