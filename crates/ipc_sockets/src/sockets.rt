//! Sockets by their numbers, and what waits for them.

ghost use Rattle.std.specs.Prelude.{◌≡◌, [], ◌∷◌, ◌++◌, None, IfOk, OnOk};
ghost use Rattle.ipc_sockets.specs.Greetings.{IsOneOf};
ghost use Rattle.ipc_sockets.specs.Hellos.{beginnings, hellos};

use crate::clock::moment;
use crate::files::{SocketFiles, listen_at_file, path_of};
use crate::folder::{UserSocket, listen_in_folder};
use crate::greeting::Greeting;
use crate::lingering::LingeringStreams;
use crate::link::Link;
use crate::listeners::Listeners;
use crate::scrapers::Scrapers;
use crate::streams::Listener;
use ipc_containers::Numbered;
use ipc_loop::{Ending, Host, Ready};
use ipc_terms::{Bytes, Uid};
use ipc_trail::Trail;
use mio::event::Event;
use mio::net::UnixListener;
use mio::{Events, Poll, Registry, Token};
use std::alloc::Global;
use std::fs::File;
use std::io;
use std::io::ErrorKind;
use std::net::{Net, SocketAddr};
use std::os::unix;
use std::rt::Files;
use std::time::{Clock, Duration};

/// The permission bits of a file at which numbers are shown.
const OWNER_S_MODE: u32 = 0o600;

/// How many sources one wait tells of at most.
const MOST_EVENTS: usize = 1_024;

/// Listeners, the connections that they accepted, and the system's clock. What a socket carried isn't known to contracts.
pub struct Sockets<'a, R> {
    rt: &'a R,
    poll: Poll,
    listeners: Listeners,
    /// The files that are listened at, if there are any.
    files: Option<SocketFiles>,
    /// By their numbers, of which none is used twice. None while its accept isn't done.
    links: Numbered<Option<Link>>,
    /// Connections that ask for numbers, where they may.
    scrapers: Option<Scrapers>,
    /// Links that were closed while bytes of their peers may have been unread.
    lingering: LingeringStreams,
    events: Events,
    /// What is ready and isn't told yet, the last first: what the last wait found, and links that were accepted since and have a
    /// greeting to be read.
    ready: Vec<Ready>,
}

// Called, so that it isn't written out and proved at each exit of a function.
impl<R> Drop for Sockets<'_, R> {
    fn drop(self) {
        let Sockets {
            rt: _rt,
            poll: _poll,
            listeners: _listeners,
            files: _files,
            links: _links,
            scrapers: _scrapers,
            lingering: _lingering,
            events: _events,
            ready: _ready,
        } = self;
    }
}

impl<'a, R: Files<File = File> + Net> Sockets<'a, R> {
    /// Listens at `HOST:PORT`, the first that can be bound, or at `unix:PATH`, a file which gets these permission bits (see
    /// `listen_at_file`). No connection can be lost for want of room in the kernel's queue before the system's own limit.
    /// An `Err` leaves no file.
    pub fn bind(rt: &'a R, alloc: Global, address: &str, mode: u32) -> io::Result<Self>
        ensures { IfOk result (λ sockets. beginnings sockets ≡ None ∷ []) }
    {
        let mut sockets = Sockets::without_listeners(rt, alloc, 1)?;
        let Some(path) = path_of(address) else {
            sockets.add(Listener::over_tcp(rt, address)?, None)?;
            return Ok(sockets);
        };
        let (listener, files) = listen_at_file(rt, alloc, path, mode)?;
        match sockets.add_unix(listener, None) {
            Ok(()) => {
                sockets.files = Some(files);
                Ok(sockets)
            }
            Err(error) => {
                files.remove(rt);
                Err(error)
            }
        }
    }

    /// Listens at a socket of each user's own in this folder: a connection there begins with the user's hello, whatever
    /// its peer sends. Errors are as of `listen_in_folder`. An `Err` leaves no file.
    pub fn bind_for_users(
        rt: &'a R,
        alloc: Global,
        folder: &str,
        users: &[UserSocket],
    ) -> io::Result<Self>
        ensures { IfOk result (λ sockets. beginnings sockets ≡ hellos users.now) }
    {
        let mut sockets = Sockets::without_listeners(rt, alloc, users.len())?;
        let (listeners, files) = listen_in_folder(rt, alloc, folder, users)?;
        match sockets.add_all(listeners, users) {
            Ok(()) => {
                sockets.files = Some(files);
                Ok(sockets)
            }
            Err(error) => {
                files.remove(rt);
                Err(error)
            }
        }
    }

    /// Shows numbers at `HOST:PORT`, the first that can be bound, or at `unix:PATH`, a file that its owner alone may open: whoever
    /// connects there and asks for a page is told of by `is_asked`. An `Err` shows them nowhere, and leaves no file.
    pub fn show_at(&mut self, alloc: Global, address: &str) -> io::Result<()>
        ensures { beginnings self.new ≡ beginnings self.old }
    {
        let Some(path) = path_of(address) else {
            let listener = Listener::over_tcp(self.rt, address)?;
            self.scrapers = Some(Scrapers::new(alloc, self.poll.registry(), listener)?);
            return Ok(());
        };
        let (listener, files) = listen_at_file(self.rt, alloc, path, OWNER_S_MODE)?;
        match scrapers_of(alloc, self.poll.registry(), listener) {
            Ok(mut scrapers) => {
                scrapers.keep(files);
                self.scrapers = Some(scrapers);
                Ok(())
            }
            Err(error) => {
                files.remove(self.rt);
                Err(error)
            }
        }
    }

    /// No socket yet, and room for so many listeners.
    fn without_listeners(rt: &'a R, alloc: Global, room: usize) -> io::Result<Self>
        ensures { IfOk result (λ sockets. beginnings sockets ≡ []) }
    {
        Ok(Sockets {
            rt,
            poll: Poll::new(rt)?,
            listeners: Listeners::new(alloc, room)?,
            files: None,
            links: Numbered::new(alloc),
            scrapers: None,
            lingering: LingeringStreams::new(alloc)?,
            events: Events::with_capacity(alloc, MOST_EVENTS)?,
            ready: Vec::with_capacity(alloc, MOST_EVENTS)?,
        })
    }
}

impl<R> Sockets<'_, R> {
    fn add(&mut self, listener: Listener, greeting: Option<Bytes>) -> io::Result<()>
        ensures { OnOk result (beginnings self.new ≡ beginnings self.old ++ greeting ∷ []) }
    {
        self.listeners.add(self.poll.registry(), listener, greeting)
    }

    /// Adds a listener, which never waits from now on.
    fn add_unix(
        &mut self,
        listener: unix::net::UnixListener,
        greeting: Option<Bytes>,
    ) -> io::Result<()>
        ensures { OnOk result (beginnings self.new ≡ beginnings self.old ++ greeting ∷ []) }
    {
        listener.set_nonblocking(true)?;
        self.add(Listener::Unix(UnixListener::from_std(listener)), greeting)
    }

    /// Adds the listener of each user.
    fn add_all(
        &mut self,
        listeners: Vec<unix::net::UnixListener>,
        users: &[UserSocket],
    ) -> io::Result<()>
        ensures { OnOk result (beginnings self.new ≡ beginnings self.old ++ hellos users.now) }
    {
        let mut listeners = listeners.into_iter();
        for user in users {
            let Some(listener) = listeners.next() else {
                return Err(io::Error::from(ErrorKind::InvalidInput));
            };
            self.add_unix(listener, Some(user.hello.clone()?))?;
        }
        Ok(())
    }

    /// Accepts the next connection under this number. A link with a greeting is told to be ready.
    fn accept_link(&mut self, number: u64) -> io::Result<Link>
        ensures { IfOk result (λ link. IsOneOf (beginnings self.old) link.greeting) }
    {
        // The room is made first, so that nobody is dropped for want of it, and the next wait needs none.
        self.ready.reserve(MOST_EVENTS + 1)?;
        let (mut stream, hello) = self.listeners.accept()?;
        stream.register(self.poll.registry(), Token(number as usize))?;
        let Some(hello) = hello else {
            return Ok(Link {
                stream,
                greeting: None,
            });
        };
        self.ready.push(to_be_read(number))?;
        Ok(Link {
            stream,
            greeting: Some(Greeting::new(hello)),
        })
    }
}

impl<R: Files + Clock> Sockets<'_, R> {
    /// Removes the files that were listened at, if they are still there, and waits until no stream lingers: a second at most.
    pub fn finish(&mut self) {
        if let Some(files) = self.files.take() {
            files.remove(self.rt);
        }
        // Else whoever goes on connecting there could keep streams lingering.
        if let Some(mut scrapers) = self.scrapers.take() {
            scrapers.remove_files(self.rt);
        }
        for _ in 0..u64::MAX {
            // Nobody is told any more.
            self.ready.clear();
            if self.lingering.is_empty() || self.wait(None).is_err() {
                return;
            }
        }
    }
}

impl<R> Sockets<'_, R> {
    /// Who is at the other end of the connection of this number, where that is known: not at a Unix socket.
    pub fn peer(&self, number: u64) -> Option<SocketAddr> {
        match self.links.get(number as usize) {
            Some(Some(link)) => link.stream.peer(),
            _ => None,
        }
    }

    /// The pause, or less where something may be ready before.
    fn shorten(&self, pause: Option<Duration>) -> Option<Duration> {
        match &self.scrapers {
            Some(scrapers) => scrapers.shorten(pause),
            None => pause,
        }
    }

    /// Whether somebody waits for the page of numbers.
    pub fn is_asked(&self) -> bool {
        match &self.scrapers {
            Some(scrapers) => scrapers.is_asked(),
            None => false,
        }
    }

    fn link(&mut self, number: u64) -> io::Result<&mut Link> {
        match self.links.get_mut(number as usize) {
            Some(Some(link)) => Ok(link),
            _ => Err(io::Error::from(ErrorKind::NotFound)),
        }
    }
}

impl<R: Clock> Sockets<'_, R> {
    /// Answers who waits for the page of numbers.
    pub fn show(&mut self, page: &str) {
        if let Some(scrapers) = &mut self.scrapers {
            scrapers.show(self.rt, page, &mut self.lingering);
        }
    }
}

impl<R: Clock> Host for Sockets<'_, R> {
    // It keeps no trail.
    ghost spare = { λ _. 18446744073709551615 };

    fn accept(&mut self, number: u64) -> io::Result<()> {
        // The room is made first, so that nobody is dropped for want of it.
        for _ in self.links.next_number()..=number as usize {
            let Ok(()) = self.links.push(None) else {
                return Err(io::Error::from(ErrorKind::OutOfMemory));
            };
        }
        let link = self.accept_link(number)?;
        if let Some(place) = self.links.get_mut(number as usize) {
            *place = Some(link);
        }
        Ok(())
    }

    fn read(&mut self, number: u64, buffer: &mut [u8]) -> io::Result<usize> {
        self.link(number)?.read(buffer)
    }

    fn write(&mut self, number: u64, bytes: &[u8]) -> io::Result<usize> {
        let link = self.link(number)?;
        if bytes.is_empty() {
            // The system would fail where the peer is gone, though what it sent is still to be read.
            return Ok(0);
        }
        link.stream.write(bytes)
    }

    fn greeted(&mut self, _number: u64, _user: Uid) {}

    fn save(&mut self, _trail: &Trail, _link: Option<u64>) {}

    fn spare(&self) -> u64 {
        u64::MAX
    }

    fn close(&mut self, number: u64, _requests: u64, ending: Ending) {
        if let Some(Some(link)) = self.links.take(number as usize) {
            if may_leave_unread(ending) {
                self.lingering.add(self.rt, number, link.stream);
            }
        }
    }

    fn wait(&mut self, pause: Option<Duration>) -> io::Result<()> {
        let sooner = self.shorten(pause);
        let pause = if self.ready.is_empty() {
            self.lingering.shorten(self.rt, sooner)
        } else {
            // What is ready already is told at once.
            Some(Duration::ZERO)
        };
        self.poll.poll(&mut self.events, pause)?;
        for event in self.events.iter().rev() {
            if is_scraper_s(event, &mut self.scrapers) {
                continue;
            }
            let found = ready(event, &mut self.listeners);
            keep(found, &self.links, &mut self.lingering, &mut self.ready)?;
        }
        if let Some(scrapers) = &mut self.scrapers {
            scrapers.go_on(self.rt, self.poll.registry(), &mut self.lingering);
        }
        self.lingering.go_on(self.rt);
        Ok(())
    }

    fn next_ready(&mut self) -> Option<Ready> {
        self.ready.pop()
    }

    fn moment(&mut self) -> u64 {
        moment(self.rt)
    }
}

/// Notes what is ready of those that ask for numbers. Says whether it is theirs.
fn is_scraper_s(event: &Event, scrapers: &mut Option<Scrapers>) -> bool {
    match scrapers {
        Some(scrapers) => scrapers.note(event.token().0 as u64),
        None => false,
    }
}

/// Those that come to this listener, which never waits from now on.
fn scrapers_of(
    alloc: Global,
    registry: &Registry,
    listener: unix::net::UnixListener,
) -> io::Result<Scrapers> {
    listener.set_nonblocking(true)?;
    let listener = Listener::Unix(UnixListener::from_std(listener));
    Scrapers::new(alloc, registry, listener)
}

/// Keeps what is to be told. A link that was closed may linger, and isn't told of.
fn keep(
    found: Ready,
    links: &Numbered<Option<Link>>,
    lingering: &mut LingeringStreams,
    kept: &mut Vec<Ready>,
) -> io::Result<()> {
    if let Ready::Link { number, .. } = found {
        if !matches!(links.get(number as usize), Some(Some(_))) {
            lingering.note(number);
            return Ok(());
        }
    }
    kept.push(found)?;
    Ok(())
}

/// Whether bytes of the peer may be unread where a link ends so.
fn may_leave_unread(ending: Ending) -> bool {
    match ending {
        Ending::BadKey | Ending::Wire(_) | Ending::NoMemory | Ending::TooMuchUnfinished => true,
        Ending::Closed | Ending::ReadFailed | Ending::WriteFailed => false,
    }
}

/// A link that can be read, whatever its socket says.
fn to_be_read(number: u64) -> Ready {
    Ready::Link {
        number,
        is_readable: true,
        is_writable: false,
        has_ended: false,
    }
}

/// An error, and an end of what can be written, come as something to read too: the read says why.
fn ready(event: &Event, listeners: &mut Listeners) -> Ready {
    if listeners.note(event.token()) {
        return Ready::Listener;
    }
    let has_failed = event.is_error() || event.is_write_closed();
    Ready::Link {
        number: event.token().0 as u64,
        is_readable: event.is_readable() || event.is_read_closed() || has_failed,
        is_writable: event.is_writable() || has_failed,
        has_ended: event.is_read_closed() || has_failed,
    }
}
