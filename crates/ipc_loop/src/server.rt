//! The loop.

ghost use Rattle.std.specs.Prelude.{◌≡◌, [], true, None, OnOk, OnErr, IfOk, IfErr, MatchOption};
ghost use Rattle.ipc_state.specs.Ranges.{first_bad};
ghost use Rattle.ipc_hub.specs.Hub.{new_hub};
ghost use Rattle.ipc_loop.specs.Ports.{open_at, port_at, how_many_open, NobodyIsForgotten, Continues};
ghost use Rattle.ipc_loop.specs.Bounds.{IsWithin};
ghost use Rattle.ipc_loop.specs.Server.{is_over, EachClosedIsGone};
ghost use Rattle.ipc_loop.specs.Asking.{AsksAll};
ghost use Rattle.ipc_loop.specs.Listening.{Listens};
ghost use Rattle.ipc_loop.specs.Hearing.{HearsAll};
ghost use Rattle.ipc_loop.specs.Serving.{ServesAndOpens, NobodyIsOwed, NobodyIsDone};

use crate::accepting::{Accepting, Bounds};
use crate::keeping::{Keeping, displaced, forget_old};
use crate::links::Host;
use crate::pausing::Reasons;
use crate::ports::Ports;
use crate::serving::Desk;
use crate::shortage::Shortage;
use crate::ticking::{make_ticks, next_deadline};
use crate::turns::{answer_all, give_turns, note_all};
use ipc_core::{Config, CoreFault};
use ipc_hub::Hub;
use ipc_terms::NoMemory;
use std::alloc::Global;
use std::io;
use std::marker::Model;
use std::time::Duration;

/// How many bytes a read asks for.
const PIECE: usize = 65_536;

/// Serves the connections of a host, in turns, over one hub.
pub struct Server {
    hub: Hub,
    ports: Ports,
    accepting: Accepting,
    desk: Desk,
    /// When the next parked call is due, as it was found last.
    deadline: Option<u64>,
    shortage: Shortage,
    keeping: Keeping,
    /// How many events the last round recorded, and how many of the smallest their records displaced.
    owed: usize,
}

// Called, so that it isn't written out and proved at each exit of a function.
impl Drop for Server {
    fn drop(self) {
        let Server {
            hub: _hub,
            ports: _ports,
            accepting: _accepting,
            desk: _desk,
            deadline: _deadline,
            shortage: _shortage,
            keeping: _keeping,
            owed: _owed,
        } = self;
    }
}

impl Model for Server {
    ghost use Rattle.ipc_loop.specs.Server.{Server};
    ghost use Rattle.ipc_loop.specs.Standing.{IsResting};

    ghost Value = { Server };

    ghost view = { λ s. record { hub = s.hub; ports = s.ports.all; turns = s.ports.next; bounds = s.accepting.bounds; keeping = s.keeping; may_accept = s.accepting.may_accept; pausing = s.accepting.pausing } };

    ghost invariant = { λ s. IsResting s.hub s.ports s.accepting.bounds };
}

impl Server {
    /// A server with an empty trail and no connection, whose memory is made: at most so many connections are open at
    /// once, and after so many accepted ones nobody is accepted any more. Or the first limit that is out of its range, as
    /// for a hub; only where all are in range may memory be wanting. An `Err` drops the configuration.
    pub fn new(
        alloc: Global,
        config: Config,
        connections: usize,
        stop_after: Option<u64>,
    ) -> Result<Server, CoreFault>
        ensures ok { IfOk result (λ server. server ≡ record { hub = new_hub config; ports = []; turns = []; bounds = record { most = connections; stop_after = stop_after }; keeping = record { records = None; bytes = None }; may_accept = true; pausing = None }) }
        ensures in_range { OnOk result (first_bad config.limits ≡ None) }
        ensures bad { IfErr result (λ fault. MatchOption (first_bad config.limits) (fault ≡ CoreFault.NoMemory) (λ field. fault ≡ CoreFault.BadConfig field)) }
    {
        let hub = Hub::new(alloc, config)?;
        match Server::of_hub(alloc, hub, connections, stop_after) {
            Ok(server) => Ok(server),
            Err(NoMemory) => Err(CoreFault::NoMemory),
        }
    }

    /// A server that goes on over a hub, and has no link yet; connections that the hub has are no link's. As for `new` at most so
    /// many are open at once, and after so many accepted ones nobody is accepted any more. An `Err` drops the hub.
    pub fn of_hub(
        alloc: Global,
        hub: Hub,
        connections: usize,
        stop_after: Option<u64>,
    ) -> Result<Server, NoMemory>
        ensures { IfOk result (λ server. server ≡ record { hub = hub; ports = []; turns = []; bounds = record { most = connections; stop_after = stop_after }; keeping = record { records = None; bytes = None }; may_accept = true; pausing = None }) }
    {
        let ports = Ports::new(alloc, connections)?;
        let piece = vec![in alloc; 0u8; PIECE]?;
        Ok(Server {
            hub,
            ports,
            accepting: Accepting {
                bounds: Bounds {
                    most: connections,
                    stop_after,
                },
                may_accept: true,
                pausing: None,
            },
            desk: Desk {
                alloc,
                piece,
                answers: Vec::new(alloc),
                unfinished: 0,
                is_waiting: false,
            },
            deadline: None,
            shortage: Shortage {
                since: None,
                moment: 0,
            },
            keeping: Keeping::ALL,
            owed: 0,
        })
    }

    /// Whether all that were to be accepted have been, and all their links are closed.
    pub fn is_over(&self) -> bool
        ensures { result ≡ is_over self.now }
    {
        self.accepting.has_all(&self.ports) && self.ports.open() == 0
    }

    /// The hub over which links are served.
    pub fn hub(&self) -> &Hub
        ensures { result.now ≡ self.now.hub }
    {
        &self.hub
    }

    /// How many links are open.
    pub fn connections(&self) -> usize
        ensures { result ≡ how_many_open self.now.ports }
    {
        self.ports.open()
    }

    /// Which records are kept from now on. At first all are.
    pub fn keep(&mut self, keeping: Keeping)
        ensures { self.new ≡ record self.old { keeping = keeping } }
    {
        self.keeping = keeping;
    }

    /// Whether for a second nothing could be recorded, though something waited to be: a hang-up or a tick found no memory in any
    /// round of that time. Rounds go on all the same, but only who ends the process helps its clients.
    pub fn is_out_of_memory(&self) -> bool {
        self.shortage.has_lasted()
    }

    /// No more links are open at once, and no more were accepted, than may be. Does nothing; a fact of every server.
    pub fn is_within_bounds(&self)
        ensures { IsWithin self.now.bounds self.now.ports }
    {
        self.ports.are_queued();
    }

    /// A link that was closed left nothing: its connection is over, nothing of it is untaken, and its session has ended. Does
    /// nothing; a fact of every server.
    pub fn leaves_nothing(&self)
        ensures { EachClosedIsGone self.now.hub self.now.ports }
    {
        self.ports.are_queued();
    }

    /// Each link for which a turn would do something gets one in the next round. Does nothing; a fact of every server.
    pub fn forgets_nobody(&self)
        ensures { NobodyIsForgotten self.now.ports self.now.turns }
    {
        self.ports.are_queued();
    }

    /// Waits until something is ready, and then gives each connection that is ready a turn, makes the ticks that are
    /// due, and writes what was answered to any. Of the oldest records it forgets those that are no longer to be kept, at most two
    /// for each that the round before made, and for each 128 bytes that these take. An `Err` tells that the host can't wait; nothing
    /// was done then.
    pub fn round<H: Host>(&mut self, host: &mut H) -> io::Result<()>
        ensures serves { ServesAndOpens self.old.hub (H.moves host.old) self.old.ports self.new.hub (H.moves host.new) self.new.ports }
        ensures rests { OnOk result (NobodyIsOwed self.new.hub (open_at self.new.ports)) }
        ensures closes { OnOk result (NobodyIsDone self.new.hub (open_at self.new.ports)) }
        ensures nothing { OnErr result (self.new ≡ self.old) }
        ensures nobody { OnErr result (H.moves host.new ≡ H.moves host.old) }
        ensures asks { OnOk result (AsksAll self.old.turns (H.moves host.old) (H.moves host.new) (port_at self.old.ports) (port_at self.new.ports)) }
        ensures listens { OnOk result (Listens self.old.bounds self.old.may_accept (H.moves host.old) (H.moves host.new) self.old.ports self.new.ports self.new.may_accept self.new.pausing) }
        ensures hears { OnOk result (HearsAll (H.told host.old) (H.told host.new) (H.moves host.old) (H.moves host.new) self.old.ports self.new.ports self.new.may_accept) }
        ensures continues { Continues self.old.ports self.new.ports }
        ensures bounds { self.new.bounds ≡ self.old.bounds }
        ensures keeping { self.new.keeping ≡ self.old.keeping }
    {
        let alloc = self.desk.alloc;
        let now = host.moment();
        self.deadline = next_deadline(&self.hub, now);
        let pause = self.pause(now);
        host.wait(pause)?;
        let before = self.hub.recorded();
        let is_told = note_all(&mut self.hub, host, &mut self.ports);
        self.accepting.may_accept |= is_told;
        self.accepting
            .accept_some(&mut self.hub, host, &mut self.ports, alloc);
        self.ports.are_queued();
        let later = host.moment();
        self.desk.is_waiting = make_ticks(&mut self.hub, alloc, later).is_err();
        forget_old(&mut self.hub, host, self.keeping, self.owed);
        let bytes = self.hub.record_bytes();
        self.ports.start_round();
        give_turns(&mut self.hub, host, &mut self.ports, &mut self.desk);
        answer_all(&mut self.hub, host, &mut self.ports, &mut self.desk);
        self.desk.trim();
        let made = self.hub.recorded().saturating_sub(before);
        self.owed = made.saturating_add(displaced(&self.hub, bytes));
        let is_short = self.desk.is_waiting && made == 0;
        self.shortage.note(is_short, later);
        Ok(())
    }

    /// How long to wait at this moment.
    fn pause(&self, now: u64) -> Option<Duration> {
        let is_pausing = self.accepting.pausing.is_some();
        let until_due = match self.deadline {
            Some(moment) => Some(moment.saturating_sub(now)),
            None => None,
        };
        let reasons = Reasons {
            is_short: self.shortage.since.is_some(),
            is_busy: self.ports.has_turns() || !is_pausing && self.accepting.is_open(&self.ports),
            is_pausing,
            until_due,
        };
        Some(Duration::from_millis(reasons.pause()?))
    }
}
