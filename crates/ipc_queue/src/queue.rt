//! The queue.

ghost use Rattle.std.specs.Prelude.{◌≡◌, ◌<◌, ◌≤◌, ◌-◌, ◌^◌, min, [], None, is_none, length, slice_get, OnOk, OnErr, IfOk, IsOk};
ghost use Rattle.std.specs.Option.{option_copied, option_map};
ghost use Rattle.ipc_terms.specs.Lists.{first};
ghost use Rattle.ipc_containers.specs.Buckets.{IsNextKey};
ghost use Rattle.ipc_queue.specs.Contents.{of_priority};
ghost use Rattle.ipc_queue.specs.Tickets.{IsQueue, bytes_in, next_ticket, next_place, is_full_of, fired, outcome_by_receiver, send_outcome, sent_to, sent, receive_outcome, received, is_parked, withdrawn, with_registration, without_registration};

use crate::contents::Contents;
use ipc_containers::{Measured, Waiters, Waiting};
use ipc_terms::{Bytes, Desc, NoMemory, Sid};
use std::alloc::{AllocError, Global};
use std::marker::Model;

/// A message: the place of its send in the trail, its priority, and its share of the bytes.
#[derive(Drop)]
pub struct Ticket {
    pub place: u64,
    pub priority: u32,
    pub bytes: Bytes,
}

impl Clone for Ticket {
    ghost is_clone = { λ ticket copy. copy ≡ ticket };

    fn clone(&self) -> Result<Ticket, AllocError> {
        Ok(Ticket {
            place: self.place,
            priority: self.priority,
            bytes: self.bytes.clone()?,
        })
    }
}

impl Measured for Ticket {
    ghost size = { λ ticket. length ticket.bytes };

    /// The bytes of its message.
    fn size(&self) -> u64 {
        self.bytes.as_slice().len() as u64
    }
}

/// A send that waits for room.
#[derive(Drop)]
pub struct ParkedSend {
    /// Its message.
    pub ticket: Ticket,
    /// The session that sent it, and waits.
    pub session: Sid,
}

impl Waiting for ParkedSend {
    ghost caller = { λ sender. sender.session.0 };

    fn session(&self) -> Sid {
        self.session
    }
}

/// What became of a send.
#[derive(Clone, Copy, PartialEq, Eq)]
pub enum SendOutcome {
    /// The message entered the queue.
    Queued,
    /// The message entered the empty queue, and this description was registered for its notice. It no longer is.
    QueuedAndNotice(Desc),
    /// This session's receive, which was parked, took the message. It entered nothing.
    HandedTo(Sid),
    /// The queue is full: the send waits for room.
    Parked,
}

/// What became of a receive.
#[derive(Clone, Copy, PartialEq, Eq)]
pub enum ReceiveOutcome {
    /// It took the message of this place.
    Took(u64),
    /// It took the message of this place, and this session's send, which was parked, entered.
    TookAndAdmitted(u64, Sid),
    /// The queue is empty: the receive waits for a message.
    Parked,
}

/// A queue of at most `maxmsg` messages of at most `msgsize` bytes each, the calls that are parked on
/// it, and the description that is registered for its notice. The oldest message of the greatest
/// priority comes out first (POSIX.1-2017, `mq_receive`), and of parked calls the longest parked is
/// served first.
#[derive(Drop)]
pub struct Queue {
    alloc: Global,
    maxmsg: u32,
    msgsize: u32,
    contents: Contents,
    senders: Waiters<ParkedSend>,
    /// A receive brings nothing, so its session is all of it.
    receivers: Waiters<Sid>,
    /// Whose notice it is, `ipc_descr` knows.
    registered: Option<Desc>,
}

impl Model for Queue {
    ghost use Rattle.ipc_queue.specs.Tickets.{Tickets, IsQueue};

    ghost Value = { Tickets };

    ghost view = { λ q. record { maxmsg = q.maxmsg; msgsize = q.msgsize; tickets = q.contents; senders = q.senders; receivers = q.receivers; registered = q.registered } };

    ghost invariant = { λ q. IsQueue (record { maxmsg = q.maxmsg; msgsize = q.msgsize; tickets = q.contents; senders = q.senders; receivers = q.receivers; registered = q.registered }) };
}

impl Queue {
    /// A queue without messages, parked calls and registration, for at most `maxmsg` messages of at
    /// most `msgsize` bytes each, both at least 1 (POSIX.1-2017, `mq_open`). Takes no memory.
    pub fn new(alloc: Global, maxmsg: u32, msgsize: u32) -> Self
        requires some_messages { 0 < maxmsg }
        requires some_bytes { 0 < msgsize }
        ensures { result ≡ record { maxmsg = maxmsg; msgsize = msgsize; tickets = []; senders = []; receivers = []; registered = None } }
    {
        Queue {
            alloc,
            maxmsg,
            msgsize,
            contents: Contents::new(alloc),
            senders: Waiters::new(alloc),
            receivers: Waiters::new(alloc),
            registered: None,
        }
    }

    /// `who` sends a message without bytes, as by `send_message`.
    #[tactic(auto, unfolding(crate::specs::Tickets::send_outcome, crate::specs::Tickets::sent))]
    pub fn send(&mut self, ticket: u64, priority: u32, who: Sid) -> Result<SendOutcome, NoMemory>
        ensures outcome { IfOk result (λ outcome. outcome ≡ send_outcome self.old) }
        ensures ok { OnOk result (self.new ≡ sent (record { place = ticket; priority = priority; bytes = [] }) who self.old) }
        ensures err { OnErr result (self.new ≡ self.old) }
        ensures without_memory { 0 < length self.old.receivers → IsOk result }
    {
        match self.receivers.serve() {
            Some(receiver) => Ok(SendOutcome::HandedTo(receiver)),
            None => {
                let bytes = Bytes::from_slice(self.alloc, &[])?;
                self.keep(
                    Ticket {
                        place: ticket,
                        priority,
                        bytes,
                    },
                    who,
                )
            }
        }
    }

    /// `who` sends the message of the place `ticket` (POSIX.1-2017, `mq_send`). The longest parked
    /// receive takes it; where none is parked, it enters behind all others, or, at a full queue, the
    /// send parks behind all parked ones. Where it enters the empty queue, the registration fires and is
    /// gone (POSIX.1-2017, `mq_notify`). How many bytes the message has, how great its priority is, and
    /// whether another one has this place isn't asked here. What is handed on takes no memory; an `Err`
    /// leaves the queue as it was.
    #[tactic(auto, unfolding(crate::specs::Tickets::send_outcome, crate::specs::Tickets::sent))]
    pub fn send_message(
        &mut self,
        ticket: u64,
        priority: u32,
        bytes: &Bytes,
        who: Sid,
    ) -> Result<SendOutcome, NoMemory>
        ensures outcome { IfOk result (λ outcome. outcome ≡ send_outcome self.old) }
        ensures ok { OnOk result (self.new ≡ sent (record { place = ticket; priority = priority; bytes = bytes.now }) who self.old) }
        ensures err { OnErr result (self.new ≡ self.old) }
        ensures without_memory { 0 < length self.old.receivers → IsOk result }
    {
        if let Some(receiver) = self.receivers.serve() {
            return Ok(SendOutcome::HandedTo(receiver));
        }
        let bytes = bytes.clone()?;
        self.keep(
            Ticket {
                place: ticket,
                priority,
                bytes,
            },
            who,
        )
    }

    /// The message enters, or its send parks, where no receive is parked. An `Err` leaves the queue as it was.
    fn keep(&mut self, ticket: Ticket, who: Sid) -> Result<SendOutcome, NoMemory>
        requires { self.old.receivers ≡ [] }
        ensures outcome { IfOk result (λ outcome. outcome ≡ outcome_by_receiver (is_full_of self.old) (fired self.old) None) }
        ensures ok { OnOk result (self.new ≡ sent_to ticket who self.old []) }
        ensures err { OnErr result (self.new ≡ self.old) }
    {
        if self.is_full() {
            self.senders.park(ParkedSend {
                ticket,
                session: who,
            })?;
            return Ok(SendOutcome::Parked);
        }
        let was_empty = self.contents.len() == 0;
        self.contents.push(ticket)?;
        let fired = if was_empty {
            self.registered.take()
        } else {
            None
        };
        Ok(match fired {
            Some(desc) => SendOutcome::QueuedAndNotice(desc),
            None => SendOutcome::Queued,
        })
    }

    /// `who` receives (POSIX.1-2017, `mq_receive`). The oldest message of the greatest priority
    /// leaves the queue, and then the message of the longest parked send, if there is one, enters
    /// behind what is left; where no send is parked this takes no memory. It fires no registration. At
    /// an empty queue the receive parks behind all parked ones. An `Err` leaves the queue as it was.
    #[tactic(auto, unfolding(crate::specs::Tickets::receive_outcome, crate::specs::Tickets::received))]
    pub fn receive(&mut self, who: Sid) -> Result<ReceiveOutcome, NoMemory>
        ensures outcome { IfOk result (λ outcome. outcome ≡ receive_outcome self.old) }
        ensures ok { OnOk result (self.new ≡ received who self.old) }
        ensures err { OnErr result (self.new ≡ self.old) }
        ensures without_memory { 0 < length self.old.tickets → length self.old.senders ≡ 0 → IsOk result }
    {
        // It is parked only where there is no room, so there is a message.
        if let Some(sender) = self.senders.first() {
            let session = sender.session;
            let ticket = sender.ticket.clone()?;
            let place = self.contents.pop_and_push(ticket)?;
            self.senders.serve();
            return Ok(ReceiveOutcome::TookAndAdmitted(place, session));
        }
        let Some(place) = self.contents.pop() else {
            self.receivers.park(who)?;
            return Ok(ReceiveOutcome::Parked);
        };
        Ok(ReceiveOutcome::Took(place))
    }

    /// Takes back the longest parked call of the session, and says whether there was one
    /// (POSIX.1-2017, `mq_send` and `mq_receive`, EINTR). A message so taken back never enters.
    /// Takes no memory.
    #[tactic(auto, unfolding(crate::specs::Tickets::is_parked, crate::specs::Tickets::withdrawn))]
    pub fn withdraw(&mut self, sid: Sid) -> bool
        ensures found { result ≡ is_parked sid self.old }
        ensures rest { self.new ≡ withdrawn sid self.old }
    {
        let sends = self.senders.withdraw(sid);
        let receives = self.receivers.withdraw(sid);
        sends || receives
    }

    /// Registers the description for the notice of the next send that enters the empty queue, and says
    /// whether it did: it doesn't where one is registered, be it this one (POSIX.1-2017, `mq_notify`,
    /// EBUSY). Takes no memory.
    #[tactic(auto, unfolding(crate::specs::Tickets::with_registration))]
    pub fn register(&mut self, desc: Desc) -> bool
        ensures free { result ≡ is_none self.old.registered }
        ensures rest { self.new ≡ with_registration desc self.old }
    {
        if self.registered.is_some() {
            return false;
        }
        self.registered = Some(desc);
        true
    }

    /// Takes the registration of the description back (POSIX.1-2017, `mq_notify`, and `mq_close`, which
    /// removes it too). Where none or another is registered, nothing changes. Takes no memory.
    #[tactic(auto, unfolding(crate::specs::Tickets::without_registration))]
    pub fn unregister(&mut self, desc: Desc)
        ensures { self.new ≡ without_registration desc self.old }
    {
        if self.registered == Some(desc) {
            self.registered = None;
        }
    }

    /// The description that is registered for the queue's notice; `None` where none is.
    pub fn registered(&self) -> Option<Desc>
        ensures { result ≡ self.now.registered }
    {
        let Queue { registered, .. } = self;
        *registered
    }

    /// The session whose receive has been parked longest; `None` where none is parked.
    pub fn receiver(&self) -> Option<Sid>
        ensures { result ≡ first self.now.receivers }
    {
        self.receivers.first().copied()
    }

    /// The session whose send has been parked longest; `None` where none is parked.
    pub fn sender(&self) -> Option<Sid>
        ensures { result ≡ option_map (λ sender. sender.session) (first self.now.senders) }
    {
        self.senders.first().map(|sender| sender.session)
    }

    /// The place of the message that a receive would take; `None` where the queue is empty.
    pub fn next(&self) -> Option<u64>
        ensures { result ≡ next_place self.now.tickets }
    {
        self.contents.next().map(|ticket| ticket.place)
    }

    /// The message that a receive would take; `None` where the queue is empty.
    pub fn next_message(&self) -> Option<&Ticket>
        ensures { option_copied result ≡ next_ticket self.now.tickets }
    {
        self.contents.next()
    }

    /// The least priority from this one on of which the queue has messages.
    pub fn next_priority(&self, priority: u64) -> Option<u64>
        ensures { IsNextKey (λ p. of_priority p self.now.tickets) priority result }
    {
        self.contents.next_priority(priority)
    }

    /// Of the queue's messages of this priority the one at this index, counted from 0 in order of entry.
    pub fn message(&self, priority: u64, index: usize) -> Option<&Ticket>
        ensures { option_copied result ≡ slice_get (of_priority priority self.now.tickets) index }
    {
        self.contents.message(priority, index)
    }

    /// How many messages the queue has; parked sends aren't in it.
    pub fn len(&self) -> usize
        ensures count { result ≡ length self.now.tickets }
        ensures within { result ≤ self.now.maxmsg }
        ensures fits { result < 2 ^ 32 }
    {
        // Reading it tells that it is below 2^32, as `fits` wants.
        let _most = self.maxmsg;
        self.contents.len()
    }

    /// How many bytes the messages of the queue have in all, without those of parked sends: 2^64 - 1 where there are more.
    /// Looks at each message.
    pub fn bytes(&self) -> u64
        ensures { result ≡ min (bytes_in self.now.tickets) (2 ^ 64 - 1) }
    {
        self.contents.bytes()
    }

    /// Whether the queue has as many messages as it may. An empty queue is never full.
    pub fn is_full(&self) -> bool
        ensures { result ≡ is_full_of self.now }
    {
        self.contents.len() >= self.maxmsg as usize
    }

    /// A receive is parked only where there is no message, and a send only where there is no room,
    /// so never both. Does nothing; a fact of every queue.
    pub fn parks_one_kind(&self)
        ensures facts { IsQueue self.now }
        ensures one_kind { 0 < length self.now.senders → length self.now.receivers ≡ 0 }
    {
        let _least = self.msgsize;
    }
}
