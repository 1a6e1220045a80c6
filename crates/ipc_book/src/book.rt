//! The book: what is shared behind the lock.

ghost use Rattle.std.specs.Prelude.{◌≡◌, ◌<◌, ◌≤◌, ◌+◌, ◌^◌, ◌≢◌, [], ◌∷◌, ◌++◌, None, Some, Ok, length, map, OnOk, OnErr, IfOk, IfErr, IfSome, MatchOption};
ghost use Rattle.std.specs.Option.{option_map};
ghost use Rattle.ipc_terms.specs.declared.record.Event.TheVariants.{Hello, Do, Hangup, Tick};
ghost use Rattle.ipc_terms.specs.Ops.{tick_number};
ghost use Rattle.ipc_policy.specs.Decides.Bodies.{due};
ghost use Rattle.ipc_policy.specs.Decides.Verdict.{Legal, verdict, answers};
ghost use Rattle.ipc_access.specs.Users.{user_of_key};
ghost use Rattle.ipc_state.specs.Ranges.{first_bad};
ghost use Rattle.ipc_core.specs.Outboxes.{BoxesAgree, session_at};
ghost use Rattle.ipc_book.specs.Seats.{Stepped, StaleExactly, FullExactly, without_event, without_full, other_answered, untaken_of, session_of, session_after};
ghost use Rattle.ipc_book.specs.Locked.{Collects, StaleSays};
ghost use Rattle.ipc_book.specs.Closing.{AreTheTrail, CloseFaultSays};

use crate::close::{audit, gather};
use crate::entry::{CloseFault, OfferFault, StepFault, Unstepped};
use crate::seat::{Receipts, Seat};
use crate::stepping::{enter, stale};
use ipc_core::{Config, Core, CoreFault, Posted};
use ipc_terms::{Answer, Call, Event, NoMemory, Sid};
use ipc_trail::Receipt;
use std::alloc::Global;
use std::marker::Model;
use std::sync::ledger;
use std::sync::ledger::{Blank, Ledger, Share};

/// A core, and the total of a ledger, which is the length of its trail. Each seat has a share of the
/// ledger, one for each of its receipts: so an event enters a seat only where its own book's trail
/// grows by one. The ledger is a type parameter, and no seat of another book fits.
pub struct Book<L: Ledger> {
    core: Core,
    total: ledger::Book<L>,
    home: Share<L>,
    // One byte a seat, so that memory bounds their number.
    places: Vec<u8>,
}

// Called, so that it isn't written out and proved at each exit of a function.
impl<L: Ledger> Drop for Book<L> {
    fn drop(self) {
        let Book {
            core: _core,
            total: _total,
            home: _home,
            places: _places,
        } = self;
    }
}

impl<L: Ledger> Model for Book<L> {
    ghost use Rattle.std.specs.Prelude.{◌≡◌, ◌≤◌, ◌+◌, ◌^◌, length};
    ghost use Rattle.ipc_book.specs.Seats.{BookView};

    ghost Value = { BookView };

    ghost view = { λ b. record { core = b.core; seats = length b.places.items; total = b.total.total } };

    ghost invariant = { λ b. (b.total.total ≡ length b.core.history) × (2 ^ 63 ≤ b.home.parts + length b.places.items) × (b.core.first ≡ 0) };
}

impl<L: Ledger> Book<L> {
    /// A book with an empty trail, or why there is no core. Takes the ledger's blank, which has 2^63
    /// parts. An `Err` drops the configuration and the blank.
    pub fn new(alloc: Global, config: Config, blank: Blank) -> Result<Book<L>, CoreFault>
        requires name { blank.name ≡ L.name }
        requires parts { blank.parts ≡ L.parts }
        requires many { blank.parts ≡ 2 ^ 63 }
        ensures ok { IfOk result (λ b. b ≡ record { core = record { config = config; history = []; untaken = []; first = 0 }; seats = 0; total = 0 }) }
        ensures in_range { OnOk result (first_bad config.limits ≡ None) }
        ensures bad { IfErr result (λ fault. MatchOption (first_bad config.limits) (fault ≡ CoreFault.NoMemory) (λ field. fault ≡ CoreFault.BadConfig field)) }
    {
        let core = Core::new(alloc, config)?;
        let (total, home) = blank.open::<L>();
        Ok(Book {
            core,
            total,
            home,
            places: Vec::new(alloc),
        })
    }

    /// The core: its configuration, trail and untaken answers.
    pub fn core(&self) -> &Core
        ensures { result.now ≡ self.now.core }
    {
        &self.core
    }

    /// The trail is legal, the limits are in their ranges, what each session has not taken yet is the
    /// last of what it was answered while it was live, and the ledger's total is the trail's length. No
    /// record was forgotten, so each receipt can be compared with its own.
    /// Does nothing; facts of every book, and so of what is behind a lock whenever that is free.
    pub fn holds(&self)
        ensures legal { Legal self.now.core.config self.now.core.history }
        ensures in_range { first_bad self.now.core.config.limits ≡ None }
        ensures boxes { BoxesAgree self.now.core.config self.now.core.history self.now.core.untaken }
        ensures total { self.now.total ≡ length self.now.core.history }
        ensures whole { self.now.core.first ≡ 0 }
    {
        self.core.is_legal();
        self.core.keeps_the_last();
    }

    /// A seat without a session and without receipts. An `Err` changes nothing.
    pub fn seat(&mut self, alloc: Global) -> Result<Seat<L>, NoMemory>
        ensures seat { IfOk result (λ s. s ≡ record { sid = None; list = []; share = 0 }) }
        ensures made { OnOk result (self.new ≡ record self.old { seats = self.old.seats + 1 }) }
        ensures err { OnErr result (self.new ≡ self.old) }
    {
        if self.places.push(0).is_err() {
            return Err(NoMemory);
        }
        let share = self.home.split_off(1, 0);
        Ok(Seat {
            sid: None,
            receipts: Receipts::new(alloc, share),
        })
    }

    /// Steps a hello with a key, by a seat that has no session. If it is accepted, the seat has the
    /// session that starts. An `Err` changes nothing; the seat's room may differ.
    pub fn hello_for(
        &mut self,
        alloc: Global,
        seat: &mut Seat<L>,
        key: &[u8],
    ) -> Result<Receipt, StepFault>
        requires { seat.old.sid ≡ None }
        ensures ok { IfOk result (λ r. Stepped self.old.core self.new.core seat.old.list seat.new.list (Hello (user_of_key self.old.core.config.users key.now)) r) }
        ensures session { OnOk result (seat.new.sid ≡ session_after self.old.core (Hello (user_of_key self.old.core.config.users key.now)) seat.old.sid) }
        ensures stale { StaleExactly self.old.core seat.old.list result }
        ensures err { OnErr result ((self.new ≡ self.old) × (seat.new ≡ seat.old)) }
        ensures seats { self.new.seats ≡ self.old.seats }
    {
        let found = self.core.config().users.find(key);
        let (receipt, posted) = self.step_with_copy(alloc, seat, Event::Hello { found }, None)?;
        if posted.verdict.is_none() {
            seat.sid = posted.caller;
        }
        Ok(receipt)
    }

    /// Steps a call of the seat's session, or of nobody where the seat has none. An `Err` changes
    /// nothing, and drops the call; the seat's room may differ.
    pub fn step_for(
        &mut self,
        alloc: Global,
        seat: &mut Seat<L>,
        call: Call,
    ) -> Result<Receipt, StepFault>
        ensures ok { IfOk result (λ r. Stepped self.old.core self.new.core seat.old.list seat.new.list (Do (session_of seat.old.sid) call) r) }
        ensures session { seat.new.sid ≡ seat.old.sid }
        ensures stale { StaleExactly self.old.core seat.old.list result }
        ensures err { OnErr result ((self.new ≡ self.old) × (seat.new ≡ seat.old)) }
        ensures seats { self.new.seats ≡ self.old.seats }
    {
        let event = seat.calling(call);
        let (receipt, _posted) = self.step_with_copy(alloc, seat, event, None)?;
        Ok(receipt)
    }

    /// Steps a hang-up of the seat's session, or of nobody where the seat has none. If it is accepted,
    /// the seat has no session any more; what the session has not taken yet stays with the core. An
    /// `Err` changes nothing; the seat's room may differ.
    pub fn hang_up_for(&mut self, alloc: Global, seat: &mut Seat<L>) -> Result<Receipt, StepFault>
        ensures ok { IfOk result (λ r. Stepped self.old.core self.new.core seat.old.list seat.new.list (Hangup (session_of seat.old.sid)) r) }
        ensures session { OnOk result (seat.new.sid ≡ session_after self.old.core (Hangup (session_of seat.old.sid)) seat.old.sid) }
        ensures stale { StaleExactly self.old.core seat.old.list result }
        ensures err { OnErr result ((self.new ≡ self.old) × (seat.new ≡ seat.old)) }
        ensures seats { self.new.seats ≡ self.old.seats }
    {
        let sid = seat.sid.unwrap_or(Sid::NOBODY);
        let (receipt, posted) = self.step_with_copy(alloc, seat, Event::Hangup { sid }, None)?;
        if posted.verdict.is_none() {
            seat.sid = None;
        }
        Ok(receipt)
    }

    /// Makes a tick, by a seat that has no session: of the parked calls whose deadline is at most the time that
    /// it then is, the earliest ends, if there is one, and its session is told so. An `Err` changes nothing; the
    /// seat's room may differ.
    pub fn tick_for(
        &mut self,
        alloc: Global,
        seat: &mut Seat<L>,
        moment: u64,
    ) -> Result<Receipt, StepFault>
        requires { seat.old.sid ≡ None }
        ensures ok { IfOk result (λ r. Stepped self.old.core self.new.core seat.old.list seat.new.list (Tick moment) r) }
        ensures line { IfOk result (λ r. (r.sid ≡ session_of None) × (r.op ≡ tick_number)) }
        ensures session { seat.new.sid ≡ None }
        ensures stale { StaleExactly self.old.core seat.old.list result }
        ensures err { OnErr result ((self.new ≡ self.old) × (seat.new ≡ seat.old)) }
        ensures seats { self.new.seats ≡ self.old.seats }
    {
        let (receipt, _posted) = self.step_with_copy(alloc, seat, Event::Tick { moment }, None)?;
        Ok(receipt)
    }

    /// Makes a tick, by a seat that has no session, if it ends a call, and says whose. Where no call is due, and
    /// where there is an `Err`, nothing changes; the seat's room may differ.
    pub(crate) fn tick_if_due(
        &mut self,
        alloc: Global,
        seat: &mut Seat<L>,
        moment: u64,
    ) -> Result<Option<(Receipt, Sid)>, StepFault>
        requires { seat.old.sid ≡ None }
        ensures due { IfOk result (λ made. option_map (λ p. p.1.0) made ≡ due self.old.core.config self.old.core.history moment) }
        ensures made { IfOk result (λ made. IfSome made (λ p. Stepped self.old.core self.new.core seat.old.list seat.new.list (Tick moment) p.0)) }
        ensures not_made { result ≡ Ok None → (self.new ≡ self.old) × (seat.new ≡ seat.old) }
        ensures session { seat.new.sid ≡ None }
        ensures stale { StaleSays seat.old.list result }
        ensures err { OnErr result ((self.new ≡ self.old) × (seat.new ≡ seat.old)) }
        ensures seats { self.new.seats ≡ self.old.seats }
    {
        let Some(session) = self.core.due(moment) else {
            return Ok(None);
        };
        let receipt = self.tick_for(alloc, seat, moment)?;
        Ok(Some((receipt, session)))
    }

    /// Steps a call of the seat's session, or of nobody where the seat has none, if the session has fewer
    /// than so many answers that it has not taken yet. Says whom the step answered besides the caller. An
    /// `Err` changes nothing, and gives the call back; the seat's room may differ. The seat keeps `copy`, or
    /// where there is none a copy that is made here.
    pub fn offer_with_copy(
        &mut self,
        alloc: Global,
        seat: &mut Seat<L>,
        call: Call,
        copy: Option<Event>,
        most: usize,
    ) -> Result<(Receipt, Option<Sid>), (OfferFault, Call)>
        requires { IfSome copy (λ event. event ≡ Do (session_of seat.old.sid) call) }
        ensures ok { IfOk result (λ p. Stepped self.old.core self.new.core seat.old.list seat.new.list (Do (session_of seat.old.sid) call) p.0) }
        ensures other { IfOk result (λ p. p.1 ≡ other_answered self.old.core (Do (session_of seat.old.sid) call)) }
        ensures session { seat.new.sid ≡ seat.old.sid }
        ensures full { FullExactly most (length (untaken_of self.old.core seat.old.sid)) result }
        ensures stale { length (untaken_of self.old.core seat.old.sid) < most → StaleExactly self.old.core seat.old.list (without_full result) }
        ensures err { OnErr result ((self.new ≡ self.old) × (seat.new ≡ seat.old)) }
        ensures back { IfErr result (λ p. p.1 ≡ call) }
        ensures seats { self.new.seats ≡ self.old.seats }
    {
        if self.waiting(seat) >= most {
            return Err((OfferFault::Full, call));
        }
        let event = seat.calling(call);
        match self.step_with_copy(alloc, seat, event, copy) {
            Ok((receipt, posted)) => Ok((receipt, posted.other)),
            Err(Unstepped { fault, event }) => {
                let Event::Do { sid: _, call } = event else {
                    unreachable!();
                };
                Err((OfferFault::Fault(fault), call))
            }
        }
    }

    /// Steps an event, and leaves the seat's session as it is. The seat keeps `copy`, or where there is none a
    /// copy that is made here. An `Err` changes nothing, and gives the event back; the seat's room may differ.
    pub(crate) fn step_with_copy(
        &mut self,
        alloc: Global,
        seat: &mut Seat<L>,
        event: Event,
        copy: Option<Event>,
    ) -> Result<(Receipt, Posted), Unstepped>
        requires { IfSome copy (λ same. same ≡ event) }
        ensures ok { IfOk result (λ p. Stepped self.old.core self.new.core seat.old.list seat.new.list event p.0) }
        ensures verdict { IfOk result (λ p. p.1.verdict ≡ verdict self.old.core.config self.old.core.history event) }
        ensures caller { IfOk result (λ p. p.1.caller ≡ session_at 0 (answers self.old.core.config self.old.core.history event)) }
        ensures other { IfOk result (λ p. p.1.other ≡ other_answered self.old.core event) }
        ensures session { seat.new.sid ≡ seat.old.sid }
        ensures stale { StaleExactly self.old.core seat.old.list (without_event result) }
        ensures err { OnErr result ((self.new ≡ self.old) × (seat.new ≡ seat.old)) }
        ensures back { IfErr result (λ unstepped. unstepped.event ≡ event) }
        ensures seats { self.new.seats ≡ self.old.seats }
    {
        enter(
            &mut self.core,
            &mut self.total,
            &mut seat.receipts,
            alloc,
            event,
            copy,
        )
    }

    /// How many answers the seat's session has not taken yet; 0 for a seat without one.
    pub(crate) fn waiting(&self, seat: &Seat<L>) -> usize
        ensures { result ≡ length (untaken_of self.now.core seat.now.sid) }
    {
        match seat.sid {
            Some(sid) => self.core.waiting(sid),
            None => 0,
        }
    }

    /// Where the book's memory comes from.
    pub(crate) fn allocator(&self) -> Global {
        *self.places.allocator()
    }

    /// Gives what the seat's session has not taken yet, in order, and leaves none; nothing, where the
    /// seat has no session or the trail has not its last receipt at its place. Takes no memory, and
    /// copies no answer.
    pub fn collect(&mut self, seat: &Seat<L>) -> Vec<Answer>
        ensures legal { Legal self.old.core.config self.old.core.history }
        ensures in_range { first_bad self.old.core.config.limits ≡ None }
        ensures boxes { BoxesAgree self.old.core.config self.old.core.history self.old.core.untaken }
        ensures given { Collects seat.now.sid self.old.core self.new.core seat.now.list result.items }
        ensures seats { self.new.seats ≡ self.old.seats }
    {
        self.holds();
        let none = Vec::new(*self.places.allocator());
        let Some(sid) = seat.sid else {
            return none;
        };
        if stale(&self.core, &seat.receipts).is_some() {
            return none;
        }
        self.core.take(sid)
    }

    /// Takes all seats back, if what they keep is the trail: each place is in one seat's list, once. Else
    /// hands the book and the seats back. Takes one byte for each record, and a time that is linear in
    /// the records and the receipts.
    pub fn close(
        self,
        alloc: Global,
        seats: Vec<Seat<L>>,
    ) -> Result<Book<L>, (CloseFault, Book<L>, Vec<Seat<L>>)>
        ensures same { IfOk result (λ b. b ≡ self) }
        ensures ok { OnOk result (AreTheTrail self.core.history seats.items) }
        ensures all { OnOk result (self.seats ≤ length seats.items) }
        ensures fault { IfErr result (λ t. CloseFaultSays self seats.items t.0) }
        ensures back { IfErr result (λ t. (t.1 ≡ self) × (t.2 ≡ seats)) }
    {
        let made = self.places.len();
        if seats.len() < made {
            let out = made - seats.len();
            return Err((CloseFault::SeatOut(out as u64), self, seats));
        }
        match audit(&self.core, alloc, &seats) {
            Ok(()) => Ok(self.with_shares(seats)),
            Err(fault) => Err((fault, self, seats)),
        }
    }

    /// The book with the seats' shares put to its own.
    fn with_shares(self, seats: Vec<Seat<L>>) -> Book<L>
        ensures { result ≡ self }
    {
        let mut book = self;
        gather(&mut book.home, seats);
        book
    }
}
