//! The book behind its lock.

ghost use Rattle.std.specs.Prelude.{◌≡◌, ◌≤◌, None, Ok, [], length, IfOk, IfErr, IfSome, OnErr};
ghost use Rattle.ipc_terms.specs.declared.record.Event.TheVariants.{Hello, Do, Hangup, Tick};
ghost use Rattle.ipc_access.specs.Users.{user_of_key};
ghost use Rattle.ipc_policy.specs.declared.config.Config.{Config};
ghost use Rattle.ipc_policy.specs.Decides.Verdict.{Legal};
ghost use Rattle.ipc_state.specs.Ranges.{first_bad};
ghost use Rattle.ipc_book.specs.Seats.{BookView, session_of, without_full};
ghost use Rattle.ipc_book.specs.Locked.{ReceiptSays, EndedCall, DueSays, AnswersSay, StaleSays};
ghost use Rattle.ipc_book.specs.Closing.{AreTheTrail, CloseFaultSays, FaultSaysOf};

use crate::bell::{AWAKE_TURNS, Bell, Bells};
use crate::book::Book;
use crate::entry::{CloseFault, OfferFault, StepFault};
use crate::seat::Seat;
use ipc_terms::{Answer, Call, Event, NoMemory, Sid};
use ipc_trail::Receipt;
use std::alloc::Global;
use std::sync::ledger::Ledger;
use std::sync::{Arc, Mutex, MutexGuard, Wait};
use std::thread::yield_now;

/// A book that threads share: each call is one hold of the lock, round one call of the book. What can
/// be made before the lock is taken is made there. A clause can't name the book that the lock hides: it
/// says that there are a configuration and a legal history, of which it holds. Nothing says that a lock
/// is got. Beside the book stand the bells of those who wait for answers, by their sessions' numbers: a
/// step that answers another session rings its bell, once the book is let go.
pub struct Shared<L: Ledger> {
    book: Mutex<Book<L>>,
    bells: Mutex<Bells>,
}

// Called, so that it isn't written out and proved at each exit of a function.
impl<L: Ledger> Drop for Shared<L> {
    fn drop(self) {
        let Shared {
            book: _book,
            bells: _bells,
        } = self;
    }
}

impl<L: Ledger> Shared<L> {
    /// The book behind a lock. Takes no memory.
    pub fn new(book: Book<L>) -> Shared<L> {
        let bells = Bells::new(book.allocator());
        Shared {
            book: Mutex::new(book),
            bells: Mutex::new(bells),
        }
    }

    /// Rings the bell from now on, whenever a step of another answers the session. To be called before
    /// the session's first call: only a call of its own makes others answer it. An `Err` changes nothing.
    pub fn add_bell<R: Wait>(
        &self,
        rt: &R,
        session: Sid,
        bell: &Arc<Bell, Global>,
    ) -> Result<(), NoMemory> {
        let bell = Arc::try_clone(bell)?;
        self.bells.lock(rt).add(session, bell)
    }

    /// Rings no bell for the session any more.
    pub fn remove_bell<R: Wait>(&self, rt: &R, session: Sid) {
        self.bells.lock(rt).remove(session);
    }

    /// Rings the bell of a session that another's step answered, if one was.
    fn ring<R: Wait>(&self, rt: &R, answered: Option<Sid>) {
        if let Some(session) = answered {
            self.bells.lock(rt).ring(session);
        }
    }

    /// The book, once no other thread has it. Each has it for a short time, so a thread that finds it taken stays awake
    /// for some turns before it sleeps.
    fn hold<R: Wait>(&self, rt: &R) -> MutexGuard<'_, Book<L>> {
        for _ in 0..AWAKE_TURNS {
            if let Some(book) = self.book.try_lock() {
                return book;
            }
            yield_now();
        }
        self.book.lock(rt)
    }

    /// A seat without a session and without receipts.
    pub fn seat<R: Wait>(&self, rt: &R, alloc: Global) -> Result<Seat<L>, NoMemory>
        ensures { IfOk result (λ s. s ≡ record { sid = None; list = []; share = 0 }) }
    {
        self.hold(rt).seat(alloc)
    }

    /// Steps a hello with a key, by a seat that has no session. If it is accepted, the seat has the
    /// session that starts. An `Err` leaves the seat as it was, and the trail.
    pub fn hello<R: Wait>(
        &self,
        rt: &R,
        alloc: Global,
        seat: &mut Seat<L>,
        key: &[u8],
    ) -> Result<Receipt, StepFault>
        requires { seat.old.sid ≡ None }
        ensures ok { IfOk result (λ r. (c : Config) × ReceiptSays c seat.old seat.new (Hello (user_of_key c.users key.now)) r) }
        ensures stale { StaleSays seat.old.list result }
        ensures err { OnErr result (seat.new ≡ seat.old) }
    {
        seat.make_room();
        self.hold(rt).hello_for(alloc, seat, key)
    }

    /// Steps a call of the seat's session, or of nobody where the seat has none. The seat's copy of the
    /// call is made before the lock is taken. An `Err` leaves the seat as it was, and drops the call.
    pub fn call<R: Wait>(
        &self,
        rt: &R,
        alloc: Global,
        seat: &mut Seat<L>,
        call: Call,
    ) -> Result<Receipt, StepFault>
        ensures ok { IfOk result (λ r. (c : Config) × ReceiptSays c seat.old seat.new (Do (session_of seat.old.sid) call) r) }
        ensures stale { StaleSays seat.old.list result }
        ensures err { OnErr result (seat.new ≡ seat.old) }
    {
        let copy = seat.copy_of(&call);
        seat.make_room();
        let event = seat.calling(call);
        let (receipt, posted) = self.hold(rt).step_with_copy(alloc, seat, event, copy)?;
        self.ring(rt, posted.other);
        Ok(receipt)
    }

    /// Steps a call of the seat's session, or of nobody where the seat has none, if the session has fewer
    /// than so many answers that it has not taken yet: both in one hold. An `Err` leaves the seat as it
    /// was, and gives the call back.
    pub fn offer<R: Wait>(
        &self,
        rt: &R,
        alloc: Global,
        seat: &mut Seat<L>,
        call: Call,
        most: usize,
    ) -> Result<Receipt, (OfferFault, Call)>
        ensures ok { IfOk result (λ r. (c : Config) × ReceiptSays c seat.old seat.new (Do (session_of seat.old.sid) call) r) }
        ensures stale { StaleSays seat.old.list (without_full result) }
        ensures err { OnErr result (seat.new ≡ seat.old) }
        ensures back { IfErr result (λ p. p.1 ≡ call) }
    {
        let copy = seat.copy_of(&call);
        seat.make_room();
        let (receipt, other) = self
            .hold(rt)
            .offer_with_copy(alloc, seat, call, copy, most)?;
        self.ring(rt, other);
        Ok(receipt)
    }

    /// Steps a hang-up of the seat's session, or of nobody where the seat has none. If it is accepted,
    /// the seat has no session any more. An `Err` leaves the seat as it was, and the trail.
    pub fn hang_up<R: Wait>(
        &self,
        rt: &R,
        alloc: Global,
        seat: &mut Seat<L>,
    ) -> Result<Receipt, StepFault>
        ensures ok { IfOk result (λ r. (c : Config) × ReceiptSays c seat.old seat.new (Hangup (session_of seat.old.sid)) r) }
        ensures stale { StaleSays seat.old.list result }
        ensures err { OnErr result (seat.new ≡ seat.old) }
    {
        seat.make_room();
        self.hold(rt).hang_up_for(alloc, seat)
    }

    /// Makes a tick, by a seat that has no session, and rings the bell of the session whose call ended, if one
    /// did. An `Err` leaves the seat as it was, and the trail.
    pub fn tick<R: Wait>(
        &self,
        rt: &R,
        alloc: Global,
        seat: &mut Seat<L>,
        moment: u64,
    ) -> Result<Receipt, StepFault>
        requires { seat.old.sid ≡ None }
        ensures ok { IfOk result (λ r. (c : Config) × ReceiptSays c seat.old seat.new (Tick moment) r) }
        ensures session { seat.new.sid ≡ None }
        ensures stale { StaleSays seat.old.list result }
        ensures err { OnErr result (seat.new ≡ seat.old) }
    {
        seat.make_room();
        let event = Event::Tick { moment };
        let (receipt, posted) = self.hold(rt).step_with_copy(alloc, seat, event, None)?;
        self.ring(rt, posted.caller);
        Ok(receipt)
    }

    /// Makes a tick, by a seat that has no session, if it ends a call: both in one hold. Rings the bell of that
    /// call's session. Where no call is due there is no receipt, and the seat is as it was. An `Err` leaves the seat
    /// as it was, and the trail.
    pub fn tick_if_due<R: Wait>(
        &self,
        rt: &R,
        alloc: Global,
        seat: &mut Seat<L>,
        moment: u64,
    ) -> Result<Option<Receipt>, StepFault>
        requires { seat.old.sid ≡ None }
        ensures made { IfOk result (λ made. IfSome made (λ r. (c : Config) × EndedCall c seat.old seat.new moment r)) }
        ensures not_made { result ≡ Ok None → seat.new ≡ seat.old }
        ensures session { seat.new.sid ≡ None }
        ensures stale { StaleSays seat.old.list result }
        ensures err { OnErr result (seat.new ≡ seat.old) }
    {
        seat.make_room();
        let made = self.hold(rt).tick_if_due(alloc, seat, moment)?;
        let Some((receipt, session)) = made else {
            return Ok(None);
        };
        self.ring(rt, Some(session));
        Ok(Some(receipt))
    }

    /// The session whose call a tick of this moment would end, if there is one. By the time that it is known, it
    /// may be another. Takes no memory.
    pub fn due<R: Wait>(&self, rt: &R, moment: u64) -> Option<Sid>
        ensures { (c : Config) × DueSays c moment result }
    {
        let book = self.hold(rt);
        book.holds();
        book.core().due(moment)
    }

    /// Gives what the seat's session has not taken yet, in order, and leaves none; nothing, where the
    /// seat has no session or the trail has not its last receipt at its place. Takes no memory.
    pub fn collect<R: Wait>(&self, rt: &R, seat: &Seat<L>) -> Vec<Answer>
        ensures nobody { seat.now.sid ≡ None → result.items ≡ [] }
        ensures given { (c : Config) × AnswersSay c seat.now.sid seat.now.list result.items }
    {
        self.hold(rt).collect(seat)
    }

    /// How many answers the seat's session has not taken yet; 0 for a seat without one. By the time that
    /// it is known, there may be more.
    pub fn waiting<R: Wait>(&self, rt: &R, seat: &Seat<L>) -> usize
        ensures nobody { seat.now.sid ≡ None → result ≡ 0 }
    {
        match seat.sid() {
            Some(sid) => self.hold(rt).core().waiting(sid),
            None => 0,
        }
    }

    /// Takes all seats back, if what they keep is the trail: each place is in one seat's list, once. Else
    /// hands the book and the seats back. Waits for nothing: no other thread has the book any more.
    pub fn close(
        self,
        alloc: Global,
        seats: Vec<Seat<L>>,
    ) -> Result<Book<L>, (CloseFault, Shared<L>, Vec<Seat<L>>)>
        ensures legal { IfOk result (λ b. Legal b.core.config b.core.history) }
        ensures in_range { IfOk result (λ b. first_bad b.core.config.limits ≡ None) }
        ensures ok { IfOk result (λ b. AreTheTrail b.core.history seats.items) }
        ensures all { IfOk result (λ b. b.seats ≤ length seats.items) }
        ensures fault { IfErr result (λ t. (b : BookView) × Legal b.core.config b.core.history × CloseFaultSays b seats.items t.0) }
        ensures seats { IfErr result (λ t. FaultSaysOf seats.items t.0) }
        ensures back { IfErr result (λ t. t.2 ≡ seats) }
    {
        let Shared { book, bells } = self;
        let book = book.into_inner();
        book.holds();
        match book.close(alloc, seats) {
            Ok(book) => Ok(book),
            Err((fault, book, seats)) => Err((
                fault,
                Shared {
                    book: Mutex::new(book),
                    bells,
                },
                seats,
            )),
        }
    }
}
