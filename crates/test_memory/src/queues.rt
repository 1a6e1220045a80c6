//! Queues and semaphores.

use crate::fault::Fault;
use crate::subject::{Fresh, Subject};
use ipc_queue::{Queue, ReceiveOutcome, SendOutcome};
use ipc_sem::{Sem, WaitOutcome};
use ipc_terms::{Desc, Sid};
use std::alloc::Global;

const ANN: Sid = Sid(0);

const BOB: Sid = Sid(1);

const CY: Sid = Sid(2);

pub enum Step {
    Send(u64, u32, Sid, SendOutcome),
    Receive(Sid, ReceiveOutcome),
    Withdraw(Sid, bool),
    Register(u64, bool),
}

use Step::{Receive, Register, Send, Withdraw};

pub static QUEUES: [(&str, &[Step]); 2] = [
    (
        "Queue::send",
        &[
            Send(10, 1, ANN, SendOutcome::Queued),
            Send(11, 5, ANN, SendOutcome::Queued),
            Send(12, 9, BOB, SendOutcome::Parked),
            Send(13, 0, CY, SendOutcome::Parked),
            Receive(ANN, ReceiveOutcome::TookAndAdmitted(11, BOB)),
            Receive(ANN, ReceiveOutcome::TookAndAdmitted(12, CY)),
            Receive(ANN, ReceiveOutcome::Took(10)),
            Receive(ANN, ReceiveOutcome::Took(13)),
            Register(4, true),
            Send(14, 7, ANN, SendOutcome::QueuedAndNotice(Desc(4))),
        ],
    ),
    (
        "Queue::receive",
        &[
            Receive(ANN, ReceiveOutcome::Parked),
            Receive(BOB, ReceiveOutcome::Parked),
            Receive(CY, ReceiveOutcome::Parked),
            Withdraw(BOB, true),
            Send(10, 1, BOB, SendOutcome::HandedTo(ANN)),
            Receive(ANN, ReceiveOutcome::Parked),
            Send(11, 1, BOB, SendOutcome::HandedTo(CY)),
            Send(12, 1, BOB, SendOutcome::HandedTo(ANN)),
            Send(13, 1, BOB, SendOutcome::Queued),
            Receive(CY, ReceiveOutcome::Took(13)),
        ],
    ),
];

impl Subject for Queue {
    type Step = Step;

    /// How many messages there are and the next, the longest parked receive and send, and who is registered.
    type Seen = (
        (usize, Option<u64>),
        (Option<Sid>, Option<Sid>),
        Option<Desc>,
    );

    fn gives(&mut self, _alloc: Global, step: &Step) -> Result<bool, Fault> {
        Ok(match *step {
            Send(place, priority, who, wanted) => self.send(place, priority, who)? == wanted,
            Receive(who, wanted) => self.receive(who)? == wanted,
            Withdraw(who, wanted) => self.withdraw(who) == wanted,
            Register(number, wanted) => self.register(Desc(number)) == wanted,
        })
    }

    fn seen(&self, _alloc: Global, _step: &Step) -> Result<Self::Seen, Fault> {
        let parked = (self.receiver(), self.sender());
        Ok(((self.len(), self.next()), parked, self.registered()))
    }
}

impl Fresh for Queue {
    fn fresh(alloc: Global) -> Result<Queue, Fault> {
        Ok(Queue::new(alloc, 2, 8))
    }
}

pub enum SemStep {
    Wait(Sid, WaitOutcome),
    Post(Option<Sid>),
}

use SemStep::{Post, Wait};

pub static SEMAPHORES: [(&str, &[SemStep]); 1] = [(
    "Sem::wait",
    &[
        Wait(ANN, WaitOutcome::Passed),
        Wait(ANN, WaitOutcome::Parked),
        Wait(BOB, WaitOutcome::Parked),
        Post(Some(ANN)),
        Wait(CY, WaitOutcome::Parked),
        Post(Some(BOB)),
        Post(Some(CY)),
        Post(None),
        Wait(ANN, WaitOutcome::Passed),
    ],
)];

impl Subject for Sem {
    type Step = SemStep;

    /// The value, and the longest parked wait.
    type Seen = (u32, Option<Sid>);

    fn gives(&mut self, _alloc: Global, step: &SemStep) -> Result<bool, Fault> {
        Ok(match *step {
            Wait(who, wanted) => self.wait(who)? == wanted,
            Post(wanted) => self.post() == Ok(wanted),
        })
    }

    fn seen(&self, _alloc: Global, _step: &SemStep) -> Result<Self::Seen, Fault> {
        Ok((self.value(), self.waiter()))
    }
}

impl Fresh for Sem {
    fn fresh(alloc: Global) -> Result<Sem, Fault> {
        Ok(Sem::new(alloc, 1))
    }
}
