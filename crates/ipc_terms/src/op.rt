//! The numbers of calls and answers: frames begin their bodies with them, and the audit shows those of calls.

ghost use Rattle.std.specs.Prelude.{◌≡◌};
ghost use Rattle.ipc_terms.specs.Ops.{call_number, call_of_number, answer_number, answer_of_number};

/// The number of a hello.
pub const HELLO_NUMBER: u8 = 1;

/// The number of a hang-up.
pub const HANG_UP_NUMBER: u8 = 25;

/// The number of a tick.
pub const TICK_NUMBER: u8 = 29;

/// Which call it is, apart from what it is given.
#[derive(Clone, Copy, PartialEq, Eq)]
pub enum CallOp {
    Umask = 2,
    MqOpen = 3,
    MqClose = 4,
    MqUnlink = 5,
    MqSend = 6,
    MqReceive = 7,
    MqGetattr = 8,
    MqSetattr = 9,
    MqNotify = 10,
    SemOpen = 11,
    SemClose = 12,
    SemUnlink = 13,
    SemPost = 14,
    SemWait = 15,
    SemTryWait = 16,
    SemGetvalue = 17,
    ListNames = 18,
    StatName = 19,
    Chmod = 20,
    Chown = 21,
    SetLimit = 22,
    Interrupt = 23,
    Audit = 24,
    MqTimedSend = 26,
    MqTimedReceive = 27,
    SemTimedWait = 28,
    MqGive = 30,
}

/// Every call, in the order of their numbers.
pub const EVERY_CALL: [CallOp; 27] = [
    CallOp::Umask,
    CallOp::MqOpen,
    CallOp::MqClose,
    CallOp::MqUnlink,
    CallOp::MqSend,
    CallOp::MqReceive,
    CallOp::MqGetattr,
    CallOp::MqSetattr,
    CallOp::MqNotify,
    CallOp::SemOpen,
    CallOp::SemClose,
    CallOp::SemUnlink,
    CallOp::SemPost,
    CallOp::SemWait,
    CallOp::SemTryWait,
    CallOp::SemGetvalue,
    CallOp::ListNames,
    CallOp::StatName,
    CallOp::Chmod,
    CallOp::Chown,
    CallOp::SetLimit,
    CallOp::Interrupt,
    CallOp::Audit,
    CallOp::MqTimedSend,
    CallOp::MqTimedReceive,
    CallOp::SemTimedWait,
    CallOp::MqGive,
];

impl CallOp {
    /// The call's number.
    pub fn number(self) -> u8
        ensures { result ≡ call_number self }
    {
        self as u8
    }

    /// The call of this number, if there is one.
    #[tactic(auto, unfolding(crate::specs::Ops::call_of_number))]
    pub fn of_number(number: u8) -> Option<CallOp>
        ensures { result ≡ call_of_number number }
    {
        EVERY_CALL.iter().copied().find(|op| op.number() == number)
    }
}

/// Which answer it is, apart from what it says.
#[derive(Clone, Copy, PartialEq, Eq)]
pub enum AnswerOp {
    Started = 65,
    Done = 66,
    Opened = 67,
    Mask = 68,
    Attrs = 69,
    Sent = 70,
    Received = 71,
    Value = 72,
    Names = 73,
    Stat = 74,
    Records = 75,
    Refused = 76,
    Interrupted = 77,
    Notice = 78,
    Taken = 79,
}

/// Every answer, in the order of their numbers.
pub const EVERY_ANSWER: [AnswerOp; 15] = [
    AnswerOp::Started,
    AnswerOp::Done,
    AnswerOp::Opened,
    AnswerOp::Mask,
    AnswerOp::Attrs,
    AnswerOp::Sent,
    AnswerOp::Received,
    AnswerOp::Value,
    AnswerOp::Names,
    AnswerOp::Stat,
    AnswerOp::Records,
    AnswerOp::Refused,
    AnswerOp::Interrupted,
    AnswerOp::Notice,
    AnswerOp::Taken,
];

impl AnswerOp {
    /// The answer's number.
    pub fn number(self) -> u8
        ensures { result ≡ answer_number self }
    {
        self as u8
    }

    /// The answer of this number, if there is one.
    #[tactic(auto, unfolding(crate::specs::Ops::answer_of_number))]
    pub fn of_number(number: u8) -> Option<AnswerOp>
        ensures { result ≡ answer_of_number number }
    {
        EVERY_ANSWER
            .iter()
            .copied()
            .find(|op| op.number() == number)
    }
}
