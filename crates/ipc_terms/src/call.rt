//! What is asked, and what is answered.

ghost use Rattle.std.specs.Prelude.{◌≡◌};
ghost use Rattle.std.specs.Option.{option_copied};
ghost use Rattle.ipc_terms.specs.Lines.{name_of};
ghost use Rattle.ipc_terms.specs.Ops.{call_op, answer_op};

use crate::bytes::Bytes;
use crate::facts::Facts;
use crate::flags::OpenFlags;
use crate::ids::{Desc, Family, Gid, Mode, Sid, Target, Uid};
use crate::line::Lines;
use crate::name::{Name, Names};
use crate::op::{AnswerOp, CallOp};
use crate::rule::Rule;

/// What the caller of an open wants to do with the object (`mq_open`: `O_RDONLY`, `O_WRONLY`, `O_RDWR`).
#[derive(Clone, Copy, PartialEq, Eq)]
pub enum Access {
    Read,
    Write,
    Both,
}

/// The attributes of a queue (`mq_attr`): at most `maxmsg` messages of at most `msgsize` bytes each.
#[derive(Clone, Copy, PartialEq, Eq)]
pub struct Attributes {
    pub maxmsg: u32,
    pub msgsize: u32,
}

/// What `mq_open` is given. Mode and attributes count only where the open creates.
#[derive(Clone, Drop)]
pub struct QueueOpen {
    pub name: Name,
    pub access: Access,
    pub flags: OpenFlags,
    pub mode: Mode,
    pub attributes: Option<Attributes>,
}

/// What `sem_open` is given. Mode and value count only where the open creates.
#[derive(Clone, Drop)]
pub struct SemaphoreOpen {
    pub name: Name,
    /// `CREATE` and `EXCLUSIVE`; no other flag means anything here.
    pub flags: OpenFlags,
    pub mode: Mode,
    /// The first value, at most `SEM_VALUE_MAX`.
    pub value: u32,
}

/// What a session asks for.
#[derive(Clone, Drop)]
pub enum Call {
    /// Sets the session's mask to the low nine bits, and answers the mask before (POSIX.1-2017, `umask`).
    Umask(Mode),
    /// Opens a queue (POSIX.1-2017, `mq_open`).
    MqOpen(QueueOpen),
    /// Closes a queue's description (POSIX.1-2017, `mq_close`).
    MqClose(Desc),
    /// Sends a message (POSIX.1-2017, `mq_send`). A greater priority comes out first.
    MqSend {
        desc: Desc,
        priority: u32,
        bytes: Bytes,
    },
    /// Takes the oldest message of the greatest priority (POSIX.1-2017, `mq_receive`). The caller
    /// has room for so many bytes.
    MqReceive {
        desc: Desc,
        length: u32,
    },
    /// Asks for a queue's attributes (POSIX.1-2017, `mq_getattr`).
    MqGetattr(Desc),
    /// Sets whether the calls by the description are refused where they would wait, and answers the
    /// attributes before it (POSIX.1-2017, `mq_setattr`).
    MqSetattr {
        desc: Desc,
        nonblock: bool,
    },
    /// Asks for a notice when a message comes to the empty queue, once, or no longer asks for it
    /// (POSIX.1-2017, `mq_notify`). A queue has one registration, the description's that asked.
    MqNotify {
        desc: Desc,
        on: bool,
    },
    /// Passes a queue's description on to another live session, which then has it with its object, its access and its
    /// NONBLOCK. Its registration for a notice is dropped.
    MqGive {
        desc: Desc,
        taker: Sid,
    },
    /// Leaves a queue's name unbound at once. The queue lives until its last description is closed
    /// (POSIX.1-2017, `mq_unlink`).
    MqUnlink(Name),
    /// Opens a semaphore, always for reading and writing (POSIX.1-2017, `sem_open`).
    SemOpen(SemaphoreOpen),
    /// Closes a semaphore's description (POSIX.1-2017, `sem_close`).
    SemClose(Desc),
    /// Leaves a semaphore's name unbound at once. The semaphore lives until its last description is
    /// closed (POSIX.1-2017, `sem_unlink`).
    SemUnlink(Name),
    /// Serves the wait that has been parked longest; where none is parked, the value rises by 1
    /// (POSIX.1-2017, `sem_post`).
    SemPost(Desc),
    /// Lowers the value by 1; at 0 it waits for a post (POSIX.1-2017, `sem_wait`).
    SemWait(Desc),
    /// Lowers the value by 1; at 0 it is refused (POSIX.1-2017, `sem_trywait`).
    SemTryWait(Desc),
    /// Asks for the value, which is 0 while calls wait (POSIX.1-2017, `sem_getvalue`).
    SemGetvalue(Desc),
    /// Lists names of a family in the order in which they were created: from the position `start`
    /// on, counted from 0, at most `count` and at most 1,000.
    ListNames {
        family: Family,
        start: u32,
        count: u16,
    },
    /// Asks for the owner, group and mode of what is meant.
    StatName(Target),
    /// Gives what is meant this mode: octal 0777 of it to an object, 01777 to a directory
    /// (POSIX.1-2017, `chmod`).
    Chmod {
        mode: Mode,
        target: Target,
    },
    /// Gives what is meant this owner and this group; `None` keeps the one that it has
    /// (POSIX.1-2017, `chown`).
    Chown {
        owner: Option<Uid>,
        group: Option<Gid>,
        target: Target,
    },
    /// Sets how many bytes the user's queues may take in all (`getrlimit(2)`, `RLIMIT_MSGQUEUE`;
    /// `mq_overview(7)`). For user 0 alone.
    SetLimit {
        uid: Uid,
        bytes: u64,
    },
    /// Asks what was recorded before this call: from the place `start` on, counted from 0, at most `count`
    /// lines and at most 1,000. For user 0 alone.
    Audit {
        start: u64,
        count: u16,
    },
    /// Ends the session's call that is parked: that call is answered that it was interrupted, and has no
    /// other effect (POSIX.1-2017, `EINTR`).
    Interrupt,
    /// A send that waits no longer than to this moment, in milliseconds (POSIX.1-2017, `mq_timedsend`).
    MqTimedSend {
        desc: Desc,
        priority: u32,
        deadline: u64,
        bytes: Bytes,
    },
    /// A receive that waits no longer than to this moment (POSIX.1-2017, `mq_timedreceive`).
    MqTimedReceive {
        desc: Desc,
        length: u32,
        deadline: u64,
    },
    /// A wait for a semaphore, no longer than to this moment (POSIX.1-2017, `sem_timedwait`).
    SemTimedWait {
        desc: Desc,
        deadline: u64,
    },
}

impl Call {
    /// Which call it is.
    pub fn op(&self) -> CallOp
        ensures { result ≡ call_op self.now }
    {
        match self {
            Call::Umask(..) => CallOp::Umask,
            Call::MqOpen(..) => CallOp::MqOpen,
            Call::MqClose(..) => CallOp::MqClose,
            Call::MqUnlink(..) => CallOp::MqUnlink,
            Call::MqSend { .. } => CallOp::MqSend,
            Call::MqReceive { .. } => CallOp::MqReceive,
            Call::MqGetattr(..) => CallOp::MqGetattr,
            Call::MqSetattr { .. } => CallOp::MqSetattr,
            Call::MqNotify { .. } => CallOp::MqNotify,
            Call::MqGive { .. } => CallOp::MqGive,
            Call::SemOpen(..) => CallOp::SemOpen,
            Call::SemClose(..) => CallOp::SemClose,
            Call::SemUnlink(..) => CallOp::SemUnlink,
            Call::SemPost(..) => CallOp::SemPost,
            Call::SemWait(..) => CallOp::SemWait,
            Call::SemTryWait(..) => CallOp::SemTryWait,
            Call::SemGetvalue(..) => CallOp::SemGetvalue,
            Call::ListNames { .. } => CallOp::ListNames,
            Call::StatName(..) => CallOp::StatName,
            Call::Chmod { .. } => CallOp::Chmod,
            Call::Chown { .. } => CallOp::Chown,
            Call::SetLimit { .. } => CallOp::SetLimit,
            Call::Interrupt => CallOp::Interrupt,
            Call::Audit { .. } => CallOp::Audit,
            Call::MqTimedSend { .. } => CallOp::MqTimedSend,
            Call::MqTimedReceive { .. } => CallOp::MqTimedReceive,
            Call::SemTimedWait { .. } => CallOp::SemTimedWait,
        }
    }

    /// The name that the call names, if it names one.
    pub(crate) fn name(&self) -> Option<&Name>
        ensures { option_copied result ≡ name_of self.now }
    {
        match self {
            Call::MqOpen(asked) => Some(&asked.name),
            Call::SemOpen(asked) => Some(&asked.name),
            Call::MqUnlink(name) | Call::SemUnlink(name) => Some(name),
            Call::StatName(Target::Name(_, name))
            | Call::Chmod {
                target: Target::Name(_, name),
                ..
            }
            | Call::Chown {
                target: Target::Name(_, name),
                ..
            } => Some(name),
            _ => None,
        }
    }
}

/// What is answered.
#[derive(Clone, PartialEq, Drop)]
pub enum Answer {
    /// To a hello: the new session.
    Started(Sid),
    /// Nothing but that it was done.
    Done,
    /// To an open: the new description.
    Opened(Desc),
    /// To a umask: the mask before it.
    Mask(Mode),
    /// To a send: the message entered its queue.
    Sent,
    /// To a receive: the message.
    Received {
        priority: u32,
        bytes: Bytes,
    },
    /// To a question about a queue: whether the calls by the description are refused where they
    /// would wait, the attributes, and how many messages the queue has (`mq_attr`).
    Attrs {
        nonblock: bool,
        attributes: Attributes,
        messages: u32,
    },
    /// To a question about a semaphore: its value.
    Value(u32),
    /// To a listing: its names.
    Names(Names),
    /// To a stat: the owner, group and mode.
    Stat(Facts),
    /// To a question about what was recorded: its lines.
    Records(Lines),
    /// To no call: a message came to the empty queue for which a notice was asked by this description
    /// (POSIX.1-2017, `mq_notify`).
    Notice(Desc),
    /// To no call: another session passed this description on to the session.
    Taken(Desc),
    /// To anything: the rule of the lowest number that forbids it.
    Refused(Rule),
    /// To a call that was parked: an interrupt ended it (POSIX.1-2017, `EINTR`).
    Interrupted,
}

impl Answer {
    /// Which answer it is.
    pub fn op(&self) -> AnswerOp
        ensures { result ≡ answer_op self.now }
    {
        match self {
            Answer::Started(..) => AnswerOp::Started,
            Answer::Done => AnswerOp::Done,
            Answer::Opened(..) => AnswerOp::Opened,
            Answer::Mask(..) => AnswerOp::Mask,
            Answer::Attrs { .. } => AnswerOp::Attrs,
            Answer::Sent => AnswerOp::Sent,
            Answer::Received { .. } => AnswerOp::Received,
            Answer::Value(..) => AnswerOp::Value,
            Answer::Names(..) => AnswerOp::Names,
            Answer::Stat(..) => AnswerOp::Stat,
            Answer::Records(..) => AnswerOp::Records,
            Answer::Refused(..) => AnswerOp::Refused,
            Answer::Interrupted => AnswerOp::Interrupted,
            Answer::Notice(..) => AnswerOp::Notice,
            Answer::Taken(..) => AnswerOp::Taken,
        }
    }
}
