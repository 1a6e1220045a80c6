//! Laws of the policy, over every history; `known`, `bound`, `parked_listed`, `parked_alive`, `bounded`, `in_range`, `counted`,
//! `within_limit` and `sized` are over the legal ones, and so is what `answered` says of calls, and `ticks` of which call a tick
//! ends and that its session is live. These functions do nothing: what they ensure is what is proved.

ghost use Rattle.ipc_policy.specs.Follows.Laws.{VerdictIsLeast, RefusedIsQuiet, RefusedIsAnswered, EachCallerIsKnown, ListedIsBound, BoundIsToObject, NamedIsBound, NamesDiffer, BoundIsMade, ParkedIsListed, ParkedIsAlive, EachIsBounded, EachIsInRange, WaitsAtZero, EachValueIsCounted, WithinLimit};
ghost use Rattle.ipc_policy.specs.Follows.Ticks.{EarliestIsDue, TickEndsOne, DueIsLive, EachCountsAsPlain, EachWouldPark};
ghost use Rattle.ipc_policy.specs.Follows.Grow.{AcceptedGrows};
ghost use Rattle.ipc_policy.specs.Follows.Rights.{HeldOutlives, HeldIsHandedOver, EachHasOneHolder, ParkedGivesNothing, RegisteredIsHeld, RightsByDescription};
ghost use Rattle.ipc_policy.specs.Follows.Answered.{EachCallIsAnswered, ParkingAnswersNobody, HelloAnswersItsSession, HangupAnswersNobody, RefusalAnswersItsCaller, EachTickIsAnswered};
ghost use Rattle.ipc_policy.specs.Follows.Sizes.{EachNameIsShort, EachMessageFits, EachDeliveryFits, EachSizeIsInRange, EachAnswerIsSmall, EachOutboxIsSmall};
ghost use Rattle.ipc_policy.specs.Follows.Readings.{EachParkedByPlace, EachInsideByPlace, EachInsideInOrder, EachNextIsGreatest};

/// The verdict is the least of the rules that forbid, or none where no rule does.
pub fn least()
    ensures { VerdictIsLeast }
{}

/// A refused event changes no value and no verdict to come, and adds its refusal alone to the answers of the
/// session that it names.
pub fn quiet()
    ensures values { RefusedIsQuiet }
    ensures answers { RefusedIsAnswered }
{}

/// An accepted event changes each value as stated, by the values before it alone.
pub fn grow()
    ensures { AcceptedGrows }
{}

/// In a legal history the caller of each accepted call has credentials. So no call is accepted for want of a user, though a
/// rule that denies something to a user holds only where there is one.
pub fn known()
    ensures { EachCallerIsKnown }
{}

/// The names that are listed are those that are bound, each to its object, and all different. A name is bound exactly
/// where it is bound to an object, and an object has a name exactly where the name is bound to it.
pub fn listed()
    ensures objects { ListedIsBound }
    ensures bound { BoundIsToObject }
    ensures named { NamedIsBound }
    ensures differ { NamesDiffer }
{}

/// In a legal history what a name is bound to is an object, and it has an owner, a group and a mode.
pub fn bound()
    ensures { BoundIsMade }
{}

/// In a legal history a tick ends the earliest parked call of the whole server whose deadline is then past, where there is
/// one, and its session is live. In every history it ends the parked call of that session, and no other.
pub fn ticks()
    ensures earliest { EarliestIsDue }
    ensures one { TickEndsOne }
    ensures live { DueIsLive }
{}

/// The verdict on an event is the one on it without the deadline of its call. Where that is none, rule 32 alone may refuse it:
/// where the deadline is past and the call would park. Where the two verdicts are the same, so are the answers. The calls that
/// rule 32 takes to park are those that park.
pub fn timed()
    ensures plain { EachCountsAsPlain }
    ensures parks { EachWouldPark }
{}

/// A call is parked exactly if it parked and no later record ended it, and the longest parked is listed first.
pub fn parked_by_place()
    ensures { EachParkedByPlace }
{}

/// The contents of a queue are the sends that entered it and that no record took.
pub fn inside_by_place()
    ensures { EachInsideByPlace }
{}

/// The contents stand in the order of entry, and what a receive takes is the earliest of the greatest priority.
pub fn in_order()
    ensures order { EachInsideInOrder }
    ensures greatest { EachNextIsGreatest }
{}

/// In a legal history a session is parked on an object exactly if the object lists its call.
pub fn parked_listed()
    ensures { ParkedIsListed }
{}

/// In a legal history the session of a parked call is live, and holds a description of the queue.
pub fn parked_alive()
    ensures { ParkedIsAlive }
{}

/// In a legal history a queue has at most as many messages as its attributes allow, a receive is parked on it only
/// while it is empty, and a send only while it is full. So it is where a queue may have a message at all: `msg_max` is
/// 1 or more, as in each configuration that is in range.
pub fn bounded()
    ensures { EachIsBounded }
{}

/// In a legal history a semaphore's value is at most 2,147,483,647, and a session is parked on it only while the value
/// is 0.
pub fn in_range()
    ensures range { EachIsInRange }
    ensures waits { WaitsAtZero }
{}

/// In a legal history a semaphore's value, which counts posts and waits, is what its acts make of it one by one: a
/// post serves a parked wait or raises it, a wait and a trywait lower it.
pub fn counted()
    ensures { EachValueIsCounted }
{}

/// In a legal history the queues that a user created take no more bytes in all than the user's limit, as long as no
/// limit was set for the user: an open that creates a queue is refused above it, a queue's bytes come back with its
/// end, and nothing else adds any (`getrlimit(2)`, `RLIMIT_MSGQUEUE`). A limit may be set below what is taken.
pub fn within_limit()
    ensures { WithinLimit }
{}

/// What a session holds by a description stays what it is until the session closes it, gives it to another or hangs up; then
/// the taker holds the same. The verdict on a call by it depends on nothing but the session, what it holds, and that object,
/// and for a give on its taker: on no user, owner, group, mode, name or directory. Permission is asked at the open
/// (POSIX.1-2017, `mq_open`, `sem_open`).
pub fn rights()
    ensures outlive { HeldOutlives }
    ensures handed_over { HeldIsHandedOver }
    ensures by_description { RightsByDescription }
{}

/// A description has one holder, and a session that is parked gives none away. Who is registered for the notice of a queue
/// holds the description by which it is registered, of that queue: so no notice goes to a session that let it go.
pub fn holders()
    ensures one { EachHasOneHolder }
    ensures parked { ParkedGivesNothing }
    ensures registered { RegisteredIsHeld }
{}

/// After a legal history an accepted call that does not park is answered to its session, before anybody else, and neither
/// with a notice nor with a description that another session gave. One that parks answers nobody, and so does an accepted
/// hang-up. An accepted hello answers the session that it starts, alone, and a refusal the session that the event names,
/// alone. A tick is always accepted, and answers the session
/// whose call it ends, alone.
pub fn answered()
    ensures calls { EachCallIsAnswered }
    ensures parking { ParkingAnswersNobody }
    ensures hellos { HelloAnswersItsSession }
    ensures hangups { HangupAnswersNobody }
    ensures refusals { RefusalAnswersItsCaller }
    ensures ticks { EachTickIsAnswered }
{}

/// In a legal history a bound name has at most 256 bytes, a semaphore's 252; and a message in a queue, parked or handed to a
/// receive has at most the queue's message size. Where `msgsize_max` is in range, at most 16,777,216, so is each queue's
/// message size; and then what any event is answered, and all that a session was ever answered, is small: a message has at
/// most so many bytes, a page at most 1,000 entries, and a name in it at most 256 bytes.
pub fn sized()
    ensures names { EachNameIsShort }
    ensures messages { EachMessageFits }
    ensures deliveries { EachDeliveryFits }
    ensures sizes { EachSizeIsInRange }
    ensures answers { EachAnswerIsSmall }
    ensures outboxes { EachOutboxIsSmall }
{}
