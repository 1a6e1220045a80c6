//! Laws of messages over a whole legal history: where each that is received comes from, and what became of each that was
//! sent. These functions do nothing: what they ensure is what is proved.

ghost use Rattle.ipc_policy.specs.Follows.Confined.{EachAnswerIsDelivered, EachDeliveryIsConfined, EachSendIsDeliveredOnce, EachLeadIsWhole};
ghost use Rattle.ipc_policy.specs.Follows.Fates.{EachSendHasOneFate};

/// Each message that an answer brings to a session is that of one accepted send, to the object of one accepted receive of
/// the session. From the receive on the session held its description for reading, and the sender held its own for writing
/// when it sent; at the open of each the object granted what was asked for, or the open created it. The open may be another
/// session's: then accepted gives led from that session to the one that receives or sends, all before it does, and no other
/// was accepted in between. Each of these sessions held the description from the open or the give to it until its own give
/// of it, or the send or receive. No two answers bring the message of one send.
pub fn confined()
    ensures answers { EachAnswerIsDelivered }
    ensures deliveries { EachDeliveryIsConfined }
    ensures gives { EachLeadIsWhole }
    ensures sends { EachSendIsDeliveredOnce }
{}

/// Each accepted send is exactly one of these: parked; withdrawn; in a queue that is alive; taken by one receive and no
/// other; or left in a queue that is no longer alive.
pub fn once()
    ensures { EachSendHasOneFate }
{}
