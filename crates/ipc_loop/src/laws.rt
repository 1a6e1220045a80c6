//! Laws of servers. The functions do nothing when they run: what they ensure is what is proved.

ghost use Rattle.ipc_loop.specs.Rounds.{EachLinkIsServed, EachOtherIsRefused};

/// Whatever rounds a server makes from its start on, what a link gave was fed from its beginning on, each byte once and in order,
/// and stepped as the hello and the calls of its session; and what it took is a beginning of the frames of all that its session
/// was answered while it was live. Where no session was started, it took a beginning of the one refusal (`stranger_is_refused`).
pub fn link_is_served()
    ensures { EachLinkIsServed }
{}

/// Whatever rounds a server makes from its start on, a link whose connection has no session took nothing, or a beginning of the
/// frame of the refusal of its hello.
pub fn stranger_is_refused()
    ensures { EachOtherIsRefused }
{}
