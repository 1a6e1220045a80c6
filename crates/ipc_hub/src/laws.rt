//! Laws of hubs. The functions do nothing when they run: what they ensure is what is proved.

ghost use Rattle.ipc_hub.specs.Laws.{CutAnyWay, EachStreamIsStepped, EachOutputIsTheOutbox, EachStrangerIsRefused, NothingIsRaised, WhoIsGoneStaysGone};

/// What was stepped of a stream and what is kept of it go on, whatever comes, as if the stream had come in one
/// piece: so a connection steps the requests of its whole stream, however that was cut.
pub fn cut_any_way()
    ensures { CutAnyWay }
{}

/// Whatever calls a hub made, the requests of a connection's stream that were stepped are its hello and then the calls of
/// its session in the trail, these and no others, in order, but that an audit begins at the oldest record that was kept, or
/// later; and what is kept goes on with the next.
pub fn stream_is_stepped()
    ensures { EachStreamIsStepped }
{}

/// Where nothing was forgotten, the calls in the trail are those that were asked for.
pub fn nothing_is_raised()
    ensures { NothingIsRaised }
{}

/// Whatever calls a hub made, what a connection gave and what it has left are together the spellings of all that its
/// session was answered while it was live, however its stream was cut.
pub fn output_is_the_outbox()
    ensures { EachOutputIsTheOutbox }
{}

/// Whatever calls a hub made, a connection without a session gave nothing, or the frame of the refusal of its hello, once.
pub fn stranger_is_refused()
    ensures { EachStrangerIsRefused }
{}

/// Whatever calls a hub makes, a connection that is over, and has nothing that it could take, is answered nothing more.
pub fn gone_stays_gone()
    ensures { WhoIsGoneStaysGone }
{}
