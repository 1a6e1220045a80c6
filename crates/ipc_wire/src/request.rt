//! What a client sends.

ghost use Rattle.std.specs.Prelude.{◌≡◌};
ghost use Rattle.ipc_wire.specs.Requests.{op_of_request};

use crate::opcodes::RequestOp;
use ipc_terms::{Bytes, Call};

/// What a client sends: one hello, and then calls.
#[derive(Drop)]
pub enum Request {
    /// The key of the user who comes.
    Hello(Bytes),
    Do(Call),
}

impl Request {
    pub(crate) fn op(&self) -> RequestOp
        ensures { result ≡ op_of_request self.now }
    {
        match self {
            Request::Hello(..) => RequestOp::Hello,
            Request::Do(call) => RequestOp::Call(call.op()),
        }
    }
}
