//! Opcodes of requests: the byte with which a body begins.

ghost use Rattle.std.specs.Prelude.{◌≡◌};
ghost use Rattle.ipc_wire.specs.Requests.{request_op, request_opcode, is_hello};

use ipc_terms::{CallOp, HELLO_NUMBER};

/// Which request it is, apart from what it is given. Its opcode is the number of a hello or of the call.
#[derive(Clone, Copy)]
pub enum RequestOp {
    Hello,
    Call(CallOp),
}

impl RequestOp {
    /// The request with this opcode, if there is one.
    #[tactic(auto, unfolding(crate::specs::Requests::request_op))]
    pub fn from_byte(byte: u8) -> Option<RequestOp>
        ensures { result ≡ request_op byte }
    {
        if byte == HELLO_NUMBER {
            return Some(RequestOp::Hello);
        }
        match CallOp::of_number(byte) {
            Some(asked) => Some(RequestOp::Call(asked)),
            None => None,
        }
    }

    pub fn byte(self) -> u8
        ensures { result ≡ request_opcode self }
    {
        match self {
            RequestOp::Hello => HELLO_NUMBER,
            RequestOp::Call(asked) => asked.number(),
        }
    }

    pub fn is_hello(self) -> bool
        ensures { result ≡ is_hello self }
    {
        matches!(self, RequestOp::Hello)
    }
}
