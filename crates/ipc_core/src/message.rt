//! Messages.

use ipc_terms::Bytes;
use std::marker::Model;

/// What a receive gets.
#[derive(Drop)]
pub struct Message<'a> {
    pub priority: u32,
    pub bytes: &'a Bytes,
}

impl<'a> Model for Message<'a> {
    ghost use Rattle.ipc_terms.specs.History.{Message};

    ghost Value = { Message };

    ghost view = { λ a. record { priority = a.priority; bytes = a.bytes.now } };
}
