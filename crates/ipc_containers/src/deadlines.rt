//! The timed calls of a server.

ghost use Rattle.std.specs.Prelude.{◌≡◌, [], ◌∷◌, ◌++◌, find, IfSome, IfNone, OnOk, OnErr};
ghost use Rattle.std.specs.Option.{option_map};
ghost use Rattle.ipc_containers.specs.Calls.{is_over, without, AllBelow, IsLeast};

use crate::timed::Timed;
use crate::tree::Tree;
use ipc_terms::{NoMemory, Sid};
use std::alloc::Global;
use std::marker::Model;

/// The parked calls that wait no longer than to their deadlines, in the order of their places. Each call takes as long as
/// to go down a search tree.
#[derive(Drop)]
pub struct Deadlines {
    tree: Option<Tree>,
}

impl Model for Deadlines {
    ghost use Rattle.std.specs.Prelude.{List, unwrap_or, []};
    ghost use Rattle.ipc_containers.specs.declared.timed.Timed.{Timed};

    ghost Value = { List Timed };

    ghost view = { λ a. unwrap_or a.tree [] };
}

impl Deadlines {
    /// No calls. Takes no memory.
    pub fn new() -> Deadlines
        ensures { result ≡ [] }
    {
        Deadlines { tree: None }
    }

    /// A call comes whose place is behind all others. An `Err` changes nothing.
    pub fn push(&mut self, alloc: Global, call: Timed) -> Result<(), NoMemory>
        requires { AllBelow call.place self.old }
        ensures ok { OnOk result (self.new ≡ self.old ++ call ∷ []) }
        ensures err { OnErr result (self.new ≡ self.old) }
    {
        match &mut self.tree {
            Some(tree) => tree.push(alloc, call)?,
            None => self.tree = Some(Tree::of(call)),
        }
        Ok(())
    }

    /// The call of the place goes, if there is one. Takes no memory.
    pub fn remove(&mut self, place: u64)
        ensures { self.new ≡ without place self.old }
    {
        let Some(tree) = &mut self.tree else {
            return;
        };
        if tree.remove(place) {
            self.tree = None;
        }
    }

    /// The session of the earliest call whose deadline is at most the moment, if there is one. Takes no memory.
    pub fn due(&self, moment: u64) -> Option<Sid>
        ensures { result ≡ option_map (λ t. t.session) (find (is_over moment) self.now) }
    {
        match &self.tree {
            Some(tree) => tree.due(moment),
            None => None,
        }
    }

    /// The least deadline, if there is a call. Takes no memory.
    pub fn least(&self) -> Option<u64>
        ensures some { IfSome result (λ least. IsLeast least self.now) }
        ensures none { IfNone result (self.now ≡ []) }
    {
        Some(self.tree.as_ref()?.least())
    }
}
