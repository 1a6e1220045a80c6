//! A search tree of timed calls by place, each fork with the least deadline below it.

ghost use Rattle.std.specs.Prelude.{◌≡◌, ◌+◌, ◌≤◌, [], ◌∷◌, ◌++◌, true, false, find, length, OnOk, OnErr};
ghost use Rattle.std.specs.Option.{option_map};
ghost use Rattle.ipc_containers.specs.Calls.{is_over, without, AllBelow, IsLeast};
ghost use Rattle.ipc_containers.specs.Trees.{side};

use crate::timed::Timed;
use ipc_terms::{NoMemory, Sid};
use std::alloc::Global;
use std::boxed::Box;
use std::marker::Model;
use std::mem;

/// One call or more. Its forks part the places as their binary digits do, so it is 64 forks deep at most, and some 17 where
/// 100,000 calls lie close together.
#[cycle(tree)]
#[derive(Drop)]
pub(crate) struct Tree {
    node: Node,
}

#[cycle(tree)]
#[derive(Drop)]
enum Node {
    Leaf(Timed),
    /// The left side; the place that parts the sides; the least deadline; the right side.
    Fork(Box<Tree>, u64, u64, Box<Tree>),
}

impl Model for Tree {
    ghost use Rattle.std.specs.Prelude.{List, length};
    ghost use Rattle.ipc_containers.specs.declared.timed.Timed.{Timed};

    ghost Value = { List Timed };

    ghost use Rattle.ipc_containers.specs.Trees.{calls, IsTree};

    ghost view = { λ a. calls a.node };

    ghost invariant = { λ a. IsTree a.node };

    ghost size = { length };

    ghost use Rattle.ipc_containers.specs.Falls.{depth_le-length};

    ghost size_decreases = { λ a h. depth_le-length a.node h };
}

impl Tree {
    /// The call alone. Takes no memory.
    pub(crate) fn of(call: Timed) -> Tree
        ensures { result ≡ call ∷ [] }
    {
        Tree {
            node: Node::Leaf(call),
        }
    }

    /// The least deadline. There is a call.
    pub(crate) fn least(&self) -> u64
        ensures least { IsLeast result self.now }
        ensures some { 1 ≤ length self.now }
    {
        match &self.node {
            Node::Leaf(call) => call.deadline,
            Node::Fork(_, _, least, _) => *least,
        }
    }

    /// The session of the first call whose deadline is at most the moment, if there is one.
    pub(crate) fn due(&self, moment: u64) -> Option<Sid>
        ensures { result ≡ option_map (λ t. t.session) (find (is_over moment) self.now) }
    {
        match &self.node {
            Node::Leaf(call) => {
                if call.deadline <= moment {
                    Some(call.session)
                } else {
                    None
                }
            }
            Node::Fork(left, _, _, right) => {
                if left.least() <= moment {
                    left.due(moment)
                } else {
                    right.due(moment)
                }
            }
        }
    }

    /// The greatest place.
    fn last_place(&self) -> u64
        ensures { AllBelow (result + 1) self.now }
    {
        match &self.node {
            Node::Leaf(call) => call.place,
            Node::Fork(_, _, _, right) => right.last_place(),
        }
    }

    /// A place that parts all calls from one behind them.
    fn parting(&self, place: u64) -> u64
        requires { AllBelow place self.now }
        ensures behind { AllBelow result self.now }
        ensures before { result ≤ place }
    {
        let last = self.last_place();
        let middle = parted(last, place);
        if last < middle && middle <= place {
            middle
        } else {
            place
        }
    }

    /// The call comes behind all others. An `Err` changes nothing.
    pub(crate) fn push(&mut self, alloc: Global, call: Timed) -> Result<(), NoMemory>
        requires { AllBelow call.place self.old }
        ensures ok { OnOk result (self.new ≡ self.old ++ call ∷ []) }
        ensures err { OnErr result (self.new ≡ self.old) }
    {
        if let Node::Fork(_, middle, least, right) = &mut self.node {
            if is_below(*middle, call.place) {
                right.push(alloc, call)?;
                *least = (*least).min(call.deadline);
                return Ok(());
            }
        }
        self.fork(alloc, call)
    }

    /// The calls come to the left side of a fork, and the call to its right. An `Err` changes nothing.
    fn fork(&mut self, alloc: Global, call: Timed) -> Result<(), NoMemory>
        requires { AllBelow call.place self.old }
        ensures ok { OnOk result (self.new ≡ self.old ++ call ∷ []) }
        ensures err { OnErr result (self.new ≡ self.old) }
    {
        let mut left = Box::new(alloc, Tree::of(call))?;
        let right = Box::new(alloc, Tree::of(call))?;
        let middle = self.parting(call.place);
        let least = self.least().min(call.deadline);
        mem::swap(&mut *left, self);
        self.node = Node::Fork(left, middle, least, right);
        Ok(())
    }

    /// Takes out the call of the place, if there is one. True: it is the only call, and stays. Takes no memory.
    pub(crate) fn remove(&mut self, place: u64) -> bool
        ensures alone { result ≡ true → without place self.old ≡ [] }
        ensures stays { result ≡ true → self.new ≡ self.old }
        ensures rest { result ≡ false → self.new ≡ without place self.old }
    {
        let is_left = match &mut self.node {
            Node::Leaf(call) => return call.place == place,
            Node::Fork(left, middle, least, right) => {
                let is_left = place < *middle;
                let is_alone = if is_left {
                    left.remove(place)
                } else {
                    right.remove(place)
                };
                if !is_alone {
                    *least = left.least().min(right.least());
                    return false;
                }
                is_left
            }
        };
        let node = mem::replace(&mut self.node, Node::Leaf(NOBODY_S));
        if let Some(tree) = side_of(node, is_left) {
            *self = tree;
        }
        false
    }
}

/// The call of nobody.
const NOBODY_S: Timed = Timed {
    place: 0,
    session: Sid::NOBODY,
    deadline: 0,
};

/// The right side of a fork, or the left one.
fn side_of(node: Node, is_right: bool) -> Option<Tree>
    ensures { result ≡ side node is_right }
{
    match node {
        Node::Leaf(_) => None,
        Node::Fork(left, _, _, right) => Some(Box::into_inner(if is_right { right } else { left })),
    }
}

/// Whether a place behind all others lies below the right side of a fork, by the digit at which the fork parts the places: the
/// lowest that its middle has. Any answer keeps the tree right; this one keeps it low.
fn is_below(middle: u64, place: u64) -> bool {
    let digit = middle & (!middle).wrapping_add(1);
    (place ^ middle) < digit
}

/// The place behind the first that has no digit below the highest at which the two differ. Any answer keeps the tree right.
fn parted(last: u64, place: u64) -> u64 {
    let mut below = last ^ place;
    below |= below >> 1;
    below |= below >> 2;
    below |= below >> 4;
    below |= below >> 8;
    below |= below >> 16;
    below |= below >> 32;
    place & !(below >> 1)
}
