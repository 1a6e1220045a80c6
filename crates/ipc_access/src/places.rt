//! Where users stand in their list, by what tells one from another, so that none is looked for by a walk.

ghost use Rattle.std.specs.Prelude.{◌≡◌, [], ◌∷◌, ◌++◌, false, position, OnOk};
ghost use Rattle.std.specs.Bool.{nat_eq};
ghost use Rattle.std.specs.List.{list_any};
ghost use Rattle.std.specs.Str.{bytes_eq};

use indexmap::IndexSet;
use ipc_terms::Uid;
use std::alloc::{AllocError, Global};
use std::marker::Model;

/// The IDs of users, in the order of their list.
#[derive(Drop)]
pub struct UserIds {
    ids: IndexSet<u32>,
}

impl Model for UserIds {
    ghost use Rattle.std.specs.Prelude.{ℕ, List};

    ghost Value = { List ℕ };

    ghost view = { λ u. u.ids.keys };
}

impl UserIds {
    /// No IDs. Takes no memory.
    pub(crate) fn new(alloc: Global) -> Self
        ensures { result ≡ [] }
    {
        UserIds {
            ids: IndexSet::new(alloc),
        }
    }

    /// Where the user with this ID stands.
    pub fn place(&self, uid: Uid) -> Option<usize>
        ensures { result ≡ position (nat_eq uid.0) self.now }
    {
        self.ids.get_index_of(&uid.0)
    }

    pub(crate) fn has(&self, uid: Uid) -> bool
        ensures { result ≡ list_any (nat_eq uid.0) self.now }
    {
        self.ids.contains(&uid.0)
    }

    /// Adds an ID that isn't among them, at the end.
    pub(crate) fn push(&mut self, uid: Uid) -> Result<(), AllocError>
        requires { list_any (nat_eq uid.0) self.old ≡ false }
        ensures { OnOk result (self.new ≡ self.old ++ uid.0 ∷ []) }
    {
        self.ids.insert(uid.0)?;
        Ok(())
    }
}

impl Clone for UserIds {
    ghost is_clone = { λ ids copy. copy ≡ ids };

    fn clone(&self) -> Result<UserIds, AllocError> {
        Ok(UserIds {
            ids: self.ids.clone()?,
        })
    }
}

/// The names of users, or their keys, in the order of their list.
#[derive(Drop)]
pub(crate) struct Texts {
    texts: IndexSet<Vec<u8>>,
}

impl Model for Texts {
    ghost use Rattle.std.specs.Prelude.{ℕ, List, map};

    ghost Value = { List (List ℕ) };

    ghost view = { λ t. map (λ text. text.items) t.texts.keys };
}

impl Texts {
    /// No texts. Takes no memory.
    pub(crate) fn new(alloc: Global) -> Self
        ensures { result ≡ [] }
    {
        Texts {
            texts: IndexSet::new(alloc),
        }
    }

    /// Where the text stands.
    pub(crate) fn place(&self, text: &[u8]) -> Option<usize>
        ensures { result ≡ position (bytes_eq text.now) self.now }
    {
        self.texts.get_index_of(text)
    }

    pub(crate) fn has(&self, text: &[u8]) -> bool
        ensures { result ≡ list_any (bytes_eq text.now) self.now }
    {
        self.texts.contains(text)
    }

    /// Adds a text that isn't among them, at the end.
    pub(crate) fn push(&mut self, alloc: Global, text: &[u8]) -> Result<(), AllocError>
        requires { list_any (bytes_eq text.now) self.old ≡ false }
        ensures { OnOk result (self.new ≡ self.old ++ text.now ∷ []) }
    {
        self.texts.insert(Vec::from_slice(alloc, text)?)?;
        Ok(())
    }
}
