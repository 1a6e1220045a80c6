//! What the lines of a user file have used up.

ghost use Rattle.std.specs.Prelude.{◌≡◌, [], ◌∷◌, ◌++◌, None, OnOk};
ghost use Rattle.ipc_access.specs.Places.{AreOf, fault_among};

use crate::fault::UserFault;
use crate::places::{Texts, UserIds};
use crate::users::User;
use std::alloc::{AllocError, Global};

/// The names, keys and IDs of the users that were read so far.
#[derive(Drop)]
pub(crate) struct Seen {
    pub(crate) names: Texts,
    pub(crate) keys: Texts,
    pub(crate) ids: UserIds,
}

impl Seen {
    /// Those of no users. Takes no memory.
    pub(crate) fn new(alloc: Global) -> Self
        ensures { AreOf result [] }
    {
        Seen {
            names: Texts::new(alloc),
            keys: Texts::new(alloc),
            ids: UserIds::new(alloc),
        }
    }

    /// What is wrong with the user of the line of this number, behind these.
    pub(crate) fn fault_of(&self, number: u64, user: &User) -> Option<UserFault>
        ensures { result ≡ fault_among self.now number user.now }
    {
        if self.names.has(user.name.as_slice()) {
            Some(UserFault::DuplicateName(number))
        } else if self.keys.has(user.key.as_slice()) {
            Some(UserFault::DuplicateKey(number))
        } else if self.ids.has(user.cred.uid) {
            Some(UserFault::DuplicateUid(number))
        } else {
            None
        }
    }

    /// One user more, of whom nothing was used before.
    pub(crate) fn add(&mut self, alloc: Global, user: &User) -> Result<(), AllocError>
        requires { fault_among self.old 0 user.now ≡ None }
        ensures names { OnOk result (self.new.names ≡ self.old.names ++ user.now.name ∷ []) }
        ensures keys { OnOk result (self.new.keys ≡ self.old.keys ++ user.now.key ∷ []) }
        ensures ids { OnOk result (self.new.ids ≡ self.old.ids ++ user.now.cred.uid.0 ∷ []) }
    {
        self.names.push(alloc, user.name.as_slice())?;
        self.keys.push(alloc, user.key.as_slice())?;
        self.ids.push(user.cred.uid)
    }
}
