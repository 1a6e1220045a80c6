//! The users of the server.

ghost use Rattle.std.specs.Prelude.{◌≡◌};
ghost use Rattle.std.specs.Option.{option_copied};
ghost use Rattle.ipc_access.specs.Users.{user_of_key, cred_of};
ghost use Rattle.ipc_access.specs.Places.{ids_of, Follow};

use crate::class::Cred;
use crate::places::{Texts, UserIds};
use ipc_terms::{Bytes, Uid};
use std::marker::Model;

/// A user, with the key by which a session shows who it is.
#[derive(Drop)]
pub struct User {
    pub name: Bytes,
    pub key: Bytes,
    pub cred: Cred,
}

/// All users, in the order of the user file; seen as their list. None is looked for by a walk.
pub struct Users {
    rows: Vec<User>,
    keys: Texts,
    ids: UserIds,
}

// Called, so that it isn't written out and proved at each exit of a function.
impl Drop for Users {
    fn drop(self) {
        let Users {
            rows: _rows,
            keys: _keys,
            ids: _ids,
        } = self;
    }
}

impl Model for Users {
    ghost use Rattle.std.specs.Prelude.{List};
    ghost use Rattle.ipc_access.specs.declared.users.User.{User};
    ghost use Rattle.ipc_access.specs.Places.{Follow};

    ghost Value = { List User };

    ghost view = { λ a. a.rows.items };

    ghost invariant = { λ a. Follow a.keys a.ids a.rows.items };
}

impl Users {
    /// These users, with their keys and IDs. Only `read` makes them, so that no two share a name, a key or a user
    /// ID. Takes no memory.
    pub(crate) fn from_parts(rows: Vec<User>, keys: Texts, ids: UserIds) -> Self
        requires { Follow keys ids rows.items }
        ensures { result ≡ rows.items }
    {
        Users { rows, keys, ids }
    }

    pub fn as_slice(&self) -> &[User]
        ensures { result.now ≡ self.now }
    {
        self.rows.as_slice()
    }

    /// Their user IDs, in their order.
    pub fn ids(&self) -> &UserIds
        ensures { result.now ≡ ids_of self.now }
    {
        &self.ids
    }

    /// The user whose key this is.
    pub fn find(&self, key: &[u8]) -> Option<Uid>
        ensures { result ≡ user_of_key self.now key.now }
    {
        let place = self.keys.place(key)?;
        let user = self.rows.get(place)?;
        Some(user.cred.uid)
    }

    /// The credentials of the user of this ID.
    pub fn cred(&self, uid: Uid) -> Option<&Cred>
        ensures { option_copied result ≡ cred_of self.now uid }
    {
        let place = self.ids.place(uid)?;
        let user = self.rows.get(place)?;
        Some(&user.cred)
    }
}
