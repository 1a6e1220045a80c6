//! How names are hashed.

use ipc_access::Users;
use std::hash::{BuildHasher, DefaultHasher, Hasher};

/// SipHash-1-3 behind a seed. Who doesn't know the seed can't choose names that meet in a table.
#[derive(Clone, Copy)]
pub struct NameHashing {
    seeded: DefaultHasher,
}

impl NameHashing {
    /// Behind this seed.
    pub fn new(seed: u64) -> Self {
        let mut seeded = DefaultHasher::new();
        seeded.write_u64(seed);
        NameHashing { seeded }
    }

    /// Behind a hash of all users' keys: no user knows those of the others.
    pub fn of(users: &Users) -> Self {
        let mut keys = DefaultHasher::new();
        for user in users.as_slice() {
            keys.write(user.key.as_slice());
        }
        NameHashing::new(keys.finish())
    }
}

impl BuildHasher for NameHashing {
    type Hasher = DefaultHasher;

    ghost build_hasher = { λ hashing. hashing.seeded };

    fn build_hasher(&self) -> DefaultHasher {
        self.seeded
    }
}
