//! How many bytes each user's queues take, and how many they may.

ghost use Rattle.std.specs.Prelude.{◌≡◌, ◌+◌, ◌≤◌, ◌^◌, nat_lt, if◌then◌else◌, Some, None, map, IsSome, IfOk};
ghost use Rattle.std.specs.Option.{option_copied};
ghost use Rattle.ipc_terms.specs.Objects.{queue_bytes};
ghost use Rattle.ipc_descr.specs.Charges.{charge_of, used_of, limit_of, uncharged, raised, with_limit, with_added, with_less};
ghost use Rattle.ipc_descr.specs.UserPlaces.{AreOfCharges};

use ipc_access::{User, UserIds, Users};
use ipc_terms::{MQ_PRIO_MAX, NoMemory, Uid};
use std::alloc::Global;
use std::marker::Model;

/// The bytes that a message has beside its own, and those that a priority has (`getrlimit(2)`,
/// `RLIMIT_MSGQUEUE`: `struct msg_msg` and `struct posix_msg_tree_node`, on a machine of 64 bits).
const BYTES_BESIDE: u64 = 48;

/// How many bytes the queues of one user take, and how many they may (`getrlimit(2)`,
/// `RLIMIT_MSGQUEUE`). A limit that was lowered may be below what is used.
#[derive(Clone, Copy, PartialEq, Eq)]
pub struct Charge {
    pub uid: Uid,
    pub limit: u64,
    pub used: u64,
}

/// The charge of each user, in the order of the user file; seen as their list. Their user IDs are
/// kept beside them, so that no look-up scans. An ID that is no user's has nothing
/// used and the limit 0, which no call changes. Only `new` takes memory.
#[derive(Drop)]
pub struct Charges {
    rows: Vec<Charge>,
    ids: UserIds,
}

impl Model for Charges {
    ghost use Rattle.std.specs.Prelude.{List};
    ghost use Rattle.ipc_descr.specs.declared.charges.Charge.{Charge};
    ghost use Rattle.ipc_descr.specs.UserPlaces.{AreOfCharges};

    ghost Value = { List Charge };

    ghost view = { λ a. a.rows.items };

    ghost invariant = { λ a. AreOfCharges a.ids a.rows.items };
}

impl Charges {
    /// One charge a user: the limit of the user file, and nothing used. An `Err` is want of memory.
    pub fn new(alloc: Global, users: &Users) -> Result<Charges, NoMemory>
        ensures { IfOk result (λ charges. charges ≡ map uncharged users.now) }
    {
        let rows = uncharged_all(alloc, users.as_slice())?;
        let ids = users.ids().clone()?;
        Ok(Charges { rows, ids })
    }

    /// How many bytes the user's queues take.
    pub fn used(&self, uid: Uid) -> u64
        ensures { result ≡ used_of self.now uid.0 }
    {
        find_charge(&self.rows, &self.ids, uid).map_or(0, |charge| charge.used)
    }

    /// How many bytes the user's queues may take (`getrlimit(2)`, `RLIMIT_MSGQUEUE`).
    pub fn limit(&self, uid: Uid) -> u64
        ensures { result ≡ limit_of self.now uid.0 }
    {
        find_charge(&self.rows, &self.ids, uid).map_or(0, |charge| charge.limit)
    }

    /// Sets how many bytes the user's queues may take; what they take stays, though it be more.
    pub fn set_limit(&mut self, uid: Uid, bytes: u64)
        ensures { self.new ≡ with_limit self.old uid.0 bytes }
    {
        if let Some(place) = self.ids.place(uid) {
            let charge = &mut self.rows[place];
            charge.limit = bytes;
        }
    }

    /// Charges the user with bytes more. With them it is within its limit.
    pub fn add(&mut self, uid: Uid, bytes: u64)
        requires { used_of self.old uid.0 + bytes ≤ limit_of self.old uid.0 }
        ensures { self.new ≡ with_added self.old uid.0 bytes }
    {
        if let Some(place) = self.ids.place(uid) {
            let charge = self.rows[place];
            self.rows[place] = raised(charge, bytes);
        }
    }

    /// Gives the user bytes back, at most those that its queues take.
    pub fn give_back(&mut self, uid: Uid, bytes: u64)
        requires { bytes ≤ used_of self.old uid.0 }
        ensures { self.new ≡ with_less self.old uid.0 bytes }
    {
        if let Some(place) = self.ids.place(uid) {
            let charge = self.rows[place];
            self.rows[place] = Charge {
                used: charge.used - bytes,
                ..charge
            };
        }
    }
}

/// How many bytes a queue of `maxmsg` messages of `msgsize` bytes takes, full or empty
/// (`getrlimit(2)`, `RLIMIT_MSGQUEUE`): 48 beside each message, 48 beside each priority that may be
/// there, and the messages. `maxmsg` is at most 65,536, and `msgsize` at most 16,777,216.
pub fn bytes_of(maxmsg: u32, msgsize: u32) -> u64
    requires messages { maxmsg ≤ 65536 }
    requires size { msgsize ≤ 16777216 }
    ensures { result ≡ queue_bytes maxmsg msgsize }
{
    match checked_bytes_of(maxmsg, msgsize) {
        Some(bytes) => bytes,
        None => unreachable!(),
    }
}

/// The same for any attributes; `None` where it is more than a `u64` holds.
pub fn checked_bytes_of(maxmsg: u32, msgsize: u32) -> Option<u64>
    ensures { result ≡ (if nat_lt (queue_bytes maxmsg msgsize) (2 ^ 64) then Some (queue_bytes maxmsg msgsize) else None) }
{
    let messages = u64::from(maxmsg);
    let priorities = u64::from(maxmsg.min(MQ_PRIO_MAX));
    let beside = messages * BYTES_BESIDE + priorities * BYTES_BESIDE;
    beside.checked_add(messages * u64::from(msgsize))
}

/// The charge of each user, before any has queues.
fn uncharged_all(alloc: Global, users: &[User]) -> Result<Vec<Charge>, NoMemory>
    ensures { IfOk result (λ charges. charges.items ≡ map uncharged users.now) }
{
    let charges = users.iter().map(uncharged).collect(alloc)?;
    Ok(charges)
}

/// The charge of a user who has no queues.
fn uncharged(user: &User) -> Charge
    ensures { result ≡ uncharged user.now }
{
    Charge {
        uid: user.cred.uid,
        limit: user.cred.limit,
        used: 0,
    }
}

/// The charge with so many bytes more, which fit as the limit does.
fn raised(charge: Charge, bytes: u64) -> Charge
    requires { charge.used + bytes ≤ charge.limit }
    ensures { result ≡ raised bytes charge }
{
    Charge {
        used: charge.used + bytes,
        ..charge
    }
}

fn find_charge<'a>(rows: &'a [Charge], ids: &UserIds, uid: Uid) -> Option<&'a Charge>
    requires { AreOfCharges ids.now rows.now }
    ensures { option_copied result ≡ charge_of rows.now uid.0 }
{
    let place = ids.place(uid)?;
    Some(&rows[place])
}
