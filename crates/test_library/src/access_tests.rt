//! Classes, modes and sticky directories, and the user file.

use ipc_access::{
    Class, Cred, DirFacts, Groups, UserFault, Users, class_of, grants, may_chmod, may_chown,
    may_remove,
};
use ipc_terms::{Gid, Mode, NoMemory, Uid};
use std::alloc::Global;
use std::test::Fail;

fn cred(alloc: Global, uid: u32, gid: u32) -> Result<Cred, NoMemory> {
    let groups = Vec::from_slice(alloc, [Gid(50), Gid(51)].as_slice())?;
    Ok(Cred {
        uid: Uid(uid),
        gid: Gid(gid),
        groups: Groups::new(groups),
        limit: 819_200,
    })
}

/// Whether the user has this class and these rights; user 0 alone is root.
fn is_classed(alloc: Global, classed: &Classed) -> Result<bool, NoMemory> {
    let (user, owner, group, mode, class, wanted, granted) = *classed;
    let who = cred(alloc, user, user)?;
    Ok(
        who.is_root() == (user == 0)
            && class_of(&who, Uid(owner), Gid(group)) == class
            && grants(&who, Uid(owner), Gid(group), Mode(mode), wanted) == granted,
    )
}

type Classed = (u32, u32, u32, u16, Class, u8, bool);

/// A user of its own group and of 50 and 51; an object's owner, group and mode; the class, and whether
/// these bits are granted.
static CLASSES: [Classed; 9] = [
    (1000, 1000, 1000, 0o077, Class::Owner, 4, false),
    (1000, 1000, 51, 0o600, Class::Owner, 6, true),
    (1000, 1000, 7, 0o400, Class::Owner, 6, false),
    (1000, 7, 1000, 0o040, Class::Group, 4, true),
    (1000, 7, 51, 0o707, Class::Group, 4, false),
    (1000, 7, 51, 0o020, Class::Group, 2, true),
    (1000, 7, 52, 0o1771, Class::Other, 1, true),
    (1000, 7, 7, 0o1771, Class::Other, 2, false),
    // User 0 is granted everything.
    (0, 7, 7, 0, Class::Other, 7, true),
];

#[test]
fn one_class_decides(rt: HostRuntime) -> Result<(), Fail> {
    for (row, classed) in CLASSES.iter().enumerate() {
        if !is_classed(rt.alloc(), classed)? {
            return Err(Fail::new(format_args!("row {row} gives something else")));
        }
    }
    Ok(())
}

/// The mode of a directory of user 50, a user, and whether it may remove an object of user 1000.
static REMOVALS: [(u16, u32, bool); 7] = [
    (0o1777, 1000, true),
    (0o1777, 50, true),
    (0o1777, 0, true),
    (0o1777, 1001, false),
    (0o1000, 1001, false),
    (0o0777, 1001, true),
    (0o0000, 1001, true),
];

#[test]
fn sticky_directories_restrict_removal(rt: HostRuntime) -> Result<(), Fail> {
    for (mode, uid, removes) in &REMOVALS {
        let directory = DirFacts {
            owner: Uid(50),
            group: Gid(1001),
            mode: Mode(*mode),
        };
        let who = cred(rt.alloc(), *uid, 1001)?;
        if may_remove(&who, &directory, Uid(1000)) != *removes {
            return Err(Fail::new(format_args!("user {uid} in {mode:o}")));
        }
    }
    Ok(())
}

/// A user of its own group and of 50 and 51; the new owner and group of what is user 1000's, and whether the
/// user may give it to them.
static GIFTS: [(u32, Option<Uid>, Option<Gid>, bool); 9] = [
    (1000, None, None, true),
    (1000, Some(Uid(1000)), Some(Gid(51)), true),
    (1000, None, Some(Gid(1000)), true),
    (1000, None, Some(Gid(52)), false),
    (1000, Some(Uid(1001)), None, false),
    (1001, None, None, false),
    (1001, Some(Uid(1001)), Some(Gid(50)), false),
    (0, Some(Uid(1001)), Some(Gid(52)), true),
    (0, None, None, true),
];

#[test]
fn an_owner_gives_to_its_own_groups_alone(rt: HostRuntime) -> Result<(), Fail> {
    for (user, uid, gid, gives) in &GIFTS {
        let who = cred(rt.alloc(), *user, *user)?;
        let changes = may_chmod(&who, Uid(1000));
        if may_chown(&who, Uid(1000), *uid, *gid) != *gives || changes != (*user != 1001) {
            return Err(Fail::new(format_args!("user {user}")));
        }
    }
    Ok(())
}

/// Whether the user, of group 1001, has the list of 50 and 51, and is in these three and not in 52.
fn is_bob(bob: &Cred) -> bool {
    let is_member = bob.is_in(Gid(1001)) && bob.is_in(Gid(51)) && !bob.is_in(Gid(52));
    let has_groups = bob.groups.as_slice() == [Gid(50), Gid(51)].as_slice();
    is_member && has_groups && bob.gid == Gid(1001) && bob.limit == 819_200
}

#[test]
fn groups_are_a_list(rt: HostRuntime) -> Result<(), Fail> {
    let bob = cred(rt.alloc(), 1001, 1001)?;
    assert!(rt; is_bob(&bob));
    assert!(rt; bob.groups.into_vec().as_slice() == [Gid(50), Gid(51)].as_slice());
    Ok(())
}

const FOUR: &str =
    "root:r00t:0:0::\nann:ka1:1000:1000:50:\nbob:kb1:1001:1001:50,51:\ncy:kc1:1002:1002::\n";

/// Keys, and whose they are.
static KEYS: [(&[u8], Option<Uid>); 4] = [
    (b"kb1", Some(Uid(1001))),
    (b"ka1", Some(Uid(1000))),
    (b"zz", None),
    (b"kb", None),
];

/// Whether each key is its user's.
fn are_found(users: &Users) -> bool {
    let mut alike = true;
    for (key, user) in &KEYS {
        alike = alike && users.find(key) == *user;
    }
    alike
}

/// Whether there are four users, and the user 1001 among them is bob.
fn are_four(users: &Users) -> bool {
    let Some(bob) = users.cred(Uid(1001)) else {
        return false;
    };
    users.as_slice().len() == 4 && users.cred(Uid(5)).is_none() && is_bob(bob)
}

#[test]
fn users_are_read_and_found(rt: HostRuntime) -> Result<(), Fail> {
    let users = Users::read(rt.alloc(), FOUR.as_bytes())?;
    assert!(rt; are_four(&users) && are_found(&users));
    Ok(())
}

/// How many users the file of both parts has, or its first fault.
fn read(alloc: Global, front: &str, more: &str) -> Result<usize, UserFault> {
    let mut text = Vec::from_slice(alloc, front.as_bytes())?;
    text.extend_from_slice(more.as_bytes())?;
    Ok(Users::read(alloc, &text)?.as_slice().len())
}

/// Sixty-four groups.
const GROUPS: &str =
    "ann:k:1:1:1,1,1,1,1,1,1,1,1,1,1,1,1,1,1,1,1,1,1,1,1,1,1,1,1,1,1,1,1,1,1,1,1,1,1,1,1,1,1,1,1,1,1,1,1,1,1,1,1,1,1,1,1,1,1,1,1,1,1,1,1,1,1,1";

/// The parts of a file, and how many users it has or its first fault.
static FILES: [(&str, &str, Result<usize, UserFault>); 27] = [
    ("", "", Ok(0)),
    ("", "ann:ka1:0:4294967295:0,0:0", Ok(1)),
    ("", "a_-9:K9:1:1::1000000000000000\nb:k:2:2::\n", Ok(2)),
    ("", "ann:ka1:01:1::", Err(UserFault::BadLine(1))),
    (GROUPS, ":", Ok(1)),
    (GROUPS, ",1:", Err(UserFault::BadLine(1))),
    (FOUR, "eve:k5:5:5::", Ok(5)),
    (FOUR, "ann:k5:5:5::", Err(UserFault::DuplicateName(5))),
    (FOUR, "eve:ka1:5:5::", Err(UserFault::DuplicateKey(5))),
    (FOUR, "eve:k5:1000:5::", Err(UserFault::DuplicateUid(5))),
    (FOUR, "ann:ka1:1000:5::", Err(UserFault::DuplicateName(5))),
    (FOUR, "eve:k5:5:5::\nann:", Err(UserFault::BadLine(6))),
    (FOUR, "\neve:k5:5:5::", Err(UserFault::BadLine(5))),
    (FOUR, "eve:k5:05:5::", Err(UserFault::BadLine(5))),
    (FOUR, "eve:k5:4294967296:5::", Err(UserFault::BadLine(5))),
    (
        FOUR,
        "eve:k5:5:18446744073709551616::",
        Err(UserFault::BadLine(5)),
    ),
    (FOUR, "eve:k5:+5:5::", Err(UserFault::BadLine(5))),
    (FOUR, "eve:k5::5::", Err(UserFault::BadLine(5))),
    (FOUR, "eve:k5:5:5:50,:", Err(UserFault::BadLine(5))),
    (
        FOUR,
        "eve:k5:5:5::1000000000000001",
        Err(UserFault::BadLine(5)),
    ),
    (FOUR, "eve:k5:5:5::\r\n", Err(UserFault::BadLine(5))),
    (FOUR, "eve:k5:5:5:", Err(UserFault::BadLine(5))),
    (FOUR, "eve:k5:5:5:::", Err(UserFault::BadLine(5))),
    (FOUR, "Eve:k5:5:5::", Err(UserFault::BadLine(5))),
    (
        FOUR,
        "abcdefghijklmnopqrstuvwxyz_0123-9:k5:5:5::",
        Err(UserFault::BadLine(5)),
    ),
    (FOUR, "eve:k-5:5:5::", Err(UserFault::BadLine(5))),
    (FOUR, ":k5:5:5::", Err(UserFault::BadLine(5))),
];

#[test]
fn the_first_line_at_fault_decides(rt: HostRuntime) -> Result<(), Fail> {
    for (front, more, wanted) in &FILES {
        if read(rt.alloc(), front, more) != *wanted {
            return Err(Fail::new(format_args!("at {more}")));
        }
    }
    Ok(())
}
