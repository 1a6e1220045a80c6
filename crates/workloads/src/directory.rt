//! Many users and many names: objects are opened, asked for, given away, closed and unlinked, and what modes and
//! owners forbid is refused. User 0 reads the audit.

use crate::chance::{Chance, name_of};
use crate::connections::Connections;
use crate::setting::{Digest, Size};
use anyhow::Result;
use ipc_hub::Conn;
use ipc_terms::{
    Access, Answer, Attributes, Call, Desc, Family, Gid, Mode, OpenFlags, QueueOpen, SemaphoreOpen,
    Target, Uid,
};
use ipc_wire::read_answer;
use std::alloc::Global;

/// Connections, three of each user.
const CONNECTIONS: u32 = 24;

const NAMES: u32 = 700;

const MODES: [Mode; 8] = [
    Mode(0o600),
    Mode(0o640),
    Mode(0o644),
    Mode(0o660),
    Mode(0o664),
    Mode(0o666),
    Mode(0o604),
    Mode(0),
];

/// Descriptions that sessions opened and did not close yet.
#[derive(Drop)]
struct Opened {
    rows: Vec<(Conn, Family, Desc)>,
}

impl Opened {
    /// Takes one out.
    fn take(&mut self, chance: &mut Chance) -> Option<(Conn, Family, Desc)> {
        let count = self.rows.len();
        let place = chance.below(65_536) as usize;
        if count > 0 {
            Some(self.rows.swap_remove(place % count))
        } else {
            None
        }
    }
}

/// The number of a name that is drawn: low ones more often than others.
fn number_drawn(chance: &mut Chance) -> u32 {
    let most = chance.below(NAMES);
    chance.below(most + 1)
}

fn family_drawn(chance: &mut Chance) -> Family {
    if chance.one_in(4) {
        Family::Sem
    } else {
        Family::Mq
    }
}

fn target_drawn(alloc: Global, chance: &mut Chance) -> Result<Target> {
    let family = family_drawn(chance);
    Ok(Target::Name(family, name_of(alloc, "n", number_drawn(chance))?))
}

fn mode_drawn(chance: &mut Chance) -> Mode {
    let place = chance.below(8) as usize;
    MODES.get(place).copied().unwrap_or(Mode(0o600))
}

fn umask_drawn(chance: &mut Chance) -> Mode {
    if chance.one_in(2) {
        Mode(0o022)
    } else {
        Mode(0)
    }
}

fn flags_drawn(chance: &mut Chance) -> OpenFlags {
    match chance.below(8) {
        0..5 => OpenFlags::CREATE,
        5 => OpenFlags::CREATE | OpenFlags::EXCLUSIVE,
        _ => OpenFlags::NONBLOCK,
    }
}

fn access_drawn(chance: &mut Chance) -> Access {
    match chance.below(3) {
        0 => Access::Read,
        1 => Access::Write,
        _ => Access::Both,
    }
}

fn queue_open(alloc: Global, chance: &mut Chance) -> Result<Call> {
    let attributes = if chance.one_in(3) {
        None
    } else {
        Some(Attributes {
            maxmsg: chance.below(20),
            msgsize: 1 + chance.below(8_192),
        })
    };
    Ok(Call::MqOpen(QueueOpen {
        name: name_of(alloc, "n", number_drawn(chance))?,
        access: access_drawn(chance),
        flags: flags_drawn(chance),
        mode: mode_drawn(chance),
        attributes,
    }))
}

fn semaphore_open(alloc: Global, chance: &mut Chance) -> Result<Call> {
    Ok(Call::SemOpen(SemaphoreOpen {
        name: name_of(alloc, "n", number_drawn(chance))?,
        flags: flags_drawn(chance),
        mode: mode_drawn(chance),
        value: chance.below(4),
    }))
}

fn unlink(alloc: Global, chance: &mut Chance) -> Result<Call> {
    let name = name_of(alloc, "n", number_drawn(chance))?;
    Ok(match family_drawn(chance) {
        Family::Mq => Call::MqUnlink(name),
        Family::Sem => Call::SemUnlink(name),
    })
}

fn chown(alloc: Global, chance: &mut Chance) -> Result<Call> {
    let owner = if chance.one_in(3) {
        Some(Uid(1_001 + chance.below(7)))
    } else {
        None
    };
    Ok(Call::Chown {
        owner,
        group: Some(Gid(100 * (1 + chance.below(3)))),
        target: target_drawn(alloc, chance)?,
    })
}

/// A call on names.
fn call_drawn(alloc: Global, chance: &mut Chance) -> Result<Call> {
    match chance.below(32) {
        0..10 => queue_open(alloc, chance),
        10..13 => semaphore_open(alloc, chance),
        13..21 => Ok(Call::StatName(target_drawn(alloc, chance)?)),
        21..25 => unlink(alloc, chance),
        25..28 => Ok(Call::Chmod {
            mode: mode_drawn(chance),
            target: target_drawn(alloc, chance)?,
        }),
        28..30 => chown(alloc, chance),
        30 => Ok(Call::Umask(umask_drawn(chance))),
        _ => rare_call(chance),
    }
}

/// A listing, a page of the audit, or a limit.
fn rare_call(chance: &mut Chance) -> Result<Call> {
    Ok(match chance.below(4) {
        0 => Call::ListNames {
            family: family_drawn(chance),
            start: chance.below(NAMES),
            count: 50,
        },
        1 => Call::Audit {
            start: u64::from(chance.below(20_000)),
            count: 20,
        },
        2 => Call::SetLimit {
            uid: Uid(1_001 + chance.below(8)),
            bytes: 1_000_000 + u64::from(chance.below(100_000_000)),
        },
        _ => Call::ListNames {
            family: family_drawn(chance),
            start: 0,
            count: 10,
        },
    })
}

/// Asks, and gives the description that was opened, if one was.
fn ask(
    connections: &mut Connections,
    conn: Conn,
    call: Call,
    digest: &mut Digest,
) -> Result<Option<Desc>> {
    connections.ask(conn, call)?;
    let bytes = connections.hub.take(connections.alloc, conn)?;
    digest.add(&bytes);
    match read_answer(connections.alloc, &bytes)? {
        Some((Answer::Opened(desc), _)) => Ok(Some(desc)),
        _ => Ok(None),
    }
}

/// One call by a connection that is drawn. Keeps what it opens.
fn call_on_names(
    connections: &mut Connections,
    chance: &mut Chance,
    opened: &mut Opened,
    digest: &mut Digest,
) -> Result<()> {
    let conn = Conn(u64::from(chance.below(CONNECTIONS)));
    let call = call_drawn(connections.alloc, chance)?;
    let family = match call {
        Call::SemOpen(_) => Family::Sem,
        _ => Family::Mq,
    };
    if let Some(desc) = ask(connections, conn, call, digest)? {
        opened.rows.push((conn, family, desc))?;
    }
    Ok(())
}

/// Closes a description that is drawn, or asks by it.
fn call_by_description(
    connections: &mut Connections,
    chance: &mut Chance,
    opened: &mut Opened,
    digest: &mut Digest,
) -> Result<()> {
    let Some((conn, family, desc)) = opened.take(chance) else {
        return Ok(());
    };
    let is_asked = opened.rows.len() < 600 && chance.one_in(2);
    let call = match (family, is_asked) {
        (Family::Mq, false) => Call::MqClose(desc),
        (Family::Sem, false) => Call::SemClose(desc),
        (Family::Mq, true) => Call::MqGetattr(desc),
        (Family::Sem, true) => Call::SemGetvalue(desc),
    };
    ask(connections, conn, call, digest)?;
    if is_asked {
        opened.rows.push((conn, family, desc))?;
    }
    Ok(())
}

/// One life of a server.
pub fn live(alloc: Global, chance: &mut Chance, size: Size, digest: &mut Digest) -> Result<()> {
    let mut connections = Connections::new(alloc, CONNECTIONS as usize)?;
    let mut opened = Opened {
        rows: Vec::new(alloc),
    };
    for _ in 0..size.choose(400, 60_000) {
        if chance.one_in(3) {
            call_by_description(&mut connections, chance, &mut opened, digest)?;
        } else {
            call_on_names(&mut connections, chance, &mut opened, digest)?;
        }
    }
    Ok(())
}
