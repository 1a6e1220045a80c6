//! What lives in a state, told as a short history that leads to the same.

ghost use Rattle.std.specs.Prelude.{◌≡◌, IfOk, true};
ghost use Rattle.ipc_policy.specs.Decides.Verdict.{Legal};
ghost use Rattle.ipc_living.specs.Living.{AreSenders, SameLiving};

use crate::comparing::{carried_limit, same_living};
use crate::fault::{CompactFault, Subject};
use crate::senders::Senders;
use crate::story::Story;
use ipc_descr::checked_bytes_of;
use ipc_log::Head;
use ipc_policy::Config;
use ipc_queue::Queue;
use ipc_sem::Sem;
use ipc_state::State;
use ipc_tables::{Body, ObjectRow};
use ipc_terms::{
    Access, Attributes, Bytes, Call, Desc, Event, Facts, Family, Gid, Kind, Mode, Name, OpenFlags,
    QueueOpen, SemaphoreOpen, Target, Uid,
};
use std::alloc::Global;
use std::collections::BTreeMap;
use std::io::Write;

/// The most that a limit may be.
const LIMIT_MAX: u64 = 1_000_000_000_000_000;

/// What lets everybody write.
const WRITE_BITS: u16 = 0o222;

/// What a directory's mode is at first.
const FIRST_DIRECTORY: Facts = Facts {
    owner: Uid(0),
    group: Gid(0),
    mode: Mode(0o1777),
};

/// A state, and who sent the messages in it.
#[derive(Clone, Copy)]
struct Known<'a> {
    state: &'a State,
    senders: &'a Senders,
}

/// Writes a short history under this configuration in which lives what lives in the state, where every session is gone, and
/// compares.
pub fn compact<W: Write + Drop>(
    alloc: Global,
    config: Config,
    head: &Head,
    state: &State,
    senders: &Senders,
    out: W,
) -> Result<Story<W>, CompactFault>
    requires { AreSenders senders.now state.now.history }
    ensures config { IfOk result (λ story. story.config ≡ config) }
    ensures legal { IfOk result (λ story. Legal story.config story.history) }
    ensures same { IfOk result (λ story. SameLiving state.now.config state.now.history story.config story.history) }
{
    let mut story = told(alloc, config, head, state, senders, out)?;
    story.write()?;
    story.is_legal();
    if !is_same(state, senders, &story) {
        return Err(CompactFault::Differs);
    }
    Ok(story)
}

/// Whether the same lives behind it.
fn is_same<W: Write + Drop>(state: &State, senders: &Senders, story: &Story<W>) -> bool
    requires { AreSenders senders.now state.now.history }
    ensures { result ≡ true → SameLiving state.now.config state.now.history story.now.config story.now.history }
{
    same_living(state, senders, story.state(), story.senders())
}

/// All of it, told.
fn told<W: Write + Drop>(
    alloc: Global,
    config: Config,
    head: &Head,
    state: &State,
    senders: &Senders,
    out: W,
) -> Result<Story<W>, CompactFault>
    ensures { IfOk result (λ story. story.config ≡ config) }
{
    let mut story = Story::new(alloc, config, head, out)?;
    tell_all(&mut story, state, senders)?;
    Ok(story)
}

/// What lives in the state.
fn tell_all<W: Write + Drop>(
    story: &mut Story<W>,
    state: &State,
    senders: &Senders,
) -> Result<(), CompactFault>
    ensures { story.new.config ≡ story.old.config }
{
    let old = Known { state, senders };
    tell_objects(story, old, Family::Mq)?;
    tell_objects(story, old, Family::Sem)?;
    tell_directory(story, state, Family::Mq)?;
    tell_directory(story, state, Family::Sem)?;
    tell_limits(story, state)?;
    story.tell_of(Subject::End);
    let moment = state.time();
    if moment > 0 {
        story.tell(Event::Tick { moment })?;
    }
    story.hang_up_all()
}

/// The objects that have names of the family, in the order in which they were created.
fn tell_objects<W: Write + Drop>(
    story: &mut Story<W>,
    old: Known<'_>,
    family: Family,
) -> Result<(), CompactFault>
    ensures { story.new.config ≡ story.old.config }
{
    let names = old.state.tables().names(family);
    for index in 0..names.len() {
        let Some((name, number)) = names.binding(index) else {
            return Err(CompactFault::Differs);
        };
        let Some(row) = old.state.tables().object(number) else {
            return Err(CompactFault::Differs);
        };
        story.tell_of(Subject::Object(family, name.clone()?, row.object.creator));
        match &row.body {
            Body::Queue(queue) => tell_queue(story, old, name, row, queue)?,
            Body::Semaphore(semaphore) => tell_semaphore(story, name, row, semaphore)?,
        }
        tell_facts(story, family, name, row)?;
    }
    Ok(())
}

/// A queue is created by its creator, all that it has is sent by whom it was sent, and it gets its mode.
fn tell_queue<W: Write + Drop>(
    story: &mut Story<W>,
    old: Known<'_>,
    name: &Name,
    row: &ObjectRow,
    queue: &Queue,
) -> Result<(), CompactFault>
    ensures { story.new.config ≡ story.old.config }
{
    let Kind::Queue(attributes) = row.object.kind else {
        return Err(CompactFault::Differs);
    };
    let creator = row.object.creator;
    make_room(story, creator, attributes)?;
    let maker = story.session_of(creator)?;
    let mode = if has_other_senders(old, queue, creator)? {
        Mode(row.facts.mode.0 | WRITE_BITS)
    } else {
        row.facts.mode
    };
    let desc = story.next_desc();
    story.make(
        maker,
        Call::MqOpen(QueueOpen {
            name: name.clone()?,
            access: Access::Write,
            flags: OpenFlags::CREATE | OpenFlags::EXCLUSIVE,
            mode,
            attributes: Some(attributes),
        }),
    )?;
    let mut held = BTreeMap::new(story.alloc());
    held.insert(creator.0, desc)?;
    tell_messages(story, old, name, queue, &mut held)?;
    tell_closes(story, &held)?;
    if mode == row.facts.mode {
        return Ok(());
    }
    let target = Target::Name(Family::Mq, name.clone()?);
    story.make(
        maker,
        Call::Chmod {
            mode: row.facts.mode,
            target,
        },
    )
}

/// Each user closes its description.
fn tell_closes<W: Write + Drop>(
    story: &mut Story<W>,
    held: &BTreeMap<u32, Desc>,
) -> Result<(), CompactFault>
    ensures { story.new.config ≡ story.old.config }
{
    for (user, desc) in held.iter() {
        let sid = story.session_of(Uid(*user))?;
        story.make(sid, Call::MqClose(*desc))?;
    }
    Ok(())
}

/// User 0, if it is a user, raises the creator's limit, where one more such queue is above it.
fn make_room<W: Write + Drop>(
    story: &mut Story<W>,
    creator: Uid,
    attributes: Attributes,
) -> Result<(), CompactFault>
    ensures { story.new.config ≡ story.old.config }
{
    let charges = story.state().tables().charges();
    let used = charges.used(creator);
    let limit = charges.limit(creator);
    let Some(more) = checked_bytes_of(attributes.maxmsg, attributes.msgsize) else {
        return Err(CompactFault::Differs);
    };
    if used.saturating_add(more) <= limit || !story.has_user(Uid(0)) {
        return Ok(());
    }
    let admin = story.session_of(Uid(0))?;
    story.make(
        admin,
        Call::SetLimit {
            uid: creator,
            bytes: LIMIT_MAX,
        },
    )
}

/// Whether a message of the queue was sent by another than its creator.
fn has_other_senders(old: Known<'_>, queue: &Queue, creator: Uid) -> Result<bool, CompactFault> {
    let mut from = 0;
    for _ in 0..u64::MAX {
        let Some(priority) = queue.next_priority(from) else {
            return Ok(false);
        };
        if is_of_others(old, queue, priority, creator)? {
            return Ok(true);
        }
        let Some(after) = priority.checked_add(1) else {
            return Ok(false);
        };
        from = after;
    }
    Ok(false)
}

/// Whether a message of this priority was.
fn is_of_others(
    old: Known<'_>,
    queue: &Queue,
    priority: u64,
    creator: Uid,
) -> Result<bool, CompactFault> {
    for index in 0..usize::MAX {
        let Some(ticket) = queue.message(priority, index) else {
            return Ok(false);
        };
        let Some(sender) = old.senders.user(ticket.place) else {
            return Err(CompactFault::Unknown(ticket.place));
        };
        if sender != creator {
            return Ok(true);
        }
    }
    Ok(false)
}

/// The messages of each priority.
fn tell_messages<W: Write + Drop>(
    story: &mut Story<W>,
    old: Known<'_>,
    name: &Name,
    queue: &Queue,
    held: &mut BTreeMap<u32, Desc>,
) -> Result<(), CompactFault>
    ensures { story.new.config ≡ story.old.config }
{
    let mut from = 0;
    for _ in 0..u64::MAX {
        let Some(priority) = queue.next_priority(from) else {
            return Ok(());
        };
        tell_bucket(story, old, name, queue, priority, held)?;
        let Some(after) = priority.checked_add(1) else {
            return Ok(());
        };
        from = after;
    }
    Ok(())
}

/// Those of this priority, in order of entry.
fn tell_bucket<W: Write + Drop>(
    story: &mut Story<W>,
    old: Known<'_>,
    name: &Name,
    queue: &Queue,
    priority: u64,
    held: &mut BTreeMap<u32, Desc>,
) -> Result<(), CompactFault>
    ensures { story.new.config ≡ story.old.config }
{
    for index in 0..usize::MAX {
        let Some(ticket) = queue.message(priority, index) else {
            return Ok(());
        };
        let Some(sender) = old.senders.user(ticket.place) else {
            return Err(CompactFault::Unknown(ticket.place));
        };
        tell_message(story, name, sender, ticket.priority, &ticket.bytes, held)?;
    }
    Ok(())
}

/// The sender opens the queue, if it hasn't yet, and sends the message.
fn tell_message<W: Write + Drop>(
    story: &mut Story<W>,
    name: &Name,
    sender: Uid,
    priority: u32,
    bytes: &Bytes,
    held: &mut BTreeMap<u32, Desc>,
) -> Result<(), CompactFault>
    ensures { story.new.config ≡ story.old.config }
{
    let desc = match held.get(&sender.0) {
        Some(desc) => *desc,
        None => open_to_send(story, name, sender, held)?,
    };
    let sid = story.session_of(sender)?;
    story.make(
        sid,
        Call::MqSend {
            desc,
            priority,
            bytes: bytes.clone()?,
        },
    )
}

/// The sender opens the queue.
fn open_to_send<W: Write + Drop>(
    story: &mut Story<W>,
    name: &Name,
    sender: Uid,
    held: &mut BTreeMap<u32, Desc>,
) -> Result<Desc, CompactFault>
    ensures { story.new.config ≡ story.old.config }
{
    story.tell_of(Subject::Messages(name.clone()?, sender));
    let sid = story.session_of(sender)?;
    let desc = story.next_desc();
    story.make(
        sid,
        Call::MqOpen(QueueOpen {
            name: name.clone()?,
            access: Access::Write,
            flags: OpenFlags::NONBLOCK,
            mode: Mode(0),
            attributes: None,
        }),
    )?;
    held.insert(sender.0, desc)?;
    Ok(desc)
}

/// A semaphore is created by its creator with the value that it has.
fn tell_semaphore<W: Write + Drop>(
    story: &mut Story<W>,
    name: &Name,
    row: &ObjectRow,
    semaphore: &Sem,
) -> Result<(), CompactFault>
    ensures { story.new.config ≡ story.old.config }
{
    let maker = story.session_of(row.object.creator)?;
    let desc = story.next_desc();
    story.make(
        maker,
        Call::SemOpen(SemaphoreOpen {
            name: name.clone()?,
            flags: OpenFlags::CREATE | OpenFlags::EXCLUSIVE,
            mode: row.facts.mode,
            value: semaphore.value(),
        }),
    )?;
    story.make(maker, Call::SemClose(desc))
}

/// An object whose owner and group aren't its creator's gets its own: of user 0, or, where that is no user, of its creator.
fn tell_facts<W: Write + Drop>(
    story: &mut Story<W>,
    family: Family,
    name: &Name,
    row: &ObjectRow,
) -> Result<(), CompactFault>
    ensures { story.new.config ≡ story.old.config }
{
    let creator = row.object.creator;
    let Some(cred) = story.state().config().users.cred(creator) else {
        return Err(CompactFault::Differs);
    };
    if row.facts.owner == creator && row.facts.group == cred.gid {
        return Ok(());
    }
    story.tell_of(Subject::Object(family, name.clone()?, creator));
    let by = if story.has_user(Uid(0)) {
        Uid(0)
    } else {
        creator
    };
    let sid = story.session_of(by)?;
    story.make(
        sid,
        Call::Chown {
            owner: Some(row.facts.owner),
            group: Some(row.facts.group),
            target: Target::Name(family, name.clone()?),
        },
    )
}

/// User 0 gives the family's directory its mode, its owner and its group, where they aren't what they are at first.
fn tell_directory<W: Write + Drop>(
    story: &mut Story<W>,
    old: &State,
    family: Family,
) -> Result<(), CompactFault>
    ensures { story.new.config ≡ story.old.config }
{
    let facts = old.tables().names(family).facts();
    if facts == FIRST_DIRECTORY {
        return Ok(());
    }
    story.tell_of(Subject::Directory(family));
    let admin = story.admin()?;
    story.make(
        admin,
        Call::Chmod {
            mode: facts.mode,
            target: Target::Dir(family),
        },
    )?;
    story.make(
        admin,
        Call::Chown {
            owner: Some(facts.owner),
            group: Some(facts.group),
            target: Target::Dir(family),
        },
    )
}

/// User 0 sets the limits that aren't those of the user file.
fn tell_limits<W: Write + Drop>(story: &mut Story<W>, old: &State) -> Result<(), CompactFault>
    ensures { story.new.config ≡ story.old.config }
{
    for index in 0..usize::MAX {
        let Some(user) = story.state().config().users.as_slice().get(index) else {
            return Ok(());
        };
        let uid = user.cred.uid;
        tell_limit(story, old, uid)?;
    }
    Ok(())
}

/// User 0 sets the limit of this user, if it isn't that of the user file.
fn tell_limit<W: Write + Drop>(
    story: &mut Story<W>,
    old: &State,
    uid: Uid,
) -> Result<(), CompactFault>
    ensures { story.new.config ≡ story.old.config }
{
    let new = story.state();
    let bytes = carried_limit(&old.config().users, old.tables(), &new.config().users, uid);
    if new.tables().charges().limit(uid) == bytes {
        return Ok(());
    }
    story.tell_of(Subject::Limit(uid));
    let admin = story.admin()?;
    story.make(admin, Call::SetLimit { uid, bytes })
}
