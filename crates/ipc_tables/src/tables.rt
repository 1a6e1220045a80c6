//! The tables.

ghost use Rattle.std.specs.Prelude.{count_by, ◌≡◌, ◌+◌, ◌^◌, ◌<◌, [], true, false, find, length, option_and_then, is_some, IsSome, Some, None, IfOk, OnOk, OnErr};
ghost use Rattle.std.specs.Option.{option_copied, option_map};
ghost use Rattle.ipc_terms.specs.Objects.{family_of};
ghost use Rattle.ipc_terms.specs.declared.ids.Family.TheVariants.{Mq, Sem as SemFamily};
ghost use Rattle.ipc_names.specs.Directory.{first_directory, object_named};
ghost use Rattle.ipc_descr.specs.Descriptions.{is_desc, row_of};
ghost use Rattle.ipc_tables.specs.Charging.{Covered, Affords};
ghost use Rattle.ipc_tables.specs.Objects.{HasRoom, is_queue, row_at, queue_at, semaphore_at, counts_of};
ghost use Rattle.ipc_sem.specs.Counters.{overflows};
ghost use Rattle.ipc_tables.specs.TablesView.{TablesView, directory_kept, live_at, live_session, parked_on_at};
ghost use Rattle.ipc_tables.specs.Steps.{with_object, with_binding, without_binding, after_post, after_wait, after_try, after_hello, after_umask, after_found, after_created, after_close, after_unlink, after_hangup, after_send, after_receive, after_withdrawal, after_setattr, after_hand_over, after_facts, after_limit, after_notify, first_tables};

use crate::counts::Counts;
use crate::objects::{Objects, bytes_taken};
use crate::rows::{Body, ObjectRow, Session};
use crate::sessions::Sessions;
use ipc_access::Users;
use ipc_containers::NumberedBoxes;
use ipc_descr::{Charges, Descrs};
use ipc_names::{NameDir, NameHashing};
use ipc_queue::{Queue, ReceiveOutcome, SendOutcome};
use ipc_sem::{Sem, WaitOutcome};
use ipc_terms::{Access, Bytes, Desc, Facts, Family, Kind, Mode, Name, NoMemory, Object, Sid, Uid};
use std::alloc::Global;
use std::marker::Model;

/// How many semaphores have names at most. No rule bounds them, and each user may create some; one more finds no memory. Of queues
/// a limit of the configuration, which is no higher, lets in as many.
const MOST_NAMED_SEMAPHORES: usize = 65_536;

/// Who opens a description, and what it gives besides the object.
#[derive(Clone, Copy)]
pub struct Grant {
    pub session: Sid,
    pub access: Access,
    pub nonblock: bool,
}

/// What has an owner, group and mode: an object by its number, or the directory of a family.
pub enum Owned {
    Object(u64),
    Directory(Family),
}

/// Sessions stand at their numbers. Of the objects, those that are alive: numbered by the objects
/// created before them, and in the order of their numbers. Each user is charged with the bytes that
/// its queues take.
#[derive(Drop)]
pub struct Tables {
    sessions: Sessions,
    queues: NameDir,
    semaphores: NameDir,
    objects: Objects,
    descriptions: Descrs,
}

impl Model for Tables {
    ghost use Rattle.std.specs.Prelude.{length};
    ghost use Rattle.ipc_tables.specs.TablesView.{TablesView};
    ghost use Rattle.ipc_tables.specs.Standing.{rows_in, IsStanding};

    ghost Value = { TablesView };

    ghost view = { λ a. record { sessions = a.sessions; queues = a.queues; semaphores = a.semaphores; objects = rows_in a.objects; created = length a.objects.rows; descriptions = a.descriptions; charges = a.objects.charges } };

    ghost invariant = { λ a. IsStanding a.queues a.semaphores a.descriptions.rows a.objects };
}

impl Tables {
    /// No sessions, names, objects and descriptions, and users of whom nothing is taken.
    pub fn new(alloc: Global, users: &Users) -> Result<Tables, NoMemory>
        ensures { IfOk result (λ tables. tables ≡ first_tables users.now) }
    {
        let charges = Charges::new(alloc, users)?;
        let hashing = NameHashing::of(users);
        Ok(Tables {
            sessions: Sessions::new(alloc),
            queues: NameDir::new(alloc, Family::Mq, hashing),
            semaphores: NameDir::new(alloc, Family::Sem, hashing),
            objects: Objects {
                rows: NumberedBoxes::new(alloc),
                queue_count: 0,
                charges,
            },
            descriptions: Descrs::new(alloc),
        })
    }

    /// The session of the number, while it is live. One that ended isn't parked, and none has the number of nobody.
    pub fn session(&self, sid: Sid) -> Option<Session>
        ensures live { result ≡ live_session self.now.sessions sid.0 }
        ensures parked { option_and_then (λ row. row.parked_on) result ≡ parked_on_at self.now.sessions sid.0 }
        ensures few { length self.now.sessions < 2 ^ 64 }
    {
        // Its number fits, which `few` wants.
        let _next = self.sessions.len();
        self.sessions.get(sid)
    }

    /// How many sessions ever started.
    pub fn session_count(&self) -> usize
        ensures { result ≡ length self.now.sessions }
    {
        self.sessions.len()
    }

    /// The names of the family, and its directory.
    pub fn names(&self, family: Family) -> &NameDir
        ensures { result.now ≡ directory_kept family self.now }
    {
        match family {
            Family::Mq => &self.queues,
            Family::Sem => &self.semaphores,
        }
    }

    /// The object of the number, while it is alive.
    pub fn object(&self, number: u64) -> Option<&ObjectRow>
        ensures { option_copied result ≡ row_at self.now.objects number }
    {
        self.objects.rows.get(number as usize)
    }

    /// The least number from this one on whose object is alive.
    pub fn next_object(&self, number: u64) -> Option<u64> {
        let next = self.objects.rows.next_from(number as usize)?;
        Some(next as u64)
    }

    /// How many queues and semaphores are alive, and how many messages stand in the queues, with how many bytes. Looks at each
    /// object that is alive, and at each message. Takes no memory.
    pub fn counts(&self) -> Counts
        ensures { result ≡ counts_of self.now.objects }
    {
        self.objects.counts()
    }

    /// The queue that the object is, while it is alive.
    pub fn queue(&self, object: u64) -> Option<&Queue>
        ensures { option_copied result ≡ queue_at self.now.objects object }
    {
        self.object(object)?.body.queue()
    }

    /// The semaphore that the object is, while it is alive.
    pub fn semaphore(&self, object: u64) -> Option<&Sem>
        ensures { option_copied result ≡ semaphore_at self.now.objects object }
    {
        self.object(object)?.body.semaphore()
    }

    /// The descriptions that are held.
    pub fn descriptions(&self) -> &Descrs
        ensures { result.now ≡ self.now.descriptions }
    {
        &self.descriptions
    }

    /// How many bytes each user's queues take, and how many they may.
    pub fn charges(&self) -> &Charges
        ensures { result.now ≡ self.now.charges }
    {
        &self.objects.charges
    }

    /// How many queues are alive.
    pub fn queue_count(&self) -> usize
        ensures { result ≡ count_by is_queue self.now.objects }
    {
        self.objects.queue_count
    }

    /// Starts a session of the user. An `Err` changes nothing.
    pub fn start_session(&mut self, user: Uid) -> Result<(), NoMemory>
        ensures ok { OnOk result (self.new ≡ after_hello self.old user) }
        ensures err { OnErr result (self.new ≡ self.old) }
    {
        self.sessions.start(user)?;
        Ok(())
    }

    /// Gives the session this mask.
    pub fn set_mask(&mut self, sid: Sid, mask: Mode)
        ensures { self.new ≡ after_umask self.old sid.0 mask }
    {
        self.sessions.set_mask(sid, mask);
    }

    /// Opens an object that is there. An `Err` changes nothing.
    pub fn open_found(&mut self, grant: Grant, object: u64) -> Result<(), NoMemory>
        requires { self.old.descriptions.opened < 2 ^ 63 }
        ensures ok { OnOk result (self.new ≡ after_found self.old grant object) }
        ensures err { OnErr result (self.new ≡ self.old) }
    {
        self.descriptions
            .open(grant.session, object, grant.access, grant.nonblock)?;
        Ok(())
    }

    /// Makes an object, binds the name in its family's directory to it, opens it, and charges its
    /// creator with what it takes. An `Err` changes nothing.
    pub fn open_created(
        &mut self,
        alloc: Global,
        grant: Grant,
        name: &Name,
        object: Object,
        facts: Facts,
    ) -> Result<(), NoMemory>
        requires unbound { object_named (directory_kept (family_of object.kind) self.old).bindings name.now ≡ None }
        requires opened { self.old.descriptions.opened < 2 ^ 63 }
        requires created { self.old.created + 1 < 2 ^ 64 }
        requires room { HasRoom object.kind }
        requires affords { Affords self.old.charges object.creator.0 object.kind }
        ensures ok { OnOk result (self.new ≡ after_created self.old grant name.now object facts) }
        ensures err { OnErr result (self.new ≡ self.old) }
    {
        let family = object.kind.family();
        self.has_room(family)?;
        let number = self.objects.created();
        self.bind(family, name.clone()?, number)?;
        if self.add(alloc, grant, object, facts).is_err() {
            unbind(&mut self.queues, &mut self.semaphores, family, name);
            return Err(NoMemory);
        }
        Ok(())
    }

    /// Whether one more name of the family may be bound.
    fn has_room(&self, family: Family) -> Result<(), NoMemory> {
        if family == Family::Sem && self.semaphores.len() >= MOST_NAMED_SEMAPHORES {
            return Err(NoMemory);
        }
        Ok(())
    }

    /// Makes an object of the next number, opens it, and charges its creator. An `Err` changes nothing.
    fn add(
        &mut self,
        alloc: Global,
        grant: Grant,
        object: Object,
        facts: Facts,
    ) -> Result<(), NoMemory>
        requires opened { self.old.descriptions.opened < 2 ^ 63 }
        requires created { self.old.created + 1 < 2 ^ 64 }
        requires room { HasRoom object.kind }
        requires affords { Affords self.old.charges object.creator.0 object.kind }
        ensures ok { OnOk result (self.new ≡ with_object self.old grant object facts) }
        ensures err { OnErr result (self.new ≡ self.old) }
    {
        let number = self.objects.created();
        let bytes = bytes_taken(object.kind);
        let row = ObjectRow {
            number,
            object,
            facts,
            bytes,
            body: Body::new(alloc, object.kind),
        };
        self.objects.rows.push(row)?;
        let opened = self
            .descriptions
            .open(grant.session, number, grant.access, grant.nonblock);
        if opened.is_err() {
            self.objects.rows.undo_push();
            return Err(NoMemory);
        }
        let objects = &mut self.objects;
        if let Kind::Queue(_) = object.kind {
            objects.queue_count += 1;
            objects.charges.add(object.creator, bytes);
        }
        Ok(())
    }

    /// Binds a name of the family that is unbound. An `Err` changes nothing.
    fn bind(&mut self, family: Family, name: Name, object: u64) -> Result<(), NoMemory>
        requires { object_named (directory_kept family self.old).bindings name ≡ None }
        ensures ok { OnOk result (self.new ≡ with_binding family name object self.old) }
        ensures err { OnErr result (self.new ≡ self.old) }
    {
        match family {
            Family::Mq => self.queues.bind(name, object)?,
            Family::Sem => self.semaphores.bind(name, object)?,
        }
        Ok(())
    }

    /// The session's message of these bytes and this priority, whose send stands at the place `ticket`, is handed
    /// to the longest parked receive, or enters the queue, or its send parks. An `Err` changes
    /// nothing.
    pub fn send(
        &mut self,
        object: u64,
        ticket: u64,
        priority: u32,
        bytes: &Bytes,
        sid: Sid,
    ) -> Result<(), NoMemory>
        requires there { is_some (queue_at self.old.objects object) ≡ true }
        requires live { live_at self.old.sessions sid.0 ≡ true }
        ensures ok { OnOk result (self.new ≡ after_send self.old object (record { place = ticket; priority = priority; bytes = bytes.now }) sid) }
        ensures err { OnErr result (self.new ≡ self.old) }
    {
        let Some(queue) = self.objects.queue_mut(object) else {
            unreachable!();
        };
        match queue.send_message(ticket, priority, bytes, sid)? {
            SendOutcome::Queued => {}
            SendOutcome::QueuedAndNotice(_) => {}
            SendOutcome::HandedTo(receiver) => self.sessions.set_parked(receiver, None),
            SendOutcome::Parked => self.sessions.set_parked(sid, Some(object)),
        }
        Ok(())
    }

    /// The session takes the next message from the queue, and lets the longest parked send enter;
    /// or its receive parks. An `Err` changes nothing.
    pub fn receive(&mut self, object: u64, sid: Sid) -> Result<(), NoMemory>
        requires there { is_some (queue_at self.old.objects object) ≡ true }
        requires live { live_at self.old.sessions sid.0 ≡ true }
        ensures ok { OnOk result (self.new ≡ after_receive self.old object sid) }
        ensures err { OnErr result (self.new ≡ self.old) }
    {
        let Some(queue) = self.objects.queue_mut(object) else {
            unreachable!();
        };
        match queue.receive(sid)? {
            ReceiveOutcome::Took(_) => {}
            ReceiveOutcome::TookAndAdmitted(_, sender) => {
                self.sessions.set_parked(sender, None);
            }
            ReceiveOutcome::Parked => self.sessions.set_parked(sid, Some(object)),
        }
        Ok(())
    }

    /// The session whose wait has been parked longest is served, or the value rises by 1.
    pub fn post(&mut self, object: u64)
        requires { option_map overflows (semaphore_at self.old.objects object) ≡ Some false }
        ensures { self.new ≡ after_post self.old object }
    {
        let Some(semaphore) = self.objects.semaphore_mut(object) else {
            unreachable!();
        };
        let Ok(served) = semaphore.post() else {
            unreachable!();
        };
        if let Some(waiter) = served {
            self.sessions.set_parked(waiter, None);
        }
    }

    /// The value is lowered by 1, or the session's wait parks. An `Err` changes nothing.
    pub fn wait(&mut self, object: u64, sid: Sid) -> Result<(), NoMemory>
        requires there { is_some (semaphore_at self.old.objects object) ≡ true }
        requires live { live_at self.old.sessions sid.0 ≡ true }
        ensures ok { OnOk result (self.new ≡ after_wait self.old object sid) }
        ensures err { OnErr result (self.new ≡ self.old) }
    {
        let Some(semaphore) = self.objects.semaphore_mut(object) else {
            unreachable!();
        };
        match semaphore.wait(sid)? {
            WaitOutcome::Passed => {}
            WaitOutcome::Parked => self.sessions.set_parked(sid, Some(object)),
        }
        Ok(())
    }

    /// The value is lowered by 1, if it is not 0.
    pub fn try_wait(&mut self, object: u64)
        ensures { self.new ≡ after_try self.old object }
    {
        if let Some(semaphore) = self.objects.semaphore_mut(object) {
            semaphore.try_wait();
        }
    }

    /// Withdraws the call in which the session is parked, if it is.
    pub fn withdraw(&mut self, sid: Sid)
        ensures { self.new ≡ after_withdrawal self.old sid }
    {
        let Some(session) = self.sessions.get(sid) else {
            return;
        };
        let Some(object) = session.parked_on else {
            return;
        };
        if let Some(row) = self.objects.rows.get_mut(object as usize) {
            row.body.withdraw(sid);
        }
        self.sessions.set_parked(sid, None);
    }

    /// Registers the description, which gives this object, for the notice of the queue, where none is
    /// registered; or takes the registration of the description back.
    pub fn set_registered(&mut self, object: u64, desc: Desc, on: bool)
        requires { on ≡ true → option_map (λ row. row.object) (find (is_desc desc.0) self.old.descriptions.rows) ≡ Some object }
        ensures { self.new ≡ after_notify self.old object desc on }
    {
        let Some(queue) = self.objects.queue_mut(object) else {
            return;
        };
        if on {
            queue.register(desc);
        } else {
            queue.unregister(desc);
        }
    }

    /// Gives the object or the directory this owner, group and mode. Where there is no such object
    /// nothing changes.
    pub fn set_facts(&mut self, owned: Owned, facts: Facts)
        ensures { self.new ≡ after_facts self.old owned facts }
    {
        match owned {
            Owned::Object(object) => {
                if let Some(row) = self.objects.rows.get_mut(object as usize) {
                    row.facts = facts;
                }
            }
            Owned::Directory(Family::Mq) => give_facts(&mut self.queues, facts),
            Owned::Directory(Family::Sem) => give_facts(&mut self.semaphores, facts),
        }
    }

    /// Sets whether the calls by the description are refused where they would wait.
    pub fn set_nonblock(&mut self, sid: Sid, desc: Desc, nonblock: bool)
        requires { IsSome (row_of self.old.descriptions.rows sid.0 desc.0) }
        ensures { self.new ≡ after_setattr self.old desc.0 nonblock }
    {
        self.descriptions.set_nonblock(sid, desc, nonblock);
    }

    /// Passes the description on to another session. Its registration stays. An `Err` changes nothing.
    pub fn hand_over(&mut self, sid: Sid, desc: Desc, taker: Sid) -> Result<(), NoMemory>
        requires { IsSome (row_of self.old.descriptions.rows sid.0 desc.0) }
        ensures ok { OnOk result (self.new ≡ after_hand_over self.old desc.0 taker) }
        ensures err { OnErr result (self.new ≡ self.old) }
    {
        self.descriptions.hand_over(sid, desc, taker)?;
        Ok(())
    }

    /// Sets how many bytes the user's queues may take, if it is a user.
    pub fn set_limit(&mut self, uid: Uid, bytes: u64)
        ensures { self.new ≡ after_limit self.old uid.0 bytes }
    {
        self.objects.charges.set_limit(uid, bytes);
    }

    /// Closes the description, if the session holds it. An object that nothing keeps is gone, and its
    /// creator is no longer charged with it.
    pub fn close(&mut self, sid: Sid, desc: Desc)
        requires { Covered self.old.charges self.old.objects }
        ensures { self.new ≡ after_close self.old sid.0 desc.0 }
    {
        // Asked, so that it is known that no two descriptions have one number.
        let _opened = self.descriptions.opened();
        let object = self.descriptions.close(sid, desc);
        self.objects
            .remove_dead(&self.queues, &self.semaphores, &self.descriptions, object);
        self.objects.release(&self.descriptions, object);
    }

    /// Leaves the name of the family unbound. An object that nothing keeps is gone, and its creator is
    /// no longer charged with it.
    pub fn unlink(&mut self, family: Family, name: &Name)
        requires { Covered self.old.charges self.old.objects }
        ensures { self.new ≡ after_unlink self.old family name.now }
    {
        let object = unbind(&mut self.queues, &mut self.semaphores, family, name);
        self.objects
            .remove_dead(&self.queues, &self.semaphores, &self.descriptions, object);
    }

    /// Ends the session: withdraws its parked call, and closes what it holds. An object that nothing
    /// keeps is gone, and its creator is no longer charged with it.
    pub fn end_session(&mut self, sid: Sid)
        requires { Covered self.old.charges self.old.objects }
        ensures { self.new ≡ after_hangup self.old sid }
    {
        self.withdraw(sid);
        self.sessions.end(sid);
        while let Some(desc) = self.descriptions.first(sid) {
            self.close(sid, desc);
        }
    }
}

/// Leaves the name of the family unbound, and says to which object it was bound.
fn unbind(
    queues: &mut NameDir,
    semaphores: &mut NameDir,
    family: Family,
    name: &Name,
) -> Option<u64>
    ensures object { (t : TablesView) → result ≡ object_named (directory_kept family (record t { queues = queues.old; semaphores = semaphores.old })).bindings name.now }
    ensures rest { (t : TablesView) → record t { queues = queues.new; semaphores = semaphores.new } ≡ without_binding family name.now (record t { queues = queues.old; semaphores = semaphores.old }) }
{
    match family {
        Family::Mq => queues.unbind(name),
        Family::Sem => semaphores.unbind(name),
    }
}

/// Gives the directory this owner, group and mode.
fn give_facts(directory: &mut NameDir, facts: Facts)
    ensures { directory.new ≡ record directory.old { facts = facts } }
{
    directory.set_mode(facts.mode);
    directory.set_owner(facts.owner, facts.group);
}
