//! What is asked of a lookup that isn't looked up beforehand.

ghost use Rattle.std.specs.Prelude.{◌≡◌, IfOk};
ghost use Rattle.ipc_terms.specs.Pages.{page};
ghost use Rattle.ipc_policy.specs.Decides.Sessions.{hellos};
ghost use Rattle.ipc_policy.specs.Decides.Descriptions.{held_count, opens};
ghost use Rattle.ipc_policy.specs.Decides.Charges.{queues_alive, limit, charged};
ghost use Rattle.ipc_policy.specs.Decides.Life.{names};

use crate::lookup::Lookup;
use ipc_terms::{Family, Names, NoMemory, Sid, Uid};
use std::alloc::Global;

impl<'a> Lookup<'a> {
    /// How many sessions were started: the number of the next one.
    pub fn session_count(&self) -> u64
        ensures { result ≡ hellos self.now.history }
    {
        self.tables().session_count() as u64
    }

    /// How many descriptions were opened: the number of the next one.
    pub fn opened(&self) -> u64
        ensures { result ≡ opens self.now.history }
    {
        self.tables().descriptions().opened()
    }

    /// How many descriptions the session holds.
    pub fn held_count(&self, sid: Sid) -> usize
        ensures { result ≡ held_count self.now.history sid.0 }
    {
        self.tables().descriptions().count(sid)
    }

    /// How many queues are alive.
    pub fn queues_alive(&self) -> usize
        ensures { result ≡ queues_alive self.now.config self.now.history }
    {
        self.tables().queue_count()
    }

    /// How many bytes the queues of the user may take, if it is a user of the file
    /// (`getrlimit(2)`, `RLIMIT_MSGQUEUE`).
    pub fn limit(&self, uid: Uid) -> Option<u64>
        ensures { result ≡ limit self.now.config self.now.history uid }
    {
        self.config().users.cred(uid)?;
        Some(self.tables().charges().limit(uid))
    }

    /// How many bytes the queues that the user created take, full or empty.
    pub fn charged(&self, uid: Uid) -> u64
        ensures { result ≡ charged self.now.config self.now.history uid }
    {
        self.tables().charges().used(uid)
    }

    /// A page of the names that are bound, in the order in which they were created: from the position
    /// `start` on, counted from 0, at most `count` and at most 1,000.
    pub fn names(
        &self,
        alloc: Global,
        family: Family,
        start: u32,
        count: u16,
    ) -> Result<Names, NoMemory>
        ensures { IfOk result (λ listed. listed ≡ page start count (names self.now.history family)) }
    {
        let listed = self.tables().names(family).list(alloc, start, count)?;
        Ok(listed)
    }
}
