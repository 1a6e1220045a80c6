//! What a run of the program is to do.

use ipc_core::Limits;
use std::marker::Model;

/// What a run is to do.
#[derive(Drop)]
pub enum Task {
    /// Run a script within these limits.
    Script(Limits),
    /// Serve connections.
    Serve(Serving),
    /// Step the records of a trail again.
    Replay(Replaying),
    /// Retell a trail.
    Compact(Retold),
    /// Compare a trail with the one that it retells.
    Compare(Retold),
}

/// Whom a server serves, where, and how.
#[derive(Drop)]
pub struct Serving {
    /// The path of the user file.
    pub users: String,
    /// Where it listens, as `127.0.0.1:7000`, or behind `unix:` the path of a socket's file, or behind `unix-users:` that of a folder
    /// with a socket for each user.
    pub address: String,
    /// The permission bits of the one file.
    pub socket_mode: u32,
    pub threading: Threading,
    /// After how many connections it ends.
    pub stop_after: Option<u64>,
    /// The path of the log, or `-`.
    pub log: Option<String>,
    /// At which address its numbers are read: `HOST:PORT`, or `unix:` and the path of a socket's file. Workers show none.
    pub metrics: Option<String>,
    /// How many seconds, 1 or more, pass between two lines of numbers in the log. Workers write none.
    pub stats: Option<u64>,
    /// Where the trail is written to, if it is. Workers write none.
    pub trail: Option<TrailFile>,
    pub limits: Limits,
}

/// A file that a trail is written to.
#[derive(Drop)]
pub struct TrailFile {
    pub path: String,
    /// Whether what is written has to be on the disk before it is answered.
    pub is_synced: bool,
    /// After how many bytes another file is begun, if one is: 4,096 or more.
    pub segment: Option<u64>,
    /// From how many bytes on a start retells the trail, if one does.
    pub compact: Option<u64>,
    /// Whether the files of a trail that was retold are kept.
    pub is_kept: bool,
}

/// On what threads connections are served.
#[derive(Clone, Copy, PartialEq, Eq, Drop)]
pub enum Threading {
    /// So many workers, 1 to 64, of which each serves one connection at a time. They keep all records.
    Workers(usize),
    /// One thread, which serves so many connections at most at a time, 1 or more, and keeps so many records.
    OneThread(usize, Kept),
}

/// How many of the newest records are kept, and about how many bytes of them; without a bound, all.
#[derive(Clone, Copy, PartialEq, Eq, Drop)]
pub struct Kept {
    /// At least 1,000.
    pub records: Option<u64>,
    pub bytes: Option<u64>,
}

/// Which trail is replayed.
#[derive(Drop)]
pub struct Replaying {
    /// The path of the user file.
    pub users: String,
    /// The paths of the trail's files in their order, one or more.
    pub files: Vec<String>,
    /// Of which records a line is printed, if of any.
    pub audit: Option<Places>,
    /// The number of the session of whose answers a line is printed, if of any. Then `audit` is none.
    pub answers: Option<u64>,
}

/// Which trail is retold, and where.
#[derive(Drop)]
pub struct Retold {
    /// The path of the user file.
    pub users: String,
    /// The path of the file that retells.
    pub new: String,
    /// The paths of the trail's files in their order, one or more.
    pub old: Vec<String>,
    /// The path of the user file under which it is retold, if that is another one.
    pub to: Option<String>,
    pub limits: NewLimits,
}

/// The limits under which a trail is retold. One that isn't given is the trail's own.
#[derive(Clone, Copy, PartialEq, Eq, Drop)]
pub struct NewLimits {
    pub msg_max: Option<u32>,
    pub msgsize_max: Option<u32>,
    pub queues_max: Option<u32>,
}

/// The places from one to another, with both. Places count from 0.
#[derive(Clone, Copy, PartialEq, Eq, Drop)]
pub struct Places {
    pub first: u64,
    pub last: u64,
}

impl Model for TrailFile {
    ghost use Rattle.std.specs.Prelude.{string_bytes};
    ghost use Rattle.ipc_program.specs.Trails.{TrailFile};

    ghost Value = { TrailFile };

    ghost view = { λ t. record { path = string_bytes t.path; is_synced = t.is_synced; segment = t.segment; compact = t.compact; is_kept = t.is_kept } };
}

impl Model for Replaying {
    ghost use Rattle.std.specs.Prelude.{map, string_bytes};
    ghost use Rattle.ipc_program.specs.Trails.{Replaying};

    ghost Value = { Replaying };

    ghost view = { λ r. record { users = string_bytes r.users; files = map string_bytes r.files.items; audit = r.audit; answers = r.answers } };
}

impl Model for Retold {
    ghost use Rattle.std.specs.Prelude.{map, option_map, string_bytes};
    ghost use Rattle.ipc_program.specs.Trails.{Retold};

    ghost Value = { Retold };

    ghost view = { λ r. record { users = string_bytes r.users; new = string_bytes r.new; old = map string_bytes r.old.items; to = option_map string_bytes r.to; limits = r.limits } };
}

impl Model for Serving {
    ghost use Rattle.std.specs.Prelude.{option_map, string_bytes};
    ghost use Rattle.ipc_program.specs.Servers.{IsWithin, Serving};

    ghost Value = { Serving };

    ghost view = { λ s. record { users = string_bytes s.users; address = string_bytes s.address; socket_mode = s.socket_mode; threading = s.threading; stop_after = s.stop_after; log = option_map string_bytes s.log; metrics = option_map string_bytes s.metrics; stats = s.stats; trail = s.trail; limits = s.limits } };

    ghost invariant = { λ s. IsWithin s.threading };
}
