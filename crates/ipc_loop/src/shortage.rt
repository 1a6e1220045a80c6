//! Want of memory for what has to be recorded: a hang-up, or a tick.

ghost use Rattle.std.specs.Prelude.{◌≡◌};
ghost use Rattle.ipc_loop.specs.Shortage.{short_since, has_lasted};

/// How many milliseconds nothing may be recorded, though something waits to be, before the server can't go on.
const MOST_MILLISECONDS: u64 = 1_000;

/// Since when nothing could be recorded, though something waited to be.
#[derive(Clone, Copy)]
pub struct Shortage {
    pub since: Option<u64>,
    /// When the last round ended.
    pub moment: u64,
}

impl Shortage {
    /// Notes a round that ended at this moment: whether nothing was recorded in it, though something waits to be.
    pub fn note(&mut self, is_short: bool, moment: u64)
        ensures since { self.new.since ≡ short_since self.old.since is_short moment }
        ensures moment { self.new.moment ≡ moment }
    {
        self.moment = moment;
        self.since = match self.since {
            _ if !is_short => None,
            None => Some(moment),
            Some(since) => Some(since.min(moment)),
        };
    }

    /// Whether it has lasted a second.
    pub fn has_lasted(&self) -> bool
        ensures { result ≡ has_lasted self.now.since self.now.moment }
    {
        match self.since {
            Some(since) => MOST_MILLISECONDS <= self.moment.saturating_sub(since),
            None => false,
        }
    }
}
