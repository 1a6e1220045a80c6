//! What is left of a trail once everybody has hung up.

ghost use Rattle.std.specs.Prelude.{◌≡◌, IfOk, true};
ghost use Rattle.ipc_policy.specs.Decides.Verdict.{Legal};
ghost use Rattle.ipc_replay.specs.HangingUp.{all_hung_up};
ghost use Rattle.ipc_living.specs.Living.{AreSenders, SameLiving};

use crate::compacting::compact;
use crate::comparing::same_living;
use crate::fault::CompactFault;
use crate::senders::Senders;
use crate::story::Story;
use ipc_history::Past;
use ipc_log::Head;
use ipc_policy::Config;
use ipc_state::State;
use ipc_terms::NoMemory;
use std::alloc::Global;
use std::io::Write;
use std::marker::Model;

/// The state in which everybody has hung up, and who sent the messages in it.
#[derive(Drop)]
pub struct Living {
    state: State,
    senders: Senders,
}

impl Model for Living {
    ghost use Rattle.ipc_state.specs.StateView.{StateView};
    ghost use Rattle.ipc_living.specs.Living.{AreSenders};

    ghost Value = { StateView };

    ghost view = { λ a. a.state };

    ghost invariant = { λ a. AreSenders a.senders a.state.history };
}

impl Living {
    /// Everybody who is live hangs up. An `Err` drops what happened.
    pub fn after(alloc: Global, past: Past, senders: Senders) -> Result<Living, NoMemory>
        requires { AreSenders senders past.history }
        ensures config { IfOk result (λ living. living.config ≡ past.config) }
        ensures history { IfOk result (λ living. living.history ≡ all_hung_up past.history) }
    {
        let state = past.resume(alloc)?;
        Ok(Living { state, senders })
    }

    /// Writes a short legal history under this configuration, after this head, in which the same lives and nobody is live. At an
    /// `Err` some of it may be written.
    pub fn retell<W: Write + Drop>(
        &self,
        alloc: Global,
        config: Config,
        head: &Head,
        out: W,
    ) -> Result<Story<W>, CompactFault>
        ensures config { IfOk result (λ story. story.config ≡ config) }
        ensures legal { IfOk result (λ story. Legal story.config story.history) }
        ensures same { IfOk result (λ story. SameLiving self.now.config self.now.history story.config story.history) }
    {
        compact(alloc, config, head, &self.state, &self.senders, out)
    }

    /// Whether the same lives behind this past, under its configuration and by who sent its messages, and nobody is live there. A
    /// no says nothing.
    pub fn is_same(&self, past: &Past, senders: &Senders) -> bool
        requires { AreSenders senders.now past.now.history }
        ensures { result ≡ true → SameLiving self.now.config self.now.history past.now.config past.now.history }
    {
        same_living(&self.state, &self.senders, past.state(), senders)
    }
}
