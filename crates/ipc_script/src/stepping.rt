//! Steps whose answers are given themselves, and no copies of them.

ghost use Rattle.std.specs.Prelude.{◌≡◌, [], IfOk, OnErr, OnOk};
ghost use Rattle.ipc_policy.specs.Decides.Verdict.{after_event, answers};
ghost use Rattle.ipc_script.specs.Told.{told_list};

use ipc_core::{Config, Core, CoreFault};
use ipc_terms::{Answer, Event, NoMemory, Rule, Sid};
use std::alloc::Global;
use std::marker::Model;

/// A core from which each answer is taken with its step. It is seen as its core.
#[derive(Drop)]
pub struct Stepper {
    core: Core,
}

impl Model for Stepper {
    ghost use Rattle.ipc_core.specs.CoreView.{CoreView};
    ghost use Rattle.ipc_script.specs.Told.{AllTaken};

    ghost Value = { CoreView };

    ghost view = { λ a. a.core };

    ghost invariant = { λ a. AllTaken a.core.untaken };
}

/// What a session is answered, in order.
#[derive(Drop)]
pub struct Answered {
    pub sid: Sid,
    pub answers: Vec<Answer>,
}

/// What a step answers.
#[derive(Drop)]
pub enum Told {
    /// The event is refused, which is told to the session that it names.
    Refused(Sid, Rule),
    /// What is told to the session that is answered first, and then what is told to the other.
    Given(Answered, Answered),
}

impl Stepper {
    /// A core with an empty trail.
    pub fn new(alloc: Global, config: Config) -> Result<Stepper, CoreFault>
        ensures { IfOk result (λ made. made ≡ record { config = config; history = []; untaken = []; first = 0 }) }
    {
        let core = Core::new(alloc, config)?;
        Ok(Stepper { core })
    }

    /// The configuration that it was made with.
    pub fn config(&self) -> &Config
        ensures { result.now ≡ self.now.config }
    {
        self.core.config()
    }

    /// Makes the step, and gives what it answers. An `Err` changes nothing.
    pub fn step(&mut self, alloc: Global, event: Event) -> Result<Told, NoMemory>
        ensures answers { IfOk result (λ told. told_list told ≡ answers self.old.config self.old.history event) }
        ensures recorded { OnOk result (self.new.history ≡ after_event self.old.config self.old.history event) }
        ensures config { self.new.config ≡ self.old.config }
        ensures err { OnErr result (self.new ≡ self.old) }
    {
        self.core.is_legal();
        self.core.keeps_the_last();
        let named = event.caller();
        let posted = self.core.post(alloc, event)?;
        if let Some(rule) = posted.verdict {
            // A refusal of an event that no live session made stands in no outbox.
            self.core.clear(named);
            return Ok(Told::Refused(named, rule));
        }
        let caller = posted.caller.unwrap_or(Sid::NOBODY);
        let other = posted.other.unwrap_or(Sid::NOBODY);
        let first = self.core.take(caller);
        let second = self.core.take(other);
        Ok(Told::Given(
            Answered {
                sid: caller,
                answers: first,
            },
            Answered {
                sid: other,
                answers: second,
            },
        ))
    }
}
