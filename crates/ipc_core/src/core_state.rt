//! The core.

ghost use Rattle.std.specs.Prelude.{◌≡◌, ℕ, ◌≤◌, ◌+◌, min, ◌||◌, ◌++◌, [], None, IfOk, IfErr, OnOk, OnErr, filter, length, map, take, MatchOption};
ghost use Rattle.std.specs.Option.{option_map, option_to_list};
ghost use Rattle.ipc_terms.specs.Timed.{plain};
ghost use Rattle.ipc_policy.specs.Decides.Bodies.{due};
ghost use Rattle.ipc_policy.specs.Decides.Rules.{would_park};
ghost use Rattle.ipc_state.specs.OnTime.{ended_call};
ghost use Rattle.ipc_state.specs.NextDeadline.{IsNextDeadline, EndsOncePast};
ghost use Rattle.ipc_terms.specs.Lists.{changed};
ghost use Rattle.ipc_core.specs.Boxes.{box_at, taken};
ghost use Rattle.ipc_policy.specs.Decides.Sessions.{hellos, live};
ghost use Rattle.ipc_policy.specs.Decides.Verdict.{verdict, answers, Legal, all_answers};
ghost use Rattle.ipc_core.specs.Outboxes.{BoxesAgree, starts, told_list, session_at, after_step, after_steps};
ghost use Rattle.ipc_state.specs.Meetings.{by_description, by_name, object_by, object_bound};
ghost use Rattle.ipc_state.specs.Ranges.{first_bad};

use crate::answer::{Posted, Told, answers_to};
use crate::fault::CoreFault;
use crate::outboxes::Outboxes;
use crate::posting::{for_live, hung_up, make_room, put_all, starts};
use ipc_policy::Config;
use ipc_rules::decide;
use ipc_state::{Lookup, Meant, State, first_bad};
use ipc_terms::{Answer, Event, NoMemory, Rule, Sid};
use ipc_trail::Trail;
use std::alloc::Global;
use std::marker::Model;

/// Decides on events by what came before, does what is accepted, and keeps the record of all, and
/// of each session the answers that were not taken yet.
pub struct Core {
    state: State,
    outboxes: Outboxes,
}

// Called, so that it isn't written out and proved at each exit of a function.
impl Drop for Core {
    fn drop(self) {
        let Core {
            state: _state,
            outboxes: _outboxes,
        } = self;
    }
}

impl Model for Core {
    ghost use Rattle.ipc_core.specs.CoreView.{CoreView};

    ghost Value = { CoreView };

    ghost use Rattle.ipc_policy.specs.Decides.Sessions.{hellos};
    ghost use Rattle.ipc_core.specs.Boxes.{of_first, untaken_by};
    ghost use Rattle.ipc_core.specs.Outboxes.{Stand};

    ghost view = { λ a. record { config = a.state.config; history = a.state.history; untaken = of_first (hellos a.state.history) (untaken_by a.outboxes); first = a.state.first } };

    ghost invariant = { λ a. Stand a.state.config a.state.history (untaken_by a.outboxes) };
}

/// What the event is answered where this is the verdict on it, and copies of it in a list.
fn told_with_copies(
    lookup: &Lookup<'_>,
    alloc: Global,
    rule: Option<Rule>,
) -> Result<(Told, Vec<(Sid, Answer)>), NoMemory>
    requires { rule ≡ verdict lookup.now.config lookup.now.history lookup.now.event }
    ensures told { IfOk result (λ pair. told_list pair.0 ≡ answers lookup.now.config lookup.now.history lookup.now.event) }
    ensures given { IfOk result (λ pair. pair.1.items ≡ answers lookup.now.config lookup.now.history lookup.now.event) }
{
    let told = answers_to(lookup, alloc, rule)?;
    let given = told.copies(alloc)?;
    Ok((told, given))
}

/// What the event would be answered by a core with this state, and to whom. Nothing changes. An audit that begins before the
/// oldest record that is kept finds no memory.
pub fn answers_of(
    state: &State,
    alloc: Global,
    event: &Event,
) -> Result<Vec<(Sid, Answer)>, NoMemory>
    ensures { IfOk result (λ given. given.items ≡ answers state.now.config state.now.history event.now) }
{
    let lookup = Lookup::new(state, event);
    let rule = decide(&lookup);
    let (_told, given) = told_with_copies(&lookup, alloc, rule)?;
    Ok(given)
}

impl Core {
    /// A core with an empty trail, or the first limit that is out of its range, in the order
    /// `msg_max`, `msgsize_max`, `queues_max`. An `Err` drops the configuration.
    pub fn new(alloc: Global, config: Config) -> Result<Core, CoreFault>
        ensures ok { IfOk result (λ core. core ≡ record { config = config; history = []; untaken = []; first = 0 }) }
        ensures in_range { OnOk result (first_bad config.limits ≡ None) }
        ensures bad { IfErr result (λ fault. MatchOption (first_bad config.limits) (fault ≡ CoreFault.NoMemory) (λ field. fault ≡ CoreFault.BadConfig field)) }
    {
        if let Some(field) = first_bad(&config.limits) {
            return Err(CoreFault::BadConfig(field));
        }
        Ok(Core {
            state: State::new(alloc, config)?,
            outboxes: Outboxes::new(alloc),
        })
    }

    /// A core that goes on from a state. Nothing is untaken, whoever was answered what. Takes no memory.
    pub fn of_state(alloc: Global, state: State) -> Core
        ensures config { result.config ≡ state.config }
        ensures history { result.history ≡ state.history }
        ensures first { result.first ≡ state.first }
        ensures nothing { (s : ℕ) → box_at result.untaken s ≡ [] }
    {
        Core {
            state,
            outboxes: Outboxes::new(alloc),
        }
    }

    /// The configuration that the core was made with.
    pub fn config(&self) -> &Config
        ensures { result.now ≡ self.now.config }
    {
        self.state.config()
    }

    /// What there is after the events so far.
    pub fn state(&self) -> &State
        ensures config { result.now.config ≡ self.now.config }
        ensures history { result.now.history ≡ self.now.history }
        ensures first { result.now.first ≡ self.now.first }
    {
        &self.state
    }

    /// Every event so far with its verdict, but for the records that were forgotten.
    #[inline(always)]
    pub fn trail(&self) -> &Trail
        ensures history { result.now.history ≡ self.now.history }
        ensures first { result.now.first ≡ self.now.first }
    {
        self.state.trail()
    }

    /// Forgets the oldest record that it has, if it has one, and changes nothing else: each later event is decided on and
    /// answered as before, but for an audit that begins before the oldest record that is left, which finds no memory. Takes
    /// no memory.
    #[inline(always)]
    pub fn forget_one(&mut self)
        ensures { self.new ≡ record self.old { first = min (self.old.first + 1) (length self.old.history) } }
    {
        self.state.forget_one();
    }

    /// The trail is legal: at every place the record's rule is the policy's verdict on its event
    /// after what came before. The limits are in their ranges. Does nothing; facts of every core.
    pub fn is_legal(&self)
        ensures legal { Legal self.now.config self.now.history }
        ensures in_range { first_bad self.now.config.limits ≡ None }
    {
        self.state.is_legal();
    }

    /// How many sessions ever started.
    pub fn sessions(&self) -> usize
        ensures { result ≡ hellos self.now.history }
    {
        self.state.tables().session_count()
    }

    /// The rule of the lowest number that forbids the event, if one does. Takes no memory.
    pub fn decide(&self, event: &Event) -> Option<Rule>
        ensures { result ≡ verdict self.now.config self.now.history event.now }
    {
        decide(&Lookup::new(&self.state, event))
    }

    /// The session whose call a tick of this moment ends, if there is one. Takes no memory.
    pub fn due(&self, moment: u64) -> Option<Sid>
        ensures { option_map (λ s. s.0) result ≡ due self.now.config self.now.history moment }
    {
        self.state.due(moment)
    }

    /// The least deadline of the calls that are parked, if one of them has one. A tick ends a call exactly where it is past.
    /// Takes no memory.
    pub fn least_deadline(&self) -> Option<u64>
        ensures least { IsNextDeadline self.now.config self.now.history result }
        ensures due { EndsOncePast self.now.config self.now.history result }
    {
        self.state.least_deadline()
    }

    /// The answers that the session has not taken yet, in order; nothing, where there is no such
    /// session. Takes no memory.
    pub fn answers(&self, sid: Sid) -> &[Answer]
        ensures { result.now ≡ box_at self.now.untaken sid.0 }
    {
        self.outboxes.get(sid)
    }

    /// How many answers the session has not taken yet. Takes no memory.
    pub fn waiting(&self, sid: Sid) -> usize
        ensures { result ≡ length (box_at self.now.untaken sid.0) }
    {
        self.answers(sid).len()
    }

    /// Gives the answers that the session has not taken yet, in order, and leaves none. Takes no
    /// memory.
    pub fn take(&mut self, sid: Sid) -> Vec<Answer>
        ensures given { result.items ≡ box_at self.old.untaken sid.0 }
        ensures left { self.new ≡ record self.old { untaken = changed taken self.old.untaken sid.0 } }
    {
        self.outboxes.take(sid)
    }

    /// Leaves no untaken answers of the session, as `take` does. Takes no memory.
    pub fn clear(&mut self, sid: Sid)
        ensures { self.new ≡ record self.old { untaken = changed taken self.old.untaken sid.0 } }
    {
        self.outboxes.clear(sid);
    }

    /// Each session has an outbox, and what is untaken is the last of all that it was answered while
    /// it was live. Does nothing; a fact of every core.
    pub fn keeps_the_last(&self)
        ensures { BoxesAgree self.now.config self.now.history self.now.untaken }
    {
        let _state = &self.state;
    }

    /// One event: the verdict on it is recorded with it, and it is answered. What is answered to a
    /// session that is live then also stands at the end of its untaken answers. An `Err` changes
    /// nothing, records nothing, and drops the event.
    pub fn step(&mut self, alloc: Global, event: Event) -> Result<Vec<(Sid, Answer)>, NoMemory>
        ensures answers { IfOk result (λ given. given.items ≡ answers self.old.config self.old.history event) }
        ensures ok { OnOk result (self.new ≡ after_step event self.old) }
        ensures err { OnErr result (self.new ≡ self.old) }
    {
        let lookup = Lookup::new(&self.state, &event);
        let rule = decide(&lookup);
        let (told, given) = told_with_copies(&lookup, alloc, rule)?;
        let told = for_live(told, &lookup, starts(rule, &event));
        let meant = lookup.meant();
        self.commit(alloc, event, rule, meant, told)?;
        Ok(given)
    }

    /// Steps the event as `step` does, and makes no second copy of the answers: those to live sessions
    /// stand in their untaken answers alone. The result says who was answered, and whether the event was
    /// refused. A refusal of an event that no live session made stands nowhere. An `Err` changes nothing,
    /// records nothing, and drops the event.
    pub fn post(&mut self, alloc: Global, event: Event) -> Result<Posted, NoMemory>
        ensures verdict { IfOk result (λ posted. posted.verdict ≡ verdict self.old.config self.old.history event) }
        ensures caller { IfOk result (λ posted. posted.caller ≡ session_at 0 (answers self.old.config self.old.history event)) }
        ensures other { IfOk result (λ posted. posted.other ≡ session_at 1 (answers self.old.config self.old.history event)) }
        ensures sessions { IfOk result (λ posted. option_to_list posted.caller ++ option_to_list posted.other ≡ map (λ p. p.0) (answers self.old.config self.old.history event)) }
        ensures ok { OnOk result (self.new ≡ after_step event self.old) }
        ensures err { OnErr result (self.new ≡ self.old) }
    {
        let lookup = Lookup::new(&self.state, &event);
        let verdict = decide(&lookup);
        let told = answers_to(&lookup, alloc, verdict)?;
        let posted = Posted {
            verdict,
            caller: told.caller(),
            other: told.other(),
        };
        let told = for_live(told, &lookup, starts(verdict, &event));
        let meant = lookup.meant();
        self.commit(alloc, event, verdict, meant, told)?;
        Ok(posted)
    }

    /// Records the event with its verdict, does what is accepted to the objects that it means, and puts
    /// what is answered to sessions that are live into outboxes. An `Err` changes nothing, and drops the
    /// event.
    #[inline(always)]
    fn commit(
        &mut self,
        alloc: Global,
        event: Event,
        rule: Option<Rule>,
        meant: Meant,
        told: Told,
    ) -> Result<(), NoMemory>
        requires verdict { rule ≡ verdict self.old.config self.old.history event }
        requires held { meant.held ≡ by_description (object_by self.old.history) event }
        requires bound { meant.bound ≡ by_name (object_bound self.old.history) event }
        requires ended { verdict self.old.config self.old.history event ≡ None → option_map (λ s. s.0) meant.ended ≡ ended_call self.old.config self.old.history (plain event) }
        requires parks { meant.parks ≡ would_park self.old.config self.old.history (plain event) }
        requires answers { told_list told ≡ filter (λ p. starts rule event || live self.old.history p.0.0) (answers self.old.config self.old.history event) }
        ensures ok { OnOk result (self.new ≡ after_step event self.old) }
        ensures err { OnErr result (self.new ≡ self.old) }
    {
        let hung_up = hung_up(rule, &event);
        make_room(&mut self.outboxes, &told)?;
        self.state.add(alloc, event, rule, meant)?;
        put_all(&mut self.outboxes, told, hung_up);
        Ok(())
    }

    /// Steps each event in order. Where a growth is refused, the number says how many events stand;
    /// those after them, and the answers so far, are dropped.
    pub fn run(
        &mut self,
        alloc: Global,
        events: Vec<Event>,
    ) -> Result<Vec<Vec<(Sid, Answer)>>, (usize, NoMemory)>
        ensures answers { IfOk result (λ given. map (λ v. v.items) given.items ≡ all_answers self.old.config self.old.history events.items) }
        ensures ok { OnOk result (self.new ≡ after_steps events.items self.old) }
        ensures err { IfErr result (λ fault. self.new ≡ after_steps (take fault.0 events.items) self.old) }
        ensures count { IfErr result (λ fault. fault.0 ≤ length events.items) }
    {
        let mut given = Vec::new(alloc);
        let mut stand = 0;
        for event in events {
            match self.step(alloc, event) {
                Ok(told) => {
                    stand += 1;
                    if given.push(told).is_err() {
                        return Err((stand, NoMemory));
                    }
                }
                Err(fault) => return Err((stand, fault)),
            }
        }
        Ok(given)
    }
}
