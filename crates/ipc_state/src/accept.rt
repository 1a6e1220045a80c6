//! What an accepted event does to the tables.

ghost use Rattle.std.specs.Prelude.{◌≡◌, true, false, ◌+◌, ◌^◌, ◌<◌, ◌∷◌, length, Some, None, IsSome, OnOk, OnErr};
ghost use Rattle.ipc_terms.specs.declared.record.Event.TheVariants.{Hello, Do, Hangup, Tick};
ghost use Rattle.ipc_terms.specs.declared.call.Call.TheVariants.{Umask, MqSetattr, MqGive, SetLimit, Interrupt};
ghost use Rattle.std.specs.Option.{option_map};
ghost use Rattle.ipc_terms.specs.Timed.{plain, plain_call};
ghost use Rattle.ipc_policy.specs.Decides.Bodies.{due};
ghost use Rattle.ipc_policy.specs.Decides.History.{after_accepted};
ghost use Rattle.ipc_policy.specs.Decides.Names.{opening, nonblock_asked};
ghost use Rattle.ipc_policy.specs.Decides.Objects.{made_by, first_facts};
ghost use Rattle.ipc_policy.specs.Decides.Rules.{described};
ghost use Rattle.ipc_policy.specs.Decides.Verdict.{verdict};
ghost use Rattle.ipc_state.specs.Agrees.{Agrees, IsCore};
ghost use Rattle.ipc_state.specs.Meetings.{by_description, by_name, object_by, object_bound};
ghost use Rattle.ipc_state.specs.OnTime.{ended_call};
ghost use Rattle.ipc_state.specs.Memory.{takes_memory};
ghost use Rattle.ipc_state.specs.Waiting.{sent_message, is_receive, is_wait};

use crate::changing::accept_change;
use crate::lookup::Meant;
use bitflags::Flags;
use ipc_access::Cred;
use ipc_policy::{Config, Opening, kind_of, opening_of};
use ipc_tables::{Grant, Tables};
use ipc_terms::{
    Asked, Bytes, Call, Desc, Event, Facts, Family, Mode, NoMemory, Object, OpenFlags, Rule, Sid,
    Uid,
};
use ipc_trail::Trail;
use std::alloc::Global;

/// Brings the tables up to date with an event after this past, which is accepted. An `Err` changes nothing.
pub fn accept(
    alloc: Global,
    tables: &mut Tables,
    config: &Config,
    past: &Trail,
    event: &Event,
    meant: Meant,
) -> Result<(), NoMemory>
    requires core { IsCore config.now past.now.history tables.old }
    requires accepted { verdict config.now past.now.history event.now ≡ None }
    requires held { meant.held ≡ by_description (object_by past.now.history) event.now }
    requires bound { meant.bound ≡ by_name (object_bound past.now.history) event.now }
    requires ended { verdict config.now past.now.history event.now ≡ None → option_map (λ s. s.0) meant.ended ≡ ended_call config.now past.now.history (plain event.now) }
    requires room { length past.now.history + 1 < 2 ^ 63 }
    ensures ok { OnOk result (Agrees config.now (after_accepted past.now.history event.now) tables.new) }
    ensures err { OnErr result (tables.new ≡ tables.old) }
{
    match event {
        Event::Hello { found } => accept_hello(tables, config, past, *found),
        Event::Do { sid, call } => match call {
            Call::MqOpen(_) | Call::SemOpen(_) => {
                accept_open(alloc, tables, config, past, event, meant.bound)
            }
            Call::MqSend {
                priority,
                bytes,
                ..
            } => accept_send(
                tables, config, past, *sid, call, *priority, bytes, meant.held,
            ),
            Call::MqReceive { .. } => accept_receive(tables, config, past, *sid, call, meant.held),
            Call::SemWait(_) => accept_wait(tables, config, past, *sid, call, meant.held),
            Call::MqTimedSend {
                priority,
                bytes,
                ..
            } => accept_send(
                tables, config, past, *sid, call, *priority, bytes, meant.held,
            ),
            Call::MqGive { desc, taker } => {
                accept_give(tables, config, past, *sid, *desc, *taker, meant.held)
            }
            Call::MqTimedReceive { .. } => {
                accept_receive(tables, config, past, *sid, call, meant.held)
            }
            Call::SemTimedWait { .. } => accept_wait(tables, config, past, *sid, call, meant.held),
            _ => {
                accept_in_place(tables, config, past, *sid, call, meant);
                Ok(())
            }
        },
        Event::Hangup { sid } => {
            accept_hangup(tables, config, past, *sid);
            Ok(())
        }
        Event::Tick { moment } => {
            accept_tick(tables, config, past, *moment, meant.ended);
            Ok(())
        }
    }
}

/// Brings the tables up to date with a send that is accepted, with a deadline or without.
fn accept_send(
    tables: &mut Tables,
    config: &Config,
    past: &Trail,
    sid: Sid,
    call: &Call,
    priority: u32,
    bytes: &Bytes,
    held: Option<u64>,
) -> Result<(), NoMemory>
    requires sends { sent_message (plain_call call.now) ≡ Some (record { priority = priority; bytes = bytes.now }) }
    requires core { IsCore config.now past.now.history tables.old }
    requires accepted { verdict config.now past.now.history (Do sid call.now) ≡ None }
    requires held { held ≡ by_description (object_by past.now.history) (Do sid call.now) }
    requires room { length past.now.history + 1 < 2 ^ 63 }
    ensures ok { OnOk result (Agrees config.now (after_accepted past.now.history (Do sid call.now)) tables.new) }
    ensures err { OnErr result (tables.new ≡ tables.old) }
{
    let object = object_held(config, past, sid, call, held);
    tables.send(object, past.len() as u64, priority, bytes, sid)?;
    Ok(())
}

/// The same with a receive.
fn accept_receive(
    tables: &mut Tables,
    config: &Config,
    past: &Trail,
    sid: Sid,
    call: &Call,
    held: Option<u64>,
) -> Result<(), NoMemory>
    requires receives { is_receive (plain_call call.now) ≡ true }
    requires core { IsCore config.now past.now.history tables.old }
    requires accepted { verdict config.now past.now.history (Do sid call.now) ≡ None }
    requires held { held ≡ by_description (object_by past.now.history) (Do sid call.now) }
    ensures ok { OnOk result (Agrees config.now (after_accepted past.now.history (Do sid call.now)) tables.new) }
    ensures err { OnErr result (tables.new ≡ tables.old) }
{
    tables.receive(object_held(config, past, sid, call, held), sid)?;
    Ok(())
}

/// The same with a wait for a semaphore.
fn accept_wait(
    tables: &mut Tables,
    config: &Config,
    past: &Trail,
    sid: Sid,
    call: &Call,
    held: Option<u64>,
) -> Result<(), NoMemory>
    requires waits { is_wait (plain_call call.now) ≡ true }
    requires core { IsCore config.now past.now.history tables.old }
    requires accepted { verdict config.now past.now.history (Do sid call.now) ≡ None }
    requires held { held ≡ by_description (object_by past.now.history) (Do sid call.now) }
    ensures ok { OnOk result (Agrees config.now (after_accepted past.now.history (Do sid call.now)) tables.new) }
    ensures err { OnErr result (tables.new ≡ tables.old) }
{
    tables.wait(object_held(config, past, sid, call, held), sid)?;
    Ok(())
}

/// The same with a call that never takes memory.
fn accept_in_place(
    tables: &mut Tables,
    config: &Config,
    past: &Trail,
    sid: Sid,
    call: &Call,
    meant: Meant,
)
    requires in_place { takes_memory call.now ≡ false }
    requires core { IsCore config.now past.now.history tables.old }
    requires accepted { verdict config.now past.now.history (Do sid call.now) ≡ None }
    requires held { meant.held ≡ by_description (object_by past.now.history) (Do sid call.now) }
    requires bound { meant.bound ≡ by_name (object_bound past.now.history) (Do sid call.now) }
    ensures { Agrees config.now (after_accepted past.now.history (Do sid call.now)) tables.new }
{
    match call {
        Call::Umask(mask) => accept_umask(tables, config, past, sid, *mask),
        Call::MqSetattr { desc, nonblock } => {
            accept_setattr(tables, config, past, sid, *desc, *nonblock);
        }
        Call::MqNotify { desc, on } => {
            let object = object_held(config, past, sid, call, meant.held);
            tables.set_registered(object, *desc, *on);
        }
        Call::SemPost(_) => tables.post(object_held(config, past, sid, call, meant.held)),
        Call::SemTryWait(_) => tables.try_wait(object_held(config, past, sid, call, meant.held)),
        Call::MqClose(desc) => tables.close(sid, *desc),
        Call::SemClose(desc) => tables.close(sid, *desc),
        Call::MqUnlink(name) => tables.unlink(Family::Mq, name),
        Call::SemUnlink(name) => tables.unlink(Family::Sem, name),
        Call::Interrupt => accept_interrupt(tables, config, past, sid),
        Call::Chmod { target, .. } => {
            accept_change(tables, config, past, sid, call, target, meant.bound);
        }
        Call::Chown { target, .. } => {
            accept_change(tables, config, past, sid, call, target, meant.bound);
        }
        Call::MqGetattr(_) => {}
        Call::SetLimit { uid, bytes } => accept_limit(tables, config, past, sid, *uid, *bytes),
        Call::SemGetvalue(_) => {}
        Call::ListNames { .. } => {}
        Call::StatName(_) => {}
        Call::Audit { .. } => {}
        Call::MqOpen(_)
        | Call::SemOpen(_)
        | Call::MqSend { .. }
        | Call::MqReceive { .. }
        | Call::MqGive { .. }
        | Call::SemWait(_)
        | Call::MqTimedSend { .. }
        | Call::MqTimedReceive { .. }
        | Call::SemTimedWait { .. } => unreachable!(),
    }
}

/// The object that the session has by the description that its call names, which is accepted.
fn object_held(config: &Config, past: &Trail, sid: Sid, call: &Call, held: Option<u64>) -> u64
    requires named { IsSome (described call.now) }
    requires accepted { verdict config.now past.now.history (Do sid call.now) ≡ None }
    requires held { held ≡ by_description (object_by past.now.history) (Do sid call.now) }
    ensures { held ≡ Some result }
{
    let Some(object) = held else {
        unreachable!();
    };
    object
}

fn accept_hello(
    tables: &mut Tables,
    config: &Config,
    past: &Trail,
    found: Option<Uid>,
) -> Result<(), NoMemory>
    requires core { IsCore config.now past.now.history tables.old }
    requires accepted { verdict config.now past.now.history (Hello found) ≡ None }
    ensures ok { OnOk result (Agrees config.now (after_accepted past.now.history (Hello found)) tables.new) }
    ensures err { OnErr result (tables.new ≡ tables.old) }
{
    match found {
        Some(uid) => {
            tables.start_session(uid)?;
            Ok(())
        }
        None => unreachable!(),
    }
}

fn accept_umask(tables: &mut Tables, config: &Config, past: &Trail, sid: Sid, mask: Mode)
    requires core { IsCore config.now past.now.history tables.old }
    requires accepted { verdict config.now past.now.history (Do sid (Umask mask)) ≡ None }
    ensures { Agrees config.now (after_accepted past.now.history (Do sid (Umask mask))) tables.new }
{
    tables.set_mask(sid, Mode(mask.0 % 0o1000));
}

fn accept_setattr(
    tables: &mut Tables,
    config: &Config,
    past: &Trail,
    sid: Sid,
    desc: Desc,
    nonblock: bool,
)
    requires core { IsCore config.now past.now.history tables.old }
    requires accepted { verdict config.now past.now.history (Do sid (MqSetattr desc nonblock)) ≡ None }
    ensures { Agrees config.now (after_accepted past.now.history (Do sid (MqSetattr desc nonblock))) tables.new }
{
    tables.set_nonblock(sid, desc, nonblock);
}

fn accept_give(
    tables: &mut Tables,
    config: &Config,
    past: &Trail,
    sid: Sid,
    desc: Desc,
    taker: Sid,
    held: Option<u64>,
) -> Result<(), NoMemory>
    requires core { IsCore config.now past.now.history tables.old }
    requires accepted { verdict config.now past.now.history (Do sid (MqGive desc taker)) ≡ None }
    requires held { held ≡ by_description (object_by past.now.history) (Do sid (MqGive desc taker)) }
    ensures ok { OnOk result (Agrees config.now (after_accepted past.now.history (Do sid (MqGive desc taker))) tables.new) }
    ensures err { OnErr result (tables.new ≡ tables.old) }
{
    let Some(object) = held else {
        unreachable!();
    };
    tables.hand_over(sid, desc, taker)?;
    tables.set_registered(object, desc, false);
    Ok(())
}

fn accept_limit(tables: &mut Tables, config: &Config, past: &Trail, sid: Sid, uid: Uid, bytes: u64)
    requires core { IsCore config.now past.now.history tables.old }
    requires accepted { verdict config.now past.now.history (Do sid (SetLimit uid bytes)) ≡ None }
    ensures { Agrees config.now (after_accepted past.now.history (Do sid (SetLimit uid bytes))) tables.new }
{
    tables.set_limit(uid, bytes);
}

fn accept_interrupt(tables: &mut Tables, config: &Config, past: &Trail, sid: Sid)
    requires core { IsCore config.now past.now.history tables.old }
    requires accepted { verdict config.now past.now.history (Do sid Interrupt) ≡ None }
    ensures { Agrees config.now (after_accepted past.now.history (Do sid Interrupt)) tables.new }
{
    tables.withdraw(sid);
}

fn accept_hangup(tables: &mut Tables, config: &Config, past: &Trail, sid: Sid)
    requires core { IsCore config.now past.now.history tables.old }
    requires accepted { verdict config.now past.now.history (Hangup sid) ≡ None }
    ensures { Agrees config.now (after_accepted past.now.history (Hangup sid)) tables.new }
{
    tables.end_session(sid);
}

/// A tick ends the call of the session that is due, if one is.
fn accept_tick(tables: &mut Tables, config: &Config, past: &Trail, moment: u64, gone: Option<Sid>)
    requires core { IsCore config.now past.now.history tables.old }
    requires due { option_map (λ s. s.0) gone ≡ due config.now past.now.history moment }
    ensures { Agrees config.now (after_accepted past.now.history (Tick moment)) tables.new }
{
    let Some(sid) = gone else {
        return;
    };
    tables.withdraw(sid);
}

fn accept_open(
    alloc: Global,
    tables: &mut Tables,
    config: &Config,
    past: &Trail,
    event: &Event,
    bound: Option<u64>,
) -> Result<(), NoMemory>
    requires opens { IsSome (opening event.now) }
    requires core { IsCore config.now past.now.history tables.old }
    requires accepted { verdict config.now past.now.history event.now ≡ None }
    requires bound { bound ≡ by_name (object_bound past.now.history) event.now }
    requires room { length past.now.history + 1 < 2 ^ 63 }
    ensures ok { OnOk result (Agrees config.now (after_accepted past.now.history event.now) tables.new) }
    ensures err { OnErr result (tables.new ≡ tables.old) }
{
    let Some(asked) = opening_of(event) else {
        unreachable!();
    };
    let grant = grant_of(&asked);
    if let Some(object) = bound {
        tables.open_found(grant, object)?;
        return Ok(());
    }
    let Some(session) = tables.session(asked.session) else {
        unreachable!();
    };
    let Some(who) = config.users.cred(session.user) else {
        unreachable!();
    };
    let object = new_object(config, &asked, who);
    let facts = new_facts(&asked, session.mask, who);
    tables.open_created(alloc, grant, asked.name, object, facts)?;
    Ok(())
}

/// Who opens, and what the description gives besides the object.
fn grant_of(asked: &Opening) -> Grant
    ensures { result ≡ record { session = asked.now.session; access = asked.now.access; nonblock = nonblock_asked asked.now.kind asked.now.flags } }
{
    let nonblock = match asked.kind {
        Asked::Queue(_) => asked.flags.contains(OpenFlags::NONBLOCK),
        Asked::Semaphore(_) => false,
    };
    Grant {
        session: asked.session,
        access: asked.access,
        nonblock,
    }
}

/// What a creating open fixes.
fn new_object(config: &Config, asked: &Opening, who: &Cred) -> Object
    ensures { result ≡ made_by config.now asked.now who.now }
{
    Object {
        creator: who.uid,
        kind: kind_of(config, asked.kind),
    }
}

/// The first owner, group and mode of what a creating open makes.
fn new_facts(asked: &Opening, mask: Mode, who: &Cred) -> Facts
    requires { mask.0 < 512 }
    ensures { result ≡ first_facts asked.now mask.0 who.now }
{
    Facts {
        owner: who.uid,
        group: who.gid,
        mode: Mode(asked.mode.0 % 0o1000 & (0o777 - mask.0)),
    }
}
