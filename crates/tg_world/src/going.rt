//! The steps of one line of a script, as far as the limits allow.

ghost use Rattle.std.specs.Prelude.{◌≡◌, IfOk};
ghost use Rattle.tg_kind.specs.Of.{meaning_of};
ghost use Rattle.tg_model.specs.declared.command.Command.TheVariants as cmd;
ghost use Rattle.tg_model.specs.declared.command.Event.TheVariants as events;
ghost use Rattle.tg_protocol.specs.Worlds as seen;
ghost use Rattle.tg_world.specs.Kept.{IsWorld, KeepsWorld};
ghost use Rattle.tg_world.specs.Runs.{happens_on, puts_on, updates_on};

use crate::ran::Ran;
use crate::world::World;
use std::alloc::Global;
use tg_base::{NoMemory, Oid};
use tg_kind::Registry;
use tg_model::{Command, Event, EventOf};

/// One step more, unless a limit is reached. An `Err` is want of memory; nothing is left of the world then.
pub fn happens<K: Registry>(
    alloc: Global,
    world: World<K>,
    event: EventOf<K>,
) -> Result<Ran<K>, NoMemory>
    requires { IsWorld (meaning_of K.Registry) world }
    ensures world { (w : seen.World (meaning_of K.Registry)) → KeepsWorld (meaning_of K.Registry) world w → IfOk result (λ r. KeepsWorld (meaning_of K.Registry) r.world (happens_on (meaning_of K.Registry) w event).world) }
    ensures stopped { (w : seen.World (meaning_of K.Registry)) → KeepsWorld (meaning_of K.Registry) world w → IfOk result (λ r. r.stopped ≡ (happens_on (meaning_of K.Registry) w event).stopped) }
{
    match world.limit() {
        Some(which) => Ok(Ran {
            world,
            stopped: Some(which),
        }),
        None => {
            let world = world.step(alloc, event)?;
            Ok(Ran {
                world,
                stopped: None,
            })
        }
    }
}

/// Begin, put and end in a row, unless a limit is reached. An `Err` is want of memory; nothing is left of the world then.
pub fn updates<K: Registry>(
    alloc: Global,
    world: World<K>,
    client: u16,
    oid: Oid,
    op: K::Op,
) -> Result<Ran<K>, NoMemory>
    requires { IsWorld (meaning_of K.Registry) world }
    ensures world { (w : seen.World (meaning_of K.Registry)) → KeepsWorld (meaning_of K.Registry) world w → IfOk result (λ r. KeepsWorld (meaning_of K.Registry) r.world (updates_on (meaning_of K.Registry) w client oid op).world) }
    ensures stopped { (w : seen.World (meaning_of K.Registry)) → KeepsWorld (meaning_of K.Registry) world w → IfOk result (λ r. r.stopped ≡ (updates_on (meaning_of K.Registry) w client oid op).stopped) }
{
    let begin = Event::Command {
        client,
        cmd: Command::Begin,
    };
    let ran = happens(alloc, world, begin)?;
    match ran.stopped {
        Some(_) => Ok(ran),
        None => puts(alloc, ran.world, client, oid, op),
    }
}

// Put and end in a row, unless a limit is reached.
fn puts<K: Registry>(
    alloc: Global,
    world: World<K>,
    client: u16,
    oid: Oid,
    op: K::Op,
) -> Result<Ran<K>, NoMemory>
    requires { IsWorld (meaning_of K.Registry) world }
    ensures world { (w : seen.World (meaning_of K.Registry)) → KeepsWorld (meaning_of K.Registry) world w → IfOk result (λ r. KeepsWorld (meaning_of K.Registry) r.world (puts_on (meaning_of K.Registry) w client oid op).world) }
    ensures stopped { (w : seen.World (meaning_of K.Registry)) → KeepsWorld (meaning_of K.Registry) world w → IfOk result (λ r. r.stopped ≡ (puts_on (meaning_of K.Registry) w client oid op).stopped) }
{
    let put = Event::Command {
        client,
        cmd: Command::Put { oid, op },
    };
    let ran = happens(alloc, world, put)?;
    match ran.stopped {
        Some(_) => Ok(ran),
        None => ends(alloc, ran.world, client),
    }
}

// An end, unless a limit is reached.
fn ends<K: Registry>(alloc: Global, world: World<K>, client: u16) -> Result<Ran<K>, NoMemory>
    requires { IsWorld (meaning_of K.Registry) world }
    ensures world { (w : seen.World (meaning_of K.Registry)) → KeepsWorld (meaning_of K.Registry) world w → IfOk result (λ r. KeepsWorld (meaning_of K.Registry) r.world (happens_on (meaning_of K.Registry) w (events.Command client cmd.End)).world) }
    ensures stopped { (w : seen.World (meaning_of K.Registry)) → KeepsWorld (meaning_of K.Registry) world w → IfOk result (λ r. r.stopped ≡ (happens_on (meaning_of K.Registry) w (events.Command client cmd.End)).stopped) }
{
    let end = Event::Command {
        client,
        cmd: Command::End,
    };
    happens(alloc, world, end)
}
