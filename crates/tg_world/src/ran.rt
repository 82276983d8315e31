//! Several steps: deliveries until no packet waits, and rounds of ticks.

ghost use Rattle.std.specs.Prelude.{◌≡◌, ◌<◌, ◌≤◌, ◌+◌, IfOk, IsSome};
ghost use Rattle.tg_kind.specs.Of.{meaning_of};
ghost use Rattle.tg_protocol.specs.Worlds as seen;
ghost use Rattle.tg_world.specs.Kept.{IsWorld, KeepsWorld};
ghost use Rattle.tg_world.specs.Runs.{due_of, end_of};

use crate::world::World;
use std::alloc::Global;
use tg_base::{NoMemory, NodeId, Which};
use tg_kind::Registry;
use tg_model::Event;

/// How many rounds of ticks a settling makes at most.
const ROUNDS: u8 = 8;

/// A world after several steps, and the limit that stopped them, if one did.
#[derive(Drop)]
pub struct Ran<K: Registry> {
    pub world: World<K>,
    pub stopped: Option<Which>,
}

/// Deliveries, each of the lowest packet that was neither delivered nor lost, until there is none or a limit is
/// reached. An `Err` is want of memory; nothing is left of the world then.
pub fn drain<K: Registry>(alloc: Global, world: World<K>) -> Result<Ran<K>, NoMemory>
    requires { IsWorld (meaning_of K.Registry) world }
    ensures world { (w : seen.World (meaning_of K.Registry)) → KeepsWorld (meaning_of K.Registry) world w → IfOk result (λ r. KeepsWorld (meaning_of K.Registry) r.world (seen.drain (meaning_of K.Registry) w).world) }
    ensures stopped { (w : seen.World (meaning_of K.Registry)) → KeepsWorld (meaning_of K.Registry) world w → IfOk result (λ r. r.stopped ≡ (seen.drain (meaning_of K.Registry) w).stopped) }
{
    world.rules();
    let mut left = world;
    while let Some(packet) = left.due() {
        left = left.step(alloc, Event::Deliver { packet })?;
    }
    let stopped = left.end();
    Ok(Ran {
        world: left,
        stopped,
    })
}

/// A drain, and then up to eight rounds, each one tick of every running node in order and a drain; a round whose ticks
/// sent nothing is the last. A limit ends it. An `Err` is want of memory; nothing is left of the world then.
pub fn settle<K: Registry>(alloc: Global, world: World<K>) -> Result<Ran<K>, NoMemory>
    requires { IsWorld (meaning_of K.Registry) world }
    ensures world { (w : seen.World (meaning_of K.Registry)) → KeepsWorld (meaning_of K.Registry) world w → IfOk result (λ r. KeepsWorld (meaning_of K.Registry) r.world (seen.settle (meaning_of K.Registry) w).world) }
    ensures stopped { (w : seen.World (meaning_of K.Registry)) → KeepsWorld (meaning_of K.Registry) world w → IfOk result (λ r. r.stopped ≡ (seen.settle (meaning_of K.Registry) w).stopped) }
{
    let ran = drain(alloc, world)?;
    match ran.stopped {
        Some(_) => Ok(ran),
        None => rounds(alloc, ran.world, ROUNDS),
    }
}

// So many rounds at most.
fn rounds<K: Registry>(alloc: Global, world: World<K>, left: u8) -> Result<Ran<K>, NoMemory>
    requires { IsWorld (meaning_of K.Registry) world }
    ensures world { (w : seen.World (meaning_of K.Registry)) → KeepsWorld (meaning_of K.Registry) world w → IfOk result (λ r. KeepsWorld (meaning_of K.Registry) r.world (seen.rounds (meaning_of K.Registry) left w).world) }
    ensures stopped { (w : seen.World (meaning_of K.Registry)) → KeepsWorld (meaning_of K.Registry) world w → IfOk result (λ r. r.stopped ≡ (seen.rounds (meaning_of K.Registry) left w).stopped) }
{
    if left == 0 {
        return Ok(Ran {
            world,
            stopped: None,
        });
    }
    let sent = world.sent();
    let nodes = world.nodes(alloc)?;
    let ran = tick_all(alloc, world, nodes.as_slice())?;
    if ran.stopped.is_some() {
        return Ok(ran);
    }
    let idle = ran.world.sent() == sent;
    let ran = drain(alloc, ran.world)?;
    if idle || ran.stopped.is_some() {
        return Ok(ran);
    }
    rounds(alloc, ran.world, left - 1)
}

// One tick of each of these nodes that runs.
fn tick_all<K: Registry>(
    alloc: Global,
    world: World<K>,
    nodes: &[NodeId],
) -> Result<Ran<K>, NoMemory>
    requires { IsWorld (meaning_of K.Registry) world }
    ensures world { (w : seen.World (meaning_of K.Registry)) → KeepsWorld (meaning_of K.Registry) world w → IfOk result (λ r. KeepsWorld (meaning_of K.Registry) r.world (seen.tick_all (meaning_of K.Registry) nodes.now w).world) }
    ensures stopped { (w : seen.World (meaning_of K.Registry)) → KeepsWorld (meaning_of K.Registry) world w → IfOk result (λ r. r.stopped ≡ (seen.tick_all (meaning_of K.Registry) nodes.now w).stopped) }
{
    match nodes {
        [] => Ok(Ran {
            world,
            stopped: None,
        }),
        [node, others @ ..] => {
            if !world.runs(*node) {
                return tick_all(alloc, world, others);
            }
            match world.limit() {
                Some(which) => Ok(Ran {
                    world,
                    stopped: Some(which),
                }),
                None => {
                    let world = world.step(alloc, Event::Tick { node: *node })?;
                    tick_all(alloc, world, others)
                }
            }
        }
    }
}
