//! What is kept of a run.

ghost use Rattle.std.specs.Prelude.{◌≡◌, ◌<◌, ◌+◌, ◌^◌, length, IfOk};
ghost use Rattle.tg_base.specs.Clusters.{IsHeader};
ghost use Rattle.tg_protocol.specs.Worlds as seen;
ghost use Rattle.tg_world.specs.Kept.{KeepsWorld};
ghost use Rattle.tg_any.specs.AllKinds.{all_kinds};
ghost use Rattle.space_time.specs.Records.{IsRecorded, Begins, StepsTo, happening_of};

use std::alloc::Global;
use tg_any::AnyKind;
use tg_base::{Cluster, List, NoMemory};
use tg_model::{Event, EventOf};
use tg_picture::{Happening, Step};
use tg_replay::{End, Run};
use tg_world::World;

/// A run, with the steps that were made, and the text of each event line.
pub struct Recording {
    pub run: Run,
    pub steps: List<Step>,
    pub lines: List<List<u8>>,
}

// By hand, since a derived drop is proved anew wherever a value is dropped.
impl Drop for Recording {
    fn drop(self) {
        let Recording {
            run: _,
            steps: _,
            lines: _,
        } = self;
    }
}

/// How reading ended, and what was recorded, if a header was read.
#[derive(Drop)]
pub struct Recorded {
    pub end: End,
    pub recording: Option<Recording>,
}

impl Recording {
    /// The world that a header opens. An `Err` is want of memory.
    #[tactic(auto, using(crate::proofs::Moving::opened))]
    pub(crate) fn start(alloc: Global, cluster: Cluster) -> Result<Recording, NoMemory>
        ensures lawful { IsHeader cluster }
        ensures cluster { IfOk result (λ r. r.run.cluster ≡ cluster) }
        ensures world { IfOk result (λ r. KeepsWorld all_kinds r.run.world (seen.start all_kinds cluster)) }
        ensures events { IfOk result (λ r. r.run.world.event ≡ 0) }
        ensures recorded { IfOk result IsRecorded }
    {
        cluster.rules();
        let world = World::start(alloc, &cluster)?;
        Ok(Recording {
            run: Run { cluster, world },
            steps: List::new(alloc),
            lines: List::new(alloc),
        })
    }

    /// The next event line begins. An `Err` is want of memory.
    pub(crate) fn begin(self, line: List<u8>) -> Result<Recording, NoMemory>
        requires recorded { IsRecorded self }
        requires room { self.run.world.event + 4 < 2 ^ 64 }
        ensures { IfOk result (Begins self) }
    {
        let Recording {
            run: Run { cluster, world },
            steps,
            mut lines,
        } = self;
        lines.push(line)?;
        Ok(Recording {
            run: Run {
                cluster,
                world: world.next_event(),
            },
            steps,
            lines,
        })
    }

    /// One step of the world, which is kept. An `Err` is want of memory, or of numbers.
    pub(crate) fn step(self, alloc: Global, event: EventOf<AnyKind>) -> Result<Recording, NoMemory>
        requires recorded { IsRecorded self }
        requires room { self.run.world.servers.steps < 200000 }
        ensures step { IfOk result (StepsTo self event) }
        ensures counts { IfOk result (λ r. r.run.world.servers.steps ≡ self.run.world.servers.steps + 1) }
    {
        let Recording {
            run: Run { cluster, world },
            mut steps,
            lines,
        } = self;
        let line = world.event();
        let happening = happening_of(&event);
        let world = world.step(alloc, event)?;
        steps.push(step_after(line, happening, &world))?;
        Ok(Recording {
            run: Run { cluster, world },
            steps,
            lines,
        })
    }
}

// A step, with what there is in the world that it has made.
fn step_after(line: u64, happening: Happening, world: &World<AnyKind>) -> Step
    ensures { (w : seen.World all_kinds) → KeepsWorld all_kinds world.now w → result ≡ record { line = line; happening = happening; sent = length w.packets; told = length (seen.trace all_kinds w) } }
{
    Step {
        line,
        happening,
        sent: world.sent(),
        told: world.trace().len() as u64,
    }
}

// What happens in an event.
fn happening_of(event: &EventOf<AnyKind>) -> Happening
    ensures { result ≡ happening_of event.now }
{
    match event {
        Event::Command { client, .. } => Happening::Given { client: *client },
        Event::Deliver { packet } => Happening::Came { packet: *packet },
        Event::Lose { packet } => Happening::Lost { packet: *packet },
        Event::Tick { node } => Happening::Ticked { node: *node },
        Event::Stop { node } => Happening::Stopped { node: *node },
    }
}
