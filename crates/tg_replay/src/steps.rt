//! The run of a script, line by line.

ghost use Rattle.std.specs.Prelude.{◌≡◌, ◌<◌, ◌++◌, ◌+◌, ◌-◌, ◌^◌, ℕ, List, [], ◌∷◌, IfOk, IsTrue, ◌↔◌};
ghost use Rattle.tg_base.specs.Clusters.{IsHeader};
ghost use Rattle.tg_protocol.specs.Worlds as seen;
ghost use Rattle.tg_world.specs.Kept.{IsWorld, KeepsWorld};
ghost use Rattle.tg_lines.specs.Lines.{lines};
ghost use Rattle.tg_any.specs.AllKinds.{all_kinds};
ghost use Rattle.tg_replay.specs.Runs.{Script, MayCome, Runs, line_in, line_on};
ghost use Rattle.tg_replay.specs.Stages.{Took, IsMade, IsOutside, IsRunOf, GoesOnKept, CountsOn};

use crate::stages::{End, Fed, Finish, Run};
use std::alloc::Global;
use tg_any::AnyKind;
use tg_base::{Cluster, NoMemory};
use tg_model::Event;
use tg_script::{Line, parse_line};
use tg_world::{Ran, World, drain, happens, settle, updates};

impl Run {
    /// The world that a header opens. An `Err` is want of memory.
    pub(crate) fn start(alloc: Global, cluster: Cluster) -> Result<Run, NoMemory>
        ensures lawful { IsHeader cluster }
        ensures cluster { IfOk result (λ r. r.cluster ≡ cluster) }
        ensures world { IfOk result (λ r. KeepsWorld all_kinds r.world (seen.start all_kinds cluster)) }
        ensures events { IfOk result (λ r. r.world.event ≡ 0) }
    {
        cluster.rules();
        let world = World::start(alloc, &cluster)?;
        Ok(Run { cluster, world })
    }

    /// Takes the next event line. An `Err` is want of memory.
    pub(crate) fn feed(self, alloc: Global, line: &[u8]) -> Result<Fed, NoMemory>
        requires kept { IsWorld all_kinds self.world }
        requires room { self.world.event + 4 < 2 ^ 64 }
        ensures kept { IfOk result GoesOnKept }
        ensures counts { IfOk result (CountsOn self.world.event) }
        ensures took { (text : List ℕ) (read more : List (List ℕ)) (s : Script) → lines text ≡ read ++ line.now ∷ more → IsRunOf read self s → IfOk result (Took text (read ++ line.now ∷ [])) }
    {
        let Some(event) = parse_line(alloc, &self.cluster, line)? else {
            return Ok(self.outside());
        };
        if !self.may_come(&event) {
            return Ok(self.outside());
        }
        self.play(alloc, event)
    }

    /// The next event line is outside.
    fn outside(self) -> Fed
        requires { self.world.event + 4 < 2 ^ 64 }
        ensures { IsOutside self result }
    {
        let line = self.world.event() + 4;
        Fed::Stops(Finish {
            end: End::Outside { line },
            run: Some(self),
        })
    }

    /// Whether a line may come next: a packet that is delivered or lost was sent.
    fn may_come(&self, line: &Line) -> bool
        ensures { (w : seen.World all_kinds) → KeepsWorld all_kinds self.now.world w → IsTrue result ↔ MayCome w line.now }
    {
        match line {
            Line::Event {
                event: Event::Deliver { packet } | Event::Lose { packet },
            } => *packet < self.world.sent(),
            _ => true,
        }
    }

    /// Makes a line's steps, as far as the limits allow.
    fn play(self, alloc: Global, line: Line) -> Result<Fed, NoMemory>
        requires kept { IsWorld all_kinds self.world }
        requires room { self.world.event + 4 < 2 ^ 64 }
        ensures made { (w : seen.World all_kinds) → KeepsWorld all_kinds self.world w → IfOk result (IsMade self (line_on w line)) }
        ensures counts { IfOk result (CountsOn self.world.event) }
    {
        let Run { cluster, world } = self;
        let ran = make(alloc, world, line)?;
        Ok(after(cluster, ran))
    }
}

// A run after a line, which goes on unless a limit was reached.
fn after(cluster: Cluster, ran: Ran<AnyKind>) -> Fed
    ensures counts { (n : ℕ) → ran.world.event ≡ n + 1 → CountsOn n result }
    ensures made { (r : Run) (x : Runs) → cluster ≡ r.cluster → ran.world.event ≡ r.world.event + 1 → KeepsWorld all_kinds ran.world x.world → ran.stopped ≡ x.stopped → IsMade r x result }
{
    let Ran { world, stopped } = ran;
    let run = Run { cluster, world };
    match stopped {
        None => Fed::Goes(run),
        Some(which) => Fed::Stops(Finish {
            end: End::Limited { which },
            run: Some(run),
        }),
    }
}

// A line's steps, as the next event.
fn make(alloc: Global, world: World<AnyKind>, line: Line) -> Result<Ran<AnyKind>, NoMemory>
    requires kept { IsWorld all_kinds world }
    requires room { world.event < 2 ^ 64 - 1 }
    ensures event { IfOk result (λ r. r.world.event ≡ world.event + 1) }
    ensures world { (w : seen.World all_kinds) → KeepsWorld all_kinds world w → IfOk result (λ r. KeepsWorld all_kinds r.world (line_on w line).world) }
    ensures stopped { (w : seen.World all_kinds) → KeepsWorld all_kinds world w → IfOk result (λ r. r.stopped ≡ (line_on w line).stopped) }
{
    play_line(alloc, world.next_event(), line)
}

// A line's steps, as far as the limits allow.
fn play_line(alloc: Global, world: World<AnyKind>, line: Line) -> Result<Ran<AnyKind>, NoMemory>
    requires { IsWorld all_kinds world }
    ensures world { (w : seen.World all_kinds) → KeepsWorld all_kinds world w → IfOk result (λ r. KeepsWorld all_kinds r.world (line_in w line).world) }
    ensures stopped { (w : seen.World all_kinds) → KeepsWorld all_kinds world w → IfOk result (λ r. r.stopped ≡ (line_in w line).stopped) }
{
    match line {
        Line::Event { event } => happens(alloc, world, event),
        Line::Update { client, oid, op } => updates(alloc, world, client, oid, op),
        Line::Drain => drain(alloc, world),
        Line::Settle => settle(alloc, world),
    }
}
