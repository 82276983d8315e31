//! What comes of a line.

ghost use Rattle.std.specs.Prelude.{◌≡◌, ◌<◌, ◌≤◌, ◌∷◌, ◌+◌, ◌^◌, ℕ, List, MatchOption};
ghost use Rattle.tg_io.specs.Faults.{Rose, StaysSure};
ghost use Rattle.tg_io.specs.declared.status.Status.TheVariants.{WriteFault, Limit, NoMemory as OutOfMemory};
ghost use Rattle.tg_node.specs.Lines.{IsAsked};
ghost use Rattle.tg_node.specs.Texts.{Seen};
ghost use Rattle.tg_node.specs.Steps.{IsSound};
ghost use Rattle.tg_node.specs.Stages.{Follows, Follow, IsWritten, IsOfLine, IsRefused, LineCauses, GoesSound, IsNextLine, seen};
ghost use Rattle.tg_node.specs.declared.stages.Next.TheVariants as nexts;

use crate::asked::{Asked, parse_asked};
use crate::nodes::{Moved, Node, Place};
use crate::stages::{Next, Run};
use std::alloc::Global;
use tg_base::{Cluster, List, NodeId, Which};
use tg_io::{IoErr, Link, Sink, Status, write_all};

/// Follows the next line of a text.
pub fn follow_line<K: Sink, L: Link>(
    alloc: Global,
    run: Run,
    line: &[u8],
    sink: &mut K,
    link: &mut L,
) -> Next
    requires sound { IsSound run.node }
    requires room { run.lines + 4 < 2 ^ 64 }
    ensures follows { (text : List ℕ) (before : Seen) (more : List (List ℕ)) → Follows text before (seen (L.sent link.old) (L.handed link.old) (L.acts link.old) (K.written sink.old)) run (line.now ∷ more) → Follow text run.id before (seen (L.sent link.new) (L.handed link.new) (L.acts link.new) (K.written sink.new)) more result }
    ensures sound { GoesSound result }
    ensures next { IsNextLine run.lines result }
    ensures causes { LineCauses (K.faults sink.old) (K.faults sink.new) (L.faults link.old) (L.faults link.new) result }
    ensures sink { StaysSure (K.sure sink.old) (K.sure sink.new) (K.faults sink.old) (K.faults sink.new) }
    ensures link { StaysSure (L.sure link.old) (L.sure link.new) (L.faults link.old) (L.faults link.new) }
{
    match parse_asked(alloc, &run.cluster, run.id, line) {
        Ok(Some(asked)) => follow_asked(alloc, run, asked, sink, link),
        Ok(None) => refuse(run),
        Err(_) => Next::Ends(Status::NoMemory),
    }
}

// The line after those that were followed is outside. It takes no memory.
fn refuse(run: Run) -> Next
    requires { run.lines + 4 < 2 ^ 64 }
    ensures { IsRefused run.lines result }
{
    Next::Ends(Status::Script {
        line: run.lines + 4,
    })
}

// What a line asks is done, and its replies are written.
fn follow_asked<K: Sink, L: Link>(
    alloc: Global,
    run: Run,
    asked: Asked,
    sink: &mut K,
    link: &mut L,
) -> Next
    requires sound { IsSound run.node }
    requires room { run.lines + 4 < 2 ^ 64 }
    ensures follows { (text : List ℕ) (before : Seen) (line : List ℕ) (more : List (List ℕ)) → IsAsked run.cluster run.id line asked → Follows text before (seen (L.sent link.old) (L.handed link.old) (L.acts link.old) (K.written sink.old)) run (line ∷ more) → Follow text run.id before (seen (L.sent link.new) (L.handed link.new) (L.acts link.new) (K.written sink.new)) more result }
    ensures sound { GoesSound result }
    ensures next { IsNextLine run.lines result }
    ensures causes { LineCauses (K.faults sink.old) (K.faults sink.new) (L.faults link.old) (L.faults link.new) result }
    ensures sink { StaysSure (K.sure sink.old) (K.sure sink.new) (K.faults sink.old) (K.faults sink.new) }
    ensures link { StaysSure (L.sure link.old) (L.sure link.new) (L.faults link.old) (L.faults link.new) }
{
    let Run {
        id,
        cluster,
        lines,
        node,
    } = run;
    let event = lines + 1;
    let place = Place { node: id, event };
    match node.follow(alloc, place, link, asked) {
        Ok(moved) => write(alloc, id, cluster, event, moved, sink),
        Err(IoErr::Failed) => Next::Ends(Status::LinkFault),
        Err(IoErr::NoMemory) => Next::Ends(Status::NoMemory),
    }
}

// Writes the replies of a line.
fn write<K: Sink>(
    alloc: Global,
    id: NodeId,
    cluster: Cluster,
    event: u64,
    moved: Moved,
    sink: &mut K,
) -> Next
    requires { IsSound moved.node }
    ensures written { IsWritten id cluster event moved (K.written sink.old) (K.written sink.new) result }
    ensures sound { GoesSound result }
    ensures ways { IsOfLine result }
    ensures write_fault { result ≡ nexts.Ends WriteFault → Rose (K.faults sink.old) (K.faults sink.new) }
    ensures later { K.faults sink.old ≤ K.faults sink.new }
    ensures still { (result ≡ nexts.Ends WriteFault → ⊥) → (result ≡ nexts.Ends OutOfMemory → ⊥) → K.faults sink.new ≡ K.faults sink.old }
    ensures sink { StaysSure (K.sure sink.old) (K.sure sink.new) (K.faults sink.old) (K.faults sink.new) }
{
    let Moved { node, stopped } = moved;
    let Node {
        own,
        steps,
        received,
        replies,
    } = node;
    match write_all(sink, replies.as_slice()) {
        Ok(()) => {
            let node = Node {
                own,
                steps,
                received,
                replies: List::new(alloc),
            };
            let run = Run {
                id,
                cluster,
                lines: event,
                node,
            };
            go_on(run, stopped)
        }
        Err(IoErr::Failed) => Next::Ends(Status::WriteFault),
        Err(IoErr::NoMemory) => Next::Ends(Status::NoMemory),
    }
}

// The run goes on, unless a limit was passed. It takes no memory.
fn go_on(run: Run, stopped: Option<Which>) -> Next
    ensures { MatchOption stopped (result ≡ nexts.Goes run) (λ w. result ≡ nexts.Ends (Limit w)) }
{
    match stopped {
        None => Next::Goes(run),
        Some(which) => Next::Ends(Status::Limit { which }),
    }
}
