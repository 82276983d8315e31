//! One node over a link: its lines are read from a source, its packets go over the link, and the lines of its replies
//! are written to a sink, line by line.

ghost use Rattle.std.specs.Prelude.{◌≡◌, ◌≢◌, ◌<◌, ◌≤◌, ◌⊎◌, ◌++◌, ◌+◌, ◌^◌, ℕ, List, Some, true, length, IfSome};
ghost use Rattle.tg_base.specs.declared.fault.Which.{Which};
ghost use Rattle.tg_io.specs.Faults.{Rose, StaysSure};
ghost use Rattle.tg_io.specs.declared.status.Status.TheVariants.{Done, Script as AtLine, ReadFault, WriteFault, LinkFault, Limit, NoMemory as OutOfMemory};
ghost use Rattle.tg_lines.specs.Feeds.{NoneOutside, TakesFeeds};
ghost use Rattle.tg_lines.specs.Lines.{ahead, lines};
ghost use Rattle.tg_script.specs.Nodes.{is_declared};
ghost use Rattle.tg_script.specs.Headers.{header_lines};
ghost use Rattle.tg_node.specs.Texts.{Seen, Outcome, Followed, FirstOutside, Refused, PassesLimit, IsWithin, Limited, IsCutBetween, IsCutInLine, IsCutInReplies, IsCutShort, IsText, IsOfNode, IsOrStops, Told};
ghost use Rattle.tg_node.specs.Steps.{IsSound};
ghost use Rattle.tg_node.specs.Stages.{Causes, Follows, seen};

use crate::follow::follow_line;
use crate::header::read_own_header;
use crate::nodes::Node;
use crate::stages::{Next, Run};
use std::alloc::Global;
use tg_base::{Cluster, NodeId};
use tg_io::{IoErr, Link, Sink, Source, Status};
use tg_lines::{LineReader, Opening};

/// Runs one node of the cluster that a header declares, by the lines of a text.
pub fn node<S: Source, K: Sink, L: Link>(
    alloc: Global,
    id: NodeId,
    source: &mut S,
    sink: &mut K,
    link: &mut L,
) -> Status
    // At `Done` the text was followed to its end: the packets of its session were sent, its waits took the answers that
    // were handed, in the order of one list in which a packet goes out when its step is made, and its replies were
    // written.
    ensures done { result ≡ Done → Told (S.left source.old) (λ text. Followed text id (seen (L.sent link.old) (L.handed link.old) (L.acts link.old) (K.written sink.old)) (seen (L.sent link.new) (L.handed link.new) (L.acts link.new) (K.written sink.new))) }
    // A line is refused that is the first outside, after the session of the lines before it.
    ensures script { (line : ℕ) → result ≡ AtLine line → Told (S.left source.old) (λ text. Refused text id line (seen (L.sent link.old) (L.handed link.old) (L.acts link.old) (K.written sink.old)) (seen (L.sent link.new) (L.handed link.new) (L.acts link.new) (K.written sink.new))) }
    // A limit stops a session, after the steps before it.
    ensures limit { (which : Which) → result ≡ Limit which → Told (S.left source.old) (λ text. Limited text id which (seen (L.sent link.old) (L.handed link.old) (L.acts link.old) (K.written sink.old)) (seen (L.sent link.new) (L.handed link.new) (L.acts link.new) (K.written sink.new))) }
    // A fault has its cause in a count that rose.
    ensures read_fault { result ≡ ReadFault → Rose (S.faults source.old) (S.faults source.new) }
    ensures write_fault { result ≡ WriteFault → Rose (K.faults sink.old) (K.faults sink.new) }
    ensures link_fault { result ≡ LinkFault → Rose (L.faults link.old) (L.faults link.new) }
    // No count of faults falls, and each rises only where its fault, or want of memory, is answered.
    ensures read_later { S.faults source.old ≤ S.faults source.new }
    ensures write_later { K.faults sink.old ≤ K.faults sink.new }
    ensures link_later { L.faults link.old ≤ L.faults link.new }
    ensures read_still { result ≢ ReadFault → result ≢ OutOfMemory → S.faults source.new ≡ S.faults source.old }
    ensures write_still { result ≢ WriteFault → result ≢ OutOfMemory → K.faults sink.new ≡ K.faults sink.old }
    ensures link_still { result ≢ LinkFault → result ≢ OutOfMemory → L.faults link.new ≡ L.faults link.old }
    // A read fault is answered only where none of the lines that came whole before it is outside.
    ensures first { result ≡ ReadFault → Told (S.left source.old) (λ text. NoneOutside text (S.left source.new) (FirstOutside (lines text) id)) }
    // At a read fault the lines before it were followed whole, and nothing else was done.
    ensures read_cut { result ≡ ReadFault → Told (S.left source.old) (λ text. IsCutBetween text id (seen (L.sent link.old) (L.handed link.old) (L.acts link.old) (K.written sink.old)) (seen (L.sent link.new) (L.handed link.new) (L.acts link.new) (K.written sink.new))) }
    // At a write fault the last line was done, with the answers that were handed, and of its replies a front was written.
    ensures write_cut { result ≡ WriteFault → Told (S.left source.old) (λ text. IsCutInReplies text id (seen (L.sent link.old) (L.handed link.old) (L.acts link.old) (K.written sink.old)) (seen (L.sent link.new) (L.handed link.new) (L.acts link.new) (K.written sink.new))) }
    // At a link fault a front of what the last line does with the link was done, and none of its replies was written.
    ensures link_cut { result ≡ LinkFault → Told (S.left source.old) (λ text. IsCutInLine text id (seen (L.sent link.old) (L.handed link.old) (L.acts link.old) (K.written sink.old)) (seen (L.sent link.new) (L.handed link.new) (L.acts link.new) (K.written sink.new))) }
    // Want of memory is one of the three.
    ensures memory_cut { result ≡ OutOfMemory → Told (S.left source.old) (λ text. IsCutShort text id (seen (L.sent link.old) (L.handed link.old) (L.acts link.old) (K.written sink.old)) (seen (L.sent link.new) (L.handed link.new) (L.acts link.new) (K.written sink.new))) }
    ensures ways { IsOfNode result }
    // Without a fault a session ends by its text or by a limit, whatever the link tells, unless memory runs out.
    ensures ends { (Rose (S.faults source.old) (S.faults source.new) → ⊥) → (Rose (K.faults sink.old) (K.faults sink.new) → ⊥) → (Rose (L.faults link.old) (L.faults link.new) → ⊥) →
        Told (S.left source.old) (λ text. IsText text id → IsOrStops result Done) }
    ensures refuses_or_ends { (Rose (S.faults source.old) (S.faults source.new) → ⊥) → (Rose (K.faults sink.old) (K.faults sink.new) → ⊥) → (Rose (L.faults link.old) (L.faults link.new) → ⊥) →
        Told (S.left source.old) (λ text. (line : ℕ) → FirstOutside (lines text) id line → IsOrStops result (AtLine line)) }
    // Of a link that tells what it handed: each text has its status, since the answers say whether a limit is passed.
    ensures complete { (Rose (S.faults source.old) (S.faults source.new) → ⊥) → (Rose (K.faults sink.old) (K.faults sink.new) → ⊥) → (Rose (L.faults link.old) (L.faults link.new) → ⊥) →
        Told (S.left source.old) (λ text. IsText text id → IsWithin text id (L.handed link.old) (L.handed link.new) → (result ≡ Done) ⊎ (result ≡ OutOfMemory)) }
    ensures refuses { (Rose (S.faults source.old) (S.faults source.new) → ⊥) → (Rose (K.faults sink.old) (K.faults sink.new) → ⊥) → (Rose (L.faults link.old) (L.faults link.new) → ⊥) →
        Told (S.left source.old) (λ text. (line : ℕ) → FirstOutside (lines text) id line → IsWithin text id (L.handed link.old) (L.handed link.new) → (result ≡ AtLine line) ⊎ (result ≡ OutOfMemory)) }
    ensures limits { (Rose (S.faults source.old) (S.faults source.new) → ⊥) → (Rose (K.faults sink.old) (K.faults sink.new) → ⊥) → (Rose (L.faults link.old) (L.faults link.new) → ⊥) →
        Told (S.left source.old) (λ text. IfSome (L.handed link.old) (λ handed. (which : Which) → PassesLimit text id which (L.handed link.old) (L.handed link.new) → (result ≡ Limit which) ⊎ (result ≡ OutOfMemory))) }
    // What is sure never to fail stays so.
    ensures source { StaysSure (S.sure source.old) (S.sure source.new) (S.faults source.old) (S.faults source.new) }
    ensures sink { StaysSure (K.sure sink.old) (K.sure sink.new) (K.faults sink.old) (K.faults sink.new) }
    ensures link { StaysSure (L.sure link.old) (L.sure link.new) (L.faults link.old) (L.faults link.new) }
{
    run_node(alloc, id, source, sink, link)
}

// What each status says.
fn run_node<S: Source, K: Sink, L: Link>(
    alloc: Global,
    id: NodeId,
    source: &mut S,
    sink: &mut K,
    link: &mut L,
) -> Status
    ensures outcome { Told (S.left source.old) (λ text. Outcome text id result (seen (L.sent link.old) (L.handed link.old) (L.acts link.old) (K.written sink.old)) (seen (L.sent link.new) (L.handed link.new) (L.acts link.new) (K.written sink.new))) }
    ensures causes { Causes (S.faults source.old) (S.faults source.new) (K.faults sink.old) (K.faults sink.new) (L.faults link.old) (L.faults link.new) result }
    ensures source { StaysSure (S.sure source.old) (S.sure source.new) (S.faults source.old) (S.faults source.new) }
    ensures sink { StaysSure (K.sure sink.old) (K.sure sink.new) (K.faults sink.old) (K.faults sink.new) }
    ensures link { StaysSure (L.sure link.old) (L.sure link.new) (L.faults link.old) (L.faults link.new) }
    ensures first { result ≡ ReadFault → Told (S.left source.old) (λ text. NoneOutside text (S.left source.new) (FirstOutside (lines text) id)) }
{
    let mut reader = LineReader::new();
    match read_own_header(alloc, id, &mut reader, source) {
        Ok(Opening::Opens(cluster)) => {
            follow_header(alloc, id, cluster, &mut reader, source, sink, link)
        }
        Ok(Opening::Outside { line }) => Status::Script { line },
        Err(IoErr::Failed) => Status::ReadFault,
        Err(IoErr::NoMemory) => Status::NoMemory,
    }
}

// The lines after a header that declares the node are followed.
fn follow_header<S: Source, K: Sink, L: Link>(
    alloc: Global,
    id: NodeId,
    cluster: Cluster,
    reader: &mut LineReader,
    source: &mut S,
    sink: &mut K,
    link: &mut L,
) -> Status
    requires { 3 + (length reader.old + S.room source.old) < 2 ^ 64 }
    ensures outcome { IfSome (ahead reader.old (S.left source.old)) (λ rest. (text : List ℕ) → lines text ≡ header_lines cluster ++ lines rest → is_declared cluster id ≡ true → Outcome text id result (seen (L.sent link.old) (L.handed link.old) (L.acts link.old) (K.written sink.old)) (seen (L.sent link.new) (L.handed link.new) (L.acts link.new) (K.written sink.new))) }
    ensures causes { Causes (S.faults source.old) (S.faults source.new) (K.faults sink.old) (K.faults sink.new) (L.faults link.old) (L.faults link.new) result }
    ensures source { StaysSure (S.sure source.old) (S.sure source.new) (S.faults source.old) (S.faults source.new) }
    ensures sink { StaysSure (K.sure sink.old) (K.sure sink.new) (K.faults sink.old) (K.faults sink.new) }
    ensures link { StaysSure (L.sure link.old) (L.sure link.new) (L.faults link.old) (L.faults link.new) }
    ensures first { result ≡ ReadFault → IfSome (ahead reader.old (S.left source.old)) (λ rest. (text : List ℕ) → lines text ≡ header_lines cluster ++ lines rest → is_declared cluster id ≡ true → TakesFeeds 3 (Some text) (Some rest) → NoneOutside text (S.left source.new) (FirstOutside (lines text) id)) }
{
    cluster.rules();
    let Ok(node) = Node::start(alloc, &cluster, id) else {
        return Status::NoMemory;
    };
    let run = Run {
        id,
        cluster,
        lines: 0,
        node,
    };
    follow_text(alloc, run, reader, source, sink, link)
}

// The lines after a header are followed.
fn follow_text<S: Source, K: Sink, L: Link>(
    alloc: Global,
    run: Run,
    reader: &mut LineReader,
    source: &mut S,
    sink: &mut K,
    link: &mut L,
) -> Status
    requires sound { IsSound run.node }
    // A source gives fewer bytes than 2^64, and a line takes one at least.
    requires room { run.lines + 3 + (length reader.old + S.room source.old) < 2 ^ 64 }
    ensures outcome { IfSome (ahead reader.old (S.left source.old)) (λ rest. (text : List ℕ) (before : Seen) → Follows text before (seen (L.sent link.old) (L.handed link.old) (L.acts link.old) (K.written sink.old)) run (lines rest) → Outcome text run.id result before (seen (L.sent link.new) (L.handed link.new) (L.acts link.new) (K.written sink.new))) }
    ensures causes { Causes (S.faults source.old) (S.faults source.new) (K.faults sink.old) (K.faults sink.new) (L.faults link.old) (L.faults link.new) result }
    ensures source { StaysSure (S.sure source.old) (S.sure source.new) (S.faults source.old) (S.faults source.new) }
    ensures sink { StaysSure (K.sure sink.old) (K.sure sink.new) (K.faults sink.old) (K.faults sink.new) }
    ensures link { StaysSure (L.sure link.old) (L.sure link.new) (L.faults link.old) (L.faults link.new) }
    ensures first { result ≡ ReadFault → IfSome (ahead reader.old (S.left source.old)) (λ rest. (text : List ℕ) (before : Seen) → Follows text before (seen (L.sent link.old) (L.handed link.old) (L.acts link.old) (K.written sink.old)) run (lines rest) → TakesFeeds (3 + run.lines) (Some text) (Some rest) → NoneOutside text (S.left source.new) (FirstOutside (lines text) run.id)) }
{
    let mut run = run;
    loop {
        match reader.next(alloc, source) {
            Ok(Some(line)) => match follow_line(alloc, run, line.as_slice(), sink, link) {
                Next::Goes(next) => run = next,
                Next::Ends(status) => return status,
            },
            Ok(None) => return Status::Done,
            Err(IoErr::Failed) => return Status::ReadFault,
            Err(IoErr::NoMemory) => return Status::NoMemory,
        }
    }
}
