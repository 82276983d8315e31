//! A live run, and one line of it.

ghost use Rattle.std.specs.Prelude.{◌≡◌, ◌<◌, ◌≤◌, ◌+◌, ◌-◌, ◌^◌, ◌++◌, ◌∷◌, [], ℕ, true, List, Option, length, map, drop, take, slice_get, Some, IfOk, OnOk, OnErr};
ghost use Rattle.tg_base.specs.Clusters.{Header, IsHeader};
ghost use Rattle.tg_base.specs.declared.packet.Packet.{Packet};
ghost use Rattle.tg_io.specs.Bytes.{Grows};
ghost use Rattle.tg_io.specs.Faults.{HasCause, StaysSure};
ghost use Rattle.tg_live.specs.Books.{IsBook};
ghost use Rattle.tg_protocol.specs.Worlds as seen;
ghost use Rattle.tg_world.specs.Kept.{IsWorld, KeepsWorld};
ghost use Rattle.tg_any.specs.AllKinds.{all_kinds};
ghost use Rattle.tg_replay.specs.Runs.{line_in, line_on, line_text};
ghost use Rattle.tg_live.specs.Sends.{Carried, carried, all_gone, AreFit, AreSent, IsMadeOver, spellings, sending};
ghost use Rattle.tg_live.specs.Lives.{Live as live, is_steps, recorded, after_line, opened, came};
ghost use Rattle.tg_live.specs.Kept.{IsSound, Keeps, KeepsRan};
ghost use Rattle.tg_live.specs.Breaks.{GrowsFront};

use crate::Book;
use crate::sending::send;
use std::alloc::Global;
use tg_any::AnyKind;
use tg_base::{Cluster, List, NoMemory, NodeId, Which};
use tg_io::{IoErr, Link};
use tg_model::Event;
use tg_script::{Line, print_line};
use tg_world::{Ran, World, drain, happens, settle, updates};

/// All nodes of a script, whose packets go over a link.
pub struct Live {
    pub cluster: Cluster,
    pub world: World<AnyKind>,
    /// The datagrams that were sent and delivered.
    pub book: Book,
    /// The event lines that were recorded.
    pub recording: List<u8>,
    /// How many datagrams the link has handed over.
    pub received: u32,
}

// By hand, since a derived drop is proved anew wherever a value is dropped.
impl Drop for Live {
    fn drop(self) {
        let Live {
            cluster: _,
            world: _,
            book: _,
            recording: _,
            received: _,
        } = self;
    }
}

/// A live run after several steps, and the limit that stopped them, if one did.
#[derive(Drop)]
pub struct Went {
    pub live: Live,
    pub stopped: Option<Which>,
}

// The packets of a world from this number on go over the link. An `Err` is a fault of the link, or want of memory.
fn send_from<L: Link>(
    alloc: Global,
    link: &mut L,
    book: &mut Book,
    world: &World<AnyKind>,
    from: u64,
) -> Result<(), IoErr>
    ensures sent { (w : seen.World all_kinds) → KeepsWorld all_kinds world.now w → from ≤ length w.packets → AreFit (take from w.packets) → OnOk result (AreSent w.packets from (length w.packets) book.old book.new (carried (L.sent link.old) (L.acts link.old)) (carried (L.sent link.new) (L.acts link.new))) }
    // Of the packets those before the one that failed have gone.
    ensures broken { (w : seen.World all_kinds) → KeepsWorld all_kinds world.now w → from ≤ length w.packets → AreFit (take from w.packets) → OnErr result (GrowsFront (L.acts link.old) (all_gone (drop from w.packets)) (L.acts link.new)) }
    ensures handed { L.handed link.new ≡ L.handed link.old }
    ensures cause { HasCause (L.faults link.old) (L.faults link.new) result }
    ensures sure { StaysSure (L.sure link.old) (L.sure link.new) (L.faults link.old) (L.faults link.new) }
    ensures still { OnOk result (L.faults link.new ≡ L.faults link.old) }
{
    let packets = world.packets();
    for number in from as usize..packets.len() {
        send(alloc, link, book, number as u64, &packets[number])?;
    }
    Ok(())
}

// A line's steps, as the next event.
fn make(alloc: Global, world: World<AnyKind>, line: Line) -> Result<Ran<AnyKind>, NoMemory>
    requires kept { IsWorld all_kinds world }
    requires room { world.event < 2 ^ 64 - 1 }
    ensures event { IfOk result (λ r. r.world.event ≡ world.event + 1) }
    ensures world { (w : seen.World all_kinds) → KeepsWorld all_kinds world w → IfOk result (λ r. KeepsWorld all_kinds r.world (line_on w line).world) }
    ensures stopped { (w : seen.World all_kinds) → KeepsWorld all_kinds world w → IfOk result (λ r. r.stopped ≡ (line_on w line).stopped) }
{
    play_line(alloc, world.next_event(), line)
}

// A line's steps, as far as the limits allow.
fn play_line(alloc: Global, world: World<AnyKind>, line: Line) -> Result<Ran<AnyKind>, NoMemory>
    requires { IsWorld all_kinds world }
    ensures world { (w : seen.World all_kinds) → KeepsWorld all_kinds world w → IfOk result (λ r. KeepsWorld all_kinds r.world (line_in w line).world) }
    ensures stopped { (w : seen.World all_kinds) → KeepsWorld all_kinds world w → IfOk result (λ r. r.stopped ≡ (line_in w line).stopped) }
{
    match line {
        Line::Event { event } => happens(alloc, world, event),
        Line::Update { client, oid, op } => updates(alloc, world, client, oid, op),
        Line::Drain => drain(alloc, world),
        Line::Settle => settle(alloc, world),
    }
}

// A line's steps, whose packets go over the link.
fn make_over<L: Link>(
    alloc: Global,
    link: &mut L,
    book: &mut Book,
    world: World<AnyKind>,
    line: Line,
) -> Result<Ran<AnyKind>, IoErr>
    requires kept { IsWorld all_kinds world }
    requires room { world.event < 2 ^ 64 - 1 }
    requires steps { is_steps line ≡ true }
    ensures kept { IfOk result (λ r. IsWorld all_kinds r.world) }
    ensures event { IfOk result (λ r. r.world.event ≡ world.event + 1) }
    ensures world { (w : seen.World all_kinds) → KeepsWorld all_kinds world w → IfOk result (λ r. KeepsWorld all_kinds r.world (line_on w line).world) }
    ensures stopped { (w : seen.World all_kinds) → KeepsWorld all_kinds world w → IfOk result (λ r. r.stopped ≡ (line_on w line).stopped) }
    ensures sent { (w : seen.World all_kinds) → KeepsWorld all_kinds world w → AreFit w.packets → OnOk result (IsMadeOver w.packets (line_on w line).world.packets book.old book.new (carried (L.sent link.old) (L.acts link.old)) (carried (L.sent link.new) (L.acts link.new))) }
    ensures broken { (w : seen.World all_kinds) → KeepsWorld all_kinds world w → AreFit w.packets → OnErr result (GrowsFront (L.acts link.old) (all_gone (drop (length w.packets) (line_on w line).world.packets)) (L.acts link.new)) }
    ensures handed { L.handed link.new ≡ L.handed link.old }
    ensures cause { HasCause (L.faults link.old) (L.faults link.new) result }
    ensures sure { StaysSure (L.sure link.old) (L.sure link.new) (L.faults link.old) (L.faults link.new) }
    ensures still { OnOk result (L.faults link.new ≡ L.faults link.old) }
{
    let from = world.sent();
    let ran = make(alloc, world, line)?;
    send_from(alloc, link, book, &ran.world, from)?;
    Ok(ran)
}

// Puts a line last in a recording, and gives it back. An `Err` is want of memory.
fn put_line(alloc: Global, line: Line, recording: &mut List<u8>) -> Result<Line, NoMemory>
    ensures line { IfOk result (λ l. l ≡ line) }
    ensures text { IfOk result (λ l. recording.new ≡ recording.old ++ (line_text l ++ 10 ∷ [])) }
{
    print_line(alloc, &line, recording)?;
    Ok(line)
}

impl Live {
    /// The run that a header opens. An `Err` is want of memory.
    pub(crate) fn start(alloc: Global, cluster: Cluster) -> Result<Live, NoMemory>
        ensures lawful { IsHeader cluster }
        ensures kept { IfOk result (λ k. IsSound k.world k.recording) }
        ensures opened { (before : Carried) → IfOk result (λ k. Keeps cluster before before k (opened cluster)) }
    {
        cluster.rules();
        let world = World::start(alloc, &cluster)?;
        Ok(Live {
            cluster,
            world,
            book: Book::new(alloc),
            recording: List::new(alloc),
            received: 0,
        })
    }

    /// A line is recorded and its steps are made, whose packets go over the link; where a limit is reached already,
    /// neither. An `Err` is a fault of the link, or want of memory.
    pub(crate) fn recorded<L: Link>(
        self,
        alloc: Global,
        link: &mut L,
        line: Line,
    ) -> Result<Went, IoErr>
        requires kept { IsSound self.world self.recording }
        requires steps { is_steps line ≡ true }
        ensures kept { IfOk result (λ w. IsSound w.live.world w.live.recording) }
        ensures received { IfOk result (λ w. w.live.received ≡ self.received) }
        ensures recorded { (h : Header) (first : Carried) (l : live) → Keeps h first (carried (L.sent link.old) (L.acts link.old)) self l → IfOk result (λ w. KeepsRan h first (carried (L.sent link.new) (L.acts link.new)) w (recorded l line)) }
        ensures broken { (h : Header) (first : Carried) (l : live) → Keeps h first (carried (L.sent link.old) (L.acts link.old)) self l → OnErr result (GrowsFront first.acts (recorded l line).live.acts (L.acts link.new)) }
        ensures handed { L.handed link.new ≡ L.handed link.old }
        ensures cause { HasCause (L.faults link.old) (L.faults link.new) result }
        ensures sure { StaysSure (L.sure link.old) (L.sure link.new) (L.faults link.old) (L.faults link.new) }
        ensures still { OnOk result (L.faults link.new ≡ L.faults link.old) }
    {
        match self.world.limit() {
            Some(which) => Ok(Went {
                live: self,
                stopped: Some(which),
            }),
            None => self.made(alloc, link, line),
        }
    }

    // A line is recorded and its steps are made.
    fn made<L: Link>(self, alloc: Global, link: &mut L, line: Line) -> Result<Went, IoErr>
        requires kept { IsSound self.world self.recording }
        requires steps { is_steps line ≡ true }
        ensures kept { IfOk result (λ w. IsSound w.live.world w.live.recording) }
        ensures received { IfOk result (λ w. w.live.received ≡ self.received) }
        ensures made { (h : Header) (first : Carried) (l : live) → Keeps h first (carried (L.sent link.old) (L.acts link.old)) self l → IfOk result (λ w. KeepsRan h first (carried (L.sent link.new) (L.acts link.new)) w (after_line l line (line_on l.world line))) }
        ensures broken { (h : Header) (first : Carried) (l : live) → Keeps h first (carried (L.sent link.old) (L.acts link.old)) self l → OnErr result (GrowsFront first.acts (after_line l line (line_on l.world line)).live.acts (L.acts link.new)) }
        ensures handed { L.handed link.new ≡ L.handed link.old }
        ensures cause { HasCause (L.faults link.old) (L.faults link.new) result }
        ensures sure { StaysSure (L.sure link.old) (L.sure link.new) (L.faults link.old) (L.faults link.new) }
        ensures still { OnOk result (L.faults link.new ≡ L.faults link.old) }
    {
        let Live {
            cluster,
            world,
            mut book,
            mut recording,
            received,
        } = self;
        let noted = put_line(alloc, line, &mut recording)?;
        // Each event has put a line feed there at least.
        let _bytes = recording.len();
        let ran = make_over(alloc, link, &mut book, world, noted)?;
        Ok(Went {
            live: Live {
                cluster,
                world: ran.world,
                book,
                recording,
                received,
            },
            stopped: ran.stopped,
        })
    }

    /// A datagram has come to a node: it delivers the packet that it matches, and is passed by where it matches none.
    /// An `Err` is a fault of the link, or want of memory.
    pub(crate) fn take<L: Link>(
        self,
        alloc: Global,
        link: &mut L,
        node: NodeId,
        datagram: &[u8],
    ) -> Result<Went, IoErr>
        requires { IsSound self.world self.recording }
        ensures kept { IfOk result (λ w. IsSound w.live.world w.live.recording) }
        ensures received { IfOk result (λ w. w.live.received ≡ self.received) }
        ensures came { (h : Header) (first : Carried) (l : live) → Keeps h first (carried (L.sent link.old) (L.acts link.old)) self l → IfOk result (λ w. KeepsRan h first (carried (L.sent link.new) (L.acts link.new)) w (came l node datagram.now)) }
        ensures broken { (h : Header) (first : Carried) (l : live) → Keeps h first (carried (L.sent link.old) (L.acts link.old)) self l → OnErr result (GrowsFront first.acts (came l node datagram.now).live.acts (L.acts link.new)) }
        ensures handed { L.handed link.new ≡ L.handed link.old }
        ensures cause { HasCause (L.faults link.old) (L.faults link.new) result }
        ensures sure { StaysSure (L.sure link.old) (L.sure link.new) (L.faults link.old) (L.faults link.new) }
        ensures still { OnOk result (L.faults link.new ≡ L.faults link.old) }
    {
        let mut live = self;
        match live.book.arrived(node, datagram) {
            Some(packet) => live.recorded(
                alloc,
                link,
                Line::Event {
                    event: Event::Deliver { packet },
                },
            ),
            None => Ok(Went {
                live,
                stopped: None,
            }),
        }
    }
}
