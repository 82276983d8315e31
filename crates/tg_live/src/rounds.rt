//! Deliveries over the link, and rounds of ticks.

ghost use Rattle.std.specs.Prelude.{◌≡◌, ◌≤◌, List, Option, length, IfOk, OnOk, OnErr};
ghost use Rattle.tg_base.specs.Clusters.{Header};
ghost use Rattle.tg_io.specs.Faults.{HasCause, StaysSure};
ghost use Rattle.tg_live.specs.Lives.{Live as live, ticked, IsDrained, IsRounds, IsSettled};
ghost use Rattle.tg_live.specs.Kept.{IsSound, Keeps, KeepsRan, Made};
ghost use Rattle.tg_live.specs.Sends.{Carried, carried};
ghost use Rattle.tg_live.specs.Breaks.{GrowsFront, Broken};

use crate::live::{Live, Went};
use std::alloc::Global;
use tg_base::{NodeId, Which};
use tg_io::{Datagram, IoErr, Link};
use tg_model::Event;
use tg_script::Line;

/// How many datagrams a run takes at most.
const MAX_DATAGRAMS: u32 = 1_000_000;

/// How many rounds of ticks a settling makes at most.
const ROUNDS: u8 = 8;

impl Live {
    /// Receives until the link has nothing at hand; a datagram that spells a packet delivers it, and others are passed
    /// by. A limit ends it. An `Err` is a fault of the link, or want of memory.
    pub(crate) fn drain<L: Link>(self, alloc: Global, link: &mut L) -> Result<Went, IoErr>
        requires { IsSound self.world self.recording }
        ensures kept { IfOk result (λ w. IsSound w.live.world w.live.recording) }
        ensures drained { (h : Header) (first : Carried) (l : live) → Keeps h first (carried (L.sent link.old) (L.acts link.old)) self l → IfOk result (Made IsDrained h first (carried (L.sent link.new) (L.acts link.new)) (L.handed link.old) (L.handed link.new) l) }
        ensures broken { (h : Header) (first : Carried) (l : live) → Keeps h first (carried (L.sent link.old) (L.acts link.old)) self l → OnErr result (Broken IsDrained first.acts (L.acts link.new) l) }
        ensures cause { HasCause (L.faults link.old) (L.faults link.new) result }
        ensures sure { StaysSure (L.sure link.old) (L.sure link.new) (L.faults link.old) (L.faults link.new) }
        ensures still { OnOk result (L.faults link.new ≡ L.faults link.old) }
    {
        let mut live = self;
        let mut buffer = [0; Datagram::MAX];
        'datagrams: loop {
            let full = live.received >= MAX_DATAGRAMS;
            if full {
                return Ok(Went {
                    live,
                    stopped: Some(Which::Datagrams),
                });
            }
            let answer = link.recv(&mut buffer)?;
            let Some(arrival) = answer else {
                return Ok(Went {
                    live,
                    stopped: None,
                });
            };
            live.received += 1;
            let went = live.take(alloc, link, arrival.0, &buffer[..arrival.1])?;
            if went.stopped.is_some() {
                return Ok(went);
            }
            live = went.live;
        }
    }

    /// A drain, and then up to eight rounds, each one tick of every running node in order and a drain; a round whose
    /// ticks sent nothing is the last. A limit ends it. An `Err` is a fault of the link, or want of memory.
    pub(crate) fn settle<L: Link>(self, alloc: Global, link: &mut L) -> Result<Went, IoErr>
        requires { IsSound self.world self.recording }
        ensures kept { IfOk result (λ w. IsSound w.live.world w.live.recording) }
        ensures settled { (h : Header) (first : Carried) (l : live) → Keeps h first (carried (L.sent link.old) (L.acts link.old)) self l → IfOk result (Made IsSettled h first (carried (L.sent link.new) (L.acts link.new)) (L.handed link.old) (L.handed link.new) l) }
        ensures broken { (h : Header) (first : Carried) (l : live) → Keeps h first (carried (L.sent link.old) (L.acts link.old)) self l → OnErr result (Broken IsSettled first.acts (L.acts link.new) l) }
        ensures cause { HasCause (L.faults link.old) (L.faults link.new) result }
        ensures sure { StaysSure (L.sure link.old) (L.sure link.new) (L.faults link.old) (L.faults link.new) }
        ensures still { OnOk result (L.faults link.new ≡ L.faults link.old) }
    {
        let went = self.drain(alloc, link)?;
        if went.stopped.is_some() {
            return Ok(went);
        }
        went.live.rounds(alloc, link, ROUNDS)
    }

    // So many rounds at most.
    fn rounds<L: Link>(self, alloc: Global, link: &mut L, left: u8) -> Result<Went, IoErr>
        requires { IsSound self.world self.recording }
        ensures kept { IfOk result (λ w. IsSound w.live.world w.live.recording) }
        ensures settled { (h : Header) (first : Carried) (l : live) → Keeps h first (carried (L.sent link.old) (L.acts link.old)) self l → IfOk result (Made (IsRounds left) h first (carried (L.sent link.new) (L.acts link.new)) (L.handed link.old) (L.handed link.new) l) }
        ensures broken { (h : Header) (first : Carried) (l : live) → Keeps h first (carried (L.sent link.old) (L.acts link.old)) self l → OnErr result (Broken (IsRounds left) first.acts (L.acts link.new) l) }
        ensures cause { HasCause (L.faults link.old) (L.faults link.new) result }
        ensures sure { StaysSure (L.sure link.old) (L.sure link.new) (L.faults link.old) (L.faults link.new) }
        ensures still { OnOk result (L.faults link.new ≡ L.faults link.old) }
    {
        if left == 0 {
            return Ok(Went {
                live: self,
                stopped: None,
            });
        }
        let sent = self.world.sent();
        let nodes = self.world.nodes(alloc)?;
        let went = self.tick_all(alloc, link, nodes.as_slice())?;
        if went.stopped.is_some() {
            return Ok(went);
        }
        let idle = went.live.world.sent() == sent;
        let went = went.live.drain(alloc, link)?;
        if idle {
            return Ok(went);
        }
        if went.stopped.is_some() {
            return Ok(went);
        }
        went.live.rounds(alloc, link, left - 1)
    }

    // One tick of each of these nodes that runs.
    fn tick_all<L: Link>(self, alloc: Global, link: &mut L, nodes: &[NodeId]) -> Result<Went, IoErr>
        requires { IsSound self.world self.recording }
        ensures kept { IfOk result (λ w. IsSound w.live.world w.live.recording) }
        ensures ticked { (h : Header) (first : Carried) (l : live) → Keeps h first (carried (L.sent link.old) (L.acts link.old)) self l → IfOk result (λ w. KeepsRan h first (carried (L.sent link.new) (L.acts link.new)) w (ticked nodes.now l)) }
        ensures broken { (h : Header) (first : Carried) (l : live) → Keeps h first (carried (L.sent link.old) (L.acts link.old)) self l → OnErr result (GrowsFront first.acts (ticked nodes.now l).live.acts (L.acts link.new)) }
        ensures handed { L.handed link.new ≡ L.handed link.old }
        ensures cause { HasCause (L.faults link.old) (L.faults link.new) result }
        ensures sure { StaysSure (L.sure link.old) (L.sure link.new) (L.faults link.old) (L.faults link.new) }
        ensures still { OnOk result (L.faults link.new ≡ L.faults link.old) }
    {
        match nodes {
            [] => Ok(Went {
                live: self,
                stopped: None,
            }),
            [node, others @ ..] => {
                if !self.world.runs(*node) {
                    return self.tick_all(alloc, link, others);
                }
                let tick = Line::Event {
                    event: Event::Tick { node: *node },
                };
                let went = self.recorded(alloc, link, tick)?;
                if went.stopped.is_some() {
                    return Ok(went);
                }
                went.live.tick_all(alloc, link, others)
            }
        }
    }
}
