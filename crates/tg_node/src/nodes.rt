//! A node that runs by itself, and its steps.

ghost use Rattle.std.specs.Prelude.{◌≡◌, ◌+◌, ◌<◌, ◌++◌, ◌∷◌, [], nat_le, List, Option, Some, None, IfOk, OnErr};
ghost use Rattle.tg_io.specs.Faults.{HasCause, StaysSure};
ghost use Rattle.tg_io.specs.declared.link.Sent.{Sent};
ghost use Rattle.tg_node_state.specs.Kept.{KeepsNode, IsNode};
ghost use Rattle.tg_node_state.specs.Nodes.{node_start};
ghost use Rattle.tg_node.specs.Acts.{step_acts};
ghost use Rattle.tg_any.specs.AllKinds.{all_kinds};
ghost use Rattle.tg_node.specs.Sessions.{Session, turned};
ghost use Rattle.tg_node.specs.Steps.{Stands, Goes, Does, Breaks, IsSound};

use crate::replies::write_replies;
use std::alloc::Global;
use tg_any::AnyKind;
use tg_base::{Cluster, List, NoMemory, NodeId, Which};
use tg_io::{IoErr, Link};
use tg_link_packets::send_all;
use tg_node_state::{InputOf, Own, Stepped};

/// How many steps a node takes at most.
pub const MOST_STEPS: u32 = 200_000;

/// How many datagrams a node takes at most.
pub const MOST_DATAGRAMS: u32 = 1_000_000;

/// Which node it is, and the number of the line that it follows, from 1.
#[derive(Clone, Copy)]
pub struct Place {
    pub node: NodeId,
    pub event: u64,
}

/// A node, how many steps and datagrams it has taken, and the lines of its replies that aren't written yet.
#[derive(Drop)]
pub struct Node {
    pub own: Own<AnyKind>,
    pub steps: u32,
    pub received: u32,
    pub replies: List<u8>,
}

/// A node after a line, and the limit that was passed in its midst, if one was.
#[derive(Drop)]
pub struct Moved {
    pub node: Node,
    pub stopped: Option<Which>,
}

impl Moved {
    /// No limit was passed. It takes no memory.
    pub fn on(node: Node) -> Moved
        ensures { result ≡ record { node = node; stopped = None } }
    {
        Moved {
            node,
            stopped: None,
        }
    }

    /// A limit was passed. It takes no memory.
    pub fn at(node: Node, which: Which) -> Moved
        ensures { result ≡ record { node = node; stopped = Some which } }
    {
        Moved {
            node,
            stopped: Some(which),
        }
    }
}

impl Node {
    /// The node that a header declares, before its first step. An `Err` is want of memory.
    pub fn start(alloc: Global, cluster: &Cluster, node: NodeId) -> Result<Node, NoMemory>
        ensures node { IfOk result (λ k. KeepsNode all_kinds 0 k.own (node_start all_kinds cluster.now node)) }
        ensures steps { IfOk result (λ k. k.steps ≡ 0) }
        ensures received { IfOk result (λ k. k.received ≡ 0) }
        ensures replies { IfOk result (λ k. k.replies ≡ []) }
    {
        let own = Own::start(alloc, cluster, node)?;
        Ok(Node {
            own,
            steps: 0,
            received: 0,
            replies: List::new(alloc),
        })
    }

    /// Whether it has made all steps that it may. It takes no memory.
    pub fn is_at_limit(&self) -> bool
        ensures { result ≡ nat_le 200000 self.now.steps }
    {
        self.steps >= MOST_STEPS
    }

    /// One step of the node, within the limit: what it sends goes out. An `Err` is a fault of the link, or want of memory,
    /// or of numbers, or a packet that no datagram holds; nothing is left of the node then.
    pub fn step<L: Link>(
        self,
        alloc: Global,
        place: Place,
        link: &mut L,
        input: InputOf<AnyKind>,
    ) -> Result<Node, IoErr>
        requires sound { IsSound self }
        requires room { self.steps < 200000 }
        ensures goes { IfOk result (λ k. Goes place (input ∷ []) self (L.sent link.old) k (L.sent link.new)) }
        ensures steps { IfOk result (λ k. k.steps ≡ self.steps + 1) }
        ensures received { IfOk result (λ k. k.received ≡ self.received) }
        ensures sound { IfOk result IsSound }
        ensures handed { L.handed link.new ≡ L.handed link.old }
        ensures does { IfOk result (λ _. Does self (L.sent link.old) (step_acts place.node input) (L.acts link.old) (L.acts link.new)) }
        ensures breaks { OnErr result (Breaks self (L.sent link.old) (step_acts place.node input) (L.acts link.old) (L.acts link.new)) }
        ensures cause { HasCause (L.faults link.old) (L.faults link.new) result }
        ensures still { IfOk result (λ _. L.faults link.new ≡ L.faults link.old) }
        ensures sure { StaysSure (L.sure link.old) (L.sure link.new) (L.faults link.old) (L.faults link.new) }
    {
        let Node {
            own,
            steps,
            received,
            replies,
        } = self;
        let Stepped { own, sends, notes } = own.step(alloc, input)?;
        let mut replies = replies;
        write_replies(alloc, place.event, place.node.num, notes, &mut replies)?;
        send_all(alloc, place.node, sends, link)?;
        Ok(Node {
            own,
            steps: steps + 1,
            received,
            replies,
        })
    }
}
