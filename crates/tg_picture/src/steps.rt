//! The steps of a run.

use tg_base::{NodeId, Role};

/// What happened in a step.
#[derive(Clone, Copy, PartialEq, Eq)]
pub enum Happening {
    /// A client was given a command.
    Given { client: u16 },
    /// A packet came, for the first time or again.
    Came { packet: u64 },
    /// A packet was lost.
    Lost { packet: u64 },
    /// Time passed at a node.
    Ticked { node: NodeId },
    /// A node stopped for good.
    Stopped { node: NodeId },
}

/// A step of a run, with what there was when it had been made.
#[derive(Clone, Copy)]
pub struct Step {
    /// The event line of the script that it belongs to, from 1.
    pub line: u64,
    pub happening: Happening,
    /// How many packets had been sent.
    pub sent: u64,
    /// How many replies had been told.
    pub told: u64,
}

/// The node that was given a command, or at which time passed.
pub fn node_of(happening: Happening) -> Option<NodeId> {
    match happening {
        Happening::Given { client } => Some(NodeId {
            role: Role::Client,
            num: client,
        }),
        Happening::Ticked { node } => Some(node),
        Happening::Came { .. } | Happening::Lost { .. } | Happening::Stopped { .. } => None,
    }
}
