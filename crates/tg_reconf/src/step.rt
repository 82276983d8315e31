//! What a step of a reconfiguration gives back, and how it ends.

use crate::reconf::Reconf;
use tg_base::{Epoch, List, Out, Pos, Projection};

/// How a reconfiguration ends: each time with the layout on which the client then stands.
#[derive(Drop)]
pub enum ReconfEnd {
    /// The client's own layout was decided for this epoch, and its sequencer has started, or a newer layout is
    /// known.
    Installed {
        epoch: Epoch,
        stand: Projection,
    },
    /// Another layout of this epoch was decided.
    Overtaken {
        epoch: Epoch,
        stand: Projection,
    },
    /// The unit that was to join hasn't this position.
    NotWhole {
        unit: u16,
        pos: Pos,
        stand: Projection,
    },
}

/// What becomes of a reconfiguration.
#[derive(Drop)]
pub enum Next {
    /// It goes on.
    Goes { machine: Reconf },
    /// A node has left the epoch: it goes on when a newer layout is learnt.
    Learns { machine: Reconf },
    /// It has ended.
    Ends { end: ReconfEnd },
}

/// A step of a reconfiguration.
#[derive(Drop)]
pub struct Step {
    pub next: Next,
    /// What is to be sent.
    pub outs: List<Out>,
}
