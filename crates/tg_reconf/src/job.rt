//! How far a reconfiguration has come.

use crate::vote::Vote;
use tg_base::{List, Pos, Projection};

/// What is awaited. The spare is the unit that joins.
#[derive(Drop)]
pub enum Work {
    /// The spare's seal at the present epoch.
    SealsSpare {
        rid: u64,
    },
    /// Whether the spare has the whole stripe.
    LooksAtSpare {
        rid: u64,
    },
    /// The seals of the next layout's units at the next epoch; each ack names a unit and where its cells end.
    Seals {
        waits: List<(u16, u64)>,
        acks: List<(u16, Pos)>,
    },
    /// Whether the spare has the whole stripe at the next epoch.
    LooksAgain {
        rid: u64,
        acks: List<(u16, Pos)>,
    },
    /// The layout servers' votes.
    Votes {
        vote: Vote,
    },
    /// That the layout servers hear what is decided.
    Tells {
        waits: List<(u16, u64)>,
        heard: usize,
        proj: Projection,
    },
    /// The new sequencer's first answer.
    Starts {
        rid: u64,
    },
}
