//! How far a round of Paxos has come (Lamport, "Paxos made simple", 2001).

use tg_base::{Ballot, List, Projection};

/// What an acceptor had accepted before.
pub type Accepted = Option<(Ballot, Projection)>;

/// A round and its stage.
#[derive(Drop)]
pub struct Vote {
    pub round: Round,
    pub stage: VoteStage,
}

/// A round, in which the client is the proposer.
#[derive(Drop)]
pub struct Round {
    /// The layout that the client would have.
    pub own: Projection,
    pub number: u32,
    /// The round that a refusal has set: the next tick begins it.
    pub later: Option<NextRound>,
}

/// Promises are awaited, or the acceptance of a layout.
#[derive(Drop)]
pub enum VoteStage {
    Prepares {
        waits: List<(u16, u64)>,
        promises: List<Accepted>,
    },
    Accepts {
        waits: List<(u16, u64)>,
        accepted: usize,
        proj: Projection,
    },
}

/// A round whose numbers are drawn.
#[derive(Drop)]
pub struct NextRound {
    pub number: u32,
    pub waits: List<(u16, u64)>,
}
