//! What a machine gives back after a step.

use tg_base::{List, Out, Pos};

/// What becomes of a machine.
#[derive(Drop)]
pub enum Next<M, P, E> {
    /// It goes on.
    Goes { machine: M },
    /// A node has left the epoch. This is what goes on in a newer layout.
    Learns { paused: P },
    /// It has ended.
    Ends { end: E },
}

/// A machine's step.
#[derive(Drop)]
pub struct Step<M, P, E> {
    pub next: Next<M, P, E>,
    /// What is to be sent.
    pub outs: List<Out>,
    /// The position below which a unit has said that all is trimmed, and 0 where none has.
    pub gone: Pos,
}
