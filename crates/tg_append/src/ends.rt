//! How machines end.

use tg_base::{Blob, Cell, List, Pos, StreamLink};

/// How an append ends.
#[derive(Drop)]
pub enum AppendEnd {
    /// The entry's page stands at this position.
    At { pos: Pos, page: Blob },
    /// The sequencer has issued all positions below its limit.
    Full { limit: u64 },
    /// A unit has trimmed the position of the token, whose cell isn't known.
    Forgotten { at: Pos, below: Pos },
}

/// How a sync ends: the tail, the last positions of each stream below it, and the cell that was settled on the
/// way.
#[derive(Drop)]
pub struct Confirmed {
    pub tail: Pos,
    pub lasts: List<StreamLink>,
    pub settled: Option<(Pos, Cell)>,
}
