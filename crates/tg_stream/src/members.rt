//! How a walk ends.

use crate::cells::Cells;
use tg_base::{List, Pos};

/// The members of a stream that a walk has found.
#[derive(Drop)]
pub struct Members {
    /// Their positions, rising.
    pub list: List<Pos>,
    /// Where the walk met a trim: the position below which a unit has said that all is trimmed.
    pub gone: Option<Pos>,
    /// The known cells, with those that the walk has read.
    pub cells: Cells,
}
