//! How far a fill has come.

use tg_base::Cell;

/// The head is asked for its cell, or a cell goes to the unit at a place of the chain.
#[derive(Drop)]
pub enum FillState {
    Asks { rid: u64 },
    Copies { rid: u64, cell: Cell, at: usize },
}
