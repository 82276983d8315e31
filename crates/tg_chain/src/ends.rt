//! How machines end.

use tg_base::{Cell, Epoch, Pos, Stand};

/// How a put ends.
#[derive(Drop)]
pub enum PutCellEnd {
    /// Each unit of the chain holds the page.
    Done,
    /// The head holds this other cell.
    Lost { cell: Cell },
    /// A unit has left the epoch, and stands at this one.
    Fenced { unit: u16, epoch: Epoch },
    /// A unit has trimmed all positions below this one.
    Gone { below: Pos },
}

/// How a get ends.
#[derive(Drop)]
pub enum GetCellEnd {
    /// The position's cell.
    Done { cell: Cell },
    /// A unit has left the epoch, and stands at this one.
    Fenced { unit: u16, epoch: Epoch },
    /// A unit has trimmed all positions below this one.
    Gone { below: Pos },
}

/// How a fill ends.
#[derive(Drop)]
pub enum FillCellEnd {
    /// The position's cell, which each unit of the chain holds.
    Done { cell: Cell },
    /// A unit has left the epoch, and stands at this one.
    Fenced { unit: u16, epoch: Epoch },
    /// A unit has trimmed all positions below this one.
    Gone { below: Pos },
}

/// How a probe ends.
#[derive(Drop)]
pub enum ProbeEnd {
    /// Each unit of the chain has answered in the epoch.
    Seen,
    /// A unit has left the epoch, and stands at this one.
    Fenced { unit: u16, epoch: Epoch },
}

/// How learning ends.
#[derive(Drop)]
pub enum LearnEnd {
    /// A newer layout is known.
    Known { stand: Stand },
}
