//! How far a copy has come.

use crate::reading::Reading;
use tg_base::{Cell, Pos};

/// What the spare is asked.
#[derive(Drop)]
pub enum Ask {
    /// To stand at the layout's epoch.
    Seal,
    /// To hold a cell.
    Store { pos: Pos, cell: Cell },
    /// To trim what a unit of the stripe has trimmed.
    Trim { below: Pos },
    /// Whether it has each position of the stripe.
    Look,
}

/// The spare is asked, or a cell of the stripe is read.
#[derive(Drop)]
pub enum CopyState {
    Asks { rid: u64, ask: Ask },
    Reads { reading: Reading },
}
