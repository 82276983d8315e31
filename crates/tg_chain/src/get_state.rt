//! How far a get has come.

use crate::cell_place::CellPlace;
use crate::fill::FillCell;

/// The last unit is asked, or a hole is filled.
#[derive(Drop)]
pub enum GetState {
    Reads { place: CellPlace, rid: u64 },
    Fills { fill: FillCell },
}
