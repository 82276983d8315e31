//! Cells of the log.

ghost use Rattle.std.specs.Prelude.{◌≡◌, ◌↔◌, IfOk, IsTrue};

use crate::blob::Blob;
use crate::fault::NoMemory;

/// What stands at a position: junk, or a page.
#[derive(Clone, PartialEq, Drop)]
pub enum Cell {
    Junk,
    Data(Blob),
}

impl Cell {
    /// An equal cell.
    pub fn copy(&self) -> Result<Cell, NoMemory>
        ensures { IfOk result (λ c. c ≡ self.now) }
    {
        match self {
            Cell::Junk => Ok(Cell::Junk),
            Cell::Data(page) => Ok(Cell::Data(page.copy()?)),
        }
    }

    /// Whether both are junk, or pages of the same bytes.
    pub fn is_same(&self, other: &Cell) -> bool
        ensures { IsTrue result ↔ (self.now ≡ other.now) }
    {
        self == other
    }
}
