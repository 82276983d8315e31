//! A cell, and the entry that its page spells.

ghost use Rattle.std.specs.Prelude.{◌≡◌, true, option_copied, IfOk};
ghost use Rattle.tg_protocol.specs.Pages.{entry_of, entry_in};
ghost use Rattle.tg_stream.specs.Pages.{fits_by, unboxed, Says};

use std::alloc::Global;
use std::marker::Model;
use tg_base::{Blob, Cell, NoMemory};
use tg_entry::{Entry, EntryFault, decode};

/// A cell, with the entry that its page spells once it was read: a page at which many look is decoded once. Contracts see
/// the cell.
pub struct Page {
    cell: Cell,
    // None where the cell holds none, and where it wasn't read
    entry: Option<Box<Entry>>,
}

// By hand, since a derived drop is proved anew wherever a value is dropped.
impl Drop for Page {
    fn drop(self) {
        let Page { cell: _, entry: _ } = self;
    }
}

impl Model for Page {
    ghost use Rattle.tg_base.specs.declared.cell.Cell.{Cell};
    ghost use Rattle.tg_stream.specs.Pages.{unboxed, Says};

    ghost Value = { Cell };

    ghost view = { λ p. p.cell };

    ghost invariant = { λ p. Says p.cell (unboxed p.entry) };
}

impl Page {
    /// A cell that isn't read yet. It takes no memory.
    pub fn unread(cell: Cell) -> Page
        ensures { result ≡ cell }
    {
        Page { cell, entry: None }
    }

    /// A cell that is read. An `Err` is want of memory.
    pub fn read(alloc: Global, cell: Cell) -> Result<Page, NoMemory>
        ensures { IfOk result (λ p. p ≡ cell) }
    {
        let read = entry_in(alloc, &cell)?;
        let entry = boxed(alloc, read)?;
        Ok(Page { cell, entry })
    }

    /// Reads the page, unless it was read. The cell stays as it is.
    pub fn look(&mut self, alloc: Global) -> Result<(), NoMemory>
        ensures { self.new ≡ self.old }
    {
        if self.entry.is_some() {
            return Ok(());
        }
        let read = entry_in(alloc, &self.cell)?;
        let entry = boxed(alloc, read)?;
        self.entry = entry;
        Ok(())
    }

    /// The cell. It takes no memory.
    pub fn cell(&self) -> &Cell
        ensures { result.now ≡ self.now }
    {
        &self.cell
    }

    /// The entry that was read, None where the cell holds none and where it wasn't read. It takes no memory.
    pub fn kept(&self) -> Option<&Entry>
        ensures { Says self.now (option_copied result) }
    {
        match &self.entry {
            None => None,
            Some(entry) => Some(&**entry),
        }
    }

    /// The entry that the cell holds, None where it holds none. An `Err` is want of memory.
    pub fn entry(&self, alloc: Global) -> Result<Option<Entry>, NoMemory>
        ensures entry { IfOk result (λ e. e ≡ entry_in self.now) }
        ensures spelled { IfOk result (λ e. fits_by e ≡ true) }
    {
        match self.kept() {
            None => entry_in(alloc, self.cell()),
            Some(entry) => {
                let copy = entry.copy()?;
                Ok(Some(copy))
            }
        }
    }
}

/// The entry in a box, if there is one.
fn boxed(alloc: Global, entry: Option<Entry>) -> Result<Option<Box<Entry>>, NoMemory>
    ensures { IfOk result (λ b. unboxed b ≡ entry) }
{
    match entry {
        None => Ok(None),
        Some(entry) => {
            let entry = Box::new(alloc, entry)?;
            Ok(Some(entry))
        }
    }
}

/// The entry whose spelling a page is, None where it is no entry's.
#[tactic(auto, unfolding(tg_protocol::specs::Pages::entry_of))]
fn entry_of(alloc: Global, page: &Blob) -> Result<Option<Entry>, NoMemory>
    ensures entry { IfOk result (λ e. e ≡ entry_of page.now) }
    ensures spelled { IfOk result (λ e. fits_by e ≡ true) }
{
    match decode(alloc, page.as_slice()) {
        Ok(entry) => Ok(Some(entry)),
        Err(EntryFault::NoMemory) => Err(NoMemory),
        Err(_) => Ok(None),
    }
}

/// The entry that a cell holds, None where it holds none.
fn entry_in(alloc: Global, cell: &Cell) -> Result<Option<Entry>, NoMemory>
    ensures entry { IfOk result (λ e. e ≡ entry_in cell.now) }
    ensures spelled { IfOk result (λ e. fits_by e ≡ true) }
{
    match cell {
        Cell::Junk => Ok(None),
        Cell::Data(page) => entry_of(alloc, page),
    }
}
