//! Known cells.

ghost use Rattle.std.specs.Prelude.{◌≡◌, [], option_copied, IfOk};
ghost use Rattle.tg_protocol.specs.Words.{cell_at, with_cell, cells_from};

use crate::page::Page;
use std::alloc::Global;
use std::collections::BTreeMap;
use std::marker::Model;
use tg_base::{Cell, NoMemory, Pos};

/// Known cells by position. A cell that is final stays so, and isn't read again, nor is its page decoded again.
pub struct Cells {
    map: BTreeMap<u64, Page>,
}

// By hand, since a derived drop is proved anew wherever a value is dropped.
impl Drop for Cells {
    fn drop(self) {
        let Cells { map: _ } = self;
    }
}

impl Model for Cells {
    ghost use Rattle.std.specs.Prelude.{ℕ, List};
    ghost use Rattle.tg_base.specs.declared.cell.Cell.{Cell};

    ghost Value = { List (ℕ × Cell) };

    ghost view = { λ c. c.map.entries };
}

impl Cells {
    /// None is known. It takes no memory.
    pub fn new(alloc: Global) -> Cells
        ensures { result ≡ [] }
    {
        Cells {
            map: BTreeMap::new(alloc),
        }
    }

    /// The cells of a map by position. It takes no memory.
    pub fn from_map(map: BTreeMap<u64, Page>) -> Cells
        ensures { result ≡ map.entries }
    {
        Cells { map }
    }

    /// The cells as a map by position. It takes no memory.
    pub fn into_map(self) -> BTreeMap<u64, Page>
        ensures { result.entries ≡ self }
    {
        let Cells { map } = self;
        map
    }

    /// The cell at a position: None exactly where none is known. It takes no memory.
    pub fn get(&self, pos: Pos) -> Option<&Cell>
        ensures { option_copied result ≡ cell_at self.now pos }
    {
        match self.page(pos) {
            None => None,
            Some(page) => Some(page.cell()),
        }
    }

    /// The cell at a position, with what its page says: None exactly where none is known. It takes no memory.
    pub fn page(&self, pos: Pos) -> Option<&Page>
        ensures { option_copied result ≡ cell_at self.now pos }
    {
        self.map.get(&pos)
    }

    /// The page at a position is read, where it is known and wasn't read. The cells stay as they are.
    pub fn read(&mut self, alloc: Global, pos: Pos) -> Result<(), NoMemory>
        ensures { self.new ≡ self.old }
    {
        read_at(alloc, &mut self.map, pos)
    }

    /// The cell at a position becomes known. Where memory runs out, all are given up.
    pub fn put(self, pos: Pos, page: Page) -> Result<Cells, NoMemory>
        ensures { IfOk result (λ c. c ≡ with_cell self pos page) }
    {
        let Cells { mut map } = self;
        map.insert(pos, page)?;
        Ok(Cells { map })
    }

    /// The cells below a position are given up. It takes no memory.
    pub fn forget_below(self, pos: Pos) -> Cells
        ensures { result ≡ cells_from pos self }
    {
        let Cells { mut map } = self;
        drop_below(&mut map, pos);
        Cells { map }
    }
}

/// Reads the page at a position, where one is known.
fn read_at(alloc: Global, map: &mut BTreeMap<u64, Page>, pos: Pos) -> Result<(), NoMemory>
    ensures { map.new.entries ≡ map.old.entries }
{
    match map.get_mut(&pos) {
        None => Ok(()),
        Some(page) => page.look(alloc),
    }
}

/// Drops the entries below a position.
fn drop_below(map: &mut BTreeMap<u64, Page>, pos: Pos)
    ensures { map.new.entries ≡ cells_from pos map.old.entries }
{
    while let Some((first, _)) = map.first_key_value() {
        if *first >= pos {
            break;
        }
        let _ = map.pop_first();
    }
}
