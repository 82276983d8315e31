//! A segment of 64 positions.

ghost use Rattle.std.specs.Prelude.{◌≡◌, ℕ, ◌+◌, ◌-◌, ◌/◌, ◌^◌, ◌<◌, ◌≤◌, [], length, insert, is_some, option_copied, None, true, false, IfOk, OnOk, OnErr};
ghost use Rattle.tg_base.specs.declared.cell.Cell.{Cell};
ghost use Rattle.tg_protocol.specs.Words.{cell_at, with_cell, cells_from};
ghost use Rattle.tg_unit.specs.Bits.{with_bit as word_with, without_low as word_without, IsRun};
ghost use Rattle.tg_unit.specs.Segments.{ArePlaces, BeginsBelow, BeginsFrom, is_junk as junk_is};

use std::alloc::Global;
use tg_base::{Cell, List, NoMemory};

/// The cells of 64 positions. A place is what is left of a position divided by 64.
#[derive(Drop)]
pub struct Segment {
    /// A bit for each place that has a cell.
    pub held: u64,
    /// A bit for each place that has junk.
    pub junk: u64,
    /// The cells by place, rising.
    pub cells: List<(u8, Cell)>,
}

impl Segment {
    ghost use Rattle.tg_unit.specs.Segments.{IsSegment};

    /// A segment with one cell.
    pub(crate) fn of(alloc: Global, place: u8, cell: Cell) -> Result<Segment, NoMemory>
        requires { place < 64 }
        ensures whole { IfOk result IsSegment }
        ensures cells { IfOk result (λ s. s.cells ≡ with_cell [] place cell) }
    {
        let mut segment = Segment {
            held: 0,
            junk: 0,
            cells: List::new(alloc),
        };
        segment.put(place, cell)?;
        Ok(segment)
    }

    /// Puts a cell at a place that has none. An `Err` changes nothing.
    pub(crate) fn put(&mut self, place: u8, cell: Cell) -> Result<(), NoMemory>
        requires place { place < 64 }
        requires whole { IsSegment self.old }
        requires free { cell_at self.old.cells place ≡ None }
        ensures whole { OnOk result (IsSegment self.new) }
        ensures cells { OnOk result (self.new.cells ≡ with_cell self.old.cells place cell) }
        ensures err { OnErr result (self.new ≡ self.old) }
    {
        let is_junk = is_junk(&cell);
        put_cell(&mut self.cells, place, cell)?;
        self.held = with_bit(true, self.held, place);
        self.junk = with_bit(is_junk, self.junk, place);
        Ok(())
    }

    /// The cell at a place.
    pub(crate) fn get(&self, place: u8) -> Option<&Cell>
        ensures { option_copied result ≡ cell_at self.now.cells place }
    {
        find(self.cells.as_slice(), place)
    }

    /// Whether a place from this one on has a cell.
    pub(crate) fn has_from(&self, place: u8) -> bool
        requires place { place < 64 }
        requires whole { IsSegment self.now }
        ensures some { result ≡ true → 1 ≤ length (cells_from place self.now.cells) }
        ensures none { result ≡ false → cells_from place self.now.cells ≡ [] }
    {
        let held = self.held;
        held >> place != 0
    }

    /// How many places from this one on have cells, up to the first that has none.
    pub(crate) fn run(&self, place: u8) -> u32
        requires { place < 64 }
        ensures { IsRun self.now.held place result }
    {
        (self.held >> place).trailing_ones()
    }

    /// Drops the cells below a place. It takes no memory.
    pub(crate) fn drop_below(&mut self, place: u8)
        requires place { place < 64 }
        requires whole { IsSegment self.old }
        ensures whole { IsSegment self.new }
        ensures cells { self.new.cells ≡ cells_from place self.old.cells }
    {
        self.held = without_low(self.held, place);
        self.junk = without_low(self.junk, place);
        drop_cells(&mut self.cells, place);
    }
}

fn is_junk(cell: &Cell) -> bool
    ensures { result ≡ junk_is cell.now }
{
    match cell {
        Cell::Junk => true,
        Cell::Data(_) => false,
    }
}

fn with_bit(on: bool, word: u64, place: u8) -> u64
    requires { place < 64 }
    ensures { result ≡ word_with on word place }
{
    if on { word | 1 << place } else { word }
}

fn without_low(word: u64, place: u8) -> u64
    requires { place < 64 }
    ensures { result ≡ word_without word place }
{
    word & (u64::MAX << place)
}

fn put_cell(cells: &mut List<(u8, Cell)>, place: u8, cell: Cell) -> Result<(), NoMemory>
    requires { cell_at cells.old place ≡ None }
    ensures ok { OnOk result (cells.new ≡ with_cell cells.old place cell) }
    ensures err { OnErr result (cells.new ≡ cells.old) }
{
    let at = place_of(cells.as_slice(), place);
    cells.insert(at, (place, cell))
}

/// Where a new place comes among rising ones.
fn place_of(cells: &[(u8, Cell)], place: u8) -> usize
    requires { cell_at cells.now place ≡ None }
    ensures within { result ≤ length cells.now }
    ensures exact { (c : Cell) → with_cell cells.now place c ≡ insert cells.now result (place, c) }
{
    match cells {
        [] => 0,
        [first, others @ ..] => {
            if first.0 < place {
                1 + place_of(others, place)
            } else {
                0
            }
        }
    }
}

fn find(cells: &[(u8, Cell)], place: u8) -> Option<&Cell>
    ensures { option_copied result ≡ cell_at cells.now place }
{
    match cells {
        [] => None,
        [first, others @ ..] => {
            if first.0 == place {
                Some(&first.1)
            } else {
                find(others, place)
            }
        }
    }
}

fn drop_cells(cells: &mut List<(u8, Cell)>, place: u8)
    requires { ArePlaces 0 cells.old }
    ensures { cells.new ≡ cells_from place cells.old }
{
    while begins_below(cells.as_slice(), place) {
        let _ = cells.remove(0);
    }
}

/// Whether there is a first place, below another.
fn begins_below(cells: &[(u8, Cell)], place: u8) -> bool
    ensures below { result ≡ true → BeginsBelow place cells.now }
    ensures from { result ≡ false → BeginsFrom place cells.now }
{
    match cells {
        [] => false,
        [first, ..] => first.0 < place,
    }
}
