//! The cells of a unit, in segments.

ghost use Rattle.std.specs.Prelude.{◌≡◌, ℕ, ◌+◌, ◌-◌, ◌*◌, ◌/◌, ◌%◌, ◌^◌, ◌<◌, ◌≤◌, ◌↔◌, [], is_some, option_copied, Some, None, true, false, IsNone, IfOk, IfSome, OnOk, OnErr, ◌++◌, ◌∷◌};
ghost use Rattle.tg_protocol.specs.Words.{cell_at, with_cell, cells_from};
ghost use Rattle.tg_protocol.specs.Logs.{positions};
ghost use Rattle.tg_unit.specs.Segments.{by_position, cells_below, cells_of, segment_at, AreLow, AreNear, AreSegments, IsBare, TellsSegment, HasFrom, LacksFrom};

use crate::segment::Segment;
use std::alloc::Global;
use std::collections::BTreeMap;
use std::marker::Model;
use tg_base::{Cell, List, NoMemory, Pos};

/// How many positions a segment has.
const SPAN: u64 = 64;

/// Cells by position. The segment that is numbered `num` has the positions from `64 * num` on.
#[derive(Drop)]
pub struct Cells {
    segments: BTreeMap<u64, Segment>,
}

impl Model for Cells {
    ghost use Rattle.std.specs.Prelude.{ℕ, List};
    ghost use Rattle.tg_base.specs.declared.cell.Cell.{Cell};
    ghost use Rattle.tg_unit.specs.Segments.{cells_of, AreSegments};

    ghost Value = { List (ℕ × Cell) };

    ghost view = { λ c. cells_of c.segments.entries };

    ghost invariant = { λ c. AreSegments 0 c.segments.entries };
}

impl Cells {
    /// No cells.
    pub fn new(alloc: Global) -> Cells
        ensures { result ≡ [] }
    {
        Cells {
            segments: BTreeMap::new(alloc),
        }
    }

    /// The cell at a position. It takes no memory.
    pub fn get(&self, pos: Pos) -> Option<&Cell>
        ensures { option_copied result ≡ cell_at self.now pos }
    {
        let num = pos / SPAN;
        match self.segments.get(&num) {
            None => None,
            Some(segment) => segment.get((pos % SPAN) as u8),
        }
    }

    /// How many positions from this one on have cells, up to the first that has none or the end
    /// of the segment.
    pub fn run(&self, pos: Pos) -> u64
        ensures within { result + pos % 64 ≤ 64 }
        ensures held { (j : ℕ) → j < result → is_some (cell_at self.now (pos + j)) ≡ true }
        ensures bare { result + pos % 64 < 64 → cell_at self.now (pos + result) ≡ None }
    {
        let num = pos / SPAN;
        match self.segments.get(&num) {
            None => 0,
            Some(segment) => u64::from(segment.run((pos % SPAN) as u8)),
        }
    }

    /// The positions that have cells, in their order. An `Err` is want of memory.
    pub fn positions(&self, alloc: Global) -> Result<List<Pos>, NoMemory>
        ensures { IfOk result (λ ps. ps ≡ positions self.now) }
    {
        positions_of(alloc, &self.segments)
    }

    /// Equal cells below a position, with their positions. An `Err` is want of memory.
    pub fn below(&self, alloc: Global, low: Pos) -> Result<Vec<(Pos, Cell)>, NoMemory>
        ensures { IfOk result (λ l. l.items ≡ cells_below low self.now) }
    {
        below_of(alloc, &self.segments, low)
    }

    /// The segment with a number: None exactly where none of its positions has a cell.
    pub fn segment(&self, num: u64) -> Option<&Segment>
        ensures none { IsNone result ↔ IsBare self.now num }
        ensures some { IfSome result (λ s. TellsSegment self.now num s.now) }
    {
        self.segments.get(&num)
    }

    /// Puts a cell at a position that has none. An `Err` changes nothing.
    pub fn put(&mut self, alloc: Global, pos: Pos, cell: Cell) -> Result<(), NoMemory>
        requires { cell_at self.old pos ≡ None }
        ensures ok { OnOk result (self.new ≡ with_cell self.old pos cell) }
        ensures err { OnErr result (self.new ≡ self.old) }
    {
        put_in(
            alloc,
            &mut self.segments,
            pos / SPAN,
            (pos % SPAN) as u8,
            cell,
        )
    }

    /// Drops the cells below a position. It takes no memory.
    pub fn drop_below(&mut self, below: Pos)
        ensures { self.new ≡ cells_from below self.old }
    {
        let num = below / SPAN;
        drop_segments(&mut self.segments, num);
        drop_places(&mut self.segments, num, (below % SPAN) as u8);
    }
}

/// The positions of the cells of segments.
fn positions_of(alloc: Global, segments: &BTreeMap<u64, Segment>) -> Result<List<Pos>, NoMemory>
    requires { AreNear segments.now.entries }
    ensures { IfOk result (λ ps. ps ≡ positions (cells_of segments.now.entries)) }
{
    let mut found = List::new(alloc);
    for (num, segment) in segments {
        put_positions(*num, segment.cells.as_slice(), &mut found)?;
    }
    Ok(found)
}

/// Puts the positions of a segment's cells last.
fn put_positions(num: u64, cells: &[(u8, Cell)], found: &mut List<Pos>) -> Result<(), NoMemory>
    requires near { num < 2 ^ 58 }
    requires places { AreLow cells.now }
    ensures { OnOk result (found.new ≡ found.old ++ positions (by_position num cells.now)) }
{
    match cells {
        [] => Ok(()),
        [(place, _), others @ ..] => {
            found.push(position(num, *place))?;
            put_positions(num, others, found)
        }
    }
}

/// Equal cells of segments below a position.
fn below_of(
    alloc: Global,
    segments: &BTreeMap<u64, Segment>,
    low: Pos,
) -> Result<Vec<(Pos, Cell)>, NoMemory>
    requires { AreNear segments.now.entries }
    ensures { IfOk result (λ l. l.items ≡ cells_below low (cells_of segments.now.entries)) }
{
    let mut found = Vec::new(alloc);
    for (num, segment) in segments {
        put_below(*num, segment.cells.as_slice(), low, &mut found)?;
    }
    Ok(found)
}

/// Puts equal cells of a segment below a position last.
#[tactic(auto, using(crate::proofs::Positions::below_next))]
fn put_below(
    num: u64,
    cells: &[(u8, Cell)],
    low: Pos,
    found: &mut Vec<(Pos, Cell)>,
) -> Result<(), NoMemory>
    requires near { num < 2 ^ 58 }
    requires places { AreLow cells.now }
    ensures { OnOk result (found.new.items ≡ found.old.items ++ cells_below low (by_position num cells.now)) }
{
    match cells {
        [] => Ok(()),
        [(place, cell), others @ ..] => {
            put_if_below(position(num, *place), cell, low, found)?;
            put_below(num, others, low, found)
        }
    }
}

/// Puts an equal cell last, where its position is below another.
fn put_if_below(
    pos: Pos,
    cell: &Cell,
    low: Pos,
    found: &mut Vec<(Pos, Cell)>,
) -> Result<(), NoMemory>
    ensures { OnOk result (found.new.items ≡ found.old.items ++ cells_below low ((pos, cell.now) ∷ [])) }
{
    if pos < low {
        found.push((pos, cell.copy()?))?;
    }
    Ok(())
}

/// The position of a place of a segment.
fn position(num: u64, place: u8) -> Pos
    requires near { num < 2 ^ 58 }
    requires place { place < 64 }
    ensures { result ≡ 64 * num + place }
{
    SPAN * num + u64::from(place)
}

/// Puts a cell at a place of a segment. A new segment is whole before it comes into the map, so
/// an `Err` changes nothing.
fn put_in(
    alloc: Global,
    segments: &mut BTreeMap<u64, Segment>,
    num: u64,
    place: u8,
    cell: Cell,
) -> Result<(), NoMemory>
    requires near { num < 2 ^ 58 }
    requires place { place < 64 }
    requires whole { AreSegments 0 segments.old.entries }
    requires free { cell_at (cells_of segments.old.entries) (64 * num + place) ≡ None }
    ensures cells { OnOk result (cells_of segments.new.entries ≡ with_cell (cells_of segments.old.entries) (64 * num + place) cell) }
    ensures whole { OnOk result (AreSegments 0 segments.new.entries) }
    ensures err { OnErr result (segments.new.entries ≡ segments.old.entries) }
{
    match segments.get_mut(&num) {
        Some(segment) => segment.put(place, cell),
        None => {
            let segment = Segment::of(alloc, place, cell)?;
            segments.insert(num, segment)?;
            Ok(())
        }
    }
}

/// Drops the segments below a number.
fn drop_segments(segments: &mut BTreeMap<u64, Segment>, num: u64)
    requires { AreSegments 0 segments.old.entries }
    ensures whole { AreSegments num segments.new.entries }
    ensures cells { (place : ℕ) → cells_from (64 * num + place) (cells_of segments.new.entries) ≡ cells_from (64 * num + place) (cells_of segments.old.entries) }
{
    while let Some((first, _)) = segments.first_key_value() {
        if *first >= num {
            break;
        }
        let _ = segments.pop_first();
    }
}

/// Drops the cells below a place of the first segment, and the segment where no cell is left.
fn drop_places(segments: &mut BTreeMap<u64, Segment>, num: u64, place: u8)
    requires place { place < 64 }
    requires whole { AreSegments num segments.old.entries }
    ensures whole { AreSegments 0 segments.new.entries }
    ensures cells { cells_of segments.new.entries ≡ cells_from (64 * num + place) (cells_of segments.old.entries) }
{
    if has_from(segments, num, place) {
        clear_below(segments, num, place);
    } else {
        let _ = segments.remove(&num);
    }
}

/// Whether a segment has a cell at a place or later.
fn has_from(segments: &BTreeMap<u64, Segment>, num: u64, place: u8) -> bool
    requires place { place < 64 }
    requires whole { AreSegments num segments.now.entries }
    ensures some { result ≡ true → HasFrom place (segment_at segments.now.entries num) }
    ensures none { result ≡ false → LacksFrom place (segment_at segments.now.entries num) }
{
    match segments.get(&num) {
        None => false,
        Some(segment) => segment.has_from(place),
    }
}

/// Drops the cells below a place of a segment.
fn clear_below(segments: &mut BTreeMap<u64, Segment>, num: u64, place: u8)
    requires place { place < 64 }
    requires whole { AreSegments num segments.old.entries }
    requires some { HasFrom place (segment_at segments.old.entries num) }
    ensures whole { AreSegments num segments.new.entries }
    ensures cells { cells_of segments.new.entries ≡ cells_from (64 * num + place) (cells_of segments.old.entries) }
{
    if let Some(segment) = segments.get_mut(&num) {
        segment.drop_below(place);
    }
}
