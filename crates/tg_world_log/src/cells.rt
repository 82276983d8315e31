//! The cells of the log.

ghost use Rattle.std.specs.Prelude.{◌≡◌, ◌++◌, [], option_copied, OnOk, IfOk};
ghost use Rattle.tg_protocol.specs.Words.{cell_at, cell_eq};
ghost use Rattle.tg_protocol.specs.Logs.{unit_cells, all_hold, chain_cell, log_cell, cell_if, cells_of, log_of};
ghost use Rattle.tg_unit.specs.Segments.{cells_below};

use crate::positions::positions_of;
use std::alloc::Global;
use std::collections::{BTreeMap, BTreeSet};
use tg_base::{Cell, List, NoMemory, Pos, Projection};
use tg_proj::chain_of;
use tg_unit::Unit;

/// The log of a layout: each position has the cell that every unit of its chain holds, or that the archive has.
/// An `Err` is want of memory.
#[tactic(auto, unfolding(tg_protocol::specs::Logs::log_of))]
pub fn log_of(
    alloc: Global,
    layout: &Projection,
    units: &[Unit],
    archive: &BTreeMap<Pos, Cell>,
) -> Result<List<(Pos, Cell)>, NoMemory>
    ensures { IfOk result (λ l. l ≡ log_of layout.now units.now archive.now.entries) }
{
    let positions = positions_of(alloc, units, archive)?;
    cells_at(alloc, layout, units, archive, &positions)
}

/// The part of the log that is below a position; cells above it aren't copied. An `Err` is want of memory.
#[tactic(auto, unfolding(tg_protocol::specs::Logs::log_of))]
pub fn log_below(
    alloc: Global,
    layout: &Projection,
    units: &[Unit],
    archive: &BTreeMap<Pos, Cell>,
    low: Pos,
) -> Result<Vec<(Pos, Cell)>, NoMemory>
    ensures { IfOk result (λ l. l.items ≡ cells_below low (log_of layout.now units.now archive.now.entries)) }
{
    let positions = positions_of(alloc, units, archive)?;
    cells_below_at(alloc, layout, units, archive, low, &positions)
}

// The log's cells at these positions.
fn cells_at(
    alloc: Global,
    layout: &Projection,
    units: &[Unit],
    archive: &BTreeMap<Pos, Cell>,
    positions: &BTreeSet<Pos>,
) -> Result<List<(Pos, Cell)>, NoMemory>
    ensures { IfOk result (λ l. l ≡ cells_of layout.now units.now archive.now.entries positions.now.keys) }
{
    let mut cells = List::new(alloc);
    for pos in positions {
        put_cell(layout, units, archive, *pos, &mut cells)?;
    }
    Ok(cells)
}

// The log's cells at those of these positions that are below another.
fn cells_below_at(
    alloc: Global,
    layout: &Projection,
    units: &[Unit],
    archive: &BTreeMap<Pos, Cell>,
    low: Pos,
    positions: &BTreeSet<Pos>,
) -> Result<Vec<(Pos, Cell)>, NoMemory>
    ensures { IfOk result (λ l. l.items ≡ cells_below low (cells_of layout.now units.now archive.now.entries positions.now.keys)) }
{
    let mut cells = Vec::new(alloc);
    for pos in positions {
        put_below(layout, units, archive, low, *pos, &mut cells)?;
    }
    Ok(cells)
}

// Puts the log's cell at a position last, where it is below another.
fn put_below(
    layout: &Projection,
    units: &[Unit],
    archive: &BTreeMap<Pos, Cell>,
    low: Pos,
    pos: Pos,
    cells: &mut Vec<(Pos, Cell)>,
) -> Result<(), NoMemory>
    ensures { OnOk result (cells.new.items ≡ cells.old.items ++ cells_below low (cell_if pos (log_cell layout.now units.now archive.now.entries pos) [])) }
{
    if pos < low {
        if let Some(cell) = log_cell(layout, units, archive, pos) {
            cells.push((pos, cell.copy()?))?;
        }
    }
    Ok(())
}

// Puts the log's cell at a position last, if there is one.
fn put_cell(
    layout: &Projection,
    units: &[Unit],
    archive: &BTreeMap<Pos, Cell>,
    pos: Pos,
    cells: &mut List<(Pos, Cell)>,
) -> Result<(), NoMemory>
    ensures { OnOk result (cells.new ≡ cells.old ++ cell_if pos (log_cell layout.now units.now archive.now.entries pos) []) }
{
    match log_cell(layout, units, archive, pos) {
        None => Ok(()),
        Some(cell) => {
            cells.push((pos, cell.copy()?))?;
            Ok(())
        }
    }
}

// The log's cell at a position.
#[tactic(auto, unfolding(tg_protocol::specs::Layouts::chain_of))]
fn log_cell<'a>(
    layout: &Projection,
    units: &'a [Unit],
    archive: &'a BTreeMap<Pos, Cell>,
    pos: Pos,
) -> Option<&'a Cell>
    ensures { option_copied result ≡ log_cell layout.now units.now archive.now.entries pos }
{
    let chain = chain_of(layout, pos);
    match chain_cell(units, pos, chain.as_slice()) {
        Some(cell) => Some(cell),
        None => archive.get(&pos),
    }
}

// The cell that each of these units holds at a position.
fn chain_cell<'a>(units: &'a [Unit], pos: Pos, chain: &[u16]) -> Option<&'a Cell>
    ensures { option_copied result ≡ chain_cell units.now pos chain.now }
{
    match chain {
        [] => None,
        [head, others @ ..] => match cell_in(units, *head, pos) {
            None => None,
            Some(cell) => {
                if all_hold(units, pos, cell, others) {
                    return Some(cell);
                }
                None
            }
        },
    }
}

// Whether each of these units holds a cell at a position.
fn all_hold(units: &[Unit], pos: Pos, cell: &Cell, chain: &[u16]) -> bool
    ensures { result ≡ all_hold units.now pos cell.now chain.now }
{
    match chain {
        [] => true,
        [unit, others @ ..] => match cell_in(units, *unit, pos) {
            None => false,
            Some(held) => is_equal(held, cell) && all_hold(units, pos, cell, others),
        },
    }
}

fn is_equal(cell: &Cell, other: &Cell) -> bool
    ensures { result ≡ cell_eq cell.now other.now }
{
    cell.is_same(other)
}

// The cell that a unit holds at a position; a unit that isn't there holds none.
#[tactic(auto, unfolding(tg_protocol::specs::Units::new_unit))]
fn cell_in(units: &[Unit], unit: u16, pos: Pos) -> Option<&Cell>
    ensures { option_copied result ≡ cell_at (unit_cells units.now unit) pos }
{
    match units.get(unit as usize) {
        None => None,
        Some(unit) => unit.peek(pos),
    }
}
