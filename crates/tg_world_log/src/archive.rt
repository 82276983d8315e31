//! Cells of the log that are trimmed.

ghost use Rattle.std.specs.Prelude.{◌≡◌, ◌<◌, ◌∷◌, [], length, slice_index_or, OnOk};
ghost use Rattle.tg_world_log.specs.Archives.{archived};
ghost use Rattle.tg_protocol.specs.Logs.{log_of};
ghost use Rattle.tg_protocol.specs.Units.{UnitState};

use crate::cells::log_below;
use std::alloc::Global;
use std::collections::BTreeMap;
use tg_base::{Cell, NoMemory, Pos, Projection};
use tg_unit::Unit;

/// Puts those of these cells that are below a position into the archive. Of several cells of one position the first
/// counts. An `Err` is want of memory; some of the cells may be in the archive then.
pub fn archive_cells(
    archive: &mut BTreeMap<Pos, Cell>,
    cells: Vec<(Pos, Cell)>,
    low: Pos,
) -> Result<(), NoMemory>
    ensures { OnOk result (archive.new.entries ≡ archived cells.items low archive.old.entries) }
{
    let mut left = cells;
    while let Some((pos, cell)) = left.pop() {
        archive_cell(archive, pos, cell, low)?;
    }
    Ok(())
}

// Puts a cell that is below a position into the archive.
fn archive_cell(
    archive: &mut BTreeMap<Pos, Cell>,
    pos: Pos,
    cell: Cell,
    low: Pos,
) -> Result<(), NoMemory>
    ensures { OnOk result (archive.new.entries ≡ archived ((pos, cell) ∷ []) low archive.old.entries) }
{
    if pos < low {
        archive.insert(pos, cell)?;
    }
    Ok(())
}

/// The cells of a layout's log that are below a unit's new `low`, and the unit's own ones below it, come into the
/// archive: of several cells of one position the log's counts, then the unit's. An `Err` is want of memory; some of
/// the cells may be in the archive then.
#[tactic(auto, using(crate::proofs::Below::below_archived))]
pub fn archive_trim(
    alloc: Global,
    archive: &mut BTreeMap<Pos, Cell>,
    layout: &Projection,
    units: &[Unit],
    num: usize,
    low: Pos,
) -> Result<(), NoMemory>
    requires { num < length units.now }
    ensures { (d : UnitState) → OnOk result (archive.new.entries ≡ archived (log_of layout.now units.now archive.old.entries) low (archived (slice_index_or units.now num d).cells low archive.old.entries)) }
{
    let log = log_below(alloc, layout, units, archive, low)?;
    let held = units[num].below(alloc, low)?;
    archive_cells(archive, held, low)?;
    archive_cells(archive, log, low)
}
