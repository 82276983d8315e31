//! Pages among known cells.

ghost use Rattle.std.specs.Prelude.{◌≡◌, ◌<◌, ◌++◌, [], ◌∷◌, if◌then◌else◌, filter, IfOk, OnOk};
ghost use Rattle.std.specs.BTreeMap.{is_at};
ghost use Rattle.std.specs.List.{list_all};
ghost use Rattle.std.specs.List.Sorted.{IsStrictlySortedBy};
ghost use Rattle.std.specs.Map.{remove_entry, keys_of};
ghost use Rattle.std.specs.Ordering.{nat_cmp};
ghost use Rattle.tg_client_cells.specs.Words.{is_page, cells_within};
ghost use Rattle.tg_client_cells.specs.Known.{commits_if_own};
ghost use Rattle.tg_client_cells.specs.Pruned.{is_others, stays, others_in, without};

use crate::entries::commits;
use crate::positions::Positions;
use std::alloc::Global;
use std::collections::BTreeMap;
use tg_base::{Cell, List, NoMemory, Pos};
use tg_stream::Page;

/// Whether a cell holds a page.
fn is_page(cell: &Cell) -> bool
    ensures { result ≡ is_page cell.now }
{
    matches!(cell, Cell::Data(_))
}

/// Whether a cell holds a page at a position that is none of these.
fn is_others(own: &Positions, pos: Pos, page: &Page) -> bool
    ensures { result ≡ is_others own.now (pos, page.now) }
{
    is_page(page.cell()) && !own.has(pos)
}

/// Whether a cell holds a commit record or no entry, if its position is one of these.
fn commits_if_own(alloc: Global, own: &Positions, pos: Pos, page: &Page) -> Result<bool, NoMemory>
    ensures { IfOk result (λ c. c ≡ commits_if_own own.now (pos, page.now)) }
{
    if own.has(pos) {
        return commits(alloc, page);
    }
    Ok(true)
}

/// Whether each cell in a range whose position is one of these holds a commit record or no entry.
pub fn all_commit(
    alloc: Global,
    cells: &BTreeMap<u64, Page>,
    own: &Positions,
    low: Pos,
    high: Pos,
) -> Result<bool, NoMemory>
    ensures { IfOk result (λ c. c ≡ list_all (commits_if_own own.now) (cells_within low high cells.now.entries)) }
{
    if high <= low {
        return Ok(true);
    }
    for (pos, page) in cells.range(low..high) {
        if !commits_if_own(alloc, own, *pos, page)? {
            return Ok(false);
        }
    }
    Ok(true)
}

/// The positions of the pages in a range that are none of these. It isn't empty.
fn others_in(
    alloc: Global,
    cells: &BTreeMap<u64, Page>,
    own: &Positions,
    low: Pos,
    high: Pos,
) -> Result<List<Pos>, NoMemory>
    requires { low < high }
    ensures others { IfOk result (λ ps. ps ≡ others_in own.now (cells_within low high cells.now.entries)) }
    ensures ordered { IsStrictlySortedBy nat_cmp (keys_of cells.now.entries) }
{
    let mut others = List::new(alloc);
    for (pos, page) in cells.range(low..high) {
        put_if(&mut others, is_others(own, *pos, page), *pos)?;
    }
    Ok(others)
}

/// Puts a position last, if this holds.
fn put_if(positions: &mut List<Pos>, holds: bool, pos: Pos) -> Result<(), NoMemory>
    ensures { OnOk result (positions.new ≡ positions.old ++ (if holds then pos ∷ [] else [])) }
{
    if holds {
        positions.push(pos)?;
    }
    Ok(())
}

/// Drops the cells at these positions.
fn drop_at(cells: &mut BTreeMap<u64, Page>, positions: &[Pos])
    ensures { cells.new.entries ≡ without positions.now cells.old.entries }
{
    for at in (0..positions.len()).rev() {
        drop_one(cells, positions[at]);
    }
}

/// Drops the cell at a position.
fn drop_one(cells: &mut BTreeMap<u64, Page>, pos: Pos)
    ensures { cells.new.entries ≡ remove_entry (is_at (nat_cmp pos)) cells.old.entries }
{
    let _ = cells.remove(&pos);
}

/// Drops the pages in a range but those at these positions.
pub fn drop_others(
    alloc: Global,
    cells: &mut BTreeMap<u64, Page>,
    own: &Positions,
    low: Pos,
    high: Pos,
) -> Result<(), NoMemory>
    ensures { OnOk result (cells.new.entries ≡ filter (stays own.now low high) cells.old.entries) }
{
    if high <= low {
        return Ok(());
    }
    let others = others_in(alloc, cells, own, low, high)?;
    drop_at(cells, others.as_slice());
    Ok(())
}
