//! The positions that units and the archive hold.

ghost use Rattle.std.specs.Prelude.{◌≡◌, OnOk, IfOk};
ghost use Rattle.tg_protocol.specs.Words.{with_nums};
ghost use Rattle.tg_protocol.specs.Logs.{positions, all_positions};
ghost use Rattle.tg_world_log.specs.Archives.{with_keys};

use std::alloc::Global;
use std::collections::{BTreeMap, BTreeSet};
use tg_base::{Cell, List, NoMemory, Pos};
use tg_unit::Unit;

/// The positions at which a unit or the archive has a cell, rising. An `Err` is want of memory.
pub fn positions_of(
    alloc: Global,
    units: &[Unit],
    archive: &BTreeMap<Pos, Cell>,
) -> Result<BTreeSet<Pos>, NoMemory>
    ensures { IfOk result (λ ps. ps.keys ≡ with_nums (positions archive.now.entries) (all_positions units.now)) }
{
    let mut found = positions_in(alloc, units)?;
    let archived = keys_of(alloc, archive)?;
    put_all(&mut found, archived.as_slice())?;
    Ok(found)
}

// The positions of all units' cells.
fn positions_in(alloc: Global, units: &[Unit]) -> Result<BTreeSet<Pos>, NoMemory>
    ensures { IfOk result (λ ps. ps.keys ≡ all_positions units.now) }
{
    let mut found = BTreeSet::new(alloc);
    for at in (0..units.len()).rev() {
        let held = units[at].positions(alloc)?;
        put_all(&mut found, held.as_slice())?;
    }
    Ok(found)
}

// The positions of the archive.
fn keys_of(alloc: Global, archive: &BTreeMap<Pos, Cell>) -> Result<List<Pos>, NoMemory>
    ensures { IfOk result (λ ps. ps ≡ positions archive.now.entries) }
{
    let mut found = List::new(alloc);
    for (pos, _) in archive {
        found.push(*pos)?;
    }
    Ok(found)
}

// Puts positions into a set.
#[tactic(auto, using(crate::proofs::Sets::nums_put))]
fn put_all(found: &mut BTreeSet<Pos>, positions: &[Pos]) -> Result<(), NoMemory>
    ensures { OnOk result (found.new.keys ≡ with_nums positions.now found.old.keys) }
{
    put_each(found, positions)
}

fn put_each(found: &mut BTreeSet<Pos>, positions: &[Pos]) -> Result<(), NoMemory>
    ensures { OnOk result (found.new.keys ≡ with_keys positions.now found.old.keys) }
{
    for at in (0..positions.len()).rev() {
        found.insert(positions[at])?;
    }
    Ok(())
}
