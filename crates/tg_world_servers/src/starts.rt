//! The servers before their first step.

ghost use Rattle.std.specs.Prelude.{◌≡◌, replicate, map, IfOk};
ghost use Rattle.tg_protocol.specs.Words.{numbers};
ghost use Rattle.tg_protocol.specs.Units.{new_unit};
ghost use Rattle.tg_protocol.specs.LayoutServers.{new_layout};
ghost use Rattle.tg_protocol.specs.Sequencers.{new_seqr};
ghost use Rattle.tg_world_servers.specs.Rows.{states_of, AreCounted};

use std::alloc::Global;
use tg_base::{NoMemory, Projection};
use tg_layout::Layout;
use tg_seqr::Seqr;
use tg_unit::Unit;

/// So many units that have met nothing. An `Err` is want of memory.
pub fn new_units(alloc: Global, count: u16) -> Result<Vec<Unit>, NoMemory>
    ensures { IfOk result (λ us. us.items ≡ replicate count new_unit) }
{
    let mut units = Vec::new(alloc);
    for num in 0..count {
        units.push(Unit::new(alloc, num))?;
    }
    Ok(units)
}

/// So many layout servers that tell the first layout. An `Err` is want of memory.
pub fn new_layouts(alloc: Global, count: u16, first: &Projection) -> Result<Vec<Layout>, NoMemory>
    ensures { IfOk result (λ ls. ls.items ≡ replicate count (new_layout first.now)) }
{
    let mut layouts = Vec::new(alloc);
    for _num in 0..count {
        let first = first.copy()?;
        layouts.push(Layout::new(alloc, first))?;
    }
    Ok(layouts)
}

/// So many sequencers. An `Err` is want of memory.
pub fn new_seqrs(
    alloc: Global,
    count: u16,
    limit: u64,
    first: &Projection,
) -> Result<Vec<Seqr>, NoMemory>
    ensures states { IfOk result (λ ss. states_of ss.items ≡ map (λ n. new_seqr n limit first.now) (numbers count 0)) }
    ensures counted { IfOk result (λ ss. AreCounted 0 ss.items) }
{
    let mut seqrs = Vec::new(alloc);
    for num in 0..count {
        let first = first.copy()?;
        let seqr = Seqr::new(alloc, num, limit, first)?;
        seqrs.push(seqr)?;
    }
    Ok(seqrs)
}
