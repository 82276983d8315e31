//! The step of one node of a row. The node is moved out of the row, where the last one takes its place, and back.

ghost use Rattle.std.specs.Prelude.{◌≡◌, ◌<◌, ◌≤◌, ◌+◌, ◌++◌, ◌∷◌, [], ℕ, length, slice_set, slice_index_or, swap, IfOk, OnOk};
ghost use Rattle.tg_protocol.specs.Units.{UnitState, unit_step};
ghost use Rattle.tg_protocol.specs.LayoutServers.{LayoutState, layout_step};
ghost use Rattle.tg_protocol.specs.Sequencers.{SeqrState, seqr_step, seqr_tick};
ghost use Rattle.tg_seqr.specs.Counted.{Counted};
ghost use Rattle.tg_world_servers.specs.Rows.{states_of, AreCounted};

use std::alloc::Global;
use tg_base::{List, Msg, NoMemory, NodeId, Out};
use tg_layout::Layout;
use tg_seqr::Seqr;
use tg_unit::Unit;

/// A unit takes a message; its answer. An `Err` is want of memory.
pub fn unit_takes(
    alloc: Global,
    units: &mut Vec<Unit>,
    num: usize,
    msg: &Msg,
) -> Result<Option<Msg>, NoMemory>
    requires { num < length units.old.items }
    ensures now { (d : UnitState) → OnOk result (units.new.items ≡ slice_set units.old.items num (unit_step (slice_index_or units.old.items num d) msg.now).now) }
    ensures says { (d : UnitState) → IfOk result (λ says. says ≡ (unit_step (slice_index_or units.old.items num d) msg.now).says) }
{
    let unit = units.swap_remove(num);
    let (unit, says) = unit.step(alloc, msg)?;
    put_back(units, num, unit)?;
    Ok(says)
}

/// A layout server takes a message; its answer. An `Err` is want of memory.
pub fn layout_takes(
    layouts: &mut Vec<Layout>,
    num: usize,
    msg: &Msg,
) -> Result<Option<Msg>, NoMemory>
    requires { num < length layouts.old.items }
    ensures now { (d : LayoutState) → OnOk result (layouts.new.items ≡ slice_set layouts.old.items num (layout_step (slice_index_or layouts.old.items num d) msg.now).now) }
    ensures says { (d : LayoutState) → IfOk result (λ says. says ≡ (layout_step (slice_index_or layouts.old.items num d) msg.now).says) }
{
    let layout = layouts.swap_remove(num);
    let (layout, says) = layout.step(msg)?;
    put_back(layouts, num, layout)?;
    Ok(says)
}

/// A sequencer takes a message from a node under a number; what it sends. An `Err` is want of memory.
pub fn seqr_takes(
    alloc: Global,
    seqrs: &mut Vec<Seqr>,
    num: usize,
    from: NodeId,
    rid: u64,
    msg: &Msg,
) -> Result<List<Out>, NoMemory>
    requires within { num < length seqrs.old.items }
    requires room { AreCounted 199999 seqrs.old.items }
    ensures now { (d : SeqrState) → OnOk result (states_of seqrs.new.items ≡ slice_set (states_of seqrs.old.items) num (seqr_step (slice_index_or (states_of seqrs.old.items) num d) from rid msg.now).now) }
    ensures sends { (d : SeqrState) → IfOk result (λ outs. outs ≡ (seqr_step (slice_index_or (states_of seqrs.old.items) num d) from rid msg.now).sends) }
    ensures counted { (steps : ℕ) → AreCounted steps seqrs.old.items → OnOk result (AreCounted (steps + 1) seqrs.new.items) }
{
    let seqr = seqrs.swap_remove(num);
    let (seqr, outs) = seqr.step(alloc, from, rid, msg)?;
    put_back(seqrs, num, seqr)?;
    Ok(outs)
}

/// A sequencer's tick; what it sends. An `Err` is want of memory.
pub fn seqr_ticks(alloc: Global, seqrs: &mut Vec<Seqr>, num: usize) -> Result<List<Out>, NoMemory>
    requires within { num < length seqrs.old.items }
    requires room { AreCounted 199999 seqrs.old.items }
    ensures now { (d : SeqrState) → OnOk result (states_of seqrs.new.items ≡ slice_set (states_of seqrs.old.items) num (seqr_tick (slice_index_or (states_of seqrs.old.items) num d)).now) }
    ensures sends { (d : SeqrState) → IfOk result (λ outs. outs ≡ (seqr_tick (slice_index_or (states_of seqrs.old.items) num d)).sends) }
    ensures counted { (steps : ℕ) → AreCounted steps seqrs.old.items → OnOk result (AreCounted (steps + 1) seqrs.new.items) }
{
    let seqr = seqrs.swap_remove(num);
    let (seqr, outs) = seqr.tick(alloc)?;
    put_back(seqrs, num, seqr)?;
    Ok(outs)
}

/// A node comes back to its place from the end of its row. An `Err` is want of memory.
pub fn put_back<T: Drop>(row: &mut Vec<T>, num: usize, node: T) -> Result<(), NoMemory>
    requires { num ≤ length row.old.items }
    ensures { OnOk result (row.new.items ≡ swap (row.old.items ++ node ∷ []) num (length row.old.items)) }
{
    let last = row.len();
    row.push(node)?;
    row.swap(num, last);
    Ok(())
}
