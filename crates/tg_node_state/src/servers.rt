//! The steps of servers.

ghost use Rattle.std.specs.Prelude.{◌≡◌, ◌+◌, ◌≤◌, ◌<◌, ℕ, [], IfOk};
ghost use Rattle.tg_kind.specs.Of.{meaning_of};
ghost use Rattle.tg_protocol.specs.Layouts.{first_layout};
ghost use Rattle.tg_protocol.specs.Units as units;
ghost use Rattle.tg_protocol.specs.LayoutServers as layouts;
ghost use Rattle.tg_protocol.specs.Sequencers as seqrs;
ghost use Rattle.tg_node_state.specs.Nodes.{UnitNode, LayoutNode, SeqrNode, answer_to, unit_turn, layout_turn, seqr_turn};
ghost use Rattle.tg_node_state.specs.Kept.{KeepsNode, KeepsTurn};

use crate::own::{Own, Stepped};
use std::alloc::Global;
use tg_base::{Cluster, List, Msg, NoMemory, Out, Packet};
use tg_chain::header_layout;
use tg_kind::Registry;
use tg_layout::Layout;
use tg_seqr::Seqr;
use tg_unit::Unit;

/// A unit before its first step. It takes no memory.
pub fn new_unit<K: Registry>(alloc: Global, num: u16) -> Own<K>
    ensures { (steps : ℕ) → KeepsNode (meaning_of K.Registry) steps result (UnitNode units.new_unit) }
{
    Own::Unit(Unit::new(alloc, num))
}

/// A layout server before its first step. An `Err` is want of memory.
pub fn new_layout<K: Registry>(alloc: Global, cluster: &Cluster) -> Result<Own<K>, NoMemory>
    ensures { (steps : ℕ) → IfOk result (λ k. KeepsNode (meaning_of K.Registry) steps k (LayoutNode (layouts.new_layout (first_layout cluster.now)))) }
{
    let first = header_layout(alloc, cluster)?;
    Ok(Own::Layout(Layout::new(alloc, first)))
}

/// A sequencer before its first step. An `Err` is want of memory.
pub fn new_seqr<K: Registry>(alloc: Global, cluster: &Cluster, num: u16) -> Result<Own<K>, NoMemory>
    ensures { (steps : ℕ) → IfOk result (λ k. KeepsNode (meaning_of K.Registry) steps k (SeqrNode (seqrs.new_seqr num cluster.now.limit (first_layout cluster.now)))) }
{
    let first = header_layout(alloc, cluster)?;
    let seqr = Seqr::new(alloc, num, cluster.limit, first)?;
    Ok(Own::Seqr(seqr))
}

/// A unit takes a packet. An `Err` is want of memory.
pub fn unit_takes<K: Registry>(
    alloc: Global,
    unit: Unit,
    packet: &Packet,
) -> Result<Stepped<K>, NoMemory>
    ensures { (steps : ℕ) → IfOk result (λ t. KeepsTurn (meaning_of K.Registry) steps t (unit_turn (meaning_of K.Registry) packet.now (units.unit_step unit packet.now.msg))) }
{
    let (unit, says) = unit.step(alloc, &packet.msg)?;
    let sends = answer(alloc, packet, says)?;
    Ok(Stepped::sent(alloc, Own::Unit(unit), sends))
}

/// A layout server takes a packet. An `Err` is want of memory.
pub fn layout_takes<K: Registry>(
    alloc: Global,
    layout: Layout,
    packet: &Packet,
) -> Result<Stepped<K>, NoMemory>
    ensures { (steps : ℕ) → IfOk result (λ t. KeepsTurn (meaning_of K.Registry) steps t (layout_turn (meaning_of K.Registry) packet.now (layouts.layout_step layout packet.now.msg))) }
{
    let (layout, says) = layout.step(&packet.msg)?;
    let sends = answer(alloc, packet, says)?;
    Ok(Stepped::sent(alloc, Own::Layout(layout), sends))
}

/// A sequencer takes a packet. An `Err` is want of memory.
pub fn seqr_takes<K: Registry>(
    alloc: Global,
    seqr: Seqr,
    packet: &Packet,
) -> Result<Stepped<K>, NoMemory>
    requires { seqr.calls < 200000 }
    ensures { (steps : ℕ) → seqr.calls ≤ steps → IfOk result (λ t. KeepsTurn (meaning_of K.Registry) (steps + 1) t (seqr_turn (meaning_of K.Registry) (seqrs.seqr_step seqr.state packet.now.from packet.now.rid packet.now.msg))) }
{
    let (seqr, sends) = seqr.step(alloc, packet.from, packet.rid, &packet.msg)?;
    Ok(Stepped::sent(alloc, Own::Seqr(seqr), sends))
}

/// A sequencer's tick. An `Err` is want of memory.
pub fn seqr_ticks<K: Registry>(alloc: Global, seqr: Seqr) -> Result<Stepped<K>, NoMemory>
    requires { seqr.calls < 200000 }
    ensures { (steps : ℕ) → seqr.calls ≤ steps → IfOk result (λ t. KeepsTurn (meaning_of K.Registry) (steps + 1) t (seqr_turn (meaning_of K.Registry) (seqrs.seqr_tick seqr.state))) }
{
    let (seqr, sends) = seqr.tick(alloc)?;
    Ok(Stepped::sent(alloc, Own::Seqr(seqr), sends))
}

// The answer to a packet, if there is one.
fn answer(alloc: Global, packet: &Packet, says: Option<Msg>) -> Result<List<Out>, NoMemory>
    ensures { IfOk result (λ outs. outs ≡ answer_to packet.now.from packet.now.rid says) }
{
    let mut outs = List::new(alloc);
    if let Some(msg) = says {
        outs.push(Out {
            to: packet.from,
            rid: packet.rid,
            msg,
        })?;
    }
    Ok(outs)
}
