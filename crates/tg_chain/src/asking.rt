//! One request, and whether a message answers it.

ghost use Rattle.std.specs.Prelude.{◌≡◌, ◌&&◌, ◌==◌, [], ◌∷◌, IfOk};
ghost use Rattle.tg_base.specs.declared.cell.Cell.TheVariants.{Data};
ghost use Rattle.tg_protocol.specs.Requests.{out};
ghost use Rattle.tg_base.specs.Orders.{node_eq};
ghost use Rattle.tg_protocol.specs.Words.{cell_eq, seqr_id, unit_id};
ghost use Rattle.tg_chain.specs.Waits.{is_answer};

use std::alloc::Global;
use tg_base::{Blob, Cell, List, Msg, NoMemory, NodeId, Out, Role};

/// Answers that name a position from here on are passed by.
pub const FAR: u64 = 1 << 62;

/// The name of a unit.
pub fn unit(num: u16) -> NodeId
    ensures { result ≡ unit_id num }
{
    NodeId {
        role: Role::Unit,
        num,
    }
}

/// The name of a sequencer.
pub fn sequencer(num: u16) -> NodeId
    ensures { result ≡ seqr_id num }
{
    NodeId {
        role: Role::Seqr,
        num,
    }
}

/// A single request.
pub fn one(alloc: Global, to: NodeId, rid: u64, msg: Msg) -> Result<List<Out>, NoMemory>
    ensures { IfOk result (λ outs. outs ≡ out to rid msg ∷ []) }
{
    let mut outs = List::new(alloc);
    outs.push(Out { to, rid, msg })?;
    Ok(outs)
}

/// Whether a message from a node under a number comes from the node `to` under the number `rid`.
pub fn is_from(to: NodeId, rid: u64, from: NodeId, number: u64) -> bool
    ensures { result ≡ (node_eq to from && (rid == number)) }
{
    to.is_same(from) && rid == number
}

/// Whether a message from a node under a number answers the request `rid` to `to`, whatever that asks.
pub fn answers(to: NodeId, rid: u64, from: NodeId, number: u64) -> bool
    ensures { result ≡ is_answer to rid from number }
{
    is_from(to, rid, from, number)
}

/// Whether both are the same cell.
pub fn is_same_cell(a: &Cell, b: &Cell) -> bool
    ensures { result ≡ cell_eq a.now b.now }
{
    a.is_same(b)
}

/// Whether both are the same page.
pub fn is_same_page(a: &Blob, b: &Blob) -> bool
    ensures { result ≡ cell_eq (Data a.now) (Data b.now) }
{
    a.is_same(b)
}

/// Whether the cell is this page.
#[tactic(auto, unfolding(tg_protocol::specs::Words::cell_eq))]
pub fn is_page(cell: &Cell, page: &Blob) -> bool
    ensures { result ≡ cell_eq cell.now (Data page.now) }
{
    match cell {
        Cell::Junk => false,
        Cell::Data(bytes) => is_same_page(bytes, page),
    }
}
