//! Several nodes that are asked alike, each under a number of its own.

ghost use Rattle.std.specs.Prelude.{ℕ, ◌≡◌, ◌<◌, ◌+◌, ◌^◌, ◌++◌, length, IfOk, OnOk};
ghost use Rattle.tg_protocol.specs.Requests.{waits_for, asked_of, without_wait};
ghost use Rattle.tg_protocol.specs.Reconfiguring.{has_rid as has_answer};
ghost use Rattle.tg_protocol.specs.Words.{numbers};
ghost use Rattle.tg_chain.specs.Waits.{waits_on};

use crate::asking::is_from;
use std::alloc::Global;
use tg_base::{List, Msg, NoMemory, NodeId, Out, Rids, Role};

/// Each of these nodes draws the next number.
pub fn ask_each(
    nodes: &[u16],
    rids: &mut Rids,
    waits: &mut List<(u16, u64)>,
) -> Result<(), NoMemory>
    requires { rids.old.next + length nodes.now < 2 ^ 63 }
    ensures waits { OnOk result (waits.new ≡ waits.old ++ waits_for nodes.now rids.old.next) }
    ensures next { OnOk result (rids.new.next ≡ rids.old.next + length nodes.now) }
{
    match nodes {
        [] => Ok(()),
        [node, others @ ..] => {
            let rid = rids.draw();
            waits.push((*node, rid))?;
            ask_each(others, rids, waits)
        }
    }
}

/// Each of these units draws the next number.
pub fn ask_units(
    alloc: Global,
    units: &[u16],
    rids: &mut Rids,
) -> Result<List<(u16, u64)>, NoMemory>
    requires { rids.old.next + length units.now < 2 ^ 63 }
    ensures waits { IfOk result (λ waits. waits ≡ waits_for units.now rids.old.next) }
    ensures next { OnOk result (rids.new.next ≡ rids.old.next + length units.now) }
{
    let mut waits = List::new(alloc);
    ask_each(units, rids, &mut waits)?;
    Ok(waits)
}

/// So many nodes from a first one on each draw the next number.
pub fn ask_from(
    first: u16,
    count: u16,
    rids: &mut Rids,
    waits: &mut List<(u16, u64)>,
) -> Result<(), NoMemory>
    requires nodes { first + count < 2 ^ 16 }
    requires numbers { rids.old.next + count < 2 ^ 63 }
    ensures waits { OnOk result (waits.new ≡ waits.old ++ waits_for (numbers count first) rids.old.next) }
    ensures next { OnOk result (rids.new.next ≡ rids.old.next + count) }
{
    if count == 0 {
        return Ok(());
    }
    let rid = rids.draw();
    waits.push((first, rid))?;
    ask_from(first + 1, count - 1, rids, waits)
}

/// Each layout server draws the next number.
pub fn ask_servers(
    alloc: Global,
    layouts: u16,
    rids: &mut Rids,
) -> Result<List<(u16, u64)>, NoMemory>
    requires { rids.old.next < 2 ^ 62 }
    ensures waits { IfOk result (λ waits. waits ≡ waits_for (numbers layouts 0) rids.old.next) }
    ensures next { OnOk result (rids.new.next ≡ rids.old.next + layouts) }
{
    let mut waits = List::new(alloc);
    ask_from(0, layouts, rids, &mut waits)?;
    Ok(waits)
}

/// The requests to these nodes.
pub fn ask_alike(
    role: Role,
    msg: &Msg,
    waits: &[(u16, u64)],
    outs: &mut List<Out>,
) -> Result<(), NoMemory>
    ensures { OnOk result (outs.new ≡ outs.old ++ asked_of (λ n. record { role = role; num = n }) msg.now waits.now) }
{
    match waits {
        [] => Ok(()),
        [(num, rid), others @ ..] => {
            let to = NodeId { role, num: *num };
            let rid = *rid;
            let msg_to = msg.copy()?;
            outs.push(Out {
                to,
                rid,
                msg: msg_to,
            })?;
            ask_alike(role, msg, others, outs)
        }
    }
}

/// Whether a message from a node under a number answers one of the requests to these nodes, whatever they ask.
pub fn is_awaited(role: Role, waits: &[(u16, u64)], from: NodeId, number: u64) -> bool
    ensures { result ≡ waits_on role waits.now from number }
{
    match waits {
        [] => false,
        [(num, rid), others @ ..] => {
            let to = NodeId { role, num: *num };
            if is_from(to, *rid, from, number) {
                return true;
            }
            is_awaited(role, others, from, number)
        }
    }
}

/// Whether a request to this node has this number.
pub fn has_rid(node: u16, number: u64, waits: &[(u16, u64)]) -> bool
    ensures { result ≡ has_answer node number waits.now }
{
    match waits {
        [] => false,
        [(num, rid), others @ ..] => {
            if *num == node && *rid == number {
                return true;
            }
            has_rid(node, number, others)
        }
    }
}

/// Those that wait for other nodes than this one.
pub fn keep_others(
    node: u16,
    waits: &[(u16, u64)],
    kept: &mut List<(u16, u64)>,
) -> Result<(), NoMemory>
    ensures { OnOk result (kept.new ≡ kept.old ++ without_wait node waits.now) }
{
    match waits {
        [] => Ok(()),
        [(num, rid), others @ ..] => {
            if *num == node {
                return keep_others(node, others, kept);
            }
            kept.push((*num, *rid))?;
            keep_others(node, others, kept)
        }
    }
}

/// What is still awaited where this node has answered.
pub fn without(
    alloc: Global,
    node: u16,
    waits: &List<(u16, u64)>,
) -> Result<List<(u16, u64)>, NoMemory>
    ensures { IfOk result (λ kept. kept ≡ without_wait node waits.now) }
{
    let mut kept = List::new(alloc);
    keep_others(node, waits.as_slice(), &mut kept)?;
    Ok(kept)
}
