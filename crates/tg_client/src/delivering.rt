//! A message comes.

ghost use Rattle.std.specs.Prelude.{◌≡◌, ◌&&◌, nat_lt, Some, None, option_copied, IfOk};
ghost use Rattle.tg_kind.specs.Of.{meaning_of};
ghost use Rattle.tg_protocol.specs.Clients as told;
ghost use Rattle.tg_protocol.specs.ClientSteps as steps;
ghost use Rattle.tg_protocol.specs.Replies.{reply, IsLatest};
ghost use Rattle.tg_base.specs.Orders.{node_eq};
ghost use Rattle.tg_protocol.specs.Words.{layout_id};
ghost use Rattle.tg_client_state.specs.Tasks.{GoesOn, KeepsHand};
ghost use Rattle.tg_client_state.specs.States.{KeepsClient, KeepsMoved};
ghost use Rattle.tg_client_state.specs.Moves.{IsKept};
ghost use Rattle.tg_client.specs.Feeding.{latest_in};
ghost use Rattle.tg_client_state.specs.Counts.{HasNumbers};

use crate::again::goes_on_in;
use crate::feeding::feeds;
use std::alloc::Global;
use tg_base::{Msg, NoMemory, NodeId, Projection, Role};
use tg_client_state::{Hand, Moved, Paused, State, Work, stays};
use tg_kind::Registry;

/// The layout that a message tells, if it tells one of an epoch that has a number.
#[tactic(auto, unfolding(tg_protocol::specs::Replies::reply))]
fn latest_in(msg: &Msg) -> Option<&Projection>
    ensures { option_copied result ≡ latest_in (reply msg.now) }
{
    match msg {
        Msg::Latest { proj } if proj.epoch < 1 << 32 => Some(proj),
        _ => None,
    }
}

/// Whether a node is a layout server. It takes no memory.
fn is_layout_server(node: NodeId) -> bool
    ensures { result ≡ node_eq node (layout_id node.num) }
{
    let server = NodeId {
        role: Role::Layout,
        num: node.num,
    };
    node.is_same(server)
}

/// Whether a layout server tells a newer layout than the client's. It takes no memory.
fn is_newer<K: Registry>(state: &State<K>, from: NodeId, proj: &Projection) -> bool
    ensures { result ≡ (node_eq from (layout_id from.num) && nat_lt state.now.stand.epoch proj.now.epoch) }
{
    is_layout_server(from) && state.parts.stand.epoch < proj.epoch
}

/// What is left of what is in hand. It takes no memory.
fn paused_in<K: Registry>(hand: Hand<K>) -> Paused<K>
    ensures { (h : told.Hand (meaning_of K.Registry)) → KeepsHand (meaning_of K.Registry) hand h → GoesOn (meaning_of K.Registry) result (steps.task_in (meaning_of K.Registry) h) }
{
    match hand {
        Hand::Doing { task } => Box::into_inner(task).pause(),
        Hand::Learning { paused, .. } => Box::into_inner(paused),
    }
}

/// A message that tells no layout comes.
fn on_answer<K: Registry>(
    state: State<K>,
    alloc: Global,
    work: Work<K>,
    from: NodeId,
    rid: u64,
    msg: &Msg,
) -> Result<Moved<K>, NoMemory>
    requires kept { IsKept (meaning_of K.Registry) state (Some work) }
    requires other { latest_in (reply msg.now) ≡ None }
    requires numbers { HasNumbers (meaning_of K.Registry) state }
    ensures { (c : told.Client (meaning_of K.Registry)) → KeepsClient (meaning_of K.Registry) state (Some work) c → IfOk result (λ x. KeepsMoved (meaning_of K.Registry) state.rids.next x (steps.feed (meaning_of K.Registry) c c.work from rid (reply msg.now))) }
{
    let Work { job, hand } = work;
    match hand {
        Hand::Doing { task } => feeds(state, alloc, job, Box::into_inner(task), from, rid, msg),
        Hand::Learning { waits, paused } => {
            let hand = Hand::Learning { waits, paused };
            Ok(stays(state, alloc, Work { job, hand }))
        }
    }
}

/// A message tells a layout.
fn on_latest<K: Registry>(
    state: State<K>,
    alloc: Global,
    work: Work<K>,
    from: NodeId,
    rid: u64,
    proj: &Projection,
) -> Result<Moved<K>, NoMemory>
    requires kept { IsKept (meaning_of K.Registry) state (Some work) }
    requires numbers { HasNumbers (meaning_of K.Registry) state }
    ensures { (c : told.Client (meaning_of K.Registry)) → KeepsClient (meaning_of K.Registry) state (Some work) c → IfOk result (λ x. KeepsMoved (meaning_of K.Registry) state.rids.next x (steps.feed (meaning_of K.Registry) c c.work from rid (IsLatest proj.now))) }
{
    if is_newer(&state, from, proj) {
        let proj = proj.copy()?;
        return goes_on_in(
            state,
            alloc,
            work.job,
            paused_in(work.hand),
            from.num,
            rid,
            proj,
        );
    }
    Ok(stays(state, alloc, work))
}

/// A message comes from a node, under the number of a request, to a client whose command waits. A newer layout that a
/// layout server tells is taken whatever its number, and the machine in hand goes on there. Else the machine takes what
/// it awaits, and nothing while a newer layout is learnt. An `Err` is want of memory, or of numbers.
pub fn deliver<K: Registry>(
    state: State<K>,
    alloc: Global,
    work: Work<K>,
    from: NodeId,
    rid: u64,
    msg: &Msg,
) -> Result<Moved<K>, NoMemory>
    requires kept { IsKept (meaning_of K.Registry) state (Some work) }
    requires numbers { HasNumbers (meaning_of K.Registry) state }
    ensures { (c : told.Client (meaning_of K.Registry)) → KeepsClient (meaning_of K.Registry) state (Some work) c → IfOk result (λ x. KeepsMoved (meaning_of K.Registry) state.rids.next x (steps.feed (meaning_of K.Registry) c c.work from rid (reply msg.now))) }
{
    match latest_in(msg) {
        None => on_answer(state, alloc, work, from, rid, msg),
        Some(proj) => on_latest(state, alloc, work, from, rid, proj),
    }
}
