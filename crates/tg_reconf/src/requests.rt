//! What is outstanding.

ghost use Rattle.std.specs.Prelude.{◌≡◌, ◌||◌, [], ◌∷◌, IfOk};
ghost use Rattle.tg_base.specs.declared.msg.Msg.TheVariants.{Decided, Seal};
ghost use Rattle.tg_base.specs.declared.ids.Role.TheVariants.{Layout as LayoutRole};
ghost use Rattle.tg_protocol.specs.Requests.{out, awaits, asked_of};
ghost use Rattle.tg_protocol.specs.Words.{unit_id, layout_id};
ghost use Rattle.tg_protocol.specs.Trimming.{has_stripe};
ghost use Rattle.tg_protocol.specs.Reconfiguring.{reconf_asks, reconf_again_asks, reconf_awaited, ReconfWork, later_asks, stage_asks, set_asks, join_asks};
ghost use Rattle.tg_reconf.specs.States.{IsOpen, IsReady, working, work_of, stage_of, later_of, stage_waits, later_waits, set_waits};
ghost use Rattle.tg_chain.specs.Waits.{waits_on};
ghost use Rattle.tg_reconf.specs.Waits.{joined_on, asked_on};

use crate::job::Work;
use crate::plan::Plan;
use crate::vote::{NextRound, VoteStage};
use std::alloc::Global;
use tg_base::{Epoch, List, Msg, NoMemory, NodeId, Out, Projection, Role};
use tg_chain::{answers, ask_alike, is_awaited, one, sequencer, unit};

/// What a tick sends: the round that a refusal has set, or else the outstanding requests.
pub fn again(alloc: Global, plan: &Plan, work: &Work) -> Result<List<Out>, NoMemory>
    requires { IsReady plan.now work.now }
    ensures { IfOk result (λ outs. outs ≡ reconf_again_asks (working plan.now (work_of work.now))) }
{
    let set = set_requests(alloc, plan, work)?;
    if set.is_empty() {
        return requests(alloc, plan, work);
    }
    Ok(set)
}

/// The requests of the present step.
#[tactic(auto, unfolding(tg_protocol::specs::Reconfiguring::reconf_work_asks))]
pub fn requests(alloc: Global, plan: &Plan, work: &Work) -> Result<List<Out>, NoMemory>
    requires { IsReady plan.now work.now }
    ensures { IfOk result (λ outs. outs ≡ reconf_asks (working plan.now (work_of work.now))) }
{
    match work {
        Work::SealsSpare { rid } => seal_of_spare(alloc, plan, *rid),
        Work::LooksAtSpare { rid } => look_at_spare(alloc, plan, plan.epoch(), *rid),
        Work::Seals { waits, .. } => {
            let epoch = plan.next_epoch();
            let seal = Msg::Seal { epoch };
            alike(alloc, Role::Unit, &seal, waits)
        }
        Work::LooksAgain { rid, .. } => look_at_spare(alloc, plan, plan.next_epoch(), *rid),
        Work::Votes { vote } => stage_requests(alloc, plan, vote.round.number, &vote.stage),
        Work::Tells { waits, proj, .. } => decided_to_each(alloc, proj, waits),
        Work::Starts { rid } => {
            let to = sequencer(plan.stand.proj.seq);
            let proj = plan.stand.proj.copy()?;
            one(alloc, to, *rid, Msg::Learn { proj })
        }
    }
}

/// Each of these layout servers is told a decided layout.
fn decided_to_each(
    alloc: Global,
    proj: &Projection,
    waits: &List<(u16, u64)>,
) -> Result<List<Out>, NoMemory>
    ensures { IfOk result (λ outs. outs ≡ asked_of layout_id (Decided proj.now) waits.now) }
{
    let proj = proj.copy()?;
    let decided = Msg::Decided { proj };
    alike(alloc, Role::Layout, &decided, waits)
}

/// The same message to each of these nodes.
fn alike(
    alloc: Global,
    role: Role,
    msg: &Msg,
    waits: &List<(u16, u64)>,
) -> Result<List<Out>, NoMemory>
    ensures { IfOk result (λ outs. outs ≡ asked_of (λ n. record { role = role; num = n }) msg.now waits.now) }
{
    let mut outs = List::new(alloc);
    ask_alike(role, msg, waits.as_slice(), &mut outs)?;
    Ok(outs)
}

fn seal_of_spare(alloc: Global, plan: &Plan, rid: u64) -> Result<List<Out>, NoMemory>
    ensures { IfOk result (λ outs. outs ≡ join_asks plan.now.change.join (λ j. out (unit_id j.unit) rid (Seal plan.now.stand.proj.epoch) ∷ [])) }
{
    let epoch = plan.epoch();
    match plan.join() {
        None => Ok(List::new(alloc)),
        Some(join) => one(alloc, unit(join.unit), rid, Msg::Seal { epoch }),
    }
}

/// A question that no message can ask, since the stripe ends past 2^64, counts as want of memory.
fn look_at_spare(alloc: Global, plan: &Plan, epoch: Epoch, rid: u64) -> Result<List<Out>, NoMemory>
    ensures { IfOk result (λ outs. outs ≡ join_asks plan.now.change.join (λ j. out (unit_id j.unit) rid (has_stripe epoch plan.now.stand.proj j.range j.stripe) ∷ [])) }
{
    match plan.join() {
        None => Ok(List::new(alloc)),
        Some(join) => match plan.has_stripe(epoch, join) {
            None => Err(NoMemory),
            Some(has) => one(alloc, unit(join.unit), rid, has),
        },
    }
}

fn stage_requests(
    alloc: Global,
    plan: &Plan,
    round: u32,
    stage: &VoteStage,
) -> Result<List<Out>, NoMemory>
    requires { IsOpen plan.now }
    ensures { IfOk result (λ outs. (w : ReconfWork) → outs ≡ stage_asks (working plan.now w) round (stage_of stage.now)) }
{
    let epoch = plan.next_epoch();
    let ballot = plan.ballot(round);
    match stage {
        VoteStage::Prepares { waits, .. } => {
            let prepare = Msg::Prepare { epoch, ballot };
            alike(alloc, Role::Layout, &prepare, waits)
        }
        VoteStage::Accepts { waits, proj, .. } => {
            let proj = proj.copy()?;
            let accept = Msg::Accept {
                epoch,
                ballot,
                proj,
            };
            alike(alloc, Role::Layout, &accept, waits)
        }
    }
}

/// The `Prepare`s of the round that a refusal has set.
fn set_requests(alloc: Global, plan: &Plan, work: &Work) -> Result<List<Out>, NoMemory>
    requires { IsReady plan.now work.now }
    ensures { IfOk result (λ outs. outs ≡ later_asks (working plan.now (work_of work.now)) (work_of work.now)) }
{
    match work {
        Work::Votes { vote } => round_requests(alloc, plan, &vote.round.later),
        _ => Ok(List::new(alloc)),
    }
}

fn round_requests(
    alloc: Global,
    plan: &Plan,
    later: &Option<NextRound>,
) -> Result<List<Out>, NoMemory>
    requires { IsOpen plan.now }
    ensures { IfOk result (λ outs. (w : ReconfWork) → outs ≡ set_asks (working plan.now w) (later_of later.now)) }
{
    match later {
        None => Ok(List::new(alloc)),
        Some(next) => {
            let epoch = plan.next_epoch();
            let ballot = plan.ballot(next.number);
            let prepare = Msg::Prepare { epoch, ballot };
            alike(alloc, Role::Layout, &prepare, &next.waits)
        }
    }
}

/// Whether a message from a node under a number answers a request that is awaited.
pub fn is_expected(plan: &Plan, work: &Work, from: NodeId, rid: u64) -> bool
    ensures { result ≡ awaits (reconf_awaited (working plan.now (work_of work.now))) from rid }
{
    is_one(plan, work, from, rid)
}

fn is_one(plan: &Plan, work: &Work, from: NodeId, rid: u64) -> bool
    ensures { result ≡ (asked_on plan.now work.now from rid || waits_on LayoutRole (set_waits work.now) from rid) }
{
    is_asked(plan, work, from, rid) || is_set(work, from, rid)
}

/// Whether it answers one of the present step.
fn is_asked(plan: &Plan, work: &Work, from: NodeId, rid: u64) -> bool
    ensures { result ≡ asked_on plan.now work.now from rid }
{
    match work {
        Work::SealsSpare { rid: own } => is_from_spare(plan, *own, from, rid),
        Work::LooksAtSpare { rid: own } => is_from_spare(plan, *own, from, rid),
        Work::Seals { waits, .. } => is_awaited(Role::Unit, waits.as_slice(), from, rid),
        Work::LooksAgain { rid: own, .. } => is_from_spare(plan, *own, from, rid),
        Work::Votes { vote } => is_vote(&vote.stage, from, rid),
        Work::Tells { waits, .. } => is_awaited(Role::Layout, waits.as_slice(), from, rid),
        Work::Starts { rid: own } => answers(sequencer(plan.stand.proj.seq), *own, from, rid),
    }
}

/// Whether it answers the request to the unit that joins.
fn is_from_spare(plan: &Plan, own: u64, from: NodeId, rid: u64) -> bool
    ensures { result ≡ joined_on plan.now.change.join own from rid }
{
    match plan.join() {
        None => false,
        Some(join) => answers(unit(join.unit), own, from, rid),
    }
}

fn is_vote(stage: &VoteStage, from: NodeId, rid: u64) -> bool
    ensures { result ≡ waits_on LayoutRole (stage_waits stage.now) from rid }
{
    match stage {
        VoteStage::Prepares { waits, .. } => {
            is_awaited(Role::Layout, waits.as_slice(), from, rid)
        }
        VoteStage::Accepts { waits, .. } => {
            is_awaited(Role::Layout, waits.as_slice(), from, rid)
        }
    }
}

/// Whether it answers one of the round that a refusal has set.
fn is_set(work: &Work, from: NodeId, rid: u64) -> bool
    ensures { result ≡ waits_on LayoutRole (set_waits work.now) from rid }
{
    match work {
        Work::Votes { vote } => is_later(&vote.round.later, from, rid),
        _ => false,
    }
}

fn is_later(later: &Option<NextRound>, from: NodeId, rid: u64) -> bool
    ensures { result ≡ waits_on LayoutRole (later_waits later.now) from rid }
{
    match later {
        Some(next) => is_awaited(Role::Layout, next.waits.as_slice(), from, rid),
        None => false,
    }
}
