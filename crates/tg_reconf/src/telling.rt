//! A newer layout is told, or its sequencer answers.

ghost use Rattle.std.specs.Prelude.{ℕ, ◌≡◌, ◌<◌, ◌≤◌, ◌+◌, ◌^◌, ◌&&◌, ◌==◌, nat_lt, [], false, true, IfOk, IsOk, OnErr};
ghost use Rattle.tg_protocol.specs.Requests.{ends};
ghost use Rattle.tg_protocol.specs.Replies.{reply};
ghost use Rattle.tg_protocol.specs.Appending.{names_all};
ghost use Rattle.tg_protocol.specs.Trimming.{learns_if};
ghost use Rattle.tg_protocol.specs.Reconfiguring.{SealingSpare, Starting, Telling, reconf_feed, reconf_latest, adopts, heard_on, is_majority, Overtaken, started_if, on_newer as newer_by_rules, is_own, has_rid as has_answer};
ghost use Rattle.tg_reconf.specs.States.{IsOpen, IsMinority, IsReady, working, work_of, is_telling};
ghost use Rattle.tg_reconf.specs.Turns.{shown, by_reconf};

use crate::agreeing::tell;
use crate::job::Work;
use crate::plan::Plan;
use crate::step::{ReconfEnd, Step};
use crate::turns::{ask, end, learn, stay};
use std::alloc::Global;
use tg_base::{Epoch, List, Msg, NoMemory, Projection, Rids, Stand, StreamLink};
use tg_chain::{FAR, has_rid, without};

/// A newer layout comes before a majority of layout servers has heard what is decided.
#[tactic(auto, using(crate::proofs::Told::told_stays, crate::proofs::Told::others_tell))]
pub fn on_newer(
    alloc: Global,
    plan: Plan,
    work: Work,
    proj: Projection,
    rids: &mut Rids,
) -> Result<Step, NoMemory>
    requires open { IsOpen plan }
    requires ready { IsReady plan work }
    requires numbers { rids.old.next < 2 ^ 62 }
    ensures turn { IfOk result (λ t. shown t rids.new.next ≡ by_reconf rids.old.next (newer_by_rules (working plan (work_of work)) proj rids.old.next (is_own (working plan (work_of work)) proj))) }
    ensures free { is_own (working plan (work_of work)) proj ≡ false → IsOk result }
    ensures told { is_telling work ≡ true → IsOk result }
    ensures err { OnErr result (rids.new ≡ rids.old) }
    ensures drawn { rids.new.next ≤ rids.old.next + 2 ^ 16 }
{
    if !is_own_layout(&plan, &proj) {
        return Ok(overtake(alloc, proj));
    }
    if is_told(&work) {
        return Ok(stay(alloc, plan, work));
    }
    tell(alloc, plan, proj, rids)
}

/// Whether the layout servers are told a layout already.
fn is_told(work: &Work) -> bool
    ensures { result ≡ is_telling work.now }
{
    matches!(work, Work::Tells { .. })
}

/// Whether a layout is the client's own of the next epoch.
fn is_own_layout(plan: &Plan, proj: &Projection) -> bool
    requires { IsOpen plan.now }
    ensures { result ≡ is_own (working plan.now (SealingSpare 0)) proj.now }
{
    proj.by == plan.me && proj.epoch == plan.next_epoch()
}

/// Another layout was decided.
fn overtake(alloc: Global, proj: Projection) -> Step
    ensures { (n : ℕ) → shown result n ≡ by_reconf n (ends n (Overtaken proj.epoch proj)) }
{
    let epoch = proj.epoch;
    let stand = proj;
    end(alloc, ReconfEnd::Overtaken { epoch, stand })
}

/// A newer layout comes while the layout servers are told one. An answer of one of them counts.
#[tactic(auto, unfolding(tg_protocol::specs::Reconfiguring::reconf_latest))]
pub fn on_told(
    alloc: Global,
    plan: Plan,
    waits: List<(u16, u64)>,
    heard: usize,
    told: Projection,
    server: u16,
    rid: u64,
    proj: Projection,
    rids: &mut Rids,
) -> Result<Step, NoMemory>
    requires open { IsOpen plan }
    requires few { IsMinority plan heard }
    requires numbers { rids.old.next < 2 ^ 62 }
    ensures turn { IfOk result (λ t. shown t rids.new.next ≡ by_reconf rids.old.next (reconf_latest (working plan (Telling waits heard told)) (Telling waits heard told) server rid proj rids.old.next)) }
    ensures free { (has_answer server rid waits && (proj.epoch == plan.stand.proj.epoch + 1)) ≡ false → IsOk result }
    ensures err { OnErr result (rids.new ≡ rids.old) }
    ensures drawn { rids.new.next ≤ rids.old.next + 2 ^ 16 }
{
    if !is_heard(&plan, waits.as_slice(), server, rid, &proj) {
        let work = Work::Tells {
            waits,
            heard,
            proj: told,
        };
        return on_newer(alloc, plan, work, proj, rids);
    }
    let kept = without(alloc, server, &waits)?;
    on_heard(alloc, plan, kept, heard + 1, told, rids)
}

/// Whether a layout server answers what it was told.
fn is_heard(plan: &Plan, waits: &[(u16, u64)], server: u16, rid: u64, proj: &Projection) -> bool
    requires { IsOpen plan.now }
    ensures { result ≡ (has_answer server rid waits.now && (proj.now.epoch == plan.now.stand.proj.epoch + 1)) }
{
    has_rid(server, rid, waits) && proj.epoch == plan.next_epoch()
}

/// Where a majority has heard the layout, it is adopted.
fn on_heard(
    alloc: Global,
    plan: Plan,
    waits: List<(u16, u64)>,
    heard: usize,
    told: Projection,
    rids: &mut Rids,
) -> Result<Step, NoMemory>
    requires open { IsOpen plan }
    requires numbers { rids.old.next < 2 ^ 62 }
    ensures turn { IfOk result (λ t. shown t rids.new.next ≡ by_reconf rids.old.next (heard_on (working plan (SealingSpare 0)) waits heard told rids.old.next (is_majority (working plan (SealingSpare 0)) heard))) }
    ensures err { OnErr result (rids.new ≡ rids.old) }
    ensures drawn { rids.new.next ≤ rids.old.next + 1 }
{
    if plan.is_majority(heard) {
        return adopt(alloc, plan, told, rids);
    }
    let work = Work::Tells {
        waits,
        heard,
        proj: told,
    };
    Ok(stay(alloc, plan, work))
}

/// The decided layout is adopted. The client starts the sequencer of its own.
fn adopt(alloc: Global, plan: Plan, told: Projection, rids: &mut Rids) -> Result<Step, NoMemory>
    requires { rids.old.next < 2 ^ 62 }
    ensures turn { IfOk result (λ t. shown t rids.new.next ≡ by_reconf rids.old.next (adopts (working plan (SealingSpare 0)) told rids.old.next (told.by == plan.me))) }
    ensures err { OnErr result (rids.new ≡ rids.old) }
    ensures drawn { rids.new.next ≤ rids.old.next + 1 }
{
    if !is_by(&told, plan.me) {
        return Ok(overtake(alloc, told));
    }
    let Plan { stand, change, me } = plan;
    let layouts = stand.layouts;
    let proj = told;
    let stand = Stand { proj, layouts };
    let plan = Plan { stand, change, me };
    let rid = rids.next;
    ask(alloc, plan, Work::Starts { rid }, rids)
}

/// Whether this client has proposed a layout.
fn is_by(proj: &Projection, client: u16) -> bool
    ensures { result ≡ (proj.now.by == client) }
{
    proj.by == client
}

/// A message that comes while the new sequencer's first answer is awaited. It takes no memory.
#[tactic(auto, unfolding(tg_protocol::specs::Reconfiguring::reconf_feed, tg_protocol::specs::Replies::reply))]
pub fn on_start(alloc: Global, plan: Plan, own: u64, msg: &Msg) -> Step
    ensures { (u k n : ℕ) → shown result n ≡ by_reconf n (reconf_feed (working plan (Starting own)) (Starting own) u k (reply msg.now) n) }
{
    match msg {
        Msg::Tail { tail, links } if *tail < FAR => on_tail(alloc, plan, own, links),
        Msg::OldEpoch { epoch } => on_old_epoch(alloc, plan, own, *epoch),
        _ => stay(alloc, plan, Work::Starts { rid: own }),
    }
}

/// The sequencer has started: it tells its tail, with no links.
fn on_tail(alloc: Global, plan: Plan, own: u64, links: &List<StreamLink>) -> Step
    ensures { (n : ℕ) → shown result n ≡ by_reconf n (started_if (working plan (Starting own)) n (names_all [] links.now)) }
{
    if !links.is_empty() {
        return stay(alloc, plan, Work::Starts { rid: own });
    }
    let epoch = plan.epoch();
    let stand = plan.stand.proj;
    end(alloc, ReconfEnd::Installed { epoch, stand })
}

/// The sequencer stands at another epoch. A newer layout has to be learnt where that is a later one.
fn on_old_epoch(alloc: Global, plan: Plan, own: u64, epoch: Epoch) -> Step
    ensures { (n : ℕ) → shown result n ≡ by_reconf n (learns_if (nat_lt plan.stand.proj.epoch epoch) (working plan (Starting own)) n) }
{
    if epoch <= plan.epoch() {
        return stay(alloc, plan, Work::Starts { rid: own });
    }
    learn(alloc, plan, Work::Starts { rid: own })
}

/// A newer layout comes while the new sequencer's first answer is awaited: the client's own is installed.
#[tactic(auto, unfolding(tg_protocol::specs::Reconfiguring::reconf_latest))]
pub fn on_started(alloc: Global, plan: Plan, own: u64, proj: Projection) -> Step
    ensures { (u k n : ℕ) → shown result n ≡ by_reconf n (reconf_latest (working plan (Starting own)) (Starting own) u k proj n) }
{
    let epoch = plan.epoch();
    let stand = proj;
    end(alloc, ReconfEnd::Installed { epoch, stand })
}
