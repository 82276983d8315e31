//! The units are sealed: first the one that joins, at the present epoch, and then all of the next layout.

ghost use Rattle.std.specs.Prelude.{ℕ, ◌≡◌, ◌<◌, ◌≤◌, ◌+◌, ◌^◌, ◌==◌, nat_lt, false, IfOk, IsOk, OnErr};
ghost use Rattle.tg_protocol.specs.Replies.{reply, near, IsMissing};
ghost use Rattle.tg_protocol.specs.Reconfiguring.{SealingSpare, LookingSpare, Sealing, LookingAgain, reconf_feed, first_step, seals, seals_if, looks_if, sealed_if, after_seals, not_whole as not_whole_end};
ghost use Rattle.tg_protocol.specs.Trimming.{learns_if};
ghost use Rattle.tg_reconf.specs.States.{IsOpen, IsReady, working, work_of};
ghost use Rattle.tg_reconf.specs.Turns.{shown, by_reconf};
ghost use Rattle.tg_reconf.specs.Needs.{feed_needs};

use crate::agreeing::propose;
use crate::job::Work;
use crate::plan::Plan;
use crate::step::{ReconfEnd, Step};
use crate::turns::{ask, end, learn, send, stay};
use crate::units::units_after;
use std::alloc::Global;
use tg_base::{Epoch, List, Msg, NoMemory, Pos, Rids};
use tg_chain::{FAR, ask_units, without};

/// The spare is sealed first, where a unit joins.
pub fn begin(alloc: Global, plan: Plan, rids: &mut Rids) -> Result<Step, NoMemory>
    requires open { IsOpen plan }
    requires numbers { rids.old.next < 2 ^ 62 }
    ensures turn { IfOk result (λ t. shown t rids.new.next ≡ by_reconf rids.old.next (first_step (working plan (SealingSpare 0)) rids.old.next plan.change.join)) }
    ensures err { OnErr result (rids.new ≡ rids.old) }
    ensures drawn { rids.new.next ≤ rids.old.next + 2 ^ 16 }
{
    match plan.join() {
        None => seal(alloc, plan, rids),
        Some(_) => {
            let rid = rids.next;
            ask(alloc, plan, Work::SealsSpare { rid }, rids)
        }
    }
}

/// Each unit of the next layout is sealed at its epoch.
fn seal(alloc: Global, plan: Plan, rids: &mut Rids) -> Result<Step, NoMemory>
    requires open { IsOpen plan }
    requires numbers { rids.old.next < 2 ^ 62 }
    ensures turn { IfOk result (λ t. shown t rids.new.next ≡ by_reconf rids.old.next (seals (working plan (SealingSpare 0)) rids.old.next)) }
    ensures err { OnErr result (rids.new ≡ rids.old) }
    ensures drawn { rids.new.next ≤ rids.old.next + 64 }
{
    let units = units_after(alloc, &plan)?;
    let mut drawn = *rids;
    let waits = ask_units(alloc, units.as_slice(), &mut drawn)?;
    let acks = List::new(alloc);
    send(alloc, plan, Work::Seals { waits, acks }, drawn, rids)
}

/// A message that comes while the spare's seal is awaited.
#[tactic(auto, unfolding(tg_protocol::specs::Reconfiguring::reconf_feed, tg_protocol::specs::Replies::reply))]
pub fn on_spare_sealed(
    alloc: Global,
    plan: Plan,
    own: u64,
    msg: &Msg,
    rids: &mut Rids,
) -> Result<Step, NoMemory>
    requires open { IsOpen plan }
    requires numbers { rids.old.next < 2 ^ 62 }
    ensures turn { IfOk result (λ t. (n k : ℕ) → shown t rids.new.next ≡ by_reconf rids.old.next (reconf_feed (working plan (SealingSpare own)) (SealingSpare own) n k (reply msg.now) rids.old.next)) }
    ensures free { feed_needs (SealingSpare own) msg.now ≡ false → IsOk result }
    ensures err { OnErr result (rids.new ≡ rids.old) }
    ensures drawn { rids.new.next ≤ rids.old.next + 2 ^ 16 }
{
    let work = Work::SealsSpare { rid: own };
    match msg {
        Msg::Sealed { epoch, high } if *high < FAR => look(alloc, plan, own, *epoch, rids),
        Msg::Fenced { epoch } => seal_if_later(alloc, plan, work, *epoch, rids),
        _ => Ok(stay(alloc, plan, work)),
    }
}

/// The spare stands at this epoch: it is asked whether it has the whole stripe.
fn look(
    alloc: Global,
    plan: Plan,
    own: u64,
    epoch: Epoch,
    rids: &mut Rids,
) -> Result<Step, NoMemory>
    requires open { IsOpen plan }
    requires numbers { rids.old.next < 2 ^ 62 }
    ensures turn { IfOk result (λ t. shown t rids.new.next ≡ by_reconf rids.old.next (looks_if (working plan (SealingSpare own)) rids.old.next (epoch == plan.stand.proj.epoch))) }
    ensures err { OnErr result (rids.new ≡ rids.old) }
    ensures drawn { rids.new.next ≤ rids.old.next + 1 }
{
    if epoch != plan.epoch() {
        return Ok(stay(alloc, plan, Work::SealsSpare { rid: own }));
    }
    let rid = rids.next;
    ask(alloc, plan, Work::LooksAtSpare { rid }, rids)
}

/// A fence of a later epoch leads straight to the seals.
fn seal_if_later(
    alloc: Global,
    plan: Plan,
    work: Work,
    epoch: Epoch,
    rids: &mut Rids,
) -> Result<Step, NoMemory>
    requires open { IsOpen plan }
    requires ready { IsReady plan work }
    requires numbers { rids.old.next < 2 ^ 62 }
    ensures turn { IfOk result (λ t. shown t rids.new.next ≡ by_reconf rids.old.next (seals_if (working plan (work_of work)) rids.old.next (nat_lt plan.stand.proj.epoch epoch))) }
    ensures err { OnErr result (rids.new ≡ rids.old) }
    ensures drawn { rids.new.next ≤ rids.old.next + 64 }
{
    if epoch <= plan.epoch() {
        return Ok(stay(alloc, plan, work));
    }
    seal(alloc, plan, rids)
}

/// A message that comes while the spare is asked whether it has the whole stripe.
#[tactic(auto, unfolding(tg_protocol::specs::Reconfiguring::reconf_feed, tg_protocol::specs::Replies::reply))]
pub fn on_spare_seen(
    alloc: Global,
    plan: Plan,
    own: u64,
    spare: u16,
    msg: &Msg,
    rids: &mut Rids,
) -> Result<Step, NoMemory>
    requires open { IsOpen plan }
    requires numbers { rids.old.next < 2 ^ 62 }
    ensures turn { IfOk result (λ t. (k : ℕ) → shown t rids.new.next ≡ by_reconf rids.old.next (reconf_feed (working plan (LookingSpare own)) (LookingSpare own) spare k (reply msg.now) rids.old.next)) }
    ensures free { feed_needs (LookingSpare own) msg.now ≡ false → IsOk result }
    ensures err { OnErr result (rids.new ≡ rids.old) }
    ensures drawn { rids.new.next ≤ rids.old.next + 2 ^ 16 }
{
    let work = Work::LooksAtSpare { rid: own };
    match msg {
        Msg::Whole => seal(alloc, plan, rids),
        Msg::Missing { pos } => Ok(miss(alloc, plan, own, spare, *pos)),
        Msg::Fenced { epoch } => seal_if_later(alloc, plan, work, *epoch, rids),
        _ => Ok(stay(alloc, plan, work)),
    }
}

/// The spare hasn't this position.
#[tactic(auto, unfolding(tg_protocol::specs::Reconfiguring::reconf_feed))]
fn miss(alloc: Global, plan: Plan, own: u64, spare: u16, pos: Pos) -> Step
    requires { IsOpen plan }
    ensures { (k n : ℕ) → shown result n ≡ by_reconf n (reconf_feed (working plan (LookingSpare own)) (LookingSpare own) spare k (near pos (IsMissing pos)) n) }
{
    if pos >= FAR {
        return stay(alloc, plan, Work::LooksAtSpare { rid: own });
    }
    not_whole(alloc, plan, spare, pos)
}

fn not_whole(alloc: Global, plan: Plan, spare: u16, pos: Pos) -> Step
    ensures { (n : ℕ) → shown result n ≡ by_reconf n (not_whole_end (working plan (SealingSpare 0)) spare pos n) }
{
    let stand = plan.stand.proj;
    end(
        alloc,
        ReconfEnd::NotWhole {
            unit: spare,
            pos,
            stand,
        },
    )
}

/// A message that comes while seals are awaited.
#[tactic(auto, unfolding(tg_protocol::specs::Reconfiguring::reconf_feed, tg_protocol::specs::Replies::reply))]
pub fn on_sealed(
    alloc: Global,
    plan: Plan,
    waits: List<(u16, u64)>,
    acks: List<(u16, Pos)>,
    unit: u16,
    msg: &Msg,
    rids: &mut Rids,
) -> Result<Step, NoMemory>
    requires open { IsOpen plan }
    requires numbers { rids.old.next < 2 ^ 62 }
    ensures turn { IfOk result (λ t. (k : ℕ) → shown t rids.new.next ≡ by_reconf rids.old.next (reconf_feed (working plan (Sealing waits acks)) (Sealing waits acks) unit k (reply msg.now) rids.old.next)) }
    ensures free { feed_needs (Sealing waits acks) msg.now ≡ false → IsOk result }
    ensures err { OnErr result (rids.new ≡ rids.old) }
    ensures drawn { rids.new.next ≤ rids.old.next + 2 ^ 16 }
{
    match msg {
        Msg::Sealed { epoch, high } if *high < FAR => {
            count(alloc, plan, waits, acks, unit, *epoch, *high, rids)
        }
        Msg::Fenced { epoch } => Ok(learn_if_later(
            alloc,
            plan,
            Work::Seals { waits, acks },
            *epoch,
        )),
        _ => Ok(stay(alloc, plan, Work::Seals { waits, acks })),
    }
}

/// A unit is sealed at this epoch, and its cells end there.
fn count(
    alloc: Global,
    plan: Plan,
    waits: List<(u16, u64)>,
    acks: List<(u16, Pos)>,
    unit: u16,
    epoch: Epoch,
    high: Pos,
    rids: &mut Rids,
) -> Result<Step, NoMemory>
    requires open { IsOpen plan }
    requires numbers { rids.old.next < 2 ^ 62 }
    ensures turn { IfOk result (λ t. shown t rids.new.next ≡ by_reconf rids.old.next (sealed_if (working plan (Sealing waits acks)) unit high waits acks rids.old.next (epoch == plan.stand.proj.epoch + 1))) }
    ensures err { OnErr result (rids.new ≡ rids.old) }
    ensures drawn { rids.new.next ≤ rids.old.next + 2 ^ 16 }
{
    if epoch != plan.next_epoch() {
        return Ok(stay(alloc, plan, Work::Seals { waits, acks }));
    }
    let kept = without(alloc, unit, &waits)?;
    let mut acks = acks;
    acks.insert(0, (unit, high))?;
    if kept.is_empty() {
        return after(alloc, plan, acks, rids);
    }
    let work = Work::Seals { waits: kept, acks };
    Ok(stay(alloc, plan, work))
}

/// All units are sealed. The spare is asked once more, if a unit joins.
fn after(
    alloc: Global,
    plan: Plan,
    acks: List<(u16, Pos)>,
    rids: &mut Rids,
) -> Result<Step, NoMemory>
    requires open { IsOpen plan }
    requires numbers { rids.old.next < 2 ^ 62 }
    ensures turn { IfOk result (λ t. shown t rids.new.next ≡ by_reconf rids.old.next (after_seals (working plan (SealingSpare 0)) acks rids.old.next plan.change.join)) }
    ensures err { OnErr result (rids.new ≡ rids.old) }
    ensures drawn { rids.new.next ≤ rids.old.next + 2 ^ 16 }
{
    match plan.join() {
        None => propose(alloc, plan, acks.as_slice(), rids),
        Some(_) => {
            let rid = rids.next;
            ask(alloc, plan, Work::LooksAgain { rid, acks }, rids)
        }
    }
}

/// A fence of an epoch past the next one: a newer layout has to be learnt.
fn learn_if_later(alloc: Global, plan: Plan, work: Work, epoch: Epoch) -> Step
    requires open { IsOpen plan }
    requires ready { IsReady plan work }
    ensures { (n : ℕ) → shown result n ≡ by_reconf n (learns_if (nat_lt (plan.stand.proj.epoch + 1) epoch) (working plan (work_of work)) n) }
{
    if epoch <= plan.next_epoch() {
        return stay(alloc, plan, work);
    }
    learn(alloc, plan, work)
}

/// A message that comes while the spare is asked once more.
#[tactic(auto, unfolding(tg_protocol::specs::Reconfiguring::reconf_feed, tg_protocol::specs::Replies::reply))]
pub fn on_spare_seen_again(
    alloc: Global,
    plan: Plan,
    own: u64,
    acks: List<(u16, Pos)>,
    spare: u16,
    msg: &Msg,
    rids: &mut Rids,
) -> Result<Step, NoMemory>
    requires open { IsOpen plan }
    requires numbers { rids.old.next < 2 ^ 62 }
    ensures turn { IfOk result (λ t. (k : ℕ) → shown t rids.new.next ≡ by_reconf rids.old.next (reconf_feed (working plan (LookingAgain own acks)) (LookingAgain own acks) spare k (reply msg.now) rids.old.next)) }
    ensures free { feed_needs (LookingAgain own acks) msg.now ≡ false → IsOk result }
    ensures err { OnErr result (rids.new ≡ rids.old) }
    ensures drawn { rids.new.next ≤ rids.old.next + 2 ^ 16 }
{
    match msg {
        Msg::Whole => propose(alloc, plan, acks.as_slice(), rids),
        Msg::Missing { pos } => Ok(miss_again(alloc, plan, own, acks, spare, *pos)),
        Msg::Fenced { epoch } => {
            let work = Work::LooksAgain { rid: own, acks };
            Ok(learn_if_later(alloc, plan, work, *epoch))
        }
        _ => Ok(stay(alloc, plan, Work::LooksAgain { rid: own, acks })),
    }
}

/// The spare still hasn't this position.
#[tactic(auto, unfolding(tg_protocol::specs::Reconfiguring::reconf_feed))]
fn miss_again(
    alloc: Global,
    plan: Plan,
    own: u64,
    acks: List<(u16, Pos)>,
    spare: u16,
    pos: Pos,
) -> Step
    requires { IsOpen plan }
    ensures { (k n : ℕ) → shown result n ≡ by_reconf n (reconf_feed (working plan (LookingAgain own acks)) (LookingAgain own acks) spare k (near pos (IsMissing pos)) n) }
{
    if pos >= FAR {
        return stay(alloc, plan, Work::LooksAgain { rid: own, acks });
    }
    not_whole(alloc, plan, spare, pos)
}
