//! The steps of the machine.

ghost use Rattle.std.specs.Prelude.{ℕ, ◌≡◌, ◌<◌, ◌≤◌, ◌+◌, ◌^◌, ◌&&◌, false, true, None, IfOk, IsOk, OnErr};
ghost use Rattle.tg_protocol.specs.Layouts.{change_fault};
ghost use Rattle.tg_protocol.specs.Requests.{awaits};
ghost use Rattle.tg_protocol.specs.Replies.{reply};
ghost use Rattle.tg_protocol.specs.Reconfiguring.{reconf_start, reconf_feed, reconf_latest, reconf_awaited};
ghost use Rattle.tg_reconf.specs.States.{IsReady, working, work_of};
ghost use Rattle.tg_reconf.specs.Turns.{shown, next_of, by_reconf, fed, all_drawn, AreDrawn, StayDrawn};
ghost use Rattle.tg_reconf.specs.Needs.{feed_needs, latest_needs};

use crate::agreeing::on_vote;
use crate::job::Work;
use crate::plan::Plan;
use crate::reconf::Reconf;
use crate::requests::is_expected;
use crate::sealing::{begin, on_sealed, on_spare_sealed, on_spare_seen, on_spare_seen_again};
use crate::step::Step;
use crate::telling::{on_newer, on_start, on_started, on_told};
use crate::turns::stay;
use std::alloc::Global;
use tg_base::{Change, Msg, NoMemory, NodeId, Projection, Rids, Stand};

impl Reconf {
    /// Seals the units of the next layout, and before them the one that joins, if one does.
    pub fn start(
        alloc: Global,
        stand: Stand,
        change: Change,
        me: u16,
        rids: &mut Rids,
    ) -> Result<Step, NoMemory>
        requires few { stand.proj.epoch < 2 ^ 32 }
        requires allowed { change_fault stand.proj change ≡ None }
        requires numbers { rids.old.next < 2 ^ 62 }
        ensures turn { IfOk result (λ t. shown t rids.new.next ≡ by_reconf rids.old.next (reconf_start stand.proj stand.layouts change me rids.old.next)) }
        ensures awaited { IfOk result (λ t. StayDrawn rids.new.next (next_of t.next)) }
        ensures err { OnErr result (rids.new ≡ rids.old) }
        ensures drawn { rids.new.next ≤ rids.old.next + 2 ^ 16 }
    {
        open(alloc, Plan { stand, change, me }, rids)
    }

    /// Takes an awaited answer, and passes every other message by, also a `Latest`.
    pub fn feed(
        self,
        alloc: Global,
        from: NodeId,
        rid: u64,
        msg: &Msg,
        rids: &mut Rids,
    ) -> Result<Step, NoMemory>
        requires awaited { AreDrawn rids.old.next self }
        requires numbers { rids.old.next < 2 ^ 62 }
        ensures turn { IfOk result (λ t. shown t rids.new.next ≡ by_reconf rids.old.next (fed self from rid msg.now rids.old.next)) }
        ensures awaited { IfOk result (λ t. StayDrawn rids.new.next (next_of t.next)) }
        ensures free { (awaits (reconf_awaited self) from rid && feed_needs self.work msg.now) ≡ false → IsOk result }
        ensures err { OnErr result (rids.new ≡ rids.old) }
        ensures drawn { rids.new.next ≤ rids.old.next + 2 ^ 16 }
    {
        let parts = self.into_parts();
        on_message(alloc, parts.0, parts.1, from, rid, msg, rids)
    }

    /// Takes a layout that this layout server has told under this number, and whose epoch is above that of the
    /// layout on which the client stands.
    pub fn latest(
        self,
        alloc: Global,
        server: u16,
        rid: u64,
        proj: Projection,
        rids: &mut Rids,
    ) -> Result<Step, NoMemory>
        requires awaited { AreDrawn rids.old.next self }
        requires numbers { rids.old.next < 2 ^ 62 }
        ensures turn { IfOk result (λ t. shown t rids.new.next ≡ by_reconf rids.old.next (reconf_latest self self.work server rid proj rids.old.next)) }
        ensures awaited { IfOk result (λ t. StayDrawn rids.new.next (next_of t.next)) }
        ensures free { latest_needs self self.work server rid proj ≡ false → IsOk result }
        ensures err { OnErr result (rids.new ≡ rids.old) }
        ensures drawn { rids.new.next ≤ rids.old.next + 2 ^ 16 }
    {
        let parts = self.into_parts();
        on_layout(alloc, parts.0, parts.1, server, rid, proj, rids)
    }
}

/// The machine begins.
#[tactic(auto, unfolding(tg_protocol::specs::Reconfiguring::reconf_start, tg_protocol::specs::Layouts::change_fault))]
fn open(alloc: Global, plan: Plan, rids: &mut Rids) -> Result<Step, NoMemory>
    requires few { plan.stand.proj.epoch < 2 ^ 32 }
    requires allowed { change_fault plan.stand.proj plan.change ≡ None }
    requires numbers { rids.old.next < 2 ^ 62 }
    ensures turn { IfOk result (λ t. shown t rids.new.next ≡ by_reconf rids.old.next (reconf_start plan.stand.proj plan.stand.layouts plan.change plan.me rids.old.next)) }
    ensures err { OnErr result (rids.new ≡ rids.old) }
    ensures drawn { rids.new.next ≤ rids.old.next + 2 ^ 16 }
{
    begin(alloc, plan, rids)
}

/// A message comes.
fn on_message(
    alloc: Global,
    plan: Plan,
    work: Work,
    from: NodeId,
    rid: u64,
    msg: &Msg,
    rids: &mut Rids,
) -> Result<Step, NoMemory>
    requires ready { IsReady plan work }
    requires numbers { rids.old.next < 2 ^ 62 }
    requires awaited { all_drawn rids.old.next (reconf_awaited (working plan (work_of work))) ≡ true }
    ensures turn { IfOk result (λ t. shown t rids.new.next ≡ by_reconf rids.old.next (fed (working plan (work_of work)) from rid msg.now rids.old.next)) }
    ensures free { (awaits (reconf_awaited (working plan (work_of work))) from rid && feed_needs (work_of work) msg.now) ≡ false → IsOk result }
    ensures err { OnErr result (rids.new ≡ rids.old) }
    ensures drawn { rids.new.next ≤ rids.old.next + 2 ^ 16 }
{
    if !is_expected(&plan, &work, from, rid) {
        return Ok(stay(alloc, plan, work));
    }
    on_answer(alloc, plan, work, from.num, rid, msg, rids)
}

/// A message comes that answers a request that is awaited.
#[tactic(auto, unfolding(tg_protocol::specs::Reconfiguring::reconf_feed))]
fn on_answer(
    alloc: Global,
    plan: Plan,
    work: Work,
    node: u16,
    rid: u64,
    msg: &Msg,
    rids: &mut Rids,
) -> Result<Step, NoMemory>
    requires ready { IsReady plan work }
    requires numbers { rids.old.next < 2 ^ 62 }
    requires awaited { all_drawn rids.old.next (reconf_awaited (working plan (work_of work))) ≡ true }
    ensures turn { IfOk result (λ t. shown t rids.new.next ≡ by_reconf rids.old.next (reconf_feed (working plan (work_of work)) (work_of work) node rid (reply msg.now) rids.old.next)) }
    ensures free { feed_needs (work_of work) msg.now ≡ false → IsOk result }
    ensures err { OnErr result (rids.new ≡ rids.old) }
    ensures drawn { rids.new.next ≤ rids.old.next + 2 ^ 16 }
{
    match work {
        Work::SealsSpare { rid: own } => on_spare_sealed(alloc, plan, own, msg, rids),
        Work::LooksAtSpare { rid: own } => on_spare_seen(alloc, plan, own, node, msg, rids),
        Work::Seals { waits, acks } => on_sealed(alloc, plan, waits, acks, node, msg, rids),
        Work::LooksAgain { rid: own, acks } => {
            on_spare_seen_again(alloc, plan, own, acks, node, msg, rids)
        }
        Work::Votes { vote } => on_vote(alloc, plan, vote, node, rid, msg, rids),
        Work::Tells { waits, heard, proj } => {
            Ok(stay(alloc, plan, Work::Tells { waits, heard, proj }))
        }
        Work::Starts { rid: own } => Ok(on_start(alloc, plan, own, msg)),
    }
}

/// A newer layout comes.
#[tactic(auto, unfolding(tg_protocol::specs::Reconfiguring::reconf_latest))]
fn on_layout(
    alloc: Global,
    plan: Plan,
    work: Work,
    server: u16,
    rid: u64,
    proj: Projection,
    rids: &mut Rids,
) -> Result<Step, NoMemory>
    requires ready { IsReady plan work }
    requires numbers { rids.old.next < 2 ^ 62 }
    ensures turn { IfOk result (λ t. shown t rids.new.next ≡ by_reconf rids.old.next (reconf_latest (working plan (work_of work)) (work_of work) server rid proj rids.old.next)) }
    ensures free { latest_needs (working plan (work_of work)) (work_of work) server rid proj ≡ false → IsOk result }
    ensures err { OnErr result (rids.new ≡ rids.old) }
    ensures drawn { rids.new.next ≤ rids.old.next + 2 ^ 16 }
{
    match work {
        Work::Starts { rid: own } => Ok(on_started(alloc, plan, own, proj)),
        Work::Tells {
            waits,
            heard,
            proj: told,
        } => on_told(alloc, plan, waits, heard, told, server, rid, proj, rids),
        work => on_newer(alloc, plan, work, proj, rids),
    }
}
