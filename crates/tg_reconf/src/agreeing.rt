//! The layout servers agree on the next layout. For each epoch they are acceptors of a Paxos of its own, in which
//! clients are proposers (Lamport, "Paxos made simple", 2001).

ghost use Rattle.std.specs.Prelude.{ℕ, ◌≡◌, ◌<◌, ◌≤◌, ◌+◌, ◌^◌, ◌&&◌, nat_lt, max, [], length, false, true, None, IfOk, IsOk, OnErr};
ghost use Rattle.tg_protocol.specs.Replies.{reply, IsPromise, IsAccepted, IsNack};
ghost use Rattle.tg_protocol.specs.Reconfiguring.{Agreeing, SealingSpare, Preparing, Accepting, reconf_feed, prepares, proposes, stage_feed, stage_asks, reconf_awaited, same_vote, is_of_epoch as before_of, is_answer, is_majority, round_set, promised_on, accepted_on, sets_if, tells};
ghost use Rattle.tg_reconf.specs.States.{IsOpen, IsMinority, HasFew, working, stage_of, voting_at, voting_of, later_of};
ghost use Rattle.tg_reconf.specs.declared.vote.VoteStage.TheVariants.{Prepares};
ghost use Rattle.tg_reconf.specs.Turns.{shown, by_reconf, all_drawn};
ghost use Rattle.tg_reconf.specs.Needs.{feed_needs};

use crate::job::Work;
use crate::plan::Plan;
use crate::promises::{copy_of, is_of_epoch, value_of};
use crate::reconf::Reconf;
use crate::step::{Next, Step};
use crate::turns::{send, stay};
use crate::vote::{Accepted, NextRound, Round, Vote, VoteStage};
use std::alloc::Global;
use tg_base::{Ballot, Epoch, List, Msg, NoMemory, Pos, Projection, Rids};
use tg_chain::{ask_servers, has_rid, without};

/// All units are sealed: the client proposes its layout, which begins where the acks say.
#[tactic(auto, using(tg_proj::proofs::Allowed::later_start))]
pub fn propose(
    alloc: Global,
    plan: Plan,
    acks: &[(u16, Pos)],
    rids: &mut Rids,
) -> Result<Step, NoMemory>
    requires open { IsOpen plan }
    requires numbers { rids.old.next < 2 ^ 62 }
    ensures turn { IfOk result (λ t. shown t rids.new.next ≡ by_reconf rids.old.next (proposes (working plan (SealingSpare 0)) acks.now rids.old.next)) }
    ensures err { OnErr result (rids.new ≡ rids.old) }
    ensures drawn { rids.new.next ≤ rids.old.next + 2 ^ 16 }
{
    let start = plan.start_after(acks);
    let own = plan.next_layout(alloc, start)?;
    prepare(alloc, plan, own, rids)
}

/// The first round.
fn prepare(alloc: Global, plan: Plan, own: Projection, rids: &mut Rids) -> Result<Step, NoMemory>
    requires open { IsOpen plan }
    requires numbers { rids.old.next < 2 ^ 62 }
    ensures turn { IfOk result (λ t. shown t rids.new.next ≡ by_reconf rids.old.next (prepares (working plan (SealingSpare 0)) own rids.old.next)) }
    ensures err { OnErr result (rids.new ≡ rids.old) }
    ensures drawn { rids.new.next ≤ rids.old.next + 2 ^ 16 }
{
    let mut drawn = *rids;
    let waits = ask_servers(alloc, plan.stand.layouts, &mut drawn)?;
    let stage = VoteStage::Prepares {
        waits,
        promises: List::new(alloc),
    };
    let round = Round {
        own,
        number: 1,
        later: None,
    };
    let vote = Vote { round, stage };
    send(alloc, plan, Work::Votes { vote }, drawn, rids)
}

/// A message that comes while the layout servers vote. The first answer to the round that a refusal has set
/// begins that round.
#[tactic(auto, unfolding(tg_protocol::specs::Reconfiguring::reconf_feed))]
pub fn on_vote(
    alloc: Global,
    plan: Plan,
    vote: Vote,
    server: u16,
    rid: u64,
    msg: &Msg,
    rids: &mut Rids,
) -> Result<Step, NoMemory>
    requires open { IsOpen plan }
    requires few { HasFew plan vote.stage }
    requires numbers { rids.old.next < 2 ^ 62 }
    requires awaited { all_drawn rids.old.next (reconf_awaited (working plan (Agreeing (voting_of vote)))) ≡ true }
    ensures turn { IfOk result (λ t. shown t rids.new.next ≡ by_reconf rids.old.next (reconf_feed (working plan (Agreeing (voting_of vote))) (Agreeing (voting_of vote)) server rid (reply msg.now) rids.old.next)) }
    ensures free { feed_needs (Agreeing (voting_of vote)) msg.now ≡ false → IsOk result }
    ensures err { OnErr result (rids.new ≡ rids.old) }
    ensures drawn { rids.new.next ≤ rids.old.next + 2 ^ 16 }
{
    let Vote { round, stage } = vote;
    let Round { own, number, later } = round;
    match later {
        None => {
            let later = None;
            let round = Round { own, number, later };
            on_stage(alloc, plan, Vote { round, stage }, server, msg, rids)
        }
        Some(next) => {
            if !has_rid(server, rid, next.waits.as_slice()) {
                let later = Some(next);
                let round = Round { own, number, later };
                return on_stage(alloc, plan, Vote { round, stage }, server, msg, rids);
            }
            if !answers_round(&plan, next.number, msg) {
                let later = Some(next);
                let round = Round { own, number, later };
                let vote = Vote { round, stage };
                return Ok(stay(alloc, plan, Work::Votes { vote }));
            }
            let vote = begin(alloc, own, next);
            on_stage(alloc, plan, vote, server, msg, rids)
        }
    }
}

/// A round whose promises are still to come.
fn begin(alloc: Global, own: Projection, next: NextRound) -> Vote
    ensures vote { voting_of result ≡ record { own = own; round = next.number; stage = Preparing next.waits []; later = None } }
    ensures stage { result.stage ≡ Prepares next.waits [] }
{
    let stage = VoteStage::Prepares {
        waits: next.waits,
        promises: List::new(alloc),
    };
    let round = Round {
        own,
        number: next.number,
        later: None,
    };
    Vote { round, stage }
}

/// Whether a message is an answer of this round.
#[tactic(auto, unfolding(tg_protocol::specs::Replies::reply))]
fn answers_round(plan: &Plan, number: u32, msg: &Msg) -> bool
    requires { IsOpen plan.now }
    ensures { result ≡ is_answer (working plan.now (SealingSpare 0)) (record { round = number; waits = [] }) (reply msg.now) }
{
    match msg {
        Msg::Promise {
            epoch,
            ballot,
            accepted,
        } => is_promise_to(plan, number, *epoch, *ballot, accepted),
        Msg::Nack { epoch, .. } => *epoch == plan.next_epoch(),
        _ => false,
    }
}

/// Whether an answer is to the client's ballot of this round.
fn is_same_vote(plan: &Plan, number: u32, epoch: Epoch, ballot: Ballot) -> bool
    requires { IsOpen plan.now }
    ensures { result ≡ same_vote (working plan.now (SealingSpare 0)) number epoch ballot }
{
    epoch == plan.next_epoch() && ballot.is_same(plan.ballot(number))
}

/// A message that comes in a round.
#[tactic(auto, unfolding(tg_protocol::specs::Replies::reply))]
fn on_stage(
    alloc: Global,
    plan: Plan,
    vote: Vote,
    server: u16,
    msg: &Msg,
    rids: &mut Rids,
) -> Result<Step, NoMemory>
    requires open { IsOpen plan }
    requires few { HasFew plan vote.stage }
    requires numbers { rids.old.next < 2 ^ 62 }
    requires asked { all_drawn rids.old.next (stage_asks (working plan (SealingSpare 0)) vote.round.number (stage_of vote.stage)) ≡ true }
    ensures turn { IfOk result (λ t. shown t rids.new.next ≡ by_reconf rids.old.next (stage_feed (working plan (Agreeing (voting_of vote))) (voting_of vote) (stage_of vote.stage) server (reply msg.now) rids.old.next)) }
    ensures free { feed_needs (Agreeing (voting_of vote)) msg.now ≡ false → IsOk result }
    ensures err { OnErr result (rids.new ≡ rids.old) }
    ensures drawn { rids.new.next ≤ rids.old.next + 2 ^ 16 }
{
    match msg {
        Msg::Promise {
            epoch,
            ballot,
            accepted,
        } => promise(alloc, plan, vote, server, *epoch, *ballot, accepted, rids),
        Msg::Accepted { epoch, ballot } => {
            accept(alloc, plan, vote, server, *epoch, *ballot, rids)
        }
        Msg::Nack { epoch, ballot } => refuse(alloc, plan, vote, *epoch, *ballot, rids),
        _ => Ok(stay(alloc, plan, Work::Votes { vote })),
    }
}

/// A layout server promises.
fn promise(
    alloc: Global,
    plan: Plan,
    vote: Vote,
    server: u16,
    epoch: Epoch,
    ballot: Ballot,
    before: &Accepted,
    rids: &mut Rids,
) -> Result<Step, NoMemory>
    requires open { IsOpen plan }
    requires few { HasFew plan vote.stage }
    requires numbers { rids.old.next < 2 ^ 62 }
    ensures turn { IfOk result (λ t. shown t rids.new.next ≡ by_reconf rids.old.next (stage_feed (working plan (Agreeing (voting_of vote))) (voting_of vote) (stage_of vote.stage) server (IsPromise epoch ballot before.now) rids.old.next)) }
    ensures err { OnErr result (rids.new ≡ rids.old) }
    ensures drawn { rids.new.next ≤ rids.old.next + 2 ^ 16 }
{
    let Vote { round, stage } = vote;
    match stage {
        VoteStage::Accepts {
            waits,
            accepted,
            proj,
        } => {
            let stage = VoteStage::Accepts {
                waits,
                accepted,
                proj,
            };
            let vote = Vote { round, stage };
            Ok(stay(alloc, plan, Work::Votes { vote }))
        }
        VoteStage::Prepares { waits, promises } => count_promise(
            alloc, plan, round, waits, promises, server, epoch, ballot, before, rids,
        ),
    }
}

/// A layout server promises while promises are awaited: one to this round's ballot counts.
fn count_promise(
    alloc: Global,
    plan: Plan,
    round: Round,
    waits: List<(u16, u64)>,
    promises: List<Accepted>,
    server: u16,
    epoch: Epoch,
    ballot: Ballot,
    before: &Accepted,
    rids: &mut Rids,
) -> Result<Step, NoMemory>
    requires open { IsOpen plan }
    requires numbers { rids.old.next < 2 ^ 62 }
    ensures turn { IfOk result (λ t. shown t rids.new.next ≡ by_reconf rids.old.next (stage_feed (working plan (Agreeing (voting_at round (Preparing waits promises)))) (voting_at round (Preparing waits promises)) (Preparing waits promises) server (IsPromise epoch ballot before.now) rids.old.next)) }
    ensures err { OnErr result (rids.new ≡ rids.old) }
    ensures drawn { rids.new.next ≤ rids.old.next + 2 ^ 16 }
{
    if !is_promise_to(&plan, round.number, epoch, ballot, before) {
        let stage = VoteStage::Prepares { waits, promises };
        let vote = Vote { round, stage };
        return Ok(stay(alloc, plan, Work::Votes { vote }));
    }
    let before = copy_of(before)?;
    let waits = without(alloc, server, &waits)?;
    let mut promises = promises;
    promises.insert(0, before)?;
    on_promises(alloc, plan, round, waits, promises, rids)
}

/// Whether a promise is to the client's ballot of this round, and tells no layout of another epoch.
fn is_promise_to(plan: &Plan, number: u32, epoch: Epoch, ballot: Ballot, before: &Accepted) -> bool
    requires { IsOpen plan.now }
    ensures { result ≡ (same_vote (working plan.now (SealingSpare 0)) number epoch ballot && before_of epoch before.now) }
{
    is_same_vote(plan, number, epoch, ballot) && is_of_epoch(before, epoch)
}

/// Where a majority has promised, a layout is put to the vote.
fn on_promises(
    alloc: Global,
    plan: Plan,
    round: Round,
    waits: List<(u16, u64)>,
    promises: List<Accepted>,
    rids: &mut Rids,
) -> Result<Step, NoMemory>
    requires open { IsOpen plan }
    requires numbers { rids.old.next < 2 ^ 62 }
    ensures turn { IfOk result (λ t. shown t rids.new.next ≡ by_reconf rids.old.next (promised_on (working plan (SealingSpare 0)) (voting_at round (Preparing waits promises)) waits promises rids.old.next (is_majority (working plan (SealingSpare 0)) (length promises)))) }
    ensures err { OnErr result (rids.new ≡ rids.old) }
    ensures drawn { rids.new.next ≤ rids.old.next + 2 ^ 16 }
{
    if !plan.is_majority(promises.len()) {
        let stage = VoteStage::Prepares { waits, promises };
        let vote = Vote { round, stage };
        return Ok(stay(alloc, plan, Work::Votes { vote }));
    }
    let proj = value_of(promises, &round.own)?;
    let mut drawn = *rids;
    let waits = ask_servers(alloc, plan.stand.layouts, &mut drawn)?;
    let stage = VoteStage::Accepts {
        waits,
        accepted: 0,
        proj,
    };
    let vote = Vote { round, stage };
    send(alloc, plan, Work::Votes { vote }, drawn, rids)
}

/// A layout server has accepted a layout.
fn accept(
    alloc: Global,
    plan: Plan,
    vote: Vote,
    server: u16,
    epoch: Epoch,
    ballot: Ballot,
    rids: &mut Rids,
) -> Result<Step, NoMemory>
    requires open { IsOpen plan }
    requires few { HasFew plan vote.stage }
    requires numbers { rids.old.next < 2 ^ 62 }
    ensures turn { IfOk result (λ t. shown t rids.new.next ≡ by_reconf rids.old.next (stage_feed (working plan (Agreeing (voting_of vote))) (voting_of vote) (stage_of vote.stage) server (IsAccepted epoch ballot) rids.old.next)) }
    ensures err { OnErr result (rids.new ≡ rids.old) }
    ensures drawn { rids.new.next ≤ rids.old.next + 2 ^ 16 }
{
    let Vote { round, stage } = vote;
    match stage {
        VoteStage::Prepares { waits, promises } => {
            let stage = VoteStage::Prepares { waits, promises };
            let vote = Vote { round, stage };
            Ok(stay(alloc, plan, Work::Votes { vote }))
        }
        VoteStage::Accepts {
            waits,
            accepted,
            proj,
        } => count_accepted(
            alloc, plan, round, waits, accepted, proj, server, epoch, ballot, rids,
        ),
    }
}

/// A layout server has accepted a layout while that is awaited: one of this round counts.
fn count_accepted(
    alloc: Global,
    plan: Plan,
    round: Round,
    waits: List<(u16, u64)>,
    accepted: usize,
    proj: Projection,
    server: u16,
    epoch: Epoch,
    ballot: Ballot,
    rids: &mut Rids,
) -> Result<Step, NoMemory>
    requires open { IsOpen plan }
    requires few { IsMinority plan accepted }
    requires numbers { rids.old.next < 2 ^ 62 }
    ensures turn { IfOk result (λ t. shown t rids.new.next ≡ by_reconf rids.old.next (stage_feed (working plan (Agreeing (voting_at round (Accepting waits accepted proj)))) (voting_at round (Accepting waits accepted proj)) (Accepting waits accepted proj) server (IsAccepted epoch ballot) rids.old.next)) }
    ensures err { OnErr result (rids.new ≡ rids.old) }
    ensures drawn { rids.new.next ≤ rids.old.next + 2 ^ 16 }
{
    if !is_same_vote(&plan, round.number, epoch, ballot) {
        let stage = VoteStage::Accepts {
            waits,
            accepted,
            proj,
        };
        let vote = Vote { round, stage };
        return Ok(stay(alloc, plan, Work::Votes { vote }));
    }
    let waits = without(alloc, server, &waits)?;
    on_accepted(alloc, plan, round, waits, accepted + 1, proj, rids)
}

/// Where a majority has accepted a layout, it is decided.
fn on_accepted(
    alloc: Global,
    plan: Plan,
    round: Round,
    waits: List<(u16, u64)>,
    accepted: usize,
    proj: Projection,
    rids: &mut Rids,
) -> Result<Step, NoMemory>
    requires open { IsOpen plan }
    requires numbers { rids.old.next < 2 ^ 62 }
    ensures turn { IfOk result (λ t. shown t rids.new.next ≡ by_reconf rids.old.next (accepted_on (working plan (SealingSpare 0)) (voting_at round (Preparing waits [])) waits accepted proj rids.old.next (is_majority (working plan (SealingSpare 0)) accepted))) }
    ensures err { OnErr result (rids.new ≡ rids.old) }
    ensures drawn { rids.new.next ≤ rids.old.next + 2 ^ 16 }
{
    if plan.is_majority(accepted) {
        return tell(alloc, plan, proj, rids);
    }
    let stage = VoteStage::Accepts {
        waits,
        accepted,
        proj,
    };
    let vote = Vote { round, stage };
    Ok(stay(alloc, plan, Work::Votes { vote }))
}

/// The layout servers are told a decided layout.
pub fn tell(alloc: Global, plan: Plan, proj: Projection, rids: &mut Rids) -> Result<Step, NoMemory>
    requires open { IsOpen plan }
    requires numbers { rids.old.next < 2 ^ 62 }
    ensures turn { IfOk result (λ t. shown t rids.new.next ≡ by_reconf rids.old.next (tells (working plan (SealingSpare 0)) proj rids.old.next)) }
    ensures err { OnErr result (rids.new ≡ rids.old) }
    ensures drawn { rids.new.next ≤ rids.old.next + 2 ^ 16 }
{
    let mut drawn = *rids;
    let waits = ask_servers(alloc, plan.stand.layouts, &mut drawn)?;
    let work = Work::Tells {
        waits,
        heard: 0,
        proj,
    };
    send(alloc, plan, work, drawn, rids)
}

/// A layout server has promised another ballot. A round above both is set for the next tick, if a greater one isn't.
fn refuse(
    alloc: Global,
    plan: Plan,
    vote: Vote,
    epoch: Epoch,
    ballot: Ballot,
    rids: &mut Rids,
) -> Result<Step, NoMemory>
    requires open { IsOpen plan }
    requires few { HasFew plan vote.stage }
    requires numbers { rids.old.next < 2 ^ 62 }
    requires asked { all_drawn rids.old.next (stage_asks (working plan (SealingSpare 0)) vote.round.number (stage_of vote.stage)) ≡ true }
    ensures turn { IfOk result (λ t. (n : ℕ) → shown t rids.new.next ≡ by_reconf rids.old.next (stage_feed (working plan (Agreeing (voting_of vote))) (voting_of vote) (stage_of vote.stage) n (IsNack epoch ballot) rids.old.next)) }
    ensures err { OnErr result (rids.new ≡ rids.old) }
    ensures drawn { rids.new.next ≤ rids.old.next + 2 ^ 16 }
{
    if epoch != plan.next_epoch() {
        return Ok(stay(alloc, plan, Work::Votes { vote }));
    }
    let next = round_past(vote.round.number, ballot);
    raise_if(alloc, plan, vote, next, rids)
}

/// The first round above this one and that of a ballot.
fn round_past(number: u32, ballot: Ballot) -> u64
    ensures { result ≡ max number ballot.round + 1 }
{
    u64::from(number.max(ballot.round)) + 1
}

/// A round is set, if there is one such, and no greater one is set.
fn raise_if(
    alloc: Global,
    plan: Plan,
    vote: Vote,
    next: u64,
    rids: &mut Rids,
) -> Result<Step, NoMemory>
    requires open { IsOpen plan }
    requires few { HasFew plan vote.stage }
    requires numbers { rids.old.next < 2 ^ 62 }
    requires asked { all_drawn rids.old.next (stage_asks (working plan (SealingSpare 0)) vote.round.number (stage_of vote.stage)) ≡ true }
    ensures turn { IfOk result (λ t. shown t rids.new.next ≡ by_reconf rids.old.next (sets_if (working plan (SealingSpare 0)) (voting_of vote) next rids.old.next (nat_lt (round_set (later_of vote.round.later)) next && nat_lt next (2 ^ 32)))) }
    ensures err { OnErr result (rids.new ≡ rids.old) }
    ensures drawn { rids.new.next ≤ rids.old.next + 2 ^ 16 }
{
    if next <= set_round(&vote.round.later) {
        return Ok(stay(alloc, plan, Work::Votes { vote }));
    }
    if next >= 1 << 32 {
        return Ok(stay(alloc, plan, Work::Votes { vote }));
    }
    raise(alloc, plan, vote, next as u32, rids)
}

/// A round is set.
fn raise(
    alloc: Global,
    plan: Plan,
    vote: Vote,
    next: u32,
    rids: &mut Rids,
) -> Result<Step, NoMemory>
    requires open { IsOpen plan }
    requires few { HasFew plan vote.stage }
    requires numbers { rids.old.next < 2 ^ 62 }
    requires asked { all_drawn rids.old.next (stage_asks (working plan (SealingSpare 0)) vote.round.number (stage_of vote.stage)) ≡ true }
    ensures turn { IfOk result (λ t. shown t rids.new.next ≡ by_reconf rids.old.next (sets_if (working plan (SealingSpare 0)) (voting_of vote) next rids.old.next true)) }
    ensures err { OnErr result (rids.new ≡ rids.old) }
    ensures drawn { rids.new.next ≤ rids.old.next + 2 ^ 16 }
{
    let mut drawn = *rids;
    let waits = ask_servers(alloc, plan.stand.layouts, &mut drawn)?;
    *rids = drawn;
    let Vote { round, stage } = vote;
    let Round { own, number, .. } = round;
    let later = Some(NextRound {
        number: next,
        waits,
    });
    let round = Round { own, number, later };
    let vote = Vote { round, stage };
    let machine = Reconf::of(plan, Work::Votes { vote });
    let next = Next::Goes { machine };
    let outs = List::new(alloc);
    Ok(Step { next, outs })
}

/// The round that a refusal has set, or 0.
fn set_round(later: &Option<NextRound>) -> u64
    ensures { result ≡ round_set (later_of later.now) }
{
    match later {
        None => 0,
        Some(next) => u64::from(next.number),
    }
}
