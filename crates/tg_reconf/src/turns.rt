//! Steps of each kind.

ghost use Rattle.std.specs.Prelude.{ℕ, ◌≡◌, ◌<◌, ◌≤◌, ◌+◌, ◌^◌, Some, IfOk, OnOk, OnErr};
ghost use Rattle.tg_protocol.specs.Requests.{Goes, turn, passes, draws, learns, ends};
ghost use Rattle.tg_reconf.specs.States.{IsReady, working, work_of};
ghost use Rattle.tg_reconf.specs.Turns.{shown, by_reconf, end_of, AreNew, only_rid};

use crate::job::Work;
use crate::plan::Plan;
use crate::reconf::Reconf;
use crate::requests::requests;
use crate::step::{Next, ReconfEnd, Step};
use std::alloc::Global;
use tg_base::{List, NoMemory, Rids};

/// It goes on, and nothing is sent.
#[tactic(auto, using(tg_chain::proofs::Outs::none_drawn))]
pub fn stay(alloc: Global, plan: Plan, work: Work) -> Step
    requires { IsReady plan work }
    ensures { (n : ℕ) → shown result n ≡ by_reconf n (passes n (working plan (work_of work))) }
{
    let machine = Reconf::of(plan, work);
    Step {
        next: Next::Goes { machine },
        outs: List::new(alloc),
    }
}

/// A newer layout has to be learnt.
#[tactic(auto, using(tg_chain::proofs::Outs::none_drawn))]
pub fn learn(alloc: Global, plan: Plan, work: Work) -> Step
    requires { IsReady plan work }
    ensures { (n : ℕ) → shown result n ≡ by_reconf n (learns n (working plan (work_of work))) }
{
    let machine = Reconf::of(plan, work);
    Step {
        next: Next::Learns { machine },
        outs: List::new(alloc),
    }
}

/// It has ended.
pub fn end(alloc: Global, end: ReconfEnd) -> Step
    ensures { (n : ℕ) → shown result n ≡ by_reconf n (ends n (end_of end)) }
{
    Step {
        next: Next::Ends { end },
        outs: List::new(alloc),
    }
}

/// It goes on, and sends all its requests, whose numbers are drawn.
pub fn send(
    alloc: Global,
    plan: Plan,
    work: Work,
    drawn: Rids,
    rids: &mut Rids,
) -> Result<Step, NoMemory>
    requires ready { IsReady plan work }
    requires new { AreNew rids.old.next drawn.next (working plan (work_of work)) }
    ensures turn { IfOk result (λ t. shown t rids.new.next ≡ by_reconf rids.old.next (turn drawn.next (Goes (working plan (work_of work))))) }
    ensures next { OnOk result (rids.new ≡ drawn) }
    ensures err { OnErr result (rids.new ≡ rids.old) }
{
    let outs = requests(alloc, &plan, &work)?;
    *rids = drawn;
    let machine = Reconf::of(plan, work);
    let next = Next::Goes { machine };
    Ok(Step { next, outs })
}

/// It goes on with a single request, which has the next number.
#[tactic(auto, using(crate::proofs::Drawing::one_new))]
pub fn ask(alloc: Global, plan: Plan, work: Work, rids: &mut Rids) -> Result<Step, NoMemory>
    requires ready { IsReady plan work }
    requires one { only_rid (work_of work) ≡ Some rids.old.next }
    requires numbers { rids.old.next < 2 ^ 62 }
    ensures turn { IfOk result (λ t. shown t rids.new.next ≡ by_reconf rids.old.next (draws rids.old.next (working plan (work_of work)))) }
    ensures err { OnErr result (rids.new ≡ rids.old) }
    ensures drawn { rids.new.next ≤ rids.old.next + 1 }
{
    let mut drawn = *rids;
    let _rid = drawn.draw();
    send(alloc, plan, work, drawn, rids)
}
