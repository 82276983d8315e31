//! The machine.

ghost use Rattle.std.specs.Prelude.{◌≡◌, ◌<◌, ◌^◌, IfOk};
ghost use Rattle.tg_base.specs.Changes.{IsChange};
ghost use Rattle.tg_base.specs.Layouts.{IsLayout};
ghost use Rattle.tg_protocol.specs.Reconfiguring.{reconf_again_asks};

use crate::job::Work;
use crate::plan::Plan;
use crate::requests;
use std::alloc::Global;
use std::marker::Model;
use tg_base::{List, NoMemory, Out, Projection, Rids};

/// Changes the layout of a cluster: seals the units, agrees on the next layout, tells it, and starts its
/// sequencer.
pub struct Reconf {
    plan: Plan,
    work: Work,
}

// By hand, since a derived drop is proved anew wherever a value is dropped.
impl Drop for Reconf {
    fn drop(self) {
        let Reconf { plan: _, work: _ } = self;
    }
}

impl Model for Reconf {
    ghost use Rattle.tg_reconf.specs.Words.{ReconfJob};
    ghost use Rattle.tg_reconf.specs.States.{IsReady, working, work_of};

    ghost Value = { ReconfJob };

    ghost view = { λ m. working m.plan (work_of m.work) };

    ghost invariant = { λ m. IsReady m.plan m.work };
}

impl Reconf {
    ghost use Rattle.tg_reconf.specs.States.{IsReady, working, work_of};

    /// What a tick sends: the round that a refusal has set, or else the outstanding requests, in the order in which
    /// they were first sent.
    pub fn again(&self, alloc: Global, rids: &mut Rids) -> Result<List<Out>, NoMemory>
        ensures asks { IfOk result (λ outs. outs ≡ reconf_again_asks self.now) }
        ensures rids { rids.new ≡ rids.old }
    {
        let _next = rids.next;
        requests::again(alloc, &self.plan, &self.work)
    }

    /// The layout that the client stands on.
    pub fn stand(&self) -> &Projection
        ensures { result.now ≡ self.now.stand }
    {
        &self.plan.stand.proj
    }

    /// Its layout and its change keep their rules, and its layout servers have a number of 16 bits.
    pub fn rules(&self)
        ensures servers { self.now.layouts < 2 ^ 16 }
        ensures stand { IsLayout self.now.stand }
        ensures change { IsChange self.now.change }
    {
        let _layouts = self.plan.stand.layouts;
        self.plan.stand.proj.rules();
        self.plan.change.rules();
    }

    /// A machine of this plan at this work.
    pub(crate) fn of(plan: Plan, work: Work) -> Reconf
        requires { IsReady plan work }
        ensures { result ≡ working plan (work_of work) }
    {
        Reconf { plan, work }
    }

    /// Its plan and its work.
    pub(crate) fn into_parts(self) -> (Plan, Work)
        ensures parts { working result.0 (work_of result.1) ≡ self }
        ensures ready { IsReady result.0 result.1 }
    {
        let Reconf { plan, work } = self;
        (plan, work)
    }
}
