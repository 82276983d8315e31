//! The units of the next layout.

ghost use Rattle.std.specs.Prelude.{◌≡◌, ◌≤◌, length, IfOk};
ghost use Rattle.tg_protocol.specs.Layouts.{next_units};
ghost use Rattle.tg_reconf.specs.States.{IsOpen};

use crate::plan::Plan;
use std::alloc::Global;
use tg_base::{List, NoMemory};
use tg_chain::units_of;

/// The units that stand in some chain of the next layout: at most 64.
#[tactic(auto, using(crate::proofs::Rising::next_units_are))]
pub fn units_after(alloc: Global, plan: &Plan) -> Result<List<u16>, NoMemory>
    requires { IsOpen plan.now }
    ensures units { IfOk result (λ us. us ≡ next_units plan.now.stand.proj plan.now.change) }
    ensures few { IfOk result (λ us. length us ≤ 64) }
{
    let start = plan.stand.proj.start;
    let next = plan.next_layout(alloc, start)?;
    units_of(alloc, &next)
}
