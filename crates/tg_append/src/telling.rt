//! The sequencer of a layout is told it.

ghost use Rattle.std.specs.Prelude.{◌≡◌, [], ◌∷◌, IfOk};
ghost use Rattle.tg_protocol.specs.Requests.{out};
ghost use Rattle.tg_base.specs.declared.msg.Msg.TheVariants.{Learn};
ghost use Rattle.tg_protocol.specs.Words.{seqr_id};

use std::alloc::Global;
use tg_base::{List, Msg, NoMemory, Out, Projection};
use tg_chain::{one, sequencer};

/// The sequencer of this layout is told it.
pub fn tell(alloc: Global, proj: &Projection, rid: u64) -> Result<List<Out>, NoMemory>
    ensures { IfOk result (λ outs. outs ≡ out (seqr_id proj.now.seq) rid (Learn proj.now) ∷ []) }
{
    let to = sequencer(proj.seq);
    let proj = proj.copy()?;
    one(alloc, to, rid, Msg::Learn { proj })
}
