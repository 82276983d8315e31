//! Trims that go on or have ended.

ghost use Rattle.std.specs.Prelude.{◌≡◌, ◌<◌, ◌^◌, ℕ, IfOk};
ghost use Rattle.tg_kind.specs.Of.{meaning_of};
ghost use Rattle.tg_protocol.specs.Clients as told;
ghost use Rattle.tg_protocol.specs.ClientSteps as steps;
ghost use Rattle.tg_protocol.specs.Trimming.{TrimTurn};
ghost use Rattle.tg_client_state.specs.States.{Rest, client_of, KeepsMoved};
ghost use Rattle.tg_client_state.specs.Moves.{Holds};
ghost use Rattle.tg_client_tasks.specs.Shown.{TrimShown};

use std::alloc::Global;
use tg_base::{NoMemory, Pos, Rids};
use tg_chain::Next;
use tg_client_state::{Job, Moved, Paused, State, Task, goes_on, learns, meets};
use tg_kind::Registry;
use tg_model::What;
use tg_trim::TrimStep;

/// What the turn of trims makes of a client: they go on, a newer layout is learnt first, or all is trimmed. An `Err` is
/// want of memory.
pub fn on_trims<K: Registry>(
    state: State<K>,
    alloc: Global,
    job: Job<K>,
    below: Pos,
    rids: Rids,
    step: TrimStep,
) -> Result<Moved<K>, NoMemory>
    requires { rids.next < 2 ^ 62 }
    ensures { (r : Rest (meaning_of K.Registry)) (w : told.Work (meaning_of K.Registry)) (old : ℕ) (t : TrimTurn) → Holds (meaning_of K.Registry) state job r w old → TrimShown old state.stand state.rids.next rids.next step t → IfOk result (λ x. KeepsMoved (meaning_of K.Registry) old x (steps.on_trims (meaning_of K.Registry) (client_of (meaning_of K.Registry) state r) w below t)) }
{
    let TrimStep { next, gone, outs } = step;
    let mut state = state;
    state.parts.rids = rids;
    let job = meets(job, gone);
    match next {
        Next::Goes { machine } => goes_on(state, alloc, job, Task::Trim { trims: machine }, outs),
        Next::Learns { paused } => learns(state, alloc, job, Paused::Trim { below: paused }),
        Next::Ends { .. } => state.answers(alloc, 0, What::Trimmed { mark: below }),
    }
}
