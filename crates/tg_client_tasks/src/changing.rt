//! Changes of the layout.

ghost use Rattle.std.specs.Prelude.{◌≡◌, ℕ, ◌≤◌, ◌<◌, ◌^◌, [], None, IsTrue, IfOk};
ghost use Rattle.tg_kind.specs.Of.{meaning_of};
ghost use Rattle.tg_protocol.specs.Clients as told;
ghost use Rattle.tg_protocol.specs.ClientSteps as steps;
ghost use Rattle.tg_protocol.specs.Layouts.{change_fault};
ghost use Rattle.tg_protocol.specs.Reconfiguring.{ReconfTurn, reconf_start};
ghost use Rattle.tg_reconf.specs.Turns.{end_of};
ghost use Rattle.tg_client_state.specs.States.{Rest, client_of, KeepsViewIf, KeepsMoved};
ghost use Rattle.tg_client_state.specs.Tasks.{KeepsJob};
ghost use Rattle.tg_client_state.specs.Moves.{Holds};
ghost use Rattle.tg_client_tasks.specs.Shown.{ReconfShown, Changes};

use std::alloc::Global;
use tg_base::{Change, List, NoMemory, Out, Projection, Rids, Stand};
use tg_client_state::{Job, Moved, Paused, State, Task, goes_on, learns, one_note};
use tg_kind::Registry;
use tg_model::{Refusal, What};
use tg_reconf::{Next, Reconf, ReconfEnd, Step};

/// The change goes on, and the client stands where it does.
fn changes_on<K: Registry>(
    state: State<K>,
    alloc: Global,
    job: Job<K>,
    reconf: Reconf,
    outs: List<Out>,
) -> Result<Moved<K>, NoMemory>
    ensures { (r : Rest (meaning_of K.Registry)) (w : told.Work (meaning_of K.Registry)) (old : ℕ) → Holds (meaning_of K.Registry) state job r w old → Changes old state.rids.next reconf outs → IfOk result (λ x. KeepsMoved (meaning_of K.Registry) old x (steps.goes_on (meaning_of K.Registry) (steps.stands (meaning_of K.Registry) (client_of (meaning_of K.Registry) state r) reconf.stand) w (told.Reconfiguring reconf) [])) }
{
    let stand = reconf.stand().copy()?;
    let mut state = state;
    state.parts.stand = stand;
    let reconf = Box::new(alloc, reconf)?;
    goes_on(state, alloc, job, Task::Reconf { reconf }, outs)
}

/// The change has ended.
fn reconf_ended<K: Registry>(
    state: State<K>,
    alloc: Global,
    end: ReconfEnd,
) -> Result<Moved<K>, NoMemory>
    ensures { (r : Rest (meaning_of K.Registry)) (old : ℕ) → KeepsViewIf (meaning_of K.Registry) state.view r.view → IfOk result (λ x. KeepsMoved (meaning_of K.Registry) old x (steps.reconf_ended (meaning_of K.Registry) (client_of (meaning_of K.Registry) state r) (end_of end))) }
{
    match end {
        ReconfEnd::Installed { epoch, stand } => {
            let notes = one_note::<K>(alloc, 0, What::Installed { epoch })?;
            let mut state = state;
            state.parts.stand = stand;
            state.replies(alloc, notes)
        }
        ReconfEnd::Overtaken { epoch, stand } => {
            let mut state = state;
            state.parts.stand = stand;
            state.refuses(alloc, 0, Refusal::Overtaken { epoch })
        }
        ReconfEnd::NotWhole { unit, pos, stand } => {
            let mut state = state;
            state.parts.stand = stand;
            state.refuses(alloc, 0, Refusal::NotWhole { unit, pos })
        }
    }
}

/// What the turn of a change makes of a client: the change goes on, a newer layout is learnt first, or it has ended. An
/// `Err` is want of memory.
pub fn on_reconf<K: Registry>(
    state: State<K>,
    alloc: Global,
    job: Job<K>,
    rids: Rids,
    step: Step,
) -> Result<Moved<K>, NoMemory>
    requires { rids.next < 2 ^ 62 }
    ensures { (r : Rest (meaning_of K.Registry)) (w : told.Work (meaning_of K.Registry)) (old : ℕ) (t : ReconfTurn) → Holds (meaning_of K.Registry) state job r w old → ReconfShown old state.rids.next rids.next step t → IfOk result (λ x. KeepsMoved (meaning_of K.Registry) old x (steps.on_reconf (meaning_of K.Registry) (client_of (meaning_of K.Registry) state r) w t)) }
{
    let Step { next, outs } = step;
    let mut state = state;
    state.parts.rids = rids;
    match next {
        Next::Goes { machine } => changes_on(state, alloc, job, machine, outs),
        Next::Learns { machine } => {
            let reconf = Box::new(alloc, machine)?;
            learns(state, alloc, job, Paused::Reconf { reconf })
        }
        Next::Ends { end } => reconf_ended(state, alloc, end),
    }
}

/// Whether there is a number for a next epoch, and for those after it. It takes no memory.
fn counts_on(proj: &Projection) -> bool
    ensures { IsTrue result → proj.now.epoch < 2 ^ 32 }
{
    proj.epoch < 1 << 32
}

/// A change of the layout begins, where there is a number for the next epoch.
fn begins_change<K: Registry>(
    state: State<K>,
    alloc: Global,
    job: Job<K>,
    change: Change,
) -> Result<Moved<K>, NoMemory>
    requires few { state.stand.epoch < 2 ^ 32 }
    requires allowed { change_fault state.stand change ≡ None }
    requires numbers { state.rids.next < 2 ^ 61 }
    ensures { (r : Rest (meaning_of K.Registry)) (w : told.Work (meaning_of K.Registry)) (old : ℕ) → old ≤ state.rids.next → KeepsViewIf (meaning_of K.Registry) state.view r.view → KeepsJob (meaning_of K.Registry) job w → IfOk result (λ x. KeepsMoved (meaning_of K.Registry) old x (steps.on_reconf (meaning_of K.Registry) (client_of (meaning_of K.Registry) state r) w (reconf_start state.stand state.layouts change state.num state.rids.next))) }
{
    let mut rids = state.parts.rids;
    let proj = state.parts.stand.copy()?;
    let stand = Stand {
        layouts: state.parts.layouts,
        proj,
    };
    let step = Reconf::start(alloc, stand, change, state.parts.num, &mut rids)?;
    on_reconf(state, alloc, job, rids, step)
}

/// A change of the layout begins. An `Err` is want of memory, or of epochs.
pub fn reconfigures<K: Registry>(
    state: State<K>,
    alloc: Global,
    job: Job<K>,
    change: Change,
) -> Result<Moved<K>, NoMemory>
    requires allowed { change_fault state.stand change ≡ None }
    requires numbers { state.rids.next < 2 ^ 61 }
    ensures { (r : Rest (meaning_of K.Registry)) (w : told.Work (meaning_of K.Registry)) (old : ℕ) → old ≤ state.rids.next → KeepsViewIf (meaning_of K.Registry) state.view r.view → KeepsJob (meaning_of K.Registry) job w → IfOk result (λ x. KeepsMoved (meaning_of K.Registry) old x (steps.on_reconf (meaning_of K.Registry) (client_of (meaning_of K.Registry) state r) w (reconf_start state.stand state.layouts change state.num state.rids.next))) }
{
    if !counts_on(&state.parts.stand) {
        return Err(NoMemory);
    }
    begins_change(state, alloc, job, change)
}
