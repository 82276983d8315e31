//! A machine goes on in a newer layout.

ghost use Rattle.std.specs.Prelude.{◌<◌, ◌^◌, ℕ, IfOk};
ghost use Rattle.tg_kind.specs.Of.{meaning_of};
ghost use Rattle.tg_protocol.specs.Clients as told;
ghost use Rattle.tg_protocol.specs.ClientSteps as steps;
ghost use Rattle.tg_protocol.specs.Reconfiguring.{reconf_latest};
ghost use Rattle.tg_reconf.specs.Turns.{AreDrawn};
ghost use Rattle.tg_client_state.specs.Tasks.{GoesOn};
ghost use Rattle.tg_client_state.specs.declared.paused.Paused.TheVariants as given;
ghost use Rattle.tg_client_state.specs.States.{Rest, client_of, IsLeftFit, KeepsMoved};
ghost use Rattle.tg_client_state.specs.Moves.{Holds};
ghost use Rattle.tg_client.specs.Feeding.{IsCourseFit, IsLeftKept};
ghost use Rattle.tg_client_state.specs.Counts.{HasNumbers};

use std::alloc::Global;
use tg_append::{PausedAppend, Sync};
use tg_base::{List, NoMemory, Oid, Pos, Projection};
use tg_client_state::{Job, Moved, Paused, Purpose, State};
use tg_client_sync::{on_sync, on_walk};
use tg_client_tasks::{copies_again, on_append, on_reconf, on_trims};
use tg_kind::Registry;
use tg_reconf::Reconf;
use tg_stream::PausedWalk;
use tg_trim::Trims;

/// A sync starts over.
fn syncs_again<K: Registry>(
    state: State<K>,
    alloc: Global,
    job: Job<K>,
    oids: List<Oid>,
) -> Result<Moved<K>, NoMemory>
    requires { HasNumbers (meaning_of K.Registry) state }
    ensures { (r : Rest (meaning_of K.Registry)) (w : told.Work (meaning_of K.Registry)) (old : ℕ) (t : told.Task (meaning_of K.Registry)) → Holds (meaning_of K.Registry) state job r w old → GoesOn (meaning_of K.Registry) (given.Sync oids) t → IfOk result (λ x. KeepsMoved (meaning_of K.Registry) old x (steps.task_again (meaning_of K.Registry) (client_of (meaning_of K.Registry) state r) w t)) }
{
    let mut job = job;
    job.parts.gone_before = job.parts.gone;
    let mut rids = state.parts.rids;
    let step = Sync::start(alloc, &state.parts.stand, oids, &mut rids)?;
    on_sync(state, alloc, job, rids, step)
}

/// A walk goes on where it was.
fn walks_again<K: Registry>(
    state: State<K>,
    alloc: Global,
    job: Job<K>,
    walk: PausedWalk,
    rest: List<Oid>,
) -> Result<Moved<K>, NoMemory>
    requires fit { IsCourseFit (meaning_of K.Registry) state.known walk }
    requires numbers { HasNumbers (meaning_of K.Registry) state }
    ensures { (r : Rest (meaning_of K.Registry)) (w : told.Work (meaning_of K.Registry)) (old : ℕ) (t : told.Task (meaning_of K.Registry)) → Holds (meaning_of K.Registry) state job r w old → GoesOn (meaning_of K.Registry) (given.Walk walk rest) t → IfOk result (λ x. KeepsMoved (meaning_of K.Registry) old x (steps.task_again (meaning_of K.Registry) (client_of (meaning_of K.Registry) state r) w t)) }
{
    let mut rids = state.parts.rids;
    let oid = walk.oid();
    let step = walk.resume(alloc, &state.parts.stand, &mut rids)?;
    on_walk(state, alloc, job, oid, rest, rids, step)
}

/// An append settles its token's position, or asks for another token.
fn appends_again<K: Registry>(
    state: State<K>,
    alloc: Global,
    job: Job<K>,
    append: PausedAppend,
    purpose: Purpose<K>,
) -> Result<Moved<K>, NoMemory>
    requires { state.rids.next < 2 ^ 61 }
    ensures { (r : Rest (meaning_of K.Registry)) (w : told.Work (meaning_of K.Registry)) (old : ℕ) (t : told.Task (meaning_of K.Registry)) → Holds (meaning_of K.Registry) state job r w old → GoesOn (meaning_of K.Registry) (given.Append append purpose) t → IsLeftFit (meaning_of K.Registry) state.known t → IfOk result (λ x. KeepsMoved (meaning_of K.Registry) old x (steps.task_again (meaning_of K.Registry) (client_of (meaning_of K.Registry) state r) w t)) }
{
    let mut rids = state.parts.rids;
    let step = append.resume(alloc, &state.parts.stand, &mut rids)?;
    on_append(state, alloc, job, purpose, rids, step)
}

/// Trims start over.
fn trims_again<K: Registry>(
    state: State<K>,
    alloc: Global,
    job: Job<K>,
    below: Pos,
) -> Result<Moved<K>, NoMemory>
    requires { state.rids.next < 2 ^ 61 }
    ensures { (r : Rest (meaning_of K.Registry)) (w : told.Work (meaning_of K.Registry)) (old : ℕ) (t : told.Task (meaning_of K.Registry)) → Holds (meaning_of K.Registry) state job r w old → GoesOn (meaning_of K.Registry) (given.Trim below) t → IfOk result (λ x. KeepsMoved (meaning_of K.Registry) old x (steps.task_again (meaning_of K.Registry) (client_of (meaning_of K.Registry) state r) w t)) }
{
    let mut rids = state.parts.rids;
    let step = Trims::start(alloc, &state.parts.stand, below, &mut rids)?;
    on_trims(state, alloc, job, below, rids, step)
}

/// A change of the layout takes a newer one.
fn changes_again<K: Registry>(
    state: State<K>,
    alloc: Global,
    job: Job<K>,
    reconf: Reconf,
    server: u16,
    rid: u64,
    proj: Projection,
) -> Result<Moved<K>, NoMemory>
    requires drawn { AreDrawn state.rids.next reconf }
    requires numbers { state.rids.next < 2 ^ 61 }
    ensures { (r : Rest (meaning_of K.Registry)) (w : told.Work (meaning_of K.Registry)) → Holds (meaning_of K.Registry) state job r w state.rids.next → IfOk result (λ x. KeepsMoved (meaning_of K.Registry) state.rids.next x (steps.on_reconf (meaning_of K.Registry) (client_of (meaning_of K.Registry) state r) w (reconf_latest reconf reconf.work server rid proj state.rids.next))) }
{
    let mut rids = state.parts.rids;
    let step = reconf.latest(alloc, server, rid, proj, &mut rids)?;
    on_reconf(state, alloc, job, rids, step)
}

/// A layout server has told a newer layout, in which the machine goes on. An `Err` is want of memory, or of numbers.
pub fn goes_on_in<K: Registry>(
    state: State<K>,
    alloc: Global,
    job: Job<K>,
    paused: Paused<K>,
    server: u16,
    rid: u64,
    proj: Projection,
) -> Result<Moved<K>, NoMemory>
    requires kept { IsLeftKept (meaning_of K.Registry) state paused }
    requires numbers { HasNumbers (meaning_of K.Registry) state }
    ensures { (r : Rest (meaning_of K.Registry)) (w : told.Work (meaning_of K.Registry)) (t : told.Task (meaning_of K.Registry)) → Holds (meaning_of K.Registry) state job r w state.rids.next → GoesOn (meaning_of K.Registry) paused t → IsLeftFit (meaning_of K.Registry) state.known t → IfOk result (λ x. KeepsMoved (meaning_of K.Registry) state.rids.next x (steps.on_newer (meaning_of K.Registry) (client_of (meaning_of K.Registry) state r) w t server rid proj)) }
{
    match paused {
        Paused::Sync { oids } => {
            let mut state = state;
            state.parts.stand = proj;
            syncs_again(state, alloc, job, oids)
        }
        Paused::Walk { walk, rest } => {
            let mut state = state;
            state.parts.stand = proj;
            walks_again(state, alloc, job, walk, rest)
        }
        Paused::Append { append, purpose } => {
            let mut state = state;
            state.parts.stand = proj;
            appends_again(state, alloc, job, append, purpose)
        }
        Paused::Trim { below } => {
            let mut state = state;
            state.parts.stand = proj;
            trims_again(state, alloc, job, below)
        }
        Paused::Copy { spare } => {
            let mut state = state;
            state.parts.stand = proj;
            copies_again(state, alloc, job, spare)
        }
        Paused::Reconf { reconf } => {
            let reconf = Box::into_inner(reconf);
            changes_again(state, alloc, job, reconf, server, rid, proj)
        }
    }
}
