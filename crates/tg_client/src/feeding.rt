//! A machine in hand is fed.

ghost use Rattle.std.specs.Prelude.{◌≡◌, ◌<◌, ◌^◌, true, IfOk};
ghost use Rattle.tg_kind.specs.Of.{meaning_of};
ghost use Rattle.tg_protocol.specs.Appending.{append_asks};
ghost use Rattle.tg_protocol.specs.Clients as told;
ghost use Rattle.tg_protocol.specs.ClientSteps as steps;
ghost use Rattle.tg_protocol.specs.Replies.{reply};
ghost use Rattle.tg_protocol.specs.Requests.{awaits};
ghost use Rattle.tg_protocol.specs.Syncing.{sync_asks};
ghost use Rattle.tg_protocol.specs.Trimming.{trim_asks, copy_asks};
ghost use Rattle.tg_protocol.specs.Walking.{walk_asks};
ghost use Rattle.tg_append.specs.Appends.{append_fed};
ghost use Rattle.tg_append.specs.SyncLaws.{answer_in};
ghost use Rattle.tg_append.specs.Syncs.{sync_fed};
ghost use Rattle.tg_copy.specs.Copies.{copy_fed};
ghost use Rattle.tg_copy.specs.Stripes.{HasStripe};
ghost use Rattle.tg_copy.specs.Turns.{spare_of};
ghost use Rattle.tg_client_state.specs.Near.{NearAnswer, NearToken};
ghost use Rattle.tg_reconf.specs.Turns.{all_drawn, AreDrawn, fed};
ghost use Rattle.tg_stream.specs.Walks.{walk_fed};
ghost use Rattle.tg_trim.specs.Turns.{trim_fed};
ghost use Rattle.tg_client_state.specs.Tasks.{told_purpose, told_task};
ghost use Rattle.tg_client_state.specs.States.{Rest, WalksOn, client_of, KeepsMoved};
ghost use Rattle.tg_client_state.specs.Moves.{Holds};
ghost use Rattle.tg_client.specs.Feeding.{InHand, IsTaskKept};
ghost use Rattle.tg_client_state.specs.Counts.{HasNumbers};

use std::alloc::Global;
use tg_append::{Append, Sync};
use tg_base::{List, Msg, NoMemory, NodeId, Oid};
use tg_client_state::{Job, Moved, Purpose, State, Task};
use tg_client_sync::{on_sync, on_walk};
use tg_client_tasks::{on_append, on_copy, on_reconf, on_trims};
use tg_copy::CopyRange;
use tg_kind::Registry;
use tg_reconf::Reconf;
use tg_stream::Walk;
use tg_trim::Trims;

/// A sync is fed.
fn feeds_sync<K: Registry>(
    state: State<K>,
    alloc: Global,
    job: Job<K>,
    sync: Sync,
    from: NodeId,
    rid: u64,
    msg: &Msg,
) -> Result<Moved<K>, NoMemory>
    requires { HasNumbers (meaning_of K.Registry) state }
    ensures { (r : Rest (meaning_of K.Registry)) (w : told.Work (meaning_of K.Registry)) → Holds (meaning_of K.Registry) state job r w state.rids.next → all_drawn state.rids.next (sync_asks state.stand sync) ≡ true → NearAnswer (answer_in sync.work) → IfOk result (λ x. KeepsMoved (meaning_of K.Registry) state.rids.next x (steps.on_sync (meaning_of K.Registry) (client_of (meaning_of K.Registry) state r) w (sync_fed state.stand sync from rid msg.now state.rids.next))) }
{
    let mut rids = state.parts.rids;
    let step = sync.feed(alloc, &state.parts.stand, from, rid, msg, &mut rids)?;
    on_sync(state, alloc, job, rids, step)
}

/// A walk is fed.
fn feeds_walk<K: Registry>(
    state: State<K>,
    alloc: Global,
    job: Job<K>,
    walk: Walk,
    rest: List<Oid>,
    from: NodeId,
    rid: u64,
    msg: &Msg,
) -> Result<Moved<K>, NoMemory>
    requires walks { WalksOn (meaning_of K.Registry) state.known walk }
    requires numbers { HasNumbers (meaning_of K.Registry) state }
    ensures { (r : Rest (meaning_of K.Registry)) (w : told.Work (meaning_of K.Registry)) → Holds (meaning_of K.Registry) state job r w state.rids.next → all_drawn state.rids.next (walk_asks walk) ≡ true → IfOk result (λ x. KeepsMoved (meaning_of K.Registry) state.rids.next x (steps.on_walk (meaning_of K.Registry) (client_of (meaning_of K.Registry) state r) w walk.oid rest (walk_fed state.stand walk from rid msg.now state.rids.next))) }
{
    let mut rids = state.parts.rids;
    let oid = walk.oid();
    let step = walk.feed(alloc, &state.parts.stand, from, rid, msg, &mut rids)?;
    on_walk(state, alloc, job, oid, rest, rids, step)
}

/// An append is fed.
fn feeds_append<K: Registry>(
    state: State<K>,
    alloc: Global,
    job: Job<K>,
    append: Append,
    purpose: Purpose<K>,
    from: NodeId,
    rid: u64,
    msg: &Msg,
) -> Result<Moved<K>, NoMemory>
    requires { state.rids.next < 2 ^ 61 }
    ensures { (r : Rest (meaning_of K.Registry)) (w : told.Work (meaning_of K.Registry)) → Holds (meaning_of K.Registry) state job r w state.rids.next → all_drawn state.rids.next (append_asks state.stand append) ≡ true → NearToken append.token → IfOk result (λ x. KeepsMoved (meaning_of K.Registry) state.rids.next x (steps.on_append (meaning_of K.Registry) (client_of (meaning_of K.Registry) state r) w (told_purpose (meaning_of K.Registry) purpose) (append_fed state.stand append from rid msg.now state.rids.next))) }
{
    let mut rids = state.parts.rids;
    let step = append.feed(alloc, &state.parts.stand, from, rid, msg, &mut rids)?;
    on_append(state, alloc, job, purpose, rids, step)
}

/// Trims are fed.
fn feeds_trims<K: Registry>(
    state: State<K>,
    alloc: Global,
    job: Job<K>,
    trims: Trims,
    from: NodeId,
    rid: u64,
    msg: &Msg,
) -> Result<Moved<K>, NoMemory>
    requires { state.rids.next < 2 ^ 61 }
    ensures { (r : Rest (meaning_of K.Registry)) (w : told.Work (meaning_of K.Registry)) → Holds (meaning_of K.Registry) state job r w state.rids.next → all_drawn state.rids.next (trim_asks state.stand trims) ≡ true → IfOk result (λ x. KeepsMoved (meaning_of K.Registry) state.rids.next x (steps.on_trims (meaning_of K.Registry) (client_of (meaning_of K.Registry) state r) w trims.below (trim_fed state.stand trims from rid msg.now state.rids.next))) }
{
    let rids = state.parts.rids;
    let below = trims.below();
    let step = trims.feed(alloc, &state.parts.stand, from, rid, msg)?;
    on_trims(state, alloc, job, below, rids, step)
}

/// A copy is fed.
fn feeds_copy<K: Registry>(
    state: State<K>,
    alloc: Global,
    job: Job<K>,
    copy: CopyRange,
    from: NodeId,
    rid: u64,
    msg: &Msg,
) -> Result<Moved<K>, NoMemory>
    requires there { HasStripe state.stand (spare_of copy) }
    requires numbers { state.rids.next < 2 ^ 61 }
    ensures { (r : Rest (meaning_of K.Registry)) (w : told.Work (meaning_of K.Registry)) → Holds (meaning_of K.Registry) state job r w state.rids.next → all_drawn state.rids.next (copy_asks state.stand copy) ≡ true → IfOk result (λ x. KeepsMoved (meaning_of K.Registry) state.rids.next x (steps.on_copy (meaning_of K.Registry) (client_of (meaning_of K.Registry) state r) w copy (copy_fed state.stand copy from rid msg.now state.rids.next))) }
{
    let mut rids = state.parts.rids;
    let spare = copy.spare();
    let step = copy.feed(alloc, &state.parts.stand, from, rid, msg, &mut rids)?;
    on_copy(state, alloc, job, spare, rids, step)
}

/// A change of the layout is fed.
fn feeds_reconf<K: Registry>(
    state: State<K>,
    alloc: Global,
    job: Job<K>,
    reconf: Reconf,
    from: NodeId,
    rid: u64,
    msg: &Msg,
) -> Result<Moved<K>, NoMemory>
    requires drawn { AreDrawn state.rids.next reconf }
    requires numbers { state.rids.next < 2 ^ 61 }
    ensures { (r : Rest (meaning_of K.Registry)) (w : told.Work (meaning_of K.Registry)) → Holds (meaning_of K.Registry) state job r w state.rids.next → IfOk result (λ x. KeepsMoved (meaning_of K.Registry) state.rids.next x (steps.on_reconf (meaning_of K.Registry) (client_of (meaning_of K.Registry) state r) w (fed reconf from rid msg.now state.rids.next))) }
{
    let mut rids = state.parts.rids;
    let step = reconf.feed(alloc, from, rid, msg, &mut rids)?;
    on_reconf(state, alloc, job, rids, step)
}

/// The machine in hand is fed. An `Err` is want of memory, or of numbers.
pub fn feeds<K: Registry>(
    state: State<K>,
    alloc: Global,
    job: Job<K>,
    task: Task<K>,
    from: NodeId,
    rid: u64,
    msg: &Msg,
) -> Result<Moved<K>, NoMemory>
    requires kept { IsTaskKept (meaning_of K.Registry) state (told_task (meaning_of K.Registry) task) }
    requires numbers { HasNumbers (meaning_of K.Registry) state }
    ensures { (r : Rest (meaning_of K.Registry)) (w : told.Work (meaning_of K.Registry)) → Holds (meaning_of K.Registry) state job r w state.rids.next → InHand (meaning_of K.Registry) r w (told_task (meaning_of K.Registry) task) → IfOk result (λ x. KeepsMoved (meaning_of K.Registry) state.rids.next x (steps.fed_if (meaning_of K.Registry) (awaits (steps.task_awaited (meaning_of K.Registry) state.stand (told_task (meaning_of K.Registry) task)) from rid) (client_of (meaning_of K.Registry) state r) w (told_task (meaning_of K.Registry) task) from rid (reply msg.now))) }
{
    match task {
        Task::Sync { sync } => feeds_sync(state, alloc, job, sync, from, rid, msg),
        Task::Walk { walk, rest } => feeds_walk(state, alloc, job, walk, rest, from, rid, msg),
        Task::Append { append, purpose } => {
            feeds_append(state, alloc, job, append, purpose, from, rid, msg)
        }
        Task::Trim { trims } => feeds_trims(state, alloc, job, trims, from, rid, msg),
        Task::Copy { copy } => feeds_copy(state, alloc, job, copy, from, rid, msg),
        Task::Reconf { reconf } => {
            let reconf = Box::into_inner(reconf);
            feeds_reconf(state, alloc, job, reconf, from, rid, msg)
        }
    }
}
