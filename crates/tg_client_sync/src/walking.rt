//! Streams are walked one after the other.

ghost use Rattle.std.specs.Prelude.{◌≡◌, ◌<◌, ◌^◌, ℕ, Some, IfOk};
ghost use Rattle.tg_kind.specs.Of.{meaning_of};
ghost use Rattle.tg_protocol.specs.Answers as synced_by;
ghost use Rattle.tg_protocol.specs.Clients as told;
ghost use Rattle.tg_protocol.specs.ClientSteps as steps;
ghost use Rattle.tg_protocol.specs.Walking.{WalkTurn, Members as ToldMembers, walk_start};
ghost use Rattle.tg_protocol.specs.Entries.{backs_of, link_of};
ghost use Rattle.tg_stream.specs.Turns.{shown, by_walk};
ghost use Rattle.tg_client_sync.specs.Finding.{found_in};
ghost use Rattle.tg_stream.specs.Walks.{members_of};
ghost use Rattle.tg_client_cells.specs.Known.{IsSettled, returned};
ghost use Rattle.tg_client_cells.specs.Walks.{InOrder};
ghost use Rattle.tg_client_state.specs.States.{Rest, client_of, KeepsMoved};
ghost use Rattle.tg_client_state.specs.Moves.{Holds};
ghost use Rattle.tg_client_sync.specs.Walks.{WalkShown, IsStepFit};
ghost use Rattle.tg_client_state.specs.Counts.{HasNumbersLeft};

use crate::copies::copied;
use crate::finding::{finds, first_of, lend, take_back};
use crate::lasts::lasts_of;
use crate::trims::{gives_view_up, is_stale};
use std::alloc::Global;
use tg_base::{List, NoMemory, Oid, Pos, Rids};
use tg_chain::Next;
use tg_client_answers::walked;
use tg_client_cells::StreamPositions;
use tg_client_state::{Job, Moved, Paused, State, Task, goes_on, learns, meets};
use tg_kind::Registry;
use tg_stream::{Cells, Members, Walk, WalkStep};

/// A walk of a stream begins over the known cells, with the next request number.
fn begins_walk<K: Registry>(
    state: &State<K>,
    alloc: Global,
    job: &Job<K>,
    oid: Oid,
    cells: Cells,
) -> Result<(WalkStep, Rids), NoMemory>
    requires { state.now.rids.next < 2 ^ 62 }
    ensures { IfOk result (λ b. shown b.0 b.1.next ≡ by_walk state.now.rids.next (walk_start state.now.stand oid (backs_of (link_of oid job.now.lasts)) job.now.lo cells state.now.rids.next)) }
{
    let mut rids = state.parts.rids;
    let lasts = lasts_of(job.parts.lasts.as_slice(), oid);
    let step = Walk::start(
        alloc,
        &state.parts.stand,
        oid,
        lasts,
        job.parts.lo,
        cells,
        &mut rids,
    )?;
    Ok((step, rids))
}

/// The cells come back from a walk, and the command has what it found.
fn found<K: Registry>(
    state: State<K>,
    alloc: Global,
    job: Job<K>,
    oid: Oid,
    list: &[Pos],
    gone: Option<Pos>,
    cells: Cells,
) -> Result<(State<K>, Job<K>), NoMemory>
    requires { IsSettled state.known.own state.known.settled cells }
    ensures state { IfOk result (λ f. f.0 ≡ record state { known = returned state.known cells }) }
    ensures job { IfOk result (λ f. f.1 ≡ found_in (meaning_of K.Registry) job oid list.now gone) }
{
    let job = finds(job, alloc, oid, list, gone)?;
    Ok((take_back(state, cells), job))
}

/// The streams are walked one after the other, each as far as known cells lead. Where all are walked the command goes
/// on. An `Err` is want of memory.
pub fn walks<K: Registry>(
    state: State<K>,
    alloc: Global,
    job: Job<K>,
    oids: List<Oid>,
) -> Result<Moved<K>, NoMemory>
    requires { HasNumbersLeft (meaning_of K.Registry) state }
    ensures { (r : Rest (meaning_of K.Registry)) (w : told.Work (meaning_of K.Registry)) (old : ℕ) → Holds (meaning_of K.Registry) state job r w old → IfOk result (λ x. KeepsMoved (meaning_of K.Registry) old x (steps.walks (meaning_of K.Registry) oids (client_of (meaning_of K.Registry) state r) w)) }
{
    let Some((oid, rest)) = first_of(oids) else {
        return walked(state, alloc, job);
    };
    let (state, cells) = lend(state, alloc, job.parts.lo);
    let (step, rids) = begins_walk(&state, alloc, &job, oid, cells)?;
    let WalkStep { next, outs, .. } = step;
    match next {
        Next::Goes { machine } => {
            let task = Task::Walk {
                walk: machine,
                rest,
            };
            let mut state = state;
            state.parts.rids = rids;
            goes_on(state, alloc, job, task, outs)
        }
        Next::Learns { .. } => unreachable!(),
        Next::Ends { end } => {
            let Members { list, gone, cells } = end;
            let (state, job) = found(state, alloc, job, oid, list.as_slice(), gone, cells)?;
            walks(state, alloc, job, rest)
        }
    }
}

/// The walks start over from the first stream, down to 0; or else the other streams are walked.
fn starts_over<K: Registry>(
    state: State<K>,
    alloc: Global,
    job: Job<K>,
    rest: List<Oid>,
    is_over: bool,
) -> Result<Moved<K>, NoMemory>
    requires { HasNumbersLeft (meaning_of K.Registry) state }
    ensures { (r : Rest (meaning_of K.Registry)) (w : told.Work (meaning_of K.Registry)) (old : ℕ) → Holds (meaning_of K.Registry) state job r w old → IfOk result (λ x. KeepsMoved (meaning_of K.Registry) old x (steps.starts_over (meaning_of K.Registry) (client_of (meaning_of K.Registry) state r) w rest is_over)) }
{
    if !is_over {
        return walks(state, alloc, job, rest);
    }
    let oids = copied(alloc, &job.parts.oids)?;
    let mut job = job;
    job.parts.lo = 0;
    job.parts.found = StreamPositions::new(alloc);
    job.parts.trims = List::new(alloc);
    walks(state, alloc, job, oids)
}

/// The tail is stale: all begins with a sync again.
fn syncs_again<K: Registry>(
    state: State<K>,
    alloc: Global,
    job: Job<K>,
) -> Result<Moved<K>, NoMemory>
    requires { state.rids.next < 2 ^ 62 }
    ensures { (r : Rest (meaning_of K.Registry)) (w : told.Work (meaning_of K.Registry)) (old : ℕ) → Holds (meaning_of K.Registry) state job r w old → IfOk result (λ y. KeepsMoved (meaning_of K.Registry) old y (synced_by.syncs (meaning_of K.Registry) (client_of (meaning_of K.Registry) state r) w w.oids)) }
{
    let oids = copied(alloc, &job.parts.oids)?;
    state.syncs(alloc, job, oids)
}

/// The kept view was looked at: with a stale tail all begins with a sync again, else the walks start over or go on.
fn goes_on_from<K: Registry>(
    state: State<K>,
    alloc: Global,
    job: Job<K>,
    rest: List<Oid>,
    is_old: bool,
    is_over: bool,
) -> Result<Moved<K>, NoMemory>
    requires { HasNumbersLeft (meaning_of K.Registry) state }
    ensures { (r : Rest (meaning_of K.Registry)) (w : told.Work (meaning_of K.Registry)) (old : ℕ) → Holds (meaning_of K.Registry) state job r w old → IfOk result (λ x. KeepsMoved (meaning_of K.Registry) old x (steps.at_trim (meaning_of K.Registry) (client_of (meaning_of K.Registry) state r) w rest is_old is_over)) }
{
    if is_old {
        return syncs_again(state, alloc, job);
    }
    starts_over(state, alloc, job, rest, is_over)
}

/// A walk has met a trim, and these are its members: a kept view that ends below the trim is given up.
fn at_trim<K: Registry>(
    state: State<K>,
    alloc: Global,
    job: Job<K>,
    oid: Oid,
    list: List<Pos>,
    below: Pos,
    rest: List<Oid>,
) -> Result<Moved<K>, NoMemory>
    requires order { InOrder list }
    requires numbers { HasNumbersLeft (meaning_of K.Registry) state }
    ensures { (r : Rest (meaning_of K.Registry)) (w : told.Work (meaning_of K.Registry)) (old : ℕ) (x : ToldMembers) → x.list ≡ list → Holds (meaning_of K.Registry) state job r w old → IfOk result (λ y. KeepsMoved (meaning_of K.Registry) old y (steps.walk_ended_by (meaning_of K.Registry) (client_of (meaning_of K.Registry) state r) w oid rest x (Some below))) }
{
    let list = list.as_slice();
    let is_old = is_stale::<K>(
        &state.parts.known,
        alloc,
        job.parts.gone_before,
        oid,
        list,
        below,
    )?;
    if !gives_view_up(&state, &job.parts.command, below) {
        return goes_on_from(state, alloc, job, rest, is_old, false);
    }
    let is_over = job.parts.lo != 0;
    let mut state = state;
    state.parts.view = None;
    goes_on_from(state, alloc, job, rest, is_old, is_over)
}

/// The walk of a stream has ended.
fn walk_ended<K: Registry>(
    state: State<K>,
    alloc: Global,
    job: Job<K>,
    oid: Oid,
    rest: List<Oid>,
    end: Members,
) -> Result<Moved<K>, NoMemory>
    requires settled { IsSettled state.known.own state.known.settled end.cells }
    requires order { InOrder end.list }
    requires numbers { HasNumbersLeft (meaning_of K.Registry) state }
    ensures { (r : Rest (meaning_of K.Registry)) (w : told.Work (meaning_of K.Registry)) (old : ℕ) → Holds (meaning_of K.Registry) state job r w old → IfOk result (λ x. KeepsMoved (meaning_of K.Registry) old x (steps.walk_ended (meaning_of K.Registry) (client_of (meaning_of K.Registry) state r) w oid rest (members_of end))) }
{
    let Members { list, gone, cells } = end;
    let (state, job) = found(state, alloc, job, oid, list.as_slice(), gone, cells)?;
    match gone {
        None => walks(state, alloc, job, rest),
        Some(below) => at_trim(state, alloc, job, oid, list, below, rest),
    }
}

/// What a walk's turn makes of a client: the walk goes on, a newer layout is learnt first, or it has ended. An `Err` is
/// want of memory.
pub fn on_walk<K: Registry>(
    state: State<K>,
    alloc: Global,
    job: Job<K>,
    oid: Oid,
    rest: List<Oid>,
    rids: Rids,
    step: WalkStep,
) -> Result<Moved<K>, NoMemory>
    requires fit { IsStepFit state.known step.next }
    requires numbers { HasNumbersLeft (meaning_of K.Registry) (record state { rids = rids }) }
    ensures { (r : Rest (meaning_of K.Registry)) (w : told.Work (meaning_of K.Registry)) (old : ℕ) (t : WalkTurn) → Holds (meaning_of K.Registry) state job r w old → WalkShown old state.known state.rids.next rids.next step t → IfOk result (λ x. KeepsMoved (meaning_of K.Registry) old x (steps.on_walk (meaning_of K.Registry) (client_of (meaning_of K.Registry) state r) w oid rest t)) }
{
    let WalkStep { next, gone, outs } = step;
    let mut state = state;
    state.parts.rids = rids;
    let job = meets(job, gone);
    match next {
        Next::Goes { machine } => {
            let task = Task::Walk {
                walk: machine,
                rest,
            };
            goes_on(state, alloc, job, task, outs)
        }
        Next::Learns { paused } => {
            learns(state, alloc, job, Paused::Walk { walk: paused, rest })
        }
        Next::Ends { end } => walk_ended(state, alloc, job, oid, rest, end),
    }
}
