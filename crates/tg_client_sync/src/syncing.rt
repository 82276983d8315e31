//! A sync that goes on or has ended.

ghost use Rattle.std.specs.Prelude.{◌≡◌, ℕ, not, ◌&&◌, is_some, nat_lt, IfOk};
ghost use Rattle.tg_kind.specs.Of.{meaning_of};
ghost use Rattle.tg_protocol.specs.Clients as told;
ghost use Rattle.tg_model.specs.declared.command.Command.TheVariants.{Fate};
ghost use Rattle.tg_protocol.specs.ClientSteps as steps;
ghost use Rattle.tg_protocol.specs.Syncing.{SyncTurn};
ghost use Rattle.tg_protocol.specs.Views as views;
ghost use Rattle.tg_play.specs.Relations.{KeepsView};
ghost use Rattle.tg_append.specs.Syncs.{confirmed_of};
ghost use Rattle.tg_client_cells.specs.Known.{learnt};
ghost use Rattle.tg_client_state.specs.States.{Rest, client_of, KeepsViewIf, KeepsMoved};
ghost use Rattle.tg_client_state.specs.Moves.{Holds};
ghost use Rattle.tg_client_sync.specs.Syncs.{SyncShown, knowing};
ghost use Rattle.tg_client_state.specs.Counts.{HasNumbersLeft};

use crate::copies::copied;
use crate::walking::walks;
use std::alloc::Global;
use std::mem;
use tg_append::{Confirmed, SyncStep};
use tg_base::{Cell, NoMemory, Pos, Rids};
use tg_chain::Next;
use tg_client_cells::Known;
use tg_client_state::{Job, Moved, Paused, State, Task, goes_on, learns, meets};
use tg_kind::Registry;
use tg_model::{Command, CommandOf};
use tg_play::View;

/// The cell that a sync has settled becomes known.
fn knows(known: Known, settled: Option<(Pos, Cell)>) -> Result<Known, NoMemory>
    ensures { IfOk result (λ k. k ≡ knowing known settled) }
{
    match settled {
        None => Ok(known),
        Some((pos, cell)) => known.learn(pos, cell),
    }
}

/// Likewise of a client.
fn knows_settled<K: Registry>(
    state: State<K>,
    alloc: Global,
    settled: Option<(Pos, Cell)>,
) -> Result<State<K>, NoMemory>
    ensures { IfOk result (λ s. s ≡ record state { known = knowing state.known settled }) }
{
    let mut state = state;
    let taken = mem::replace(&mut state.parts.known, Known::new(alloc));
    let known = knows(taken, settled)?;
    state.parts.known = known;
    Ok(state)
}

/// Whether a view has played a record's position and tells no fate of it.
fn tells_no_fate<K: Registry>(view: &View<K>, pos: Pos) -> bool
    ensures { (v : views.View (meaning_of K.Registry)) → KeepsView (meaning_of K.Registry) view.now v → result ≡ (nat_lt pos v.upto && not (is_some (views.fate_of (meaning_of K.Registry) v pos))) }
{
    let is_told = view.fate(pos).is_some();
    pos < view.upto() && !is_told
}

/// Whether a view that is kept has no fate of a record below its end, or none is kept.
fn lacks_fate<K: Registry>(state: &State<K>, pos: Pos) -> bool
    ensures { (r : Rest (meaning_of K.Registry)) → KeepsViewIf (meaning_of K.Registry) state.now.view r.view → result ≡ steps.fate_missing (meaning_of K.Registry) r.view pos }
{
    match &state.parts.view {
        None => true,
        Some(view) => tells_no_fate(view, pos),
    }
}

/// From where on a command walks.
fn lo_for<K: Registry>(state: &State<K>, command: &CommandOf<K>) -> Pos
    ensures { (r : Rest (meaning_of K.Registry)) → KeepsViewIf (meaning_of K.Registry) state.now.view r.view → result ≡ steps.lo_for (meaning_of K.Registry) (client_of (meaning_of K.Registry) state.now r) command.now }
{
    match command {
        Command::Forget { .. } => 0,
        Command::Decide { .. } => 0,
        Command::AskAt { .. } => 0,
        Command::Rescue { .. } => 0,
        Command::Fate { at } => lo_for_fate(state, *at),
        _ => state.upto(),
    }
}

/// Likewise where the fate of a record is asked.
fn lo_for_fate<K: Registry>(state: &State<K>, at: Pos) -> Pos
    ensures { (r : Rest (meaning_of K.Registry)) → KeepsViewIf (meaning_of K.Registry) state.now.view r.view → result ≡ steps.lo_for (meaning_of K.Registry) (client_of (meaning_of K.Registry) state.now r) (Fate at) }
{
    if lacks_fate(state, at) {
        return 0;
    }
    state.upto()
}

/// The tail is confirmed, and the walks begin.
fn synced<K: Registry>(
    state: State<K>,
    alloc: Global,
    job: Job<K>,
    end: Confirmed,
) -> Result<Moved<K>, NoMemory>
    requires { HasNumbersLeft (meaning_of K.Registry) state }
    ensures { (r : Rest (meaning_of K.Registry)) (w : told.Work (meaning_of K.Registry)) (old : ℕ) → Holds (meaning_of K.Registry) state job r w old → IfOk result (λ x. KeepsMoved (meaning_of K.Registry) old x (steps.synced (meaning_of K.Registry) (client_of (meaning_of K.Registry) state r) w (confirmed_of end))) }
{
    let Confirmed {
        tail,
        lasts,
        settled,
    } = end;
    let oids = copied(alloc, &job.parts.oids)?;
    let lo = lo_for(&state, &job.parts.command);
    let state = knows_settled(state, alloc, settled)?;
    let mut job = job;
    job.parts.tail = tail;
    job.parts.lasts = lasts;
    job.parts.lo = lo;
    walks(state, alloc, job, oids)
}

/// What a sync's turn makes of a client: the sync goes on, a newer layout is learnt first, or the walks begin. An `Err`
/// is want of memory.
pub fn on_sync<K: Registry>(
    state: State<K>,
    alloc: Global,
    job: Job<K>,
    rids: Rids,
    step: SyncStep,
) -> Result<Moved<K>, NoMemory>
    requires { HasNumbersLeft (meaning_of K.Registry) (record state { rids = rids }) }
    ensures { (r : Rest (meaning_of K.Registry)) (w : told.Work (meaning_of K.Registry)) (old : ℕ) (t : SyncTurn) → Holds (meaning_of K.Registry) state job r w old → SyncShown old state.stand state.rids.next rids.next step t → IfOk result (λ x. KeepsMoved (meaning_of K.Registry) old x (steps.on_sync (meaning_of K.Registry) (client_of (meaning_of K.Registry) state r) w t)) }
{
    let SyncStep { next, gone, outs } = step;
    let mut state = state;
    state.parts.rids = rids;
    let job = meets(job, gone);
    match next {
        Next::Goes { machine } => goes_on(state, alloc, job, Task::Sync { sync: machine }, outs),
        Next::Learns { paused } => learns(state, alloc, job, Paused::Sync { oids: paused }),
        Next::Ends { end } => synced(state, alloc, job, end),
    }
}
