//! Asks at a past position.

ghost use Rattle.std.specs.Prelude.{◌≡◌, ℕ, Some, IfOk};
ghost use Rattle.tg_kind.specs.Of.{meaning_of};
ghost use Rattle.tg_protocol.specs.Answers as told;
ghost use Rattle.tg_protocol.specs.Clients as rules;
ghost use Rattle.tg_protocol.specs.Past as views;
ghost use Rattle.tg_protocol.specs.Views as plays;
ghost use Rattle.tg_play.specs.Relations.{KeepsView, PlayedOn};
ghost use Rattle.tg_past.specs.Answers.{KeepsTurn};
ghost use Rattle.tg_client_cells.specs.Words.{AreSpelled};
ghost use Rattle.tg_client_state.specs.Tasks.{KeepsJob};
ghost use Rattle.tg_client_state.specs.States.{Rest, client_of, KeepsViewIf, KeepsMoved};

use std::alloc::Global;
use tg_base::{NoMemory, Oid, Pos};
use tg_client_state::{Job, Moved, State, one_note};
use tg_entry::Entries;
use tg_kind::Registry;
use tg_model::{PlayEnd, Refusal, What};
use tg_past::{PastTurn, past_at};
use tg_play::View;

/// The entries of the streams that are walked, below the tail. An `Err` is want of memory.
fn entries<K: Registry>(state: &State<K>, alloc: Global, job: &Job<K>) -> Result<Entries, NoMemory>
    ensures entries { (r : Rest (meaning_of K.Registry)) (w : rules.Work (meaning_of K.Registry)) → KeepsJob (meaning_of K.Registry) job.now w → IfOk result (λ es. es ≡ rules.member_entries (meaning_of K.Registry) (client_of (meaning_of K.Registry) state.now r) w w.oids) }
    ensures spelled { IfOk result (λ es. AreSpelled es) }
{
    state.parts.known.member_entries(
        alloc,
        &job.parts.found,
        job.parts.oids.as_slice(),
        job.parts.tail,
    )
}

/// What becomes of the ask. An `Err` is want of memory.
fn turn<K: Registry>(
    state: &State<K>,
    alloc: Global,
    job: &Job<K>,
    at: Pos,
    oid: Oid,
) -> Result<PastTurn<K>, NoMemory>
    ensures { (r : Rest (meaning_of K.Registry)) (w : rules.Work (meaning_of K.Registry)) → KeepsJob (meaning_of K.Registry) job.now w → IfOk result (λ t. KeepsTurn (meaning_of K.Registry) t (views.past_at (meaning_of K.Registry) (rules.member_entries (meaning_of K.Registry) (client_of (meaning_of K.Registry) state.now r) w w.oids) w.trims w.oids state.now.objects oid at)) }
{
    let entries = entries(state, alloc, job)?;
    past_at(
        alloc,
        &entries,
        job.parts.trims.as_slice(),
        job.parts.oids.as_slice(),
        state.parts.objects.as_slice(),
        oid,
        at,
    )
}

/// The answer of an object in this state. An `Err` is want of memory.
fn tells<K: Registry>(
    state: State<K>,
    alloc: Global,
    kind: &K,
    at: Pos,
    oid: Oid,
    ask: K::Ask,
) -> Result<Moved<K>, NoMemory>
    ensures { (r : Rest (meaning_of K.Registry)) (old : ℕ) → KeepsViewIf (meaning_of K.Registry) state.view r.view → IfOk result (λ x. KeepsMoved (meaning_of K.Registry) old x (told.past_answer (meaning_of K.Registry) (client_of (meaning_of K.Registry) state r) at oid ask (Some kind.now))) }
{
    let ans = kind.ask(alloc, &ask)?;
    let notes = one_note::<K>(alloc, 0, What::Past { oid, ask, at, ans })?;
    state.replies(alloc, notes)
}

/// The answer of an object as a view has it. An `Err` is want of memory.
fn answered<K: Registry>(
    state: State<K>,
    alloc: Global,
    view: &View<K>,
    at: Pos,
    oid: Oid,
    ask: K::Ask,
) -> Result<Moved<K>, NoMemory>
    ensures { (r : Rest (meaning_of K.Registry)) (v : plays.View (meaning_of K.Registry)) (old : ℕ) → KeepsViewIf (meaning_of K.Registry) state.view r.view → KeepsView (meaning_of K.Registry) view.now v → IfOk result (λ x. KeepsMoved (meaning_of K.Registry) old x (told.past_answer (meaning_of K.Registry) (client_of (meaning_of K.Registry) state r) at oid ask (plays.state_of (meaning_of K.Registry) v oid))) }
{
    match view.state(oid) {
        None => state.refuses(alloc, 0, Refusal::NotHosted { oid }),
        Some(kind) => tells(state, alloc, kind, at, oid, ask),
    }
}

/// The answer of a view that has played up to the position. An `Err` is want of memory.
fn played<K: Registry>(
    state: State<K>,
    alloc: Global,
    view: &View<K>,
    came: PlayEnd,
    at: Pos,
    oid: Oid,
    ask: K::Ask,
) -> Result<Moved<K>, NoMemory>
    ensures { (r : Rest (meaning_of K.Registry)) (p : plays.Play (meaning_of K.Registry)) (old : ℕ) → KeepsViewIf (meaning_of K.Registry) state.view r.view → PlayedOn (meaning_of K.Registry) view.now came p → IfOk result (λ x. KeepsMoved (meaning_of K.Registry) old x (told.past_played (meaning_of K.Registry) (client_of (meaning_of K.Registry) state r) at oid ask p p.came)) }
{
    match came {
        PlayEnd::Played { .. } => answered(state, alloc, view, at, oid, ask),
        PlayEnd::Blocked { pos, missing } => {
            state.refuses(alloc, 0, Refusal::Undecided { pos, missing })
        }
    }
}

/// The reply to an ask at a position up to the tail. An `Err` is want of memory.
fn replied<K: Registry>(
    state: State<K>,
    alloc: Global,
    turn: PastTurn<K>,
    at: Pos,
    oid: Oid,
    ask: K::Ask,
) -> Result<Moved<K>, NoMemory>
    ensures { (r : Rest (meaning_of K.Registry)) (t : views.PastTurn (meaning_of K.Registry)) (old : ℕ) → KeepsViewIf (meaning_of K.Registry) state.view r.view → KeepsTurn (meaning_of K.Registry) turn t → IfOk result (λ x. KeepsMoved (meaning_of K.Registry) old x (told.past_turn (meaning_of K.Registry) (client_of (meaning_of K.Registry) state r) at oid ask t)) }
{
    match turn {
        PastTurn::Played { view, came } => played(state, alloc, &view, came, at, oid, ask),
        PastTurn::Gone { below } => state.refuses(alloc, 0, Refusal::Forgotten { at, below }),
    }
}

/// What `ask-at` comes to: the answer of the object as it stood at the position, by a view of its own. An `Err` is want
/// of memory.
pub fn on_ask_at<K: Registry>(
    state: State<K>,
    alloc: Global,
    job: Job<K>,
    at: Pos,
    oid: Oid,
    ask: K::Ask,
) -> Result<Moved<K>, NoMemory>
    ensures { (r : Rest (meaning_of K.Registry)) (w : rules.Work (meaning_of K.Registry)) (old : ℕ) → KeepsViewIf (meaning_of K.Registry) state.view r.view → KeepsJob (meaning_of K.Registry) job w → IfOk result (λ x. KeepsMoved (meaning_of K.Registry) old x (told.on_ask_at (meaning_of K.Registry) (client_of (meaning_of K.Registry) state r) w at oid ask)) }
{
    if job.parts.tail < at {
        return state.refuses(
            alloc,
            0,
            Refusal::Ahead {
                tail: job.parts.tail,
            },
        );
    }
    let turn = turn(&state, alloc, &job, at, oid)?;
    replied(state, alloc, turn, at, oid, ask)
}
