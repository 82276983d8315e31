//! An append that goes on or has ended.

ghost use Rattle.std.specs.Prelude.{◌≡◌, ◌<◌, ◌^◌, ℕ, [], ◌∷◌, IfOk};
ghost use Rattle.tg_kind.specs.Of.{meaning_of};
ghost use Rattle.tg_model.specs.declared.trace.What.TheVariants as what;
ghost use Rattle.tg_protocol.specs.Answers.{note};
ghost use Rattle.tg_protocol.specs.Appending.{AppendTurn, At, Full, Forgotten};
ghost use Rattle.tg_protocol.specs.Clients as told;
ghost use Rattle.tg_protocol.specs.ClientSteps as steps;
ghost use Rattle.tg_append.specs.Appends.{append_end};
ghost use Rattle.tg_client_state.specs.Tasks.{told_purpose};
ghost use Rattle.tg_client_state.specs.States.{Rest, client_of, KeepsViewIf, KeepsMoved};
ghost use Rattle.tg_client_state.specs.Moves.{Holds};
ghost use Rattle.tg_client_tasks.specs.Shown.{AppendShown};

use crate::records::{knows_page, owns, tx_number};
use std::alloc::Global;
use tg_append::{AppendEnd, AppendStep};
use tg_base::{Blob, List, NoMemory, Oid, Pos, Rids};
use tg_chain::Next;
use tg_client_state::{Job, Moved, Paused, Purpose, State, Task, goes_on, learns, meets, one_note};
use tg_kind::Registry;
use tg_model::{Command, CommandOf, Note, NoteOf, Refusal, What, WhatOf};

/// The record of a transaction without reads stands.
fn committed<K: Registry>(
    state: State<K>,
    alloc: Global,
    pos: Pos,
    page: Blob,
) -> Result<Moved<K>, NoMemory>
    ensures { (r : Rest (meaning_of K.Registry)) (w : told.Work (meaning_of K.Registry)) (old : ℕ) → KeepsViewIf (meaning_of K.Registry) state.view r.view → IfOk result (λ x. KeepsMoved (meaning_of K.Registry) old x (steps.append_ended (meaning_of K.Registry) (client_of (meaning_of K.Registry) state r) w told.Writes (At pos page))) }
{
    let notes = one_note::<K>(alloc, tx_number(&state), What::Committed { at: pos })?;
    let state = owns(state, alloc, pos, page)?;
    state.closed().replies(alloc, notes)
}

/// The hosted objects.
fn hosted_by<K: Registry>(state: &State<K>, alloc: Global) -> Result<List<Oid>, NoMemory>
    ensures { IfOk result (λ l. l ≡ state.now.hosted) }
{
    let mut oids = List::new(alloc);
    oids.extend(state.parts.hosted.as_slice())?;
    Ok(oids)
}

/// The record of a transaction with reads stands, and is decided after a sync.
fn judges<K: Registry>(
    state: State<K>,
    alloc: Global,
    job: Job<K>,
    pos: Pos,
    page: Blob,
) -> Result<Moved<K>, NoMemory>
    requires { state.rids.next < 2 ^ 62 }
    ensures { (r : Rest (meaning_of K.Registry)) (w : told.Work (meaning_of K.Registry)) (old : ℕ) → Holds (meaning_of K.Registry) state job r w old → IfOk result (λ x. KeepsMoved (meaning_of K.Registry) old x (steps.append_ended (meaning_of K.Registry) (client_of (meaning_of K.Registry) state r) w told.Judged (At pos page))) }
{
    let oids = hosted_by(&state, alloc)?;
    let state = owns(state, alloc, pos, page)?;
    let mut job = job;
    job.parts.at = pos;
    state.syncs(alloc, job, oids)
}

/// The answer that waited for a decision record is given.
fn decided<K: Registry>(
    state: State<K>,
    alloc: Global,
    command: &CommandOf<K>,
    answer: WhatOf<K>,
) -> Result<Moved<K>, NoMemory>
    ensures { (r : Rest (meaning_of K.Registry)) (old : ℕ) → KeepsViewIf (meaning_of K.Registry) state.view r.view → IfOk result (λ x. KeepsMoved (meaning_of K.Registry) old x (steps.decided_for (meaning_of K.Registry) (client_of (meaning_of K.Registry) state r) command.now answer)) }
{
    match command {
        Command::End => {
            let tx = tx_number(&state);
            state.closed().answers(alloc, tx, answer)
        }
        _ => state.answers(alloc, 0, answer),
    }
}

/// What is told of a record that marks an object.
fn mark_notes<K: Registry>(
    alloc: Global,
    number: u32,
    oid: Oid,
    mark: Pos,
    pos: Pos,
) -> Result<List<NoteOf<K>>, NoMemory>
    ensures { IfOk result (λ notes. notes ≡ note (meaning_of K.Registry) number (what.Committed pos) ∷ note (meaning_of K.Registry) 0 (what.Marked oid mark) ∷ []) }
{
    let mut notes = one_note::<K>(alloc, number, What::Committed { at: pos })?;
    notes.push(Note {
        tx: 0,
        what: What::Marked { oid, mark },
    })?;
    Ok(notes)
}

/// The record that marks an object stands.
fn marked<K: Registry>(
    state: State<K>,
    alloc: Global,
    number: u32,
    oid: Oid,
    mark: Pos,
    pos: Pos,
    page: Blob,
) -> Result<Moved<K>, NoMemory>
    ensures { (r : Rest (meaning_of K.Registry)) (w : told.Work (meaning_of K.Registry)) (old : ℕ) → KeepsViewIf (meaning_of K.Registry) state.view r.view → IfOk result (λ x. KeepsMoved (meaning_of K.Registry) old x (steps.append_ended (meaning_of K.Registry) (client_of (meaning_of K.Registry) state r) w (told.Marks number oid mark) (At pos page))) }
{
    let notes = mark_notes::<K>(alloc, number, oid, mark, pos)?;
    let state = owns(state, alloc, pos, page)?;
    state.takes_over()?.replies(alloc, notes)
}

/// A decision record of a rescue stands.
fn rescued<K: Registry>(
    state: State<K>,
    alloc: Global,
    answer: WhatOf<K>,
    pos: Pos,
    page: Blob,
) -> Result<Moved<K>, NoMemory>
    ensures { (r : Rest (meaning_of K.Registry)) (w : told.Work (meaning_of K.Registry)) (old : ℕ) → KeepsViewIf (meaning_of K.Registry) state.view r.view → IfOk result (λ x. KeepsMoved (meaning_of K.Registry) old x (steps.append_ended (meaning_of K.Registry) (client_of (meaning_of K.Registry) state r) w (told.Rescues answer) (At pos page))) }
{
    let notes = one_note::<K>(alloc, 0, answer)?;
    let state = knows_page(state, alloc, pos, page)?;
    state.replies(alloc, notes)
}

/// A checkpoint stands.
fn saved<K: Registry>(
    state: State<K>,
    alloc: Global,
    oid: Oid,
    upto: Pos,
    pos: Pos,
    page: Blob,
) -> Result<Moved<K>, NoMemory>
    ensures { (r : Rest (meaning_of K.Registry)) (w : told.Work (meaning_of K.Registry)) (old : ℕ) → KeepsViewIf (meaning_of K.Registry) state.view r.view → IfOk result (λ x. KeepsMoved (meaning_of K.Registry) old x (steps.append_ended (meaning_of K.Registry) (client_of (meaning_of K.Registry) state r) w (told.Saves oid upto) (At pos page))) }
{
    let state = knows_page(state, alloc, pos, page)?;
    let what = What::Saved { oid, at: pos, upto };
    state.answers(alloc, 0, what)
}

/// The entry stands at a position.
fn stands_at<K: Registry>(
    state: State<K>,
    alloc: Global,
    job: Job<K>,
    purpose: Purpose<K>,
    pos: Pos,
    page: Blob,
) -> Result<Moved<K>, NoMemory>
    requires { state.rids.next < 2 ^ 62 }
    ensures { (r : Rest (meaning_of K.Registry)) (w : told.Work (meaning_of K.Registry)) (old : ℕ) → Holds (meaning_of K.Registry) state job r w old → IfOk result (λ x. KeepsMoved (meaning_of K.Registry) old x (steps.append_ended (meaning_of K.Registry) (client_of (meaning_of K.Registry) state r) w (told_purpose (meaning_of K.Registry) purpose) (At pos page))) }
{
    match purpose {
        Purpose::Writes => committed(state, alloc, pos, page),
        Purpose::Judged => judges(state, alloc, job, pos, page),
        Purpose::Decides { answer } => {
            let state = knows_page(state, alloc, pos, page)?;
            decided(state, alloc, &job.parts.command, answer)
        }
        Purpose::Rescues { answer } => rescued(state, alloc, answer, pos, page),
        Purpose::Saves { oid, upto } => saved(state, alloc, oid, upto, pos, page),
        Purpose::Marks { number, oid, mark } => {
            marked(state, alloc, number, oid, mark, pos, page)
        }
    }
}

/// The log is full: the transaction stays open.
fn full<K: Registry>(
    state: State<K>,
    alloc: Global,
    job: Job<K>,
    purpose: Purpose<K>,
    limit: u64,
) -> Result<Moved<K>, NoMemory>
    ensures { (r : Rest (meaning_of K.Registry)) (w : told.Work (meaning_of K.Registry)) (old : ℕ) → Holds (meaning_of K.Registry) state job r w old → IfOk result (λ x. KeepsMoved (meaning_of K.Registry) old x (steps.append_ended (meaning_of K.Registry) (client_of (meaning_of K.Registry) state r) w (told_purpose (meaning_of K.Registry) purpose) (Full limit))) }
{
    let why = Refusal::LogFull { limit };
    let tx = tx_number(&state);
    match purpose {
        Purpose::Writes => state.refuses(alloc, tx, why),
        Purpose::Judged => state.refuses(alloc, tx, why),
        Purpose::Decides { answer } => decided(state, alloc, &job.parts.command, answer),
        Purpose::Rescues { .. } => state.refuses(alloc, 0, why),
        Purpose::Saves { .. } => state.refuses(alloc, 0, why),
        Purpose::Marks { number, .. } => state.refuses(alloc, number, why),
    }
}

/// A unit has trimmed the position: the transaction is closed.
fn forgotten<K: Registry>(
    state: State<K>,
    alloc: Global,
    job: Job<K>,
    purpose: Purpose<K>,
    at: Pos,
    below: Pos,
) -> Result<Moved<K>, NoMemory>
    ensures { (r : Rest (meaning_of K.Registry)) (w : told.Work (meaning_of K.Registry)) (old : ℕ) → Holds (meaning_of K.Registry) state job r w old → IfOk result (λ x. KeepsMoved (meaning_of K.Registry) old x (steps.append_ended (meaning_of K.Registry) (client_of (meaning_of K.Registry) state r) w (told_purpose (meaning_of K.Registry) purpose) (Forgotten at below))) }
{
    let why = Refusal::Forgotten { at, below };
    let tx = tx_number(&state);
    match purpose {
        Purpose::Writes => state.closed().refuses(alloc, tx, why),
        Purpose::Judged => state.closed().refuses(alloc, tx, why),
        Purpose::Decides { answer } => decided(state, alloc, &job.parts.command, answer),
        Purpose::Rescues { .. } => state.refuses(alloc, 0, why),
        Purpose::Saves { .. } => state.refuses(alloc, 0, why),
        Purpose::Marks { number, .. } => state.refuses(alloc, number, why),
    }
}

/// The append has ended.
fn append_ended<K: Registry>(
    state: State<K>,
    alloc: Global,
    job: Job<K>,
    purpose: Purpose<K>,
    end: AppendEnd,
) -> Result<Moved<K>, NoMemory>
    requires { state.rids.next < 2 ^ 62 }
    ensures { (r : Rest (meaning_of K.Registry)) (w : told.Work (meaning_of K.Registry)) (old : ℕ) → Holds (meaning_of K.Registry) state job r w old → IfOk result (λ x. KeepsMoved (meaning_of K.Registry) old x (steps.append_ended (meaning_of K.Registry) (client_of (meaning_of K.Registry) state r) w (told_purpose (meaning_of K.Registry) purpose) (append_end end))) }
{
    match end {
        AppendEnd::At { pos, page } => stands_at(state, alloc, job, purpose, pos, page),
        AppendEnd::Full { limit } => full(state, alloc, job, purpose, limit),
        AppendEnd::Forgotten { at, below } => forgotten(state, alloc, job, purpose, at, below),
    }
}

/// What an append's turn makes of a client: the append goes on, a newer layout is learnt first, or it has ended. An
/// `Err` is want of memory.
pub fn on_append<K: Registry>(
    state: State<K>,
    alloc: Global,
    job: Job<K>,
    purpose: Purpose<K>,
    rids: Rids,
    step: AppendStep,
) -> Result<Moved<K>, NoMemory>
    requires { rids.next < 2 ^ 62 }
    ensures { (r : Rest (meaning_of K.Registry)) (w : told.Work (meaning_of K.Registry)) (old : ℕ) (t : AppendTurn) → Holds (meaning_of K.Registry) state job r w old → AppendShown old state.stand state.rids.next rids.next step t → IfOk result (λ x. KeepsMoved (meaning_of K.Registry) old x (steps.on_append (meaning_of K.Registry) (client_of (meaning_of K.Registry) state r) w (told_purpose (meaning_of K.Registry) purpose) t)) }
{
    let AppendStep { next, gone, outs } = step;
    let mut state = state;
    state.parts.rids = rids;
    let job = meets(job, gone);
    match next {
        Next::Goes { machine } => {
            let task = Task::Append {
                append: machine,
                purpose,
            };
            goes_on(state, alloc, job, task, outs)
        }
        Next::Learns { paused } => {
            let paused = Paused::Append {
                append: paused,
                purpose,
            };
            learns(state, alloc, job, paused)
        }
        Next::Ends { end } => append_ended(state, alloc, job, purpose, end),
    }
}
