//! The rescue of a record.

ghost use Rattle.std.specs.Prelude.{◌≡◌, ◌<◌, ◌≤◌, ◌^◌, ◌++◌, ◌∷◌, [], ℕ, true, OnOk, IfOk};
ghost use Rattle.tg_kind.specs.Of.{meaning_of};
ghost use Rattle.tg_model.specs.declared.trace.What.TheVariants as marks;
ghost use Rattle.tg_protocol.specs.Answers as told;
ghost use Rattle.tg_protocol.specs.Clients as rules;
ghost use Rattle.tg_protocol.specs.Past as views;
ghost use Rattle.tg_protocol.specs.Views as plays;
ghost use Rattle.tg_base.specs.Orders.{with_oid};
ghost use Rattle.tg_rescue.specs.Answers.{told_turn};
ghost use Rattle.tg_entry.specs.Drafts.{all_below};
ghost use Rattle.tg_client_cells.specs.Words.{AreSpelled};
ghost use Rattle.tg_client_state.specs.Tasks.{KeepsJob};
ghost use Rattle.tg_client_state.specs.States.{Rest, client_of, KeepsViewIf, KeepsMoved};
ghost use Rattle.tg_client_state.specs.Counts.{HasNumbersLeft};

use crate::trims::trim_above;
use std::alloc::Global;
use tg_base::{List, Many, NoMemory, Oid, Pos};
use tg_client_state::{Job, Moved, Purpose, State, one_note};
use tg_entry::{Entries, Entry};
use tg_kind::Registry;
use tg_model::{Refusal, What};
use tg_rescue::{RescueTurn, rescue_turn};

/// The entries of the streams that are walked, below the tail, and the client's own records. An `Err` is want of memory.
fn entries<K: Registry>(state: &State<K>, alloc: Global, job: &Job<K>) -> Result<Entries, NoMemory>
    ensures entries { (r : Rest (meaning_of K.Registry)) (w : rules.Work (meaning_of K.Registry)) → KeepsJob (meaning_of K.Registry) job.now w → IfOk result (λ es. es ≡ rules.all_entries (meaning_of K.Registry) (client_of (meaning_of K.Registry) state.now r) w w.oids) }
    ensures spelled { IfOk result (λ es. AreSpelled es) }
    ensures below { IfOk result (λ es. all_below job.now.tail es ≡ true) }
{
    state.parts.known.entries(
        alloc,
        &job.parts.found,
        job.parts.oids.as_slice(),
        job.parts.tail,
    )
}

/// A turn of the rescue. An `Err` is want of memory.
fn turn<K: Registry>(
    state: &State<K>,
    alloc: Global,
    job: &Job<K>,
    at: Pos,
) -> Result<RescueTurn, NoMemory>
    ensures { (r : Rest (meaning_of K.Registry)) (w : rules.Work (meaning_of K.Registry)) → KeepsJob (meaning_of K.Registry) job.now w → IfOk result (λ t. told_turn (meaning_of K.Registry) t ≡ views.rescue_turn (meaning_of K.Registry) (rules.all_entries (meaning_of K.Registry) (client_of (meaning_of K.Registry) state.now r) w w.oids) w.trims w.oids state.now.objects at) }
{
    let entries = entries(state, alloc, job)?;
    rescue_turn::<K>(
        alloc,
        &entries,
        job.parts.tail,
        job.parts.trims.as_slice(),
        job.parts.oids.as_slice(),
        state.parts.objects.as_slice(),
        at,
    )
}

/// The reply. An `Err` is want of memory.
fn rescued<K: Registry>(
    state: State<K>,
    alloc: Global,
    at: Pos,
    yes: Option<bool>,
) -> Result<Moved<K>, NoMemory>
    ensures { (r : Rest (meaning_of K.Registry)) (old : ℕ) → KeepsViewIf (meaning_of K.Registry) state.view r.view → IfOk result (λ x. KeepsMoved (meaning_of K.Registry) old x (told.replies (meaning_of K.Registry) (client_of (meaning_of K.Registry) state r) (told.note (meaning_of K.Registry) 0 (marks.Rescued at yes) ∷ []))) }
{
    let notes = one_note::<K>(alloc, 0, What::Rescued { at, yes })?;
    state.replies(alloc, notes)
}

/// Puts a rising list with an object more behind others.
fn put_wider(oids: &[Oid], added: Oid, wider: &mut List<Oid>) -> Result<(), NoMemory>
    ensures { OnOk result (wider.new ≡ wider.old ++ with_oid added oids.now) }
{
    match oids {
        [] => wider.push(added),
        [first, others @ ..] => {
            if added.0 < first.0 {
                wider.push(added)?;
                return wider.extend(oids);
            }
            if added.0 == first.0 {
                return wider.extend(oids);
            }
            wider.push(*first)?;
            put_wider(others, added, wider)
        }
    }
}

/// A set with an object more. An `Err` is want of memory.
fn widened(alloc: Global, oids: &[Oid], added: Oid) -> Result<List<Oid>, NoMemory>
    ensures { IfOk result (λ os. os ≡ with_oid added oids.now) }
{
    let mut wider = List::new(alloc);
    put_wider(oids, added, &mut wider)?;
    Ok(wider)
}

/// The record at the position among the entries. An `Err` is want of memory.
fn record<K: Registry>(
    state: &State<K>,
    alloc: Global,
    job: &Job<K>,
    at: Pos,
) -> Result<Option<Entry>, NoMemory>
    ensures { (r : Rest (meaning_of K.Registry)) (w : rules.Work (meaning_of K.Registry)) → KeepsJob (meaning_of K.Registry) job.now w → IfOk result (λ e. e ≡ views.commit_at (rules.all_entries (meaning_of K.Registry) (client_of (meaning_of K.Registry) state.now r) w w.oids) at) }
{
    state.parts.known.commit_at(
        alloc,
        &job.parts.found,
        job.parts.oids.as_slice(),
        job.parts.tail,
        at,
    )
}

/// The decision record of a record is appended, where there is one. An `Err` is want of memory.
fn decides<K: Registry>(
    state: State<K>,
    alloc: Global,
    job: Job<K>,
    at: Pos,
    yes: bool,
    found: Option<Entry>,
) -> Result<Moved<K>, NoMemory>
    requires { HasNumbersLeft (meaning_of K.Registry) state }
    ensures { (es : plays.Entries) (r : Rest (meaning_of K.Registry)) (w : rules.Work (meaning_of K.Registry)) (old : ℕ) → old ≤ state.rids.next → KeepsViewIf (meaning_of K.Registry) state.view r.view → KeepsJob (meaning_of K.Registry) job w → IfOk result (λ x. KeepsMoved (meaning_of K.Registry) old x (told.rescue_decision (meaning_of K.Registry) (client_of (meaning_of K.Registry) state r) w es at yes found)) }
{
    match found {
        None => rescued(state, alloc, at, None),
        Some(entry) => {
            let answer = What::Rescued { at, yes: Some(yes) };
            let purpose = Purpose::Rescues { answer };
            state.decides(alloc, job, &entry, at, yes, purpose)
        }
    }
}

/// Likewise of the record at a position, where it stands among the entries.
fn decided<K: Registry>(
    state: State<K>,
    alloc: Global,
    job: Job<K>,
    at: Pos,
    yes: bool,
) -> Result<Moved<K>, NoMemory>
    requires { HasNumbersLeft (meaning_of K.Registry) state }
    ensures { (r : Rest (meaning_of K.Registry)) (w : rules.Work (meaning_of K.Registry)) (old : ℕ) → old ≤ state.rids.next → KeepsViewIf (meaning_of K.Registry) state.view r.view → KeepsJob (meaning_of K.Registry) job w → IfOk result (λ x. KeepsMoved (meaning_of K.Registry) old x (told.rescue_decision (meaning_of K.Registry) (client_of (meaning_of K.Registry) state r) w (rules.all_entries (meaning_of K.Registry) (client_of (meaning_of K.Registry) state r) w w.oids) at yes (views.commit_at (rules.all_entries (meaning_of K.Registry) (client_of (meaning_of K.Registry) state r) w w.oids) at))) }
{
    let found = record(&state, alloc, &job, at)?;
    decides(state, alloc, job, at, yes, found)
}

/// What is known of the record is told, after its decision record where it lacks one.
fn known<K: Registry>(
    state: State<K>,
    alloc: Global,
    job: Job<K>,
    at: Pos,
    yes: bool,
    needs: bool,
) -> Result<Moved<K>, NoMemory>
    requires { HasNumbersLeft (meaning_of K.Registry) state }
    ensures { (r : Rest (meaning_of K.Registry)) (w : rules.Work (meaning_of K.Registry)) (old : ℕ) → old ≤ state.rids.next → KeepsViewIf (meaning_of K.Registry) state.view r.view → KeepsJob (meaning_of K.Registry) job w → IfOk result (λ x. KeepsMoved (meaning_of K.Registry) old x (told.rescue_known (meaning_of K.Registry) (client_of (meaning_of K.Registry) state r) w (rules.all_entries (meaning_of K.Registry) (client_of (meaning_of K.Registry) state r) w w.oids) at yes needs)) }
{
    if needs {
        return decided(state, alloc, job, at, yes);
    }
    rescued(state, alloc, at, Some(yes))
}

/// No record is found at the position: none is there, unless a walk met a trim above it. An `Err` is want of memory.
fn absent<K: Registry>(
    state: State<K>,
    alloc: Global,
    above: Option<Pos>,
    at: Pos,
) -> Result<Moved<K>, NoMemory>
    ensures { (r : Rest (meaning_of K.Registry)) (old : ℕ) → KeepsViewIf (meaning_of K.Registry) state.view r.view → IfOk result (λ x. KeepsMoved (meaning_of K.Registry) old x (told.absent (meaning_of K.Registry) (client_of (meaning_of K.Registry) state r) at above)) }
{
    match above {
        None => rescued(state, alloc, at, None),
        Some(below) => state.refuses(alloc, 0, Refusal::Forgotten { at, below }),
    }
}

/// The streams of a wider set are walked. An `Err` is want of memory.
fn wider<K: Registry>(
    state: State<K>,
    alloc: Global,
    job: Job<K>,
    added: Oid,
) -> Result<Moved<K>, NoMemory>
    requires { state.rids.next < 2 ^ 62 }
    ensures { (r : Rest (meaning_of K.Registry)) (w : rules.Work (meaning_of K.Registry)) (old : ℕ) → old ≤ state.rids.next → KeepsViewIf (meaning_of K.Registry) state.view r.view → KeepsJob (meaning_of K.Registry) job w → IfOk result (λ x. KeepsMoved (meaning_of K.Registry) old x (told.syncs (meaning_of K.Registry) (client_of (meaning_of K.Registry) state r) w (with_oid added job.oids))) }
{
    let oids = widened(alloc, job.parts.oids.as_slice(), added)?;
    state.syncs(alloc, job, oids)
}

/// What a turn of the rescue comes to. An `Err` is want of memory.
fn after<K: Registry>(
    state: State<K>,
    alloc: Global,
    job: Job<K>,
    at: Pos,
    turn: RescueTurn,
) -> Result<Moved<K>, NoMemory>
    requires { HasNumbersLeft (meaning_of K.Registry) state }
    ensures { (r : Rest (meaning_of K.Registry)) (w : rules.Work (meaning_of K.Registry)) (old : ℕ) → old ≤ state.rids.next → KeepsViewIf (meaning_of K.Registry) state.view r.view → KeepsJob (meaning_of K.Registry) job w → IfOk result (λ x. KeepsMoved (meaning_of K.Registry) old x (told.rescue_by (meaning_of K.Registry) (client_of (meaning_of K.Registry) state r) w (rules.all_entries (meaning_of K.Registry) (client_of (meaning_of K.Registry) state r) w w.oids) at (told_turn (meaning_of K.Registry) turn))) }
{
    match turn {
        RescueTurn::Wider { added } => wider(state, alloc, job, added),
        RescueTurn::Wide => {
            let what = Many::Hosted;
            state.refuses(alloc, 0, Refusal::TooMany { what })
        }
        RescueTurn::Absent => {
            let above = trim_above::<K>(job.parts.trims.as_slice(), at);
            absent(state, alloc, above, at)
        }
        RescueTurn::Stuck { pos, missing } => {
            state.refuses(alloc, 0, Refusal::Undecided { pos, missing })
        }
        RescueTurn::Known { yes, needs } => known(state, alloc, job, at, yes, needs),
    }
}

/// What `rescue` comes to: the record at the position is told committed or not, after a decision record where it needs
/// one, or the set of objects grows. An `Err` is want of memory.
pub fn on_rescue<K: Registry>(
    state: State<K>,
    alloc: Global,
    job: Job<K>,
    at: Pos,
) -> Result<Moved<K>, NoMemory>
    requires { HasNumbersLeft (meaning_of K.Registry) state }
    ensures { (r : Rest (meaning_of K.Registry)) (w : rules.Work (meaning_of K.Registry)) (old : ℕ) → old ≤ state.rids.next → KeepsViewIf (meaning_of K.Registry) state.view r.view → KeepsJob (meaning_of K.Registry) job w → IfOk result (λ x. KeepsMoved (meaning_of K.Registry) old x (told.on_rescue (meaning_of K.Registry) (client_of (meaning_of K.Registry) state r) w (rules.all_entries (meaning_of K.Registry) (client_of (meaning_of K.Registry) state r) w w.oids) at)) }
{
    let turn = turn(&state, alloc, &job, at)?;
    after(state, alloc, job, at, turn)
}
