//! An object's state is saved in the log.

ghost use Rattle.std.specs.Prelude.{◌≡◌, ◌≤◌, ◌<◌, ◌+◌, ◌-◌, ◌^◌, min, ℕ, [], Some, Err, IfOk, IsSome};
ghost use Rattle.tg_base.specs.declared.ids.Oid.{Oid};
ghost use Rattle.tg_entry.specs.declared.entry.Entry.{Entry};
ghost use Rattle.tg_kind.specs.Of.{meaning_of};
ghost use Rattle.tg_model.specs.declared.refusal.Refusal.TheVariants as cause;
ghost use Rattle.tg_protocol.specs.Answers as told;
ghost use Rattle.tg_protocol.specs.Checkpoints as ckpts;
ghost use Rattle.tg_protocol.specs.Clients as rules;
ghost use Rattle.tg_protocol.specs.Views as views;
ghost use Rattle.tg_play.specs.Relations.{KeepsView};
ghost use Rattle.tg_ckpt.specs.Saving.{Saves};
ghost use Rattle.tg_client_state.specs.Tasks.{KeepsJob};
ghost use Rattle.tg_client_state.specs.States.{Rest, client_of, KeepsViewIf, KeepsMoved};
ghost use Rattle.tg_client_state.specs.Counts.{HasNumbersLeft};

use std::alloc::Global;
use tg_base::{List, NoMemory, Oid, Pos};
use tg_ckpt::{SaveFault, checkpoint};
use tg_client_state::{Job, Moved, Purpose, State, is_object};
use tg_entry::Draft;
use tg_kind::Registry;
use tg_model::{PlayEnd, Refusal};
use tg_play::View;

/// The checkpoint of an object as a view has it, by a client that made so many before. `NoMemory` is want of memory,
/// or an object that entries can't name.
fn saved_by<K: Registry>(
    alloc: Global,
    view: &View<K>,
    oid: Oid,
    upto: Pos,
    client: u16,
    made: u32,
) -> Result<Draft, SaveFault>
    requires { made + 1 < 2 ^ 32 }
    ensures saves { (v : views.View (meaning_of K.Registry)) → KeepsView (meaning_of K.Registry) view.now v → Saves result (ckpts.checkpoint (meaning_of K.Registry) v oid upto client (made + 1)) }
    ensures numbers { IfOk result (λ _. made + 1 < 2 ^ 32) }
{
    if !is_object(oid) {
        return Err(SaveFault::NoMemory);
    }
    checkpoint(alloc, view, oid, upto, client, made + 1)
}

/// Likewise as the kept view has it.
fn saved<K: Registry>(
    state: &State<K>,
    alloc: Global,
    oid: Oid,
    upto: Pos,
) -> Result<Draft, SaveFault>
    requires view { IsSome state.now.view }
    requires count { state.now.checkpoints + 1 < 2 ^ 32 }
    ensures saves { (v : views.View (meaning_of K.Registry)) → KeepsViewIf (meaning_of K.Registry) state.now.view (Some v) → Saves result (ckpts.checkpoint (meaning_of K.Registry) v oid upto state.now.num (state.now.checkpoints + 1)) }
    ensures numbers { IfOk result (λ _. state.now.checkpoints + 1 < 2 ^ 32) }
{
    match &state.parts.view {
        None => unreachable!(),
        Some(view) => saved_by(
            alloc,
            view,
            oid,
            upto,
            state.parts.num,
            state.parts.checkpoints,
        ),
    }
}

/// The checkpoint is appended. An `Err` is want of memory.
fn puts<K: Registry>(
    state: State<K>,
    alloc: Global,
    job: Job<K>,
    oid: Oid,
    draft: Draft,
) -> Result<Moved<K>, NoMemory>
    requires count { state.checkpoints + 1 < 2 ^ 32 }
    requires numbers { state.rids.next < 2 ^ 62 }
    ensures { (r : Rest (meaning_of K.Registry)) (w : rules.Work (meaning_of K.Registry)) (old : ℕ) → old ≤ state.rids.next → KeepsViewIf (meaning_of K.Registry) state.view r.view → KeepsJob (meaning_of K.Registry) job w → IfOk result (λ x. KeepsMoved (meaning_of K.Registry) old x (told.appends (meaning_of K.Registry) (record (client_of (meaning_of K.Registry) state r) { checkpoints = state.checkpoints + 1 }) w draft (rules.Saves oid job.tail) [])) }
{
    let checkpoints = state.parts.checkpoints + 1;
    let purpose = Purpose::Saves {
        oid,
        upto: job.parts.tail,
    };
    let mut state = state;
    state.parts.checkpoints = checkpoints;
    state.appends(alloc, job, draft, purpose, List::new(alloc))
}

/// The checkpoint would have too many bytes. An `Err` is want of memory; and a number of bytes that has no type.
fn too_large<K: Registry>(
    state: State<K>,
    alloc: Global,
    bytes: usize,
) -> Result<Moved<K>, NoMemory>
    ensures { (size : ℕ) (r : Rest (meaning_of K.Registry)) (old : ℕ) → bytes ≡ min size (2 ^ 64 - 1) → KeepsViewIf (meaning_of K.Registry) state.view r.view → IfOk result (λ x. KeepsMoved (meaning_of K.Registry) old x (told.refuses (meaning_of K.Registry) (client_of (meaning_of K.Registry) state r) 0 (cause.TooLarge size))) }
{
    if bytes == usize::MAX {
        return Err(NoMemory);
    }
    state.refuses(alloc, 0, Refusal::TooLarge { bytes })
}

/// The object isn't saved. An `Err` is want of memory.
fn unsaved<K: Registry>(
    state: State<K>,
    alloc: Global,
    fault: SaveFault,
) -> Result<Moved<K>, NoMemory>
    ensures { (w : rules.Work (meaning_of K.Registry)) (o : Oid) (e : Entry) (r : Rest (meaning_of K.Registry)) (old : ℕ) → Saves (Err fault) e → KeepsViewIf (meaning_of K.Registry) state.view r.view → IfOk result (λ x. KeepsMoved (meaning_of K.Registry) old x (told.saves (meaning_of K.Registry) (client_of (meaning_of K.Registry) state r) w o e)) }
{
    match fault {
        SaveFault::TooLarge { bytes } => too_large(state, alloc, bytes),
        SaveFault::NoMemory => Err(NoMemory),
    }
}

/// The object is saved as the kept view has it, unless that takes more than a page.
fn saves<K: Registry>(
    state: State<K>,
    alloc: Global,
    job: Job<K>,
    oid: Oid,
) -> Result<Moved<K>, NoMemory>
    requires view { IsSome state.view }
    requires numbers { HasNumbersLeft (meaning_of K.Registry) state }
    ensures { (r : Rest (meaning_of K.Registry)) (w : rules.Work (meaning_of K.Registry)) (v : views.View (meaning_of K.Registry)) (old : ℕ) → r.view ≡ Some v → old ≤ state.rids.next → KeepsViewIf (meaning_of K.Registry) state.view r.view → KeepsJob (meaning_of K.Registry) job w → IfOk result (λ x. KeepsMoved (meaning_of K.Registry) old x (told.saves (meaning_of K.Registry) (client_of (meaning_of K.Registry) state r) w oid (ckpts.checkpoint (meaning_of K.Registry) v oid w.tail state.num (state.checkpoints + 1)))) }
{
    match saved(&state, alloc, oid, job.parts.tail) {
        Ok(draft) => puts(state, alloc, job, oid, draft),
        Err(fault) => unsaved(state, alloc, fault),
    }
}

/// What `checkpoint` comes to: the object is saved as the view has it. An `Err` is want of memory.
pub fn on_checkpoint<K: Registry>(
    state: State<K>,
    alloc: Global,
    job: Job<K>,
    oid: Oid,
    came: PlayEnd,
) -> Result<Moved<K>, NoMemory>
    requires view { IsSome state.view }
    requires numbers { HasNumbersLeft (meaning_of K.Registry) state }
    ensures { (r : Rest (meaning_of K.Registry)) (w : rules.Work (meaning_of K.Registry)) (v : views.View (meaning_of K.Registry)) (old : ℕ) → r.view ≡ Some v → old ≤ state.rids.next → KeepsViewIf (meaning_of K.Registry) state.view r.view → KeepsJob (meaning_of K.Registry) job w → IfOk result (λ x. KeepsMoved (meaning_of K.Registry) old x (told.on_checkpoint (meaning_of K.Registry) (client_of (meaning_of K.Registry) state r) w v oid came)) }
{
    match came {
        PlayEnd::Played { .. } => saves(state, alloc, job, oid),
        PlayEnd::Blocked { pos, missing } => {
            state.refuses(alloc, 0, Refusal::Undecided { pos, missing })
        }
    }
}
