//! A mark of what is forgotten of an object, by a transaction of its own.

ghost use Rattle.std.specs.Prelude.{◌≡◌, ◌≤◌, ◌<◌, ◌+◌, ◌^◌, ℕ, List, [], ◌∷◌, Option, None, Err, length, IfOk};
ghost use Rattle.tg_base.specs.declared.ids.Oid.{Oid};
ghost use Rattle.tg_ckpt.specs.Answers.{Forgets};
ghost use Rattle.tg_entry.specs.declared.entry.Body.TheVariants.{Commit};
ghost use Rattle.tg_kind.specs.Of.{meaning_of};
ghost use Rattle.tg_protocol.specs.Answers as told;
ghost use Rattle.tg_protocol.specs.Checkpoints as ckpts;
ghost use Rattle.tg_protocol.specs.Clients as rules;
ghost use Rattle.tg_protocol.specs.Entries.{draft};
ghost use Rattle.tg_protocol.specs.Words.{directory};
ghost use Rattle.tg_client_state.specs.Tasks.{KeepsJob};
ghost use Rattle.tg_client_state.specs.States.{Rest, client_of, KeepsViewIf, KeepsMoved};
ghost use Rattle.tg_client_state.specs.Counts.{HasNumbersLeft};

use std::alloc::Global;
use tg_base::{Backs, Blob, List, NoMemory, Oid, Pos, StreamLink};
use tg_ckpt::{ForgetFault, may_forget};
use tg_client_state::{Job, Moved, Purpose, State, one_note};
use tg_entry::{Body, Draft, Entries, Entry, Head, WriteOp};
use tg_kind::Registry;
use tg_model::{Note, NoteOf, PlayEnd, Refusal, What};

/// The directory.
const DIRECTORY: Oid = Oid(0);

/// The record of a mark, and what is told of its transaction.
#[derive(Drop)]
struct Marking<K: Registry> {
    draft: Draft,
    notes: List<NoteOf<K>>,
}

/// The bytes of a mark's op, which are some, and few. An `Err` is want of memory.
fn spelled<K: Registry>(alloc: Global, oid: Oid, mark: Pos) -> Result<Blob, NoMemory>
    ensures bytes { IfOk result (λ b. b ≡ K.Kind.spelled (K.Registry.marking oid mark)) }
    ensures some { IfOk result (λ b. 1 ≤ length b) }
{
    let op = K::mark_op(oid, mark);
    let _known = K::touch(&op);
    let mut bytes = List::new(alloc);
    K::put_op(alloc, &op, &mut bytes)?;
    let blob = Blob::new(alloc, bytes)?.unwrap();
    Ok(blob)
}

/// The record that writes these bytes to the directory.
fn drafted(alloc: Global, client: u16, number: u32, op: Blob) -> Result<Draft, NoMemory>
    requires number { 1 ≤ number }
    requires some { 1 ≤ length op }
    ensures { IfOk result (λ d. d ≡ draft client number (directory ∷ []) (Commit [] (record { oid = directory; op = op } ∷ []))) }
{
    let mut streams = List::new(alloc);
    let backs = Backs::of(&[]).unwrap();
    streams.push(StreamLink {
        oid: DIRECTORY,
        backs,
    })?;
    let mut writes = List::new(alloc);
    writes.push(WriteOp { oid: DIRECTORY, op })?;
    let head = Head {
        format: 2,
        client,
        number,
        streams,
    };
    let body = Body::Commit {
        reads: List::new(alloc),
        writes,
    };
    Ok(Draft::new(Entry { head, body }))
}

/// What is told of the transaction.
fn mark_notes<K: Registry>(
    alloc: Global,
    number: u32,
    oid: Oid,
    mark: Pos,
) -> Result<List<NoteOf<K>>, NoMemory>
    ensures { IfOk result (λ ns. ns ≡ told.mark_notes (meaning_of K.Registry) number oid mark) }
{
    let mut notes = one_note::<K>(alloc, number, What::Begin)?;
    let op = K::mark_op(oid, mark);
    notes.push(Note {
        tx: number,
        what: What::Put { oid: DIRECTORY, op },
    })?;
    notes.push(Note {
        tx: number,
        what: What::End,
    })?;
    Ok(notes)
}

/// The marking transaction with this number. An `Err` is want of memory.
fn transaction<K: Registry>(
    alloc: Global,
    client: u16,
    number: u32,
    oid: Oid,
    mark: Pos,
) -> Result<Marking<K>, NoMemory>
    requires { 1 ≤ number }
    ensures draft { IfOk result (λ x. x.draft ≡ draft client number (directory ∷ []) (Commit [] (record { oid = directory; op = K.Kind.spelled (K.Registry.marking oid mark) } ∷ []))) }
    ensures notes { IfOk result (λ x. x.notes ≡ told.mark_notes (meaning_of K.Registry) number oid mark) }
{
    let op = spelled::<K>(alloc, oid, mark)?;
    let draft = drafted(alloc, client, number, op)?;
    let notes = mark_notes::<K>(alloc, number, oid, mark)?;
    Ok(Marking { draft, notes })
}

/// The client's next transaction, which marks the object. An `Err` is want of memory.
fn next_marking<K: Registry>(
    state: &State<K>,
    alloc: Global,
    oid: Oid,
    mark: Pos,
) -> Result<Marking<K>, NoMemory>
    requires { state.now.begun + 1 < 2 ^ 32 }
    ensures draft { (r : Rest (meaning_of K.Registry)) → IfOk result (λ x. x.draft ≡ told.mark_record (meaning_of K.Registry) (client_of (meaning_of K.Registry) state.now r) oid mark) }
    ensures notes { IfOk result (λ x. x.notes ≡ told.mark_notes (meaning_of K.Registry) (state.now.begun + 1) oid mark) }
    ensures numbers { IfOk result (λ _. state.now.begun + 1 < 2 ^ 32) }
{
    transaction(alloc, state.parts.num, state.parts.begun + 1, oid, mark)
}

/// The mark is appended. An `Err` is want of memory.
fn marks<K: Registry>(
    state: State<K>,
    alloc: Global,
    job: Job<K>,
    oid: Oid,
    mark: Pos,
) -> Result<Moved<K>, NoMemory>
    requires { HasNumbersLeft (meaning_of K.Registry) state }
    ensures { (r : Rest (meaning_of K.Registry)) (w : rules.Work (meaning_of K.Registry)) (old : ℕ) → old ≤ state.rids.next → KeepsViewIf (meaning_of K.Registry) state.view r.view → KeepsJob (meaning_of K.Registry) job w → IfOk result (λ x. KeepsMoved (meaning_of K.Registry) old x (told.forget_by (meaning_of K.Registry) (client_of (meaning_of K.Registry) state r) w oid mark None)) }
{
    let marking = next_marking(&state, alloc, oid, mark)?;
    let begun = state.parts.begun + 1;
    let purpose = Purpose::Marks {
        number: begun,
        oid,
        mark,
    };
    let mut state = state;
    state.parts.begun = begun;
    state.appends(alloc, job, marking.draft, purpose, marking.notes)
}

/// What is below may not be forgotten. An `Err` is want of memory.
fn unmarked<K: Registry>(
    state: State<K>,
    alloc: Global,
    fault: ForgetFault,
) -> Result<Moved<K>, NoMemory>
    ensures { (w : rules.Work (meaning_of K.Registry)) (o : Oid) (n : ℕ) (f : Option (ckpts.ForgetFault (meaning_of K.Registry))) (r : Rest (meaning_of K.Registry)) (old : ℕ) → Forgets (meaning_of K.Registry) {A = Unit {0}} o (Err fault) f → KeepsViewIf (meaning_of K.Registry) state.view r.view → IfOk result (λ x. KeepsMoved (meaning_of K.Registry) old x (told.forget_by (meaning_of K.Registry) (client_of (meaning_of K.Registry) state r) w o n f)) }
{
    match fault {
        ForgetFault::NoCheckpoint { oid } => state.refuses(alloc, 0, Refusal::NoCheckpoint { oid }),
        ForgetFault::OpenDecision { pos } => state.refuses(alloc, 0, Refusal::OpenDecision { pos }),
        ForgetFault::NoMemory => Err(NoMemory),
    }
}

/// The object is marked, where what is below may be forgotten by these entries.
fn forgets<K: Registry>(
    state: State<K>,
    alloc: Global,
    job: Job<K>,
    entries: &Entries,
    oid: Oid,
    mark: Pos,
) -> Result<Moved<K>, NoMemory>
    requires { HasNumbersLeft (meaning_of K.Registry) state }
    ensures { (r : Rest (meaning_of K.Registry)) (w : rules.Work (meaning_of K.Registry)) (old : ℕ) → old ≤ state.rids.next → KeepsViewIf (meaning_of K.Registry) state.view r.view → KeepsJob (meaning_of K.Registry) job w → IfOk result (λ x. KeepsMoved (meaning_of K.Registry) old x (told.forget_by (meaning_of K.Registry) (client_of (meaning_of K.Registry) state r) w oid mark (ckpts.may_forget (meaning_of K.Registry) entries.now oid mark))) }
{
    match may_forget::<K>(alloc, entries, oid, mark) {
        Ok(()) => marks(state, alloc, job, oid, mark),
        Err(fault) => unmarked(state, alloc, fault),
    }
}

/// What `forget` comes to, over the entries below the tail: the object is marked by a transaction of its own, where what
/// is below may be forgotten. An `Err` is want of memory.
pub fn on_forget<K: Registry>(
    state: State<K>,
    alloc: Global,
    job: Job<K>,
    entries: &Entries,
    oid: Oid,
    mark: Pos,
    came: PlayEnd,
) -> Result<Moved<K>, NoMemory>
    requires { HasNumbersLeft (meaning_of K.Registry) state }
    ensures { (r : Rest (meaning_of K.Registry)) (w : rules.Work (meaning_of K.Registry)) (old : ℕ) → old ≤ state.rids.next → KeepsViewIf (meaning_of K.Registry) state.view r.view → KeepsJob (meaning_of K.Registry) job w → IfOk result (λ x. KeepsMoved (meaning_of K.Registry) old x (told.on_forget (meaning_of K.Registry) (client_of (meaning_of K.Registry) state r) w entries.now oid mark came)) }
{
    match came {
        PlayEnd::Played { .. } => forgets(state, alloc, job, entries, oid, mark),
        PlayEnd::Blocked { pos, missing } => {
            state.refuses(alloc, 0, Refusal::Undecided { pos, missing })
        }
    }
}
