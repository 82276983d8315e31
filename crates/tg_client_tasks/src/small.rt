//! Small steps.

ghost use Rattle.std.specs.Prelude.{◌≡◌, ◌<◌, ◌≤◌, ◌^◌, ℕ, true, length, Option, IfOk};
ghost use Rattle.tg_kind.specs.Of.{meaning_of};
ghost use Rattle.tg_kind.specs.Parts as scopes;
ghost use Rattle.tg_base.specs.Parts.{is_part};
ghost use Rattle.tg_base.specs.declared.marks.Part.TheVariants.{Text};
ghost use Rattle.tg_protocol.specs.Answers as told;
ghost use Rattle.tg_protocol.specs.ClientSteps as steps;
ghost use Rattle.tg_protocol.specs.ClientSteps.{new_work};
ghost use Rattle.tg_protocol.specs.Views.{View};
ghost use Rattle.tg_base.specs.Orders.{with_oid};
ghost use Rattle.tg_protocol.specs.Words.{has_oid};
ghost use Rattle.tg_client_state.specs.States.{KeepsViewIf, KeepsMoved};
ghost use Rattle.tg_client_state.specs.Tasks.{KeepsJob};
ghost use Rattle.tg_client_tasks.specs.Idle.{idle};

use std::alloc::Global;
use tg_base::{Blob, List, NoMemory, Oid, Part};
use tg_client_cells::StreamPositions;
use tg_client_state::{Job, JobParts, Moved, State};
use tg_kind::{Key, Registry, Scope};
use tg_model::{CommandOf, NoteOf};

/// A client for which no command waits says something, and sends nothing. It takes no memory.
pub fn says<K: Registry>(state: State<K>, alloc: Global, notes: List<NoteOf<K>>) -> Moved<K>
    ensures { (v : Option (View (meaning_of K.Registry))) (n old : ℕ) → KeepsViewIf (meaning_of K.Registry) state.view v → KeepsMoved (meaning_of K.Registry) old result (told.moved (meaning_of K.Registry) (idle (meaning_of K.Registry) state v n) notes) }
{
    Moved {
        state,
        work: None,
        sends: List::new(alloc),
        notes,
    }
}

/// A command that waits. An `Err` is want of memory.
pub fn new_job<K: Registry>(alloc: Global, command: CommandOf<K>) -> Result<Job<K>, NoMemory>
    ensures { IfOk result (λ j. KeepsJob (meaning_of K.Registry) j (new_work (meaning_of K.Registry) command)) }
{
    let parts = JobParts {
        command,
        gone: 0,
        gone_before: 0,
        tail: 0,
        lasts: List::new(alloc),
        oids: List::new(alloc),
        lo: 0,
        found: StreamPositions::new(alloc),
        trims: List::new(alloc),
        at: 0,
    };
    Job::new(alloc, parts)
}

/// Equal objects.
pub fn copied(oids: &List<Oid>) -> Result<List<Oid>, NoMemory>
    ensures { IfOk result (λ c. c ≡ oids.now) }
{
    Ok(oids.clone()?)
}

/// Whether the object is one of these.
pub fn has(oids: &List<Oid>, oid: Oid) -> bool
    ensures { result ≡ has_oid oid oids.now }
{
    oids.as_slice().iter().any(|other| oid.0 == other.0)
}

/// The part that an ask looks at. An `Err` is want of memory.
pub fn looked_at<K: Registry>(alloc: Global, ask: &K::Ask) -> Result<Part, NoMemory>
    ensures part { IfOk result (λ p. p ≡ K.looked ask.now) }
    ensures lawful { is_part (K.looked ask.now) ≡ true }
{
    let scope = K::look(ask);
    part_in(alloc, scope)
}

/// The part that a scope names.
fn part_in(alloc: Global, scope: Scope<'_>) -> Result<Part, NoMemory>
    requires { is_part (scopes.part_of scope) ≡ true }
    ensures { IfOk result (λ p. p ≡ scopes.part_of scope.entry) }
{
    match scope {
        Scope::All => Ok(Part::All),
        Scope::One(Key::Num(number)) => Ok(Part::Num(number)),
        Scope::One(Key::Text(text)) => text_part(alloc, text.as_bytes()),
    }
}

fn text_part(alloc: Global, text: &[u8]) -> Result<Part, NoMemory>
    requires { length text.now ≤ 4096 }
    ensures { IfOk result (λ p. p ≡ Text text.now) }
{
    let mut bytes = List::new(alloc);
    bytes.extend(text)?;
    Ok(Part::Text(Blob::new(alloc, bytes)?.unwrap()))
}

/// A command waits, and a sync over the hosted streams begins. An `Err` is want of memory.
pub fn works_on<K: Registry>(
    state: State<K>,
    alloc: Global,
    command: CommandOf<K>,
) -> Result<Moved<K>, NoMemory>
    requires { state.rids.next < 2 ^ 62 }
    ensures { (v : Option (View (meaning_of K.Registry))) (n : ℕ) → KeepsViewIf (meaning_of K.Registry) state.view v → IfOk result (λ x. KeepsMoved (meaning_of K.Registry) state.rids.next x (steps.works_on (meaning_of K.Registry) (idle (meaning_of K.Registry) state v n) command)) }
{
    let hosted = copied(&state.parts.hosted)?;
    let job = new_job(alloc, command)?;
    state.syncs(alloc, job, hosted)
}
