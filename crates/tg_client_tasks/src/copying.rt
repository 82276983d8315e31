//! Copies of a stripe.

ghost use Rattle.std.specs.Prelude.{◌≡◌, ℕ, ◌<◌, ◌≤◌, ◌^◌, [], ◌∷◌, None, IsTrue, IfOk};
ghost use Rattle.tg_kind.specs.Of.{meaning_of};
ghost use Rattle.tg_model.specs.declared.trace.What.TheVariants.{Copied};
ghost use Rattle.tg_protocol.specs.Answers.{note, replies};
ghost use Rattle.tg_protocol.specs.Clients as told;
ghost use Rattle.tg_protocol.specs.ClientSteps as steps;
ghost use Rattle.tg_protocol.specs.Trimming.{Copying, CopyTurn};
ghost use Rattle.tg_copy.specs.Stripes.{HasStripe};
ghost use Rattle.tg_copy.specs.Turns.{spare_of};
ghost use Rattle.tg_client_state.specs.States.{Rest, client_of, KeepsViewIf, KeepsMoved};
ghost use Rattle.tg_client_state.specs.Tasks.{KeepsJob};
ghost use Rattle.tg_client_state.specs.Moves.{Holds};
ghost use Rattle.tg_client_tasks.specs.Shown.{CopyShown};

use std::alloc::Global;
use tg_base::{Join, List, NoMemory, Projection, Rids};
use tg_chain::Next;
use tg_client_state::{Job, Moved, Paused, State, Task, goes_on, learns, meets, one_note};
use tg_copy::{CopyRange, CopyStep};
use tg_kind::Registry;
use tg_model::{Refusal, What};
use tg_proj::{ProjFault, spare_fault};

/// Why a change or a copy is refused, by the fault of a layout. It takes no memory.
pub fn layout_refusal<K: Registry>(fault: ProjFault) -> Refusal
    ensures { result ≡ told.layout_refusal (meaning_of K.Registry) fault }
{
    match fault {
        ProjFault::TooMany { what } => Refusal::TooMany { what },
        ProjFault::NotClosed { range } => Refusal::NotClosed { range },
        ProjFault::NoStripe { range, stripe } => Refusal::NoStripe { range, stripe },
        ProjFault::InChain { unit } => Refusal::InChain { unit },
        ProjFault::Returned { unit } => Refusal::Returned { unit },
        ProjFault::NoReplica { range, stripe } => Refusal::NoReplica { range, stripe },
        ProjFault::NotAcked { unit } => Refusal::Returned { unit },
    }
}

/// What a copy's turn makes of a client: the copy goes on, a newer layout is learnt first, or the spare has all. An
/// `Err` is want of memory.
pub fn on_copy<K: Registry>(
    state: State<K>,
    alloc: Global,
    job: Job<K>,
    spare: Join,
    rids: Rids,
    step: CopyStep,
) -> Result<Moved<K>, NoMemory>
    requires { rids.next < 2 ^ 62 }
    ensures { (r : Rest (meaning_of K.Registry)) (w : told.Work (meaning_of K.Registry)) (old : ℕ) (c : Copying) (t : CopyTurn) → Holds (meaning_of K.Registry) state job r w old → spare_of c ≡ spare → CopyShown old state.stand state.rids.next rids.next step t → IfOk result (λ x. KeepsMoved (meaning_of K.Registry) old x (steps.on_copy (meaning_of K.Registry) (client_of (meaning_of K.Registry) state r) w c t)) }
{
    let CopyStep { next, gone, outs } = step;
    let mut state = state;
    state.parts.rids = rids;
    let job = meets(job, gone);
    match next {
        Next::Goes { machine } => goes_on(state, alloc, job, Task::Copy { copy: machine }, outs),
        Next::Learns { paused } => learns(state, alloc, job, Paused::Copy { spare: paused }),
        Next::Ends { .. } => copied(state, alloc, spare),
    }
}

/// The spare has all of the stripe.
fn copied<K: Registry>(state: State<K>, alloc: Global, spare: Join) -> Result<Moved<K>, NoMemory>
    ensures { (r : Rest (meaning_of K.Registry)) (old : ℕ) → KeepsViewIf (meaning_of K.Registry) state.view r.view → IfOk result (λ x. KeepsMoved (meaning_of K.Registry) old x (replies (meaning_of K.Registry) (client_of (meaning_of K.Registry) state r) (note (meaning_of K.Registry) 0 (Copied spare.unit spare.range spare.stripe) ∷ []))) }
{
    let Join {
        unit,
        range,
        stripe,
    } = spare;
    let what = What::Copied {
        unit,
        range,
        stripe,
    };
    let notes = one_note::<K>(alloc, 0, what)?;
    state.replies(alloc, notes)
}

/// Whether a closed range of the layout has the stripe, and its first position a number. It takes no memory.
fn has_stripe(proj: &Projection, spare: Join) -> bool
    ensures { IsTrue result → HasStripe proj.now spare }
{
    let ranges = proj.ranges.as_slice();
    if spare.range >= ranges.len() || spare.range + 1 >= ranges.len() {
        return false;
    }
    let range = &ranges[spare.range];
    if spare.stripe >= range.stripes.as_slice().len() {
        return false;
    }
    range.lo.checked_add(spare.stripe as u64).is_some()
}

/// A copy begins of a stripe that the layout has.
fn copies_there<K: Registry>(
    state: State<K>,
    alloc: Global,
    job: Job<K>,
    spare: Join,
) -> Result<Moved<K>, NoMemory>
    requires there { HasStripe state.stand spare }
    requires numbers { state.rids.next < 2 ^ 61 }
    ensures { (r : Rest (meaning_of K.Registry)) (w : told.Work (meaning_of K.Registry)) (old : ℕ) (c : Copying) → old ≤ state.rids.next → KeepsViewIf (meaning_of K.Registry) state.view r.view → KeepsJob (meaning_of K.Registry) job w → spare_of c ≡ spare → IfOk result (λ x. KeepsMoved (meaning_of K.Registry) old x (steps.copies_again (meaning_of K.Registry) (client_of (meaning_of K.Registry) state r) w c None)) }
{
    let mut rids = state.parts.rids;
    let step = CopyRange::start(alloc, &state.parts.stand, spare, &mut rids)?;
    on_copy(state, alloc, job, spare, rids, step)
}

/// A copy begins, in the layout on which the client stands. An `Err` is want of memory, or the stripe has no
/// position.
pub fn copies<K: Registry>(
    state: State<K>,
    alloc: Global,
    job: Job<K>,
    spare: Join,
) -> Result<Moved<K>, NoMemory>
    requires { state.rids.next < 2 ^ 61 }
    ensures { (r : Rest (meaning_of K.Registry)) (w : told.Work (meaning_of K.Registry)) (old : ℕ) (c : Copying) → old ≤ state.rids.next → KeepsViewIf (meaning_of K.Registry) state.view r.view → KeepsJob (meaning_of K.Registry) job w → spare_of c ≡ spare → IfOk result (λ x. KeepsMoved (meaning_of K.Registry) old x (steps.copies_again (meaning_of K.Registry) (client_of (meaning_of K.Registry) state r) w c None)) }
{
    if !has_stripe(&state.parts.stand, spare) {
        return Err(NoMemory);
    }
    copies_there(state, alloc, job, spare)
}

/// A copy starts over in a newer layout, unless that has no such stripe or doesn't spare the unit. An `Err` is want of
/// memory, or the stripe has no position.
pub fn copies_again<K: Registry>(
    state: State<K>,
    alloc: Global,
    job: Job<K>,
    spare: Join,
) -> Result<Moved<K>, NoMemory>
    requires { state.rids.next < 2 ^ 61 }
    ensures { (r : Rest (meaning_of K.Registry)) (w : told.Work (meaning_of K.Registry)) (old : ℕ) (c : Copying) → Holds (meaning_of K.Registry) state job r w old → spare_of c ≡ spare → IfOk result (λ x. KeepsMoved (meaning_of K.Registry) old x (steps.copies_again (meaning_of K.Registry) (client_of (meaning_of K.Registry) state r) w c (told.copy_fault (meaning_of K.Registry) state.stand c.unit c.range c.stripe))) }
{
    match spare_fault(&state.parts.stand, spare) {
        None => copies(state, alloc, job, spare),
        Some(fault) => state.refuses(alloc, 0, layout_refusal::<K>(fault)),
    }
}
