//! All units trim what all objects have forgotten.

ghost use Rattle.std.specs.Prelude.{◌≡◌, ◌<◌, ◌≤◌, ◌^◌, ℕ, Some, IfOk};
ghost use Rattle.tg_kind.specs.Of.{meaning_of};
ghost use Rattle.tg_protocol.specs.Answers as told;
ghost use Rattle.tg_protocol.specs.Clients as rules;
ghost use Rattle.tg_protocol.specs.Views as views;
ghost use Rattle.tg_protocol.specs.Words.{directory};
ghost use Rattle.tg_client_state.specs.Tasks.{KeepsJob};
ghost use Rattle.tg_client_state.specs.States.{Rest, client_of, KeepsViewIf, KeepsMoved};

use std::alloc::Global;
use tg_base::{NoMemory, Oid, Pos};
use tg_client_state::{Job, Moved, State};
use tg_kind::Registry;
use tg_model::{PlayEnd, Refusal};

/// The position below which all objects are forgotten, by the directory as the kept view has it. It takes no memory.
fn floor<K: Registry>(state: &State<K>) -> Pos
    ensures { (v : views.View (meaning_of K.Registry)) → KeepsViewIf (meaning_of K.Registry) state.now.view (Some v) → result ≡ told.floor_of (meaning_of K.Registry) (views.state_of (meaning_of K.Registry) v directory) }
{
    match &state.parts.view {
        None => 0,
        Some(view) => match view.state(Oid(0)) {
            None => 0,
            Some(dir) => dir.floor(),
        },
    }
}

/// What `trim` comes to: all units trim what is below the floor that the view has come to. An `Err` is want of memory.
pub fn on_trim<K: Registry>(
    state: State<K>,
    alloc: Global,
    job: Job<K>,
    came: PlayEnd,
) -> Result<Moved<K>, NoMemory>
    requires { state.rids.next < 2 ^ 62 }
    ensures { (r : Rest (meaning_of K.Registry)) (w : rules.Work (meaning_of K.Registry)) (v : views.View (meaning_of K.Registry)) (old : ℕ) → r.view ≡ Some v → old ≤ state.rids.next → KeepsViewIf (meaning_of K.Registry) state.view r.view → KeepsJob (meaning_of K.Registry) job w → IfOk result (λ x. KeepsMoved (meaning_of K.Registry) old x (told.on_trim (meaning_of K.Registry) (client_of (meaning_of K.Registry) state r) w v came)) }
{
    match came {
        PlayEnd::Played { .. } => {
            let below = floor(&state);
            state.trims(alloc, job, below)
        }
        PlayEnd::Blocked { pos, missing } => {
            state.refuses(alloc, 0, Refusal::Undecided { pos, missing })
        }
    }
}
