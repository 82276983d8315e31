//! Which entries a command plays.

ghost use Rattle.std.specs.Prelude.{◌≡◌, Option, IfOk};
ghost use Rattle.tg_kind.specs.Of.{meaning_of};
ghost use Rattle.tg_protocol.specs.Clients as clients;
ghost use Rattle.tg_protocol.specs.Views as views;
ghost use Rattle.tg_ckpt.specs.Saving.{AreSpelled};
ghost use Rattle.tg_client_state.specs.States.{Rest, client_of, KeepsViewIf};
ghost use Rattle.tg_client_state.specs.Tasks.{KeepsJob};
ghost use Rattle.tg_client_answers.specs.Playing.{goes_by_new, plays_from, Suffice};

use std::alloc::Global;
use tg_base::{NoMemory, Pos};
use tg_client_state::{Job, State};
use tg_entry::Entries;
use tg_kind::Registry;
use tg_model::{Command, CommandOf};
use tg_play::View;

// Whether a command goes by no entry below a position, where those are commit records, once a view is played: it asks
// for no record but its own, which is at `at`.
fn goes_by_new<K: Registry>(command: &CommandOf<K>, at: Pos, settled: Pos) -> bool
    ensures { result ≡ goes_by_new (meaning_of K.Registry) command.now at settled }
{
    match command {
        Command::Ask { .. } => true,
        Command::End => settled <= at,
        Command::Checkpoint { .. } => true,
        Command::Trim => true,
        _ => false,
    }
}

// Whether a view is kept that has played all entries below a position.
fn plays_from<K: Registry>(view: &Option<View<K>>, settled: Pos) -> bool
    ensures { (v : Option (views.View (meaning_of K.Registry))) → KeepsViewIf (meaning_of K.Registry) view.now v → result ≡ plays_from (meaning_of K.Registry) v settled }
{
    match view {
        None => false,
        Some(view) => settled <= view.upto(),
    }
}

/// The entries that a command plays. A kept view that has played all that is settled plays the new ones alone.
/// An `Err` is want of memory.
pub fn entries_of<K: Registry>(
    state: &State<K>,
    alloc: Global,
    job: &Job<K>,
) -> Result<Entries, NoMemory>
    ensures suffice { (r : Rest (meaning_of K.Registry)) (w : clients.Work (meaning_of K.Registry)) → KeepsViewIf (meaning_of K.Registry) state.now.view r.view → KeepsJob (meaning_of K.Registry) job.now w → IfOk result (λ es. Suffice (meaning_of K.Registry) (client_of (meaning_of K.Registry) state.now r) w es) }
    ensures spelled { IfOk result (λ es. AreSpelled es) }
{
    let known = &state.parts.known;
    let settled = known.settled();
    if plays_from(&state.parts.view, settled)
        && goes_by_new::<K>(&job.parts.command, job.parts.at, settled)
    {
        return known.entries_from_settled(
            alloc,
            &job.parts.found,
            state.parts.hosted.as_slice(),
            job.parts.tail,
        );
    }
    known.entries(
        alloc,
        &job.parts.found,
        state.parts.hosted.as_slice(),
        job.parts.tail,
    )
}
