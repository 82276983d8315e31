//! What follows the walks of a command.

ghost use Rattle.std.specs.Prelude.{◌≡◌, ℕ, ◌≤◌, IfOk};
ghost use Rattle.tg_kind.specs.Of.{meaning_of};
ghost use Rattle.tg_protocol.specs.Answers as told;
ghost use Rattle.tg_protocol.specs.Clients as clients;
ghost use Rattle.tg_client_state.specs.States.{Rest, client_of, KeepsViewIf, KeepsMoved};
ghost use Rattle.tg_client_state.specs.Tasks.{KeepsJob};
ghost use Rattle.tg_client_answers.specs.Playing.{Follows};
ghost use Rattle.tg_client_state.specs.Counts.{HasNumbersLeft};

use crate::answering::answered;
use crate::entries::entries_of;
use crate::playing::played;
use crate::{on_ask_at, on_rescue};
use std::alloc::Global;
use tg_base::{NoMemory, Pos};
use tg_client_state::{Job, Moved, State};
use tg_kind::{Kind, Registry};
use tg_model::{Command, CommandOf};

// How far a command plays: up to its own record at `at` for `end`, else to the tail.
fn target_of<K: Registry>(command: &CommandOf<K>, at: Pos, tail: Pos) -> Pos
    ensures { (w : clients.Work (meaning_of K.Registry)) → w.at ≡ at → w.tail ≡ tail → result ≡ told.play_target (meaning_of K.Registry) w command.now }
{
    match command {
        Command::End => at,
        _ => tail,
    }
}

// The client's own view plays, and the command is answered. An `Err` is want of memory.
fn plays<K: Registry>(state: State<K>, alloc: Global, job: Job<K>) -> Result<Moved<K>, NoMemory>
    requires { HasNumbersLeft (meaning_of K.Registry) state }
    ensures { Follows (meaning_of K.Registry) state job result (λ c w. told.plays_own (meaning_of K.Registry) c w (clients.all_entries (meaning_of K.Registry) c w c.hosted)) }
{
    let entries = entries_of(&state, alloc, &job)?;
    let target = target_of::<K>(&job.parts.command, job.parts.at, job.parts.tail);
    let (state, came) = played(state, alloc, &entries, job.parts.trims.as_slice(), target)?;
    answered(state, alloc, job, &entries, came)
}

/// All streams of a command are walked: the command is answered, or goes on with what comes next. A past view and a
/// rescue leave the kept view alone; for any other command the kept view plays, or a new one, and only what is new to it
/// where the command allows that.
///
/// An `Err` is want of memory.
pub fn walked<K: Registry>(
    state: State<K>,
    alloc: Global,
    job: Job<K>,
) -> Result<Moved<K>, NoMemory>
    requires { HasNumbersLeft (meaning_of K.Registry) state }
    ensures { (r : Rest (meaning_of K.Registry)) (w : clients.Work (meaning_of K.Registry)) (old : ℕ) → old ≤ state.rids.next → KeepsViewIf (meaning_of K.Registry) state.view r.view → KeepsJob (meaning_of K.Registry) job w → IfOk result (λ x. KeepsMoved (meaning_of K.Registry) old x (told.walked (meaning_of K.Registry) (client_of (meaning_of K.Registry) state r) w)) }
{
    match &job.parts.command {
        Command::AskAt { at, oid, ask } => {
            let (at, oid) = (*at, *oid);
            let ask = K::copy_ask(ask)?;
            on_ask_at(state, alloc, job, at, oid, ask)
        }
        Command::Rescue { at } => {
            let at = *at;
            on_rescue(state, alloc, job, at)
        }
        _ => plays(state, alloc, job),
    }
}
