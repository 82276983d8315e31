//! Commands are answered, once the view has played.

ghost use Rattle.std.specs.Prelude.{IsSome};
ghost use Rattle.tg_kind.specs.Of.{meaning_of};
ghost use Rattle.tg_protocol.specs.Answers as told;
ghost use Rattle.tg_client_answers.specs.Fates.{Moves};
ghost use Rattle.tg_client_state.specs.Counts.{HasNumbersLeft};

use crate::{on_ask, on_checkpoint, on_decide, on_end, on_fate, on_forget, on_trim};
use std::alloc::Global;
use tg_base::{List, NoMemory};
use tg_client_state::{Job, Moved, State};
use tg_entry::Entries;
use tg_kind::{Kind, Registry};
use tg_model::{Command, PlayEnd};

/// The command is answered by what the view has played, and where the play came to. Commands that play nothing are
/// answered by nothing here.
///
/// An `Err` is want of memory.
pub fn answered<K: Registry>(
    state: State<K>,
    alloc: Global,
    job: Job<K>,
    entries: &Entries,
    came: PlayEnd,
) -> Result<Moved<K>, NoMemory>
    requires view { IsSome state.view }
    requires numbers { HasNumbersLeft (meaning_of K.Registry) state }
    ensures { Moves (meaning_of K.Registry) state job result (λ c w v. told.answer_by (meaning_of K.Registry) c w entries.now (record { view = v; came = came }) w.command) }
{
    match &job.parts.command {
        Command::Ask { oid, ask } => {
            let (tail, oid) = (job.parts.tail, *oid);
            let ask = K::copy_ask(ask)?;
            on_ask(state, alloc, tail, oid, ask, came)
        }
        Command::End => on_end(state, alloc, job, entries, came),
        Command::Fate { at } => {
            let at = *at;
            on_fate(state, alloc, job, entries, at, came)
        }
        Command::Decide { at } => {
            let at = *at;
            on_decide(state, alloc, job, entries, at, came)
        }
        Command::Checkpoint { oid } => {
            let oid = *oid;
            on_checkpoint(state, alloc, job, oid, came)
        }
        Command::Forget { oid, mark } => {
            let (oid, mark) = (*oid, *mark);
            on_forget(state, alloc, job, entries, oid, mark, came)
        }
        Command::Trim => on_trim(state, alloc, job, came),
        _ => state.replies(alloc, List::new(alloc)),
    }
}
