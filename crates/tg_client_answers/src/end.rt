//! The end of a transaction.

ghost use Rattle.std.specs.Prelude.{IsSome};
ghost use Rattle.tg_kind.specs.Of.{meaning_of};
ghost use Rattle.tg_protocol.specs.Answers as told;
ghost use Rattle.tg_protocol.specs.Past.{commit_at};
ghost use Rattle.tg_protocol.specs.Views as views;
ghost use Rattle.tg_client_answers.specs.Fates.{Moves, end_told};
ghost use Rattle.tg_client_state.specs.Counts.{HasNumbersLeft};

use crate::closing::{closes, unsure};
use crate::ended::ended;
use std::alloc::Global;
use tg_base::{NoMemory, Pos};
use tg_client_state::{Job, Moved, Purpose, State};
use tg_entry::{Entries, Entry};
use tg_kind::Registry;
use tg_model::{PlayEnd, WhatOf};
use tg_rescue::{commit_at, needs_decision};

// A record of which it is known what becomes of it: its decision record comes first where it lacks one. An `Err` is want
// of memory.
fn decided<K: Registry>(
    state: State<K>,
    alloc: Global,
    job: Job<K>,
    entries: &Entries,
    at: Pos,
    entry: &Entry,
    answer: (bool, WhatOf<K>),
) -> Result<Moved<K>, NoMemory>
    requires { HasNumbersLeft (meaning_of K.Registry) state }
    ensures { Moves (meaning_of K.Registry) state job result (λ c w v. told.end_decided (meaning_of K.Registry) (told.lacks_decision (meaning_of K.Registry) entries.now at entry.now) c w entry.now at answer.0 answer.1) }
{
    let (yes, what) = answer;
    if needs_decision(alloc, entries, at, entry)? {
        return state.decides(
            alloc,
            job,
            entry,
            at,
            yes,
            Purpose::Decides { answer: what },
        );
    }
    closes(state, alloc, what)
}

// The same, or that it isn't known. An `Err` is want of memory.
fn tells<K: Registry>(
    state: State<K>,
    alloc: Global,
    job: Job<K>,
    entries: &Entries,
    at: Pos,
    entry: &Entry,
    answer: Option<(bool, WhatOf<K>)>,
) -> Result<Moved<K>, NoMemory>
    requires { HasNumbersLeft (meaning_of K.Registry) state }
    ensures { Moves (meaning_of K.Registry) state job result (λ c w v. end_told (meaning_of K.Registry) c w entries.now at entry.now answer) }
{
    match answer {
        None => unsure(state, alloc, at, at),
        Some(answer) => decided(state, alloc, job, entries, at, entry, answer),
    }
}

// The record that `end` appended. An `Err` is want of memory.
fn judged<K: Registry>(
    state: State<K>,
    alloc: Global,
    job: Job<K>,
    entries: &Entries,
    at: Pos,
    entry: &Entry,
) -> Result<Moved<K>, NoMemory>
    requires view { IsSome state.view }
    requires numbers { HasNumbersLeft (meaning_of K.Registry) state }
    ensures { Moves (meaning_of K.Registry) state job result (λ c w v. told.end_by (meaning_of K.Registry) c w entries.now v entry.now at (views.verdict (meaning_of K.Registry) v entries.now at entry.now)) }
{
    match &state.parts.view {
        None => unreachable!(),
        Some(view) => {
            let answer = ended(view, entries, at, entry)?;
            tells(state, alloc, job, entries, at, entry, answer)
        }
    }
}

// The record at a position, if it is there. An `Err` is want of memory.
fn ends<K: Registry>(
    state: State<K>,
    alloc: Global,
    job: Job<K>,
    entries: &Entries,
    at: Pos,
) -> Result<Moved<K>, NoMemory>
    requires view { IsSome state.view }
    requires numbers { HasNumbersLeft (meaning_of K.Registry) state }
    ensures { Moves (meaning_of K.Registry) state job result (λ c w v. told.end_record (meaning_of K.Registry) c w entries.now v at (commit_at entries.now at)) }
{
    match commit_at(entries, at) {
        None => unsure(state, alloc, at, at),
        Some(entry) => judged(state, alloc, job, entries, at, entry),
    }
}

/// A transaction with reads ends, once its record is appended and the entries up to it are played: it is committed, or
/// a read that has changed is named, or neither is known. A decision record is written first where the record needs one
/// and there is none among the entries.
///
/// An `Err` is want of memory.
pub fn on_end<K: Registry>(
    state: State<K>,
    alloc: Global,
    job: Job<K>,
    entries: &Entries,
    came: PlayEnd,
) -> Result<Moved<K>, NoMemory>
    requires view { IsSome state.view }
    requires numbers { HasNumbersLeft (meaning_of K.Registry) state }
    ensures { Moves (meaning_of K.Registry) state job result (λ c w v. told.on_end (meaning_of K.Registry) c w entries.now v came) }
{
    let at = job.parts.at;
    match came {
        PlayEnd::Played { .. } => ends(state, alloc, job, entries, at),
        PlayEnd::Blocked { pos, .. } => unsure(state, alloc, at, pos),
    }
}
