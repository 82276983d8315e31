//! The decision of a commit record.

ghost use Rattle.std.specs.Prelude.{◌≡◌, Some, IsSome};
ghost use Rattle.tg_kind.specs.Of.{meaning_of};
ghost use Rattle.tg_model.specs.declared.trace.What.TheVariants as what;
ghost use Rattle.tg_protocol.specs.Answers as told;
ghost use Rattle.tg_protocol.specs.Clients.{Client, Work};
ghost use Rattle.tg_protocol.specs.Past.{commit_at};
ghost use Rattle.tg_protocol.specs.Views as views;
ghost use Rattle.tg_play.specs.Relations.{told_verdict};
ghost use Rattle.tg_client_answers.specs.Fates.{Moves, decision_told};
ghost use Rattle.tg_client_state.specs.Counts.{HasNumbersLeft};

use crate::records::{blocked_by, trim_above};
use std::alloc::Global;
use tg_base::{NoMemory, Pos};
use tg_client_state::{Job, Moved, Purpose, State};
use tg_entry::{Entries, Entry};
use tg_kind::Registry;
use tg_model::{PlayEnd, Refusal, What};
use tg_play::Verdict;
use tg_rescue::{commit_at, needs_decision};

// Whether a record at a position is committed, by what becomes of it, or why that isn't told.
fn decision<K: Registry>(verdict: Verdict, at: Pos) -> Result<bool, Refusal>
    ensures { (c : Client (meaning_of K.Registry)) (w : Work (meaning_of K.Registry)) (es : views.Entries) (e : Entry) → decision_told (meaning_of K.Registry) c w es at e result ≡ told.decide_verdict (meaning_of K.Registry) c w es at e (told_verdict verdict) }
{
    match verdict {
        Verdict::Commits => Ok(true),
        Verdict::Aborts => Ok(false),
        Verdict::Unknown(missing) => Err(Refusal::Undecided { pos: at, missing }),
    }
}

// A record is decided: its decision record comes first where it lacks one. An `Err` is want of memory.
fn decided<K: Registry>(
    state: State<K>,
    alloc: Global,
    job: Job<K>,
    entries: &Entries,
    at: Pos,
    entry: &Entry,
    yes: bool,
) -> Result<Moved<K>, NoMemory>
    requires { HasNumbersLeft (meaning_of K.Registry) state }
    ensures { Moves (meaning_of K.Registry) state job result (λ c w v. told.decides_if (meaning_of K.Registry) (told.lacks_decision (meaning_of K.Registry) entries.now at entry.now) c w entry.now at yes 0 (what.Decided at (Some yes))) }
{
    let answer = What::Decided { at, yes: Some(yes) };
    if needs_decision(alloc, entries, at, entry)? {
        return state.decides(alloc, job, entry, at, yes, Purpose::Decides { answer });
    }
    state.answers(alloc, 0, answer)
}

// The same, or why it isn't told. An `Err` is want of memory.
fn tells<K: Registry>(
    state: State<K>,
    alloc: Global,
    job: Job<K>,
    entries: &Entries,
    at: Pos,
    entry: &Entry,
    answer: Result<bool, Refusal>,
) -> Result<Moved<K>, NoMemory>
    requires { HasNumbersLeft (meaning_of K.Registry) state }
    ensures { Moves (meaning_of K.Registry) state job result (λ c w v. decision_told (meaning_of K.Registry) c w entries.now at entry.now answer) }
{
    match answer {
        Ok(yes) => decided(state, alloc, job, entries, at, entry, yes),
        Err(why) => state.refuses(alloc, 0, why),
    }
}

// A record at a position. An `Err` is want of memory.
fn judged<K: Registry>(
    state: State<K>,
    alloc: Global,
    job: Job<K>,
    entries: &Entries,
    at: Pos,
    entry: &Entry,
) -> Result<Moved<K>, NoMemory>
    requires view { IsSome state.view }
    requires numbers { HasNumbersLeft (meaning_of K.Registry) state }
    ensures { Moves (meaning_of K.Registry) state job result (λ c w v. told.decide_verdict (meaning_of K.Registry) c w entries.now at entry.now (views.view_outcome (meaning_of K.Registry) v entries.now at entry.now)) }
{
    match &state.parts.view {
        None => unreachable!(),
        Some(view) => {
            let answer = decision::<K>(view.outcome(entries, at, entry), at);
            tells(state, alloc, job, entries, at, entry, answer)
        }
    }
}

// The record at a position, if there is one. An `Err` is want of memory.
fn record<K: Registry>(
    state: State<K>,
    alloc: Global,
    job: Job<K>,
    entries: &Entries,
    at: Pos,
) -> Result<Moved<K>, NoMemory>
    requires view { IsSome state.view }
    requires numbers { HasNumbersLeft (meaning_of K.Registry) state }
    ensures { Moves (meaning_of K.Registry) state job result (λ c w v. told.decide_record (meaning_of K.Registry) c w entries.now v at (commit_at entries.now at)) }
{
    match commit_at(entries, at) {
        None => state.answers(alloc, 0, What::Decided { at, yes: None }),
        Some(entry) => judged(state, alloc, job, entries, at, entry),
    }
}

// The record at a position, unless the play is blocked at or below it. An `Err` is want of memory.
fn played<K: Registry>(
    state: State<K>,
    alloc: Global,
    job: Job<K>,
    entries: &Entries,
    at: Pos,
    came: PlayEnd,
) -> Result<Moved<K>, NoMemory>
    requires view { IsSome state.view }
    requires numbers { HasNumbersLeft (meaning_of K.Registry) state }
    ensures { Moves (meaning_of K.Registry) state job result (λ c w v. told.decide_played (meaning_of K.Registry) c w entries.now v at came) }
{
    match blocked_by::<K>(entries, at, came) {
        None => record(state, alloc, job, entries, at),
        Some(why) => state.refuses(alloc, 0, why),
    }
}

/// The record at a position is decided, once the entries are played: whether it is committed, after a decision record
/// says so where it needs one and there is none among the entries. It is refused where a walk met a trim above the
/// position, where the play is blocked at or below a record, and where that can't be decided.
///
/// An `Err` is want of memory.
pub fn on_decide<K: Registry>(
    state: State<K>,
    alloc: Global,
    job: Job<K>,
    entries: &Entries,
    at: Pos,
    came: PlayEnd,
) -> Result<Moved<K>, NoMemory>
    requires view { IsSome state.view }
    requires numbers { HasNumbersLeft (meaning_of K.Registry) state }
    ensures { Moves (meaning_of K.Registry) state job result (λ c w v. told.on_decide (meaning_of K.Registry) c w entries.now v at came (told.trim_above (meaning_of K.Registry) w.trims at)) }
{
    match trim_above::<K>(job.parts.trims.as_slice(), at) {
        None => played(state, alloc, job, entries, at, came),
        Some(below) => state.refuses(alloc, 0, Refusal::Forgotten { at, below }),
    }
}
