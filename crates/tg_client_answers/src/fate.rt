//! The fate of a commit record.

ghost use Rattle.std.specs.Prelude.{◌≡◌, IsSome};
ghost use Rattle.tg_kind.specs.Of.{meaning_of};
ghost use Rattle.tg_protocol.specs.Answers as told;
ghost use Rattle.tg_protocol.specs.Clients.{Client, Work};
ghost use Rattle.tg_protocol.specs.Past.{commit_at};
ghost use Rattle.tg_protocol.specs.Views as views;
ghost use Rattle.tg_model.specs.declared.trace.What.TheVariants as what;
ghost use Rattle.tg_play.specs.Relations.{told_verdict, KeepsView};
ghost use Rattle.tg_client_answers.specs.Fates.{Moves, Tells, fate_told};

use crate::records::{blocked_by, trim_above};
use std::alloc::Global;
use tg_base::{NoMemory, Oid, Pos};
use tg_client_state::{Job, Moved, State};
use tg_entry::Entries;
use tg_kind::Registry;
use tg_model::{PlayEnd, Refusal, What};
use tg_play::{Verdict, View};
use tg_rescue::commit_at;

// The fate of the record at a position, unless a walk met a trim above it.
fn unless_trimmed<K: Registry>(
    trims: &[(Oid, Pos)],
    at: Pos,
    yes: Option<bool>,
) -> Result<Option<bool>, Refusal>
    ensures { (c : Client (meaning_of K.Registry)) (w : Work (meaning_of K.Registry)) → trims.now ≡ w.trims → fate_told (meaning_of K.Registry) c at result ≡ told.forgotten_or (meaning_of K.Registry) c w at (what.Fate at yes) (told.trim_above (meaning_of K.Registry) w.trims at) }
{
    match trim_above::<K>(trims, at) {
        None => Ok(yes),
        Some(below) => Err(Refusal::Forgotten { at, below }),
    }
}

// The fate of a record at a position, by what becomes of it.
fn fate_of<K: Registry>(
    verdict: Verdict,
    trims: &[(Oid, Pos)],
    at: Pos,
) -> Result<Option<bool>, Refusal>
    ensures { (c : Client (meaning_of K.Registry)) (w : Work (meaning_of K.Registry)) → trims.now ≡ w.trims → fate_told (meaning_of K.Registry) c at result ≡ told.fate_verdict (meaning_of K.Registry) c w at (told_verdict verdict) }
{
    match verdict {
        Verdict::Commits => unless_trimmed::<K>(trims, at, Some(true)),
        Verdict::Aborts => unless_trimmed::<K>(trims, at, Some(false)),
        Verdict::Unknown(missing) => Err(Refusal::Undecided { pos: at, missing }),
    }
}

// The fate of the record at a position by the entries, if there is one.
fn fate_in<K: Registry>(
    view: &View<K>,
    entries: &Entries,
    trims: &[(Oid, Pos)],
    at: Pos,
) -> Result<Option<bool>, Refusal>
    ensures { (c : Client (meaning_of K.Registry)) (w : Work (meaning_of K.Registry)) (v : views.View (meaning_of K.Registry)) → KeepsView (meaning_of K.Registry) view.now v → trims.now ≡ w.trims → fate_told (meaning_of K.Registry) c at result ≡ told.fate_record (meaning_of K.Registry) c w entries.now v at (commit_at entries.now at) }
{
    match commit_at(entries, at) {
        None => unless_trimmed::<K>(trims, at, None),
        Some(entry) => fate_of::<K>(view.verdict(entries, at, entry), trims, at),
    }
}

// The fate of the record at a position: the view's, where that has one.
fn fate<K: Registry>(
    view: &View<K>,
    entries: &Entries,
    trims: &[(Oid, Pos)],
    at: Pos,
) -> Result<Option<bool>, Refusal>
    ensures { (c : Client (meaning_of K.Registry)) (w : Work (meaning_of K.Registry)) (v : views.View (meaning_of K.Registry)) → KeepsView (meaning_of K.Registry) view.now v → trims.now ≡ w.trims → fate_told (meaning_of K.Registry) c at result ≡ told.fate_known (meaning_of K.Registry) c w entries.now v at (views.fate_of (meaning_of K.Registry) v at) }
{
    match view.fate(at) {
        None => fate_in(view, entries, trims, at),
        Some(yes) => Ok(Some(yes)),
    }
}

// A fate is told, or why it isn't. An `Err` is want of memory.
fn tells<K: Registry>(
    state: State<K>,
    alloc: Global,
    at: Pos,
    fate: Result<Option<bool>, Refusal>,
) -> Result<Moved<K>, NoMemory>
    ensures { Tells (meaning_of K.Registry) state result (λ c. fate_told (meaning_of K.Registry) c at fate) }
{
    match fate {
        Ok(yes) => state.answers(alloc, 0, What::Fate { at, yes }),
        Err(why) => state.refuses(alloc, 0, why),
    }
}

// What is known of the record at a position. An `Err` is want of memory.
fn known<K: Registry>(
    state: State<K>,
    alloc: Global,
    job: Job<K>,
    entries: &Entries,
    at: Pos,
) -> Result<Moved<K>, NoMemory>
    requires { IsSome state.view }
    ensures { Moves (meaning_of K.Registry) state job result (λ c w v. told.fate_known (meaning_of K.Registry) c w entries.now v at (views.fate_of (meaning_of K.Registry) v at)) }
{
    match &state.parts.view {
        None => unreachable!(),
        Some(view) => {
            let fate = fate(view, entries, job.parts.trims.as_slice(), at);
            tells(state, alloc, at, fate)
        }
    }
}

/// Whether the record at a position is committed, once the entries are played: by the kept view's fate, else by the
/// entries. It is refused where the play is blocked at or below a record, where that can't be decided, and where there
/// may have been one below a trim.
///
/// An `Err` is want of memory.
pub fn on_fate<K: Registry>(
    state: State<K>,
    alloc: Global,
    job: Job<K>,
    entries: &Entries,
    at: Pos,
    came: PlayEnd,
) -> Result<Moved<K>, NoMemory>
    requires { IsSome state.view }
    ensures { Moves (meaning_of K.Registry) state job result (λ c w v. told.on_fate (meaning_of K.Registry) c w entries.now v at came) }
{
    match blocked_by::<K>(entries, at, came) {
        None => known(state, alloc, job, entries, at),
        Some(why) => state.refuses(alloc, 0, why),
    }
}
