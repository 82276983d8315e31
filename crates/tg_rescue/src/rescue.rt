//! What a turn of a rescue comes to.

ghost use Rattle.std.specs.Prelude.{◌≡◌, ℕ, true, IfOk};
ghost use Rattle.std.specs.Option.{option_copied};
ghost use Rattle.tg_kind.specs.Headers.{is_header};
ghost use Rattle.tg_kind.specs.Of.{meaning_of};
ghost use Rattle.tg_model.specs.declared.play.PlayEnd.TheVariants as ends;
ghost use Rattle.tg_protocol.specs.Past as told;
ghost use Rattle.tg_protocol.specs.Views as views;
ghost use Rattle.tg_protocol.specs.Words.{has_oid};
ghost use Rattle.tg_play.specs.Relations.{told_verdict, KeepsView};
ghost use Rattle.tg_ckpt.specs.Saving.{AreSpelled};
ghost use Rattle.tg_entry.specs.Drafts.{all_below};
ghost use Rattle.tg_rescue.specs.Answers.{told_turn, by_block, judged_by, play_end};

use crate::records::{commit_at, needs_decision};
use std::alloc::Global;
use tg_base::{List, NoMemory, Oid, Pos};
use tg_ckpt::view_bases;
use tg_entry::{Entries, Entry};
use tg_kind::Registry;
use tg_model::PlayEnd;
use tg_play::{Base, Verdict, View};

/// What a turn of a rescue comes to.
#[derive(Clone, Copy, PartialEq, Eq)]
pub enum RescueTurn {
    /// This object joins the set, and the work starts over.
    Wider { added: Oid },
    /// A 129th object would join.
    Wide,
    /// No commit record is there.
    Absent,
    /// The play is blocked at this position by an object of the set.
    Stuck { pos: Pos, missing: Oid },
    /// Whether the record is committed, and whether it needs a decision record that isn't among the entries.
    Known { yes: bool, needs: bool },
}

// Whether the object is in the set.
fn has(oids: &[Oid], oid: Oid) -> bool
    ensures { result ≡ has_oid oid oids.now }
{
    oids.iter().any(|other| oid.0 == other.0)
}

// The set with an object more, which has 128 at most.
fn grown<K: Registry>(oids: &[Oid], added: Oid) -> RescueTurn
    ensures { told_turn (meaning_of K.Registry) result ≡ told.grows (meaning_of K.Registry) oids.now added }
{
    if oids.len() >= 128 {
        return RescueTurn::Wide;
    }
    RescueTurn::Wider { added }
}

// A record, if there is one, that is blocked at a position by an object.
fn blocked<K: Registry>(found: Option<&Entry>, oids: &[Oid], pos: Pos, missing: Oid) -> RescueTurn
    ensures { told_turn (meaning_of K.Registry) result ≡ by_block (meaning_of K.Registry) (option_copied found.entry) oids.now pos missing }
{
    if !has(oids, missing) {
        return grown::<K>(oids, missing);
    }
    match found {
        None => RescueTurn::Absent,
        Some(_) => RescueTurn::Stuck { pos, missing },
    }
}

// What is known of the record at a position by what becomes of it.
fn judged<K: Registry>(
    verdict: Verdict,
    entry: &Entry,
    oids: &[Oid],
    at: Pos,
    needs: bool,
) -> RescueTurn
    ensures { told_turn (meaning_of K.Registry) result ≡ judged_by (meaning_of K.Registry) (told_verdict verdict) entry.now oids.now at needs }
{
    match verdict {
        Verdict::Commits => RescueTurn::Known { yes: true, needs },
        Verdict::Aborts => RescueTurn::Known { yes: false, needs },
        Verdict::Unknown(missing) => blocked::<K>(Some(entry), oids, at, missing),
    }
}

// What a view that has played past a position tells of the record there.
fn played<K: Registry>(
    alloc: Global,
    view: &View<K>,
    entries: &Entries,
    oids: &[Oid],
    at: Pos,
) -> Result<RescueTurn, NoMemory>
    ensures { (p : views.Play (meaning_of K.Registry)) (upto : ℕ) → KeepsView (meaning_of K.Registry) view.now p.view → p.came ≡ ends.Played upto → IfOk result (λ t. told_turn (meaning_of K.Registry) t ≡ told.rescue_played (meaning_of K.Registry) p entries.now oids.now at) }
{
    match commit_at(entries, at) {
        None => Ok(RescueTurn::Absent),
        Some(entry) => {
            let needs = needs_decision(alloc, entries, at, entry)?;
            let verdict = view.outcome(entries, at, entry);
            Ok(judged::<K>(verdict, entry, oids, at, needs))
        }
    }
}

// What a play past the position of a record tells of it.
fn turn<K: Registry>(
    alloc: Global,
    view: &View<K>,
    came: PlayEnd,
    entries: &Entries,
    oids: &[Oid],
    at: Pos,
) -> Result<RescueTurn, NoMemory>
    ensures { (p : views.Play (meaning_of K.Registry)) → KeepsView (meaning_of K.Registry) view.now p.view → came ≡ p.came → IfOk result (λ t. told_turn (meaning_of K.Registry) t ≡ told.rescue_played (meaning_of K.Registry) p entries.now oids.now at) }
{
    match came {
        PlayEnd::Played { .. } => played(alloc, view, entries, oids, at),
        PlayEnd::Blocked { pos, missing } => {
            Ok(blocked::<K>(commit_at(entries, at), oids, pos, missing))
        }
    }
}

// Up to where a play takes in the record at a position, where all entries are below a tail.
fn end_of(at: Pos, tail: Pos) -> Pos
    ensures { result ≡ play_end at tail }
{
    if at < tail {
        return at + 1;
    }
    tail
}

/// A turn of rescuing the record at a position: what a new view over a set of objects tells of it, over the entries
/// of their streams below a tail.
///
/// The view begins and plays as any new view does, the record itself included. Where the play is blocked by an object
/// outside the set, or the record is passed over and a version of such an object is unknown, that object joins the
/// set, which has 128 objects at most. Else it is told whether there is a commit record at the position, and whether
/// it is committed: by its fate in the view, and so by a decision record among the entries before anything else. The
/// entries have a spelling, as those that were read have, so that checkpoints give lawful bases.
///
/// An `Err` is want of memory.
pub fn rescue_turn<K: Registry>(
    alloc: Global,
    entries: &Entries,
    tail: Pos,
    gone: &[(Oid, Pos)],
    oids: &[Oid],
    objects: &[Oid],
    at: Pos,
) -> Result<RescueTurn, NoMemory>
    requires spelled { AreSpelled entries.now }
    requires header { is_header objects.now ≡ true }
    requires below { all_below tail entries.now ≡ true }
    ensures { IfOk result (λ t. told_turn (meaning_of K.Registry) t ≡ told.rescue_turn (meaning_of K.Registry) entries.now gone.now oids.now objects.now at) }
{
    let bases: List<Base<K>> = view_bases(alloc, entries, gone, objects, oids)?;
    let view = View::start(alloc, bases)?;
    let played = view.play(alloc, entries, end_of(at, tail))?;
    turn(alloc, &played.0, played.1, entries, oids, at)
}
