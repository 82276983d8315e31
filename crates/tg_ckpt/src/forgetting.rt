//! Whether what is below a mark may be forgotten.

ghost use Rattle.std.specs.Prelude.{◌≡◌, ◌&&◌, not, nat_lt, is_some, ℕ, List, IfOk};
ghost use Rattle.tg_entry.specs.Needs.{needs_decision};
ghost use Rattle.tg_entry.specs.declared.entry.Entry.{Entry};
ghost use Rattle.tg_kind.specs.Of.{meaning_of};
ghost use Rattle.tg_play.specs.Kept.{at_position, decisions_kept};
ghost use Rattle.tg_protocol.specs.Checkpoints as told;
ghost use Rattle.tg_protocol.specs.Entries.{lists};
ghost use Rattle.tg_ckpt.specs.Answers.{Closes, Forgets};

use crate::bases::load_from;
use crate::fault::ForgetFault;
use std::alloc::Global;
use std::collections::BTreeMap;
use tg_base::{NoMemory, Oid, Pos};
use tg_entry::{Entries, Entry};
use tg_kind::Registry;
use tg_play::{decision_at, decisions_of, lacks_decision};

// Whether the entry stands in the object's stream.
fn is_listed(entry: &Entry, oid: Oid) -> bool
    ensures { result ≡ lists entry.now oid }
{
    let streams = entry.head.streams.as_slice();
    streams.iter().any(|link| link.oid.0 == oid.0)
}

// Whether an entry below the mark, in the object's stream, needs a decision record that there isn't.
fn is_open(decisions: &BTreeMap<Pos, bool>, pos: Pos, entry: &Entry, oid: Oid, mark: Pos) -> bool
    ensures { result ≡ (nat_lt pos mark && (lists entry.now oid && (needs_decision entry.now && not (is_some (at_position decisions.now.entries pos))))) }
{
    pos < mark && (is_listed(entry, oid) && lacks_decision(entry, decision_at(decisions, pos)))
}

// The position of the first such entry.
fn first_open(
    decisions: &BTreeMap<Pos, bool>,
    entries: &[(Pos, Entry)],
    oid: Oid,
    mark: Pos,
) -> Option<Pos>
    ensures { (es : List (ℕ × Entry)) → decisions.now.entries ≡ decisions_kept es → result ≡ told.open_decision es entries.now oid mark }
{
    for placed in entries {
        if is_open(decisions, placed.0, &placed.1, oid, mark) {
            return Some(placed.0);
        }
    }
    None
}

// The position of the least record below the mark, in the object's stream, that needs a decision record and has none.
// An `Err` is want of memory.
fn open_decision(
    alloc: Global,
    entries: &[(Pos, Entry)],
    oid: Oid,
    mark: Pos,
) -> Result<Option<Pos>, NoMemory>
    ensures { IfOk result (λ p. p ≡ told.open_decision entries.now entries.now oid mark) }
{
    let decisions = decisions_of(alloc, entries)?;
    Ok(first_open(&decisions, entries, oid, mark))
}

// Whether no such record is there.
fn all_decided(
    alloc: Global,
    entries: &[(Pos, Entry)],
    oid: Oid,
    mark: Pos,
) -> Result<(), ForgetFault>
    ensures { Closes result (told.open_decision entries.now entries.now oid mark) }
{
    let open = open_decision(alloc, entries, oid, mark)?;
    match open {
        None => Ok(()),
        Some(pos) => Err(ForgetFault::OpenDecision { pos }),
    }
}

/// Whether what is below a mark may be forgotten of an object, over the entries below a tail.
///
/// `NoCheckpoint` comes exactly where no checkpoint of the object reaches the mark, by [`load_from`]. Else
/// `OpenDecision` comes exactly where a record below the mark, in the object's stream, needs a decision record that
/// isn't among the entries, with the least position of such a record.
pub fn may_forget<K: Registry>(
    alloc: Global,
    entries: &Entries,
    oid: Oid,
    mark: Pos,
) -> Result<(), ForgetFault>
    ensures { Forgets (meaning_of K.Registry) oid result (told.may_forget (meaning_of K.Registry) entries.now oid mark) }
{
    load_from::<K>(alloc, entries, oid, mark)?;
    all_decided(alloc, entries.as_slice(), oid, mark)
}
