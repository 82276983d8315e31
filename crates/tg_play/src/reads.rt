//! The reads of a record.

ghost use Rattle.std.specs.Prelude.{◌≡◌, is_some, if◌then◌else◌};
ghost use Rattle.tg_kind.specs.Of.{meaning_of};
ghost use Rattle.tg_entry.specs.declared.entry.Entry.{Entry};
ghost use Rattle.tg_entry.specs.Needs.{reads_of};
ghost use Rattle.tg_protocol.specs.Views as told;
ghost use Rattle.tg_vers.specs.Kept.{first_other};
ghost use Rattle.tg_play.specs.Relations.{KeepsObjects, told_verdict};

use crate::hosted::Hosted;
use crate::objects::{is_unknown, version_at};
use crate::verdict::Verdict;
use std::collections::BTreeMap;
use tg_base::{Oid, Pos, ReadMark};
use tg_kind::Registry;

/// The object of the first read whose version at a position isn't known, and so the least such object.
/// It takes no memory.
pub fn unknown<K: Registry>(
    objects: &BTreeMap<Oid, Hosted<K>>,
    reads: &[ReadMark],
    pos: Pos,
) -> Option<Oid>
    ensures { (v : told.View (meaning_of K.Registry)) → KeepsObjects (meaning_of K.Registry) objects.now.entries v → result ≡ told.unknown_in (meaning_of K.Registry) v reads.now pos }
{
    match reads {
        [] => None,
        [read, rest @ ..] => {
            if is_unknown(objects, read, pos) {
                return Some(read.oid);
            }
            unknown(objects, rest, pos)
        }
    }
}

/// The index, from 0, of the first read that has another version at a position, with that version.
/// It takes no memory.
pub fn changed<K: Registry>(
    objects: &BTreeMap<Oid, Hosted<K>>,
    reads: &[ReadMark],
    pos: Pos,
) -> Option<(usize, u64)>
    ensures { (v : told.View (meaning_of K.Registry)) → KeepsObjects (meaning_of K.Registry) objects.now.entries v → result ≡ first_other (told.version_at (meaning_of K.Registry) v pos) reads.now }
{
    for (index, read) in reads.iter().enumerate() {
        let now = version_at(objects, read, pos);
        if now != read.version {
            return Some((index, now));
        }
    }
    None
}

// Whether a read has another version at a position. It takes no memory.
fn is_changed<K: Registry>(objects: &BTreeMap<Oid, Hosted<K>>, reads: &[ReadMark], pos: Pos) -> bool
    ensures { (v : told.View (meaning_of K.Registry)) → KeepsObjects (meaning_of K.Registry) objects.now.entries v → result ≡ is_some (told.changed_in (meaning_of K.Registry) v reads.now pos) }
{
    match reads {
        [] => false,
        [read, rest @ ..] => {
            if version_at(objects, read, pos) != read.version {
                return true;
            }
            is_changed(objects, rest, pos)
        }
    }
}

// What the versions of the reads say. It takes no memory.
fn by_versions<K: Registry>(
    objects: &BTreeMap<Oid, Hosted<K>>,
    reads: &[ReadMark],
    pos: Pos,
) -> Verdict
    ensures { (v : told.View (meaning_of K.Registry)) → KeepsObjects (meaning_of K.Registry) objects.now.entries v → told_verdict result ≡ told.by_versions (meaning_of K.Registry) v reads.now pos (told.unknown_in (meaning_of K.Registry) v reads.now pos) }
{
    match unknown(objects, reads, pos) {
        Some(missing) => Verdict::Unknown(missing),
        None => by_changes(is_changed(objects, reads, pos)),
    }
}

fn by_changes(changed: bool) -> Verdict
    ensures { told_verdict result ≡ (if changed then told.Aborts else told.Commits) }
{
    if changed {
        return Verdict::Aborts;
    }
    Verdict::Commits
}

/// What becomes of the record at a position: what the decision record for it says, if there is one, and else what
/// the versions of its reads say. It takes no memory.
pub fn verdict<K: Registry>(
    objects: &BTreeMap<Oid, Hosted<K>>,
    decision: Option<bool>,
    reads: &[ReadMark],
    pos: Pos,
) -> Verdict
    ensures { (v : told.View (meaning_of K.Registry)) (e : Entry) → KeepsObjects (meaning_of K.Registry) objects.now.entries v → reads_of e ≡ reads.now → told_verdict result ≡ told.by_decision (meaning_of K.Registry) v e pos decision }
{
    match decision {
        Some(true) => Verdict::Commits,
        Some(false) => Verdict::Aborts,
        None => by_versions(objects, reads, pos),
    }
}
