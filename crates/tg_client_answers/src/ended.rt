//! What becomes of the record of a transaction that ends.

ghost use Rattle.std.specs.Prelude.{◌≡◌, IfOk};
ghost use Rattle.tg_kind.specs.Of.{meaning_of};
ghost use Rattle.tg_protocol.specs.Answers as told;
ghost use Rattle.tg_protocol.specs.Clients.{Client, Work};
ghost use Rattle.tg_entry.specs.Needs.{reads_of};
ghost use Rattle.tg_vers.specs.Kept.{changed_of};
ghost use Rattle.tg_protocol.specs.Views as views;
ghost use Rattle.tg_play.specs.Relations.{KeepsView};
ghost use Rattle.tg_client_answers.specs.Fates.{changed_said, aborts_said, end_told};

use crate::records::reads_of;
use tg_base::{NoMemory, Pos, ReadMark};
use tg_entry::{Entries, Entry};
use tg_kind::Registry;
use tg_model::{What, WhatOf};
use tg_play::{Verdict, View};

// The answer that a record isn't committed, since this read has another version by now. An `Err` is want of memory.
fn aborted<K: Registry>(at: Pos, read: &ReadMark, now: u64) -> Result<WhatOf<K>, NoMemory>
    ensures { IfOk result (λ x. x ≡ told.aborted (meaning_of K.Registry) at (record { read = read.now; now = now })) }
{
    Ok(What::Aborted {
        at,
        oid: read.oid,
        part: read.part.copy()?,
        seen: read.version,
        now,
    })
}

// The same by the read's index, None where there is no such read. An `Err` is want of memory.
fn aborted_by<K: Registry>(
    at: Pos,
    reads: &[ReadMark],
    changed: Option<(usize, u64)>,
) -> Result<Option<WhatOf<K>>, NoMemory>
    ensures { IfOk result (λ x. x ≡ changed_said (meaning_of K.Registry) at (changed_of reads.now changed)) }
{
    match changed {
        None => Ok(None),
        Some((index, now)) => match reads.get(index) {
            None => Ok(None),
            Some(read) => Ok(Some(aborted::<K>(at, read, now)?)),
        },
    }
}

// The answer that a record isn't committed, None where it is unknown which read has changed. An `Err` is want of memory.
fn abort<K: Registry>(view: &View<K>, at: Pos, entry: &Entry) -> Result<Option<WhatOf<K>>, NoMemory>
    ensures { (v : views.View (meaning_of K.Registry)) → KeepsView (meaning_of K.Registry) view.now v → IfOk result (λ x. x ≡ aborts_said (meaning_of K.Registry) at (views.unknown_in (meaning_of K.Registry) v (reads_of entry.now) at) (views.changed_in (meaning_of K.Registry) v (reads_of entry.now) at)) }
{
    let reads = reads_of(entry);
    match view.unknown(reads, at) {
        Some(_) => Ok(None),
        None => aborted_by::<K>(at, reads, view.changed(reads, at)),
    }
}

/// Whether the record that `end` appended is committed, and the answer; None where that is unknown. An `Err` is want of
/// memory.
pub fn ended<K: Registry>(
    view: &View<K>,
    entries: &Entries,
    at: Pos,
    entry: &Entry,
) -> Result<Option<(bool, WhatOf<K>)>, NoMemory>
    ensures { (c : Client (meaning_of K.Registry)) (w : Work (meaning_of K.Registry)) (v : views.View (meaning_of K.Registry)) → KeepsView (meaning_of K.Registry) view.now v → IfOk result (λ x. end_told (meaning_of K.Registry) c w entries.now at entry.now x ≡ told.end_by (meaning_of K.Registry) c w entries.now v entry.now at (views.verdict (meaning_of K.Registry) v entries.now at entry.now)) }
{
    match view.verdict(entries, at, entry) {
        Verdict::Commits => Ok(Some((true, What::Committed { at }))),
        Verdict::Aborts => match abort(view, at, entry)? {
            None => Ok(None),
            Some(what) => Ok(Some((false, what))),
        },
        Verdict::Unknown(_) => Ok(None),
    }
}
