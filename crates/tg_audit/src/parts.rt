//! The replies and the entries of a transaction.

ghost use Rattle.std.specs.Prelude.{◌≡◌, ◌≤◌, length, filter, take};
ghost use Rattle.tg_kind.specs.Of.{meaning_of};
ghost use Rattle.tg_audit.specs.Judging as of;
ghost use Rattle.tg_audit.specs.Runs as runs;
ghost use Rattle.tg_model.specs.Stores.{has_stamp};

use crate::index::{Index, key};
use tg_base::Pos;
use tg_kind::Registry;
use tg_model::{DoneOf, MarkOf};

/// Of the first replies, those from a transaction's first to its last.
pub fn marks_of<'a, K: Registry>(
    trace: &'a [MarkOf<K>],
    marks: &Index,
    client: u16,
    tx: u32,
    most: usize,
) -> &'a [MarkOf<K>]
    requires marks { runs.HasMarks (meaning_of K.Registry) trace.now marks.now }
    requires most { most ≤ length trace.now }
    ensures { filter (of.is_of (meaning_of K.Registry) client tx) result.now ≡ filter (of.is_of (meaning_of K.Registry) client tx) (take most trace.now) }
{
    marks.part(trace, key(client, tx), most)
}

/// Of the first entries, those from a transaction's first to its last.
pub fn entries_of<'a, K: Registry>(
    history: &'a [DoneOf<K>],
    entries: &Index,
    client: u16,
    tx: u32,
    most: usize,
) -> &'a [DoneOf<K>]
    requires entries { runs.HasEntries (meaning_of K.Registry) history.now entries.now }
    requires most { most ≤ length history.now }
    ensures { filter (of.entry_of (meaning_of K.Registry) client tx) result.now ≡ filter (of.entry_of (meaning_of K.Registry) client tx) (take most history.now) }
{
    entries.part(history, key(client, tx), most)
}

/// The entries from the first to the last with a stamp.
pub fn stamped_at<'a, K: Registry>(
    history: &'a [DoneOf<K>],
    stamped: &Index,
    stamp: Pos,
) -> &'a [DoneOf<K>]
    requires { runs.HasStamps (meaning_of K.Registry) history.now stamped.now }
    ensures { filter (has_stamp (meaning_of K.Registry) stamp) result.now ≡ filter (has_stamp (meaning_of K.Registry) stamp) history.now }
{
    stamped.part(history, stamp, history.len())
}
