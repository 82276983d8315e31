//! What a client's kept view leaves behind, in every run of every cluster in which trims leave what is needed: a record of a
//! hosted stream that the view went past has a fate, unless the view doesn't know what it reads, or an earlier walk of the client's
//! met a trim above it in the stream; and a record of the client's own has one, unless the view doesn't know what it reads. So a kept view leaves
//! `fate` and `decide` no record without a fate that their entries don't decide, where those decide what it went past below such a
//! trim.
//!
//! The premise is that of `tg_law_walks::laws_of_lists`: `TrimsWereSpare`.

ghost use Rattle.tg_kind.specs.Of.{meaning_of};
ghost use Rattle.tg_law_headline.specs.Leaves.Passed.{OwnsPassBySpareTrims, TrimsRestWhere, ViewsLeaveNoneWhere, ViewsPassBySpareTrims};

use tg_kind::Registry;

/// A record of a hosted stream that a kept view went past, of which it knows all reads there, has a fate, or stands below a trim
/// that an earlier walk of the client's met in the stream.
pub fn views_pass<K: Registry>()
    ensures { ViewsPassBySpareTrims (meaning_of K.Registry) }
{}

/// A record of the client's own that a kept view went past, of which it knows all reads there, has a fate.
pub fn owns_pass<K: Registry>()
    ensures { OwnsPassBySpareTrims (meaning_of K.Registry) }
{}

/// So a kept view leaves none without a fate that the entries of `fate` and `decide` don't decide, where they decide what was
/// trimmed.
pub fn views_leave_none<K: Registry>()
    ensures { ViewsLeaveNoneWhere (meaning_of K.Registry) }
{}

/// What an earlier walk of the client's met a trim above has its decision among the entries, where the log has one below the tail.
pub fn trims_rest<K: Registry>()
    ensures { TrimsRestWhere (meaning_of K.Registry) }
{}
