//! What walks have settled, in every run of every cluster in which trims were spare: wherever a step comes to the end of a command's
//! walks, whatever had been issued to a stream that it walked, below the tail and in the tail's epoch, was settled in the epoch in which
//! the client stands, or before. For a walk comes to each such position (`tg_law_syncs::laws_of_settling`), what it reads was settled in time
//! (`tg_law_syncs::laws_of_timely`), and so was what lies below a trim that it met; where it walks from its kept view's `upto` on, an earlier end of
//! walks had settled what lies below.

ghost use Rattle.tg_kind.specs.Of.{meaning_of};
ghost use Rattle.tg_law_headline.specs.Settled.Settled.{WalksSettle};

use tg_kind::Registry;

/// A client at the end of its walks has settled each stream that it walked, up to its tail: whatever was issued to the stream below
/// it, in the epoch of the tail, was settled in the epoch in which the client stands, or before.
pub fn walks_settle<K: Registry>()
    ensures { WalksSettle (meaning_of K.Registry) }
{}
