//! What walks settle of a stream: each position that was issued to it in the epoch of their tail, whether an entry came to stand
//! there or not. For a walk reads what it comes to, and fills what it finds unwritten.
//!
//! Here is that the lists by which walks go are full: those told with a tail, and those of entries, miss of what was issued to a
//! stream only what four later ones have pushed out (`told_lists_are_full`, `tails_are_full`, `entries_are_full`); and that a walk
//! which goes by such lists ends with a cell of each position that was issued, from its `lo` on or from where it met a trim
//! (`walks_visit`, `walks_visit_on`, `walks_visit_again`). That clients walk so is `walks_settle` of `tg_law_headline`.

mod visits;

ghost use Rattle.tg_kind.specs.Of.{meaning_of};
ghost use Rattle.tg_law_walks.specs.Lists.Telling.{AlwaysBySpareTrims};
ghost use Rattle.tg_law_syncs.specs.Settling.Listing.{ToldListsFull};
ghost use Rattle.tg_law_syncs.specs.Settling.Visits.{EntriesFull, TailsFull};
ghost use Rattle.tg_protocol.specs.Runs.{Always};

use tg_kind::Registry;
pub use visits::{walks_visit, walks_visit_again, walks_visit_on};

/// The list of a stream that a sequencer tells, with a position that it issues or with its tail, misses of all that it has issued
/// to the stream in the epoch below that position only what four later ones have pushed out.
pub fn told_lists_are_full<K: Registry>()
    ensures { Always (meaning_of K.Registry) (ToldListsFull (meaning_of K.Registry)) }
{}

/// Where trims were spare: below a confirmed tail, the own list of each of the log's entries is full of what was issued to its
/// stream in the tail's epoch.
pub fn entries_are_full<K: Registry>()
    ensures { AlwaysBySpareTrims (meaning_of K.Registry) (EntriesFull (meaning_of K.Registry)) }
{}

/// And so are the lists that the epoch's sequencer told with the tail. So a walk from them comes to all that was issued to its
/// stream in the epoch (`walks_visit`).
pub fn tails_are_full<K: Registry>()
    ensures { AlwaysBySpareTrims (meaning_of K.Registry) (TailsFull (meaning_of K.Registry)) }
{}
