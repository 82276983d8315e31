//! Spans of transactions: whatever is told or stands of a transaction that was begun after a world is new after it, so its places
//! aren't below the points of what was told there (`tg_law_cells::laws_of_places`).

ghost use Rattle.tg_kind.specs.Of.{meaning_of};
ghost use Rattle.tg_law_cells.specs.Order.Tails.{EachPassed};
ghost use Rattle.tg_law_headline.specs.Spans.Begun.{BeginsApart, EachPassedBySafeTrims, PlacesNew, RecordsNew, SnapshotsNew};
ghost use Rattle.tg_protocol.specs.Runs.{AlwaysBy};

use tg_kind::Registry;

/// The record of a transaction stands where a page is settled each of whose tokens was issued after the transaction was begun.
pub fn records_are_new<K: Registry>()
    ensures { EachPassedBySafeTrims (meaning_of K.Registry) (RecordsNew (meaning_of K.Registry)) }
{}

/// A transaction is answered at a tail that was told after it was begun, by the sequencer of a decided layout of which a whole
/// chain has served requests since.
pub fn snapshots_are_new<K: Registry>()
    ensures { EachPassed (meaning_of K.Registry) (SnapshotsNew (meaning_of K.Registry)) }
{}

/// So each place of a transaction is new after each world in which it wasn't begun.
pub fn places_are_new<K: Registry>()
    ensures { EachPassedBySafeTrims (meaning_of K.Registry) (PlacesNew (meaning_of K.Registry)) }
{}

/// The replies before the beginning of a transaction are those of a world through which the run came, in which it wasn't begun.
pub fn begins_are_apart<K: Registry>()
    ensures { AlwaysBy (meaning_of K.Registry) (BeginsApart (meaning_of K.Registry)) }
{}
