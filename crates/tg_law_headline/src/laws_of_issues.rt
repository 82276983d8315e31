//! Positions that requests name, in every run of every cluster: each was issued in the request's epoch, or lies below
//! the start of that epoch's layout, or below a tail that its sequencer told. So what a serving sequencer issues next is
//! written nowhere.
//!
//! Proved for every lawful header and every run of lawful events, where whatever a unit was asked to trim is settled, in
//! the epoch of the trim or before (`TrimsInTime`): a walk goes on in a later epoch below a tail that was confirmed
//! before, and where the last cell below that tail was trimmed, this premise alone says that the later layout starts past
//! it. It is false of kinds whose floors lie past what is committed, and so in the store (`logs_hold` of `tg_law_headline`).

ghost use Rattle.tg_kind.specs.Of.{meaning_of};
ghost use Rattle.tg_law_headline.specs.Issues.Issues.{AlwaysByTrims, NextUnwritten, PositionsBelow};

use tg_kind::Registry;

/// Each position that a request to read, store, fill or copy names was issued in the request's epoch, or lies below the
/// start of its layout, or below a tail that its sequencer told.
pub fn positions_are_issued<K: Registry>()
    ensures { AlwaysByTrims (meaning_of K.Registry) (PositionsBelow (meaning_of K.Registry)) }
{}

/// Where the latest layout's sequencer serves, no unit of a chain that stands in the layout has a cell at the position
/// that this sequencer issues next.
pub fn next_is_unwritten<K: Registry>()
    ensures { AlwaysByTrims (meaning_of K.Registry) (NextUnwritten (meaning_of K.Registry)) }
{}
