//! When clients came to know of the log, in every run of every cluster in which trims were spare: each cell that a client knows was
//! settled in the epoch in which the client stands, or before; and the epoch in which a client stands never falls.
//!
//! The premise is that of `tg_law_walks::laws_of_lists`: `TrimsWereSpare`.

ghost use Rattle.tg_kind.specs.Of.{meaning_of};
ghost use Rattle.tg_law_walks.specs.Lists.Lists.{EachLaterBySpareTrims};
ghost use Rattle.tg_law_syncs.specs.Timely.Timely.{KnownIsInTime, StandsRise, WalksKnowInTime};
ghost use Rattle.tg_protocol.specs.Runs.{EachLater};

use tg_kind::Registry;

/// Each cell that a client knows, while it walks too, was settled in the epoch in which the client stands, or before.
pub fn known_is_in_time<K: Registry>()
    ensures { EachLaterBySpareTrims (meaning_of K.Registry) (KnownIsInTime (meaning_of K.Registry)) }
{}

/// So it is wherever a step comes to the end of a command's walks, of the client there.
pub fn walks_know_in_time<K: Registry>()
    ensures { WalksKnowInTime (meaning_of K.Registry) }
{}

/// The epoch in which a client stands never falls.
pub fn stands_rise<K: Registry>()
    ensures { EachLater (meaning_of K.Registry) (StandsRise (meaning_of K.Registry)) }
{}
