//! What clients know of the log, in every run of every cluster in which trims leave what is needed: each cell that a client
//! knows is the log's, then and later, through all that it does; and each tail that a sync confirms is past what the client
//! has played and appended, and past what trims have left of each stream.
//!
//! The premise is that of `tg_law_walks::laws_of_lists`: `TrimsWereSpare`.

ghost use Rattle.tg_kind.specs.Of.{meaning_of};
ghost use Rattle.tg_law_syncs.specs.Known.Known.{KnownIsTheLogs};
ghost use Rattle.tg_law_syncs.specs.Known.Tails.{TailsAreConfirmed};
ghost use Rattle.tg_law_walks.specs.Lists.Lists.{EachLaterBySpareTrims};

use tg_kind::Registry;

/// What a client knows of the log is the log's, then and later.
pub fn known_is_the_logs<K: Registry>()
    ensures { EachLaterBySpareTrims (meaning_of K.Registry) (KnownIsTheLogs (meaning_of K.Registry)) }
{}

/// What a sync ends with is confirmed for the walks that come after it: true of the log, past what its client has played and
/// appended, and past what each trim that it knew of has left of a stream.
pub fn tails_are_confirmed<K: Registry>()
    ensures { EachLaterBySpareTrims (meaning_of K.Registry) (TailsAreConfirmed (meaning_of K.Registry)) }
{}
