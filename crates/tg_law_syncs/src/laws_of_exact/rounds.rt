//! What exact syncs give of what clients find, in every run.

ghost use Rattle.tg_kind.specs.Of.{meaning_of};
ghost use Rattle.tg_law_syncs.specs.Exact.Finds.{ClientsFindWhereOwn, PassesOwnWhere, RoundsExactBySpareTrims, RoundsKnownBySpareTrims, ViewsBelowBySpareTrims, ViewsFitWhere};

use tg_kind::Registry;

/// Wherever a step comes to the end of a command's walks, they are exact, by the log that the run ends with.
pub fn rounds_are_exact<K: Registry>()
    ensures { RoundsExactBySpareTrims (meaning_of K.Registry) }
{}

/// And the cells that the client knows there are the log's at hand.
pub fn rounds_are_known<K: Registry>()
    ensures { RoundsKnownBySpareTrims (meaning_of K.Registry) }
{}

/// And no base of a kept view is past the tail there, where no checkpoint saves more than what stands below it.
pub fn views_are_below<K: Registry>()
    ensures { ViewsBelowBySpareTrims (meaning_of K.Registry) }
{}

/// So the clients of a run find what they need, where entries of each log on the way were begun by their clients, no checkpoint
/// saves more than what stands below it, and what is left holds of what kept views have gone past and of states to be saved.
pub fn clients_find<K: Registry>()
    ensures { ClientsFindWhereOwn (meaning_of K.Registry) }
{}

/// Of kinds whose states load from what is saved of them, it is left of kept views alone: that they leave `fate` and `decide` no
/// record without a fate that the entries don't decide.
pub fn views_fit<K: Registry>()
    ensures { ViewsFitWhere (meaning_of K.Registry) }
{}

/// Entries of the log of each world on the way were begun by their clients, where its checkpoints were.
pub fn passes_own<K: Registry>()
    ensures { PassesOwnWhere (meaning_of K.Registry) }
{}
