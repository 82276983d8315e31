//! What holds where a step ends the walks of a command.

ghost use Rattle.tg_kind.specs.Of.{meaning_of};
ghost use Rattle.tg_law_walks.specs.Walks.Ends.{WalksExact, StepsExact, SyncsExactWhere};

use tg_kind::Registry;

/// Where all streams are walked, the positions found of each, from where its walk ended up to the tail, are exactly
/// those of the log.
pub fn rounds_are_exact<K: Registry>()
    ensures { WalksExact (meaning_of K.Registry) }
{}

/// A client's walks so far are true of a log, and so is what the answer that it awaits ends in a step: a sync's tail
/// with its lists, or a walk's cell. Then, where the step ends its walks, what they found is exactly the log's.
pub fn steps_are_exact<K: Registry>()
    ensures { StepsExact (meaning_of K.Registry) }
{}

/// So a command's syncs and walks are exact, as it is claimed of every step, where this is so of the log of each later
/// world.
pub fn syncs_are_exact<K: Registry>()
    ensures { SyncsExactWhere (meaning_of K.Registry) }
{}
