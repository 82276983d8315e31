//! Where trims come from, and what was settled when walks met them, in every run of every cluster.

ghost use Rattle.tg_kind.specs.Of.{meaning_of};
ghost use Rattle.tg_law_headline.specs.Trimming.Decided.{MetDecidedWhere};
ghost use Rattle.tg_law_headline.specs.Trimming.Trimming.{TrimsComeOfFloors, WalksMeetToldTrims};

use tg_kind::Registry;

/// Whatever a unit was ever asked to trim lies below a floor that a client told which trimmed, in the epoch of the trim or before.
pub fn trims_come_of_floors<K: Registry>()
    ensures { TrimsComeOfFloors (meaning_of K.Registry) }
{}

/// So does each trim that the walks of a command met, by the step that comes to their end, in an epoch up to that in which the client
/// stands.
pub fn walks_meet_told_trims<K: Registry>()
    ensures { WalksMeetToldTrims (meaning_of K.Registry) }
{}

/// What had its decision settled when a client had no work, after its walk had met a trim, has it below the tail of a later command of
/// the client's.
pub fn met_decided_where<K: Registry>()
    ensures { MetDecidedWhere (meaning_of K.Registry) }
{}
