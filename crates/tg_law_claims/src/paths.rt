//! What clients read: positions on the paths of tails that they were told, and of stripes that they were to copy.

ghost use Rattle.tg_any.specs.AllKinds.{all_kinds};
ghost use Rattle.tg_kind.specs.Of.{meaning_of};
ghost use Rattle.tg_law_claims.specs.Playing.Reads.{ReadsOnPathBySpareTrims};
ghost use Rattle.tg_protocol.specs.Playing.{ReadsOnPath};
ghost use Rattle.tg_protocol.specs.Runs.{AlwaysBy};

use tg_kind::Registry;

/// Whatever position a client ever asked a unit to read is on the path from a tail that it was told, or in a stripe that a copy
/// given to it named, in a layout that was decided for the request's epoch; over any kinds, where trims left what is needed.
pub fn reads_on_path_where<K: Registry>()
    ensures { ReadsOnPathBySpareTrims (meaning_of K.Registry) }
{}

/// So it is in each run of the store.
pub fn reads_on_path()
    ensures { AlwaysBy all_kinds (λ h ms w. ReadsOnPath all_kinds ms w) }
{}
