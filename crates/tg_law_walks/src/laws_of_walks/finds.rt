//! What a client has where all streams of its command are walked.

ghost use Rattle.tg_kind.specs.Of.{meaning_of};
ghost use Rattle.tg_law_walks.specs.Walks.Finding.{RoundsFindAll, RoundsFindMore};

use tg_kind::Registry;

/// Where it keeps no view, or its command leaves the kept view alone, its entries are all of the log's below the tail,
/// down to where the walk of each stream met a trim; and where no checkpoint among them reaches that trim, nothing of
/// the stream stands below it.
pub fn rounds_find_all<K: Registry>()
    ensures { RoundsFindAll (meaning_of K.Registry) }
{}

/// With a kept view, none of its streams' entries lacks below the tail, from where the view stands on.
pub fn rounds_find_more<K: Registry>()
    ensures { RoundsFindMore (meaning_of K.Registry) }
{}
