//! What clients find, by exact walks: where the walks of a command are exact, the client has found what it needs to tell and
//! write the truth, but for four facts, which are named. Over the definitions of `tg_protocol`, for the kinds of any
//! implementation.

ghost use Rattle.tg_kind.specs.Of.{meaning_of};
ghost use Rattle.tg_law_syncs.specs.Finds.Laws.{ClientsFindWhere, RoundsFind};

use tg_kind::Registry;

/// A client whose streams are walked, exactly, has found what it needs: where its entries were begun, its tail is past
/// what its bases save, and its kept view left no record without a fate that its entries don't decide.
pub fn rounds_find<K: Registry>()
    ensures { RoundsFind (meaning_of K.Registry) }
{}

/// So the clients of a run find what they need, where in each step their walks are exact of the log that the run ends
/// with, and what they know is the log's at hand; where entries of each log on the way were begun by their clients; where
/// no checkpoint saves more than what stands below it; and where kept views have bases up to the tail, left no record
/// without a fate that the entries don't decide, and saved states load.
pub fn clients_find<K: Registry>()
    ensures { ClientsFindWhere (meaning_of K.Registry) }
{}
