//! What follows what: a record stands at or past where its transaction asked, a checkpoint at or past what it saves, and
//! what replies tell of them stands in the log.
//!
//! Proved for every lawful header and every run of lawful events in which trims were spare.

ghost use Rattle.tg_kind.specs.Of.{meaning_of};
ghost use Rattle.tg_law_syncs.specs.Follow.Laws.{AppendsEndBySpareTrims, AsksPrecedeBySpareTrims, ClientsFindBySpareTrims, RepliesRecordedBySpareTrims, RunsLegalBySpareTrims, SavesPrecedeBySpareTrims};

use tg_kind::Registry;

/// A commit record stands at or past the position at which its transaction's asks were answered.
pub fn records_follow_asks<K: Registry>()
    ensures { AsksPrecedeBySpareTrims (meaning_of K.Registry) }
{}

/// A checkpoint saves no more than what stands below it, where each entry was begun by its client.
pub fn saves_stay_below<K: Registry>()
    ensures { SavesPrecedeBySpareTrims (meaning_of K.Registry) }
{}

/// So the clients of a run find what they need, where in each step their walks are exact of the log that the run ends with, and
/// what they know is the log's at hand; where entries of each log on the way were begun by their clients; and where kept views
/// have bases up to the tail, left no record without a fate that the entries don't decide, and saved states load.
pub fn clients_find<K: Registry>()
    ensures { ClientsFindBySpareTrims (meaning_of K.Registry) }
{}

/// An append that ends stands where it says, where those of checkpoints do: of kinds whose ops touch what no part is, a
/// checkpoint may be read back with other parts.
pub fn appends_land<K: Registry>()
    ensures { AppendsEndBySpareTrims (meaning_of K.Registry) }
{}

/// What replies tell of a transaction's record, or of a checkpoint, stands in the log where they say, where a checkpoint whose
/// append ends does.
pub fn replies_recorded<K: Registry>()
    ensures { RepliesRecordedBySpareTrims (meaning_of K.Registry) }
{}

/// So a run is legal where its clients find what they need of the log that it ends with, a checkpoint whose append ends stands
/// where it says, each checkpoint was begun by its client, and no place of a transaction precedes a reply that came before its
/// beginning.
pub fn runs_legal<K: Registry>()
    ensures { RunsLegalBySpareTrims (meaning_of K.Registry) }
{}
