//! What holds of the cells that walks and scans read, in every run.

ghost use Rattle.tg_kind.specs.Of.{meaning_of};
ghost use Rattle.tg_law_walks.specs.Walks.Reading.{ScansReadLog, ScansReadSettled, WalksReadLog, WalksReadSettled};
ghost use Rattle.tg_protocol.specs.Runs.{Always, EachLater};

use tg_kind::Registry;

/// The cell with which a walk ends the reading of a position is settled there.
pub fn walks_read_settled<K: Registry>()
    ensures { Always (meaning_of K.Registry) (WalksReadSettled (meaning_of K.Registry)) }
{}

/// So it is the log's, in this world and in each later one in which no unit of its chain has trimmed the position.
pub fn walks_read_log<K: Registry>()
    ensures { EachLater (meaning_of K.Registry) (WalksReadLog (meaning_of K.Registry)) }
{}

/// The cell with which a sequencer's scan ends the reading of a position is settled there.
pub fn scans_read_settled<K: Registry>()
    ensures { Always (meaning_of K.Registry) (ScansReadSettled (meaning_of K.Registry)) }
{}

/// So it is the log's too, in this world and in each later one in which no unit of its chain has trimmed the position.
pub fn scans_read_log<K: Registry>()
    ensures { EachLater (meaning_of K.Registry) (ScansReadLog (meaning_of K.Registry)) }
{}
