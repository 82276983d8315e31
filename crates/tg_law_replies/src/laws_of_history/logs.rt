//! What holds of every log, by its entries alone.

ghost use Rattle.tg_kind.specs.Of.{meaning_of};
ghost use Rattle.tg_law_replies.specs.History.Worlds.{LogsRise, OutcomesAre};
ghost use Rattle.tg_law_replies.specs.History.Laws.{VersionsBelow, VersionsChange, LogAnswersStay, VersionsAreChanges};
ghost use Rattle.tg_law_replies.specs.History.Loading.{StatesLoad};

use tg_kind::Registry;

/// The entries of a world's log stand at rising positions. Of every world, reached by a run or not.
pub fn logs_rise<K: Registry>()
    ensures { LogsRise (meaning_of K.Registry) }
{}

/// The outcome that the entries of a log give a commit record is the one that the log itself tells of its
/// position.
pub fn outcomes_are<K: Registry>()
    ensures { OutcomesAre (meaning_of K.Registry) }
{}

/// The version of a part below a position is at most that position.
pub fn versions_below<K: Registry>()
    ensures { VersionsBelow (meaning_of K.Registry) }
{}

/// From one position to a later one the version of a part stays, or a committed write to it between them made the
/// version that it has then.
pub fn versions_change<K: Registry>()
    ensures { VersionsChange (meaning_of K.Registry) }
{}

/// Where the version of what an ask looks at is the same at two positions, the plain machine answers it the same.
pub fn log_answers_stay<K: Registry>()
    ensures { LogAnswersStay (meaning_of K.Registry) }
{}

/// Where the bytes of every write spell an op, the version of a part is one past the stamp of the last transaction of
/// the history that changed it.
pub fn versions_are_changes<K: Registry>()
    ensures { VersionsAreChanges (meaning_of K.Registry) }
{}

/// The state of an object below any position loads again from what is saved of it, where ops and states of its kind
/// do, and every write of the log that spells an op spells such a one.
pub fn states_load<K: Registry>()
    ensures { StatesLoad (meaning_of K.Registry) }
{}
