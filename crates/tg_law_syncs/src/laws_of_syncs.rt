//! What syncs and walks end with, in every run of every cluster in which trims leave what is needed. A sync that isn't
//! refused confirms a tail with lists that lack none of the log's entries below it that they tell of, for each of its
//! streams; and the cell with which a walk ends the reading of a position is the log's.
//!
//! The premise is that of `tg_law_walks::laws_of_lists`: `TrimsWereSpare`. What is left to be shown of syncs and walks is of clients
//! alone: that what they know stays the log's, that a tail lies past what a client has played and appended, and that a
//! trim which was known before a sync left each stream a save below its tail.

mod worked;

ghost use Rattle.tg_kind.specs.Of.{meaning_of};
ghost use Rattle.tg_law_walks.specs.Lists.Lists.{EachLaterBySpareTrims};
ghost use Rattle.tg_law_syncs.specs.Syncs.Syncs.{SyncsConfirm, WalksRead};

use tg_kind::Registry;
pub use worked::scan_is_done;

/// A sync ends with lists that are true of the log below its tail, then and later, and with the log's last cell there.
pub fn syncs_confirm<K: Registry>()
    ensures { EachLaterBySpareTrims (meaning_of K.Registry) (SyncsConfirm (meaning_of K.Registry)) }
{}

/// A walk reads the log's cells.
pub fn walks_read<K: Registry>()
    ensures { EachLaterBySpareTrims (meaning_of K.Registry) (WalksRead (meaning_of K.Registry)) }
{}
