//! The log and its entries, in every run of every cluster, whatever was lost, repeated or stopped: the log has exactly
//! the settled cells, trimmed or not, and so what it has stays.
//!
//! Proved for every lawful header and every run of lawful events, with one more premise: that units were asked to trim
//! only what was in the log when they were asked. A worked run that trims meets it, and a run over kinds of another make
//! shows that the log doesn't keep its cells without it.

ghost use Rattle.tg_kind.specs.Of.{meaning_of};
ghost use Rattle.tg_law_cells.specs.Entries.Archive.{AlwaysBySafeTrims, EachLaterBySafeTrims, LogIsOne, LogIsSettled, TrimmedInLog};
ghost use Rattle.tg_law_cells.specs.Entries.Refuted.{CellsWantSafeTrims};
ghost use Rattle.tg_law_cells.specs.Entries.Worked.{WorkedTrim};
ghost use Rattle.tg_protocol.specs.Holding.{LogStays};

use tg_kind::Registry;

/// What the log has it has in every later world, where trims were safe.
pub fn cells_stay<K: Registry>()
    ensures { EachLaterBySafeTrims (meaning_of K.Registry) (LogStays (meaning_of K.Registry)) }
{}

/// Nor has it another cell there, then or in a later world.
pub fn one_cell<K: Registry>()
    ensures { EachLaterBySafeTrims (meaning_of K.Registry) (LogIsOne (meaning_of K.Registry)) }
{}

/// The log has exactly the cells that every unit of a decided layout's chain has told, where trims were safe.
pub fn log_is_settled<K: Registry>()
    ensures { AlwaysBySafeTrims (meaning_of K.Registry) (LogIsSettled (meaning_of K.Registry)) }
{}

/// What a unit has trimmed is in the log, where trims were safe.
pub fn trimmed_is_in_log<K: Registry>()
    ensures { AlwaysBySafeTrims (meaning_of K.Registry) (TrimmedInLog (meaning_of K.Registry)) }
{}

/// A run in which a client commits, another sequencer takes over from the first, a unit is dropped and what was
/// committed is trimmed is one for which these laws ask no more than it has; and the log has the same cell before and
/// after.
pub fn trim_is_safe()
    ensures { WorkedTrim }
{}

/// Over kinds whose floor is past what is settled, the log doesn't keep its cells: so the premise is wanted, or one on
/// kinds that gives it.
pub fn cells_want_safe_trims()
    ensures { CellsWantSafeTrims }
{}
