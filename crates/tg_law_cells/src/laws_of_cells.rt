//! Cells, in every run of every cluster, whatever was lost, repeated or stopped. What is stored went down the chain of
//! a decided layout, one unit after the other. A cell that every unit of such a chain has told is settled: no unit of
//! a later layout's chain has another, and where none has trimmed it the log has it. A unit that joins a chain in a
//! reconfiguration told the stripe's cells before, or has trimmed them.
//!
//! Proved for every lawful header and every run of lawful events, with no other premise. Nothing is said here of the
//! archive, which keeps what units have trimmed.

ghost use Rattle.tg_kind.specs.Of.{meaning_of};
ghost use Rattle.tg_law_cells.specs.Cells.Chains.{StoresJustified};
ghost use Rattle.tg_law_cells.specs.Cells.Settled.{ChainKept, HeadsHave, JoinsTold, JoinsWhole, LastSettles, SettledHeld, SettledInLog, SettledKept, SettledOnce, SettledTold};
ghost use Rattle.tg_protocol.specs.Runs.{Always, EachLater};

use tg_kind::Registry;

/// A page, a cell or junk goes to a unit only where the units before it in a decided layout's chain have told it, a
/// copied cell only to one after the first; or, to a spare unit, where the chain's last unit has told it.
pub fn stores_are_justified<K: Registry>()
    ensures { Always (meaning_of K.Registry) (StoresJustified (meaning_of K.Registry)) }
{}

/// What a unit that joins the chain of a position has told of it, it told before the layout's epoch too.
pub fn joins_tell_old_cells<K: Registry>()
    ensures { Always (meaning_of K.Registry) (JoinsTold (meaning_of K.Registry)) }
{}

/// A unit that joins the chain of a position told its cell before the layout's epoch, or has trimmed it.
pub fn joins_are_whole<K: Registry>()
    ensures { Always (meaning_of K.Registry) (JoinsWhole (meaning_of K.Registry)) }
{}

/// What the last unit of a decided layout's chain has told, in its epoch or before, is settled.
pub fn last_unit_settles<K: Registry>()
    ensures { Always (meaning_of K.Registry) (LastSettles (meaning_of K.Registry)) }
{}

/// No unit of a later layout's chain tells another cell than a settled one.
pub fn units_tell_settled<K: Registry>()
    ensures { EachLater (meaning_of K.Registry) (SettledTold (meaning_of K.Registry)) }
{}

/// A position has one settled cell, in a world and all later ones.
pub fn one_is_settled<K: Registry>()
    ensures { EachLater (meaning_of K.Registry) (SettledOnce (meaning_of K.Registry)) }
{}

/// No unit of a later layout's chain has another cell than a settled one.
pub fn units_have_no_other<K: Registry>()
    ensures { EachLater (meaning_of K.Registry) (SettledKept (meaning_of K.Registry)) }
{}

/// Nor has a later layout's whole chain.
pub fn chains_have_no_other<K: Registry>()
    ensures { EachLater (meaning_of K.Registry) (ChainKept (meaning_of K.Registry)) }
{}

/// Each unit of a later layout's chain has a settled cell, or has trimmed it.
pub fn settled_is_held<K: Registry>()
    ensures { EachLater (meaning_of K.Registry) (SettledHeld (meaning_of K.Registry)) }
{}

/// A settled cell that no unit of the chain has trimmed is in the log.
pub fn settled_is_in_log<K: Registry>()
    ensures { EachLater (meaning_of K.Registry) (SettledInLog (meaning_of K.Registry)) }
{}

/// What a unit of a decided layout's chain has, and the unit hasn't passed the layout's epoch, the chain's first unit
/// has too, or has trimmed it.
pub fn heads_have_cells<K: Registry>()
    ensures { Always (meaning_of K.Registry) (HeadsHave (meaning_of K.Registry)) }
{}
