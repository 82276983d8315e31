//! What holds of the steps of each node, whatever it was before: laws over the definitions of
//! `tg_protocol`, each the contract of an empty function.

ghost use Rattle.tg_kind.specs.Of.{meaning_of};
ghost use Rattle.tg_law_layouts.specs.Steps.Laws.{CellsStay, SealsFence, IssuesOnce, RunsAreCutAnywhere, DrainsEnd, SettlesEnd};

use tg_kind::Registry;

/// A storage unit's cells are written once: a cell that a unit has, and doesn't trim, stays as it is,
/// whatever the unit is asked.
pub fn cells_stay()
    ensures { CellsStay }
{}

/// A seal fences: once a unit stands at an epoch, whatever it is asked in between, a request of a lesser
/// epoch changes nothing and is answered by the epoch at which the unit stands.
pub fn seals_fence()
    ensures { SealsFence }
{}

/// A sequencer issues each position once in an epoch, and later ones are greater.
pub fn issues_once()
    ensures { IssuesOnce }
{}

/// A run of several lines is the run of the first ones, and then of the others from there on.
pub fn runs_are_cut_anywhere<K: Registry>()
    ensures { RunsAreCutAnywhere (meaning_of K.Registry) }
{}

/// A drain that no limit stopped leaves no packet that was neither delivered nor lost.
pub fn drains_end<K: Registry>()
    ensures { DrainsEnd (meaning_of K.Registry) }
{}

/// A settling, which is a drain and up to eight rounds of ticks with a drain, leaves no such packet
/// either where no limit stopped it.
pub fn settles_end<K: Registry>()
    ensures { SettlesEnd (meaning_of K.Registry) }
{}
