//! What each step of a world may do, for proofs over whole runs: five moves (nothing, a unit's turn, a layout
//! server's, a sequencer's, a client's), what no step takes back, and what a client's turn asks and how it goes
//! on. The world of a script is that of a run, and that is proved of every script.

ghost use Rattle.tg_kind.specs.Of.{meaning_of};
ghost use Rattle.tg_law_layouts.specs.Moves.After.{ScriptsAreRuns};

use tg_kind::Registry;

/// The world that a script makes, with its drains and settlings, is one to which moves come, each a count or a single
/// event. That these are lawful isn't said here; of the store's scripts `scripts_reach` of tg_law_programs says it, and
/// so what holds after each run holds after each of them.
pub fn scripts_are_runs<K: Registry>()
    ensures { ScriptsAreRuns (meaning_of K.Registry) }
{}
