//! Worked runs for which the premises are shown to hold.

ghost use Rattle.tg_law_syncs.specs.Exact.Worked.{WorkedWalk};

/// A run in which a client asks for what another has committed, as far as its walk awaits a cell, meets the premise; what the client
/// has found so far is true of the log.
pub fn walk_is_in_hand()
    ensures { WorkedWalk }
{}
