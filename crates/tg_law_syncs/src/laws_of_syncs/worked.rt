//! Worked runs for which the premises are shown to hold.

ghost use Rattle.tg_law_syncs.specs.Syncs.Scan.{WorkedScan};

/// A run in which a client commits, and another sequencer takes over by a reconfiguration that drops a unit and scans the
/// log, meets the premise of the laws on lists; that sequencer knows of the stream what stands in it.
pub fn scan_is_done()
    ensures { WorkedScan }
{}
