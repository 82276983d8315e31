//! What the answers of a sequencer tell of it, in every state, over the definitions of the protocol.

ghost use Rattle.tg_seqr.specs.Laws.{AnswersAreTrue};

/// `Scanning` tells a next position below the start. `Tail`, `Issued` and `Full` come only where all positions
/// below the start are scanned and no unit has fenced the scan; the tail is the next position, a position that
/// is issued is the one before it, and it is at or past the start and below the limit. `OldEpoch` tells the
/// own epoch, or the one of the fence.
pub fn answers_are_true()
    ensures { AnswersAreTrue }
{}
