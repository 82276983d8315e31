//! What holds of one walk, over a log that is fixed.

ghost use Rattle.tg_kind.specs.Of.{meaning_of};
ghost use Rattle.tg_law_syncs.specs.Settling.Visits.{WalksVisit, WalksVisitAgain, WalksVisitOn};

use tg_kind::Registry;

/// A walk that starts from a list which misses of what was issued to the stream only what four later ones have pushed out goes on,
/// or ends at once; then it knows a cell of each position that was issued, from `lo` up to the tail.
pub fn walks_visit<K: Registry>()
    ensures { WalksVisit (meaning_of K.Registry) }
{}

/// So it is with each answer: where the walk ends, it knows a cell of each position that was issued, from where it met a trim, else
/// from its `lo` on.
pub fn walks_visit_on<K: Registry>()
    ensures { WalksVisitOn (meaning_of K.Registry) }
{}

/// And in a newer layout, in which a walk goes on where it was.
pub fn walks_visit_again<K: Registry>()
    ensures { WalksVisitAgain (meaning_of K.Registry) }
{}
