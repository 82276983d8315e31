//! Answers of a rescue by what its walks found.

ghost use Rattle.tg_any.specs.AllKinds.{all_kinds};
ghost use Rattle.tg_law_claims.specs.Answers.Rescues.{RescuesForgotten, RescuesTooWide};
ghost use Rattle.tg_protocol.specs.Runs.{EachStep};

/// Where a step of the store that ends a rescue's walks refuses it since a position is forgotten, that is the rescue's
/// own, its walks met the named trim above it, and no commit record stands there, below the very tail to which they were
/// walked, that is the client's own, or in a stream that was walked as far down: a rescue of a record that the client can
/// find isn't refused so.
pub fn rescues_forgotten()
    ensures { EachStep all_kinds (RescuesForgotten all_kinds) }
{}

/// Where a rescue of the store has too many objects, it has walked 128, and of the entries that it found a commit record
/// at its position, or one below it that isn't passed over, reads an object that isn't among them, and has no decision
/// there: the first record of which the rescue's view can't know all that it reads. That the record could commit isn't
/// said, since another of its reads may have changed, nor that one stands at the rescue's position.
pub fn rescues_too_wide()
    ensures { EachStep all_kinds (RescuesTooWide all_kinds) }
{}
