//! Answers by the tail that the command's sync confirmed.

ghost use Rattle.tg_any.specs.AllKinds.{all_kinds};
ghost use Rattle.tg_law_claims.specs.Answers.Confirmed.{
  AheadsThere,
  FatesForgotten,
  NonesThere,
  PastsForgotten,
  UnsavedThere,
};
ghost use Rattle.tg_protocol.specs.Runs.{EachStep};

/// Where `fate`, `decide` or `rescue` of the store tells none, the step ends the command's walks, and below the very
/// tail to which they were walked, which was told for the command, no commit record stands there that is for the client.
pub fn nones_there()
    ensures { EachStep all_kinds (NonesThere all_kinds) }
{}

/// `ahead` names that very tail, and the past position is above it.
pub fn aheads_there()
    ensures { EachStep all_kinds (AheadsThere all_kinds) }
{}

/// Where a past position is forgotten, the walk of the asked object's stream met a trim, and no entry below that tail
/// gives a base of the object from the trim to the position.
pub fn pasts_forgotten()
    ensures { EachStep all_kinds (PastsForgotten all_kinds) }
{}

/// Where `fate` is refused since the position is forgotten, the client's view has no fate there.
pub fn fates_forgotten()
    ensures { EachStep all_kinds (FatesForgotten all_kinds) }
{}

/// Where an object may not be forgotten for want of a checkpoint, none below that tail reaches the mark.
pub fn unsaved_there()
    ensures { EachStep all_kinds (UnsavedThere all_kinds) }
{}
