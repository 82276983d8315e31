//! What stays undecided for a past position, and for a rescue.

ghost use Rattle.tg_any.specs.AllKinds.{all_kinds};
ghost use Rattle.tg_law_claims.specs.Answers.Undecided.{PastsUndecided, RescuesUndecided};
ghost use Rattle.tg_protocol.specs.Runs.{EachStep};

/// Where an `ask-at` of the store is refused since a record is undecided, that record is among the entries over which
/// the past view is played, below the asked position, and isn't passed over: it writes an object whose base in that view
/// isn't past it. It reads of the named object what the past view can't know: the object wasn't walked, or its base in
/// that view is later than the record, with a later version. Nor has the client a decision of it. It is the first such
/// record, and the object the least of those of which it reads so.
pub fn pasts_undecided()
    ensures { EachStep all_kinds (PastsUndecided all_kinds) }
{}

/// Where a rescue of the store is, a commit record stands at its position among the entries that it found. That record,
/// or one of them below it that isn't passed over, reads of the named object, which was walked, a version that the
/// object's base tells no more, since the base is later. Nor has the client a decision of it. It is the first such
/// record, and the object the least of those of which it reads what the rescue's view can't know.
pub fn rescues_undecided()
    ensures { EachStep all_kinds (RescuesUndecided all_kinds) }
{}
