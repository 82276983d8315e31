//! Runs of the store at whose last step the premises of laws on refusals are met.

ghost use Rattle.tg_law_claims.specs.Answers.Worked.{
  PastIsUndecided,
  RescueIsForgotten,
  RescueIsUndecided,
};

/// A client asks of position 1 what a counter was, and is refused since record 0 is undecided: that writes the counter,
/// and reads another one, which the client doesn't host. So a step meets the premises of `pasts_undecided`.
pub fn past_is_undecided()
    ensures { PastIsUndecided }
{}

/// A client rescues record 1, which reads a counter whose checkpoint past a trim is later, with a later version, and is
/// refused since the record is undecided. So a step meets the premises of `rescues_undecided`.
pub fn rescue_is_undecided()
    ensures { RescueIsUndecided }
{}

/// A client rescues record 0, which was trimmed, and where its walks end it is refused since the position is forgotten.
/// So a step meets the premises of `rescues_forgotten`.
pub fn rescue_is_forgotten()
    ensures { RescueIsForgotten }
{}
