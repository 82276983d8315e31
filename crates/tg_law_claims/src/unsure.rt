//! Why an outcome is unsure.

ghost use Rattle.tg_any.specs.AllKinds.{all_kinds};
ghost use Rattle.tg_law_claims.specs.Answers.Undecided.{UnsureUnlessYes};
ghost use Rattle.tg_protocol.specs.Causes.{UnsureTrue};
ghost use Rattle.tg_protocol.specs.Runs.{EachStep};

/// Where the outcome of a transaction of the store is unsure, the client doesn't know what a commit record reads, its own or one below it that is
/// for the client, and of one below it has no decision.
pub fn unsure_true()
    ensures { EachStep all_kinds (UnsureTrue all_kinds) }
{}

/// Nor is there, among the entries that it had where its walks ended, a decision record that says yes for the record
/// that it names, its own or one below it.
pub fn unsure_unless_yes()
    ensures { EachStep all_kinds (UnsureUnlessYes all_kinds) }
{}
