//! What stays undecided: a rescue, a command that is refused for it, and a transaction whose outcome is unsure.

ghost use Rattle.tg_any.specs.AllKinds.{all_kinds};
ghost use Rattle.tg_law_claims.specs.Causes.Undecidings.{UndecidedTrue, UnsureUnlessLacking};
ghost use Rattle.tg_protocol.specs.Runs.{EachStep};
ghost use Rattle.tg_protocol.specs.Stuck.{StuckTrue};

/// Where a rescue stays undecided, the walk of the stream of the object that it names met a trim, from a tail on that its command was told.
pub fn stuck_true()
    ensures { EachStep all_kinds (StuckTrue all_kinds) }
{}

/// A command that is refused since a record is undecided has its cause: the client doesn't know what the record reads of the named object,
/// or, for a past position or a rescue, can't; and among its entries is no decision of the record.
pub fn undecided_true()
    ensures { EachStep all_kinds (UndecidedTrue all_kinds) }
{}

/// Where an outcome is unsure, the client doesn't know what a record reads, its own or one below, or its own isn't among its entries.
pub fn unsure_unless_lacking()
    ensures { EachStep all_kinds (UnsureUnlessLacking all_kinds) }
{}
