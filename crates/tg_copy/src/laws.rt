//! What holds of a copy in every state, over the definitions of the protocol.

ghost use Rattle.tg_copy.specs.Laws.{CopiesKeep, CopyEndsByAnswers, CopyPausesByAnswers, CopyWaitsForAnswers, CopiesAreFew};

/// From its beginning on, in each layout, a copy is one of the same stripe to the same spare. It reads positions of
/// the stripe below the range's end, at the units that hold them.
pub fn copies_keep()
    ensures { CopiesKeep }
{}

/// A copy ends only on an answer of the spare that it has each position of the stripe, under the number of the
/// request that asks for it.
pub fn copy_ends_by_answers()
    ensures { CopyEndsByAnswers }
{}

/// A copy pauses only where a unit that it asked tells a later epoch.
pub fn copy_pauses_by_answers()
    ensures { CopyPausesByAnswers }
{}

/// A copy goes on without sending anything only where the message isn't awaited or is passed by.
pub fn copy_waits_for_answers()
    ensures { CopyWaitsForAnswers }
{}

/// Whatever messages come, a copy sends one request to the spare and at most one more than a chain has units for
/// each position of the stripe that is left, and one at the end; and more only from a position on that the spare
/// lacks.
pub fn copies_are_few()
    ensures { CopiesAreFew }
{}
