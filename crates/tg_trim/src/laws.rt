//! What holds of a trim in every state, over the definitions of the protocol.

ghost use Rattle.tg_trim.specs.Laws.{TrimEndsByAnswers, TrimPausesByAnswers, TrimWaitsForAnswers, TrimsWait, TrimsAreFew};

/// A trim ends only on the answer of the last unit that it awaited, that all below a position is trimmed, under the
/// number of the request to it.
pub fn trim_ends_by_answers()
    ensures { TrimEndsByAnswers }
{}

/// A trim pauses only where a unit that it asked tells a later epoch.
pub fn trim_pauses_by_answers()
    ensures { TrimPausesByAnswers }
{}

/// A trim goes on below the same position. With each awaited answer that all below a position is trimmed it waits
/// for fewer units; every other message on which it goes on isn't awaited or is passed by.
pub fn trim_waits_for_answers()
    ensures { TrimWaitsForAnswers }
{}

/// A trim that goes on waits for a unit.
pub fn trims_wait()
    ensures { TrimsWait }
{}

/// Whatever messages come, a trim sends one request to each unit of the layout, of which there are at most 64.
pub fn trims_are_few()
    ensures { TrimsAreFew }
{}
