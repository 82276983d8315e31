//! What holds of a reconfiguration in every state, over the definitions of the protocol.

ghost use Rattle.tg_reconf.specs.Laws.{FeedEndsByAnswers, LatestEndsAsTold, LearnsByAnswers, WaitsForAnswers, WaitsToTell, StartsAreOwn, NumbersStayDrawn, StepsAreFew, RequestsAreFew, StartsWithFew};

/// By an answer a reconfiguration ends only where it was awaited: as installed where the new sequencer tells its
/// tail, and as not whole where the unit that joins tells a position that it hasn't. It never ends so as overtaken.
pub fn feed_ends_by_answers()
    ensures { FeedEndsByAnswers }
{}

/// By a newer layout a reconfiguration ends as installed only while the new sequencer starts. It ends as overtaken
/// only by a layout that isn't the client's own of the next epoch, or by another client's that a majority of layout
/// servers has heard to be decided.
pub fn latest_ends_as_told()
    ensures { LatestEndsAsTold }
{}

/// A reconfiguration waits to learn a newer layout only where a node that it asked has left the epoch, and is then as
/// before.
pub fn learns_by_answers()
    ensures { LearnsByAnswers }
{}

/// A reconfiguration goes on without sending anything only where the message isn't awaited or completes no step:
/// it is passed by, it refuses a ballot, or further seals or votes are awaited.
pub fn waits_for_answers()
    ensures { WaitsForAnswers }
{}

/// By a newer layout it goes on without sending anything only while the layout servers are told a layout: where
/// fewer than a majority have heard it, or where it is the client's own that comes otherwise.
pub fn waits_to_tell()
    ensures { WaitsToTell }
{}

/// The sequencer that a reconfiguration starts is that of the client's own layout.
pub fn starts_are_own()
    ensures { StartsAreOwn }
{}

/// A reconfiguration awaits only numbers that were drawn.
pub fn numbers_stay_drawn()
    ensures { NumbersStayDrawn }
{}

/// With each new request a reconfiguration has one less to come, but for the rounds that refusals cost.
pub fn steps_are_few()
    ensures { StepsAreFew }
{}

/// Whatever messages come, a reconfiguration draws no more numbers than it has requests left to send, and two more
/// for each layout server with each refusal of a ballot.
pub fn requests_are_few()
    ensures { RequestsAreFew }
{}

/// From its beginning on a reconfiguration draws at most as many numbers as three requests to the unit that joins, one
/// to each unit of the next layout, three to each layout server and one to a sequencer take, but for the rounds that
/// refusals cost.
pub fn starts_with_few()
    ensures { StartsWithFew }
{}
