//! What holds of a walk in every state, over the definitions of the protocol.

ghost use Rattle.tg_stream.specs.Laws.{EndsByAnswers, LearnsByFences, WaitsForAnswers, AsksUnknown, StartsAreFew, StepsAreFew, RequestsAreFew};
ghost use Rattle.tg_stream.specs.Paths.{FollowsPath};

/// A walk ends only on an answer of a unit that it asked, under the number of that request: its last cell is
/// settled by the last unit that was to be asked, and a trim is told by a unit that has trimmed the position.
pub fn ends_by_answers()
    ensures { EndsByAnswers }
{}

/// A walk has to learn a newer layout only where a unit that it asked has left the epoch, and nothing of it has
/// changed then.
pub fn learns_by_fences()
    ensures { LearnsByFences }
{}

/// A walk goes on without sending anything only where the message isn't awaited or is passed by.
pub fn waits_for_answers()
    ensures { WaitsForAnswers }
{}

/// In every state a walk reads the position that comes next on its trail. It isn't below `lo`, its cell isn't
/// known, and no pointer leads back above those with which the walk began.
pub fn asks_unknown()
    ensures { AsksUnknown }
{}

/// A walk sends at most one request more than a chain has units for each position, from `lo` to the newest pointer,
/// whose cell isn't known.
pub fn starts_are_few()
    ensures { StartsAreFew }
{}

/// With each new request a walk has one less to come.
pub fn steps_are_few()
    ensures { StepsAreFew }
{}

/// Whatever messages come, a walk sends no more than that.
pub fn requests_are_few()
    ensures { RequestsAreFew }
{}

/// In every log that has the cells which a walk was told, and in which the pointers of the stream's entries fall, a
/// walk reads only positions of the stream's path. It visits a front of it, and has found the members that this
/// front meets. It ends where the path leads to no position from `lo` on, or to one that a unit has trimmed.
pub fn follows_path()
    ensures { FollowsPath }
{}
