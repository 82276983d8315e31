//! What holds of each machine in every state, over the definitions of the protocol.

ghost use Rattle.tg_chain.specs.Laws.{EndsByAnswers, WaitsForAnswers, StepsAreFew, RequestsAreFew, LearnsNewer, LearnWaits, LearnAsksOnce};

/// A machine ends only on an answer of a unit that it asked, under the number of that request: a page or
/// a cell is settled by the last unit, `Lost` comes from the head, `Fenced` and `Gone` from the unit that
/// has answered so.
pub fn ends_by_answers()
    ensures { EndsByAnswers }
{}

/// A machine goes on without sending anything only where the message isn't awaited or is passed by, or
/// where a probe awaits further answers.
pub fn waits_for_answers()
    ensures { WaitsForAnswers }
{}

/// With each new request a machine has one less to come.
pub fn steps_are_few()
    ensures { StepsAreFew }
{}

/// Whatever messages come, a put at a unit sends at most one request to each unit after it, a fill
/// likewise, a get one more than a fill, and a probe none.
pub fn requests_are_few()
    ensures { RequestsAreFew }
{}

/// Learning ends only with a layout of a greater epoch that a layout server tells.
pub fn learns_newer()
    ensures { LearnsNewer }
{}

/// Learning goes on only where no layout server tells a newer layout, and then nothing has changed.
pub fn learn_waits()
    ensures { LearnWaits }
{}

/// All requests of learning are sent as it starts.
pub fn learn_asks_once()
    ensures { LearnAsksOnce }
{}
