//! What holds of an append and of a sync in every state, over the definitions of the protocol.

ghost use Rattle.tg_append.specs.AppendLaws.{AppendsKeep, AppendEndsByAnswers, AppendPausesByAnswers, AppendWaitsForAnswers, AppendRequestsAreFew, AppendResumesWithFew};
ghost use Rattle.tg_append.specs.SyncLaws.{SyncsKeep, SyncIsTold, SyncEndsByAnswers, SyncPausesByAnswers, SyncWaitsForAnswers, SyncRequestsAreFew};

/// From its beginning on, in each layout, an append is one of the same entry. A token's page is the entry's own
/// with links of its streams. It goes to the token's position at the units that hold that, or the position is
/// filled there.
pub fn appends_keep()
    ensures { AppendsKeep }
{}

/// An append ends only on an answer of a node that it asked, under the number of that request: as `At` where
/// the last unit of the position's chain holds the own page, as `Full` where the sequencer is full, as
/// `Forgotten` where a unit has trimmed the token's position.
pub fn append_ends_by_answers()
    ensures { AppendEndsByAnswers }
{}

/// An append pauses only where a node that it asked tells a later epoch, and with the token that it has.
pub fn append_pauses_by_answers()
    ensures { AppendPausesByAnswers }
{}

/// An append goes on without sending anything only where the message isn't awaited or is passed by.
pub fn append_waits_for_answers()
    ensures { AppendWaitsForAnswers }
{}

/// Whatever messages come, an append sends at most one request to each unit of a chain for each token that it
/// has, and a further token with its put only where a position was lost to another cell.
pub fn append_requests_are_few()
    ensures { AppendRequestsAreFew }
{}

/// In a newer layout an append settles one position at most before it asks for a token.
pub fn append_resumes_with_few()
    ensures { AppendResumesWithFew }
{}

/// From its beginning on a sync is one of the same objects. Its answer names their streams. The last position
/// below the tail is settled or probed at the units that hold it, and settled only past the epoch's start.
pub fn syncs_keep()
    ensures { SyncsKeep }
{}

/// The tail and the last positions are those of an awaited answer of the sequencer.
pub fn sync_is_told()
    ensures { SyncIsTold }
{}

/// A sync ends only on an answer of a unit that it asked, under the number of that request: of the last unit of
/// the chain, which holds the cell that is settled, or of the last one that a probe awaits.
pub fn sync_ends_by_answers()
    ensures { SyncEndsByAnswers }
{}

/// A sync pauses only where a node that it asked tells a later epoch.
pub fn sync_pauses_by_answers()
    ensures { SyncPausesByAnswers }
{}

/// A sync goes on without sending anything only where the message isn't awaited or is passed by, or where a
/// probe awaits answers of other units.
pub fn sync_waits_for_answers()
    ensures { SyncWaitsForAnswers }
{}

/// Whatever messages come, a sync sends at most as many requests as twice the longest chain has units after that to
/// the sequencer.
pub fn sync_requests_are_few()
    ensures { SyncRequestsAreFew }
{}
