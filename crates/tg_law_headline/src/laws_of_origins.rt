//! Where the log's checkpoints, marks and decisions come from: each follows the end of the walks of a command of its client.

ghost use Rattle.tg_kind.specs.Of.{meaning_of};
ghost use Rattle.tg_law_headline.specs.Origins.Origins.{CheckpointsFollowWalks, DecisionsFollowWalks, MarksFollowWalks};

use tg_kind::Registry;

/// A client appends a checkpoint only where the walks of a command end that saves the object. So each checkpoint of the log comes
/// from such an end, and what stands at its position was issued and settled no earlier than in the epoch in which the client stood
/// there.
pub fn checkpoints_follow_walks<K: Registry>()
    ensures { CheckpointsFollowWalks (meaning_of K.Registry) }
{}

/// A mark is put by no user, and a client appends one only where the walks of a command end that forgets, and the entries at hand
/// allow that; it has played up to the command's tail then. So each record of the log that marks an object comes from such an end,
/// stands at or past its tail, and is of no earlier epoch than it.
pub fn marks_follow_walks<K: Registry>()
    ensures { MarksFollowWalks (meaning_of K.Registry) }
{}

/// A client appends a decision only where the walks of a command end that decides what stands there. So each decision of the log
/// comes from such an end, and is of no earlier epoch than it.
pub fn decisions_follow_walks<K: Registry>()
    ensures { DecisionsFollowWalks (meaning_of K.Registry) }
{}
