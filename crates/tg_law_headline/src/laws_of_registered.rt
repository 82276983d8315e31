//! What is issued to a stream stands past where its object was registered, and a mark past a checkpoint that reaches it, in every
//! run of every cluster in which trims were spare.
//!
//! On the first the floors of a log rest (`FloorsRest` of `tg_law_headline`), on the second what stands below them is saved
//! (`MarksAreKept` of `tg_law_replies`).

ghost use Rattle.tg_kind.specs.Of.{meaning_of};
ghost use Rattle.tg_law_headline.specs.Registered.Marked.{FloorsSave, MarksFollowCheckpoints};
ghost use Rattle.tg_law_headline.specs.Registered.Registered.{TokensFollowRegistrations};
ghost use Rattle.tg_law_headline.specs.Registered.Resting.{TrimsAreSpareByMarks};

use tg_kind::Registry;

/// A client puts into what the directory that it has played has registered, and hosts and saves no other object; it judges and
/// decides records of the log; and what it asks for afterwards is issued past the tail up to which it played. So each object to
/// whose stream a position was issued was registered at that position or below it.
pub fn tokens_follow_registrations<K: Registry>()
    ensures { TokensFollowRegistrations (meaning_of K.Registry) }
{}

/// A mark is put by no user, and a client appends one only where it has found a checkpoint that reaches it, below the tail up to
/// which it has played. So each record of the log that marks an object stands past a checkpoint of it which reaches the mark, and
/// which saves no more than what stands below it.
pub fn marks_follow_checkpoints<K: Registry>()
    ensures { MarksFollowCheckpoints (meaning_of K.Registry) }
{}

/// So what stands below a floor of the directory is saved: below each position of the log the floor is no higher than that position,
/// and each object in whose stream an entry stands below the floor has a checkpoint that reaches it.
pub fn floors_save<K: Registry>()
    ensures { FloorsSave (meaning_of K.Registry) }
{}

/// So trims are spare, safe and in time in each run in each step of which, where trims were spare before, clients find what they need
/// of the log at hand, appends that ended stand there, what is read of its writes is an op, and its committed marks rest on
/// checkpoints.
pub fn trims_are_spare_by_marks<K: Registry>()
    ensures { TrimsAreSpareByMarks (meaning_of K.Registry) }
{}
