//! Decision records, in every run of every cluster in which trims leave what is needed: each stands above the commit record that it
//! decides, in each of that record's streams, and stays there. So a client that may forget an object up to a mark has found a
//! checkpoint that reaches the mark, and the decision of each record of the object below it.
//!
//! The premise is that of `tg_law_walks::laws_of_lists`: `TrimsWereSpare`.

ghost use Rattle.tg_kind.specs.Of.{meaning_of};
ghost use Rattle.tg_law_headline.specs.Decisions.Decisions.{DecisionsStay, DecisionsFollowBySpareTrims, DecisionsHaveRecordsBySpareTrims};
ghost use Rattle.tg_law_headline.specs.Decisions.Forgetting.{ForgetsDecide, ForgetsWalkWhole};
ghost use Rattle.tg_law_cells.specs.Entries.Archive.{EachLaterBySafeTrims};

use tg_kind::Registry;

/// A decision record of the log is of a commit record of the log: its client had read that record's page before it asked for a token.
pub fn decisions_have_records<K: Registry>()
    ensures { DecisionsHaveRecordsBySpareTrims (meaning_of K.Registry) }
{}

/// It stands above that record, in each of the record's streams.
pub fn decisions_follow<K: Registry>()
    ensures { DecisionsFollowBySpareTrims (meaning_of K.Registry) }
{}

/// What has its decision above it, in its streams, settled by an epoch, has it in each later world, and by each later epoch.
pub fn decided_stays<K: Registry>()
    ensures { EachLaterBySafeTrims (meaning_of K.Registry) (DecisionsStay (meaning_of K.Registry)) }
{}

/// The walks of a command that forgets begin at the log's beginning.
pub fn forgets_walk_whole<K: Registry>()
    ensures { ForgetsWalkWhole (meaning_of K.Registry) }
{}

/// Wherever a step comes to the end of such walks and the test passes, the object is saved from the mark on, below the tail, by the
/// epoch in which the client stands; and each record of it that needs a decision has one by that epoch, from where its walk met a
/// trim up to the mark.
pub fn forgets_decide<K: Registry>()
    ensures { ForgetsDecide (meaning_of K.Registry) }
{}
