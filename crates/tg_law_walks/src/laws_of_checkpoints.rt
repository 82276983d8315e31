//! Checkpoints, in every run of every cluster over kinds whose ops touch parts of the format:
//! a checkpoint has a spelling too, so that each entry of the log is the draft of an append that its client began, and
//! each append that ended stands where it says.

ghost use Rattle.tg_kind.specs.Of.{meaning_of};
ghost use Rattle.tg_law_walks.specs.Checkpoints.Checkpoints.{AppendsEndByParts, DraftsFitByParts, EntriesOwnByParts};

use tg_kind::Registry;

/// Whatever a client appends, a checkpoint too, has a spelling.
pub fn drafts_fit<K: Registry>()
    ensures { DraftsFitByParts (meaning_of K.Registry) }
{}

/// So each entry of the log is, links aside, the draft of an append that its client began.
pub fn entries_own<K: Registry>()
    ensures { EntriesOwnByParts (meaning_of K.Registry) }
{}

/// And each append that ended stands where it says, and a record that was forgotten nowhere else, where trims were safe.
pub fn appends_end<K: Registry>()
    ensures { AppendsEndByParts (meaning_of K.Registry) }
{}
