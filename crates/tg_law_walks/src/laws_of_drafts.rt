//! Drafts, in every run of every cluster, whatever was lost, repeated or stopped. Whatever a client drafts has a
//! spelling, so that what is read of its page is the draft again: an entry of the log has the links that were issued to
//! its client, and is the draft of an append that this client began.
//!
//! Proved for every lawful header and every run of lawful events, with no other premise.

ghost use Rattle.tg_kind.specs.Of.{meaning_of};
ghost use Rattle.tg_law_walks.specs.Drafts.Drafts.{EntriesBegun, RecordsBegun};
ghost use Rattle.tg_law_walks.specs.Drafts.Refuted.{CheckpointsWantParts};
ghost use Rattle.tg_law_walks.specs.Drafts.Worked.{WorkedLinks};
ghost use Rattle.tg_protocol.specs.Holding.{EntriesLinked};
ghost use Rattle.tg_protocol.specs.Runs.{Always, AlwaysBy};

use tg_kind::Registry;

/// An entry of the log has exactly the links that were issued to its client with its position.
pub fn entries_are_linked<K: Registry>()
    ensures { Always (meaning_of K.Registry) (EntriesLinked (meaning_of K.Registry)) }
{}

/// An entry has the head of the draft of an append that its client began, with these links, and that draft's body, or
/// both save an object.
pub fn entries_were_begun<K: Registry>()
    ensures { AlwaysBy (meaning_of K.Registry) (EntriesBegun (meaning_of K.Registry)) }
{}

/// So a commit or decision record of the log is the draft of an append that its client began, with other links.
pub fn records_were_begun<K: Registry>()
    ensures { AlwaysBy (meaning_of K.Registry) (RecordsBegun (meaning_of K.Registry)) }
{}

/// In the log of a run in which another sequencer takes over from the first, a client's second entry is linked to its
/// first one.
pub fn links_go_on()
    ensures { WorkedLinks }
{}

/// Over kinds whose ops touch a number that a page can't spell, a checkpoint isn't the draft that its client had begun to
/// append: so the claim wants a premise on kinds.
pub fn checkpoints_want_parts()
    ensures { CheckpointsWantParts }
{}
