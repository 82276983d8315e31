//! Legal runs: what is left for the replies and the history of each run to be those of the plain machine.
//!
//! Proved for every lawful header and every run of lawful events.

ghost use Rattle.tg_kind.specs.Of.{meaning_of};
ghost use Rattle.tg_law_headline.specs.Legal.Legal.{RunsLegalWhere};
ghost use Rattle.tg_law_headline.specs.Legal.Store.{StoreEntriesOwn};

use tg_kind::Registry;

/// Over kinds whose ops touch parts of the format, a run is legal where trims left what is needed, states load from what is saved of
/// them, kept views leave no record without a fate, and no place precedes a reply that came before its transaction.
pub fn runs_are_legal<K: Registry>()
    ensures { RunsLegalWhere (meaning_of K.Registry) }
{}

/// In the store, each entry of the log is, links aside, the draft of an append that its client had begun.
pub fn store_entries_own()
    ensures { StoreEntriesOwn }
{}
