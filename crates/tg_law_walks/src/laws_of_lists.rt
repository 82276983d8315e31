//! The lists of sequencers, in every run of every cluster in which trims leave what is needed. Each sequencer knows of
//! each stream the last four positions that the log's entries have, from its scan of the log on, however it took over.
//!
//! One premise is named in the laws. Whatever a unit was asked to trim was settled, and each stream below it has an entry
//! past it that saves its object (`TrimsWereSpare`): a scan that meets a trim jumps over what lies below. That drafts fit
//! the format of entries, so that an entry is read back in the streams that its position was issued for, is a law
//! (`drafts_fit`).

ghost use Rattle.tg_kind.specs.Of.{meaning_of};
ghost use Rattle.tg_law_walks.specs.Lists.Drafted.{DraftsFit};
ghost use Rattle.tg_law_walks.specs.Lists.Lists.{EachLaterBySpareTrims, ListsKnown, SeqrsTrue};
ghost use Rattle.tg_law_walks.specs.Lists.Telling.{AlwaysBySpareTrims, EntriesGood, LinksTrue};
ghost use Rattle.tg_protocol.specs.Runs.{Always};

use tg_kind::Registry;

/// Drafts fit the format: an entry that is read of a page which was sent has the links that were issued for it, and each
/// token names its streams once.
pub fn drafts_fit<K: Registry>()
    ensures { Always (meaning_of K.Registry) (DraftsFit (meaning_of K.Registry)) }
{}

/// Each sequencer's lists are the log's, and so is what it has scanned, up to where the next epoch starts.
pub fn seqrs_are_true<K: Registry>()
    ensures { EachLaterBySpareTrims (meaning_of K.Registry) (SeqrsTrue (meaning_of K.Registry)) }
{}

/// Each sequencer that doesn't scan knows of each stream the last four positions of the log's entries, then and later.
pub fn lists_are_known<K: Registry>()
    ensures { EachLaterBySpareTrims (meaning_of K.Registry) (ListsKnown (meaning_of K.Registry)) }
{}

/// The links that a sequencer tells, with an issued position or a tail, are true of the log, up to where the next epoch
/// starts.
pub fn links_are_true<K: Registry>()
    ensures { AlwaysBySpareTrims (meaning_of K.Registry) (LinksTrue (meaning_of K.Registry)) }
{}

/// Each entry of the log lists the last four positions of each stream in which it stands: its own list lacks none of
/// those that it tells of.
pub fn entries_are_good<K: Registry>()
    ensures { AlwaysBySpareTrims (meaning_of K.Registry) (EntriesGood (meaning_of K.Registry)) }
{}
