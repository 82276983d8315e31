//! Walks of streams: what a client finds of a log, from the lists that sequencers give, and by what it reads.
//!
//! Everything is said of one log that stays as it is, which is to be the one that a run ends with. The premises are
//! named where they stand: what the client knows and has found so far is true of that log (`IsAtWork`), and what an
//! answer that it awaits ends is so, a sync's tail with its lists or a walk's cell (`StepEndsAs`); each entry's own
//! list of its stream lacks none of the positions that it tells of (`AreLinked`). Then what a command finds is exact,
//! and its view lacks no entry that it needs. Of sequencers, that the lists which they keep and tell lack none either,
//! as long as the log has at no position that they issued an entry of a stream that they didn't issue it to.
//!
//! That a cell which a walk or a scan reads is the log's is proved of every run, where no unit has trimmed the
//! position (`walks_read_log`, `scans_read_log`).

mod ends;
mod finds;
mod lists;
mod one;
mod reads;

ghost use Rattle.tg_kind.specs.Of.{meaning_of};
ghost use Rattle.tg_law_walks.specs.Walks.Walks.{WalksStart, WalksFeed, WalksAgain};
ghost use Rattle.tg_law_walks.specs.Walks.Laws.{SyncsCome, WalksCome, SyncsComeAgain, WalksComeAgain, RoundsPlay, PastPlays, RescuesPlay, LogsByPosition, SyncsKeepStreams, RepliesKnow, SyncsBegin, SyncsFind, WalksFind, WalksFindAgain};

pub use ends::{rounds_are_exact, steps_are_exact, syncs_are_exact};
pub use finds::{rounds_find_all, rounds_find_more};
pub use lists::{
    links_good, lists_grow, own_links_good, scans_begin, scans_end, scans_go_on, scans_jump,
    seqrs_begin, seqrs_stay, seqrs_tell,
};
pub use one::one_page_walks;
pub use reads::{scans_read_log, scans_read_settled, walks_read_log, walks_read_settled};
use tg_kind::Registry;

/// A walk that starts from a good list is true of the log: it ends at once with what known cells give, or goes on.
pub fn walks_start()
    ensures { WalksStart }
{}

/// A walk stays true of the log by each answer, and ends with exactly the stream's positions: from where it met a trim,
/// else from its `lo` on.
pub fn walks_feed()
    ensures { WalksFeed }
{}

/// In a newer layout a walk goes on where it was.
pub fn walks_again()
    ensures { WalksAgain }
{}

/// An answer to a sync: it goes on, or the walks begin, as far as known cells lead.
pub fn syncs_come<K: Registry>()
    ensures { SyncsCome (meaning_of K.Registry) }
{}

/// An answer to a walk: the command's walks go on, start over, or are over.
pub fn walks_come<K: Registry>()
    ensures { WalksCome (meaning_of K.Registry) }
{}

/// In a newer layout a sync starts over.
pub fn syncs_come_again<K: Registry>()
    ensures { SyncsComeAgain (meaning_of K.Registry) }
{}

/// In a newer layout a walk goes on.
pub fn walks_come_again<K: Registry>()
    ensures { WalksComeAgain (meaning_of K.Registry) }
{}

/// Where all streams are walked, what the client plays from is of the log, and lacks no entry of its objects.
pub fn rounds_play<K: Registry>()
    ensures { RoundsPlay (meaning_of K.Registry) }
{}

/// Wherever a sync's step comes to the end of the command's walks, all that they have found is true of the log.
pub fn syncs_find<K: Registry>()
    ensures { SyncsFind (meaning_of K.Registry) }
{}

/// Likewise a walk's step.
pub fn walks_find<K: Registry>()
    ensures { WalksFind (meaning_of K.Registry) }
{}

/// And a walk's step into a newer layout.
pub fn walks_find_again<K: Registry>()
    ensures { WalksFindAgain (meaning_of K.Registry) }
{}

/// The same for a past view.
pub fn past_plays<K: Registry>()
    ensures { PastPlays (meaning_of K.Registry) }
{}

/// And for the view of a rescue.
pub fn rescues_play<K: Registry>()
    ensures { RescuesPlay (meaning_of K.Registry) }
{}

/// Each world's log has one cell at a position.
pub fn logs_by_position<K: Registry>()
    ensures { LogsByPosition (meaning_of K.Registry) }
{}

/// A sync keeps its streams until it ends.
pub fn syncs_keep_streams()
    ensures { SyncsKeepStreams }
{}

/// What a client still knows after a reply is the log's, if all that it knew was.
pub fn replies_know<K: Registry>()
    ensures { RepliesKnow (meaning_of K.Registry) }
{}

/// A sync that begins, over streams of which the hosted ones are some, is true of the log.
pub fn syncs_begin<K: Registry>()
    ensures { SyncsBegin (meaning_of K.Registry) }
{}
