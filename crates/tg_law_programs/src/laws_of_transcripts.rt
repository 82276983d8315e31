//! What is told in the world of a script keeps the grammar of transcripts.

ghost use Rattle.tg_replay.specs.Headline.{TranscriptsFit};
ghost use Rattle.tg_law_programs.specs.Transcripts.Fits.{EachFits, EachFullTells, EachHistoryFits, EachIsNumbered, EachTells, EachTellsBelow};

/// The numbers of a reply's event, its client and its transaction are within their types, in a script of fewer than 2^64 event lines.
pub fn replies_are_numbered()
    ensures { EachIsNumbered }
{}

/// The objects of each run, and the transactions of its history, are within their types, and the places of these rise.
pub fn histories_fit()
    ensures { EachHistoryFits }
{}

/// Where a reply tells that a commit record with writes, an aborted or unsure one, or a checkpoint stands is below the header's limit.
pub fn records_below()
    ensures { EachTellsBelow }
{}

/// A sequencer of a run that says that the log is full tells the header's limit.
pub fn full_tells()
    ensures { EachFullTells }
{}

/// What each reply of a script tells is within its type, also how large an entry would be that is refused.
pub fn replies_tell()
    ensures { EachTells }
{}

/// So the objects, the replies and the history of a script are a transcript, in a script of fewer than 2^64 event lines, whether a limit
/// stops it or not.
pub fn transcripts_fit()
    ensures within { TranscriptsFit }
    ensures each { EachFits }
{}
