//! What holds of a sequencer's lists.

ghost use Rattle.tg_law_walks.specs.Walks.Seqrs.{SeqrsBegin, SeqrsStay, SeqrsTell};
ghost use Rattle.tg_law_walks.specs.Walks.Lists.{ListsGrow, LinksGood, OwnLinksGood, ScansBegin, ScansGoOn, ScansJump, ScansEnd};

/// The lists stay good where a position is issued to some streams, and the log has no entry of another stream there.
pub fn lists_grow()
    ensures { ListsGrow }
{}

/// The links that are told of good lists are good: each list lacks none of the positions that it tells of.
pub fn links_good()
    ensures { LinksGood }
{}

/// A scan goes on with the log's cell.
pub fn scans_go_on()
    ensures { ScansGoOn }
{}

/// A trim carries a scan on, past all that lies below it.
pub fn scans_jump()
    ensures { ScansJump }
{}

/// At the end of a scan the lists are good, if each stream with anything below the last trim has something past it.
pub fn scans_end()
    ensures { ScansEnd }
{}

/// An entry's own links are good as they are walked.
pub fn own_links_good()
    ensures { OwnLinksGood }
{}

/// A scan begins at 0, with no lists.
pub fn scans_begin()
    ensures { ScansBegin }
{}

/// Each step of a sequencer keeps its lists good, up to where the next epoch starts.
pub fn seqrs_stay()
    ensures { SeqrsStay }
{}

/// A sequencer begins so.
pub fn seqrs_begin()
    ensures { SeqrsBegin }
{}

/// The links that it tells, with a position or a tail up to where the next epoch starts, are good.
pub fn seqrs_tell()
    ensures { SeqrsTell }
{}
