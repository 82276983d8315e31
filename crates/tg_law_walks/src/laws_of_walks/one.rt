//! A log for which the premises of walks are shown to hold.

ghost use Rattle.tg_law_walks.specs.Walks.One.{OnePageWalks};

/// A log with one page, of an entry that stands in a stream, has what a walk of that stream asks of a log: its entries'
/// own lists are good, and so is the list with its position, which is all that the stream has.
pub fn one_page_walks()
    ensures { OnePageWalks }
{}
