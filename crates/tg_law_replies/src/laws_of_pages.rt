//! What is read off a page of the log keeps the grammar of entries: so a log's records stand in the streams of what they
//! write. Laws over the definitions of `tg_protocol` and `tg_entry`.

ghost use Rattle.tg_kind.specs.Of.{meaning_of};
ghost use Rattle.tg_law_replies.specs.Pages.Grammar.{PagesKeepGrammar, LogsKeepGrammar};

use tg_kind::Registry;

/// An entry that is read off a page stands once in each of its streams, each of its writes names one of them, and a
/// commit record has one write at least.
pub fn pages_keep_grammar()
    ensures { PagesKeepGrammar }
{}

/// So each record of a world's log stands in the streams of the objects that it writes, and writes one at least. Of
/// every world, reached by a run or not.
pub fn logs_keep_grammar<K: Registry>()
    ensures { LogsKeepGrammar (meaning_of K.Registry) }
{}
