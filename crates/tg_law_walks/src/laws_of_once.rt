//! Each entry stands once in the log, in every run of every cluster, whatever was lost, repeated or stopped: of the pages
//! that a client puts for one kind of body and number all but one are given up, and what was given up isn't in the log. So
//! the log's records are those that clients left, with what was put and asked, which the laws on their books ask.
//!
//! Proved for every lawful header and every run of lawful events; what speaks of the log also asks that trims were safe. A
//! worked run with a reconfiguration, another sequencer and a trim meets that.

ghost use Rattle.tg_kind.specs.Of.{meaning_of};
ghost use Rattle.tg_law_cells.specs.Entries.Archive.{AlwaysBySafeTrims};
ghost use Rattle.tg_law_walks.specs.Once.GivenUp.{LogKept, OnePosition, PagesKept};
ghost use Rattle.tg_law_walks.specs.Once.Records.{AppendsStand, BooksKeptBySafeTrims, RecordsKnownBySafeTrims, RecordsWereLeft, RepliesKnownBySafeTrims, RunsLegalBySafeTrims};
ghost use Rattle.tg_law_walks.specs.Once.Worked.{WorkedOnce};
ghost use Rattle.tg_protocol.specs.Holding.{EntriesOnce, RecordsOwn};
ghost use Rattle.tg_protocol.specs.Runs.{Always};

use tg_kind::Registry;

/// A settled page is that of a token which its client didn't give up: so a token that was given up has no settled page.
pub fn given_up_is_nowhere<K: Registry>()
    ensures { Always (meaning_of K.Registry) (PagesKept (meaning_of K.Registry)) }
{}

/// So is each page of the log, where trims were safe.
pub fn log_has_no_given_up<K: Registry>()
    ensures { AlwaysBySafeTrims (meaning_of K.Registry) (LogKept (meaning_of K.Registry)) }
{}

/// Of two pages that a client has put for one kind of body and number one was given up, or they are for one position.
pub fn pages_have_one_position<K: Registry>()
    ensures { Always (meaning_of K.Registry) (OnePosition (meaning_of K.Registry)) }
{}

/// No two entries of the log have the same client, kind of body and number, where trims were safe.
pub fn entries_stand_once<K: Registry>()
    ensures { AlwaysBySafeTrims (meaning_of K.Registry) (EntriesOnce (meaning_of K.Registry)) }
{}

/// Each commit record of the log is what its client had in hand, for an append that wasn't refused afterwards for want of
/// room, where trims were safe.
pub fn records_were_left<K: Registry>()
    ensures { RecordsWereLeft (meaning_of K.Registry) }
{}

/// A record whose append has ended stands where it says, and one that it forgot nowhere else, where trims were safe.
pub fn appends_stand<K: Registry>()
    ensures { AppendsStand (meaning_of K.Registry) }
{}

/// Each commit record of the log has the puts and the asks of a transaction that was ended, where trims were safe.
pub fn records_own<K: Registry>()
    ensures { AlwaysBySafeTrims (meaning_of K.Registry) (RecordsOwn (meaning_of K.Registry)) }
{}

/// Each step of a run keeps the books of transactions, where trims were safe and a record stands at or past where its
/// transaction asked.
pub fn books_kept<K: Registry>()
    ensures { BooksKeptBySafeTrims (meaning_of K.Registry) }
{}

/// Then the log has at most one record of a transaction, with a number that its client has begun.
pub fn records_known<K: Registry>()
    ensures { RecordsKnownBySafeTrims (meaning_of K.Registry) }
{}

/// And what replies tell of a transaction's record is so, as far as whose it is.
pub fn replies_known<K: Registry>()
    ensures { RepliesKnownBySafeTrims (meaning_of K.Registry) }
{}

/// So a run is legal where trims were safe, its clients find what they need of the log that it ends with, an append that
/// ends stands where it says, each entry was begun by its client, what is told of a record stands there, a record stands at or past where its transaction asked, and
/// no place of a transaction precedes a reply that came before its beginning.
pub fn runs_legal<K: Registry>()
    ensures { RunsLegalBySafeTrims (meaning_of K.Registry) }
{}

/// A run in which a client gives a token up, since another sequencer takes over and a unit is dropped, puts its page with
/// another one, and trims it, is one for which these laws ask no more than it has; and the log has one entry.
pub fn token_is_given_up()
    ensures { WorkedOnce }
{}
