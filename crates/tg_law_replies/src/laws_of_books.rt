//! Books of transactions: what each step of a client makes of its transaction, and whose each record of the log is. So
//! runs are legal, by what clients find and what the log has of their records. Laws
//! over the definitions of `tg_protocol`, for the kinds of any implementation.

ghost use Rattle.tg_kind.specs.Of.{meaning_of};
ghost use Rattle.tg_law_replies.specs.Books.Laws.{BooksAreKept, RecordsAreKnown, RepliesAreKnown, RunsAreLegal};

use tg_kind::Registry;

/// Each step of a run keeps the books of transactions: what a client closes is the log's record of it, if there is one,
/// and what it begins is new. From two premises on the log: each of its commit records was begun by its client, in an
/// append that wasn't refused afterwards for want of room; and it stands at or past where its transaction asked.
pub fn books_are_kept<K: Registry>()
    ensures { BooksAreKept (meaning_of K.Registry) }
{}

/// The log has one record at most of each transaction, with a number that its client has begun; that of a transaction
/// that is still open is the record of it as it stands, and was ended. No reply speaks of a transaction that its client
/// hasn't begun. From these premises, and that no two entries of a kind have one client and number.
pub fn records_are_known<K: Registry>()
    ensures { RecordsAreKnown (meaning_of K.Registry) }
{}

/// A transaction that was aborted, or whose outcome is unsure, has its record where the reply says; one that was
/// forgotten has none elsewhere, and one that was dropped has none. One that committed has its record where the reply
/// says, or an ask of it was answered there, or the reply says 0. From those two premises, and that an append which
/// ends stands where it says, or, forgotten, nowhere else.
pub fn replies_are_known<K: Registry>()
    ensures { RepliesAreKnown (meaning_of K.Registry) }
{}

/// A run is legal: its answers are those of the plain machine over one history, and its outcomes are the history's. From
/// what its clients find of the log that it ends with, and from premises on that log: an append that ends stands where it
/// says; a commit record was begun by its client, in an append that wasn't refused afterwards for want of room; each entry
/// was begun by its client; no two of a kind have one client and number; a commit record is that of a transaction that was
/// ended, which writes what was put and reads what was asked; what is told of a record stands there; a record stands at or
/// past where its transaction asked; and no place of a transaction precedes a reply that came before its beginning.
pub fn runs_are_legal<K: Registry>()
    ensures { RunsAreLegal (meaning_of K.Registry) }
{}
