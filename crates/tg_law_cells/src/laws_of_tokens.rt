//! Tokens, in every run of every cluster, whatever was lost, repeated or stopped: what sequencers issue, and what
//! appends do with it. In an epoch one sequencer issues, each position once. Whoever sends a page sends it to the
//! position of its own token, with the links that were issued with it, and neither units nor the log have other
//! pages. These links, as far as they go back in one epoch, miss no earlier position of the stream but what four later
//! ones have pushed out.
//!
//! Proved for every lawful header and every run of lawful events, with no other premise.

ghost use Rattle.tg_kind.specs.Of.{meaning_of};
ghost use Rattle.tg_law_cells.specs.Tokens.Entries.{LogEntriesLinked};
ghost use Rattle.tg_law_cells.specs.Tokens.Issuing.{IssuedOnce, IssuerNamed, LogPagesOwn, OneIssuer, PagesOwn, UnitPagesOwn};
ghost use Rattle.tg_law_cells.specs.Tokens.Listing.{ListsFull};
ghost use Rattle.tg_protocol.specs.Runs.{Always};

use tg_kind::Registry;

/// In an epoch a sequencer issues a position by one answer at most, so to one request.
pub fn issued_once<K: Registry>()
    ensures { Always (meaning_of K.Registry) (IssuedOnce (meaning_of K.Registry)) }
{}

/// In an epoch past 0 only the sequencer issues that the epoch's decided layout names, and no position below the
/// layout's start.
pub fn issuer_is_named<K: Registry>()
    ensures { Always (meaning_of K.Registry) (IssuerNamed (meaning_of K.Registry)) }
{}

/// So one sequencer issues in such an epoch, and by `issued_once` a position of it has one answer in all.
pub fn one_issuer<K: Registry>()
    ensures { Always (meaning_of K.Registry) (OneIssuer (meaning_of K.Registry)) }
{}

/// A page is sent only for the position, and in the epoch, of a token that was issued to its sender, and it is that of
/// a draft of the token's streams with the issued links.
pub fn pages_are_own<K: Registry>()
    ensures { Always (meaning_of K.Registry) (PagesOwn (meaning_of K.Registry)) }
{}

/// So is each page that a unit has, however it came there: put by its owner, carried down a chain, or copied.
pub fn units_hold_own_pages<K: Registry>()
    ensures { Always (meaning_of K.Registry) (UnitPagesOwn (meaning_of K.Registry)) }
{}

/// So is each page of the log, trimmed or not.
pub fn log_has_own_pages<K: Registry>()
    ensures { Always (meaning_of K.Registry) (LogPagesOwn (meaning_of K.Registry)) }
{}

/// So an entry of the log is the draft of a token with the links that were issued with its position, if these fit the
/// format of entries.
pub fn log_entries_are_linked<K: Registry>()
    ensures { Always (meaning_of K.Registry) (LogEntriesLinked (meaning_of K.Registry)) }
{}

/// Of what a sequencer has issued to a stream in an epoch, the list that it gives with a later position misses only
/// what four later ones have pushed out.
pub fn lists_are_full<K: Registry>()
    ensures { Always (meaning_of K.Registry) (ListsFull (meaning_of K.Registry)) }
{}
