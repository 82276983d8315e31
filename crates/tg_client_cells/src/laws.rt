//! What holds of known cells and entries, over the definitions of the protocol.

ghost use Rattle.tg_kind.specs.Of.{meaning_of};
ghost use Rattle.tg_client_cells.specs.Rules.{AsRuled, NewPlayed};
ghost use Rattle.tg_client_cells.specs.Walks.{LeavesBelow, KeepsSettled, FindsInOrder};

use tg_kind::Registry;

/// A walk changes no cell below the position down to which it goes: in every state those are as they were when it
/// began.
pub fn walks_leave_below()
    ensures { LeavesBelow }
{}

/// Settled cells that are lent to a walk from the settled position on, or from above it, come back settled: so in every
/// state of the walk, whatever it meets.
pub fn walks_keep_settled()
    ensures { KeepsSettled }
{}

/// The members that a walk finds rise, each once, whatever the last positions and the pointers of entries are. So the
/// entries at those positions, in order, are those at the positions as they were found.
pub fn walks_find_in_order()
    ensures { FindsInOrder }
{}

/// The words of this crate's clauses are those of a client's rules.
pub fn words_are_the_rules<K: Registry>()
    ensures { AsRuled (meaning_of K.Registry) }
{}

/// Where all entries below a position are commit records, the entries from there on suffice: they decide each record
/// alike, have the same commit records from there on, and a view that has come so far plays them alike.
pub fn new_entries_suffice<K: Registry>()
    ensures { NewPlayed (meaning_of K.Registry) }
{}
