//! Why commands are refused.

use crate::command::Word;
use tg_base::{Epoch, Many, Oid, Pos};

/// Why a command is refused.
#[derive(Clone, Copy, PartialEq, Eq)]
pub enum Refusal {
    /// An earlier command has no reply yet.
    Busy { command: Word },
    /// No transaction is open.
    NoTx,
    /// A transaction is open.
    TxOpen,
    /// The client doesn't play the object.
    NotHosted { oid: Oid },
    /// The directory, as last played, doesn't list the object.
    NotRegistered { oid: Oid },
    /// The op or ask isn't one of the object's kind, or not one that a user may give.
    WrongKind { oid: Oid },
    /// The record or checkpoint would have this many bytes, which is above 4,096.
    TooLarge { bytes: usize },
    /// The record at `pos` can't be decided without the object.
    Undecided { pos: Pos, missing: Oid },
    /// Each position of the log, of which there are `limit`, has been handed out.
    LogFull { limit: u64 },
    /// Positions below `below` were trimmed, and `at` is one of them.
    Forgotten { at: Pos, below: Pos },
    /// The stripe would lose its last unit; range and stripe count from 0.
    NoReplica { range: usize, stripe: usize },
    /// The unit was dropped once and may not come back.
    Returned { unit: u16 },
    /// Another client's layout of this epoch is in place.
    Overtaken { epoch: Epoch },
    /// The record at `pos` needs a decision record and has none.
    OpenDecision { pos: Pos },
    /// There is no checkpoint of the object at or past the mark.
    NoCheckpoint { oid: Oid },
    /// There would be too many of these.
    TooMany { what: Many },
    /// The range may still grow.
    NotClosed { range: usize },
    /// The range has no such stripe.
    NoStripe { range: usize, stripe: usize },
    /// The unit already stands in that chain.
    InChain { unit: u16 },
    /// The unit lacks a cell of the stripe at `pos`.
    NotWhole { unit: u16, pos: Pos },
    /// The position is above the log's tail.
    Ahead { tail: Pos },
}
