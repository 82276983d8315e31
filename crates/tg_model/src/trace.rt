//! What clients answer.

use crate::refusal::Refusal;
use tg_base::{Epoch, Oid, Part, Pos};

/// What a client answers.
pub enum What<Op, Ask, Ans> {
    /// A transaction was begun.
    Begin,
    /// The write was buffered.
    Put {
        oid: Oid,
        op: Op,
    },
    /// The answer, at the transaction's snapshot.
    Asked {
        oid: Oid,
        ask: Ask,
        at: Pos,
        ans: Ans,
    },
    /// The end was accepted.
    End,
    /// The transaction was committed at this place.
    Committed {
        at: Pos,
    },
    /// The transaction's record at `at` isn't committed: the part that it read at version `seen` has
    /// version `now` there.
    Aborted {
        at: Pos,
        oid: Oid,
        part: Part,
        seen: u64,
        now: u64,
    },
    /// The transaction's record is at `at`, and the one at `pos` can't be decided.
    Unsure {
        at: Pos,
        pos: Pos,
    },
    /// The transaction was given up.
    Dropped,
    /// The object is played from now on.
    Hosted {
        oid: Oid,
    },
    /// Whether the record at this position is committed; None where there is no record.
    Fate {
        at: Pos,
        yes: Option<bool>,
    },
    /// The same, and a decision record says so where one is needed.
    Decided {
        at: Pos,
        yes: Option<bool>,
    },
    /// A checkpoint of the object's state below `upto` stands at `at`.
    Saved {
        oid: Oid,
        at: Pos,
        upto: Pos,
    },
    /// The directory holds this mark of the object.
    Marked {
        oid: Oid,
        mark: Pos,
    },
    /// Positions below the mark were trimmed.
    Trimmed {
        mark: Pos,
    },
    /// The layout of this epoch is in place.
    Installed {
        epoch: Epoch,
    },
    /// The command was refused.
    Refused {
        why: Refusal,
    },
    /// The unit holds the stripe's cells; range and stripe count from 0.
    Copied {
        unit: u16,
        range: usize,
        stripe: usize,
    },
    /// The answer as the object stood at position `at`.
    Past {
        oid: Oid,
        ask: Ask,
        at: Pos,
        ans: Ans,
    },
    /// Whether the record at this position is committed; None where there is no record.
    Rescued {
        at: Pos,
        yes: Option<bool>,
    },
}

// By hand, since a derived drop is proved anew wherever a value is dropped.
impl<Op: Drop, Ask: Drop, Ans: Drop> Drop for What<Op, Ask, Ans> {
    fn drop(self) {
        match self {
            What::Begin => {}
            What::Put { oid: _, op: _ } => {}
            What::Asked {
                oid: _,
                ask: _,
                at: _,
                ans: _,
            } => {}
            What::End => {}
            What::Committed { at: _ } => {}
            What::Aborted {
                at: _,
                oid: _,
                part: _,
                seen: _,
                now: _,
            } => {}
            What::Unsure { at: _, pos: _ } => {}
            What::Dropped => {}
            What::Hosted { oid: _ } => {}
            What::Fate { at: _, yes: _ } => {}
            What::Decided { at: _, yes: _ } => {}
            What::Saved {
                oid: _,
                at: _,
                upto: _,
            } => {}
            What::Marked { oid: _, mark: _ } => {}
            What::Trimmed { mark: _ } => {}
            What::Installed { epoch: _ } => {}
            What::Refused { why: _ } => {}
            What::Copied {
                unit: _,
                range: _,
                stripe: _,
            } => {}
            What::Past {
                oid: _,
                ask: _,
                at: _,
                ans: _,
            } => {}
            What::Rescued { at: _, yes: _ } => {}
        }
    }
}

/// What a client answers, with the number of the transaction that it speaks of, or 0.
#[derive(Drop)]
pub struct Note<Op, Ask, Ans> {
    pub tx: u32,
    pub what: What<Op, Ask, Ans>,
}

/// A reply: in which event, by which client, and of which of its transactions, which count from 1.
#[derive(Drop)]
pub struct Mark<Op, Ask, Ans> {
    pub event: u64,
    pub client: u16,
    pub tx: u32,
    pub what: What<Op, Ask, Ans>,
}
