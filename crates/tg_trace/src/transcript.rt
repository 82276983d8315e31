//! Transcripts.

use tg_any::{AnyAns, AnyAsk, AnyOp};
use tg_base::{List, Oid};
use tg_model::{Done, Mark, What};

/// What a client answers, over all kinds of objects.
pub type AnyWhat = What<AnyOp, AnyAsk, AnyAns>;

/// A reply over all kinds of objects.
pub type AnyMark = Mark<AnyOp, AnyAsk, AnyAns>;

/// A committed transaction over all kinds of objects.
pub type AnyDone = Done<AnyOp>;

/// What a run has told: the objects of its header, the replies in order, and the committed transactions
/// by their places.
#[derive(Drop)]
pub struct Transcript {
    /// The objects of the header.
    pub objects: List<Oid>,
    /// The replies, in order.
    pub trace: List<AnyMark>,
    /// The committed transactions, rising.
    pub history: List<AnyDone>,
}
