//! What was committed.

use tg_base::{List, Oid, Pos};

/// A committed transaction: its place in the history, its client and number there, and its writes.
#[derive(Drop)]
pub struct Done<Op> {
    pub stamp: Pos,
    pub client: u16,
    pub number: u32,
    pub writes: List<(Oid, Op)>,
}
