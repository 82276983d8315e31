//! What an append is for.

use tg_base::{Oid, Pos};
use tg_kind::Kind;
use tg_model::WhatOf;

/// What an append of a client is for.
#[derive(Drop)]
pub enum Purpose<K: Kind> {
    /// The record of a transaction without reads.
    Writes,
    /// The record of one with reads, which is decided afterwards.
    Judged,
    /// A decision record, and the answer that is given in any case.
    Decides { answer: WhatOf<K> },
    /// The decision record of a rescue.
    Rescues { answer: WhatOf<K> },
    /// A checkpoint of an object below `upto`.
    Saves { oid: Oid, upto: Pos },
    /// The record of a transaction of its own, which marks an object.
    Marks { number: u32, oid: Oid, mark: Pos },
}
