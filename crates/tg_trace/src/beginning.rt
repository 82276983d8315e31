//! What the lines of a transcript make, as far as they are read.

use crate::transcript::{AnyDone, AnyMark};
use tg_base::{List, Oid};

/// What was read of a transcript.
#[derive(Drop)]
pub struct Beginning {
    /// The objects of the header.
    pub objects: List<Oid>,
    /// The replies so far.
    pub trace: List<AnyMark>,
    /// None before the line that counts the history.
    pub history: Option<Past>,
}

/// What was read of a history.
#[derive(Drop)]
pub struct Past {
    /// How many transactions it has.
    pub count: u64,
    /// The transactions so far.
    pub entries: List<AnyDone>,
}
