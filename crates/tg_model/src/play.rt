//! Where the play of a view comes to.

use tg_base::{Oid, Pos};

/// Where the play of a view came to.
#[derive(Clone, Copy, PartialEq, Eq)]
pub enum PlayEnd {
    /// Everything below this position is played.
    Played { upto: Pos },
    /// The record at `pos` can't be decided without the object.
    Blocked { pos: Pos, missing: Oid },
}
