//! What goes on of a machine in a newer layout.

use crate::purpose::Purpose;
use tg_append::PausedAppend;
use tg_base::{Join, List, Oid, Pos};
use tg_kind::Kind;
use tg_reconf::Reconf;
use tg_stream::PausedWalk;

/// What goes on of a machine in a newer layout.
#[derive(Drop)]
pub enum Paused<K: Kind> {
    /// A sync starts over.
    Sync {
        oids: List<Oid>,
    },
    /// A walk goes on where it was, and the streams to be walked after it.
    Walk {
        walk: PausedWalk,
        rest: List<Oid>,
    },
    /// An append settles its token's position first.
    Append {
        append: PausedAppend,
        purpose: Purpose<K>,
    },
    /// Trims start over.
    Trim {
        below: Pos,
    },
    /// A copy starts over.
    Copy {
        spare: Join,
    },
    /// A reconfiguration is as it was.
    Reconf {
        reconf: Box<Reconf>,
    },
}
