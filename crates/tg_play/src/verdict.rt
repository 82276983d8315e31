//! What becomes of a commit record.

use tg_base::Oid;

/// Whether a commit record is committed, as far as a view can tell.
#[derive(Clone, Copy)]
pub enum Verdict {
    Commits,
    Aborts,
    /// A version of this object, of which the record reads a part, isn't known.
    Unknown(Oid),
}
