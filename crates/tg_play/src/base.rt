//! Where a view begins with an object.

use tg_base::{Oid, Pos};
use tg_vers::Versions;

/// Where a view begins with an object: its state below `upto`, and the versions of its parts there.
#[derive(Drop)]
pub struct Base<K> {
    pub oid: Oid,
    pub state: K,
    pub vers: Versions,
    pub upto: Pos,
}
