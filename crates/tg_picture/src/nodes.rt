//! The names of nodes.

use tg_any::put_number;
use tg_base::{List, NoMemory, NodeId, Role};

/// Puts a node's name last, as scripts have it.
pub fn put_name(node: NodeId, out: &mut List<u8>) -> Result<(), NoMemory> {
    out.push(match node.role {
        Role::Unit => b'u',
        Role::Layout => b'l',
        Role::Seqr => b's',
        Role::Client => b'c',
    })?;
    put_number(node.num, out)
}
