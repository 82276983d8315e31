//! What following a text has come to.

use crate::nodes::Node;
use tg_base::{Cluster, NodeId};
use tg_io::Status;

/// A node, and the lines of its text that it has followed.
#[derive(Drop)]
pub struct Run {
    pub id: NodeId,
    pub cluster: Cluster,
    /// How many lines after the header were followed.
    pub lines: u64,
    pub node: Node,
}

/// What comes of a line: the run goes on, or it has ended.
#[derive(Drop)]
pub enum Next {
    Goes(Run),
    Ends(Status),
}
