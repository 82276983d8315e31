//! Trees of paths.
#![tactic(auto)]

mod key;
mod linked;
mod nodes;
mod path;
mod path_map;
mod tree;

pub use path::Path;
pub use tree::{Tree, TreeAns, TreeAsk, TreeOp};
