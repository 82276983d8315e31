//! Base types of the store: lists, pages, names of objects and nodes, layouts, messages and packets.
#![tactic(auto)]

mod blob;
mod cell;
mod chain;
mod change;
mod cluster;
mod fault;
mod ids;
mod layout;
mod list;
mod marks;
mod msg;
mod packet;
mod turn;

pub use blob::Blob;
pub use cell::Cell;
pub use chain::{Backs, Chain};
pub use change::{Change, Join};
pub use cluster::Cluster;
pub use fault::{Clause, Many, NoMemory, TextFault, Which};
pub use ids::{Ballot, Epoch, NodeId, Oid, Pos, Role};
pub use layout::{Projection, Range};
pub use list::List;
pub use marks::{Part, ReadMark, StreamLink};
pub use msg::Msg;
pub use packet::{Out, Packet, Rids};
pub use turn::{Stand, Turn};
