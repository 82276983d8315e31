//! The servers of a world: its units, layout servers and sequencers, with all packets that were ever sent, the archive
//! of trimmed cells, and which nodes have stopped.
#![tactic(auto)]

mod post;
mod rows;
mod servers;
mod sizes;
mod starts;
mod waiting;

pub use post::Post;
pub use rows::put_back;
pub use servers::Servers;
pub use sizes::size;
