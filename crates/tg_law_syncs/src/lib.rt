//! Exact syncs: a sync that isn't refused finds exactly its streams' entries from their bases on, and so what clients find,
//! know and tell follows the log, where trims left what is needed.
#![tactic(auto)]

pub mod laws_of_exact;
pub mod laws_of_finds;
pub mod laws_of_follow;
pub mod laws_of_known;
pub mod laws_of_settling;
pub mod laws_of_syncs;
pub mod laws_of_timely;
