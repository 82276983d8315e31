//! A client's syncs and walks: the tail is confirmed, then each stream is walked, and then the command is answered.
#![tactic(auto)]

mod copies;
mod finding;
mod lasts;
mod syncing;
mod trims;
mod walking;

pub use syncing::on_sync;
pub use walking::on_walk;
