//! One node over a link: it follows the lines of a text.
#![tactic(auto)]

mod asked;
mod follow;
mod header;
mod lines;
mod nodes;
mod replies;
mod session;
mod stages;
mod waits;

pub use session::node;
