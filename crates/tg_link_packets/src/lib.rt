//! Packets over a link: each is sent as its spelling, and what comes is read as one.
#![tactic(auto)]

mod receiving;
mod sending;

pub use receiving::{Came, receive};
pub use sending::{send, send_all};
