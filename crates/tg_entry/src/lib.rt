//! Entries of the log, and how they are spelled.
#![tactic(auto)]

mod body;
mod checkpoints;
mod coding;
mod drafts;
mod entry;
mod fault;
mod law;
mod needs;
mod parts;
mod reads;
mod writes;

pub use coding::{decode, encode, size};
pub use drafts::{Draft, Entries};
pub use entry::{Body, Entry, Head, WriteOp};
pub use fault::EntryFault;
pub use law::{linked_fit, records_fit};
pub use needs::needs_decision;
