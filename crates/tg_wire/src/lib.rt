//! Packets, and how they are spelled.
#![tactic(auto)]

mod chains;
mod coding;
mod fault;
mod fields;
mod layout_messages;
mod layouts;
mod reads;
mod rules;
mod seqr_messages;
mod shapes;
mod sizes;
mod typing;
mod unit_answers;
mod unit_requests;
mod writes;

pub use coding::{decode, encode, no_spelling_begins_another, size};
pub use fault::WireFault;
pub use rules::fits;
