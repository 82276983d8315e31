//! What a kind of replicated object is: its states, the ops that change them, the asks that look at
//! them, and the bytes of states and ops.
#![tactic(auto)]

mod bytes;
mod fault;
mod kind;
mod registry;
mod scope;
mod text;

pub use bytes::{in_front, in_whole};
pub use fault::KindFault;
pub use kind::Kind;
pub use registry::Registry;
pub use scope::{Key, Scope};
pub use text::{Text, put_word, text_in};
