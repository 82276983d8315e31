//! The log of a picture, and the words of messages and entries.

mod boxes;
mod entries;
mod labels;
mod layouts;
mod messages;

pub use boxes::{boxes_of, gone_below};
pub use labels::put_label;
pub use messages::put_packet;
