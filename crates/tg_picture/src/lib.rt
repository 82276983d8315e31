//! A space-time picture of a run: what it says, apart from how it looks (the steps of the run, the course of each
//! packet, the replies, and the log), the words of messages and entries, and the picture as the text of an SVG.
#![tactic(auto)]

mod fences;
mod nodes;
mod picture;
mod steps;
mod svg;
mod telling;
mod ways;
mod words;

pub use fences::{Band, Epochs, bands};
pub use nodes::put_name;
pub use picture::{Arrow, LogBox, Moment, Picture, Reply, Standing};
pub use steps::{Happening, Step, node_of};
pub use svg::draw;
pub use telling::{Telling, tellings};
pub use ways::{Course, Ending, courses};
pub use words::{boxes_of, gone_below, put_label, put_packet};
