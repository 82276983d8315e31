//! A source, read line by line, and the header of a script.
#![tactic(auto)]

mod header;
mod line_reader;

pub use header::{Opening, read_header};
pub use line_reader::{LineReader, read_all};
