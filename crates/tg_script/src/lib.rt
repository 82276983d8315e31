//! Scripts: a header that declares a cluster, and then a line for each event.
#![tactic(auto)]

mod change;
mod command;
mod cut;
mod header;
mod header_text;
mod line;
mod line_text;
mod nodes;
mod put;
mod reader;

pub use header::parse_header;
pub use header_text::print_header;
pub use line::{Line, MAX_LINE, parse_line};
pub use line_text::print_line;
