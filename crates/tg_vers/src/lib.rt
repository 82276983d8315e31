//! Versions of objects by parts: one past the position of the last change that overlaps a part.
#![tactic(auto)]

mod object;
mod versions;

pub use versions::Versions;
