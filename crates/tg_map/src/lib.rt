//! Maps from texts to texts, in the order in which their keys came.
#![tactic(auto)]

mod map;
mod word;

pub use map::{Map, MapAns, MapAsk, MapOp};
