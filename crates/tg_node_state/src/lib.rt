//! One node by itself, whatever its role.
#![tactic(auto)]

mod clients;
mod input;
mod own;
mod servers;

pub use input::{Input, InputOf};
pub use own::{Own, Stepped};
