//! A world: all nodes of a cluster, all packets that were ever sent, and one step of it.
#![tactic(auto)]

mod check;
mod clients;
mod going;
mod ran;
mod told;
mod world;

pub use check::StepFault;
pub use going::{happens, updates};
pub use ran::{Ran, drain, settle};
pub use told::CommandStart;
pub use world::World;
