//! A transaction that is open: what it has read, and what it will write.
#![tactic(auto)]

mod fault;
mod limits;
mod pending;
mod reads;
mod sizes;
mod tx;
mod writes;

pub use fault::TxFault;
pub use tx::Tx;
