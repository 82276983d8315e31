//! A client: it takes commands, asks servers, and answers.
#![tactic(auto)]

mod again;
mod client;
mod delivering;
mod feeding;
mod few;
mod steps;

pub use client::{Client, Turned};
