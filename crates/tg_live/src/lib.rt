//! Runs over a link: all nodes of a script at once, whose packets a link carries.
#![tactic(auto)]

mod book;
mod copies;
mod live;
mod report;
mod rounds;
mod running;
mod sending;
mod stages;

pub use book::Book;
pub use report::run;
