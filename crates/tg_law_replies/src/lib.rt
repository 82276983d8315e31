//! Replies and outcomes: what plays of a log give, the history it tells, views that are true of it, and so the truth of
//! what clients are told and write.
#![tactic(auto)]

pub mod laws_of_books;
pub mod laws_of_history;
pub mod laws_of_pages;
pub mod laws_of_plays;
pub mod laws_of_replies;
pub mod laws_of_views;
