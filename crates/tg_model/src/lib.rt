//! What a user relies on: commands, the marks of replies, the history of committed transactions, and
//! what makes a run legal. Nothing here knows a log, a stream, an epoch or a packet.
//!
//! The types take the op, the ask and the answer of a kind as parameters, so that definitions can speak
//! of them by a kind's meaning. Code names them by the kind: `CommandOf<K>`, `WhatOf<K>` and so on.
#![tactic(auto)]

mod command;
mod history;
mod kinds;
mod play;
mod refusal;
mod trace;

pub use command::{Command, Event, Word};
pub use history::Done;
pub use kinds::{CommandOf, DoneOf, EventOf, MarkOf, NoteOf, WhatOf};
pub use play::PlayEnd;
pub use refusal::Refusal;
pub use trace::{Mark, Note, What};
