//! The types by a kind.

use crate::command::{Command, Event};
use crate::history::Done;
use crate::trace::{Mark, Note, What};
use tg_kind::Kind;

/// A command over the kind's objects.
pub type CommandOf<K> = Command<<K as Kind>::Op, <K as Kind>::Ask>;

/// An event over the kind's objects.
pub type EventOf<K> = Event<<K as Kind>::Op, <K as Kind>::Ask>;

/// An answer over the kind's objects.
pub type WhatOf<K> = What<<K as Kind>::Op, <K as Kind>::Ask, <K as Kind>::Ans>;

/// A client's note over the kind's objects.
pub type NoteOf<K> = Note<<K as Kind>::Op, <K as Kind>::Ask, <K as Kind>::Ans>;

/// A reply over the kind's objects.
pub type MarkOf<K> = Mark<<K as Kind>::Op, <K as Kind>::Ask, <K as Kind>::Ans>;

/// A committed transaction over the kind's objects.
pub type DoneOf<K> = Done<<K as Kind>::Op>;
