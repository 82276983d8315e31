//! What words ask for.

use crate::fault::Fault;
use crate::load::Load;
use crate::request::Request;
use crate::rounds::Rounds;
use crate::sizes::Sizes;
use std::alloc::Global;

/// What is timed.
#[derive(Clone, Copy)]
pub enum Timed {
    /// Ops on objects.
    Kinds(Rounds),
    /// Stores on units.
    Unit(Load),
    /// Plays of a view.
    Plays(Sizes),
}

impl Timed {
    /// The number that is printed. An `Err` is want of memory.
    pub fn number(self, alloc: Global) -> Result<u64, Fault> {
        match self {
            Timed::Kinds(rounds) => rounds.sum(alloc),
            Timed::Unit(load) => load.sum(alloc),
            Timed::Plays(sizes) => sizes.version(alloc),
        }
    }
}

/// What may be asked for.
#[derive(Clone, Copy)]
pub enum Task {
    /// What an object of each kind answers after an op.
    Answers,
    /// A number.
    Timed(Timed),
}

impl Task {
    /// What words ask for, None where they ask for nothing.
    pub fn of(words: &[String]) -> Option<Task> {
        let (first, rest) = words.split_first()?;
        match first.as_str() {
            "kinds" => match Request::of(rest)? {
                Request::Answers => Some(Task::Answers),
                Request::Timed(rounds) => Some(Task::Timed(Timed::Kinds(rounds))),
            },
            "unit" => Some(Task::Timed(Timed::Unit(Load::of(rest)?))),
            "plays" => Some(Task::Timed(Timed::Plays(Sizes::of(rest)?))),
            _ => None,
        }
    }
}
