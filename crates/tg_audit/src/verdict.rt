//! Verdicts.

use tg_base::Clause;

/// What is told of a transcript.
#[derive(Clone, Copy, PartialEq, Eq)]
pub enum Verdict {
    /// The run was legal.
    Legal,
    /// It wasn't: the first line, from 1, at which a clause of a legal run fails, and the first such clause there.
    Illegal { line: u64, clause: Clause },
}
