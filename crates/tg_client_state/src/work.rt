//! A command that waits for its reply.

ghost use Rattle.std.specs.Prelude.{◌≡◌, IfOk};

use crate::hand::Hand;
use std::alloc::Global;
use std::marker::Model;
use tg_base::{List, NoMemory, Oid, Pos, StreamLink};
use tg_client_cells::StreamPositions;
use tg_kind::Registry;
use tg_model::CommandOf;

/// The parts of a command that waits for its reply.
#[derive(Drop)]
pub struct JobParts<K: Registry> {
    pub command: CommandOf<K>,
    /// The greatest position below which a unit has said, while this command waits, that all is trimmed.
    pub gone: Pos,
    /// What it was when the sync began.
    pub gone_before: Pos,
    /// The tail, as the last sync confirmed it.
    pub tail: Pos,
    /// And the last positions of the streams.
    pub lasts: List<StreamLink>,
    /// The streams that are walked, rising.
    pub oids: List<Oid>,
    /// From where on they are walked.
    pub lo: Pos,
    /// Their members.
    pub found: StreamPositions,
    /// Where their walks met a trim.
    pub trims: List<(Oid, Pos)>,
    /// The position of the record that `end` appended, and 0 before.
    pub at: Pos,
}

/// A command that waits for its reply, and how far it has come, but for what it has in hand. Contracts see its parts,
/// which stand on the heap.
pub struct Job<K: Registry> {
    pub parts: Box<JobParts<K>>,
}

// By hand, since a derived drop is proved anew wherever a value is dropped.
impl<K: Registry> Drop for Job<K> {
    fn drop(self) {
        let Job { parts: _ } = self;
    }
}

impl<K: Registry> Model for Job<K> {
    ghost use Rattle.tg_client_state.specs.declared.work.JobParts.{JobParts};

    ghost Value = { JobParts K K.Op K.Ask K.Ans };

    ghost view = { λ j. j.parts.value };
}

impl<K: Registry> Job<K> {
    /// A command of these parts. An `Err` is want of memory.
    pub fn new(alloc: Global, parts: JobParts<K>) -> Result<Job<K>, NoMemory>
        ensures { IfOk result (λ j. j ≡ parts) }
    {
        let parts = Box::new(alloc, parts)?;
        Ok(Job { parts })
    }

    /// Its command.
    pub fn into_command(self) -> CommandOf<K>
        ensures { result ≡ self.command }
    {
        let Job { parts } = self;
        let JobParts {
            command,
            gone: _,
            gone_before: _,
            tail: _,
            lasts: _,
            oids: _,
            lo: _,
            found: _,
            trims: _,
            at: _,
        } = Box::into_inner(parts);
        command
    }
}

/// A command that waits for its reply.
#[derive(Drop)]
pub struct Work<K: Registry> {
    pub job: Job<K>,
    pub hand: Hand<K>,
}
