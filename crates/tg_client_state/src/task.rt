//! The machine that a client runs.

ghost use Rattle.std.specs.Prelude.{◌≡◌, IfOk};
ghost use Rattle.tg_kind.specs.Of.{meaning_of};
ghost use Rattle.tg_protocol.specs.ClientSteps.{task_again_asks};
ghost use Rattle.tg_client_state.specs.Tasks.{told_task, GoesOn, IsFit};

use crate::paused::Paused;
use crate::purpose::Purpose;
use std::alloc::Global;
use tg_append::{Append, Sync};
use tg_base::{List, NoMemory, Oid, Out, Projection, Rids};
use tg_copy::CopyRange;
use tg_kind::Registry;
use tg_reconf::Reconf;
use tg_stream::Walk;
use tg_trim::Trims;

/// The machine that a client runs.
#[derive(Drop)]
pub enum Task<K: Registry> {
    /// The tail is confirmed.
    Sync { sync: Sync },
    /// The walk of a stream, and the streams to be walked after it.
    Walk { walk: Walk, rest: List<Oid> },
    /// An entry is appended.
    Append { append: Append, purpose: Purpose<K> },
    /// All units are trimmed.
    Trim { trims: Trims },
    /// A stripe is brought to a spare unit.
    Copy { copy: CopyRange },
    /// The layout is changed.
    Reconf { reconf: Box<Reconf> },
}

impl<K: Registry> Task<K> {
    /// What a tick sends: the outstanding requests once more, in the order in which they were first sent, or the
    /// round that a refusal has set. An `Err` is want of memory.
    #[tactic(auto, unfolding(tg_protocol::specs::ClientSteps::task_asks))]
    pub fn again(
        &self,
        alloc: Global,
        stand: &Projection,
        rids: &mut Rids,
    ) -> Result<List<Out>, NoMemory>
        requires { IsFit (meaning_of K.Registry) stand.now (told_task (meaning_of K.Registry) self.now) }
        ensures asks { IfOk result (λ outs. outs ≡ task_again_asks (meaning_of K.Registry) stand.now (told_task (meaning_of K.Registry) self.now)) }
        ensures rids { rids.new ≡ rids.old }
    {
        match self {
            Task::Sync { sync } => sync.again(alloc, stand, rids),
            Task::Walk { walk, .. } => walk.again(alloc, rids),
            Task::Append { append, .. } => append.again(alloc, stand, rids),
            Task::Trim { trims } => {
                let _next = rids.next;
                trims.again(alloc, stand)
            },
            Task::Copy { copy } => copy.again(alloc, stand, rids),
            Task::Reconf { reconf } => reconf.again(alloc, rids),
        }
    }

    /// What goes on of it in a newer layout. It takes no memory.
    pub fn pause(self) -> Paused<K>
        ensures { GoesOn (meaning_of K.Registry) result (told_task (meaning_of K.Registry) self) }
    {
        match self {
            Task::Sync { sync } => Paused::Sync { oids: sync.pause() },
            Task::Walk { walk, rest } => Paused::Walk {
                walk: walk.pause(),
                rest,
            },
            Task::Append { append, purpose } => Paused::Append {
                append: append.pause(),
                purpose,
            },
            Task::Trim { trims } => Paused::Trim {
                below: trims.pause(),
            },
            Task::Copy { copy } => Paused::Copy {
                spare: copy.pause(),
            },
            Task::Reconf { reconf } => Paused::Reconf { reconf },
        }
    }
}
