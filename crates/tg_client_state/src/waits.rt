//! The command waits with a machine that has begun.

ghost use Rattle.std.specs.Prelude.{◌≡◌, ◌<◌, ◌≤◌, ◌==◌, ◌^◌, ℕ, false, [], IfOk};
ghost use Rattle.tg_kind.specs.Of.{meaning_of};
ghost use Rattle.tg_protocol.specs.Answers as told;
ghost use Rattle.tg_protocol.specs.Clients as rules;
ghost use Rattle.tg_client_state.specs.Tasks.{told_purpose, told_task, KeepsJob};
ghost use Rattle.tg_client_state.specs.States.{Rest, client_of, KeepsViewIf, KeepsMoved, IsBegun};
ghost use Rattle.tg_client_state.specs.Counts.{HasNumbersLeft};

use crate::begin::Begun;
use crate::moved::Moved;
use crate::state::State;
use crate::{Hand, Job, Purpose, Task, Work};
use std::alloc::Global;
use tg_base::{List, NoMemory, Oid, Pos};
use tg_client_cells::StreamPositions;
use tg_entry::{Draft, Entry};
use tg_kind::Registry;
use tg_model::{NoteOf, What};

impl<K: Registry> State<K> {
    /// The command waits with a machine that has begun. An `Err` is want of memory.
    fn holds(
        self,
        alloc: Global,
        job: Job<K>,
        begun: Begun<Task<K>>,
        notes: List<NoteOf<K>>,
    ) -> Result<Moved<K>, NoMemory>
        ensures { (r : Rest (meaning_of K.Registry)) (w : rules.Work (meaning_of K.Registry)) (old : ℕ) → IsBegun (meaning_of K.Registry) self.known self.stand self.rids.next begun → old ≤ self.rids.next → KeepsViewIf (meaning_of K.Registry) self.view r.view → KeepsJob (meaning_of K.Registry) job w → IfOk result (λ x. KeepsMoved (meaning_of K.Registry) old x (told.holds (meaning_of K.Registry) (client_of (meaning_of K.Registry) self r) w (told_task (meaning_of K.Registry) begun.machine) begun.rids.next notes)) }
    {
        let Begun {
            machine,
            sends,
            rids,
        } = begun;
        let task = Box::new(alloc, machine)?;
        let hand = Hand::Doing { task };
        let mut state = self;
        state.parts.rids = rids;
        Ok(Moved {
            state,
            work: Some(Work { job, hand }),
            sends,
            notes,
        })
    }

    /// A record is appended, for this purpose. An `Err` is want of memory; and a draft whose page would have more than
    /// 4,096 bytes is given up.
    pub fn appends(
        self,
        alloc: Global,
        job: Job<K>,
        draft: Draft,
        purpose: Purpose<K>,
        notes: List<NoteOf<K>>,
    ) -> Result<Moved<K>, NoMemory>
        requires { self.rids.next < 2 ^ 62 }
        ensures { (r : Rest (meaning_of K.Registry)) (w : rules.Work (meaning_of K.Registry)) (old : ℕ) → old ≤ self.rids.next → KeepsViewIf (meaning_of K.Registry) self.view r.view → KeepsJob (meaning_of K.Registry) job w → IfOk result (λ x. KeepsMoved (meaning_of K.Registry) old x (told.appends (meaning_of K.Registry) (client_of (meaning_of K.Registry) self r) w draft (told_purpose (meaning_of K.Registry) purpose) notes)) }
    {
        let begun = self.begun_append(alloc, draft)?;
        let begun = Begun {
            machine: Task::Append {
                append: begun.machine,
                purpose,
            },
            sends: begun.sends,
            rids: begun.rids,
        };
        self.holds(alloc, job, begun, notes)
    }

    /// A sync over these streams, which are then walked. An `Err` is want of memory.
    pub fn syncs(self, alloc: Global, job: Job<K>, oids: List<Oid>) -> Result<Moved<K>, NoMemory>
        requires { self.rids.next < 2 ^ 62 }
        ensures { (r : Rest (meaning_of K.Registry)) (w : rules.Work (meaning_of K.Registry)) (old : ℕ) → old ≤ self.rids.next → KeepsViewIf (meaning_of K.Registry) self.view r.view → KeepsJob (meaning_of K.Registry) job w → IfOk result (λ x. KeepsMoved (meaning_of K.Registry) old x (told.syncs (meaning_of K.Registry) (client_of (meaning_of K.Registry) self r) w oids)) }
    {
        let begun = self.begun_sync(alloc, &oids)?;
        let begun = Begun {
            machine: Task::Sync {
                sync: begun.machine,
            },
            sends: begun.sends,
            rids: begun.rids,
        };
        let job = over_streams(alloc, job, oids);
        self.holds(alloc, job, begun, List::new(alloc))
    }

    /// The decision record for a position is appended, in an entry's streams. An `Err` is want of memory; and an entry
    /// that isn't in one to sixteen rising streams of objects is given up.
    pub fn decides(
        self,
        alloc: Global,
        job: Job<K>,
        entry: &Entry,
        at: Pos,
        yes: bool,
        purpose: Purpose<K>,
    ) -> Result<Moved<K>, NoMemory>
        requires { HasNumbersLeft (meaning_of K.Registry) self }
        ensures { (r : Rest (meaning_of K.Registry)) (w : rules.Work (meaning_of K.Registry)) (old : ℕ) → old ≤ self.rids.next → KeepsViewIf (meaning_of K.Registry) self.view r.view → KeepsJob (meaning_of K.Registry) job w → IfOk result (λ x. KeepsMoved (meaning_of K.Registry) old x (told.appends (meaning_of K.Registry) (told.with_decision (meaning_of K.Registry) (client_of (meaning_of K.Registry) self r)) w (told.decision (meaning_of K.Registry) (client_of (meaning_of K.Registry) self r) entry.now at yes) (told_purpose (meaning_of K.Registry) purpose) [])) }
    {
        let draft = self.decision(alloc, entry, at, yes)?;
        let mut state = self;
        state.parts.decisions += 1;
        state.appends(alloc, job, draft, purpose, List::new(alloc))
    }

    /// All units trim what is below a position; nothing is sent for 0. An `Err` is want of memory.
    pub fn trims(self, alloc: Global, job: Job<K>, below: Pos) -> Result<Moved<K>, NoMemory>
        requires { self.rids.next < 2 ^ 62 }
        ensures { (r : Rest (meaning_of K.Registry)) (w : rules.Work (meaning_of K.Registry)) (old : ℕ) → old ≤ self.rids.next → KeepsViewIf (meaning_of K.Registry) self.view r.view → KeepsJob (meaning_of K.Registry) job w → IfOk result (λ x. KeepsMoved (meaning_of K.Registry) old x (told.trims (meaning_of K.Registry) (client_of (meaning_of K.Registry) self r) w below)) }
    {
        if below == 0 {
            return self.answers(alloc, 0, What::Trimmed { mark: below });
        }
        self.trims_some(alloc, job, below)
    }

    /// Likewise below a position that isn't 0.
    fn trims_some(self, alloc: Global, job: Job<K>, below: Pos) -> Result<Moved<K>, NoMemory>
        requires some { (below == 0) ≡ false }
        requires numbers { self.rids.next < 2 ^ 62 }
        ensures { (r : Rest (meaning_of K.Registry)) (w : rules.Work (meaning_of K.Registry)) (old : ℕ) → old ≤ self.rids.next → KeepsViewIf (meaning_of K.Registry) self.view r.view → KeepsJob (meaning_of K.Registry) job w → IfOk result (λ x. KeepsMoved (meaning_of K.Registry) old x (told.trims (meaning_of K.Registry) (client_of (meaning_of K.Registry) self r) w below)) }
    {
        let begun = self.begun_trims(alloc, below)?;
        let begun = Begun {
            machine: Task::Trim {
                trims: begun.machine,
            },
            sends: begun.sends,
            rids: begun.rids,
        };
        self.holds(alloc, job, begun, List::new(alloc))
    }
}

/// The command, with a sync over these streams before it. It takes no memory.
fn over_streams<K: Registry>(alloc: Global, job: Job<K>, oids: List<Oid>) -> Job<K>
    ensures { result ≡ record job { oids = oids; gone_before = job.gone; trims = []; found = [] } }
{
    let mut job = job;
    job.parts.gone_before = job.parts.gone;
    job.parts.oids = oids;
    job.parts.found = StreamPositions::new(alloc);
    job.parts.trims = List::new(alloc);
    job
}
