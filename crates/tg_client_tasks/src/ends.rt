//! The end of a transaction.

ghost use Rattle.std.specs.Prelude.{◌≡◌, ◌<◌, ◌==◌, ◌^◌, ℕ, Bool, true, false, Option, Some, length, IfOk};
ghost use Rattle.tg_kind.specs.Of.{meaning_of};
ghost use Rattle.tg_model.specs.declared.command.Command.TheVariants as cmd;
ghost use Rattle.tg_protocol.specs.ClientSteps as told;
ghost use Rattle.tg_protocol.specs.Transactions as txs;
ghost use Rattle.tg_protocol.specs.Views.{View};
ghost use Rattle.tg_client_state.specs.States.{KeepsViewIf, KeepsMoved};
ghost use Rattle.tg_client_state.specs.Tasks.{told_purpose};
ghost use Rattle.tg_client_tasks.specs.Idle.{idle};

use crate::small::{new_job, says};
use std::alloc::Global;
use tg_base::{List, NoMemory, Pos};
use tg_client_state::{Moved, Purpose, State, one_note};
use tg_entry::Draft;
use tg_kind::Registry;
use tg_model::{Command, Note, What};
use tg_tx::Tx;

/// What a transaction's record is for.
fn purpose_of<K: Registry>(tx: &Tx<K>) -> Purpose<K>
    ensures { told_purpose (meaning_of K.Registry) result ≡ told.purpose_of (meaning_of K.Registry) tx.now }
{
    if tx.reads_nothing() {
        return Purpose::Writes;
    }
    Purpose::Judged
}

/// Where a transaction that writes nothing is committed: at its snapshot, and at 0 where it has none.
fn place_of<K: Registry>(tx: &Tx<K>) -> Pos
    ensures { result ≡ told.snapshot_or (meaning_of K.Registry) tx.now.snapshot }
{
    match tx.snapshot() {
        None => 0,
        Some(at) => at,
    }
}

/// A transaction that writes nothing ends at once. An `Err` is want of memory.
fn ends_reads<K: Registry>(
    state: State<K>,
    alloc: Global,
    number: u32,
    at: Pos,
) -> Result<Moved<K>, NoMemory>
    ensures { (t : txs.Tx) → number ≡ t.number → at ≡ told.snapshot_or (meaning_of K.Registry) t.snapshot → (v : Option (View (meaning_of K.Registry))) (n : ℕ) → KeepsViewIf (meaning_of K.Registry) state.view v → IfOk result (λ x. KeepsMoved (meaning_of K.Registry) state.rids.next x (told.end_by (meaning_of K.Registry) (idle (meaning_of K.Registry) state v n) cmd.End t true)) }
{
    let mut notes = one_note::<K>(alloc, number, What::End)?;
    notes.push(Note {
        tx: number,
        what: What::Committed { at },
    })?;
    Ok(says(state.closed(), alloc, notes))
}

/// The record of a transaction that writes is appended. An `Err` is want of memory.
#[tactic(auto, unfolding(tg_protocol::specs::Transactions::commit_record))]
fn ends_writes<K: Registry>(
    state: State<K>,
    alloc: Global,
    number: u32,
    draft: Draft,
    purpose: Purpose<K>,
) -> Result<Moved<K>, NoMemory>
    requires { state.rids.next < 2 ^ 62 }
    ensures { (t : txs.Tx) → number ≡ t.number → draft ≡ txs.commit_record t state.num → told_purpose (meaning_of K.Registry) purpose ≡ told.purpose_of (meaning_of K.Registry) t → (v : Option (View (meaning_of K.Registry))) (n : ℕ) → KeepsViewIf (meaning_of K.Registry) state.view v → IfOk result (λ x. KeepsMoved (meaning_of K.Registry) state.rids.next x (told.end_by (meaning_of K.Registry) (idle (meaning_of K.Registry) state v n) cmd.End t false)) }
{
    let notes = one_note::<K>(alloc, number, What::End)?;
    let job = new_job(alloc, Command::End)?;
    state.appends(alloc, job, draft, purpose, notes)
}

/// The open transaction ends. An `Err` is want of memory.
pub fn ends<K: Registry>(state: State<K>, alloc: Global) -> Result<Moved<K>, NoMemory>
    requires { state.rids.next < 2 ^ 62 }
    ensures { (v : Option (View (meaning_of K.Registry))) (n : ℕ) → KeepsViewIf (meaning_of K.Registry) state.view v → IfOk result (λ x. KeepsMoved (meaning_of K.Registry) state.rids.next x (told.ends (meaning_of K.Registry) (idle (meaning_of K.Registry) state v n) cmd.End state.tx)) }
{
    match &state.parts.tx {
        None => Ok(says(state, alloc, List::new(alloc))),
        Some(tx) => {
            let number = tx.number();
            if tx.writes_nothing() {
                let at = place_of(tx);
                return ends_reads(state, alloc, number, at);
            }
            let draft = tx.commit_record(alloc, state.parts.num)?;
            let purpose = purpose_of(tx);
            ends_writes(state, alloc, number, draft, purpose)
        }
    }
}
