//! Writes of the open transaction.

ghost use Rattle.std.specs.Prelude.{◌≡◌, ◌∷◌, [], ℕ, true, Option, Some, IfOk};
ghost use Rattle.tg_entry.specs.Records.{is_object};
ghost use Rattle.tg_kind.specs.Of.{meaning_of};
ghost use Rattle.tg_model.specs.declared.command.Command.TheVariants as cmd;
ghost use Rattle.tg_model.specs.declared.trace.What.TheVariants as what;
ghost use Rattle.tg_protocol.specs.Answers.{moved, note};
ghost use Rattle.tg_protocol.specs.Clients as told;
ghost use Rattle.tg_protocol.specs.ClientSteps.{refused_or};
ghost use Rattle.tg_protocol.specs.Transactions as txs;
ghost use Rattle.tg_protocol.specs.Views.{View};
ghost use Rattle.tg_client_state.specs.States.{KeepsViewIf, KeepsMoved};
ghost use Rattle.tg_client_tasks.specs.Idle.{idle};
ghost use Rattle.tg_client_tasks.specs.Tests.{put_by};

use crate::refusals::number_on;
use crate::small::says;
use std::alloc::Global;
use tg_base::{List, NoMemory, Oid};
use tg_client_state::{Moved, State, is_object, one_note};
use tg_kind::Registry;
use tg_model::{Refusal, What};
use tg_tx::{Tx, TxFault};

/// A command is refused at once. An `Err` is want of memory.
pub fn refuses<K: Registry>(
    state: State<K>,
    alloc: Global,
    why: Refusal,
) -> Result<Moved<K>, NoMemory>
    ensures { (v : Option (View (meaning_of K.Registry))) (n : ℕ) → KeepsViewIf (meaning_of K.Registry) state.view v → IfOk result (λ x. KeepsMoved (meaning_of K.Registry) state.rids.next x (moved (meaning_of K.Registry) (idle (meaning_of K.Registry) state v n) (note (meaning_of K.Registry) (told.number_on (meaning_of K.Registry) (idle (meaning_of K.Registry) state v n) why) (what.Refused why) ∷ []))) }
{
    let number = number_on::<K>(&state, why);
    let notes = one_note::<K>(alloc, number, What::Refused { why })?;
    Ok(says(state, alloc, notes))
}

/// A transaction with one write more, or why it doesn't take it; then it is as it was. An `Err` is want of memory.
fn put_in<K: Registry>(
    tx: Tx<K>,
    alloc: Global,
    oid: Oid,
    op: K::Op,
) -> Result<(Tx<K>, Option<Refusal>), NoMemory>
    requires { is_object oid ≡ true }
    ensures why { IfOk result (λ r. r.1 ≡ told.by_tx (meaning_of K.Registry) (txs.write_fault tx (told.write_of (meaning_of K.Registry) oid op))) }
    ensures now { IfOk result (λ r. r.0 ≡ put_by r.1 tx (told.write_of (meaning_of K.Registry) oid op)) }
{
    let mut tx = tx;
    match tx.put(alloc, oid, op) {
        Ok(()) => Ok((tx, None)),
        Err(TxFault::TooMany { what }) => Ok((tx, Some(Refusal::TooMany { what }))),
        Err(TxFault::TooLarge { bytes }) => Ok((tx, Some(Refusal::TooLarge { bytes }))),
        Err(TxFault::NoMemory) => Err(NoMemory),
    }
}

/// What is said of a write that the transaction took or didn't take. An `Err` is want of memory.
#[tactic(auto, unfolding(tg_protocol::specs::ClientSteps::accepts))]
fn put_said<K: Registry>(
    state: State<K>,
    alloc: Global,
    number: u32,
    oid: Oid,
    op: K::Op,
    why: Option<Refusal>,
) -> Result<Moved<K>, NoMemory>
    ensures { (t : txs.Tx) → number ≡ t.number → state.tx ≡ Some (put_by why t (told.write_of (meaning_of K.Registry) oid op)) → (v : Option (View (meaning_of K.Registry))) (n : ℕ) → KeepsViewIf (meaning_of K.Registry) state.view v → IfOk result (λ x. KeepsMoved (meaning_of K.Registry) state.rids.next x (refused_or (meaning_of K.Registry) (idle (meaning_of K.Registry) (record state { tx = Some t }) v n) (cmd.Put oid op) why)) }
{
    match why {
        Some(why) => refuses(state, alloc, why),
        None => {
            let notes = one_note::<K>(alloc, number, What::Put { oid, op })?;
            Ok(says(state, alloc, notes))
        }
    }
}

/// A write of this transaction, which is the open one. An `Err` is want of memory.
fn puts_in<K: Registry>(
    state: State<K>,
    alloc: Global,
    tx: Tx<K>,
    oid: Oid,
    op: K::Op,
) -> Result<Moved<K>, NoMemory>
    requires { is_object oid ≡ true }
    ensures { (v : Option (View (meaning_of K.Registry))) (n : ℕ) → KeepsViewIf (meaning_of K.Registry) state.view v → IfOk result (λ x. KeepsMoved (meaning_of K.Registry) state.rids.next x (refused_or (meaning_of K.Registry) (idle (meaning_of K.Registry) (record state { tx = Some tx }) v n) (cmd.Put oid op) (told.put_fault (meaning_of K.Registry) (Some tx) (told.write_of (meaning_of K.Registry) oid op)))) }
{
    let number = tx.number();
    let kept = K::copy_op(&op)?;
    let (tx, why) = put_in(tx, alloc, oid, op)?;
    let mut state = state;
    state.parts.tx = Some(tx);
    put_said(state, alloc, number, oid, kept, why)
}

/// A write of the open transaction; where none is open, nothing. An `Err` is want of memory, or an object that no
/// entry may name.
#[tactic(auto, unfolding(tg_protocol::specs::ClientSteps::accepts))]
pub fn puts<K: Registry>(
    state: State<K>,
    alloc: Global,
    oid: Oid,
    op: K::Op,
) -> Result<Moved<K>, NoMemory>
    ensures { (v : Option (View (meaning_of K.Registry))) (n : ℕ) → KeepsViewIf (meaning_of K.Registry) state.view v → IfOk result (λ x. KeepsMoved (meaning_of K.Registry) state.rids.next x (refused_or (meaning_of K.Registry) (idle (meaning_of K.Registry) state v n) (cmd.Put oid op) (told.put_fault (meaning_of K.Registry) state.tx (told.write_of (meaning_of K.Registry) oid op)))) }
{
    if !is_object(oid) {
        return Err(NoMemory);
    }
    let mut state = state;
    let open = state.parts.tx.take();
    match open {
        None => Ok(says(state, alloc, List::new(alloc))),
        Some(tx) => puts_in(state, alloc, tx, oid, op),
    }
}
