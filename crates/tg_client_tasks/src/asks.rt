//! Asks of the open transaction.

ghost use Rattle.std.specs.Prelude.{◌≡◌, ◌<◌, ◌^◌, ℕ, true, Option, Some, IfOk, IsSome};
ghost use Rattle.tg_kind.specs.Of.{meaning_of};
ghost use Rattle.tg_base.specs.Parts.{is_part};
ghost use Rattle.tg_model.specs.declared.command.Command.TheVariants as cmd;
ghost use Rattle.tg_protocol.specs.ClientSteps as told;
ghost use Rattle.tg_protocol.specs.Transactions as txs;
ghost use Rattle.tg_protocol.specs.Views.{View, view_version};
ghost use Rattle.tg_client_state.specs.States.{KeepsViewIf, KeepsMoved};
ghost use Rattle.tg_client_tasks.specs.Idle.{idle};
ghost use Rattle.tg_client_tasks.specs.Tests.{answer_in};

use crate::refusals::tx_number;
use crate::small::{looked_at, says, works_on};
use std::alloc::Global;
use tg_base::{List, NoMemory, Oid, Part, Pos};
use tg_client_state::{Moved, State, is_object, one_note};
use tg_kind::Registry;
use tg_model::{Command, What};
use tg_play::View as Played;
use tg_tx::Tx;

/// The answer to an ask by the view, with the version of what the ask looks at; None where no view hosts the object.
/// An `Err` is want of memory.
fn answer_in<K: Registry>(
    view: &Option<Played<K>>,
    alloc: Global,
    oid: Oid,
    ask: &K::Ask,
) -> Result<Option<(K::Ans, u64)>, NoMemory>
    ensures { (v : Option (View (meaning_of K.Registry))) → KeepsViewIf (meaning_of K.Registry) view.now v → IfOk result (λ a. a ≡ answer_in (meaning_of K.Registry) v oid ask.now) }
{
    match view {
        None => Ok(None),
        Some(view) => match view.state(oid) {
            None => Ok(None),
            Some(state) => {
                let answer = state.ask(alloc, ask)?;
                let part = looked_at::<K>(alloc, ask)?;
                let version = view.version(oid, &part);
                Ok(Some((answer, version)))
            }
        },
    }
}

/// The open transaction with one read more. An `Err` is want of memory, or a read that it doesn't take.
fn read_in<K: Registry>(
    tx: Option<Tx<K>>,
    oid: Oid,
    part: Part,
    at: Pos,
    version: u64,
) -> Result<Option<Tx<K>>, NoMemory>
    requires part { is_part part ≡ true }
    requires open { IsSome tx }
    ensures { (t : txs.Tx) → tx ≡ Some t → IfOk result (λ u. u ≡ Some (txs.tx_read t (record { oid = oid; part = part; version = version }) at)) }
{
    match tx {
        None => unreachable!(),
        Some(tx) => {
            let tx = with_read(tx, oid, part, at, version)?;
            Ok(Some(tx))
        }
    }
}

/// Likewise.
fn with_read<K: Registry>(
    tx: Tx<K>,
    oid: Oid,
    part: Part,
    at: Pos,
    version: u64,
) -> Result<Tx<K>, NoMemory>
    requires { is_part part ≡ true }
    ensures { IfOk result (λ t. t ≡ txs.tx_read tx (record { oid = oid; part = part; version = version }) at) }
{
    if !is_object(oid) {
        return Err(NoMemory);
    }
    let mut tx = tx;
    match tx.read(oid, part, at, version) {
        Ok(()) => Ok(tx),
        Err(_) => Err(NoMemory),
    }
}

/// An ask is answered at the transaction's snapshot, and its read is noted. An `Err` is want of memory, or a read that
/// the transaction doesn't take.
fn asked<K: Registry>(
    state: State<K>,
    alloc: Global,
    oid: Oid,
    ask: K::Ask,
    at: Pos,
    answer: K::Ans,
    version: u64,
) -> Result<Moved<K>, NoMemory>
    requires { IsSome state.tx }
    ensures { (t : txs.Tx) (w : View (meaning_of K.Registry)) (s : K) → state.tx ≡ Some t → answer ≡ K.answered s ask → version ≡ view_version (meaning_of K.Registry) w oid (K.looked ask) → (v : Option (View (meaning_of K.Registry))) (n : ℕ) → KeepsViewIf (meaning_of K.Registry) state.view v → IfOk result (λ x. KeepsMoved (meaning_of K.Registry) state.rids.next x (told.asked_of_state (meaning_of K.Registry) (idle (meaning_of K.Registry) state v n) t at oid ask w (Some s))) }
{
    let part = looked_at::<K>(alloc, &ask)?;
    let number = tx_number::<K>(&state.parts.tx);
    let notes = one_note::<K>(
        alloc,
        number,
        What::Asked {
            oid,
            ask,
            at,
            ans: answer,
        },
    )?;
    let mut state = state;
    let tx = read_in::<K>(state.parts.tx.take(), oid, part, at, version)?;
    state.parts.tx = tx;
    Ok(says(state, alloc, notes))
}

/// An ask at the transaction's snapshot is answered from the view; without one, nothing. An `Err` is want of memory, or
/// a read that the transaction doesn't take.
fn asks_view<K: Registry>(
    state: State<K>,
    alloc: Global,
    oid: Oid,
    ask: K::Ask,
    at: Pos,
) -> Result<Moved<K>, NoMemory>
    requires { IsSome state.tx }
    ensures { (t : txs.Tx) → state.tx ≡ Some t → (v : Option (View (meaning_of K.Registry))) (n : ℕ) → KeepsViewIf (meaning_of K.Registry) state.view v → IfOk result (λ x. KeepsMoved (meaning_of K.Registry) state.rids.next x (told.asks_view (meaning_of K.Registry) (idle (meaning_of K.Registry) state v n) t at oid ask v)) }
{
    match answer_in::<K>(&state.parts.view, alloc, oid, &ask)? {
        None => Ok(says(state, alloc, List::new(alloc))),
        Some((answer, version)) => asked(state, alloc, oid, ask, at, answer, version),
    }
}

/// An ask of the open transaction: the first one waits for a sync, and later ones are answered at its snapshot.
///
/// An `Err` is want of memory, or a read that the transaction doesn't take.
#[tactic(auto, unfolding(tg_protocol::specs::ClientSteps::accepts))]
pub fn asks<K: Registry>(
    state: State<K>,
    alloc: Global,
    oid: Oid,
    ask: K::Ask,
) -> Result<Moved<K>, NoMemory>
    requires { state.rids.next < 2 ^ 62 }
    ensures { (v : Option (View (meaning_of K.Registry))) (n : ℕ) → KeepsViewIf (meaning_of K.Registry) state.view v → IfOk result (λ x. KeepsMoved (meaning_of K.Registry) state.rids.next x (told.asks (meaning_of K.Registry) (idle (meaning_of K.Registry) state v n) (cmd.Ask oid ask) oid ask state.tx)) }
{
    match &state.parts.tx {
        None => Ok(says(state, alloc, List::new(alloc))),
        Some(tx) => match tx.snapshot() {
            None => works_on(state, alloc, Command::Ask { oid, ask }),
            Some(at) => asks_view(state, alloc, oid, ask, at),
        },
    }
}
