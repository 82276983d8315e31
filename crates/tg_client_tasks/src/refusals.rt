//! Why a command is refused in the step that takes it.

ghost use Rattle.std.specs.Prelude.{◌≡◌, not, Option, IfOk};
ghost use Rattle.tg_kind.specs.Of.{meaning_of};
ghost use Rattle.tg_model.specs.declared.refusal.Refusal.TheVariants as cause;
ghost use Rattle.tg_protocol.specs.Clients as told;
ghost use Rattle.tg_protocol.specs.Layouts.{change_fault, spare_fault};
ghost use Rattle.tg_protocol.specs.Transactions as txs;
ghost use Rattle.tg_protocol.specs.Words.{first_some, where_true};
ghost use Rattle.tg_client_state.specs.States.{Rest, client_of};
ghost use Rattle.tg_tx.specs.Faults.{Judges};
ghost use Rattle.tg_client_tasks.specs.Tests.{early};

use crate::small::{has, looked_at};
use std::alloc::Global;
use tg_base::{Change, Join, Many, NoMemory, Oid, Projection, ReadMark};
use tg_client_state::State;
use tg_kind::Registry;
use tg_model::{Command, CommandOf, Refusal};
use tg_proj::{ProjFault, change_fault, spare_fault};
use tg_tx::{Tx, TxFault};

/// How many objects a client may host.
const MOST_HOSTED: usize = 128;

/// The first of these that is one.
fn first(tests: &[Option<Refusal>]) -> Option<Refusal>
    ensures { result ≡ first_some tests.now }
{
    match tests {
        [] => None,
        [test, others @ ..] => match test {
            None => first(others),
            Some(why) => Some(*why),
        },
    }
}

fn where_true(holds: bool, why: Refusal) -> Option<Refusal>
    ensures { result ≡ where_true holds why }
{
    if holds { Some(why) } else { None }
}

/// A refusal because of the layout.
fn by_layout<K: Registry>(fault: Option<ProjFault>) -> Option<Refusal>
    ensures { result ≡ told.by_layout (meaning_of K.Registry) fault }
{
    match fault {
        None => None,
        Some(ProjFault::TooMany { what }) => Some(Refusal::TooMany { what }),
        Some(ProjFault::NotClosed { range }) => Some(Refusal::NotClosed { range }),
        Some(ProjFault::NoStripe { range, stripe }) => Some(Refusal::NoStripe { range, stripe }),
        Some(ProjFault::InChain { unit }) => Some(Refusal::InChain { unit }),
        Some(ProjFault::Returned { unit }) => Some(Refusal::Returned { unit }),
        Some(ProjFault::NoReplica { range, stripe }) => Some(Refusal::NoReplica { range, stripe }),
        Some(ProjFault::NotAcked { unit }) => Some(Refusal::Returned { unit }),
    }
}

/// A refusal because of a transaction's limits. An `Err` is want of memory.
pub fn by_tx<K: Registry>(judged: Result<(), TxFault>) -> Result<Option<Refusal>, NoMemory>
    ensures { (f : Option txs.TxFault) → Judges judged f → IfOk result (λ why. why ≡ told.by_tx (meaning_of K.Registry) f) }
{
    match judged {
        Ok(()) => Ok(None),
        Err(TxFault::TooMany { what }) => Ok(Some(Refusal::TooMany { what })),
        Err(TxFault::TooLarge { bytes }) => Ok(Some(Refusal::TooLarge { bytes })),
        Err(TxFault::NoMemory) => Err(NoMemory),
    }
}

fn no_tx<K: Registry>(state: &State<K>) -> Option<Refusal>
    ensures { (r : Rest (meaning_of K.Registry)) → result ≡ told.no_tx (meaning_of K.Registry) (client_of (meaning_of K.Registry) state.now r) }
{
    where_true(state.parts.tx.is_none(), Refusal::NoTx)
}

fn tx_open<K: Registry>(state: &State<K>) -> Option<Refusal>
    ensures { (r : Rest (meaning_of K.Registry)) → result ≡ told.tx_open (meaning_of K.Registry) (client_of (meaning_of K.Registry) state.now r) }
{
    where_true(state.parts.tx.is_some(), Refusal::TxOpen)
}

fn wrong_kind(allowed: bool, oid: Oid) -> Option<Refusal>
    ensures { result ≡ where_true (not allowed) (cause.WrongKind oid) }
{
    where_true(!allowed, Refusal::WrongKind { oid })
}

fn not_registered<K: Registry>(state: &State<K>, oid: Oid) -> Option<Refusal>
    ensures { (r : Rest (meaning_of K.Registry)) → result ≡ told.not_registered (meaning_of K.Registry) (client_of (meaning_of K.Registry) state.now r) oid }
{
    where_true(
        !state.parts.dir.registered(oid),
        Refusal::NotRegistered { oid },
    )
}

fn not_hosted<K: Registry>(state: &State<K>, oid: Oid) -> Option<Refusal>
    ensures { (r : Rest (meaning_of K.Registry)) → result ≡ told.not_hosted (meaning_of K.Registry) (client_of (meaning_of K.Registry) state.now r) oid }
{
    where_true(!has(&state.parts.hosted, oid), Refusal::NotHosted { oid })
}

fn too_many_hosted<K: Registry>(state: &State<K>, oid: Oid) -> Option<Refusal>
    ensures { (r : Rest (meaning_of K.Registry)) → result ≡ told.too_many_hosted (meaning_of K.Registry) (client_of (meaning_of K.Registry) state.now r) oid }
{
    let full = !has(&state.parts.hosted, oid) && state.parts.hosted.len() >= MOST_HOSTED;
    where_true(full, Refusal::TooMany { what: Many::Hosted })
}

/// Whether the transaction takes a read of what an ask looks at. An `Err` is want of memory.
fn ask_fault<K: Registry>(
    alloc: Global,
    tx: &Option<Tx<K>>,
    oid: Oid,
    ask: &K::Ask,
) -> Result<Option<Refusal>, NoMemory>
    ensures { IfOk result (λ why. why ≡ told.ask_fault (meaning_of K.Registry) tx.now oid (K.looked ask.now)) }
{
    match tx {
        None => Ok(None),
        Some(tx) => {
            let part = looked_at::<K>(alloc, ask)?;
            let read = ReadMark {
                oid,
                part,
                version: 0,
            };
            by_tx::<K>(tx.may_read(&read))
        }
    }
}

#[tactic(auto, unfolding(tg_protocol::specs::Layouts::change_fault))]
fn reconf_fault<K: Registry>(stand: &Projection, change: &Change) -> Option<Refusal>
    ensures { result ≡ told.by_layout (meaning_of K.Registry) (change_fault stand.now change.now) }
{
    by_layout::<K>(change_fault(stand, change))
}

fn copy_fault<K: Registry>(stand: &Projection, spare: Join) -> Option<Refusal>
    ensures { result ≡ told.by_layout (meaning_of K.Registry) (spare_fault stand.now spare) }
{
    by_layout::<K>(spare_fault(stand, spare))
}

/// Why a client for which no command waits refuses a command, before it looks at a write's record.
///
/// An `Err` is want of memory.
#[tactic(auto, unfolding(tg_protocol::specs::Clients::tests, tg_protocol::specs::Clients::copy_fault))]
pub fn refusal<K: Registry>(
    state: &State<K>,
    alloc: Global,
    command: &CommandOf<K>,
) -> Result<Option<Refusal>, NoMemory>
    ensures { (r : Rest (meaning_of K.Registry)) → IfOk result (λ why. why ≡ early (meaning_of K.Registry) (client_of (meaning_of K.Registry) state.now r) command.now) }
{
    match command {
        Command::Host { oid } => Ok(first(&[
            tx_open(state),
            not_registered(state, *oid),
            too_many_hosted(state, *oid),
        ])),
        Command::Begin => Ok(tx_open(state)),
        Command::Put { oid, op } => Ok(first(&[
            no_tx(state),
            wrong_kind(K::allows(*oid, op), *oid),
            not_registered(state, *oid),
        ])),
        Command::Ask { oid, ask } => {
            let fault = ask_fault(alloc, &state.parts.tx, *oid, ask)?;
            Ok(first(&[
                no_tx(state),
                wrong_kind(K::allows_ask(*oid, ask), *oid),
                not_hosted(state, *oid),
                fault,
            ]))
        }
        Command::End => Ok(no_tx(state)),
        Command::Drop => Ok(no_tx(state)),
        Command::Fate { .. } => Ok(tx_open(state)),
        Command::Decide { .. } => Ok(tx_open(state)),
        Command::Checkpoint { oid } => Ok(first(&[tx_open(state), not_hosted(state, *oid)])),
        Command::Forget { oid, .. } => Ok(first(&[tx_open(state), not_hosted(state, *oid)])),
        Command::Trim => Ok(tx_open(state)),
        Command::Reconf { change } => Ok(first(&[
            tx_open(state),
            reconf_fault::<K>(&state.parts.stand, change),
        ])),
        Command::Copy {
            unit,
            range,
            stripe,
        } => {
            let spare = Join {
                unit: *unit,
                range: *range,
                stripe: *stripe,
            };
            Ok(first(&[tx_open(state), copy_fault::<K>(&state.parts.stand, spare)]))
        }
        Command::AskAt { oid, ask, .. } => Ok(first(&[
            tx_open(state),
            wrong_kind(K::allows_ask(*oid, ask), *oid),
            not_hosted(state, *oid),
        ])),
        Command::Rescue { .. } => Ok(tx_open(state)),
    }
}

/// The number of the transaction that a refusal speaks of. It takes no memory.
pub fn number_on<K: Registry>(state: &State<K>, why: Refusal) -> u32
    ensures { (r : Rest (meaning_of K.Registry)) → result ≡ told.number_on (meaning_of K.Registry) (client_of (meaning_of K.Registry) state.now r) why }
{
    match why {
        Refusal::Busy { .. } => 0,
        Refusal::NoTx => 0,
        Refusal::TxOpen => 0,
        _ => tx_number::<K>(&state.parts.tx),
    }
}

/// The number of the open transaction, and 0 where none is open. It takes no memory.
pub fn tx_number<K: Registry>(tx: &Option<Tx<K>>) -> u32
    ensures { result ≡ told.tx_number (meaning_of K.Registry) tx.now }
{
    match tx {
        None => 0,
        Some(tx) => tx.number(),
    }
}
