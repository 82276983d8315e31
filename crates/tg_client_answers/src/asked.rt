//! What a view answers to an ask, and the read of it that a transaction notes.

ghost use Rattle.std.specs.Prelude.{◌≡◌, ◌≤◌, true, length, IfOk, IfSome, IsSome};
ghost use Rattle.tg_base.specs.declared.marks.Part.TheVariants.{Text};
ghost use Rattle.tg_base.specs.Parts.{is_part};
ghost use Rattle.tg_kind.specs.Of.{meaning_of};
ghost use Rattle.tg_kind.specs.Parts as scopes;
ghost use Rattle.tg_protocol.specs.Transactions.{tx_read};
ghost use Rattle.tg_protocol.specs.Views as views;
ghost use Rattle.tg_play.specs.Relations.{KeepsView};
ghost use Rattle.tg_client_answers.specs.Fates.{IsAnswer, Notes};

use std::alloc::Global;
use tg_base::{Blob, List, NoMemory, Oid, Part, Pos};
use tg_client_state::is_object;
use tg_kind::{Key, Registry, Scope};
use tg_play::View;
use tg_tx::Tx;

/// The answer to an ask, the part at which it looks, and the version of that part.
#[derive(Drop)]
pub struct Answer<A> {
    pub ans: A,
    pub part: Part,
    pub version: u64,
}

// The part that bytes name.
fn text_part(alloc: Global, text: &[u8]) -> Result<Part, NoMemory>
    requires { length text.now ≤ 4096 }
    ensures { IfOk result (λ p. p ≡ Text text.now) }
{
    let mut bytes = List::new(alloc);
    bytes.extend(text)?;
    Ok(Part::Text(Blob::new(alloc, bytes)?.unwrap()))
}

// The part that a scope names.
fn part_in(alloc: Global, scope: Scope<'_>) -> Result<Part, NoMemory>
    requires { is_part (scopes.part_of scope) ≡ true }
    ensures { IfOk result (λ p. p ≡ scopes.part_of scope.entry) }
{
    match scope {
        Scope::All => Ok(Part::All),
        Scope::One(Key::Num(number)) => Ok(Part::Num(number)),
        Scope::One(Key::Text(text)) => text_part(alloc, text.as_bytes()),
    }
}

// The part at which an ask looks. An `Err` is want of memory.
fn looked_at<K: Registry>(alloc: Global, ask: &K::Ask) -> Result<Part, NoMemory>
    ensures part { IfOk result (λ p. p ≡ K.looked ask.now) }
    ensures lawful { is_part (K.looked ask.now) ≡ true }
{
    let scope = K::look(ask);
    part_in(alloc, scope)
}

/// What a view answers to an ask, None where it doesn't host the object. An `Err` is want of memory.
pub fn answer_of<K: Registry>(
    view: &View<K>,
    alloc: Global,
    oid: Oid,
    ask: &K::Ask,
) -> Result<Option<Answer<K::Ans>>, NoMemory>
    ensures told { (v : views.View (meaning_of K.Registry)) → KeepsView (meaning_of K.Registry) view.now v → IfOk result (λ x. IsAnswer (meaning_of K.Registry) v oid ask.now x) }
    ensures lawful { IfOk result (λ x. IfSome x (λ a. is_part a.part ≡ true)) }
{
    match view.state(oid) {
        None => Ok(None),
        Some(state) => {
            let ans = state.ask(alloc, ask)?;
            let part = looked_at::<K>(alloc, ask)?;
            let version = view.version(oid, &part);
            Ok(Some(Answer { ans, part, version }))
        }
    }
}

// The transaction with one read more. An `Err` is want of memory, or a read that it doesn't take.
fn with_read<K: Registry>(
    tx: Tx<K>,
    oid: Oid,
    part: Part,
    at: Pos,
    version: u64,
) -> Result<Tx<K>, NoMemory>
    requires { is_part part ≡ true }
    ensures { IfOk result (λ t. t ≡ tx_read tx (record { oid = oid; part = part; version = version }) at) }
{
    if !is_object(oid) {
        return Err(NoMemory);
    }
    let mut tx = tx;
    match tx.read(oid, part, at, version) {
        Ok(()) => Ok(tx),
        Err(_) => Err(NoMemory),
    }
}

/// The open transaction with one read more.
///
/// An `Err` is want of memory, or of numbers: a read that the transaction doesn't take, or of an object with a number
/// that entries may not name.
pub fn noted<K: Registry>(
    tx: Option<Tx<K>>,
    oid: Oid,
    part: Part,
    at: Pos,
    version: u64,
) -> Result<Option<Tx<K>>, NoMemory>
    requires part { is_part part ≡ true }
    requires open { IsSome tx }
    ensures { IfOk result (λ t. Notes tx (record { oid = oid; part = part; version = version }) at t) }
{
    match tx {
        None => unreachable!(),
        Some(tx) => Ok(Some(with_read(tx, oid, part, at, version)?)),
    }
}
