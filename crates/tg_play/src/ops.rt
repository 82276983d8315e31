//! Ops from the bytes of records, and the parts that they change.

ghost use Rattle.std.specs.Prelude.{◌≡◌, ◌≤◌, ◌&&◌, true, Some, None, length, IfOk, if◌then◌else◌};
ghost use Rattle.tg_base.specs.declared.marks.Part.TheVariants.{Text};
ghost use Rattle.tg_kind.specs.Of.{meaning_of};
ghost use Rattle.tg_kind.specs.Parts as scopes;
ghost use Rattle.tg_base.specs.Parts.{is_part};
ghost use Rattle.tg_protocol.specs.Views.{touched, applied};
ghost use Rattle.tg_play.specs.Lawful.{is_named};

use std::alloc::Global;
use tg_base::{Blob, List, NoMemory, Oid, Part};
use tg_entry::WriteOp;
use tg_kind::{Key, KindFault, Registry, Scope};

/// The op that a write's bytes spell; None where they spell no op of the object's kind.
/// An `Err` is want of memory.
pub fn op_of<K: Registry>(alloc: Global, write: &WriteOp) -> Result<Option<K::Op>, NoMemory>
    ensures { IfOk result (λ op. op ≡ (meaning_of K.Registry).read write.now.oid write.now.op) }
{
    op_in::<K>(alloc, write.oid, write.op.as_slice())
}

// The op of the object's kind that bytes spell.
fn op_in<K: Registry>(alloc: Global, oid: Oid, bytes: &[u8]) -> Result<Option<K::Op>, NoMemory>
    ensures { IfOk result (λ op. op ≡ (meaning_of K.Registry).read oid bytes.now) }
{
    match K::get_op(alloc, bytes) {
        Ok((op, taken)) => Ok(whole_op::<K>(oid, op, taken == bytes.len())),
        Err(KindFault::BadBytes { .. }) => Ok(None),
        Err(KindFault::NoMemory) => Err(NoMemory),
    }
}

// The op, where it takes all of the bytes and is of the object's kind.
fn whole_op<K: Registry>(oid: Oid, op: K::Op, whole: bool) -> Option<K::Op>
    ensures { result ≡ (if whole && K.is_of oid op then Some op else None) }
{
    if whole && K::fits(oid, &op) {
        return Some(op);
    }
    None
}

/// The part that an op changes; bytes that spell none change all of their object. An `Err` is want of memory.
pub fn touched_by<K: Registry>(alloc: Global, op: &Option<K::Op>) -> Result<Part, NoMemory>
    ensures part { IfOk result (λ p. p ≡ touched (meaning_of K.Registry) op.now) }
    ensures spelled { IfOk result (λ p. is_named p ≡ true) }
{
    match op {
        None => Ok(Part::All),
        Some(op) => touch_of::<K>(alloc, op),
    }
}

fn touch_of<K: Registry>(alloc: Global, op: &K::Op) -> Result<Part, NoMemory>
    ensures part { IfOk result (λ p. p ≡ K.touched op.now) }
    ensures spelled { IfOk result (λ p. is_named p ≡ true) }
{
    let scope = K::touch(op);
    part_in(alloc, scope)
}

// The part that a scope names.
fn part_in(alloc: Global, scope: Scope<'_>) -> Result<Part, NoMemory>
    requires { is_part (scopes.part_of scope) ≡ true }
    ensures { IfOk result (λ p. p ≡ scopes.part_of scope.entry) }
{
    match scope {
        Scope::All => Ok(Part::All),
        Scope::One(Key::Num(number)) => Ok(Part::Num(number)),
        Scope::One(Key::Text(text)) => text_part(alloc, text.as_bytes()),
    }
}

fn text_part(alloc: Global, text: &[u8]) -> Result<Part, NoMemory>
    requires { length text.now ≤ 4096 }
    ensures { IfOk result (λ p. p ≡ Text text.now) }
{
    let mut bytes = List::new(alloc);
    bytes.extend(text)?;
    Ok(Part::Text(Blob::new(alloc, bytes)?.unwrap()))
}

/// The state after an op; none changes nothing. An `Err` is want of memory.
pub fn applied_to<K: Registry>(state: K, op: &Option<K::Op>) -> Result<K, NoMemory>
    ensures { IfOk result (λ s. Some s ≡ applied (meaning_of K.Registry) op.now (Some state)) }
{
    match op {
        None => Ok(state),
        Some(op) => state.apply(op),
    }
}
