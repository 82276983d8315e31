//! States of the plain machine.

ghost use Rattle.std.specs.Prelude.{◌≡◌, true, IfOk};
ghost use Rattle.tg_kind.specs.Of.{meaning_of};
ghost use Rattle.tg_kind.specs.Headers.{is_header};
ghost use Rattle.tg_model.specs.Stores.{state_at};
ghost use Rattle.tg_audit.specs.Judging as of;

use crate::judged::Judged;
use std::alloc::Global;
use tg_base::{NoMemory, Oid, Pos};
use tg_kind::Registry;
use tg_model::{DoneOf, MarkOf, What};

// The state after a write, if it is one of the object.
fn write<K: Registry>(state: K, write: &(Oid, K::Op), oid: Oid) -> Result<K, NoMemory>
    ensures { IfOk result (λ s. s ≡ of.write (meaning_of K.Registry) oid state write.now) }
{
    if write.0.is_same(oid) {
        state.apply(&write.1)
    } else {
        Ok(state)
    }
}

/// The state of an object after those of the writes that are its own. An `Err` is want of memory.
pub fn written<K: Registry>(state: K, writes: &[(Oid, K::Op)], oid: Oid) -> Result<K, NoMemory>
    ensures { IfOk result (λ s. s ≡ of.written (meaning_of K.Registry) oid state writes.now) }
{
    let mut state = state;
    for one in writes {
        state = write(state, one, oid)?;
    }
    Ok(state)
}

// The state of an object after a transaction, if that is below a position.
fn step<K: Registry>(state: K, done: &DoneOf<K>, before: Pos, oid: Oid) -> Result<K, NoMemory>
    ensures { IfOk result (λ s. s ≡ of.step (meaning_of K.Registry) oid before state done.now) }
{
    if done.stamp < before {
        written(state, done.writes.as_slice(), oid)
    } else {
        Ok(state)
    }
}

// The state of an object after the transactions below a position.
fn played<K: Registry>(
    state: K,
    history: &[DoneOf<K>],
    before: Pos,
    oid: Oid,
) -> Result<K, NoMemory>
    ensures { IfOk result (λ s. s ≡ of.played (meaning_of K.Registry) oid before state history.now) }
{
    let mut state = state;
    for done in history {
        state = step(state, done, before, oid)?;
    }
    Ok(state)
}

/// An object's state before a position. An `Err` is want of memory.
pub fn state_before<K: Registry>(
    alloc: Global,
    objects: &[Oid],
    history: &[DoneOf<K>],
    before: Pos,
    oid: Oid,
) -> Result<K, NoMemory>
    requires { is_header objects.now ≡ true }
    ensures { IfOk result (λ s. s ≡ state_at (meaning_of K.Registry) objects.now history.now before oid) }
{
    let state = K::fresh(alloc, oid, objects)?;
    played(state, history, before, oid)
}
