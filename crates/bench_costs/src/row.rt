//! Rows of ops on one object.

ghost use Rattle.std.specs.Prelude.{◌≡◌, ◌<◌, ℕ, IfOk};
ghost use Rattle.bench_costs.specs.Rows.{after_ops};

use crate::fault::Fault;
use std::alloc::Global;
use tg_kind::Kind;

/// A row of ops on an object of a kind.
pub trait Row<K: Kind> {
    /// The op at a place, counted from 0, of so many.
    ghost op_at: { ℕ → ℕ → K.Op };

    /// The op at a place, counted from 0, of so many. An `Err` is want of memory.
    fn op(alloc: Global, count: u32, place: u32) -> Result<K::Op, Fault>
        requires { place < count }
        ensures { IfOk result (λ op. op ≡ op_at count place) };
}

/// The state after so many ops of a row. An `Err` is want of memory.
pub fn after_ops<K: Kind, R: Row<K>>(alloc: Global, first: K, count: u32) -> Result<K, Fault>
    ensures { IfOk result (λ s. s ≡ after_ops K.applied (R.op_at count) first count) }
{
    let mut state = first;
    for place in 0..count {
        let op = R::op(alloc, count, place)?;
        state = state.apply(&op)?;
    }
    Ok(state)
}
