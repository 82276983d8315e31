//! Ops on counters and registers.

ghost use Rattle.std.specs.Prelude.{◌≡◌, ◌<◌, IfOk, unsigned_abs};
ghost use Rattle.bench_costs.specs.Rows.{adding, writing, counter_after, register_after};
ghost use Rattle.bench_costs.specs.Workloads.{held_length};

use crate::fault::Fault;
use crate::row::{Row, after_ops};
use crate::words::value;
use std::alloc::Global;
use tg_base::Oid;
use tg_cell::{
    Counter, CounterAns, CounterAsk, CounterOp, Register, RegisterAns, RegisterAsk, RegisterOp,
};
use tg_kind::{Kind, Text};

const COUNTER: Oid = Oid(0x0100_0000);

const REGISTER: Oid = Oid(0x0200_0000);

/// Adds 1.
struct Adding;

impl Row<Counter> for Adding {
    ghost op_at = { adding };

    fn op(_alloc: Global, _count: u32, _place: u32) -> Result<CounterOp, Fault> {
        Ok(CounterOp::Add { by: 1 })
    }
}

/// Writes another text each time.
struct Writing;

impl Row<Register> for Writing {
    ghost op_at = { writing };

    fn op(alloc: Global, _count: u32, place: u32) -> Result<RegisterOp, Fault> {
        let text = value(alloc, place)?;
        Ok(RegisterOp::Write { text })
    }
}

/// A counter's value, without its sign, after adding 1 so many times.
pub fn counter(alloc: Global, count: u32) -> Result<u64, Fault>
    ensures { IfOk result (λ n. n ≡ unsigned_abs (counter_after count)) }
{
    let counter = Counter::fresh(alloc, COUNTER, &[])?;
    let counter = after_ops::<Counter, Adding>(alloc, counter, count)?;
    let CounterAns::Number(value) = counter.ask(alloc, &CounterAsk::Value)?;
    Ok(value.unsigned_abs())
}

/// The length of a register's text after so many writes, 0 where there is none.
pub fn register(alloc: Global, count: u32) -> Result<u64, Fault>
    ensures { IfOk result (λ n. n ≡ held_length (register_after count)) }
{
    let register = Register::fresh(alloc, REGISTER, &[])?;
    let register = after_ops::<Register, Writing>(alloc, register, count)?;
    let RegisterAns::Held(held) = register.ask(alloc, &RegisterAsk::Text)?;
    Ok(held_length(&held))
}

fn held_length(held: &Option<Text>) -> u64
    ensures { result ≡ held_length held.now }
{
    match held {
        None => 0,
        Some(text) => text.as_str().len() as u64,
    }
}
