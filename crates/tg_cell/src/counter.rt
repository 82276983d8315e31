//! Counters.

ghost use Rattle.std.specs.Prelude.{◌≡◌, ◌++◌, true, Ok, IfOk, OnOk, IsOk};
ghost use Rattle.tg_codec.specs.Reading.{Gives};
ghost use Rattle.tg_cell.specs.Counters.{is_object, is_state, is_of, first, applied, answered, touched, looked, saved, loaded, state_format, op_format};
ghost use Rattle.tg_cell.specs.Signed.{i64};
ghost use Rattle.tg_cell.specs.declared.counter.CounterOp.TheVariants.{Add};
ghost use Rattle.tg_base.specs.declared.marks.Part.TheVariants.{All};
ghost use Rattle.tg_kind.specs.Parts.{part_of};

use std::alloc::Global;
use std::marker::Model;
use tg_base::{List, NoMemory, Oid};
use tg_codec::{ReadFault, fixed, put_u64, u64_in};
use tg_kind::{Kind, KindFault, Scope, in_front, in_whole};

/// The tag of counters.
const TAG: u8 = 1;

/// The code of `add`.
const ADD: u8 = 0x10;

/// A signed number of 64 bits.
#[derive(Drop)]
pub struct Counter {
    value: i64,
}

impl Model for Counter {
    ghost use Rattle.std.specs.Prelude.{ℤ};

    ghost Value = { ℤ };

    ghost view = { λ c. c.value };

    ghost inverse = { λ n. record { value = n } };
}

/// What changes a counter.
#[derive(Drop)]
pub enum CounterOp {
    /// Adds; a sum past an end of the type stays at that end.
    Add { by: i64 },
}

/// What looks at a counter.
#[derive(Drop)]
pub enum CounterAsk {
    Value,
}

/// What an ask of a counter is answered.
#[derive(Drop)]
pub enum CounterAns {
    Number(i64),
}

fn number_in(bytes: &[u8]) -> Result<(i64, &[u8]), ReadFault>
    ensures { Gives (λ x. (x.0, x.1.now)) result (i64.read bytes.now) }
{
    let (bits, rest) = u64_in(&[(0, u64::MAX)], bytes)?;
    Ok((bits.cast_signed(), rest))
}

fn put_number(value: i64, out: &mut List<u8>) -> Result<(), NoMemory>
    ensures { OnOk result (out.new ≡ out.old ++ i64.spell value) }
{
    put_u64(value.cast_unsigned(), out)
}

fn counter_in(bytes: &[u8]) -> Result<(Counter, &[u8]), ReadFault>
    ensures { Gives (λ x. (x.0, x.1.now)) result (state_format.read bytes.now) }
{
    let ((), rest) = fixed(&[TAG], bytes)?;
    let (value, rest) = number_in(rest)?;
    Ok((Counter { value }, rest))
}

fn op_in(bytes: &[u8]) -> Result<(CounterOp, &[u8]), ReadFault>
    ensures { Gives (λ x. (x.0, x.1.now)) result (op_format.read bytes.now) }
{
    let ((), rest) = fixed(&[ADD], bytes)?;
    let (by, rest) = number_in(rest)?;
    Ok((CounterOp::Add { by }, rest))
}

// What adding changes, whatever is added.
fn whole(by: i64) -> Scope<'static>
    ensures part { part_of result ≡ All }
    ensures fits { op_format.fits (Add by) ≡ true }
{
    Scope::All
}

impl Kind for Counter {
    type Op = CounterOp;

    type Ask = CounterAsk;

    type Ans = CounterAns;

    ghost is_object = { is_object };

    ghost is_state = { is_state };

    ghost is_op = { op_format.fits };

    ghost is_of = { is_of };

    ghost first = { first };

    ghost applied = { applied };

    ghost answered = { answered };

    ghost touched = { touched };

    ghost looked = { looked };

    ghost saved = { saved };

    ghost loaded = { loaded };

    ghost spelled = { op_format.spell };

    ghost read = { op_format.read };

    fn fresh(_alloc: Global, oid: Oid, objects: &[Oid]) -> Result<Counter, NoMemory>
        ensures exact { IfOk result (λ s. s ≡ first oid objects.now) }
        ensures free { IsOk result }
    {
        Ok(Counter { value: 0 })
    }

    fn apply(self, op: &CounterOp) -> Result<Counter, NoMemory>
        ensures exact { IfOk result (λ s. s ≡ applied self op.now) }
        ensures free { IsOk result }
    {
        match op {
            CounterOp::Add { by } => {
                let value = self.value.saturating_add(*by);
                Ok(Counter { value })
            }
        }
    }

    fn ask(&self, _alloc: Global, ask: &CounterAsk) -> Result<CounterAns, NoMemory>
        ensures exact { IfOk result (λ a. a ≡ answered self.now ask.now) }
        ensures free { IsOk result }
    {
        match ask {
            CounterAsk::Value => Ok(CounterAns::Number(self.value)),
        }
    }

    fn touch(op: &CounterOp) -> Scope<'_> {
        match op {
            CounterOp::Add { by } => whole(*by),
        }
    }

    fn look(_ask: &CounterAsk) -> Scope<'_> {
        Scope::All
    }

    fn save(&self, alloc: Global) -> Result<List<u8>, NoMemory> {
        let mut bytes = List::new(alloc);
        bytes.push(TAG)?;
        put_number(self.value, &mut bytes)?;
        Ok(bytes)
    }

    fn load(_alloc: Global, _oid: Oid, bytes: &[u8]) -> Result<Counter, KindFault> {
        in_whole(bytes, counter_in(bytes))
    }

    fn put_op(alloc: Global, op: &CounterOp, out: &mut List<u8>) -> Result<(), NoMemory> {
        let mut spelling = List::new(alloc);
        match op {
            CounterOp::Add { by } => {
                spelling.push(ADD)?;
                put_number(*by, &mut spelling)?;
            }
        }
        out.extend(spelling.as_slice())
    }

    fn get_op(_alloc: Global, bytes: &[u8]) -> Result<(CounterOp, usize), KindFault> {
        in_front(bytes, op_in(bytes))
    }

    fn copy(&self) -> Result<Counter, NoMemory>
        ensures exact { IfOk result (λ s. s ≡ self.now) }
        ensures free { IsOk result }
    {
        Ok(Counter { value: self.value })
    }

    fn copy_op(op: &CounterOp) -> Result<CounterOp, NoMemory>
        ensures exact { IfOk result (λ c. c ≡ op.now) }
        ensures free { IsOk result }
    {
        match op {
            CounterOp::Add { by } => Ok(CounterOp::Add { by: *by }),
        }
    }

    fn copy_ask(ask: &CounterAsk) -> Result<CounterAsk, NoMemory>
        ensures exact { IfOk result (λ c. c ≡ ask.now) }
        ensures free { IsOk result }
    {
        match ask {
            CounterAsk::Value => Ok(CounterAsk::Value),
        }
    }

    ghost use Rattle.tg_cell.specs.CounterLaws as laws;

    ghost first_is = { laws.first_is };

    ghost applied_is = { laws.applied_is };

    ghost other_kind = { laws.other_kind };

    ghost touched_is = { laws.touched_is };

    ghost apart = { laws.apart };

    ghost loads_saved = { laws.loads_saved };

    ghost loads_only = { laws.loads_only };

    ghost reads_spelled = { laws.reads_spelled };

    ghost reads_only = { laws.reads_only };

    ghost spelled_some = { laws.spelled_some };

    ghost no_front = { laws.no_front_law };
}
