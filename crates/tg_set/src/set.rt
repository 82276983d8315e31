//! Sets.

ghost use Rattle.std.specs.Prelude.{◌≡◌, ◌++◌, true, [], length, Ok, IfOk, OnOk};
ghost use Rattle.tg_base.specs.declared.marks.Part.TheVariants as part;
ghost use Rattle.tg_codec.specs.Codec.{u64, read_many, spell_many};
ghost use Rattle.tg_codec.specs.Reading.{Gives};
ghost use Rattle.tg_codec.specs.Streams.{any};
ghost use Rattle.tg_base.specs.Parts.{is_part};
ghost use Rattle.tg_kind.specs.Parts.{part_of};
ghost use Rattle.tg_set.specs.Sets.{is_object, is_state, is_of, first, applied, answered, touched, looked, saved, loaded, state_format, op_format, has, takes, with_number, without_number, between, rises, number_format, after_number};

use std::alloc::Global;
use std::collections::BTreeSet;
use std::marker::Model;
use tg_base::{List, NoMemory, Oid};
use tg_codec::{ReadFault, fixed, put_u32, put_u64, u8_in, u32_in, u64_in};
use tg_kind::{Key, Kind, KindFault, Scope, in_front, in_whole};

/// The tag of sets.
const TAG: u8 = 6;

/// The code of `include`.
const INCLUDE: u8 = 0x60;

/// The code of `exclude`.
const EXCLUDE: u8 = 0x61;

/// The most numbers that a set has.
const MOST: usize = 0xffff_ffff;

/// Numbers, rising.
pub struct Set {
    numbers: BTreeSet<u64>,
}

// By hand, since a derived drop is proved anew wherever a value is dropped.
impl Drop for Set {
    fn drop(self) {
        let Set { numbers: _ } = self;
    }
}

impl Model for Set {
    ghost use Rattle.std.specs.Prelude.{◌≤◌, length};
    ghost use Rattle.tg_set.specs.Sets.{Numbers, most};

    ghost Value = { Numbers };

    ghost view = { λ s. s.numbers.keys };

    ghost invariant = { λ s. length s.numbers.keys ≤ most };
}

/// What changes a set.
#[derive(Drop)]
pub enum SetOp {
    /// Adds a number.
    Include { number: u64 },
    /// Removes a number. It takes no memory.
    Exclude { number: u64 },
}

/// What looks at a set.
#[derive(Drop)]
pub enum SetAsk {
    /// Whether the set has a number. It takes no memory.
    Member { number: u64 },
    /// How many numbers there are from `low` on and below `high`. It takes no memory.
    Count { low: u64, high: u64 },
    /// The numbers from `low` on and below `high`, rising.
    Between { low: u64, high: u64 },
}

/// What an ask of a set is answered.
#[derive(Drop)]
pub enum SetAns {
    Member(bool),
    Count(u64),
    Numbers(List<u64>),
}

// How many numbers there are from `low` on and below `high`. It takes no memory.
fn count_between(numbers: &BTreeSet<u64>, low: u64, high: u64) -> u64
    ensures { result ≡ length (between numbers.now.keys low high) }
{
    if high <= low {
        return 0;
    }
    numbers.range(low..high).count() as u64
}

// The numbers from `low` on and below `high`, rising.
fn numbers_between(
    alloc: Global,
    numbers: &BTreeSet<u64>,
    low: u64,
    high: u64,
) -> Result<List<u64>, NoMemory>
    ensures { IfOk result (λ list. list ≡ between numbers.now.keys low high) }
{
    if high <= low {
        return Ok(List::new(alloc));
    }
    let found: Vec<u64> = numbers.range(low..high).copied().collect(alloc)?;
    Ok(List::from_vec(found))
}

// Puts the bytes of numbers last, in order.
fn put_numbers(numbers: &BTreeSet<u64>, out: &mut List<u8>) -> Result<(), NoMemory>
    ensures { OnOk result (out.new ≡ out.old ++ spell_many number_format after_number None numbers.now.keys) }
{
    for number in numbers {
        put_u64(*number, out)?;
    }
    Ok(())
}

impl Set {
    // The set without numbers.
    fn new(alloc: Global) -> Set
        ensures { result ≡ [] }
    {
        Set {
            numbers: BTreeSet::new(alloc),
        }
    }

    // Whether the set has the number.
    fn has(&self, number: u64) -> bool
        ensures { result ≡ has self.now number }
    {
        self.numbers.contains(&number)
    }

    // Whether the set takes the number.
    fn takes(&self, number: u64) -> bool
        ensures { result ≡ takes self.now number }
    {
        self.numbers.len() < MOST || self.has(number)
    }

    // The set with a number.
    fn include(self, number: u64) -> Result<Set, NoMemory>
        ensures { IfOk result (λ s. s ≡ with_number self number) }
    {
        if !self.takes(number) {
            return Ok(self);
        }
        let Set { mut numbers } = self;
        numbers.insert(number)?;
        Ok(Set { numbers })
    }

    // The set without a number. It takes no memory.
    fn exclude(self, number: u64) -> Set
        ensures { result ≡ without_number self number }
    {
        let Set { mut numbers } = self;
        numbers.remove(&number);
        Set { numbers }
    }
}

// Whether a number may follow the last one.
fn rises(last: Option<u64>, number: u64) -> bool
    ensures { result ≡ rises last number }
{
    match last {
        None => true,
        Some(last) => last < number,
    }
}

// A number above the last one.
fn number_in(last: Option<u64>, bytes: &[u8]) -> Result<(u64, &[u8]), ReadFault>
    ensures read { Gives (λ x. (x.0, x.1.now)) result ((number_format last).read bytes.now) }
    ensures new { IfOk result (λ x. rises last x.0 ≡ true) }
{
    let (number, rest) = u64_in(&[(0, u64::MAX)], bytes)?;
    if !rises(last, number) {
        return Err(ReadFault::Stop { left: bytes.len() });
    }
    Ok((number, rest))
}

// So many numbers that rise.
fn numbers_in(alloc: Global, count: u32, bytes: &[u8]) -> Result<(Set, &[u8]), ReadFault>
    ensures { Gives (λ x. (x.0, x.1.now)) result (read_many number_format after_number count None bytes.now) }
{
    let mut set = Set::new(alloc);
    let mut last = None;
    let mut rest = bytes;
    for _ in 0..count {
        let (number, after) = number_in(last, rest)?;
        set = set.include(number)?;
        last = Some(number);
        rest = after;
    }
    Ok((set, rest))
}

#[tactic(auto, unfolding(crate::specs::Sets::state_format))]
fn set_in(alloc: Global, bytes: &[u8]) -> Result<(Set, &[u8]), ReadFault>
    ensures { Gives (λ x. (x.0, x.1.now)) result (state_format.read bytes.now) }
{
    let ((), rest) = fixed(&[TAG], bytes)?;
    let (count, rest) = u32_in(&[(0, u64::MAX)], rest)?;
    let (set, rest) = numbers_in(alloc, count, rest)?;
    Ok((set, rest))
}

#[tactic(auto, unfolding(crate::specs::Sets::op_format))]
fn op_in(bytes: &[u8]) -> Result<(SetOp, &[u8]), ReadFault>
    ensures { Gives (λ x. (x.0, x.1.now)) result (op_format.read bytes.now) }
{
    let (code, rest) = u8_in(&[(0x60, 0x61)], bytes)?;
    let (number, rest) = u64_in(&[(0, u64::MAX)], rest)?;
    if code == INCLUDE {
        return Ok((SetOp::Include { number }, rest));
    }
    Ok((SetOp::Exclude { number }, rest))
}

// The bytes of an op.
#[tactic(auto, unfolding(crate::specs::Sets::op_format))]
fn put_fields(op: &SetOp, out: &mut List<u8>) -> Result<(), NoMemory>
    ensures { OnOk result (out.new ≡ out.old ++ op_format.spell op.now) }
{
    match op {
        SetOp::Include { number } => {
            out.push(INCLUDE)?;
            put_u64(*number, out)
        }
        SetOp::Exclude { number } => {
            out.push(EXCLUDE)?;
            put_u64(*number, out)
        }
    }
}

// What an op on a number changes.
fn scope(number: u64) -> Scope<'static>
    ensures part { part_of result ≡ part.Num number }
    ensures known { (u64 any).fits number ≡ true }
    ensures lawful { is_part (part.Num number) ≡ true }
{
    Scope::One(Key::Num(number))
}

impl Kind for Set {
    type Op = SetOp;

    type Ask = SetAsk;

    type Ans = SetAns;

    ghost is_object = { is_object };

    ghost is_state = { is_state };

    ghost is_op = { op_format.fits };

    ghost is_of = { is_of };

    ghost first = { first };

    ghost applied = { applied };

    ghost answered = { answered };

    ghost touched = { touched };

    ghost looked = { looked };

    ghost saved = { saved };

    ghost loaded = { loaded };

    ghost spelled = { op_format.spell };

    ghost read = { op_format.read };

    fn fresh(alloc: Global, _oid: Oid, _objects: &[Oid]) -> Result<Set, NoMemory> {
        Ok(Set::new(alloc))
    }

    fn apply(self, op: &SetOp) -> Result<Set, NoMemory> {
        match op {
            SetOp::Include { number } => self.include(*number),
            SetOp::Exclude { number } => Ok(self.exclude(*number)),
        }
    }

    fn ask(&self, alloc: Global, ask: &SetAsk) -> Result<SetAns, NoMemory> {
        match ask {
            SetAsk::Member { number } => Ok(SetAns::Member(self.has(*number))),
            SetAsk::Count { low, high } => {
                Ok(SetAns::Count(count_between(&self.numbers, *low, *high)))
            }
            SetAsk::Between { low, high } => Ok(SetAns::Numbers(numbers_between(
                alloc,
                &self.numbers,
                *low,
                *high,
            )?)),
        }
    }

    #[tactic(auto, unfolding(crate::specs::Sets::op_format))]
    fn touch(op: &SetOp) -> Scope<'_> {
        match op {
            SetOp::Include { number } => scope(*number),
            SetOp::Exclude { number } => scope(*number),
        }
    }

    fn look(ask: &SetAsk) -> Scope<'_> {
        match ask {
            SetAsk::Member { number } => scope(*number),
            SetAsk::Count { .. } => Scope::All,
            SetAsk::Between { .. } => Scope::All,
        }
    }

    #[tactic(auto, unfolding(crate::specs::Sets::state_format))]
    fn save(&self, alloc: Global) -> Result<List<u8>, NoMemory> {
        let mut bytes = List::new(alloc);
        bytes.push(TAG)?;
        put_u32(self.numbers.len() as u32, &mut bytes)?;
        put_numbers(&self.numbers, &mut bytes)?;
        Ok(bytes)
    }

    fn load(alloc: Global, _oid: Oid, bytes: &[u8]) -> Result<Set, KindFault> {
        in_whole(bytes, set_in(alloc, bytes))
    }

    fn put_op(alloc: Global, op: &SetOp, out: &mut List<u8>) -> Result<(), NoMemory> {
        let mut spelling = List::new(alloc);
        put_fields(op, &mut spelling)?;
        out.extend(spelling.as_slice())
    }

    fn get_op(_alloc: Global, bytes: &[u8]) -> Result<(SetOp, usize), KindFault> {
        in_front(bytes, op_in(bytes))
    }

    fn copy(&self) -> Result<Set, NoMemory> {
        Ok(Set {
            numbers: self.numbers.clone()?,
        })
    }

    fn copy_op(op: &SetOp) -> Result<SetOp, NoMemory> {
        match op {
            SetOp::Include { number } => Ok(SetOp::Include { number: *number }),
            SetOp::Exclude { number } => Ok(SetOp::Exclude { number: *number }),
        }
    }

    fn copy_ask(ask: &SetAsk) -> Result<SetAsk, NoMemory> {
        match ask {
            SetAsk::Member { number } => Ok(SetAsk::Member { number: *number }),
            SetAsk::Count { low, high } => Ok(SetAsk::Count {
                low: *low,
                high: *high,
            }),
            SetAsk::Between { low, high } => Ok(SetAsk::Between {
                low: *low,
                high: *high,
            }),
        }
    }

    ghost use Rattle.tg_set.specs.SetLaws as laws;

    ghost first_is = { laws.first_is };

    ghost applied_is = { laws.applied_is };

    ghost other_kind = { laws.other_kind };

    ghost touched_is = { laws.touched_is };

    ghost apart = { laws.apart };

    ghost loads_saved = { laws.loads_saved };

    ghost loads_only = { laws.loads_only };

    ghost reads_spelled = { laws.reads_spelled };

    ghost reads_only = { laws.reads_only };

    ghost spelled_some = { laws.spelled_some };

    ghost no_front = { laws.no_front_law };
}
