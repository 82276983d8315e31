//! Positions in order.

ghost use Rattle.std.specs.Prelude.{◌≡◌, ◌+◌, ◌<◌, ◌≤◌, ◌++◌, [], ◌∷◌, true, length, take, drop, IfOk, OnOk, IfSome, IfNone};
ghost use Rattle.tg_protocol.specs.Words.{has_num, with_num, with_nums};
ghost use Rattle.tg_client_cells.specs.Words.{rises, within, below, from};

use std::alloc::Global;
use std::marker::Model;
use tg_base::{NoMemory, Pos};

/// Positions, each once and rising.
pub struct Positions {
    list: Vec<u64>,
}

// By hand, since a derived drop is proved anew wherever a value is dropped.
impl Drop for Positions {
    fn drop(self) {
        let Positions { list: _ } = self;
    }
}

impl Model for Positions {
    ghost use Rattle.std.specs.Prelude.{◌≡◌, ℕ, List, true};
    ghost use Rattle.tg_client_cells.specs.Words.{rises};

    ghost Value = { List ℕ };

    ghost view = { λ p. p.list.items };

    ghost invariant = { λ p. rises p.list.items ≡ true };
}

impl Positions {
    /// No position. It takes no memory.
    pub fn new(alloc: Global) -> Positions
        ensures { result ≡ [] }
    {
        Positions {
            list: Vec::new(alloc),
        }
    }

    /// Whether a position is among them. It takes no memory, and logarithmic time.
    pub fn has(&self, pos: Pos) -> bool
        ensures { result ≡ has_num pos self.now }
    {
        has_in(self.list.as_slice(), pos)
    }

    /// One position more. Where memory runs out, all are given up.
    pub fn put(self, pos: Pos) -> Result<Positions, NoMemory>
        ensures { IfOk result (λ p. p ≡ with_num pos self) }
    {
        let Positions { mut list } = self;
        put_in(&mut list, pos)?;
        Ok(Positions { list })
    }

    /// These positions more. Where memory runs out, all are given up.
    pub fn put_all(self, positions: &[Pos]) -> Result<Positions, NoMemory>
        ensures { IfOk result (λ p. p ≡ with_nums positions.now self) }
    {
        let Positions { mut list } = self;
        put_listed(&mut list, positions)?;
        Ok(Positions { list })
    }

    /// Those of other positions more that stand from `low` on and below `high`. Where memory runs out, all are given up.
    /// The time goes by how many both are.
    pub fn put_within(
        self,
        alloc: Global,
        others: &Positions,
        low: Pos,
        high: Pos,
    ) -> Result<Positions, NoMemory>
        ensures { IfOk result (λ p. p ≡ with_nums (within low high others.now) self) }
    {
        let Positions { list } = self;
        let list = united(alloc, list, range_of(others.list.as_slice(), low, high))?;
        Ok(Positions { list })
    }

    /// The positions, rising.
    pub fn as_slice(&self) -> &[Pos]
        ensures positions { result.now ≡ self.now }
        ensures rises { rises self.now ≡ true }
    {
        self.list.as_slice()
    }
}

/// Whether a position is among rising ones.
fn has_in(positions: &[Pos], pos: Pos) -> bool
    requires { rises positions.now ≡ true }
    ensures { result ≡ has_num pos positions.now }
{
    positions.binary_search(&pos).is_ok()
}

/// How many rising positions are below another.
fn count_below(positions: &[Pos], pos: Pos) -> usize
    requires { rises positions.now ≡ true }
    ensures within { result ≤ length positions.now }
    ensures before { take result positions.now ≡ below pos positions.now }
    ensures after { drop result positions.now ≡ from pos positions.now }
{
    match positions.binary_search(&pos) {
        Ok(at) => at,
        Err(at) => at,
    }
}

/// Those of rising positions that stand below another.
fn those_below(positions: &[Pos], high: Pos) -> &[Pos]
    requires { rises positions.now ≡ true }
    ensures { result.now ≡ below high positions.now }
{
    &positions[..count_below(positions, high)]
}

/// Those of rising positions that stand from another on.
fn those_from(positions: &[Pos], low: Pos) -> &[Pos]
    requires { rises positions.now ≡ true }
    ensures { result.now ≡ from low positions.now }
{
    &positions[count_below(positions, low)..]
}

/// Those of rising positions that stand from `low` on and below `high`.
fn range_of(positions: &[Pos], low: Pos, high: Pos) -> &[Pos]
    requires { rises positions.now ≡ true }
    ensures { result.now ≡ within low high positions.now }
{
    those_from(those_below(positions, high), low)
}

/// Puts a position among rising ones.
fn put_in(list: &mut Vec<u64>, pos: Pos) -> Result<(), NoMemory>
    requires { rises list.old.items ≡ true }
    ensures { OnOk result (list.new.items ≡ with_num pos list.old.items) }
{
    match list.as_slice().binary_search(&pos) {
        Ok(_) => Ok(()),
        Err(at) => {
            list.insert(at, pos)?;
            Ok(())
        }
    }
}

/// Puts positions among rising ones.
fn put_listed(list: &mut Vec<u64>, positions: &[Pos]) -> Result<(), NoMemory>
    requires { rises list.old.items ≡ true }
    ensures { OnOk result (list.new.items ≡ with_nums positions.now list.old.items) }
{
    for pos in positions {
        put_in(list, *pos)?;
    }
    Ok(())
}

/// Rising positions, with others that rise.
fn united(alloc: Global, list: Vec<u64>, others: &[Pos]) -> Result<Vec<u64>, NoMemory>
    requires list { rises list.items ≡ true }
    requires others { rises others.now ≡ true }
    ensures { IfOk result (λ l. l.items ≡ with_nums others.now list.items) }
{
    if others.is_empty() {
        return Ok(list);
    }
    let mut both = Vec::new(alloc);
    merge(list.as_slice(), others, &mut both)?;
    Ok(both)
}

/// Puts rising positions last, with others that rise among them.
fn merge(list: &[Pos], others: &[Pos], both: &mut Vec<u64>) -> Result<(), NoMemory>
    requires list { rises list.now ≡ true }
    requires others { rises others.now ≡ true }
    ensures { OnOk result (both.new.items ≡ both.old.items ++ with_nums others.now list.now) }
{
    let mut left = list;
    let mut right = others;
    loop {
        let Some((pos, left_rest, right_rest)) = lowest(left, right) else {
            put_both(both, left, right)?;
            return Ok(());
        };
        both.push(pos)?;
        left = left_rest;
        right = right_rest;
    }
}

/// Puts two lists of positions last, one after the other.
fn put_both(both: &mut Vec<u64>, left: &[Pos], right: &[Pos]) -> Result<(), NoMemory>
    ensures { OnOk result (both.new.items ≡ both.old.items ++ (left.now ++ right.now)) }
{
    both.extend_from_slice(left)?;
    both.extend_from_slice(right)?;
    Ok(())
}

/// The lowest of two lists' rising positions with what each has above it, None where one of them is empty.
fn lowest<'a>(left: &'a [Pos], right: &'a [Pos]) -> Option<(Pos, &'a [Pos], &'a [Pos])>
    requires left { rises left.now ≡ true }
    requires right { rises right.now ≡ true }
    ensures none { IfNone result (with_nums right.now left.now ≡ left.now ++ right.now) }
    ensures next { IfSome result (λ p. with_nums right.now left.now ≡ p.0 ∷ with_nums p.2.now p.1.now) }
    ensures left { IfSome result (λ p. rises p.1.now ≡ true) }
    ensures right { IfSome result (λ p. rises p.2.now ≡ true) }
    ensures fewer { IfSome result (λ p. length p.1.now + length p.2.now < length left.now + length right.now) }
{
    let (first, left_rest) = left.split_first()?;
    let (other, right_rest) = right.split_first()?;
    if *first < *other {
        return Some((*first, left_rest, right));
    }
    if *other < *first {
        return Some((*other, left, right_rest));
    }
    Some((*other, left_rest, right_rest))
}
