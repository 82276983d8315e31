//! Which of several checkpoints is the base.

ghost use Rattle.std.specs.Prelude.{◌≡◌, ◌&&◌, nat_le, IfOk, OnOk};
ghost use Rattle.tg_kind.specs.Of.{meaning_of};
ghost use Rattle.tg_protocol.specs.Words.{or_else};
ghost use Rattle.tg_ckpt.specs.Kept.{kept_at, counted, inside, lower_of, higher_of, is_lower, is_higher, lowest, highest};

use crate::loading::{base_at, offered};
use std::alloc::Global;
use tg_base::{NoMemory, Oid, Pos};
use tg_entry::Entry;
use tg_kind::Registry;
use tg_play::Base;

// Whether a checkpoint that reaches from `below` on is lower than the lowest one so far.
fn is_lower<K>(least: &Option<Base<K>>, below: Pos, upto: Pos) -> bool
    ensures { result ≡ is_lower least.now below upto }
{
    match least {
        None => below <= upto,
        Some(base) => below <= upto && upto < base.upto,
    }
}

// Whether a position lies from `below` to `high`.
fn is_within(below: Pos, high: Pos, upto: Pos) -> bool
    ensures { result ≡ (nat_le below upto && nat_le upto high) }
{
    below <= upto && upto <= high
}

// Whether a checkpoint from `below` to `high` is at least as high as the highest one after it.
fn is_higher<K>(greatest: &Option<Base<K>>, below: Pos, high: Pos, upto: Pos) -> bool
    ensures { result ≡ is_higher greatest.now below high upto }
{
    match greatest {
        None => is_within(below, high, upto),
        Some(base) => is_within(below, high, upto) && base.upto <= upto,
    }
}

// The base that an entry gives takes the place of another one. An `Err` is want of memory.
fn replace<K: Registry>(
    alloc: Global,
    chosen: &mut Option<Base<K>>,
    entry: &Entry,
    oid: Oid,
) -> Result<(), NoMemory>
    ensures { OnOk result (chosen.new ≡ or_else (kept_at (meaning_of K.Registry) oid entry.now) chosen.old) }
{
    let base = base_at(alloc, entry, oid)?;
    match base {
        None => Ok(()),
        Some(base) => {
            *chosen = Some(base);
            Ok(())
        }
    }
}

// One entry more after those of which the lowest base is known.
fn take_lower<K: Registry>(
    alloc: Global,
    least: &mut Option<Base<K>>,
    entry: &Entry,
    oid: Oid,
    below: Pos,
) -> Result<(), NoMemory>
    ensures { OnOk result (least.new ≡ lower_of least.old (counted below (kept_at (meaning_of K.Registry) oid entry.now))) }
{
    match offered(entry, oid) {
        None => Ok(()),
        Some(upto) => {
            if is_lower(least, below, upto) {
                return replace(alloc, least, entry, oid);
            }
            Ok(())
        }
    }
}

/// The base of least `upto` that isn't below a position, and of several the first. A state is loaded only where it
/// may be the base. An `Err` is want of memory.
pub fn lowest<K: Registry>(
    alloc: Global,
    entries: &[(Pos, Entry)],
    oid: Oid,
    below: Pos,
) -> Result<Option<Base<K>>, NoMemory>
    ensures { IfOk result (λ b. b ≡ lowest (meaning_of K.Registry) oid below entries.now) }
{
    let mut least = None;
    for placed in entries {
        take_lower(alloc, &mut least, &placed.1, oid, below)?;
    }
    Ok(least)
}

// One entry more before those of which the highest base is known.
fn take_higher<K: Registry>(
    alloc: Global,
    greatest: &mut Option<Base<K>>,
    entry: &Entry,
    oid: Oid,
    below: Pos,
    high: Pos,
) -> Result<(), NoMemory>
    ensures { OnOk result (greatest.new ≡ higher_of (inside below high (kept_at (meaning_of K.Registry) oid entry.now)) greatest.old) }
{
    match offered(entry, oid) {
        None => Ok(()),
        Some(upto) => {
            if is_higher(greatest, below, high, upto) {
                return replace(alloc, greatest, entry, oid);
            }
            Ok(())
        }
    }
}

/// The base of greatest `upto` from one position to another, and of several the first. A state is loaded only where
/// it may be the base. An `Err` is want of memory.
pub fn highest<K: Registry>(
    alloc: Global,
    entries: &[(Pos, Entry)],
    oid: Oid,
    below: Pos,
    high: Pos,
) -> Result<Option<Base<K>>, NoMemory>
    ensures { IfOk result (λ b. b ≡ highest (meaning_of K.Registry) oid below high entries.now) }
{
    let mut greatest = None;
    for at in (0..entries.len()).rev() {
        take_higher(alloc, &mut greatest, &entries[at].1, oid, below, high)?;
    }
    Ok(greatest)
}
