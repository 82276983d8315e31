//! Where the items of a key stand, and where stamps reach a position.

ghost use Rattle.std.specs.Prelude.{◌≡◌, ◌<◌, ◌≤◌, ◌+◌, true, length, IfOk, IfSome};
ghost use Rattle.tg_audit.specs.Places.{key, cut, window_of, start_of, AreWithin, AreWindows, Splits, IsBetween, IsRising};

use std::alloc::Global;
use std::collections::BTreeMap;
use tg_base::{NoMemory, Pos};

/// From the first place to one past the last place of each key.
#[derive(Drop)]
pub struct Index {
    windows: BTreeMap<u64, (usize, usize)>,
}

/// A client's transaction as one number.
pub fn key(client: u16, tx: u32) -> u64
    ensures { result ≡ key client tx }
{
    u64::from(client) * 4294967296 + u64::from(tx)
}

// The window of a key, or the empty one.
fn find(windows: &BTreeMap<u64, (usize, usize)>, key: u64) -> (usize, usize)
    ensures { result ≡ window_of windows.now key }
{
    match windows.get(&key) {
        Some(window) => *window,
        None => (0, 0),
    }
}

// Where a window begins that has one more place.
fn start_of(window: (usize, usize), place: usize) -> usize
    ensures { result ≡ start_of window place }
{
    if window.1 == 0 { place } else { window.0 }
}

/// The windows of keys. An `Err` is want of memory.
pub fn index_of(alloc: Global, keys: &[u64]) -> Result<Index, NoMemory>
    ensures { IfOk result (λ x. AreWindows keys.now (length keys.now) x.windows) }
{
    let mut windows = BTreeMap::new(alloc);
    for place in 0..keys.len() {
        let key = keys[place];
        let start = start_of(find(&windows, key), place);
        windows.insert(key, (start, place + 1))?;
    }
    Ok(Index { windows })
}

impl Index {
    /// Of the first items, those from the key's first place to its last.
    pub fn part<'a, T>(&self, items: &'a [T], key: u64, most: usize) -> &'a [T]
        requires { AreWithin self.now.windows (length items.now) }
        ensures { result.now ≡ cut (window_of self.now.windows key) most items.now }
    {
        let (first, end) = find(&self.windows, key);
        let stop = end.min(most);
        &items[first.min(stop)..stop]
    }

    /// From the key's first place to one past its last.
    pub fn window(&self, key: u64) -> (usize, usize)
        ensures { result ≡ window_of self.now.windows key }
    {
        find(&self.windows, key)
    }
}

/// Whether stamps rise.
pub fn rises(stamps: &[u64]) -> bool
    ensures { result ≡ true → IsRising stamps.now }
{
    for place in 1..stamps.len() {
        if stamps[place] <= stamps[place - 1] {
            return false;
        }
    }
    true
}

// Whether the stamp before a place is below a position, and the one at the place isn't.
fn is_between(stamps: &[u64], place: usize, before: Pos) -> bool
    requires { place ≤ length stamps.now }
    ensures { result ≡ true → IsBetween stamps.now place before }
{
    if place > 0 {
        if stamps[place - 1] >= before {
            return false;
        }
    }
    if place < stamps.len() {
        if stamps[place] < before {
            return false;
        }
    }
    true
}

/// How many stamps are below a position, where all later ones are not.
pub fn split(stamps: &[u64], before: Pos) -> Option<usize>
    requires { IsRising stamps.now }
    ensures { IfSome result (λ n. Splits stamps.now n before) }
{
    let place = stamps.partition_point(|stamp| *stamp < before);
    if !is_between(stamps, place, before) {
        return None;
    }
    Some(place)
}
