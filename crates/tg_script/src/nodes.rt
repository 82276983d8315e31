//! The words of nodes, and of lists of units.

ghost use Rattle.std.specs.Prelude.{◌≡◌, codes, IfOk, Some, None, if◌then◌else◌};
ghost use Rattle.std.specs.List.{concat, list_all};
ghost use Rattle.tg_base.specs.Units.{has, is_distinct, is_unit, is_chain};
ghost use Rattle.tg_script.specs.Parts.{lettered};
ghost use Rattle.tg_script.specs.Nodes.{node_in, units, distinct_units, chain, few_apart, chains};

use crate::cut::{by_commas, by_slashes, strip};
use crate::reader::{Reader, each};
use std::alloc::Global;
use tg_any::number;
use tg_base::{Chain, Cluster, List, NoMemory, NodeId, Role};

/// The number that stands after a letter, where it is below a limit.
pub fn lettered(letter: &[u8], limit: u16, word: &str) -> Option<u16>
    ensures { result ≡ (lettered letter.now limit).read word.now }
{
    let n = number(strip(letter, word.as_bytes())?)?;
    if n < u64::from(limit) {
        Some(n as u16)
    } else {
        None
    }
}

/// The declared node whose word this is.
pub fn node(cluster: &Cluster, word: &str) -> Option<NodeId>
    ensures { result ≡ node_in cluster.now word.now }
{
    if let Some(num) = lettered(b"u", cluster.units, word) {
        return Some(NodeId {
            role: Role::Unit,
            num,
        });
    }
    if let Some(num) = lettered(b"l", cluster.layouts, word) {
        return Some(NodeId {
            role: Role::Layout,
            num,
        });
    }
    if let Some(num) = lettered(b"s", cluster.seqs, word) {
        return Some(NodeId {
            role: Role::Seqr,
            num,
        });
    }
    let num = lettered(b"c", cluster.clients, word)?;
    Some(NodeId {
        role: Role::Client,
        num,
    })
}

/// Whether a number stands in a list.
fn has(numbers: &[u16], number: u16) -> bool
    ensures { result ≡ has numbers.now number }
{
    numbers.iter().any(|n| *n == number)
}

/// Whether no number stands twice.
pub fn are_distinct(numbers: &[u16]) -> bool
    ensures { result ≡ is_distinct numbers.now }
{
    match numbers {
        [] => true,
        [first, rest @ ..] => !has(rest, *first) && are_distinct(rest),
    }
}

/// Reads a unit below a count.
#[derive(Drop)]
struct UnitBelow {
    count: u16,
}

impl Reader for UnitBelow {
    type Value = u16;

    ghost word = { λ r. lettered (codes "u") r.count };

    fn read(&self, _alloc: Global, spelling: &str) -> Result<Option<u16>, NoMemory> {
        Ok(lettered(b"u", self.count, spelling))
    }
}

/// Units with commas between them.
fn units(alloc: Global, count: u16, word: &str) -> Result<Option<List<u16>>, NoMemory>
    ensures { IfOk result (λ x. x ≡ (units count).read word.now) }
{
    let parts = by_commas(alloc, word)?;
    each(alloc, &UnitBelow { count }, parts.as_slice())
}

/// Such units, each once.
pub fn distinct_units(alloc: Global, count: u16, word: &str) -> Result<Option<List<u16>>, NoMemory>
    ensures { IfOk result (λ x. x ≡ (distinct_units count).read word.now) }
{
    let Some(units) = units(alloc, count, word)? else {
        return Ok(None);
    };
    if are_distinct(units.as_slice()) {
        Ok(Some(units))
    } else {
        Ok(None)
    }
}

// Whether each is the number of a unit.
fn are_units(numbers: &[u16]) -> bool
    ensures { result ≡ list_all is_unit numbers.now }
{
    numbers.iter().all(|number| *number < 64)
}

/// Whether units make a chain.
fn is_chain(units: &[u16]) -> bool
    ensures { result ≡ is_chain units.now }
{
    1 <= units.len() && units.len() <= Chain::MAX && are_units(units) && are_distinct(units)
}

/// The chain of these units, if they make one. It takes no memory.
fn chain_of(units: &[u16]) -> Option<Chain>
    ensures { result ≡ if is_chain units.now then Some units.now else None }
{
    if is_chain(units) {
        Chain::of(units)
    } else {
        None
    }
}

/// Reads a chain of units below a count.
#[derive(Drop)]
struct ChainBelow {
    count: u16,
}

impl Reader for ChainBelow {
    type Value = Chain;

    ghost word = { λ r. chain r.count };

    fn read(&self, alloc: Global, spelling: &str) -> Result<Option<Chain>, NoMemory> {
        let Some(units) = units(alloc, self.count, spelling)? else {
            return Ok(None);
        };
        Ok(chain_of(units.as_slice()))
    }
}

/// The units of all chains, in order.
fn concat(alloc: Global, chains: &[Chain]) -> Result<List<u16>, NoMemory>
    ensures { IfOk result (λ units. units ≡ concat chains.now) }
{
    let mut units = List::new(alloc);
    for chain in chains {
        units.extend(chain.as_slice())?;
    }
    Ok(units)
}

/// Whether there are one to eight chains, and each unit stands once in all.
fn few_apart(alloc: Global, chains: &[Chain]) -> Result<bool, NoMemory>
    ensures { IfOk result (λ b. b ≡ few_apart chains.now) }
{
    let units = concat(alloc, chains)?;
    Ok(1 <= chains.len() && chains.len() <= 8 && are_distinct(units.as_slice()))
}

/// Chains with slashes between them, and each unit once in all.
pub fn chains(alloc: Global, count: u16, word: &str) -> Result<Option<List<Chain>>, NoMemory>
    ensures { IfOk result (λ x. x ≡ (chains count).read word.now) }
{
    let parts = by_slashes(alloc, word)?;
    let Some(chains) = each(alloc, &ChainBelow { count }, parts.as_slice())? else {
        return Ok(None);
    };
    if few_apart(alloc, chains.as_slice())? {
        Ok(Some(chains))
    } else {
        Ok(None)
    }
}
