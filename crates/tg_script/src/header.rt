//! The header of a script.

ghost use Rattle.std.specs.Prelude.{◌≡◌, ◌≤◌, ℕ, List, length, Some, IfOk, MatchResult, option_map, true};
ghost use Rattle.tg_base.specs.Clusters.{Header, IsHeader, is_odd_to_seven};
ghost use Rattle.tg_base.specs.Units.{is_within};
ghost use Rattle.tg_base.specs.declared.fault.TextFault.TheVariants as fault;
ghost use Rattle.tg_any.specs.Words.{texts, Phrase, object};
ghost use Rattle.tg_script.specs.Parts.{words_of};
ghost use Rattle.tg_script.specs.Nodes.{chains};
ghost use Rattle.tg_script.specs.Headers.{are_sizes, field_at, sizes_if, sizes_after, sizes, stripes, objects, sizes_in, stripes_in, objects_in, header_lines, IsFirstOutside, OnOutside};

use crate::cut::{text_of, words};
use crate::nodes::chains;
use crate::reader::{Reader, each};
use std::alloc::Global;
use tg_any::{are_objects, number, object};
use tg_base::{Chain, Cluster, List, NoMemory, Oid, TextFault};

/// How many nodes of each role there are, and how many positions the log may have.
#[derive(Clone, Copy, PartialEq, Eq)]
pub struct Sizes {
    pub units: u16,
    pub layouts: u16,
    pub seqs: u16,
    pub clients: u16,
    pub limit: u64,
}

/// The cluster that the three lines of a header declare.
///
/// # Errors
/// `Outside` names the first line, from 1, that no header has after the lines before it. Where lines are
/// missing that is the one after the last.
pub fn parse_header(alloc: Global, lines: &[List<u8>]) -> Result<Cluster, TextFault>
    requires { length lines.now ≤ 3 }
    ensures found { IfOk result (λ h. lines.now ≡ header_lines h) }
    ensures only { (h : Header) → IsHeader h → lines.now ≡ header_lines h → MatchResult result (λ c. c ≡ h) (λ e. e ≡ fault.NoMemory) }
    ensures outside { OnOutside result (λ n. IsFirstOutside lines.now n) }
{
    let Some(sizes) = read_sizes(alloc, lines)? else {
        return Err(TextFault::Outside { line: 1 });
    };
    header_with_sizes(alloc, sizes, lines)
}

// The cluster whose sizes the first line tells.
fn header_with_sizes(alloc: Global, sizes: Sizes, lines: &[List<u8>]) -> Result<Cluster, TextFault>
    requires few { length lines.now ≤ 3 }
    requires first { sizes_in lines.now ≡ Some sizes }
    ensures found { IfOk result (λ h. lines.now ≡ header_lines h) }
    ensures only { (h : Header) → IsHeader h → lines.now ≡ header_lines h → MatchResult result (λ c. c ≡ h) (λ e. e ≡ fault.NoMemory) }
    ensures outside { OnOutside result (λ n. IsFirstOutside lines.now n) }
{
    let Some(chains) = read_chains(alloc, sizes.units, lines)? else {
        return Err(TextFault::Outside { line: 2 });
    };
    header_with_chains(alloc, sizes, chains, lines)
}

// The cluster whose sizes and chains the first two lines tell.
fn header_with_chains(
    alloc: Global,
    sizes: Sizes,
    chains: List<Chain>,
    lines: &[List<u8>],
) -> Result<Cluster, TextFault>
    requires few { length lines.now ≤ 3 }
    requires first { sizes_in lines.now ≡ Some sizes }
    requires second { stripes_in sizes.units lines.now ≡ Some chains }
    ensures found { IfOk result (λ h. lines.now ≡ header_lines h) }
    ensures only { (h : Header) → IsHeader h → lines.now ≡ header_lines h → MatchResult result (λ c. c ≡ h) (λ e. e ≡ fault.NoMemory) }
    ensures outside { OnOutside result (λ n. IsFirstOutside lines.now n) }
{
    let Some(objects) = read_objects(alloc, lines)? else {
        return Err(TextFault::Outside { line: 3 });
    };
    Ok(Cluster {
        units: sizes.units,
        layouts: sizes.layouts,
        seqs: sizes.seqs,
        clients: sizes.clients,
        limit: sizes.limit,
        chains,
        objects,
    })
}

// The number after its name, and the words that follow.
fn field<'a, 'b>(name: &str, words: &'b [&'a str]) -> Option<(u64, &'b [&'a str])>
    ensures { option_map (λ x. (x.0, texts x.1.now)) result ≡ field_at name.now (texts words.now) }
{
    let [word, value, rest @ ..] = words else {
        return None;
    };
    if *word != name {
        return None;
    }
    let n = number(value.as_bytes())?;
    Some((n, rest))
}

// Whether a number lies between two others.
fn is_within(low: u64, high: u64, n: u64) -> bool
    ensures { result ≡ is_within low high n }
{
    low <= n && n <= high
}

// Whether a number of layout servers has a middle, and isn't above seven.
fn is_odd_to_seven(n: u64) -> bool
    ensures { result ≡ is_odd_to_seven n }
{
    n == 1 || n == 3 || n == 5 || n == 7
}

// The sizes, if they are within their limits.
fn checked(units: u64, layouts: u64, seqs: u64, clients: u64, limit: u64) -> Option<Sizes>
    ensures { result ≡ sizes_if true (record { units = units; layouts = layouts; seqs = seqs; clients = clients; limit = limit }) }
{
    if is_within(1, 64, units)
        && is_odd_to_seven(layouts)
        && is_within(1, 16, seqs)
        && is_within(1, 32, clients)
        && is_within(1, 1_000_000, limit)
    {
        Some(Sizes {
            units: units as u16,
            layouts: layouts as u16,
            seqs: seqs as u16,
            clients: clients as u16,
            limit,
        })
    } else {
        None
    }
}

// The sizes that stand after the word `cluster`.
#[tactic(auto, unfolding(crate::specs::Headers::sizes_after))]
fn sizes_after(words: &[&str]) -> Option<Sizes>
    ensures { result ≡ sizes_after (texts words.now) }
{
    let (units, rest) = field("units", words)?;
    let (layouts, rest) = field("layouts", rest)?;
    let (seqs, rest) = field("seqs", rest)?;
    let (clients, rest) = field("clients", rest)?;
    let (limit, rest) = field("limit", rest)?;
    if rest.is_empty() {
        checked(units, layouts, seqs, clients, limit)
    } else {
        None
    }
}

// The sizes that these words are.
fn sizes_of(words: &[&str]) -> Option<Sizes>
    ensures { result ≡ sizes.read (texts words.now) }
{
    let [word, rest @ ..] = words else {
        return None;
    };
    if *word == "cluster" {
        sizes_after(rest)
    } else {
        None
    }
}

// The sizes of the first line.
fn read_sizes(alloc: Global, lines: &[List<u8>]) -> Result<Option<Sizes>, NoMemory>
    ensures { IfOk result (λ x. x ≡ sizes_in lines.now) }
{
    let [line, ..] = lines else {
        return Ok(None);
    };
    sizes_line(alloc, line.as_slice())
}

// The sizes that a line is.
fn sizes_line(alloc: Global, line: &[u8]) -> Result<Option<Sizes>, NoMemory>
    ensures { IfOk result (λ x. x ≡ sizes.read (words_of line.now)) }
{
    let Some(text) = text_of(line) else {
        return Ok(None);
    };
    Ok(sizes_of(words(alloc, text)?.as_slice()))
}

// The chains that these words are.
fn stripes_of(alloc: Global, units: u16, words: &[&str]) -> Result<Option<List<Chain>>, NoMemory>
    ensures { IfOk result (λ x. x ≡ (stripes units).read (texts words.now)) }
{
    let [name, fields @ ..] = words else {
        return Ok(None);
    };
    if *name != "chains" {
        return Ok(None);
    }
    match fields {
        [word] => chains(alloc, units, word),
        _ => Ok(None),
    }
}

// The chains of the second line.
fn read_chains(
    alloc: Global,
    units: u16,
    lines: &[List<u8>],
) -> Result<Option<List<Chain>>, NoMemory>
    requires { units ≤ 64 }
    ensures { IfOk result (λ x. x ≡ stripes_in units lines.now) }
{
    let [_, line, ..] = lines else {
        return Ok(None);
    };
    stripes_line(alloc, units, line.as_slice())
}

// The chains that a line is.
fn stripes_line(alloc: Global, units: u16, line: &[u8]) -> Result<Option<List<Chain>>, NoMemory>
    requires { units ≤ 64 }
    ensures { IfOk result (λ x. x ≡ (stripes units).read (words_of line.now)) }
{
    let Some(text) = text_of(line) else {
        return Ok(None);
    };
    let words = words(alloc, text)?;
    stripes_of(alloc, units, words.as_slice())
}

/// Reads an object.
#[derive(Drop)]
struct ObjectWord;

impl Reader for ObjectWord {
    type Value = Oid;

    ghost word = { λ _. object };

    fn read(&self, _alloc: Global, spelling: &str) -> Result<Option<Oid>, NoMemory> {
        Ok(object(spelling.as_bytes()))
    }
}

// The objects that these words are.
fn objects_of(alloc: Global, words: &[&str]) -> Result<Option<List<Oid>>, NoMemory>
    ensures { IfOk result (λ x. x ≡ objects.read (texts words.now)) }
{
    let [name, fields @ ..] = words else {
        return Ok(None);
    };
    if *name != "objects" {
        return Ok(None);
    }
    let Some(objects) = each(alloc, &ObjectWord, fields)? else {
        return Ok(None);
    };
    if are_objects(objects.as_slice()) {
        Ok(Some(objects))
    } else {
        Ok(None)
    }
}

// The objects of the third line.
fn read_objects(alloc: Global, lines: &[List<u8>]) -> Result<Option<List<Oid>>, NoMemory>
    ensures { IfOk result (λ x. x ≡ objects_in lines.now) }
{
    let [_, _, line, ..] = lines else {
        return Ok(None);
    };
    objects_line(alloc, line.as_slice())
}

// The objects that a line is.
fn objects_line(alloc: Global, line: &[u8]) -> Result<Option<List<Oid>>, NoMemory>
    ensures { IfOk result (λ x. x ≡ objects.read (words_of line.now)) }
{
    let Some(text) = text_of(line) else {
        return Ok(None);
    };
    let words = words(alloc, text)?;
    objects_of(alloc, words.as_slice())
}
