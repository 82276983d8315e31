//! The words of a reconfiguration.

ghost use Rattle.std.specs.Prelude.{◌≡◌, ◌≤◌, true, IfOk, IfSome, option_map, codes};
ghost use Rattle.std.specs.List.{list_all};
ghost use Rattle.tg_base.specs.Clusters.{IsHeader};
ghost use Rattle.tg_base.specs.Units.{is_unit, is_distinct};
ghost use Rattle.tg_base.specs.Changes.{is_opening, is_joining};
ghost use Rattle.tg_any.specs.Words.{texts};
ghost use Rattle.tg_script.specs.Nodes.{distinct_units, chains};
ghost use Rattle.tg_script.specs.Commands.{part_at, part_read, place, join_read, joined_change, opened_change, dropped_change, change_read};

use crate::nodes::{chains, distinct_units, lettered};
use std::alloc::Global;
use tg_any::two;
use tg_base::{Chain, Change, Cluster, Join, List, NoMemory};

// The word after a name at the front, where it stands there, and the words that follow.
fn part<'a, 'b>(name: &str, words: &'b [&'a str]) -> (Option<&'a str>, &'b [&'a str])
    ensures word { option_map (λ w. w.now) result.0 ≡ (part_at name.now (texts words.now)).0 }
    ensures rest { texts result.1.now ≡ (part_at name.now (texts words.now)).1 }
{
    let [first, word, rest @ ..] = words else {
        return (None, words);
    };
    if *first == name {
        (Some(*word), rest)
    } else {
        (None, words)
    }
}

// The units that leave.
fn dropped(alloc: Global, count: u16, word: Option<&str>) -> Result<Option<List<u16>>, NoMemory>
    requires { count ≤ 64 }
    ensures read { IfOk result (λ x. x ≡ part_read (distinct_units count) (option_map (λ w. w.now) word.entry)) }
    ensures fits { IfOk result (λ x. IfSome x (λ us. (list_all is_unit us ≡ true) × (is_distinct us ≡ true))) }
{
    match word {
        None => Ok(Some(List::new(alloc))),
        Some(word) => distinct_units(alloc, count, word),
    }
}

// The chains of a further range.
fn opened(alloc: Global, count: u16, word: Option<&str>) -> Result<Option<List<Chain>>, NoMemory>
    requires { count ≤ 64 }
    ensures read { IfOk result (λ x. x ≡ part_read (chains count) (option_map (λ w. w.now) word.entry)) }
    ensures fits { IfOk result (λ x. IfSome x (λ cs. is_opening cs ≡ true)) }
{
    match word {
        None => Ok(Some(List::new(alloc))),
        Some(word) => chains(alloc, count, word),
    }
}

/// A unit, a range and a stripe.
pub fn place(alloc: Global, cluster: &Cluster, words: &[&str]) -> Result<Option<Join>, NoMemory>
    ensures { IfOk result (λ x. x ≡ (place cluster.now).read (texts words.now)) }
{
    let [word, fields @ ..] = words else {
        return Ok(None);
    };
    let Some(unit) = lettered(b"u", cluster.units, word) else {
        return Ok(None);
    };
    let Some((range, stripe)) = two::<u64, u64>(alloc, fields)? else {
        return Ok(None);
    };
    Ok(Some(Join {
        unit,
        range: range as usize,
        stripe: stripe as usize,
    }))
}

// The unit that joins, if one does.
fn join(alloc: Global, cluster: &Cluster, words: &[&str]) -> Result<Option<Option<Join>>, NoMemory>
    requires { IsHeader cluster.now }
    ensures read { IfOk result (λ x. x ≡ join_read cluster.now (texts words.now)) }
    ensures fits { IfOk result (λ x. IfSome x (λ j. is_joining j ≡ true)) }
{
    let [word, fields @ ..] = words else {
        return Ok(Some(None));
    };
    if *word != "join" {
        return Ok(None);
    }
    let Some(join) = place(alloc, cluster, fields)? else {
        return Ok(None);
    };
    Ok(Some(Some(join)))
}

// The change of these parts, which keep the rules together.
fn change_of(seq: u16, drop: List<u16>, opened: List<Chain>, join: Option<Join>) -> Change
    requires units { (list_all is_unit drop ≡ true) × (is_distinct drop ≡ true) }
    requires opening { is_opening opened ≡ true }
    requires joining { is_joining join ≡ true }
    ensures { result ≡ record { seq = seq; drop = drop; opened = opened; join = join } }
{
    Change {
        seq,
        drop,
        opened,
        join,
    }
}

// The change whose last words are those of the unit that joins.
fn change_after_open(
    alloc: Global,
    cluster: &Cluster,
    seq: u16,
    drop: List<u16>,
    opened: List<Chain>,
    words: &[&str],
) -> Result<Option<Change>, NoMemory>
    requires header { IsHeader cluster.now }
    requires units { (list_all is_unit drop ≡ true) × (is_distinct drop ≡ true) }
    requires opening { is_opening opened ≡ true }
    ensures { IfOk result (λ x. x ≡ joined_change cluster.now seq drop opened (texts words.now)) }
{
    let Some(join) = join(alloc, cluster, words)? else {
        return Ok(None);
    };
    Ok(Some(change_of(seq, drop, opened, join)))
}

// The change whose words follow those of the units that leave.
fn change_after_drop(
    alloc: Global,
    cluster: &Cluster,
    seq: u16,
    drop: List<u16>,
    words: &[&str],
) -> Result<Option<Change>, NoMemory>
    requires header { IsHeader cluster.now }
    requires units { (list_all is_unit drop ≡ true) × (is_distinct drop ≡ true) }
    ensures { IfOk result (λ x. x ≡ opened_change cluster.now seq drop (part_at (codes "open") (texts words.now))) }
{
    let (word, rest) = part("open", words);
    let Some(opened) = opened(alloc, cluster.units, word)? else {
        return Ok(None);
    };
    change_after_open(alloc, cluster, seq, drop, opened, rest)
}

// The change whose words follow those of the sequencer.
fn change_after(
    alloc: Global,
    cluster: &Cluster,
    seq: u16,
    words: &[&str],
) -> Result<Option<Change>, NoMemory>
    requires { IsHeader cluster.now }
    ensures { IfOk result (λ x. x ≡ dropped_change cluster.now seq (part_at (codes "drop") (texts words.now))) }
{
    let (word, rest) = part("drop", words);
    let Some(drop) = dropped(alloc, cluster.units, word)? else {
        return Ok(None);
    };
    change_after_drop(alloc, cluster, seq, drop, rest)
}

/// What a reconfiguration asks for.
pub fn change(alloc: Global, cluster: &Cluster, words: &[&str]) -> Result<Option<Change>, NoMemory>
    ensures { IfOk result (λ x. x ≡ change_read cluster.now (texts words.now)) }
{
    let [word, rest @ ..] = words else {
        return Ok(None);
    };
    let Some(seq) = lettered(b"s", cluster.seqs, word) else {
        return Ok(None);
    };
    cluster.rules();
    change_after(alloc, cluster, seq, rest)
}
