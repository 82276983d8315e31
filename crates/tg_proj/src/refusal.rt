//! Which change of a layout is refused, and why.

ghost use Rattle.std.specs.Prelude.{◌≡◌, ◌+◌, ◌<◌, ◌^◌, ◌++◌, None, IsTrue, IfOk, IfErr, find, fold, length, slice_index_or, [], Some};
ghost use Rattle.std.specs.List.{concat, position_from};
ghost use Rattle.tg_proj.specs.Places.{range_at};
ghost use Rattle.tg_proj.specs.Next.{next_ranges, next_chains, opened_at, StripesFit, RangesFit};
ghost use Rattle.tg_proj.specs.Refusals.{opens_too_many, on_test, join_refusal, spare_refusal, return_refusal, lost_refusal, is_lost, is_out as is_out_of, is_acked, less_unacked, units_of, early_refusal, next_start, new_start, is_about_acks, coming, joining, MayFollow};

use crate::change::{follow, keep};
use crate::fault::ProjFault;
use tg_base::{Chain, Change, Join, List, Many, Pos, Projection, Range};

/// The first position that the next layout's sequencer may issue: the greatest of the old
/// one's and of the acks' numbers. An ack names a unit and one past the highest position
/// that it has. Of several causes the first in the order of `change_fault` is told, and
/// `NotAcked` last. It takes no memory.
pub fn next_ok(old: &Projection, change: &Change, acks: &[(u16, Pos)]) -> Result<Pos, ProjFault>
    ensures answer { result ≡ next_start old.now change.now acks.now }
    ensures may { IfOk result (λ start. MayFollow old.now change.now start) }
    ensures acks { IfErr result (λ fault. IsTrue (is_about_acks fault) → early_refusal old.now change.now ≡ None) }
{
    old.rules();
    if let Some(fault) = change_fault(old, change) {
        return Err(fault);
    }
    if let Some(unit) = unacked(old, change, acks) {
        return Err(ProjFault::NotAcked { unit });
    }
    Ok(start_after(old.start, acks))
}

/// Why a layout may not change so, whatever the units have: the first refusal that needs no ack. It takes no memory.
pub fn change_fault(old: &Projection, change: &Change) -> Option<ProjFault>
    ensures { result ≡ early_refusal old.now change.now }
{
    if !change.opened.is_empty() && old.ranges.len() >= 32 {
        return Some(ProjFault::TooMany { what: Many::Ranges });
    }
    if let Some(fault) = join_fault(old, change) {
        return Some(fault);
    }
    if let Some(fault) = return_fault(old, change) {
        return Some(fault);
    }
    lost_fault(&change.drop, 0, old.ranges.as_slice())
}

/// Why the unit may not join that chain.
fn join_fault(old: &Projection, change: &Change) -> Option<ProjFault>
    ensures { result ≡ join_refusal old.now change.now.drop change.now.join }
{
    match change.join {
        Some(join) => one_join_fault(old, &change.drop, join),
        None => None,
    }
}

/// Why a stripe's cells may not be brought to a spare unit: the range isn't closed or has no such stripe, or the unit stands
/// in its chain or was dropped. It takes no memory.
pub fn spare_fault(p: &Projection, spare: Join) -> Option<ProjFault>
    ensures { result ≡ spare_refusal p.now spare }
{
    let Join {
        unit,
        range,
        stripe,
    } = spare;
    p.rules();
    if range >= p.ranges.len() - 1 {
        return Some(ProjFault::NotClosed { range });
    }
    let stripes = stripes_of(p, range);
    if stripe >= stripes.len() {
        return Some(ProjFault::NoStripe { range, stripe });
    }
    if stripe_of(stripes, stripe).as_slice().contains(&unit) {
        return Some(ProjFault::InChain { unit });
    }
    if p.gone.as_slice().contains(&unit) {
        return Some(ProjFault::Returned { unit });
    }
    None
}

fn one_join_fault(old: &Projection, drop: &List<u16>, join: Join) -> Option<ProjFault>
    ensures { result ≡ join_refusal old.now drop.now (Some join) }
{
    let Join {
        unit,
        range,
        stripe,
    } = join;
    old.rules();
    if range >= old.ranges.len() - 1 {
        return Some(ProjFault::NotClosed { range });
    }
    let stripes = stripes_of(old, range);
    if stripe >= stripes.len() {
        return Some(ProjFault::NoStripe { range, stripe });
    }
    let chain = stripe_of(stripes, stripe);
    if chain.as_slice().contains(&unit) {
        return Some(ProjFault::InChain { unit });
    }
    if keep(drop, chain).len() >= Chain::MAX {
        return Some(ProjFault::TooMany { what: Many::Units });
    }
    None
}

fn stripes_of(old: &Projection, range: usize) -> &[Chain]
    requires { range < length old.now.ranges }
    ensures { result.now ≡ (range_at old.now.ranges range).stripes }
{
    old.ranges.as_slice()[range].stripes.as_slice()
}

fn stripe_of(stripes: &[Chain], stripe: usize) -> &Chain
    requires { stripe < length stripes.now }
    ensures { result.now ≡ slice_index_or stripes.now stripe [] }
{
    &stripes[stripe]
}

/// The first unit that comes in and was dropped, or is.
fn return_fault(old: &Projection, change: &Change) -> Option<ProjFault>
    ensures { result ≡ return_refusal old.now change.now }
{
    match first_returned(old, change) {
        Some(unit) => Some(ProjFault::Returned { unit }),
        None => None,
    }
}

fn first_returned(old: &Projection, change: &Change) -> Option<u16>
    ensures { result ≡ find (is_out_of old.now change.now) (coming change.now) }
{
    match first_out_of_chains(old, change, change.opened.as_slice()) {
        Some(unit) => Some(unit),
        None => join_out(old, change),
    }
}

fn join_out(old: &Projection, change: &Change) -> Option<u16>
    ensures { result ≡ find (is_out_of old.now change.now) (joining change.now.join) }
{
    match change.join {
        Some(join) => first_out(old, change, &[join.unit]),
        None => None,
    }
}

fn first_out_of_chains(old: &Projection, change: &Change, chains: &[Chain]) -> Option<u16>
    ensures { result ≡ find (is_out_of old.now change.now) (concat chains.now) }
{
    match chains {
        [] => None,
        [chain, others @ ..] => match first_out(old, change, chain.as_slice()) {
            Some(unit) => Some(unit),
            None => first_out_of_chains(old, change, others),
        },
    }
}

fn first_out(old: &Projection, change: &Change, units: &[u16]) -> Option<u16>
    ensures { result ≡ find (is_out_of old.now change.now) units.now }
{
    match units {
        [] => None,
        [unit, others @ ..] => {
            if is_out(old, change, *unit) {
                Some(*unit)
            } else {
                first_out(old, change, others)
            }
        }
    }
}

fn is_out(old: &Projection, change: &Change, unit: u16) -> bool
    ensures { result ≡ is_out_of old.now change.now unit }
{
    old.gone.as_slice().contains(&unit) || change.drop.as_slice().contains(&unit)
}

/// The first stripe of which no unit stays, of the ranges from number `first` on.
fn lost_fault(drop: &List<u16>, first: usize, ranges: &[Range]) -> Option<ProjFault>
    requires { first + length ranges.now < 2 ^ 63 }
    ensures { result ≡ lost_refusal drop.now first ranges.now }
{
    match ranges {
        [] => None,
        [range, others @ ..] => match first_lost(drop, range.stripes.as_slice()) {
            Some(stripe) => Some(ProjFault::NoReplica {
                range: first,
                stripe,
            }),
            None => lost_fault(drop, first + 1, others),
        },
    }
}

fn first_lost(drop: &List<u16>, stripes: &[Chain]) -> Option<usize>
    ensures { result ≡ position_from (is_lost drop.now) 0 stripes.now }
{
    stripes
        .iter()
        .position(|chain| keep(drop, chain).is_empty())
}

/// The least unit of the next layout without an ack.
fn unacked(old: &Projection, change: &Change, acks: &[(u16, Pos)]) -> Option<u16>
    requires { RangesFit change.now old.now.ranges }
    ensures { result ≡ fold (less_unacked acks.now) None (units_of (next_ranges change.now 0 old.now.ranges ++ opened_at change.now.opened 0)) }
{
    let best = least_of_ranges(change, acks, old.ranges.as_slice());
    least_of_chains(acks, best, change.opened.as_slice())
}

fn least_of_chains(acks: &[(u16, Pos)], best: Option<u16>, chains: &[Chain]) -> Option<u16>
    ensures { result ≡ fold (less_unacked acks.now) best (concat chains.now) }
{
    let mut best = best;
    for chain in chains {
        best = least_of(acks, best, chain.as_slice());
    }
    best
}

fn least_of_ranges(change: &Change, acks: &[(u16, Pos)], ranges: &[Range]) -> Option<u16>
    requires { RangesFit change.now ranges.now }
    ensures { result ≡ fold (less_unacked acks.now) None (units_of (next_ranges change.now 0 ranges.now)) }
{
    let mut best = None;
    for (number, range) in ranges.iter().enumerate() {
        best = least_of_stripes(change, acks, best, number, range.stripes.as_slice());
    }
    best
}

fn least_of_stripes(
    change: &Change,
    acks: &[(u16, Pos)],
    best: Option<u16>,
    range: usize,
    stripes: &[Chain],
) -> Option<u16>
    requires { StripesFit change.now range stripes.now }
    ensures { result ≡ fold (less_unacked acks.now) best (concat (next_chains change.now range 0 stripes.now)) }
{
    let mut best = best;
    for (stripe, chain) in stripes.iter().enumerate() {
        best = least_of(acks, best, follow(change, range, stripe, chain).as_slice());
    }
    best
}

fn least_of(acks: &[(u16, Pos)], best: Option<u16>, units: &[u16]) -> Option<u16>
    ensures { result ≡ fold (less_unacked acks.now) best units.now }
{
    units
        .iter()
        .fold(best, |best, unit| lesser_of(acks, best, *unit))
}

fn lesser_of(acks: &[(u16, Pos)], best: Option<u16>, unit: u16) -> Option<u16>
    ensures { result ≡ less_unacked acks.now best unit }
{
    if has_ack(acks, unit) {
        return best;
    }
    match best {
        Some(other) => Some(other.min(unit)),
        None => Some(unit),
    }
}

fn has_ack(acks: &[(u16, Pos)], unit: u16) -> bool
    ensures { result ≡ is_acked acks.now unit }
{
    acks.iter().any(|ack| ack.0 == unit)
}

fn start_after(start: Pos, acks: &[(u16, Pos)]) -> Pos
    ensures { result ≡ new_start start acks.now }
{
    acks.iter().fold(start, |start, ack| start.max(ack.1))
}
