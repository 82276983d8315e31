//! Answers that are the plain machine's, found by going over the history once for each object.

ghost use Rattle.std.specs.Prelude.{◌≡◌, ◌≤◌, ◌&&◌, ◌==◌, ℕ, true, length, map, Some, IfOk, OnOk, if◌then◌else◌};
ghost use Rattle.std.specs.BTreeMap.{get};
ghost use Rattle.std.specs.Ordering.{nat_cmp};
ghost use Rattle.tg_kind.specs.Of.{meaning_of};
ghost use Rattle.tg_kind.specs.Headers.{is_header};
ghost use Rattle.tg_audit.specs.Places.{IsRising};
ghost use Rattle.tg_audit.specs.Runs as runs;
ghost use Rattle.tg_audit.specs.Sweeps as sweeps;

use crate::judged::Judged;
use crate::states::written;
use std::alloc::Global;
use std::collections::BTreeMap;
use tg_base::{NoMemory, Oid, Pos};
use tg_kind::Registry;
use tg_model::{DoneOf, MarkOf, What};

// Whether the entries before a place are below a position, where stamps rise.
fn is_past<K: Registry>(history: &[DoneOf<K>], next: usize, before: Pos) -> bool
    requires { next ≤ length history.now }
    ensures { result ≡ true → sweeps.EndsBelow (meaning_of K.Registry) history.now next before }
{
    if next > 0 {
        return history[next - 1].stamp < before;
    }
    true
}

// The state of an object after the entries up to a position, and how many these are, from a state after fewer.
fn up_to<K: Registry>(
    state: K,
    history: &[DoneOf<K>],
    next: usize,
    oid: Oid,
    before: Pos,
) -> Result<(K, usize), NoMemory>
    requires next { next ≤ length history.now }
    requires below { sweeps.EndsBelow (meaning_of K.Registry) history.now next before }
    ensures { IfOk result (λ r. sweeps.IsUpTo (meaning_of K.Registry) history.now oid before state next r.0 r.1) }
{
    let mut state = state;
    for place in next..history.len() {
        let done = &history[place];
        if done.stamp >= before {
            return Ok((state, place));
        }
        state = written(state, done.writes.as_slice(), oid)?;
    }
    Ok((state, history.len()))
}

// The state of the asked object up to a position, from that of an object so far if it is the same, and not past it.
fn sweep_to<K: Registry>(
    alloc: Global,
    objects: &[Oid],
    history: &[DoneOf<K>],
    state: K,
    next: usize,
    oid: Oid,
    asked: Oid,
    before: Pos,
) -> Result<(K, usize), NoMemory>
    requires header { is_header objects.now ≡ true }
    requires sweep { sweeps.IsSweep (meaning_of K.Registry) objects.now history.now oid state next }
    ensures { IfOk result (λ r. sweeps.IsSweepTo (meaning_of K.Registry) objects.now history.now asked before r.0 r.1) }
{
    if oid.0 == asked.0 {
        if is_past::<K>(history, next, before) {
            return up_to(state, history, next, oid, before);
        }
    }
    let fresh = K::fresh(alloc, asked, objects)?;
    up_to(fresh, history, 0, asked, before)
}

// Notes the position of an answer that holds.
fn note_right(
    right: &mut BTreeMap<u64, Pos>,
    place: usize,
    before: Pos,
    holds: bool,
) -> Result<(), NoMemory>
    ensures { OnOk result ((q : ℕ) → get nat_cmp right.new q ≡ (if holds && (place == q) then Some before else get nat_cmp right.old q)) }
{
    if holds {
        right.insert(place as u64, before)?;
    }
    Ok(())
}

/// Positions at which answers are right, by their places: of these objects, positions and places among the replies, and
/// none where stamps don't rise. An `Err` is want of memory.
pub fn right_at<K: Judged>(
    alloc: Global,
    objects: &[Oid],
    history: &[DoneOf<K>],
    trace: &[MarkOf<K>],
    rise: bool,
    wanted: &[(u32, u64, usize)],
) -> Result<BTreeMap<u64, Pos>, NoMemory>
    requires header { is_header objects.now ≡ true }
    requires rise { rise ≡ true → IsRising (map (runs.stamp_of (meaning_of K.Registry)) history.now) }
    ensures { IfOk result (λ r. runs.AreRight (meaning_of K.Registry) K.same_answers objects.now history.now trace.now r) }
{
    let mut right = BTreeMap::new(alloc);
    if !rise {
        return Ok(right);
    }
    let mut oid = Oid(0);
    let mut next = 0;
    let mut state = K::fresh(alloc, oid, objects)?;
    for (_, before, place) in wanted {
        if *place >= trace.len() {
            continue;
        }
        let mark = &trace[*place];
        let What::Asked {
            oid: asked,
            ask,
            ans,
            ..
        } = &mark.what
        else {
            continue;
        };
        let (later, most) = sweep_to::<K>(
            alloc, objects, history, state, next, oid, *asked, *before,
        )?;
        oid = *asked;
        state = later;
        next = most;
        let answer = state.ask(alloc, ask)?;
        note_right(&mut right, *place, *before, K::is_same_answer(ans, &answer))?;
    }
    Ok(right)
}
