//! Points of replies: what begins after a reply has no place below its point.

ghost use Rattle.std.specs.Prelude.{◌≡◌, ◌<◌, ℕ, length, get_or, max, IfOk, OnOk};
ghost use Rattle.tg_kind.specs.Of.{meaning_of};
ghost use Rattle.tg_model.specs.Traces.{puts_of, has_items};
ghost use Rattle.tg_audit.specs.Judging as of;
ghost use Rattle.tg_audit.specs.Runs as runs;

use crate::index::{Index, key};
use crate::parts::marks_of;
use crate::puts::has_put;
use std::alloc::Global;
use std::collections::BTreeMap;
use tg_base::{List, NoMemory};
use tg_kind::Registry;
use tg_model::{MarkOf, What};

// Whether a transaction wrote.
fn wrote<K: Registry>(trace: &[MarkOf<K>], marks: &Index, client: u16, tx: u32) -> bool
    requires { runs.HasMarks (meaning_of K.Registry) trace.now marks.now }
    ensures { result ≡ has_items (meaning_of K.Registry) (puts_of (meaning_of K.Registry) trace.now client tx) }
{
    let own = marks_of::<K>(trace, marks, client, tx, trace.len());
    has_put::<K>(own, client, tx)
}

// The point of a reply, or 0. A position and one more may have 65 bits.
fn point<K: Registry>(trace: &[MarkOf<K>], marks: &Index, mark: &MarkOf<K>) -> u128
    requires { runs.HasMarks (meaning_of K.Registry) trace.now marks.now }
    ensures { result ≡ of.reach (meaning_of K.Registry) trace.now mark.now }
{
    if mark.tx == 0 {
        return 0;
    }
    match &mark.what {
        What::Asked { at, .. } => u128::from(*at),
        What::Unsure { at, .. } => u128::from(*at) + 1,
        What::Aborted { at, .. } => u128::from(*at) + 1,
        What::Committed { at } => {
            if wrote::<K>(trace, marks, mark.client, mark.tx) {
                u128::from(*at) + 1
            } else {
                0
            }
        }
        _ => 0,
    }
}

/// The point of each reply. An `Err` is want of memory.
pub fn points<K: Registry>(
    alloc: Global,
    trace: &[MarkOf<K>],
    marks: &Index,
) -> Result<List<u128>, NoMemory>
    requires { runs.HasMarks (meaning_of K.Registry) trace.now marks.now }
    ensures { IfOk result (λ ps. ps ≡ of.reaches (meaning_of K.Registry) trace.now) }
{
    let mut points = List::new(alloc);
    for mark in trace {
        points.push(point::<K>(trace, marks, mark))?;
    }
    Ok(points)
}

// Notes the greatest point so far where a reply is a begin.
fn note_begin<K: Registry>(
    bounds: &mut BTreeMap<u64, u128>,
    mark: &MarkOf<K>,
    reach: u128,
) -> Result<(), NoMemory>
    ensures { OnOk result ((k x : ℕ) → x < 4294967296 → runs.bound_at (meaning_of K.Registry) bounds.new k x ≡ of.after_begin (meaning_of K.Registry) k x reach (runs.bound_at (meaning_of K.Registry) bounds.old k x) mark.now) }
{
    if matches!(&mark.what, What::Begin) {
        bounds.insert(key(mark.client, mark.tx), reach)?;
    }
    Ok(())
}

// The greatest point so far, after that of a reply.
fn reached(reach: u128, points: &[u128], place: usize) -> u128
    requires { place < length points.now }
    ensures { result ≡ max reach (get_or points.now place 0) }
{
    reach.max(points[place])
}

/// The greatest point of the replies that stand before the last begin of each transaction. An `Err` is want of memory.
pub fn bounds<K: Registry>(
    alloc: Global,
    trace: &[MarkOf<K>],
    points: &[u128],
) -> Result<BTreeMap<u64, u128>, NoMemory>
    requires { points.now ≡ of.reaches (meaning_of K.Registry) trace.now }
    ensures { IfOk result (λ bs. runs.AreBounds (meaning_of K.Registry) trace.now bs) }
{
    let mut bounds = BTreeMap::new(alloc);
    let mut reach = 0;
    for place in 0..trace.len() {
        note_begin::<K>(&mut bounds, &trace[place], reach)?;
        reach = reached(reach, points, place);
    }
    Ok(bounds)
}
