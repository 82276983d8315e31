//! Tables over the replies and the history, made once.

ghost use Rattle.std.specs.Prelude.{◌≡◌, true, map, IfOk};
ghost use Rattle.tg_kind.specs.Of.{meaning_of};
ghost use Rattle.tg_kind.specs.Headers.{is_header};
ghost use Rattle.tg_audit.specs.Places.{IsRising};
ghost use Rattle.tg_audit.specs.Runs as runs;

use crate::asks::is_of;
use crate::index::{Index, index_of, key, rises};
use crate::judged::Judged;
use crate::points::{bounds, points};
use crate::sweep::right_at;
use std::alloc::Global;
use std::collections::BTreeMap;
use tg_base::{List, NoMemory, Oid, Pos};
use tg_kind::Registry;
use tg_model::{DoneOf, MarkOf, What};

/// Where the replies and the entries of each transaction stand, the entries of each stamp, the bound of each
/// transaction, and places of answers with positions at which they hold.
#[derive(Drop)]
pub struct Tables {
    pub marks: Index,
    pub entries: Index,
    pub stamps: List<u64>,
    pub rise: bool,
    pub stamped: Index,
    pub bounds: BTreeMap<u64, u128>,
    pub asked: BTreeMap<u64, Pos>,
    pub ended: BTreeMap<u64, Pos>,
}

// The transaction of each reply.
fn mark_keys<K: Registry>(alloc: Global, trace: &[MarkOf<K>]) -> Result<List<u64>, NoMemory>
    ensures { IfOk result (λ ks. ks ≡ map (runs.mark_key (meaning_of K.Registry)) trace.now) }
{
    let mut keys = List::new(alloc);
    for mark in trace {
        keys.push(key(mark.client, mark.tx))?;
    }
    Ok(keys)
}

// The transaction of each entry.
fn entry_keys<K: Registry>(alloc: Global, history: &[DoneOf<K>]) -> Result<List<u64>, NoMemory>
    ensures { IfOk result (λ ks. ks ≡ map (runs.entry_key (meaning_of K.Registry)) history.now) }
{
    let mut keys = List::new(alloc);
    for done in history {
        keys.push(key(done.client, done.number))?;
    }
    Ok(keys)
}

// The stamp of each entry.
fn stamps<K: Registry>(alloc: Global, history: &[DoneOf<K>]) -> Result<List<u64>, NoMemory>
    ensures { IfOk result (λ ks. ks ≡ map (runs.stamp_of (meaning_of K.Registry)) history.now) }
{
    let mut stamps = List::new(alloc);
    for done in history {
        stamps.push(done.stamp)?;
    }
    Ok(stamps)
}

// Where the replies of each transaction stand.
fn index_marks<K: Registry>(alloc: Global, trace: &[MarkOf<K>]) -> Result<Index, NoMemory>
    ensures { IfOk result (λ x. runs.HasMarks (meaning_of K.Registry) trace.now x) }
{
    let keys = mark_keys::<K>(alloc, trace)?;
    index_of(alloc, keys.as_slice())
}

// Where the entries of each transaction stand.
fn index_entries<K: Registry>(alloc: Global, history: &[DoneOf<K>]) -> Result<Index, NoMemory>
    ensures { IfOk result (λ x. runs.HasEntries (meaning_of K.Registry) history.now x) }
{
    let keys = entry_keys::<K>(alloc, history)?;
    index_of(alloc, keys.as_slice())
}

// Whether the stamps rise.
fn rising<K: Registry>(history: &[DoneOf<K>], stamps: &List<u64>) -> bool
    requires { stamps.now ≡ map (runs.stamp_of (meaning_of K.Registry)) history.now }
    ensures { result ≡ true → IsRising (map (runs.stamp_of (meaning_of K.Registry)) history.now) }
{
    rises(stamps.as_slice())
}

// Where the entries of each stamp stand.
fn index_stamps<K: Registry>(
    alloc: Global,
    history: &[DoneOf<K>],
    stamps: &List<u64>,
) -> Result<Index, NoMemory>
    requires { stamps.now ≡ map (runs.stamp_of (meaning_of K.Registry)) history.now }
    ensures { IfOk result (λ x. runs.HasStamps (meaning_of K.Registry) history.now x) }
{
    index_of(alloc, stamps.as_slice())
}

// The bound of each transaction.
fn bounds_of<K: Registry>(
    alloc: Global,
    trace: &[MarkOf<K>],
    marks: &Index,
) -> Result<BTreeMap<u64, u128>, NoMemory>
    requires { runs.HasMarks (meaning_of K.Registry) trace.now marks.now }
    ensures { IfOk result (λ bs. runs.AreBounds (meaning_of K.Registry) trace.now bs) }
{
    let points = points::<K>(alloc, trace, marks)?;
    bounds::<K>(alloc, trace, points.as_slice())
}

// The answers by their objects and snapshots.
fn snapshots<K: Registry>(
    alloc: Global,
    trace: &[MarkOf<K>],
) -> Result<Vec<(u32, u64, usize)>, NoMemory> {
    let mut wanted = Vec::new(alloc);
    for place in 0..trace.len() {
        if let What::Asked { oid, at, .. } = &trace[place].what {
            wanted.push((oid.0, *at, place))?;
        }
    }
    wanted.sort_unstable();
    Ok(wanted)
}

// Puts the answers of an entry's transaction last, with the entry's stamp.
fn want_again<K: Registry>(
    wanted: &mut Vec<(u32, u64, usize)>,
    trace: &[MarkOf<K>],
    window: (usize, usize),
    done: &DoneOf<K>,
) -> Result<(), NoMemory> {
    for place in window.0..window.1 {
        let Some(mark) = trace.get(place) else {
            return Ok(());
        };
        if is_of::<K>(mark, done.client, done.number) {
            if let What::Asked { oid, .. } = &mark.what {
                wanted.push((oid.0, done.stamp, place))?;
            }
        }
    }
    Ok(())
}

// The answers of the transactions in the history by their objects and the stamps.
fn ends<K: Registry>(
    alloc: Global,
    history: &[DoneOf<K>],
    trace: &[MarkOf<K>],
    marks: &Index,
) -> Result<Vec<(u32, u64, usize)>, NoMemory> {
    let mut wanted = Vec::new(alloc);
    for done in history {
        let window = marks.window(key(done.client, done.number));
        want_again::<K>(&mut wanted, trace, window, done)?;
    }
    wanted.sort_unstable();
    Ok(wanted)
}

/// The tables of a run. An `Err` is want of memory.
pub fn tables_of<K: Judged>(
    alloc: Global,
    objects: &[Oid],
    history: &[DoneOf<K>],
    trace: &[MarkOf<K>],
) -> Result<Tables, NoMemory>
    requires { is_header objects.now ≡ true }
    ensures { IfOk result (λ t. runs.IsRun (meaning_of K.Registry) K.same_answers objects.now history.now trace.now t) }
{
    let marks = index_marks::<K>(alloc, trace)?;
    let entries = index_entries::<K>(alloc, history)?;
    let stamps = stamps::<K>(alloc, history)?;
    let rise = rising::<K>(history, &stamps);
    let stamped = index_stamps::<K>(alloc, history, &stamps)?;
    let bounds = bounds_of::<K>(alloc, trace, &marks)?;
    let snapshots = snapshots::<K>(alloc, trace)?;
    let asked = right_at::<K>(alloc, objects, history, trace, rise, snapshots.as_slice())?;
    let ends = ends::<K>(alloc, history, trace, &marks)?;
    let ended = right_at::<K>(alloc, objects, history, trace, rise, ends.as_slice())?;
    Ok(Tables {
        marks,
        entries,
        stamps,
        rise,
        stamped,
        bounds,
        asked,
        ended,
    })
}
