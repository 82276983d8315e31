//! What walks find.

ghost use Rattle.std.specs.Prelude.{◌≡◌, IfOk};
ghost use Rattle.tg_kind.specs.Of.{meaning_of};
ghost use Rattle.tg_client_cells.specs.Known.{IsSettled, lent, returned};
ghost use Rattle.tg_client_sync.specs.Finding.{trims_after, found_in, first_and_others};

use std::alloc::Global;
use std::mem;
use tg_base::{List, NoMemory, Oid, Pos};
use tg_client_cells::StreamPositions;
use tg_client_state::{Job, State};
use tg_kind::Registry;
use tg_stream::Cells;

/// The first stream, and the others. It takes no memory.
#[tactic(auto, using(crate::proofs::First::none_of, crate::proofs::First::some_of))]
pub fn first_of(oids: List<Oid>) -> Option<(Oid, List<Oid>)>
    ensures { result ≡ first_and_others oids }
{
    if oids.is_empty() {
        return None;
    }
    let mut others = oids;
    let oid = others.remove(0);
    Some((oid, others))
}

/// The cells, for walks down to a position. It takes no memory.
pub fn lend<K: Registry>(state: State<K>, alloc: Global, lo: Pos) -> (State<K>, Cells)
    ensures cells { result.1 ≡ state.known.cells }
    ensures state { result.0 ≡ record state { known = lent state.known lo } }
    ensures settled { IsSettled state.known.own (lent state.known lo).settled result.1 }
{
    let mut state = state;
    let cells = state.parts.known.lend(alloc, lo);
    (state, cells)
}

/// The cells come back from a walk. It takes no memory.
pub fn take_back<K: Registry>(state: State<K>, cells: Cells) -> State<K>
    requires { IsSettled state.known.own state.known.settled cells }
    ensures { result ≡ record state { known = returned state.known cells } }
{
    let mut state = state;
    state.parts.known.take_back(cells);
    state
}

/// What a walk has found, and where it met a trim. An `Err` is want of memory.
pub fn finds<K: Registry>(
    job: Job<K>,
    alloc: Global,
    oid: Oid,
    list: &[Pos],
    gone: Option<Pos>,
) -> Result<Job<K>, NoMemory>
    ensures { IfOk result (λ j. j ≡ found_in (meaning_of K.Registry) job oid list.now gone) }
{
    let mut job = job;
    let taken = mem::replace(&mut job.parts.found, StreamPositions::new(alloc));
    let found = taken.keep(alloc, oid, list)?;
    job.parts.found = found;
    let before = mem::replace(&mut job.parts.trims, List::new(alloc));
    let trims = with_trim(before, oid, gone)?;
    job.parts.trims = trims;
    Ok(job)
}

/// Where a walk met a trim, if it did, after others.
fn with_trim(
    trims: List<(Oid, Pos)>,
    oid: Oid,
    gone: Option<Pos>,
) -> Result<List<(Oid, Pos)>, NoMemory>
    ensures { IfOk result (λ t. t ≡ trims_after trims oid gone) }
{
    let mut trims = trims;
    if let Some(below) = gone {
        trims.push((oid, below))?;
    }
    Ok(trims)
}
