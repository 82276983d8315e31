//! Records that were appended, and the pages that are known of them.

ghost use Rattle.std.specs.Prelude.{◌≡◌, IfOk};
ghost use Rattle.tg_base.specs.declared.cell.Cell.TheVariants.{Data};
ghost use Rattle.tg_kind.specs.Of.{meaning_of};
ghost use Rattle.tg_protocol.specs.Clients.{tx_number as number_of};
ghost use Rattle.tg_client_cells.specs.Known.{learnt, owned};

use std::alloc::Global;
use std::mem;
use tg_base::{Blob, Cell, NoMemory, Pos};
use tg_client_cells::Known;
use tg_client_state::State;
use tg_kind::Registry;

/// The page of an append that has ended is known. An `Err` is want of memory.
pub fn knows_page<K: Registry>(
    state: State<K>,
    alloc: Global,
    pos: Pos,
    page: Blob,
) -> Result<State<K>, NoMemory>
    ensures { IfOk result (λ s. s ≡ record state { known = learnt state.known pos (Data page) }) }
{
    let mut state = state;
    let taken = mem::replace(&mut state.parts.known, Known::new(alloc));
    let known = taken.learn(pos, Cell::Data(page))?;
    state.parts.known = known;
    Ok(state)
}

/// Likewise, as one of the client's own records. An `Err` is want of memory.
pub fn owns<K: Registry>(
    state: State<K>,
    alloc: Global,
    pos: Pos,
    page: Blob,
) -> Result<State<K>, NoMemory>
    ensures { IfOk result (λ s. s ≡ record state { known = owned state.known pos page }) }
{
    let mut state = state;
    let taken = mem::replace(&mut state.parts.known, Known::new(alloc));
    let known = taken.own_record(pos, page)?;
    state.parts.known = known;
    Ok(state)
}

/// The number of the open transaction, and 0 where none is open. It takes no memory.
pub fn tx_number<K: Registry>(state: &State<K>) -> u32
    ensures { result ≡ number_of (meaning_of K.Registry) state.now.tx }
{
    match &state.parts.tx {
        None => 0,
        Some(tx) => tx.number(),
    }
}
