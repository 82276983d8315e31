//! Answers that close a transaction.

ghost use Rattle.std.specs.Prelude.{◌≡◌};
ghost use Rattle.tg_kind.specs.Of.{meaning_of};
ghost use Rattle.tg_protocol.specs.Answers as told;
ghost use Rattle.tg_protocol.specs.Clients as clients;
ghost use Rattle.tg_client_answers.specs.Fates.{Tells};

use std::alloc::Global;
use tg_base::{NoMemory, Pos};
use tg_client_state::{Moved, State};
use tg_kind::Registry;
use tg_model::{What, WhatOf};
use tg_tx::Tx;

/// The number of the open transaction, and 0 where none is open. It takes no memory.
pub fn tx_number<K: Registry>(tx: &Option<Tx<K>>) -> u32
    ensures { result ≡ clients.tx_number (meaning_of K.Registry) tx.now }
{
    match tx {
        None => 0,
        Some(tx) => tx.number(),
    }
}

/// The open transaction is answered and closed. An `Err` is want of memory.
pub fn closes<K: Registry>(
    state: State<K>,
    alloc: Global,
    what: WhatOf<K>,
) -> Result<Moved<K>, NoMemory>
    ensures { Tells (meaning_of K.Registry) state result (λ c. told.answer_closed (meaning_of K.Registry) c (clients.tx_number (meaning_of K.Registry) c.tx) what) }
{
    let number = tx_number(&state.parts.tx);
    state.closed().answers(alloc, number, what)
}

/// The transaction whose record is at a position is closed, and what became of it isn't known, since the record at `pos`
/// can't be decided. An `Err` is want of memory.
pub fn unsure<K: Registry>(
    state: State<K>,
    alloc: Global,
    at: Pos,
    pos: Pos,
) -> Result<Moved<K>, NoMemory>
    ensures { Tells (meaning_of K.Registry) state result (λ c. told.unsure (meaning_of K.Registry) c at pos) }
{
    closes(state, alloc, What::Unsure { at, pos })
}
