//! A client's state, but for the command in hand.

ghost use Rattle.std.specs.Prelude.{◌≡◌, IfOk};

use crate::objects::HeaderObjects;
use std::alloc::Global;
use std::marker::Model;
use tg_base::{List, NoMemory, Oid, Projection, Rids};
use tg_client_cells::Known;
use tg_kind::Registry;
use tg_play::View;
use tg_tx::Tx;

/// The parts of a client's state.
#[derive(Drop)]
pub struct StateParts<K: Registry> {
    /// Its number.
    pub num: u16,
    /// How many layout servers there are.
    pub layouts: u16,
    /// The header's objects.
    pub objects: HeaderObjects,
    /// How many steps it has taken.
    pub calls: u32,
    /// The next request number.
    pub rids: Rids,
    /// The layout on which it stands.
    pub stand: Projection,
    /// What it knows of the log.
    pub known: Known,
    /// The objects that it hosts, rising, the directory first.
    pub hosted: List<Oid>,
    /// The kept view.
    pub view: Option<View<K>>,
    /// The directory as last played.
    pub dir: K,
    /// The open transaction.
    pub tx: Option<Tx<K>>,
    /// How many transactions it has begun.
    pub begun: u32,
    /// And how many decision records.
    pub decisions: u32,
    /// And checkpoints.
    pub checkpoints: u32,
}

/// A client, but for the command in hand. Contracts see its parts, which stand on the heap, so that a step moves no more
/// than a pointer.
pub struct State<K: Registry> {
    pub parts: Box<StateParts<K>>,
}

// By hand, since a derived drop is proved anew wherever a value is dropped.
impl<K: Registry> Drop for State<K> {
    fn drop(self) {
        let State { parts: _ } = self;
    }
}

impl<K: Registry> Model for State<K> {
    ghost use Rattle.tg_client_state.specs.declared.state.StateParts.{StateParts};

    ghost Value = { StateParts K K.Op K.Ask K.Ans };

    ghost view = { λ s. s.parts.value };
}

impl<K: Registry> State<K> {
    /// A state of these parts. An `Err` is want of memory.
    pub fn new(alloc: Global, parts: StateParts<K>) -> Result<State<K>, NoMemory>
        ensures { IfOk result (λ s. s ≡ parts) }
    {
        let parts = Box::new(alloc, parts)?;
        Ok(State { parts })
    }
}
