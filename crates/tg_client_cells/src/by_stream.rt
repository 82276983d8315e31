//! Positions by stream.

ghost use Rattle.std.specs.Prelude.{◌≡◌, [], option_copied, unwrap_or, IfOk};
ghost use Rattle.std.specs.BTreeMap.{is_at};
ghost use Rattle.std.specs.Map.{remove_entry};
ghost use Rattle.tg_base.specs.Orders.{oid_cmp};
ghost use Rattle.tg_protocol.specs.Words.{has_num, with_nums};
ghost use Rattle.tg_client_cells.specs.Words.{positions_in, with_positions, positions_of, any_has, within};

use crate::positions::Positions;
use std::alloc::Global;
use std::collections::BTreeMap;
use std::marker::Model;
use tg_base::{NoMemory, Oid, Pos};

/// Positions of members by stream: streams rise by object, and so do the positions of each.
pub struct StreamPositions {
    streams: BTreeMap<Oid, Positions>,
}

// By hand, since a derived drop is proved anew wherever a value is dropped.
impl Drop for StreamPositions {
    fn drop(self) {
        let StreamPositions { streams: _ } = self;
    }
}

impl Model for StreamPositions {
    ghost use Rattle.std.specs.List.Sorted.{IsStrictlySortedBy};
    ghost use Rattle.std.specs.Map.{keys_of};
    ghost use Rattle.tg_base.specs.Orders.{oid_cmp};
    ghost use Rattle.tg_client_cells.specs.Words.{ByStream};

    ghost Value = { ByStream };

    ghost view = { λ s. s.streams.entries };

    ghost invariant = { λ s. IsStrictlySortedBy oid_cmp (keys_of s.streams.entries) };
}

impl StreamPositions {
    /// No stream. It takes no memory.
    pub fn new(alloc: Global) -> StreamPositions
        ensures { result ≡ [] }
    {
        StreamPositions {
            streams: BTreeMap::new(alloc),
        }
    }

    /// The positions of a stream, None where it has none. It takes no memory.
    pub fn get(&self, oid: Oid) -> Option<&Positions>
        ensures { unwrap_or (option_copied result) [] ≡ positions_in self.now oid }
    {
        self.streams.get(&oid)
    }

    /// Whether a position is one of a stream's. It takes no memory, and logarithmic time.
    pub fn has(&self, oid: Oid, pos: Pos) -> bool
        ensures { result ≡ has_num pos (positions_in self.now oid) }
    {
        match self.get(oid) {
            None => false,
            Some(positions) => positions.has(pos),
        }
    }

    /// Further positions of a stream: none of those that it has is taken away. Where memory runs out, all are given up.
    pub fn keep(
        self,
        alloc: Global,
        oid: Oid,
        positions: &[Pos],
    ) -> Result<StreamPositions, NoMemory>
        ensures { IfOk result (λ s. s ≡ with_positions self oid positions.now) }
    {
        let StreamPositions { mut streams } = self;
        let kept = taken(alloc, &mut streams, oid).put_all(positions)?;
        streams.insert(oid, kept)?;
        Ok(StreamPositions { streams })
    }

    /// Whether one of these streams has a position. It takes no memory.
    pub fn any_has(&self, streams: &[Oid], pos: Pos) -> bool
        ensures { result ≡ any_has self.now streams.now pos }
    {
        match streams {
            [] => false,
            [oid, others @ ..] => self.has(*oid, pos) || self.any_has(others, pos),
        }
    }

    /// The positions of these streams, from `low` on and below `high`.
    pub fn gather(
        &self,
        alloc: Global,
        streams: &[Oid],
        low: Pos,
        high: Pos,
    ) -> Result<Positions, NoMemory>
        ensures { IfOk result (λ p. p ≡ within low high (positions_of self.now streams.now)) }
    {
        let mut positions = Positions::new(alloc);
        for at in (0..streams.len()).rev() {
            positions = self.gather_one(alloc, streams[at], low, high, positions)?;
        }
        Ok(positions)
    }

    /// Puts those of one stream to others. Where memory runs out, all are given up.
    fn gather_one(
        &self,
        alloc: Global,
        oid: Oid,
        low: Pos,
        high: Pos,
        positions: Positions,
    ) -> Result<Positions, NoMemory>
        ensures { IfOk result (λ p. p ≡ with_nums (within low high (positions_in self.now oid)) positions) }
    {
        match self.get(oid) {
            None => Ok(positions),
            Some(others) => positions.put_within(alloc, others, low, high),
        }
    }
}

/// Takes the positions of a stream out, none where there is no such stream.
fn taken(alloc: Global, streams: &mut BTreeMap<Oid, Positions>, oid: Oid) -> Positions
    ensures positions { result ≡ positions_in streams.old.entries oid }
    ensures rest { streams.new.entries ≡ remove_entry (is_at (oid_cmp oid)) streams.old.entries }
{
    match streams.remove(&oid) {
        None => Positions::new(alloc),
        Some(positions) => positions,
    }
}
