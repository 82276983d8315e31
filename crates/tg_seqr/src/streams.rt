//! The last positions of each stream.

ghost use Rattle.std.specs.Prelude.{◌≡◌, [], ◌∷◌, ◌++◌, take, IfOk, OnOk};
ghost use Rattle.tg_protocol.specs.Entries.{link_of};
ghost use Rattle.tg_protocol.specs.Sequencers.{link_or_new, links_of, with_position, with_positions};

use indexmap::IndexMap;
use std::alloc::Global;
use std::marker::Model;
use tg_base::{Backs, List, NoMemory, Oid, Pos, StreamLink};

/// By object the last four positions of its stream, newest first. The objects stand in the order in which their
/// streams began.
#[derive(Drop)]
pub struct Streams {
    backs: IndexMap<u32, Backs>,
}

impl Model for Streams {
    ghost use Rattle.std.specs.Prelude.{List};
    ghost use Rattle.tg_base.specs.declared.marks.StreamLink.{StreamLink};
    ghost use Rattle.tg_seqr.specs.Kept.{links_kept};

    ghost Value = { List StreamLink };

    ghost view = { λ s. links_kept s.backs.entries };
}

impl Streams {
    /// No stream has a position. It takes no memory.
    pub fn new(alloc: Global) -> Streams
        ensures { result ≡ [] }
    {
        Streams {
            backs: IndexMap::new(alloc),
        }
    }

    /// The last positions of an object's stream. It takes no memory.
    #[tactic(auto, using(crate::proofs::Keeping::link_is))]
    fn link(&self, oid: Oid) -> StreamLink
        ensures { result ≡ link_or_new oid (link_of oid self.now) }
    {
        StreamLink {
            oid,
            backs: self.positions(oid),
        }
    }

    /// The last positions of an object's stream, which are none where it has none.
    #[tactic(auto, using(crate::proofs::Keeping::backs_kept))]
    fn positions(&self, oid: Oid) -> Backs
        ensures { result ≡ (link_or_new oid (link_of oid self.now)).backs }
    {
        match self.backs.get(&oid.0) {
            None => Backs::of(&[]).unwrap(),
            Some(backs) => backs.copy(),
        }
    }

    /// The last positions of the streams of these objects, in their order.
    ///
    /// An `Err` is want of memory.
    pub fn links(&self, alloc: Global, oids: &[Oid]) -> Result<List<StreamLink>, NoMemory>
        ensures { IfOk result (λ links. links ≡ links_of self.now oids.now) }
    {
        let mut links = List::new(alloc);
        put_links(self, oids, &mut links)?;
        Ok(links)
    }

    /// A position becomes the newest of an object's stream.
    #[tactic(auto, using(crate::proofs::Keeping::position_kept))]
    fn note(&mut self, pos: Pos, oid: Oid) -> Result<(), NoMemory>
        ensures { OnOk result (self.new ≡ with_position pos oid self.old) }
    {
        let backs = with_newest(pos, &self.positions(oid));
        self.backs.insert(oid.0, backs)?;
        Ok(())
    }

    /// A position becomes the newest of each of these objects' streams.
    ///
    /// An `Err` is want of memory; some of the streams may have the position then.
    pub fn note_each(&mut self, pos: Pos, oids: &[Oid]) -> Result<(), NoMemory>
        ensures { OnOk result (self.new ≡ with_positions pos oids.now self.old) }
    {
        note_all(self, pos, oids)
    }
}

/// Puts the last positions of the streams of these objects last.
fn put_links(streams: &Streams, oids: &[Oid], links: &mut List<StreamLink>) -> Result<(), NoMemory>
    ensures { OnOk result (links.new ≡ links.old ++ links_of streams.now oids.now) }
{
    match oids {
        [] => Ok(()),
        [oid, others @ ..] => {
            links.push(streams.link(*oid))?;
            put_links(streams, others, links)
        }
    }
}

/// A position becomes the newest of the streams of these objects, one after the other.
fn note_all(streams: &mut Streams, pos: Pos, oids: &[Oid]) -> Result<(), NoMemory>
    ensures { OnOk result (streams.new ≡ with_positions pos oids.now streams.old) }
{
    match oids {
        [] => Ok(()),
        [oid, others @ ..] => {
            streams.note(pos, *oid)?;
            note_all(streams, pos, others)
        }
    }
}

/// A position before these, of which the oldest is left out where there would be five.
fn with_newest(pos: Pos, backs: &Backs) -> Backs
    ensures { result ≡ take 4 (pos ∷ backs.now) }
{
    let backs = match backs.as_slice() {
        [] => Backs::of(&[pos]),
        [a] => Backs::of(&[pos, *a]),
        [a, b] => Backs::of(&[pos, *a, *b]),
        [a, b, c, ..] => Backs::of(&[pos, *a, *b, *c]),
    };
    backs.unwrap()
}
