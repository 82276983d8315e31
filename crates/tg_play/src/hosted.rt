//! A hosted object.

ghost use Rattle.std.specs.Prelude.{◌≡◌, ◌+◌, ◌<◌, ◌≤◌, ◌^◌, ◌∷◌, List, Option, Some, IfOk};
ghost use Rattle.tg_kind.specs.Of.{meaning_of};
ghost use Rattle.tg_protocol.specs.Versions.{Based, PartVersion, version_of, parts_of};
ghost use Rattle.tg_protocol.specs.Versions as history;
ghost use Rattle.tg_protocol.specs.Views as told;
ghost use Rattle.tg_vers.specs.Kept.{Keeps};
ghost use Rattle.tg_play.specs.Kept.{hosted_from, own};
ghost use Rattle.tg_play.specs.Lawful.{IsLawfulHosted};
ghost use Rattle.tg_play.specs.Relations.{KeepsHosted, written_state, written_noted};

use crate::base::Base;
use crate::ops::{applied_to, op_of, touched_by};
use std::alloc::Global;
use tg_base::{List, NoMemory, Oid, Part, Pos, ReadMark};
use tg_entry::WriteOp;
use tg_kind::Registry;
use tg_vers::Versions;

/// A hosted object: its state, and its versions as the base tells them, and as they are with what was played.
#[derive(Drop)]
pub struct Hosted<K> {
    pub state: K,
    pub base: Versions,
    pub upto: Pos,
    pub noted: Versions,
}

impl<K> Hosted<K> {
    /// The object as its base tells it. An `Err` is want of memory.
    pub fn new(base: Base<K>) -> Result<Hosted<K>, NoMemory>
    where
        K: Drop,
        ensures { IfOk result (λ h. h ≡ hosted_from base) }
    {
        let Base {
            oid: _,
            state,
            vers,
            upto,
        } = base;
        let noted = vers.copy()?;
        Ok(Hosted {
            state,
            base: vers,
            upto,
            noted,
        })
    }

    /// The version of a part as played.
    pub fn version(&self, oid: Oid, part: &Part) -> u64
        ensures { (b : Option Based) (ns : List PartVersion) → Keeps self.now.noted (own b oid ns) → result ≡ version_of (record { base = b; noted = ns }) oid part.now }
    {
        self.noted.get(oid, part)
    }

    /// What is told of the parts as played. An `Err` is want of memory.
    pub fn parts(&self, alloc: Global, oid: Oid) -> Result<(u64, List<(Part, u64)>), NoMemory>
        ensures whole { (b : Option Based) (ns : List PartVersion) → Keeps self.now.noted (own b oid ns) → IfOk result (λ p. p.0 ≡ (parts_of (record { base = b; noted = ns }) oid).whole) }
        ensures keys { (b : Option Based) (ns : List PartVersion) → Keeps self.now.noted (own b oid ns) → IfOk result (λ p. p.1 ≡ (parts_of (record { base = b; noted = ns }) oid).keys) }
    {
        let parts = self.noted.parts(alloc, oid)?;
        Ok(parts)
    }

    /// The version that the base tells of a part.
    pub fn base_version(&self, oid: Oid, part: &Part) -> u64
        ensures { (b : history.Versions) → Keeps self.now.base b → result ≡ version_of b oid part.now }
    {
        self.base.get(oid, part)
    }
}

impl<K: Registry> Hosted<K> {
    /// An object that was never written, to stand in another's place while that one is changed. An `Err` is want of memory.
    pub fn blank(alloc: Global, oid: Oid) -> Result<Hosted<K>, NoMemory>
        ensures { IfOk result (λ h. h.upto ≡ 0) }
    {
        Ok(Hosted {
            state: K::fresh(alloc, oid, &[])?,
            base: Versions::new(alloc),
            upto: 0,
            noted: Versions::new(alloc),
        })
    }

    /// The version of a read part at a position, as far as it is known.
    pub fn version_at(&self, read: &ReadMark, pos: Pos) -> u64
        ensures { (v : told.View (meaning_of K.Registry)) (b : told.Base (meaning_of K.Registry)) (s : Option K) → KeepsHosted (meaning_of K.Registry) read.now.oid self.now b s v.noted → result ≡ told.version_by (meaning_of K.Registry) v pos (Some b) read.now }
    {
        if pos < self.upto {
            return self.base_version(read.oid, &read.part);
        }
        self.version(read.oid, &read.part)
    }

    /// Whether the base tells only a later version of a read part.
    pub fn is_unknown(&self, read: &ReadMark, pos: Pos) -> bool
        ensures { (b : told.Base (meaning_of K.Registry)) (s : Option K) (ns : List PartVersion) → KeepsHosted (meaning_of K.Registry) read.now.oid self.now b s ns → result ≡ told.unknown_by (meaning_of K.Registry) pos (Some b) read.now }
    {
        pos < self.upto && pos < self.base_version(read.oid, &read.part)
    }

    /// Whether a write at a position is played on the object.
    pub fn plays(&self, oid: Oid, pos: Pos) -> bool
        ensures { (b : told.Base (meaning_of K.Registry)) (s : Option K) (ns : List PartVersion) → KeepsHosted (meaning_of K.Registry) oid self.now b s ns → result ≡ told.plays (meaning_of K.Registry) pos (Some b) }
    {
        pos >= self.upto
    }

    /// The object after a write, which is played unless the base is past the position.
    /// An `Err` is want of memory.
    pub fn write(self, alloc: Global, write: &WriteOp, pos: Pos) -> Result<Hosted<K>, NoMemory>
        requires { pos + 1 < 2 ^ 64 }
        ensures kept { (b : told.Base (meaning_of K.Registry)) (s : Option K) (ns : List PartVersion) → KeepsHosted (meaning_of K.Registry) write.now.oid self b s ns → IfOk result (λ h. KeepsHosted (meaning_of K.Registry) write.now.oid h b (written_state (meaning_of K.Registry) pos write.now b s) (written_noted (meaning_of K.Registry) pos write.now b ns)) }
        ensures lawful { IsLawfulHosted (pos + 1) write.now.oid self → IfOk result (λ h. IsLawfulHosted (pos + 1) write.now.oid h) }
    {
        if self.upto > pos {
            return Ok(self);
        }
        let op = op_of::<K>(alloc, write)?;
        self.change(alloc, write.oid, &op, pos)
    }

    // The object after an op that its write spells, or after a write of bytes that spell none.
    fn change(
        self,
        alloc: Global,
        oid: Oid,
        op: &Option<K::Op>,
        pos: Pos,
    ) -> Result<Hosted<K>, NoMemory>
        requires reach { pos + 1 < 2 ^ 64 }
        requires begun { self.upto ≤ pos }
        ensures kept { (b : told.Base (meaning_of K.Registry)) (s : Option K) (ns : List PartVersion) → KeepsHosted (meaning_of K.Registry) oid self b s ns → IfOk result (λ h. KeepsHosted (meaning_of K.Registry) oid h b (told.applied (meaning_of K.Registry) op.now s) (record { oid = oid; part = told.touched (meaning_of K.Registry) op.now; version = pos + 1 } ∷ ns)) }
        ensures lawful { IsLawfulHosted (pos + 1) oid self → IfOk result (λ h. IsLawfulHosted (pos + 1) oid h) }
    {
        let part = touched_by::<K>(alloc, op)?;
        let Hosted {
            state,
            base,
            upto,
            noted,
        } = self;
        let state = applied_to(state, op)?;
        let noted = noted.note(alloc, oid, &part, pos)?;
        Ok(Hosted {
            state,
            base,
            upto,
            noted,
        })
    }
}
