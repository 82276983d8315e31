//! The versions of objects.

ghost use Rattle.std.specs.Prelude.{◌≡◌, ◌+◌, ◌^◌, ◌<◌, IfOk, OnOk};
ghost use Rattle.tg_base.specs.declared.marks.ReadMark.{ReadMark};
ghost use Rattle.tg_protocol.specs.Versions as told;
ghost use Rattle.tg_protocol.specs.Versions.{no_versions, based, version_of, with_change, first_changed, parts_of};
ghost use Rattle.tg_vers.specs.Kept.{Keeps, version_kept, kept_of, noted, parts_kept, first_other, changed_of};

use crate::object::Object;
use std::alloc::Global;
use std::collections::BTreeMap;
use std::marker::Model;
use tg_base::{List, NoMemory, Oid, Part, Pos, ReadMark};

/// The versions of objects' parts: as a base tells them, and as changes were noted since.
///
/// Each clause speaks of any history of changes that these versions keep: a note takes a step of
/// the history, and the answers are those of the history.
pub struct Versions {
    objects: BTreeMap<Oid, Object>,
}

// By hand, since a derived drop is proved anew wherever a value is dropped.
impl Drop for Versions {
    fn drop(self) {
        let Versions { objects: _ } = self;
    }
}

impl Model for Versions {
    ghost use Rattle.tg_vers.specs.Kept.{Objects};

    ghost Value = { Objects };

    ghost view = { λ v. v.objects.entries };
}

// Notes a change of an object's part, where the object stands.
fn note_in(
    alloc: Global,
    objects: &mut BTreeMap<Oid, Object>,
    oid: Oid,
    touch: &Part,
    version: u64,
) -> Result<(), NoMemory>
    ensures { OnOk result (objects.new.entries ≡ noted objects.old.entries oid touch.now version) }
{
    match objects.get_mut(&oid) {
        None => {
            let mut object = Object::new(alloc);
            object.note(touch, version)?;
            objects.insert(oid, object)?;
            Ok(())
        }
        Some(object) => object.note(touch, version),
    }
}

impl Versions {
    /// Nothing noted: every part of every object has version 0. It takes no memory.
    pub fn new(alloc: Global) -> Versions
        ensures { Keeps result no_versions }
    {
        Versions {
            objects: BTreeMap::new(alloc),
        }
    }

    /// The versions of one object that a checkpoint tells: of its whole, of the parts that no key
    /// names, and of those that the keys name, the first one of each. A key that names the whole
    /// says nothing.
    ///
    /// An `Err` is want of memory.
    pub fn of(
        alloc: Global,
        oid: Oid,
        version: u64,
        whole: u64,
        keys: &[(Part, u64)],
    ) -> Result<Versions, NoMemory>
        ensures { IfOk result (λ r. Keeps r (based oid version whole keys.now)) }
    {
        let object = Object::of(alloc, version, whole, keys)?;
        let mut objects = BTreeMap::new(alloc);
        objects.insert(oid, object)?;
        Ok(Versions { objects })
    }

    /// Equal versions. An `Err` is want of memory.
    pub fn copy(&self) -> Result<Versions, NoMemory>
        ensures { IfOk result (λ r. r ≡ self.now) }
    {
        Ok(Versions {
            objects: self.objects.clone()?,
        })
    }

    /// The version of a part: the one that was noted last with a part that overlaps it, or the
    /// base's where none was, or 0. It takes no memory.
    pub fn get(&self, oid: Oid, part: &Part) -> u64
        ensures { (v : told.Versions) → Keeps self.now v → result ≡ version_of v oid part.now }
    {
        self.version(oid, part)
    }

    // The version that is kept of a part.
    fn version(&self, oid: Oid, part: &Part) -> u64
        ensures { result ≡ version_kept (kept_of self.now oid) part.now }
    {
        match self.objects.get(&oid) {
            None => 0,
            Some(object) => object.get(part),
        }
    }

    /// The versions after a change of a part at a position, which makes the next position the
    /// version of each part that overlaps it. The time is logarithmic in the number of objects
    /// and in that of the object's parts; a change of the whole frees its parts.
    ///
    /// An `Err` is want of memory; nothing is left of the versions then.
    pub fn note(self, alloc: Global, oid: Oid, touch: &Part, pos: Pos) -> Result<Versions, NoMemory>
        requires { pos + 1 < 2 ^ 64 }
        ensures { (v : told.Versions) → Keeps self v → IfOk result (λ r. Keeps r (with_change v oid touch.now pos)) }
    {
        let versions = self.noted(alloc, oid, touch, pos + 1)?;
        Ok(versions)
    }

    // A part's change to a version is kept.
    fn noted(
        self,
        alloc: Global,
        oid: Oid,
        touch: &Part,
        version: u64,
    ) -> Result<Versions, NoMemory>
        ensures { IfOk result (λ r. r ≡ noted self oid touch.now version) }
    {
        let Versions { mut objects } = self;
        note_in(alloc, &mut objects, oid, touch, version)?;
        Ok(Versions { objects })
    }

    /// None where all reads have the version that is found now, else the index, from 0, of the
    /// first one that hasn't, with the version now. It takes no memory.
    pub fn same(&self, reads: &[ReadMark]) -> Option<(usize, u64)>
        ensures first { (v : told.Versions) → Keeps self.now v → result ≡ first_other (λ (r : ReadMark). version_of v r.oid r.part) reads.now }
        ensures changed { (v : told.Versions) → Keeps self.now v → changed_of reads.now result ≡ first_changed (λ (r : ReadMark). version_of v r.oid r.part) reads.now }
    {
        self.other(reads)
    }

    // The first read that another version is kept for.
    fn other(&self, reads: &[ReadMark]) -> Option<(usize, u64)>
        ensures { result ≡ first_other (λ (r : ReadMark). version_kept (kept_of self.now r.oid) r.part) reads.now }
    {
        for (index, read) in reads.iter().enumerate() {
            let now = self.version(read.oid, &read.part);
            if now != read.version {
                return Some((index, now));
            }
        }
        None
    }

    /// The version that was noted last with an object's whole, or the base's of the parts that
    /// its keys don't name, or 0; and rising by part, each once, the noted and named parts other
    /// than the whole whose version is above that one, with these versions.
    ///
    /// An `Err` is want of memory; the versions are as they were.
    pub fn parts(&self, alloc: Global, oid: Oid) -> Result<(u64, List<(Part, u64)>), NoMemory>
        ensures whole { (v : told.Versions) → Keeps self.now v → IfOk result (λ p. p.0 ≡ (parts_of v oid).whole) }
        ensures keys { (v : told.Versions) → Keeps self.now v → IfOk result (λ p. p.1 ≡ (parts_of v oid).keys) }
    {
        let parts = self.kept(alloc, oid)?;
        Ok(parts)
    }

    // The parts that are kept of an object.
    fn kept(&self, alloc: Global, oid: Oid) -> Result<(u64, List<(Part, u64)>), NoMemory>
        ensures whole { IfOk result (λ p. p.0 ≡ (parts_kept (kept_of self.now oid)).whole) }
        ensures keys { IfOk result (λ p. p.1 ≡ (parts_kept (kept_of self.now oid)).keys) }
    {
        match self.objects.get(&oid) {
            None => Ok((0, List::new(alloc))),
            Some(object) => object.parts(alloc),
        }
    }
}
