//! The versions of one object's parts.

ghost use Rattle.std.specs.Prelude.{◌≡◌, ℕ, List, [], nat_lt, filter, unwrap_or, IfOk, OnOk, if◌then◌else◌};
ghost use Rattle.std.specs.BTreeMap.{insert_entry, is_at};
ghost use Rattle.std.specs.Map.{lookup};
ghost use Rattle.tg_base.specs.Parts.{part_cmp};
ghost use Rattle.tg_base.specs.declared.marks.Part.{Part};
ghost use Rattle.tg_kind.specs.Parts.{is_whole};
ghost use Rattle.tg_vers.specs.Kept.{unchanged, version_kept, parts_kept, noted_in, based_kept, keys_kept};

use std::alloc::{AllocError, Global};
use std::collections::BTreeMap;
use std::marker::Model;
use tg_base::{List, NoMemory, Part};

/// The version of an object's whole, and those of the parts that were changed after it.
pub struct Object {
    version: u64,
    whole: u64,
    keys: BTreeMap<Part, u64>,
}

// By hand, since a derived drop is proved anew wherever a value is dropped.
impl Drop for Object {
    fn drop(self) {
        let Object {
            version: _,
            whole: _,
            keys: _,
        } = self;
    }
}

impl Model for Object {
    ghost use Rattle.tg_vers.specs.Kept.{Kept};

    ghost Value = { Kept };

    ghost view = { λ o. record { version = o.version; whole = o.whole; keys = o.keys.entries } };
}

impl Clone for Object {
    ghost is_clone = { λ o c. c ≡ o };

    fn clone(&self) -> Result<Object, AllocError> {
        Ok(Object {
            version: self.version,
            whole: self.whole,
            keys: self.keys.clone()?,
        })
    }
}

impl Object {
    /// Nothing was noted. It takes no memory.
    pub fn new(alloc: Global) -> Object
        ensures { result ≡ unchanged }
    {
        Object {
            version: 0,
            whole: 0,
            keys: BTreeMap::new(alloc),
        }
    }

    /// These versions: of the whole, of the parts that no key names, and of the keys' parts,
    /// of which the first one counts.
    pub fn of(
        alloc: Global,
        version: u64,
        whole: u64,
        keys: &[(Part, u64)],
    ) -> Result<Object, NoMemory>
        ensures { IfOk result (λ o. o ≡ based_kept version whole keys.now) }
    {
        Ok(Object {
            version,
            whole,
            keys: keys_of(alloc, keys)?,
        })
    }

    /// The version of a part. It takes no memory.
    pub fn get(&self, part: &Part) -> u64
        ensures { result ≡ version_kept self.now part.now }
    {
        match part {
            Part::All => self.version,
            _ => self.key(part),
        }
    }

    // The version of a part other than the whole.
    fn key(&self, part: &Part) -> u64
        ensures { result ≡ unwrap_or (lookup (is_at (part_cmp part.now)) self.now.keys) self.now.whole }
    {
        match self.keys.get(part) {
            None => self.whole,
            Some(version) => *version,
        }
    }

    /// A change of a part, which has this version then. A change of the whole leaves no part a version of its own.
    pub fn note(&mut self, part: &Part, version: u64) -> Result<(), NoMemory>
        ensures { OnOk result (self.new ≡ noted_in self.old part.now version) }
    {
        match part {
            Part::All => {
                self.note_whole(version);
                Ok(())
            }
            _ => self.note_key(part.copy()?, version),
        }
    }

    fn note_whole(&mut self, version: u64)
        ensures { self.new ≡ record { version = version; whole = version; keys = [] } }
    {
        self.version = version;
        self.whole = version;
        self.keys.clear();
    }

    fn note_key(&mut self, part: Part, version: u64) -> Result<(), NoMemory>
        ensures { OnOk result (self.new ≡ record { version = version; whole = self.old.whole; keys = insert_entry part_cmp self.old.keys part version }) }
    {
        self.version = version;
        self.keys.insert(part, version)?;
        Ok(())
    }

    /// The version that was noted last with the whole, and rising by part those of the parts
    /// that are above it.
    pub fn parts(&self, alloc: Global) -> Result<(u64, List<(Part, u64)>), NoMemory>
        ensures whole { IfOk result (λ p. p.0 ≡ (parts_kept self.now).whole) }
        ensures keys { IfOk result (λ p. p.1 ≡ (parts_kept self.now).keys) }
    {
        let keys = keys_above(alloc, self.whole, &self.keys)?;
        Ok((self.whole, keys))
    }
}

// The keys by part, the first of each counting. The whole isn't one of the parts.
fn keys_of(alloc: Global, keys: &[(Part, u64)]) -> Result<BTreeMap<Part, u64>, NoMemory>
    ensures { IfOk result (λ m. m.entries ≡ keys_kept keys.now) }
{
    let mut kept = BTreeMap::new(alloc);
    for at in (0..keys.len()).rev() {
        let (part, version) = &keys[at];
        put_key(&mut kept, part, *version)?;
    }
    Ok(kept)
}

// Gives a part a version; the whole is passed over.
fn put_key(keys: &mut BTreeMap<Part, u64>, part: &Part, version: u64) -> Result<(), NoMemory>
    ensures { OnOk result (keys.new.entries ≡ (if is_whole part.now then keys.old.entries else insert_entry part_cmp keys.old.entries part.now version)) }
{
    match part {
        Part::All => Ok(()),
        _ => {
            keys.insert(part.copy()?, version)?;
            Ok(())
        }
    }
}

// The keys whose version is above one, rising.
fn keys_above(
    alloc: Global,
    whole: u64,
    keys: &BTreeMap<Part, u64>,
) -> Result<List<(Part, u64)>, NoMemory>
    ensures { IfOk result (λ l. l ≡ filter (λ (x : Part × ℕ). nat_lt whole x.1) keys.now.entries) }
{
    let mut above = List::new(alloc);
    for (part, version) in keys {
        if *version > whole {
            above.push((part.copy()?, *version))?;
        }
    }
    Ok(above)
}
