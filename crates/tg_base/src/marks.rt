//! Parts of objects, and what entries say of streams and reads.

ghost use Rattle.std.specs.Prelude.{◌≡◌, ◌↔◌, IfOk, IsTrue};
ghost use Rattle.tg_base.specs.Parts.{part_cmp};

use crate::blob::Blob;
use crate::chain::Backs;
use crate::fault::NoMemory;
use crate::ids::Oid;
use std::cmp::Ordering;

/// A part of an object: the whole of it, or what a text or a number names.
/// The whole stands first, then the texts by their bytes, then the numbers.
#[derive(Clone, PartialEq, Eq, PartialOrd, Ord, Drop)]
pub enum Part {
    All,
    Text(Blob),
    Num(u64),
}

impl Part {
    /// An equal part.
    pub fn copy(&self) -> Result<Part, NoMemory>
        ensures { IfOk result (λ c. c ≡ self.now) }
    {
        match self {
            Part::All => Ok(Part::All),
            Part::Text(text) => Ok(Part::Text(text.copy()?)),
            Part::Num(number) => Ok(Part::Num(*number)),
        }
    }

    /// Which of both stands first. It takes no memory.
    pub fn compare(&self, other: &Part) -> Ordering
        ensures { result ≡ part_cmp self.now other.now }
    {
        self.cmp(other)
    }

    /// Whether both are the same part.
    pub fn is_same(&self, other: &Part) -> bool
        ensures { IsTrue result ↔ (self.now ≡ other.now) }
    {
        self == other
    }
}

/// A read of a transaction: the part, and the version that it had.
#[derive(Clone, Drop)]
pub struct ReadMark {
    pub oid: Oid,
    pub part: Part,
    pub version: u64,
}

impl ReadMark {
    /// An equal mark.
    pub fn copy(&self) -> Result<ReadMark, NoMemory>
        ensures { IfOk result (λ c. c ≡ self.now) }
    {
        Ok(ReadMark {
            oid: self.oid,
            part: self.part.copy()?,
            version: self.version,
        })
    }
}

/// A stream, and its last positions below the entry that names it.
#[derive(Clone, Drop)]
pub struct StreamLink {
    pub oid: Oid,
    pub backs: Backs,
}

impl StreamLink {
    /// An equal link. It takes no memory.
    pub fn copy(&self) -> StreamLink
        ensures { result ≡ self.now }
    {
        StreamLink {
            oid: self.oid,
            backs: self.backs.copy(),
        }
    }
}
