//! Pages.

ghost use Rattle.std.specs.Prelude.{◌≡◌, ◌≤◌, ◌↔◌, length, nat_eq, refl, Some, IsTrue, IsSome, IfSome, IfOk};
ghost use Rattle.std.specs.Ordering.{nat_cmp};
ghost use Rattle.std.specs.Cmp.Lexicographic.{pointwise, slice_cmp, nat_list_eq_equiv, nat_list_cmp_total, texts_ties, texts_po};

use crate::fault::NoMemory;
use crate::list::List;
use std::alloc::Global;
use std::cmp::Ordering;
use std::marker::Model;
use std::rc::Rc;

/// A page: bytes, of which there are at most 4,096. Equal pages that are copies of one share their bytes.
#[derive(Clone, Drop)]
pub struct Blob {
    bytes: Rc<List<u8>>,
}

impl Model for Blob {
    ghost use Rattle.std.specs.Prelude.{ℕ, List, ◌≤◌, length};

    ghost Value = { List ℕ };

    ghost view = { λ s. s.bytes.value };

    ghost invariant = { λ s. length s.bytes.value ≤ 4096 };
}

impl Blob {
    /// How many bytes fit.
    pub const MAX: usize = 4096;

    /// None exactly where there are more than 4,096 bytes. An `Err` is want of memory.
    pub fn new(alloc: Global, bytes: List<u8>) -> Result<Option<Blob>, NoMemory>
        ensures fits { IfOk result (λ b. IsSome b ↔ (length bytes ≤ 4096)) }
        ensures bytes { IfOk result (λ b. IfSome b (λ c. c ≡ bytes)) }
    {
        if bytes.len() > Blob::MAX {
            return Ok(None);
        }
        let bytes = Rc::new(alloc, bytes)?;
        Ok(Some(Blob { bytes }))
    }

    /// An equal page.
    pub fn copy(&self) -> Result<Blob, NoMemory>
        ensures { IfOk result (λ b. b ≡ self.now) }
    {
        Ok(self.clone()?)
    }

    /// The bytes.
    pub fn as_slice(&self) -> &[u8]
        ensures bytes { result.now ≡ self.now }
        ensures fits { length self.now ≤ 4096 }
    {
        self.bytes.as_ref().as_slice()
    }

    /// Whether both have the same bytes.
    pub fn is_same(&self, other: &Blob) -> bool
        ensures { IsTrue result ↔ (self.now ≡ other.now) }
    {
        self == other
    }
}

impl PartialEq for Blob {
    ghost eq = { pointwise nat_eq };

    ghost laws = { Prim.search rules };

    ghost use Rattle.std.proofs.Common.{rules};

    fn eq(&self, other: &Self) -> bool {
        self.as_slice() == other.as_slice()
    }
}

impl Eq for Blob {
    ghost laws = { nat_list_eq_equiv };
}

impl PartialOrd for Blob {
    ghost partial_cmp = { λ v w. Some (slice_cmp nat_cmp v w) };

    ghost laws = { texts_po };

    fn partial_cmp(&self, other: &Self) -> Option<Ordering> {
        Some(self.cmp(other))
    }
}

impl Ord for Blob {
    ghost cmp = { slice_cmp nat_cmp };

    ghost total = { nat_list_cmp_total };

    ghost matches_partial_cmp = { λ v w. refl };

    ghost matches_eq = { texts_ties };

    fn cmp(&self, other: &Self) -> Ordering {
        self.as_slice().cmp(other.as_slice())
    }
}
