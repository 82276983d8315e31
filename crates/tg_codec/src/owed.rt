//! Names of which each is still to be named at least once.

ghost use Rattle.std.specs.Prelude.{◌≡◌, IfOk};
ghost use Rattle.tg_codec.specs.Owing.{points, named, owing, paid};

use std::alloc::{AllocError, Global};
use std::marker::Model;

/// What items still owe: how many are left, and the names without one.
#[derive(Drop)]
pub struct Owed {
    left: u64,
    missing: Vec<u32>,
    names: Vec<u32>,
}

impl Model for Owed {
    ghost use Rattle.tg_codec.specs.Owing.{Debt};

    ghost Value = { Debt };

    ghost view = { λ o. record { left = o.left; missing = o.missing.items; names = o.names.items } };
}

impl Owed {
    /// So many items, and no name has one yet.
    pub fn all(alloc: Global, left: u64, names: &[u32]) -> Result<Owed, AllocError>
        ensures { IfOk result (λ o. o ≡ owing left names.now) }
    {
        Ok(Owed {
            left,
            missing: Vec::from_slice(alloc, names)?,
            names: Vec::from_slice(alloc, names)?,
        })
    }

    /// The names that the next item may have, as ranges of one.
    pub fn named(&self, alloc: Global) -> Result<Vec<(u64, u64)>, AllocError>
        ensures { IfOk result (λ v. v.items ≡ named self.now) }
    {
        if self.missing.len() as u64 == self.left {
            points(alloc, &self.missing)
        } else {
            points(alloc, &self.names)
        }
    }

    /// What is owed after an item of this name. It takes no memory.
    pub fn paid(self, name: u32) -> Owed
        ensures { result ≡ paid self name }
    {
        let Owed {
            left,
            mut missing,
            names,
        } = self;
        missing.retain(|x| *x != name);
        Owed {
            left: left.saturating_sub(1),
            missing,
            names,
        }
    }
}

/// These numbers and no others, as ranges of one.
pub fn points(alloc: Global, xs: &[u32]) -> Result<Vec<(u64, u64)>, AllocError>
    ensures { IfOk result (λ v. v.items ≡ points xs.now) }
{
    xs.iter()
        .map(|x| (u64::from(*x), u64::from(*x)))
        .collect(alloc)
}
