//! How much is played.

ghost use Rattle.std.specs.Prelude.{◌≡◌, ◌≤◌, length, IfOk, IfSome};
ghost use Rattle.tg_kind.specs.Of.{meaning_of};
ghost use Rattle.bench_costs.specs.Plays.{AreWords, version_after};

use crate::fault::Fault;
use crate::plays::version_after;
use std::alloc::Global;
use tg_dir::Directory;
use tg_kind::Registry;

/// How many records are played at once, and how often ten more.
#[derive(Clone, Copy)]
pub struct Sizes {
    pub count: u32,
    pub more: u32,
}

impl Sizes {
    /// What words ask for, None where they ask for nothing.
    pub fn of(words: &[String]) -> Option<Sizes>
        ensures { IfSome result (λ _. length words.now ≤ 2) }
    {
        match words {
            [count, more] => Sizes::named(count.as_str(), more.as_str()),
            _ => None,
        }
    }

    fn named(count: &str, more: &str) -> Option<Sizes>
        ensures { IfSome result (λ s. AreWords count.now more.now s) }
    {
        let count: u32 = count.parse().ok()?;
        let more: u32 = more.parse().ok()?;
        Some(Sizes { count, more })
    }

    /// The version of the object after all records. An `Err` is want of memory.
    pub fn version(self, alloc: Global) -> Result<u64, Fault>
        ensures { IfOk result (λ n. n ≡ version_after (meaning_of ⟦<Directory as Registry>⟧) self.count self.more) }
    {
        let version = version_after::<Directory>(alloc, self.count, self.more)?;
        Ok(version)
    }
}
