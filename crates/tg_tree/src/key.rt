//! Bytes in the order of paths.

ghost use Rattle.std.specs.Prelude.{◌≡◌, ◌++◌, ◌∷◌, ◌<◌, [], true, length, IfOk};
ghost use Rattle.std.specs.declared.option.Option.TheVariants.{Some};
ghost use Rattle.std.specs.Cmp.Lexicographic.{pointwise, slice_cmp, nat_list_eq_equiv, nat_list_cmp_total, texts_ties, texts_po};
ghost use Rattle.std.specs.Cmp.Rules.{hashing};
ghost use Rattle.std.specs.Ordering.{nat_cmp, is_lt};
ghost use Rattle.std.specs.Prelude.{nat_eq, refl};
ghost use Rattle.tg_tree.specs.Paths.{root, by_bytes, same, parent, last_slash, last_name};

use crate::path::Path;
use std::alloc::Global;
use std::cmp::Ordering;
use std::hash::{Hash, Hasher};
use std::marker::Model;
use tg_base::NoMemory;

/// The bytes of a path, or of an end of a range of paths.
#[derive(Drop)]
pub struct Key {
    bytes: Vec<u8>,
}

impl Model for Key {
    ghost use Rattle.std.specs.Prelude.{ℕ, List};

    ghost Value = { List ℕ };

    ghost view = { λ k. k.bytes.items };
}

impl PartialEq for Key {
    ghost eq = { pointwise nat_eq };

    ghost laws = { Prim.search rules };

    ghost use Rattle.std.proofs.Common.{rules};

    fn eq(&self, other: &Self) -> bool {
        self.bytes == other.bytes
    }
}

impl Eq for Key {
    ghost laws = { nat_list_eq_equiv };
}

impl Hash for Key {
    ghost use Rattle.std.proofs.Common.{rules};

    ghost hash_input = { λ k. k ∷ [] };

    ghost respects_eq = { Prim.search (hashing, rules) };

    fn hash<H: Hasher>(&self, state: &mut H) {
        state.write(self.bytes.as_slice());
    }
}

impl PartialOrd for Key {
    ghost partial_cmp = { λ v w. Some (slice_cmp nat_cmp v w) };

    ghost laws = { texts_po };

    fn partial_cmp(&self, other: &Self) -> Option<Ordering> {
        Some(self.cmp(other))
    }
}

impl Ord for Key {
    ghost cmp = { slice_cmp nat_cmp };

    ghost total = { nat_list_cmp_total };

    ghost matches_partial_cmp = { λ v w. refl };

    ghost matches_eq = { texts_ties };

    fn cmp(&self, other: &Self) -> Ordering {
        self.bytes.as_slice().cmp(other.bytes.as_slice())
    }
}

/// The place of the last slash of bytes that begin with one.
pub fn last_slash(bytes: &[u8]) -> usize
    ensures place { result ≡ last_slash bytes.now }
    ensures within { 0 < length bytes.now → result < length bytes.now }
{
    let mut last = 0;
    for (place, byte) in bytes.iter().enumerate() {
        if *byte == b'/' {
            last = place;
        }
    }
    last
}

impl Key {
    /// The bytes of a path. It takes no memory.
    pub fn new(path: Path) -> Key
        ensures { result ≡ path }
    {
        Key {
            bytes: path.into_bytes(),
        }
    }

    /// The bytes of the root. An `Err` is want of memory.
    pub fn root(alloc: Global) -> Result<Key, NoMemory>
        ensures { IfOk result (λ k. k ≡ root) }
    {
        Ok(Key {
            bytes: Vec::from_slice(alloc, b"/")?,
        })
    }

    /// An equal key. An `Err` is want of memory.
    pub fn copy(&self) -> Result<Key, NoMemory>
        ensures { IfOk result (λ k. k ≡ self.now) }
    {
        Ok(Key {
            bytes: self.bytes.clone()?,
        })
    }

    /// The bytes.
    pub fn as_slice(&self) -> &[u8]
        ensures { result.now ≡ self.now }
    {
        self.bytes.as_slice()
    }

    /// Whether these are the bytes of the root.
    pub fn is_root(&self) -> bool
        ensures { result ≡ same root self.now }
    {
        let root = b"/".as_slice();
        root.cmp(self.bytes.as_slice()) == Ordering::Equal
    }

    /// The parent of a path. It takes no memory.
    pub fn parent(self) -> Key
        ensures { result ≡ parent self }
    {
        let mut bytes = self.bytes;
        let last = last_slash(bytes.as_slice());
        bytes.truncate(last.max(1));
        Key { bytes }
    }

    /// The bytes of a path's parent. It takes no memory.
    pub fn parent_slice(&self) -> &[u8]
        ensures { result.now ≡ parent self.now }
    {
        let bytes = self.bytes.as_slice();
        let last = last_slash(bytes).max(1);
        if bytes.len() <= last {
            return bytes;
        }
        &bytes[..last]
    }

    /// What stands behind a path's last slash. It takes no memory.
    pub fn name_slice(&self) -> &[u8]
        requires { 0 < length self.now }
        ensures { result.now ≡ last_name self.now }
    {
        let bytes = self.bytes.as_slice();
        &bytes[last_slash(bytes) + 1..]
    }

    /// Whether these bytes are below others. It takes no memory.
    pub fn is_below(&self, other: &Key) -> bool
        ensures { result ≡ is_lt (by_bytes self.now other.now) }
    {
        self.cmp(other).is_lt()
    }

    /// Whether these are the bytes. It takes no memory.
    pub fn is(&self, bytes: &[u8]) -> bool
        ensures { result ≡ same self.now bytes.now }
    {
        self.bytes.as_slice().cmp(bytes) == Ordering::Equal
    }
}
