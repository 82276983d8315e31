//! Readers of words, and of lists of words.

ghost use Rattle.std.specs.Prelude.{◌≡◌, IfOk};
ghost use Rattle.tg_any.specs.Words.{Word, texts};
ghost use Rattle.tg_script.specs.Parts.{each};

use std::alloc::Global;
use tg_base::{List, NoMemory};

/// A reader of one word.
pub trait Reader {
    type Value: Drop;

    /// The kind of word that it reads.
    ghost word: { Self → Word Self.Value };

    /// The value whose word this is. An `Err` is want of memory.
    fn read(&self, alloc: Global, spelling: &str) -> Result<Option<Self::Value>, NoMemory>
        ensures { IfOk result (λ x. x ≡ (word self.now).read spelling.now) };
}

/// The value of each word, None where one is none. An `Err` is want of memory.
pub fn each<R: Reader>(
    alloc: Global,
    reader: &R,
    words: &[&str],
) -> Result<Option<List<R::Value>>, NoMemory>
    ensures { IfOk result (λ xs. xs ≡ each (R.word reader.now).read (texts words.now)) }
{
    let mut items = List::new(alloc);
    for word in words {
        let Some(item) = reader.read(alloc, word)? else {
            return Ok(None);
        };
        items.push(item)?;
    }
    Ok(Some(items))
}
