//! Texts as the keys and values of a hash table.

ghost use Rattle.std.specs.Prelude.{◌≡◌, IfOk, IsTrue};
ghost use Rattle.std.specs.Hash as fed;
ghost use Rattle.std.specs.Cmp.{partial_equiv_from_equiv};
ghost use Rattle.std.specs.Cmp.Lexicographic.{nat_list_eq_equiv};
ghost use Rattle.std.specs.Cmp.Rules.{hashing};
ghost use Rattle.std.proofs.Common.{rules};
ghost use Rattle.tg_map.specs.Maps.{same};

use std::alloc::AllocError;
use std::hash::{Hash, Hasher};
use std::marker::Model;
use tg_base::NoMemory;
use tg_kind::Text;

/// A text that is compared and hashed by its bytes.
#[derive(Drop)]
pub struct Word {
    pub text: Text,
}

impl Model for Word {
    ghost use Rattle.std.specs.Prelude.{ℕ, List};

    ghost Value = { List ℕ };

    ghost view = { λ w. w.text };

    ghost inverse = { λ t. record { text = t } };
}

impl Word {
    /// An equal word. An `Err` is want of memory.
    pub fn of(text: &Text) -> Result<Word, NoMemory>
        ensures { IfOk result (λ w. w ≡ text.now) }
    {
        Ok(Word { text: text.copy()? })
    }
}

impl Clone for Word {
    ghost is_clone = { λ w c. c ≡ w };

    fn clone(&self) -> Result<Word, AllocError> {
        match self.text.copy() {
            Ok(text) => Ok(Word { text }),
            Err(_) => Err(AllocError),
        }
    }
}

impl PartialEq for Word {
    ghost eq = { same };

    ghost laws = { partial_equiv_from_equiv nat_list_eq_equiv };

    fn eq(&self, other: &Word) -> bool {
        self.text.as_str() == other.text.as_str()
    }
}

impl Eq for Word {
    ghost laws = { nat_list_eq_equiv };
}

impl Hash for Word {
    ghost hash_input = { fed.str };

    ghost respects_eq = { Prim.search (hashing, rules) };

    fn hash<H: Hasher>(&self, state: &mut H) {
        self.text.as_str().hash(state);
    }
}
