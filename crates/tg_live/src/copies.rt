//! Packets that are spelled alike.

ghost use Rattle.std.specs.Prelude.{◌≡◌, ◌++◌, ◌∷◌, [], IfOk, OnOk, OnErr};
ghost use Rattle.tg_live.specs.Books.{next_of, after, with_number};

use std::alloc::Global;
use tg_base::{List, NoMemory, NodeId};

/// Packets that are spelled alike, by their numbers, which rise.
#[derive(Drop)]
pub(crate) struct Copies {
    /// The node to which they go.
    pub to: NodeId,
    pub numbers: List<u64>,
    /// How many of them were delivered: the first ones.
    pub done: usize,
}

impl Copies {
    /// One packet, which wasn't delivered. An `Err` is want of memory.
    pub(crate) fn of(alloc: Global, to: NodeId, number: u64) -> Result<Copies, NoMemory>
        ensures { IfOk result (λ c. c ≡ record { to = to; numbers = number ∷ []; done = 0 }) }
    {
        let mut numbers = List::new(alloc);
        numbers.push(number)?;
        Ok(Copies {
            to,
            numbers,
            done: 0,
        })
    }

    /// One more. An `Err` is want of memory, and changes nothing.
    pub(crate) fn push(&mut self, number: u64) -> Result<(), NoMemory>
        ensures ok { OnOk result (self.new ≡ record self.old { numbers = self.old.numbers ++ number ∷ [] }) }
        ensures err { OnErr result (self.new ≡ self.old) }
    {
        self.numbers.push(number)
    }

    /// The lowest that wasn't delivered yet, which is delivered now, else the lowest. It takes no memory.
    pub(crate) fn deliver(&mut self) -> Option<u64>
        ensures number { result ≡ next_of self.old }
        ensures after { self.new ≡ after self.old }
    {
        match self.numbers.as_slice().get(self.done) {
            Some(number) => {
                let number = *number;
                self.done += 1;
                Some(number)
            }
            None => self.numbers.as_slice().first().copied(),
        }
    }
}
