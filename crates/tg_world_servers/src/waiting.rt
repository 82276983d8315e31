//! Which packets wait.

ghost use Rattle.std.specs.Prelude.{◌≡◌, ◌≤◌, ◌+◌, ◌∷◌, ◌++◌, [], false, slice_set, OnOk, OnErr};
ghost use Rattle.tg_world_servers.specs.Posts.{first_of, without};
ghost use Rattle.tg_world_servers.specs.Waits.{nothing_sent, first_open};

use std::alloc::Global;
use std::marker::Model;
use tg_base::NoMemory;

/// Which of the packets that were sent wait, by their numbers: neither delivered nor lost.
pub struct Waiting {
    waits: Vec<bool>,
    // The first that waits, or how many there are where none does.
    first: usize,
}

// By hand, since a derived drop is proved anew wherever a value is dropped.
impl Drop for Waiting {
    fn drop(self) {
        let Waiting { waits: _, first: _ } = self;
    }
}

impl Model for Waiting {
    ghost use Rattle.std.specs.Prelude.{◌≡◌, length};
    ghost use Rattle.tg_world_servers.specs.Waits.{Waits, first_open, open_from};

    ghost Value = { Waits };

    ghost view = { λ w. record { sent = length w.waits.items; numbers = open_from 0 w.waits.items } };

    ghost invariant = { λ w. w.first ≡ first_open w.waits.items };
}

impl Waiting {
    /// Nothing was sent. It takes no memory.
    pub fn new(alloc: Global) -> Waiting
        ensures { result ≡ nothing_sent }
    {
        Waiting {
            waits: Vec::new(alloc),
            first: 0,
        }
    }

    /// The lowest that waits. It takes no memory, and no search.
    pub fn first(&self) -> Option<u64>
        ensures { result ≡ first_of self.now.numbers }
    {
        if self.first < self.waits.len() {
            return Some(self.first as u64);
        }
        None
    }

    /// One more is sent, and waits. An `Err` is want of memory, and changes nothing.
    pub fn send(&mut self) -> Result<(), NoMemory>
        ensures ok { OnOk result (self.new ≡ record { sent = self.old.sent + 1; numbers = self.old.numbers ++ self.old.sent ∷ [] }) }
        ensures err { OnErr result (self.new ≡ self.old) }
    {
        self.waits.push(true)?;
        Ok(())
    }

    /// A number waits no more. It takes no memory; in all, the search for the next that waits passes each number once.
    pub fn end(&mut self, number: u64)
        ensures { self.new ≡ record self.old { numbers = without number self.old.numbers } }
    {
        close(&mut self.waits, number as usize);
        self.first = next_open(self.waits.as_slice(), self.first);
    }
}

// The packet with this number waits no more, if it was sent.
fn close(waits: &mut Vec<bool>, number: usize)
    ensures { waits.new.items ≡ slice_set waits.old.items number false }
{
    if number < waits.len() {
        waits[number] = false;
    }
}

// The first that waits, where none before this one does.
fn next_open(waits: &[bool], from: usize) -> usize
    requires { from ≤ first_open waits.now }
    ensures { result ≡ first_open waits.now }
{
    let mut first = from;
    while first < waits.len() && !waits[first] {
        first += 1;
    }
    first
}
