//! The datagrams that were sent, and which packet one of them delivers.

ghost use Rattle.std.specs.Prelude.{◌≡◌, ◌++◌, ◌∷◌, [], ℕ, Some, None, List, length, OnOk, OnErr, if◌then◌else◌};
ghost use Rattle.std.specs.Map.{lookup};
ghost use Rattle.std.specs.Str.{bytes_eq};
ghost use Rattle.tg_live.specs.Matching.{Sent, matched, with_delivered};
ghost use Rattle.tg_live.specs.Books.{IsBook, GoesTo, found, with_number, answer, handed};

use crate::copies::Copies;
use std::alloc::Global;
use std::collections::BTreeMap;
use tg_base::{NoMemory, NodeId};

/// The datagrams that were sent, and which of them were delivered.
///
/// Each clause speaks of the datagrams whose book it is: `sent` has them by packet number, each with its node, and
/// `delivered` the numbers that were delivered, the last one first.
pub struct Book {
    copies: BTreeMap<Vec<u8>, Copies>,
}

// By hand, since a derived drop is proved anew wherever a value is dropped.
impl Drop for Book {
    fn drop(self) {
        let Book { copies: _ } = self;
    }
}

impl Book {
    /// Nothing was sent. It takes no memory.
    pub fn new(alloc: Global) -> Book
        ensures { IsBook result [] [] }
    {
        Book {
            copies: BTreeMap::new(alloc),
        }
    }

    /// The packet of the next number was sent to a node as this datagram. An `Err` is want of memory, and changes
    /// nothing.
    pub fn note(
        &mut self,
        alloc: Global,
        number: u64,
        to: NodeId,
        datagram: &[u8],
    ) -> Result<(), NoMemory>
        ensures noted { (sent : Sent) (delivered : List ℕ) → IsBook self.old sent delivered → number ≡ length sent → GoesTo sent datagram.now to → OnOk result (IsBook self.new (sent ++ (to, datagram.now) ∷ []) delivered) }
        ensures kept { (sent : Sent) (delivered : List ℕ) → IsBook self.old sent delivered → OnErr result (IsBook self.new sent delivered) }
    {
        put(alloc, &mut self.copies, to, datagram, number)
    }

    /// The packet that a datagram delivers which came to a node: of the packets to that node that are spelled so the
    /// lowest that wasn't delivered yet, else the lowest. None exactly where there is none. It takes no memory.
    pub fn arrived(&mut self, node: NodeId, datagram: &[u8]) -> Option<u64>
        ensures number { (sent : Sent) (delivered : List ℕ) → IsBook self.old sent delivered → result ≡ matched sent delivered node datagram.now }
        ensures book { (sent : Sent) (delivered : List ℕ) → IsBook self.old sent delivered → IsBook self.new sent (with_delivered result delivered) }
    {
        deliver(&mut self.copies, node, datagram)
    }
}

// One more packet that is spelled so.
fn put(
    alloc: Global,
    copies: &mut BTreeMap<Vec<u8>, Copies>,
    to: NodeId,
    datagram: &[u8],
    number: u64,
) -> Result<(), NoMemory>
    ensures ok { (d : List ℕ) → OnOk result (found copies.new.entries d ≡ (if bytes_eq datagram.now d then Some (with_number to number (found copies.old.entries datagram.now)) else found copies.old.entries d)) }
    ensures err { (d : List ℕ) → OnErr result (found copies.new.entries d ≡ found copies.old.entries d) }
{
    match copies.get_mut(datagram) {
        Some(equal) => equal.push(number),
        None => put_first(alloc, copies, to, datagram, number),
    }
}

// The first packet that is spelled so.
fn put_first(
    alloc: Global,
    copies: &mut BTreeMap<Vec<u8>, Copies>,
    to: NodeId,
    datagram: &[u8],
    number: u64,
) -> Result<(), NoMemory>
    ensures ok { (d : List ℕ) → OnOk result (found copies.new.entries d ≡ (if bytes_eq datagram.now d then Some (with_number to number None) else found copies.old.entries d)) }
    ensures err { (d : List ℕ) → OnErr result (found copies.new.entries d ≡ found copies.old.entries d) }
{
    let mut key = Vec::new(alloc);
    key.extend_from_slice(datagram)?;
    let first = Copies::of(alloc, to, number)?;
    copies.insert(key, first)?;
    Ok(())
}

// The lowest of the packets that are spelled so which wasn't delivered, else the lowest, where they go to this node.
fn deliver(copies: &mut BTreeMap<Vec<u8>, Copies>, node: NodeId, datagram: &[u8]) -> Option<u64>
    ensures number { result ≡ answer node (found copies.old.entries datagram.now) }
    ensures after { (d : List ℕ) → found copies.new.entries d ≡ (if bytes_eq datagram.now d then handed node (found copies.old.entries d) else found copies.old.entries d) }
{
    match copies.get_mut(datagram) {
        None => None,
        Some(equal) => {
            if equal.to.is_same(node) {
                return equal.deliver();
            }
            None
        }
    }
}
