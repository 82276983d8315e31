//! Packets that go over a link.

ghost use Rattle.std.specs.Prelude.{◌≡◌, ◌≤◌, ◌++◌, ◌∷◌, [], ℕ, List, true, length, IfOk, OnOk, OnErr};
ghost use Rattle.tg_base.specs.declared.packet.Packet.{Packet};
ghost use Rattle.tg_io.specs.Acts.{Goes};
ghost use Rattle.tg_io.specs.Faults.{HasCause, StaysSure};
ghost use Rattle.tg_io.specs.Links.{Adds};
ghost use Rattle.tg_live.specs.Books.{IsBook};
ghost use Rattle.tg_wire.specs.Packets.{packet};
ghost use Rattle.tg_live.specs.Sends.{sending, spellings, AreFit};

use crate::Book;
use std::alloc::Global;
use tg_base::{List, NoMemory, Packet};
use tg_io::{IoErr, Link};
use tg_law_sizes::packets_are_short;
use tg_wire::{encode, fits, no_spelling_begins_another};

/// The datagram of a packet. An `Err` is want of memory, or a packet that no datagram holds, which no node sends.
fn spelled(alloc: Global, value: &Packet) -> Result<List<u8>, NoMemory>
    ensures spelled { IfOk result (λ d. d ≡ packet.spell value.now) }
    ensures fits { IfOk result (λ d. packet.fits value.now ≡ true) }
    ensures short { IfOk result (λ d. length d ≤ 8192) }
{
    if !fits(value) {
        return Err(NoMemory);
    }
    packets_are_short(value);
    encode(alloc, value)
}

/// Sends the packet of the next number, and notes it in the book. An `Err` is a fault of the link, or want of memory.
pub(crate) fn send<L: Link>(
    alloc: Global,
    link: &mut L,
    book: &mut Book,
    number: u64,
    value: &Packet,
) -> Result<(), IoErr>
    ensures fits { OnOk result (packet.fits value.now ≡ true) }
    ensures noted { (ps : List Packet) (delivered : List ℕ) → AreFit ps → number ≡ length ps → IsBook book.old (spellings ps) delivered → OnOk result (IsBook book.new (spellings (ps ++ value.now ∷ [])) delivered) }
    ensures sent { OnOk result (Adds (L.sent link.old) (sending value.now) (L.sent link.new)) }
    ensures act { OnOk result (Adds (L.acts link.old) (Goes (sending value.now)) (L.acts link.new)) }
    ensures no_act { OnErr result (L.acts link.new ≡ L.acts link.old) }
    ensures handed { L.handed link.new ≡ L.handed link.old }
    ensures cause { HasCause (L.faults link.old) (L.faults link.new) result }
    ensures sure { StaysSure (L.sure link.old) (L.sure link.new) (L.faults link.old) (L.faults link.new) }
    ensures still { OnOk result (L.faults link.new ≡ L.faults link.old) }
{
    let datagram = spelled(alloc, value)?;
    no_spelling_begins_another();
    book.note(alloc, number, value.to, datagram.as_slice())?;
    link.send(value.from, value.to, datagram.as_slice())
}
