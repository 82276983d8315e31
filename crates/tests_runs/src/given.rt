//! What the tests are given: nodes, texts, and links.

ghost use Rattle.std.specs.Prelude.{◌≤◌, length};

use std::alloc::Global;
use tg_base::{List, NoMemory, NodeId, Role};
use tg_io::MemLink;

pub const CLIENT: NodeId = NodeId {
    role: Role::Client,
    num: 0,
};

pub const SEQUENCER: NodeId = NodeId {
    role: Role::Seqr,
    num: 0,
};

pub const HEADER: &str =
    "cluster units 1 layouts 1 seqs 1 clients 3 limit 100\nchains u0\nobjects ctr0 ctr1\n";

/// What is told of an update of ctr0 at its event, with the line of the objects.
pub const UPDATED: &str = "objects ctr0 ctr1\n1 c0 1 begin\n1 c0 1 put ctr0 add 5\n1 c0 1 end\n";

/// Client c0 asks sequencer s0, by its first request, for a position in the stream of ctr0: the first packet of an
/// update.
pub const ASKS: [u8; 31] = [
    0x54, 0x50, 1, 3, 0, 0, 2, 0, 0, 0, 0, 0, 0, 0, 0, 0, 1, 0x32, 0, 0, 0, 0, 0, 0, 0, 1, 1, 1, 0,
    0, 0,
];

/// Pieces, one after the other.
pub fn joined(alloc: Global, pieces: &[&str]) -> Result<List<u8>, NoMemory> {
    let mut text = List::new(alloc);
    for piece in pieces {
        text.extend(piece.as_bytes())?;
    }
    Ok(text)
}

/// A list of calls.
pub fn calls(alloc: Global, numbers: &[u64]) -> Result<List<u64>, NoMemory> {
    let mut list = List::new(alloc);
    list.extend(numbers)?;
    Ok(list)
}

/// A link of which these calls fail.
pub fn failing(alloc: Global, fails: &[u64]) -> Result<MemLink, NoMemory> {
    Ok(MemLink::new(alloc, List::new(alloc), calls(alloc, fails)?))
}

/// A datagram that no node sent comes to a node.
pub fn comes(alloc: Global, link: MemLink, to: NodeId, datagram: &[u8]) -> Result<MemLink, NoMemory>
    requires { length datagram.now ≤ 8192 }
{
    let mut bytes = List::new(alloc);
    bytes.extend(datagram)?;
    link.inject(to, bytes)
}

/// A cluster of two chains: 60 transactions of three clients, of which a unit and its sequencer are replaced halfway, and
/// one that asks and writes what it was told.
pub fn realistic(alloc: Global) -> Result<List<u8>, NoMemory> {
    let mut text = joined(
        alloc,
        &[
            "cluster units 4 layouts 3 seqs 2 clients 3 limit 10000\nchains u0,u1/u2,u3\nobjects ctr0 map0 list0\n",
        ],
    )?;
    put_rounds(alloc, 0, 10, &mut text)?;
    text.extend(b"stop u1\nc0 reconf s1 drop u1\nsettle\n".as_slice())?;
    put_rounds(alloc, 10, 20, &mut text)?;
    text.extend(
        b"c1 host ctr0\nc1 host list0\nc1 begin\nc1 ask ctr0 value\nsettle\nc1 ask list0 len\n".as_slice(),
    )?;
    text.extend(b"c1 put list0 push_back total610\nc1 end\nsettle\n".as_slice())?;
    Ok(text)
}

// Puts an update of each client for each of these numbers.
fn put_rounds(alloc: Global, first: u64, end: u64, text: &mut List<u8>) -> Result<(), NoMemory> {
    for number in first..end {
        let set = number.saturating_mul(3);
        let push = set.saturating_add(1);
        let add = set.saturating_add(2);
        let updates = format!(in alloc;
            "c0 update map0 set k{set} v{set}\nsettle\nc1 update list0 push_back o{push}\nsettle\nc2 update ctr0 add {add}\nsettle\n"
        )?;
        text.extend(updates.as_bytes())?;
    }
    Ok(())
}
