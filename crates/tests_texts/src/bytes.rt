//! Rows of bytes: entries and packets.

use crate::hex::put_bytes;
use std::alloc::Global;
use tg_any::put_number;
use tg_base::{Blob, List, NoMemory};
use tg_entry::EntryFault;
use tg_wire::WireFault;

/// What bytes are read as.
#[derive(Clone, Copy)]
pub enum Coding {
    /// An entry of the log.
    Entry,
    /// A packet between two nodes.
    Packet,
}

/// Puts the bytes of a copy of what bytes spell, or the place where they spell nothing.
pub fn put_again(
    alloc: Global,
    coding: Coding,
    bytes: &[u8],
    out: &mut List<u8>,
) -> Result<(), NoMemory> {
    match coding {
        Coding::Entry => match entry_again(alloc, bytes) {
            Ok(page) => put_bytes(alloc, page.as_slice(), out),
            Err(EntryFault::BadEntry { at }) => put_place(at, out),
            Err(EntryFault::TooLarge { .. }) => out.extend(b"too large"),
            Err(EntryFault::NoMemory) => Err(NoMemory),
        },
        Coding::Packet => match packet_again(alloc, bytes) {
            Ok(again) => put_bytes(alloc, again.as_slice(), out),
            Err(WireFault::BadPacket { at }) => put_place(at, out),
            Err(WireFault::NoMemory) => Err(NoMemory),
        },
    }
}

fn entry_again(alloc: Global, bytes: &[u8]) -> Result<Blob, EntryFault> {
    let entry = tg_entry::decode(alloc, bytes)?;
    let copy = entry.copy()?;
    tg_entry::encode(alloc, &copy)
}

fn packet_again(alloc: Global, bytes: &[u8]) -> Result<List<u8>, WireFault> {
    let packet = tg_wire::decode(alloc, bytes)?;
    Ok(tg_wire::encode(alloc, &packet)?)
}

/// Puts the place where bytes are refused.
pub fn put_place(at: usize, out: &mut List<u8>) -> Result<(), NoMemory> {
    out.extend(b"refused at ")?;
    put_number(at, out)
}

/// Puts, for each front of bytes that isn't all, the place where it is refused.
pub fn put_fronts(
    alloc: Global,
    coding: Coding,
    bytes: &[u8],
    out: &mut List<u8>,
) -> Result<(), NoMemory> {
    for len in 0..bytes.len() {
        put_place_of(alloc, coding, &bytes[..len], out)?;
    }
    Ok(())
}

/// Puts, for each byte, the place where the bytes are refused once it is 255.
pub fn put_tops(
    alloc: Global,
    coding: Coding,
    bytes: &[u8],
    out: &mut List<u8>,
) -> Result<(), NoMemory> {
    for at in 0..bytes.len() {
        let mut changed = List::new(alloc);
        changed.extend(&bytes[..at])?;
        changed.push(255)?;
        changed.extend(&bytes[at + 1..])?;
        put_place_of(alloc, coding, changed.as_slice(), out)?;
    }
    Ok(())
}

// Puts the place where bytes are refused, a dash where they aren't, and a space.
fn put_place_of(
    alloc: Global,
    coding: Coding,
    bytes: &[u8],
    out: &mut List<u8>,
) -> Result<(), NoMemory> {
    match place(alloc, coding, bytes)? {
        Some(at) => put_number(at, out)?,
        None => out.push(b'-')?,
    }
    out.push(b' ')
}

fn place(alloc: Global, coding: Coding, bytes: &[u8]) -> Result<Option<usize>, NoMemory> {
    match coding {
        Coding::Entry => match tg_entry::decode(alloc, bytes) {
            Ok(_) => Ok(None),
            Err(EntryFault::BadEntry { at }) => Ok(Some(at)),
            Err(_) => Err(NoMemory),
        },
        Coding::Packet => match tg_wire::decode(alloc, bytes) {
            Ok(_) => Ok(None),
            Err(WireFault::BadPacket { at }) => Ok(Some(at)),
            Err(WireFault::NoMemory) => Err(NoMemory),
        },
    }
}
