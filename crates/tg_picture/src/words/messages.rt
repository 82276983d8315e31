//! Whole messages in words.

use crate::put_name;
use crate::words::entries::{put_author, put_entry};
use crate::words::labels::put_label;
use crate::words::layouts::put_layout;
use std::alloc::Global;
use tg_any::{put_number, put_object};
use tg_base::{
    Ballot, Blob, Cell, Epoch, List, Msg, NoMemory, Oid, Packet, Pos, Projection, StreamLink,
};
use tg_entry::{EntryFault, decode};

/// Puts a packet in words: its number, its nodes, its request's number and its message with all fields.
pub fn put_packet(
    alloc: Global,
    number: u64,
    packet: &Packet,
    out: &mut List<u8>,
) -> Result<(), NoMemory> {
    counted(b"packet ", number, out)?;
    put_way(packet, out)?;
    counted(b", number ", packet.rid, out)?;
    out.extend(b": ")?;
    put_label(&packet.msg, out)?;
    put_fields(alloc, &packet.msg, out)
}

// Puts a packet's nodes.
fn put_way(packet: &Packet, out: &mut List<u8>) -> Result<(), NoMemory> {
    out.extend(b", ")?;
    put_name(packet.from, out)?;
    out.extend(b" to ")?;
    put_name(packet.to, out)
}

// Puts the fields that a label lacks.
fn put_fields(alloc: Global, msg: &Msg, out: &mut List<u8>) -> Result<(), NoMemory> {
    match msg {
        Msg::Read { epoch, .. } | Msg::Fill { epoch, .. } | Msg::Trim { epoch, .. } => {
            in_epoch(*epoch, out)
        }
        Msg::Write { epoch, page, .. } => {
            in_epoch(*epoch, out)?;
            put_page(alloc, page, out)
        }
        Msg::Copy { epoch, cell, .. } => {
            in_epoch(*epoch, out)?;
            put_cell(alloc, cell, out)
        }
        Msg::Has {
            epoch,
            lo,
            step,
            ..
        } => {
            in_epoch(*epoch, out)?;
            counted(b", from ", *lo, out)?;
            counted(b" by ", *step, out)
        }
        Msg::Taken { cell } => put_cell(alloc, cell, out),
        Msg::Sealed { high, .. } => counted(b", written below ", *high, out),
        _ => put_vote(msg, out),
    }
}

// Puts those of what is said of layouts.
fn put_vote(msg: &Msg, out: &mut List<u8>) -> Result<(), NoMemory> {
    match msg {
        Msg::Prepare { ballot, .. } | Msg::Nack { ballot, .. } | Msg::Accepted { ballot, .. } => {
            put_ballot(*ballot, out)
        }
        Msg::Accept { ballot, proj, .. } => put_proposal(*ballot, proj, out),
        Msg::Promise {
            ballot,
            accepted,
            ..
        } => {
            put_ballot(*ballot, out)?;
            put_accepted(accepted, out)
        }
        Msg::Decided { proj } | Msg::Latest { proj } | Msg::Learn { proj } => {
            out.extend(b", ")?;
            put_layout(proj, out)
        }
        _ => put_issue(msg, out),
    }
}

fn put_accepted(
    accepted: &Option<(Ballot, Projection)>,
    out: &mut List<u8>,
) -> Result<(), NoMemory> {
    match accepted {
        None => out.extend(b", nothing accepted"),
        Some((by, proj)) => {
            out.extend(b", accepted")?;
            put_proposal(*by, proj, out)
        }
    }
}

fn put_proposal(ballot: Ballot, proj: &Projection, out: &mut List<u8>) -> Result<(), NoMemory> {
    put_ballot(ballot, out)?;
    out.extend(b", ")?;
    put_layout(proj, out)
}

// Puts those of what is said with a sequencer.
fn put_issue(msg: &Msg, out: &mut List<u8>) -> Result<(), NoMemory> {
    match msg {
        Msg::Token { epoch, oids } | Msg::Check { epoch, oids } => {
            in_epoch(*epoch, out)?;
            put_streams(oids.as_slice(), out)
        }
        Msg::Issued { links, .. } | Msg::Tail { links, .. } => put_links(links.as_slice(), out),
        Msg::Scanning { start, .. } => counted(b", of those below ", *start, out),
        _ => Ok(()),
    }
}

fn counted(words: &[u8], number: u64, out: &mut List<u8>) -> Result<(), NoMemory> {
    out.extend(words)?;
    put_number(number, out)
}

fn in_epoch(epoch: Epoch, out: &mut List<u8>) -> Result<(), NoMemory> {
    counted(b" in epoch ", epoch, out)
}

fn put_ballot(ballot: Ballot, out: &mut List<u8>) -> Result<(), NoMemory> {
    out.extend(b", ballot ")?;
    put_number(ballot.round, out)?;
    out.extend(b" of c")?;
    put_number(ballot.client, out)
}

fn put_cell(alloc: Global, cell: &Cell, out: &mut List<u8>) -> Result<(), NoMemory> {
    match cell {
        Cell::Junk => out.extend(b", junk"),
        Cell::Data(page) => put_page(alloc, page, out),
    }
}

// Puts the entry that a page spells, else how many bytes it has.
fn put_page(alloc: Global, page: &Blob, out: &mut List<u8>) -> Result<(), NoMemory> {
    match decode(alloc, page.as_slice()) {
        Ok(entry) => {
            out.extend(b", ")?;
            put_author(&entry, out)?;
            out.extend(b": ")?;
            put_entry(alloc, &entry, out)
        }
        Err(EntryFault::NoMemory) => Err(NoMemory),
        Err(_) => {
            counted(b", a page of ", page.as_slice().len() as u64, out)?;
            out.extend(b" bytes")
        }
    }
}

fn put_streams(oids: &[Oid], out: &mut List<u8>) -> Result<(), NoMemory> {
    out.extend(b", streams")?;
    for oid in oids {
        out.push(b' ')?;
        put_object(*oid, out)?;
    }
    Ok(())
}

// Puts streams, each with its last positions.
fn put_links(links: &[StreamLink], out: &mut List<u8>) -> Result<(), NoMemory> {
    for link in links {
        out.extend(b", ")?;
        put_object(link.oid, out)?;
        out.extend(b" last at")?;
        put_backs(link.backs.as_slice(), out)?;
    }
    Ok(())
}

fn put_backs(backs: &[Pos], out: &mut List<u8>) -> Result<(), NoMemory> {
    if backs.is_empty() {
        out.extend(b" none")?;
    }
    for pos in backs {
        counted(b" ", *pos, out)?;
    }
    Ok(())
}
