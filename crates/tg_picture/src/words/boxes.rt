//! The positions of the log.

ghost use Rattle.std.specs.Prelude.{◌≡◌, ◌++◌, ◌==◌, List, map, IfOk, OnOk};
ghost use Rattle.tg_protocol.specs.Pages.{entry_in};
ghost use Rattle.tg_picture.specs.Standings.{decided, decided_if, is_in, is_done, record_standing, lacks_decision, standing, said, said_of, gone_by, gone_below};

use crate::words::entries::{put_author, put_entry};
use crate::{LogBox, Standing};
use std::alloc::Global;
use tg_any::AnyOp;
use tg_base::{Cell, List, Msg, NoMemory, Packet, Pos};
use tg_entry::{Body, Entry, EntryFault, decode, needs_decision};
use tg_model::Done;

/// One box for each position of a log, in its order: what came of it by the history and by the decision records of the
/// log, and whether it is below a position that is gone. An `Err` is want of memory.
pub fn boxes_of(
    alloc: Global,
    log: &[(Pos, Cell)],
    history: &[Done<AnyOp>],
    gone: Pos,
) -> Result<List<LogBox>, NoMemory>
    ensures { IfOk result (λ bs. map said bs ≡ map (said_of history.now (decided log.now) gone) log.now) }
{
    let found = decided_in(alloc, log)?;
    let mut boxes = List::new(alloc);
    put_boxes(alloc, log, history, found.as_slice(), gone, &mut boxes)?;
    Ok(boxes)
}

// Puts a box for each of these positions last.
fn put_boxes(
    alloc: Global,
    log: &[(Pos, Cell)],
    history: &[Done<AnyOp>],
    found: &[Pos],
    gone: Pos,
    boxes: &mut List<LogBox>,
) -> Result<(), NoMemory>
    ensures { OnOk result (map said boxes.new ≡ map said boxes.old ++ map (said_of history.now found.now gone) log.now) }
{
    for (pos, cell) in log {
        boxes.push(box_of(alloc, *pos, cell, history, found, gone)?)?;
    }
    Ok(())
}

fn box_of(
    alloc: Global,
    pos: Pos,
    cell: &Cell,
    history: &[Done<AnyOp>],
    found: &[Pos],
    gone: Pos,
) -> Result<LogBox, NoMemory>
    ensures { IfOk result (λ b. said b ≡ said_of history.now found.now gone (pos, cell.now)) }
{
    let entry = entry_of(alloc, cell)?;
    let mut by = List::new(alloc);
    let mut says = List::new(alloc);
    put_words(alloc, &entry, &mut by, &mut says)?;
    Ok(LogBox {
        pos,
        standing: standing_of(pos, &entry, history, found),
        trimmed: pos < gone,
        by,
        says,
    })
}

// Puts who wrote an entry, and what it says.
fn put_words(
    alloc: Global,
    entry: &Option<Entry>,
    by: &mut List<u8>,
    says: &mut List<u8>,
) -> Result<(), NoMemory> {
    match entry {
        None => Ok(()),
        Some(entry) => {
            put_author(entry, by)?;
            put_entry(alloc, entry, says)
        }
    }
}

fn standing_of(pos: Pos, entry: &Option<Entry>, history: &[Done<AnyOp>], found: &[Pos]) -> Standing
    ensures { result ≡ standing pos entry.now history.now found.now }
{
    match entry {
        None => Standing::Junk,
        Some(entry) => match &entry.body {
            Body::Decision { .. } => Standing::Decision,
            Body::Checkpoint { .. } => Standing::Checkpoint,
            Body::Commit { .. } => {
                record_standing(lacks_decision(pos, entry, found), is_done(pos, history))
            }
        },
    }
}

// Whether an entry needs a decision record, and has none among these.
fn lacks_decision(pos: Pos, entry: &Entry, found: &[Pos]) -> bool
    ensures { result ≡ lacks_decision pos entry.now found.now }
{
    needs_decision(entry) && !is_in(pos, found)
}

fn record_standing(lacks: bool, yes: bool) -> Standing
    ensures { result ≡ record_standing lacks yes }
{
    if lacks {
        return Standing::Undecided;
    }
    if yes {
        return Standing::Committed;
    }
    Standing::Aborted
}

fn is_in(pos: Pos, found: &[Pos]) -> bool
    ensures { result ≡ is_in pos found.now }
{
    found.iter().any(|other| *other == pos)
}

fn is_done(pos: Pos, history: &[Done<AnyOp>]) -> bool
    ensures { result ≡ is_done pos history.now }
{
    history.iter().any(|done| done.stamp == pos)
}

// The entry that a cell spells.
#[tactic(auto, unfolding(tg_protocol::specs::Pages::entry_of))]
fn entry_of(alloc: Global, cell: &Cell) -> Result<Option<Entry>, NoMemory>
    ensures { IfOk result (λ e. e ≡ entry_in cell.now) }
{
    match cell {
        Cell::Junk => Ok(None),
        Cell::Data(page) => match decode(alloc, page.as_slice()) {
            Ok(entry) => Ok(Some(entry)),
            Err(EntryFault::NoMemory) => Err(NoMemory),
            Err(_) => Ok(None),
        },
    }
}

// The positions that have a decision record in a log.
#[tactic(auto, unfolding(crate::specs::Standings::decided))]
fn decided_in(alloc: Global, log: &[(Pos, Cell)]) -> Result<List<Pos>, NoMemory>
    ensures { IfOk result (λ ps. ps ≡ decided log.now) }
{
    let mut found = List::new(alloc);
    for (_, cell) in log {
        let entry = entry_of(alloc, cell)?;
        put_decided(&entry, &mut found)?;
    }
    Ok(found)
}

fn put_decided(entry: &Option<Entry>, found: &mut List<Pos>) -> Result<(), NoMemory>
    ensures { OnOk result (found.new ≡ found.old ++ decided_if entry.now) }
{
    match entry {
        None => Ok(()),
        Some(entry) => match &entry.body {
            Body::Decision { at, .. } => found.push(*at),
            Body::Commit { .. } | Body::Checkpoint { .. } => Ok(()),
        },
    }
}

/// Below which position a unit has said that all is gone.
pub fn gone_below(packets: &[Packet]) -> Pos
    ensures { result ≡ gone_below packets.now }
{
    let mut gone = 0;
    for packet in packets {
        gone = gone.max(gone_by(&packet.msg));
    }
    gone
}

fn gone_by(msg: &Msg) -> Pos
    ensures { result ≡ gone_by msg.now }
{
    match msg {
        Msg::Gone { below } => *below,
        _ => 0,
    }
}
