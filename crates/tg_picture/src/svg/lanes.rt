//! Lanes, with what happens at one node alone, and bands.

use crate::svg::places::{LABEL, Places, TOP};
use crate::svg::tags::{open_rect, put_cross, put_label, put_line, put_numbered};
use crate::{Band, Moment, put_name};
use std::alloc::Global;
use tg_any::put_number;
use tg_base::{Epoch, List, NoMemory, NodeId, Role};

// How far a band reaches over the outermost lane.
const REACH: u64 = 24;

/// Puts a lane for each node with its name, down to where the node stopped.
pub fn put_lanes(
    places: &Places,
    lanes: &[(NodeId, Option<u64>)],
    out: &mut List<u8>,
) -> Result<(), NoMemory> {
    for (node, stop) in lanes {
        let x = places.lane(*node);
        put_lane(places, x, *stop, out)?;
        put_head(x, *node, out)?;
    }
    Ok(())
}

// Puts a lane down to the step in which its node stopped, where it did.
fn put_lane(
    places: &Places,
    x: u64,
    stop: Option<u64>,
    out: &mut List<u8>,
) -> Result<(), NoMemory> {
    let end = match stop {
        None => places.bottom,
        Some(step) => places.row(step),
    };
    put_line(b"lane", (x, TOP), (x, end), out)?;
    if stop.is_some() && end < places.bottom {
        put_cross((x, end), out)?;
    }
    Ok(())
}

// Puts a node's name above its lane.
fn put_head(x: u64, node: NodeId, out: &mut List<u8>) -> Result<(), NoMemory> {
    out.extend(b"<text class=\"name\"")?;
    put_numbered(b"x", x, out)?;
    put_numbered(b"y", TOP - 10, out)?;
    out.push(b'>')?;
    put_name(node, out)?;
    out.extend(b"</text>\n")
}

/// Puts a dot where a client was given a command, or time passed at a node and something came of it.
pub fn put_dots(places: &Places, moments: &[Moment], out: &mut List<u8>) -> Result<(), NoMemory> {
    let mut step = places.first;
    for moment in moments {
        if moment.shows
            && let Some(node) = moment.node
        {
            put_dot(places.lane(node), places.row(step), out)?;
        }
        step = step.saturating_add(1);
    }
    Ok(())
}

fn put_dot(x: u64, y: u64, out: &mut List<u8>) -> Result<(), NoMemory> {
    out.extend(b"<circle class=\"dot\"")?;
    put_numbered(b"cx", x, out)?;
    put_numbered(b"cy", y, out)?;
    out.extend(b" r=\"3\"/>\n")
}

/// Puts a band over the lanes that it fences: of a seal over its unit's, and of a new epoch over those of all servers.
pub fn put_bands(
    alloc: Global,
    places: &Places,
    bands: &[Band],
    out: &mut List<u8>,
) -> Result<(), NoMemory> {
    for band in bands {
        match band {
            Band::Sealed { step, unit, epoch } => {
                put_seal(places, places.row(*step), *unit, *epoch, out)?;
            }
            Band::Decided { step, epoch } => {
                put_decision(alloc, places, places.row(*step), *epoch, out)?;
            }
        }
    }
    Ok(())
}

// Puts the band of a unit's seal.
fn put_seal(
    places: &Places,
    y: u64,
    unit: NodeId,
    epoch: Epoch,
    out: &mut List<u8>,
) -> Result<(), NoMemory> {
    let x = places.lane(unit);
    put_band(b"seal", (x, x), y, out)?;
    out.extend(b"<title>")?;
    put_name(unit, out)?;
    out.extend(b" is sealed for epoch ")?;
    put_number(epoch, out)?;
    out.extend(b"</title></rect>\n")
}

// Puts the band of a decision on a layout, and its label.
fn put_decision(
    alloc: Global,
    places: &Places,
    y: u64,
    epoch: Epoch,
    out: &mut List<u8>,
) -> Result<(), NoMemory> {
    let lanes = servers_of(places);
    put_band(b"decided", lanes, y, out)?;
    out.extend(b"<title>the layout of epoch ")?;
    put_number(epoch, out)?;
    out.extend(b" is decided</title></rect>\n")?;
    put_epoch(
        alloc,
        (lanes.0.saturating_add(8), y.saturating_add(4)),
        epoch,
        out,
    )
}

// Puts an epoch as a label.
fn put_epoch(
    alloc: Global,
    at: (u64, u64),
    epoch: Epoch,
    out: &mut List<u8>,
) -> Result<(), NoMemory> {
    let mut label = List::new(alloc);
    label.extend(b"epoch ")?;
    put_number(epoch, &mut label)?;
    put_label(b"banded", at, label.as_slice(), LABEL, b"", out)
}

// Puts a band's rectangle, up to what is said of it.
fn put_band(class: &[u8], lanes: (u64, u64), y: u64, out: &mut List<u8>) -> Result<(), NoMemory> {
    let (left, right) = lanes;
    let width = right.saturating_sub(left).saturating_add(2 * REACH);
    open_rect(
        class,
        (left.saturating_sub(REACH), y.saturating_sub(9)),
        (width, 20),
        out,
    )?;
    out.push(b'>')
}

// Where the first server's lane stands, and the last one's.
fn servers_of(places: &Places) -> (u64, u64) {
    let mut left = places.width;
    let mut right = 0;
    for (node, x) in places.lanes.as_slice() {
        match node.role {
            Role::Client => {}
            _ => {
                left = left.min(*x);
                right = right.max(*x);
            }
        }
    }
    (left, right)
}
