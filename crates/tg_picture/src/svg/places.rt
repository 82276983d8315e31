//! Where the parts of a picture stand.

ghost use Rattle.std.specs.Prelude.{◌≡◌};
ghost use Rattle.tg_picture.specs.Elements.{lane, row};

use crate::svg::replies::{REPLY, words_of};
use crate::svg::tags::{LETTER, width_of};
use crate::{Moment, Picture, Reply};
use std::alloc::Global;
use tg_base::{List, NoMemory, NodeId, Role};

/// How many letters of an event line fit.
pub const EVENT: usize = 40;
/// How many letters of a label fit.
pub const LABEL: usize = 16;
/// Where the lanes begin.
pub const TOP: u64 = 36;

const ROW: u64 = 26;

const REPLY_ROW: u64 = 14;
// Between the lanes of two servers, and between clients and servers.
const BETWEEN: u64 = 136;

/// Where lanes and steps stand.
#[derive(Drop)]
pub struct Places {
    /// Of each lane.
    pub lanes: List<(NodeId, u64)>,
    /// Of each step that is drawn.
    pub rows: List<u64>,
    pub first: u64,
    /// Where the lanes end.
    pub bottom: u64,
    pub width: u64,
}

/// Where the parts of a picture stand. An `Err` is want of memory.
pub fn places_of(alloc: Global, picture: &Picture) -> Result<Places, NoMemory> {
    let (lanes, width) = lanes_of(alloc, picture)?;
    let (rows, bottom) = rows_of(alloc, picture.moments.as_slice())?;
    Ok(Places {
        lanes,
        rows,
        first: picture.first,
        bottom,
        width,
    })
}

// The lanes from left to right, and how wide all is.
fn lanes_of(alloc: Global, picture: &Picture) -> Result<(List<(NodeId, u64)>, u64), NoMemory> {
    let mut lanes = List::new(alloc);
    let mut x = events_width(picture.moments.as_slice());
    let mut servers = false;
    for (node, _) in picture.lanes.as_slice() {
        let gap = match node.role {
            Role::Client => replies_width(picture.replies.as_slice(), node.num),
            _ => { if servers { BETWEEN } else { BETWEEN + 20 } }
        };
        servers = !is_client(*node);
        x = x.saturating_add(gap);
        lanes.push((*node, x))?;
    }
    Ok((lanes, x.saturating_add(BETWEEN)))
}

fn is_client(node: NodeId) -> bool {
    match node.role {
        Role::Client => true,
        _ => false,
    }
}

// How wide the column of the event lines is.
fn events_width(moments: &[Moment]) -> u64 {
    let mut widest = 0;
    for moment in moments {
        if let Some(text) = &moment.begins {
            widest = widest.max(width_of(text.as_slice(), EVENT));
        }
    }
    widest.saturating_add(24)
}

// How wide the column of a client's replies is.
fn replies_width(replies: &[Reply], client: u16) -> u64 {
    let mut widest = 6 * LETTER;
    for reply in replies {
        if reply.client == client {
            widest = widest.max(width_of(words_of(reply.line.as_slice()), REPLY));
        }
    }
    widest.saturating_add(32)
}

// The rows of the steps, and where the last one ends. A step of which nothing is to be seen has no row of its own.
fn rows_of(alloc: Global, moments: &[Moment]) -> Result<(List<u64>, u64), NoMemory> {
    let mut rows = List::new(alloc);
    let mut y = TOP + ROW;
    for moment in moments {
        rows.push(y)?;
        y = y.saturating_add(height_of(moment));
    }
    Ok((rows, y))
}

// How high the row of a step is.
fn height_of(moment: &Moment) -> u64 {
    if !moment.shows {
        return 0;
    }
    let replies = REPLY_ROW.saturating_mul(moment.replies).saturating_add(8);
    ROW.max(replies)
}

impl Places {
    /// Where a node's lane stands.
    #[tactic(auto, unfolding(crate::specs::Elements::lane))]
    pub fn lane(&self, node: NodeId) -> u64
        ensures { result ≡ lane self.now node }
    {
        match self
            .lanes
            .as_slice()
            .iter()
            .find(|lane| node.is_same(lane.0))
        {
            Some(lane) => lane.1,
            None => 0,
        }
    }

    /// Where a step stands: one before those that are drawn stands at the top, and one after them at the bottom.
    #[tactic(auto, unfolding(crate::specs::Elements::row))]
    pub fn row(&self, step: u64) -> u64
        ensures { result ≡ row self.now step }
    {
        if step < self.first {
            return TOP;
        }
        match self.rows.as_slice().get((step - self.first) as usize) {
            Some(y) => *y,
            None => self.bottom,
        }
    }
}
