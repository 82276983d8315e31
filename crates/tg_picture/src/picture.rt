//! The picture.

use crate::fences::Band;
use crate::ways::Course;
use tg_base::{List, NodeId, Pos};

/// A step that is drawn. The first one of an event line has that line's words.
#[derive(Drop)]
pub struct Moment {
    pub line: u64,
    pub begins: Option<List<u8>>,
    /// The node that was given a command, or at which time passed.
    pub node: Option<NodeId>,
    /// How many replies were told in it.
    pub replies: u64,
    /// Whether anything is to be seen of it: something came, was lost, was sent or told, or a node stopped.
    pub shows: bool,
}

/// The course of a packet, with a short label and the whole message.
#[derive(Drop)]
pub struct Arrow {
    pub course: Course,
    pub label: List<u8>,
    pub whole: List<u8>,
}

/// A reply, as its line in the transcript.
#[derive(Drop)]
pub struct Reply {
    /// The step in which it was told, from 0.
    pub step: u64,
    pub client: u16,
    pub line: List<u8>,
}

/// What came of a position of the log.
#[derive(Clone, Copy, PartialEq, Eq)]
pub enum Standing {
    /// A commit record that is committed.
    Committed,
    /// A commit record that isn't.
    Aborted,
    /// A commit record that needs a decision record, and has none in the log.
    Undecided,
    /// A decision record.
    Decision,
    /// A checkpoint.
    Checkpoint,
    /// Junk, or a page that spells no entry.
    Junk,
}

/// A position of the log.
#[derive(Drop)]
pub struct LogBox {
    pub pos: Pos,
    pub standing: Standing,
    /// Whether a unit has said that the position is gone.
    pub trimmed: bool,
    /// Who wrote it, and what it says.
    pub by: List<u8>,
    pub says: List<u8>,
}

/// What a picture says.
#[derive(Drop)]
pub struct Picture {
    /// The nodes from left to right, each with the step in which it stopped.
    pub lanes: List<(NodeId, Option<u64>)>,
    /// The first step that is drawn, from 0.
    pub first: u64,
    pub moments: List<Moment>,
    pub arrows: List<Arrow>,
    pub replies: List<Reply>,
    pub bands: List<Band>,
    pub boxes: List<LogBox>,
    /// What else is to be said: what was left out, and how the run ended.
    pub notes: List<List<u8>>,
}
