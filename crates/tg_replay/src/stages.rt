//! What reading a script has come to.

use tg_any::AnyKind;
use tg_base::{Cluster, Which};
use tg_world::World;

/// The world of the lines that were read.
#[derive(Drop)]
pub struct Run {
    pub cluster: Cluster,
    /// Its number of events is that of the event lines which were read.
    pub world: World<AnyKind>,
}

/// How reading ended.
#[derive(Clone, Copy, PartialEq, Eq)]
pub enum End {
    /// The text was read to its end.
    Whole,
    /// A line is outside.
    Outside { line: u64 },
    /// A limit is reached.
    Limited { which: Which },
}

/// How reading ended, and the run that is to be printed, if a header was read.
#[derive(Drop)]
pub struct Finish {
    pub end: End,
    pub run: Option<Run>,
}

/// What comes of a line: reading goes on, or it has ended.
#[derive(Drop)]
pub enum Fed {
    Goes(Run),
    Stops(Finish),
}
