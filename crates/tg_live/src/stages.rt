//! What a live run has come to.

use crate::live::Live;
use tg_base::NoMemory;
use tg_replay::End;

/// A live run of the lines that were read.
#[derive(Drop)]
pub struct Running {
    pub live: Live,
    /// How many event lines were read.
    pub lines: u64,
}

/// How a run ended, and what is to be printed, if a header was read.
#[derive(Drop)]
pub struct Finish {
    pub end: End,
    pub live: Option<Live>,
}

/// What comes of a line: the run goes on, or it has ended.
#[derive(Drop)]
pub enum Fed {
    Goes(Running),
    Stops(Finish),
}

/// What ends a run without its output.
#[derive(Clone, Copy, Debug, PartialEq, Eq)]
pub enum Stop {
    /// The source failed.
    Read,
    /// The link failed.
    Carry,
    NoMemory,
}

impl From<NoMemory> for Stop {
    ghost use Rattle.std.specs.Prelude.{◌≡◌};
    ghost use Rattle.tg_live.specs.declared.stages.Stop.TheVariants.{NoMemory};

    ghost from_gives = { λ _ e. e ≡ NoMemory };

    fn from(_e: NoMemory) -> Stop {
        Stop::NoMemory
    }
}
