//! What clients are told to do, and the events of a run.

ghost use Rattle.std.specs.Prelude.{◌≡◌};
ghost use Rattle.tg_model.specs.Words.{word_of};

use tg_base::{Change, NodeId, Oid, Pos};

/// The word of a command.
#[derive(Clone, Copy, PartialEq, Eq)]
pub enum Word {
    Host,
    Begin,
    Put,
    Ask,
    End,
    Drop,
    Fate,
    Decide,
    Checkpoint,
    Forget,
    Trim,
    Reconf,
    Copy,
    AskAt,
    Rescue,
}

/// What a client is told to do.
#[derive(Drop)]
pub enum Command<Op, Ask> {
    /// Plays the object from now on.
    Host {
        oid: Oid,
    },
    /// Opens a transaction.
    Begin,
    /// Buffers a write in the open transaction.
    Put {
        oid: Oid,
        op: Op,
    },
    /// Asks a hosted object in the open transaction.
    Ask {
        oid: Oid,
        ask: Ask,
    },
    /// Asks for the open transaction to commit.
    End,
    /// Gives up the open transaction.
    Drop,
    /// Asks whether the record at this position is committed.
    Fate {
        at: Pos,
    },
    /// Writes the decision of the record at this position where it has none.
    Decide {
        at: Pos,
    },
    /// Writes a hosted object's state into the log.
    Checkpoint {
        oid: Oid,
    },
    /// Declares that nobody needs the object's entries below the mark.
    Forget {
        oid: Oid,
        mark: Pos,
    },
    /// Lets the units drop what the marks of all objects allow.
    Trim,
    /// Puts the next layout in place.
    Reconf {
        change: Change,
    },
    /// Brings a stripe's cells to a spare unit; range and stripe count from 0.
    Copy {
        unit: u16,
        range: usize,
        stripe: usize,
    },
    /// Asks a hosted object as it stood at this position.
    AskAt {
        at: Pos,
        oid: Oid,
        ask: Ask,
    },
    /// Decides the record at this position though its objects aren't hosted here.
    Rescue {
        at: Pos,
    },
}

impl<Op, Ask> Command<Op, Ask> {
    /// The command's word. It takes no memory.
    pub fn word(&self) -> Word
        ensures { result ≡ word_of self.now }
    {
        match self {
            Command::Host { .. } => Word::Host,
            Command::Begin => Word::Begin,
            Command::Put { .. } => Word::Put,
            Command::Ask { .. } => Word::Ask,
            Command::End => Word::End,
            Command::Drop => Word::Drop,
            Command::Fate { .. } => Word::Fate,
            Command::Decide { .. } => Word::Decide,
            Command::Checkpoint { .. } => Word::Checkpoint,
            Command::Forget { .. } => Word::Forget,
            Command::Trim => Word::Trim,
            Command::Reconf { .. } => Word::Reconf,
            Command::Copy { .. } => Word::Copy,
            Command::AskAt { .. } => Word::AskAt,
            Command::Rescue { .. } => Word::Rescue,
        }
    }
}

/// One input to one node.
#[derive(Drop)]
pub enum Event<Op, Ask> {
    /// A client is given a command.
    Command { client: u16, cmd: Command<Op, Ask> },
    /// A packet that was sent arrives, for the first time or again. Packets count from 0, in the order in
    /// which they were sent.
    Deliver { packet: u64 },
    /// A packet that was sent is lost. It may still be delivered by its number.
    Lose { packet: u64 },
    /// A node sends again what is outstanding.
    Tick { node: NodeId },
    /// A node stops for good.
    Stop { node: NodeId },
}
