//! What comes to a node.

use tg_base::Packet;
use tg_kind::Kind;
use tg_model::Command;

/// What comes to a node.
#[derive(Drop)]
pub enum Input<O, Q> {
    Tick,
    /// A packet that was sent to it.
    Packet { packet: Packet },
    /// A command, which a client alone takes.
    Command { command: Command<O, Q> },
}

/// What comes to a node over the kind's objects.
pub type InputOf<K> = Input<<K as Kind>::Op, <K as Kind>::Ask>;
