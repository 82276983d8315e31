//! A node by itself.

ghost use Rattle.std.specs.Prelude.{◌≡◌, ◌+◌, ℕ, [], IfOk};
ghost use Rattle.tg_kind.specs.Of.{meaning_of};
ghost use Rattle.tg_node_state.specs.Nodes.{Node, node_start, node_takes, node_ticks, node_commands, node_step};
ghost use Rattle.tg_node_state.specs.Kept.{KeepsNode, KeepsTurn, IsNode};

use crate::clients::{client_commands, client_takes, client_ticks, new_client};
use crate::input::{Input, InputOf};
use crate::servers::{
    layout_takes, new_layout, new_seqr, new_unit, seqr_takes, seqr_ticks, unit_takes,
};
use std::alloc::Global;
use tg_base::{Cluster, List, NoMemory, NodeId, Out, Packet, Role};
use tg_client::Client;
use tg_kind::Registry;
use tg_layout::Layout;
use tg_model::{CommandOf, NoteOf};
use tg_seqr::Seqr;
use tg_unit::Unit;

/// A node.
///
/// Each clause speaks of any node of the rules that this one keeps.
#[derive(Drop)]
pub enum Own<K: Registry> {
    Unit(Unit),
    Layout(Layout),
    Seqr(Seqr),
    Client(Client<K>),
}

/// A node after a step, with what it sends and what it replies.
#[derive(Drop)]
pub struct Stepped<K: Registry> {
    pub own: Own<K>,
    pub sends: List<Out>,
    pub notes: List<NoteOf<K>>,
}

impl<K: Registry> Own<K> {
    /// The node that a header declares, before its first step. An `Err` is want of memory.
    pub fn start(alloc: Global, cluster: &Cluster, node: NodeId) -> Result<Own<K>, NoMemory>
        ensures { (steps : ℕ) → IfOk result (λ k. KeepsNode (meaning_of K.Registry) steps k (node_start (meaning_of K.Registry) cluster.now node)) }
    {
        match node.role {
            Role::Unit => Ok(new_unit(alloc, node.num)),
            Role::Layout => new_layout(alloc, cluster),
            Role::Seqr => new_seqr(alloc, cluster, node.num),
            Role::Client => new_client(alloc, cluster, node.num),
        }
    }

    /// The node after what comes to it. An `Err` is want of memory; nothing is left of it then.
    #[tactic(auto, unfolding(crate::specs::Nodes::node_step))]
    pub fn step(self, alloc: Global, input: InputOf<K>) -> Result<Stepped<K>, NoMemory>
        requires { IsNode (meaning_of K.Registry) 199999 self }
        ensures { (steps : ℕ) (n : Node (meaning_of K.Registry)) → KeepsNode (meaning_of K.Registry) steps self n → IfOk result (λ t. KeepsTurn (meaning_of K.Registry) (steps + 1) t (node_step (meaning_of K.Registry) n input)) }
    {
        match input {
            Input::Tick => self.tick(alloc),
            Input::Packet { packet } => self.deliver(alloc, &packet),
            Input::Command { command } => self.command(alloc, command),
        }
    }

    // The node after a packet that was sent to it. An `Err` is want of memory; nothing is left of it then.
    fn deliver(self, alloc: Global, packet: &Packet) -> Result<Stepped<K>, NoMemory>
        requires { IsNode (meaning_of K.Registry) 199999 self }
        ensures { (steps : ℕ) (n : Node (meaning_of K.Registry)) → KeepsNode (meaning_of K.Registry) steps self n → IfOk result (λ t. KeepsTurn (meaning_of K.Registry) (steps + 1) t (node_takes (meaning_of K.Registry) n packet.now)) }
    {
        match self {
            Own::Unit(unit) => unit_takes(alloc, unit, packet),
            Own::Layout(layout) => layout_takes(alloc, layout, packet),
            Own::Seqr(seqr) => seqr_takes(alloc, seqr, packet),
            Own::Client(client) => client_takes(alloc, client, packet),
        }
    }

    // The node after a tick. An `Err` is want of memory; nothing is left of it then.
    fn tick(self, alloc: Global) -> Result<Stepped<K>, NoMemory>
        requires { IsNode (meaning_of K.Registry) 199999 self }
        ensures { (steps : ℕ) (n : Node (meaning_of K.Registry)) → KeepsNode (meaning_of K.Registry) steps self n → IfOk result (λ t. KeepsTurn (meaning_of K.Registry) (steps + 1) t (node_ticks (meaning_of K.Registry) n)) }
    {
        match self {
            Own::Unit(unit) => Ok(Stepped::still(alloc, Own::Unit(unit))),
            Own::Layout(layout) => Ok(Stepped::still(alloc, Own::Layout(layout))),
            Own::Seqr(seqr) => seqr_ticks(alloc, seqr),
            Own::Client(client) => client_ticks(alloc, client),
        }
    }

    // The node after a command, which a client alone takes. An `Err` is want of memory; nothing is left of it then.
    fn command(self, alloc: Global, command: CommandOf<K>) -> Result<Stepped<K>, NoMemory>
        requires { IsNode (meaning_of K.Registry) 199999 self }
        ensures { (steps : ℕ) (n : Node (meaning_of K.Registry)) → KeepsNode (meaning_of K.Registry) steps self n → IfOk result (λ t. KeepsTurn (meaning_of K.Registry) (steps + 1) t (node_commands (meaning_of K.Registry) n command)) }
    {
        match self {
            Own::Unit(unit) => Ok(Stepped::still(alloc, Own::Unit(unit))),
            Own::Layout(layout) => Ok(Stepped::still(alloc, Own::Layout(layout))),
            Own::Seqr(seqr) => Ok(Stepped::still(alloc, Own::Seqr(seqr))),
            Own::Client(client) => client_commands(alloc, client, command),
        }
    }
}

impl<K: Registry> Stepped<K> {
    /// Nothing is sent, and nothing is replied. It takes no memory.
    pub(crate) fn still(alloc: Global, own: Own<K>) -> Stepped<K>
        ensures own { result.own ≡ own }
        ensures sends { result.sends ≡ [] }
        ensures notes { result.notes ≡ [] }
    {
        Stepped::sent(alloc, own, List::new(alloc))
    }

    /// Nothing is replied. It takes no memory.
    pub(crate) fn sent(alloc: Global, own: Own<K>, sends: List<Out>) -> Stepped<K>
        ensures own { result.own ≡ own }
        ensures sends { result.sends ≡ sends }
        ensures notes { result.notes ≡ [] }
    {
        Stepped {
            own,
            sends,
            notes: List::new(alloc),
        }
    }
}
