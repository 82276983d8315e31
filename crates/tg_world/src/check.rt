//! Whether an event can be a step.

ghost use Rattle.std.specs.Prelude.{◌≡◌, ◌∷◌, [], Some, None, IfOk, IfErr};
ghost use Rattle.tg_kind.specs.Of.{meaning_of};
ghost use Rattle.tg_protocol.specs.Words.{client_id};
ghost use Rattle.tg_protocol.specs.Worlds as seen;
ghost use Rattle.tg_world.specs.Checks.{declares, no_node, no_packet, missing, fault_of};
ghost use Rattle.tg_world.specs.Kept.{KeepsWorld};

use crate::world::World;
use tg_base::{NodeId, Role, Which};
use tg_kind::Registry;
use tg_model::{Event, EventOf};

/// Why an event can't be a step.
#[derive(Clone, Copy, Debug, PartialEq, Eq)]
pub enum StepFault {
    /// The packet isn't sent yet; so many are.
    NoPacket { sent: u64 },
    /// The header doesn't declare the node.
    NoNode { node: NodeId },
    /// A limit is reached.
    Limit { which: Which },
}

impl<K: Registry> World<K> {
    /// Whether an event can be a step: its node is declared, its packet was sent, and no limit is reached. What the event
    /// names comes before the limits. It takes no memory.
    pub fn check(&self, event: &EventOf<K>) -> Result<(), StepFault>
        ensures fine { (w : seen.World (meaning_of K.Registry)) → KeepsWorld (meaning_of K.Registry) self.now w → IfOk result (λ _. fault_of (meaning_of K.Registry) w event.now ≡ None) }
        ensures fault { (w : seen.World (meaning_of K.Registry)) → KeepsWorld (meaning_of K.Registry) self.now w → IfErr result (λ f. fault_of (meaning_of K.Registry) w event.now ≡ Some f) }
    {
        match self.fault(event) {
            None => Ok(()),
            Some(fault) => Err(fault),
        }
    }

    // Why it can't.
    fn fault(&self, event: &EventOf<K>) -> Option<StepFault>
        ensures { (w : seen.World (meaning_of K.Registry)) → KeepsWorld (meaning_of K.Registry) self.now w → result ≡ fault_of (meaning_of K.Registry) w event.now }
    {
        match self.missing(event) {
            Some(fault) => Some(fault),
            None => match self.limit() {
                None => None,
                Some(which) => Some(StepFault::Limit { which }),
            },
        }
    }

    // What an event names that isn't there.
    fn missing(&self, event: &EventOf<K>) -> Option<StepFault>
        ensures { (w : seen.World (meaning_of K.Registry)) → KeepsWorld (meaning_of K.Registry) self.now w → result ≡ missing (meaning_of K.Registry) w event.now }
    {
        match event {
            Event::Command { client, .. } => self.no_node(NodeId {
                role: Role::Client,
                num: *client,
            }),
            Event::Deliver { packet } | Event::Lose { packet } => self.no_packet(*packet),
            Event::Tick { node } | Event::Stop { node } => self.no_node(*node),
        }
    }

    fn no_packet(&self, number: u64) -> Option<StepFault>
        ensures { (w : seen.World (meaning_of K.Registry)) → KeepsWorld (meaning_of K.Registry) self.now w → result ≡ no_packet (meaning_of K.Registry) w number }
    {
        let sent = self.sent();
        if number < sent {
            return None;
        }
        Some(StepFault::NoPacket { sent })
    }

    fn no_node(&self, node: NodeId) -> Option<StepFault>
        ensures { (w : seen.World (meaning_of K.Registry)) → KeepsWorld (meaning_of K.Registry) self.now w → result ≡ no_node (meaning_of K.Registry) w node }
    {
        if self.declares(node) {
            return None;
        }
        Some(StepFault::NoNode { node })
    }
}
