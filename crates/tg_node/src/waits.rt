//! What comes to a node over its link.

ghost use Rattle.std.specs.Prelude.{◌≡◌, ◌+◌, ◌<◌, ◌∷◌, [], Option, IfOk, OnErr};
ghost use Rattle.tg_io.specs.Faults.{HasCause, StaysSure};
ghost use Rattle.tg_io.specs.Links.{Adds};
ghost use Rattle.tg_io.specs.declared.link.Arrival.{Arrival};
ghost use Rattle.tg_node.specs.declared.asked.Asked.TheVariants.{Wait};
ghost use Rattle.tg_node.specs.Steps.{IsSound, TakesOne, TookLine, Does, BreaksLine, asked_acts};

use crate::nodes::{MOST_DATAGRAMS, Moved, Node, Place};
use std::alloc::Global;
use tg_base::Which;
use tg_io::{IoErr, Link};
use tg_link_packets::{Came, receive};
use tg_node_state::Input;

impl Node {
    /// So many calls of `recv`, as far as the limits allow. Each packet to the node is a step, and other datagrams are
    /// passed by.
    ///
    /// An `Err` is a fault of the link, or want of memory.
    pub fn wait<L: Link>(
        self,
        alloc: Global,
        place: Place,
        link: &mut L,
        calls: u32,
    ) -> Result<Moved, IoErr>
        requires { IsSound self }
        ensures took { IfOk result (λ m. TookLine place (Wait calls) (L.handed link.old) self (L.sent link.old) m (L.handed link.new) (L.sent link.new) (L.acts link.old) (L.acts link.new)) }
        ensures breaks { OnErr result (BreaksLine place (Wait calls) self (L.sent link.old) (L.acts link.old) (L.acts link.new)) }
        ensures cause { HasCause (L.faults link.old) (L.faults link.new) result }
        ensures still { IfOk result (λ _. L.faults link.new ≡ L.faults link.old) }
        ensures sure { StaysSure (L.sure link.old) (L.sure link.new) (L.faults link.old) (L.faults link.new) }
    {
        let mut node = self;
        for _call in 0..calls {
            if node.received >= MOST_DATAGRAMS {
                return Ok(Moved::at(node, Which::Datagrams));
            }
            let moved = node.take_next(alloc, place, link)?;
            if moved.stopped.is_some() {
                return Ok(moved);
            }
            node = moved.node;
        }
        Ok(Moved::on(node))
    }

    // One call of `recv`.
    fn take_next<L: Link>(self, alloc: Global, place: Place, link: &mut L) -> Result<Moved, IoErr>
        requires sound { IsSound self }
        requires few { self.received < 1000000 }
        ensures took { IfOk result (λ m. (a : Option Arrival) × Adds (L.handed link.old) a (L.handed link.new) × TakesOne place a self (L.sent link.old) m (L.sent link.new) × Does self (L.sent link.old) (asked_acts place self (Wait 1) (a ∷ [])) (L.acts link.old) (L.acts link.new)) }
        ensures breaks { OnErr result (BreaksLine place (Wait 1) self (L.sent link.old) (L.acts link.old) (L.acts link.new)) }
        ensures cause { HasCause (L.faults link.old) (L.faults link.new) result }
        ensures still { IfOk result (λ _. L.faults link.new ≡ L.faults link.old) }
        ensures sure { StaysSure (L.sure link.old) (L.sure link.new) (L.faults link.old) (L.faults link.new) }
    {
        match receive(alloc, place.node, link)? {
            Came::Nothing => Ok(Moved::on(self)),
            Came::Stranger => Ok(Moved::on(self.counted())),
            Came::Taken { packet } => {
                self.counted()
                    .make(alloc, place, link, Input::Packet { packet })
            }
        }
    }

    // One datagram more was handed. It takes no memory.
    fn counted(self) -> Node
        requires { self.received < 1000000 }
        ensures { result ≡ record { own = self.own; steps = self.steps; received = self.received + 1; replies = self.replies } }
    {
        let Node {
            own,
            steps,
            received,
            replies,
        } = self;
        Node {
            own,
            steps,
            received: received + 1,
            replies,
        }
    }
}
