//! What carries datagrams between nodes.

ghost use Rattle.std.specs.Prelude.{◌≡◌, ◌≤◌, ◌∷◌, [], ℕ, Bool, Option, None, List, length, IfOk, IfSome, OnOk, OnErr};
ghost use Rattle.tg_io.specs.Faults.{HasCause, StaysSure};
ghost use Rattle.tg_io.specs.Acts.{Act, Goes, Comes, IsOneList};
ghost use Rattle.tg_io.specs.Links.{Adds, arrival_of};
ghost use Rattle.tg_io.specs.declared.link.Arrival.{Arrival};
ghost use Rattle.tg_io.specs.declared.link.Sent.{Sent};

use crate::datagram::Datagram;
use crate::fault::IoErr;
use tg_base::NodeId;

/// A datagram that was sent.
#[derive(Drop)]
pub struct Sent {
    pub from: NodeId,
    pub to: NodeId,
    pub datagram: Datagram,
}

/// A datagram that came to a node.
#[derive(Drop)]
pub struct Arrival {
    pub to: NodeId,
    pub datagram: Datagram,
}

/// Carries datagrams between nodes, of which some are lost, come twice or come late.
pub trait Link {
    // how often it has failed; never falls
    ghost faults: { Self → ℕ };

    // the sends that succeeded, in order, where it tells
    ghost sent: { Self → Option (List Sent) };

    // the answers of `recv` that weren't errors, in order, where it tells
    ghost handed: { Self → Option (List (Option Arrival)) };

    // whether it is known never to fail again
    ghost sure: { Self → Bool };

    // what was done with it: the sends and the answers of `recv`, without the errors, as one list in their order, where
    // it tells
    ghost acts: { Self → Option (List Act) } = { λ _. None };

    /// Sends a datagram of at most 8,192 bytes. An `Err` has sent nothing; it is `Failed` only
    /// where the count of faults rose, and the count rises only at an `Err`.
    fn send(&mut self, from: NodeId, to: NodeId, datagram: &[u8]) -> Result<(), IoErr>
        requires { length datagram.now ≤ 8192 }
        ensures sent { OnOk result (Adds (sent self.old) (record { from = from; to = to; datagram = datagram.now }) (sent self.new)) }
        ensures kept { OnErr result (sent self.new ≡ sent self.old) }
        ensures handed { handed self.new ≡ handed self.old }
        ensures cause { HasCause (faults self.old) (faults self.new) result }
        ensures sure { StaysSure (sure self.old) (sure self.new) (faults self.old) (faults self.new) }
        ensures still { OnOk result (faults self.new ≡ faults self.old) }
        ensures act { OnOk result (Adds (acts self.old) (Goes (record { from = from; to = to; datagram = datagram.now })) (acts self.new)) }
        ensures no_act { OnErr result (acts self.new ≡ acts self.old) };

    /// The next datagram: the node to which it came, and how many bytes it put at the start of the
    /// buffer of 8,192 bytes. None where nothing is at hand. An `Err` hands nothing; it is `Failed`
    /// only where the count of faults rose, and the count rises only at an `Err`.
    fn recv(&mut self, buf: &mut [u8]) -> Result<Option<(NodeId, usize)>, IoErr>
        requires { length buf.old ≡ 8192 }
        ensures count { IfOk result (λ answer. IfSome answer (λ came. came.1 ≤ 8192)) }
        ensures handed { IfOk result (λ answer. Adds (handed self.old) (arrival_of answer buf.new) (handed self.new)) }
        ensures kept { OnErr result (handed self.new ≡ handed self.old) }
        ensures sent { sent self.new ≡ sent self.old }
        ensures cause { HasCause (faults self.old) (faults self.new) result }
        ensures sure { StaysSure (sure self.old) (sure self.new) (faults self.old) (faults self.new) }
        ensures still { IfOk result (λ _. faults self.new ≡ faults self.old) }
        ensures act { IfOk result (λ answer. Adds (acts self.old) (Comes (arrival_of answer buf.new)) (acts self.new)) }
        ensures no_act { OnErr result (acts self.new ≡ acts self.old) };

    // the sends and the answers are those of the one list, where it tells it
    ghost one_list: { (s : Self) → IsOneList (acts s) (sent s) (handed s) };
}
