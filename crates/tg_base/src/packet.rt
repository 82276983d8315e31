//! Packets, and the numbers of requests.

ghost use Rattle.std.specs.Prelude.{◌≡◌, ◌+◌, ◌<◌, ◌^◌, IfOk};

use crate::fault::NoMemory;
use crate::ids::NodeId;
use crate::msg::Msg;

/// A message on its way. An answer has the number of its request.
#[derive(Drop)]
pub struct Packet {
    pub from: NodeId,
    pub to: NodeId,
    pub rid: u64,
    pub msg: Msg,
}

impl Packet {
    /// An equal packet.
    pub fn copy(&self) -> Result<Packet, NoMemory>
        ensures { IfOk result (λ c. c ≡ self.now) }
    {
        Ok(Packet {
            from: self.from,
            to: self.to,
            rid: self.rid,
            msg: self.msg.copy()?,
        })
    }
}

/// A message that a node sends.
#[derive(Drop)]
pub struct Out {
    pub to: NodeId,
    pub rid: u64,
    pub msg: Msg,
}

impl Out {
    /// An equal message.
    pub fn copy(&self) -> Result<Out, NoMemory>
        ensures { IfOk result (λ c. c ≡ self.now) }
    {
        Ok(Out {
            to: self.to,
            rid: self.rid,
            msg: self.msg.copy()?,
        })
    }
}

/// The request numbers of one node, from 1.
#[derive(Clone, Copy, PartialEq, Eq)]
pub struct Rids {
    pub next: u64,
}

impl Rids {
    /// None is drawn yet.
    pub fn new() -> Rids
        ensures { result ≡ record { next = 1 } }
    {
        Rids { next: 1 }
    }

    /// A number that was never drawn before.
    pub fn draw(&mut self) -> u64
        requires { self.old.next < 2 ^ 63 }
        ensures number { result ≡ self.old.next }
        ensures next { self.new ≡ record { next = self.old.next + 1 } }
    {
        let number = self.next;
        self.next += 1;
        number
    }
}
