//! The packets of a world.

ghost use Rattle.std.specs.Prelude.{◌≡◌, ◌<◌, ◌∷◌, [], length, map, slice_get, option_copied, IfOk, OnOk, OnErr};
ghost use Rattle.tg_world_servers.specs.Posts.{new_post, packet_from, answer_from, posted, handed, lost, first_of, capped};

use crate::sizes::size;
use crate::waiting::Waiting;
use std::alloc::Global;
use std::marker::Model;
use tg_base::{List, Msg, NoMemory, NodeId, Out, Packet};

/// All packets that were ever sent, numbered from 0 in the order in which they were sent; which of them wait, and
/// which were delivered.
pub struct Post {
    packets: Vec<Packet>,
    waiting: Waiting,
    // The last one stands last.
    delivered: Vec<u64>,
    bytes: u64,
}

// By hand, since a derived drop is proved anew wherever a value is dropped.
impl Drop for Post {
    fn drop(self) {
        let Post {
            packets: _,
            waiting: _,
            delivered: _,
            bytes: _,
        } = self;
    }
}

impl Model for Post {
    ghost use Rattle.std.specs.Prelude.{reverse};
    ghost use Rattle.tg_world_servers.specs.Posts.{PostState, IsCounted, bytes_of};

    ghost Value = { PostState };

    ghost view = { λ s. record { packets = s.packets.items; waiting = s.waiting.numbers; delivered = reverse s.delivered.items; bytes = bytes_of s.packets.items } };

    ghost invariant = { λ s. IsCounted s.packets.items s.waiting.sent s.bytes };
}

impl Post {
    /// Nothing was sent. It takes no memory.
    pub fn new(alloc: Global) -> Post
        ensures { result ≡ new_post }
    {
        Post {
            packets: Vec::new(alloc),
            waiting: Waiting::new(alloc),
            delivered: Vec::new(alloc),
            bytes: 0,
        }
    }

    /// How many packets were sent. It takes no memory.
    pub fn sent(&self) -> u64
        ensures { result ≡ length self.now.packets }
    {
        self.packets.len() as u64
    }

    /// The packets that were sent, in order.
    pub fn packets(&self) -> &[Packet]
        ensures { result.now ≡ self.now.packets }
    {
        self.packets.as_slice()
    }

    /// The packet with a number: None exactly where it isn't sent yet. It takes no memory.
    pub fn packet(&self, number: u64) -> Option<&Packet>
        ensures { option_copied result ≡ slice_get self.now.packets number }
    {
        self.packets.get(number as usize)
    }

    /// The lowest packet that was neither delivered nor lost. It takes no memory.
    pub fn first_waiting(&self) -> Option<u64>
        ensures { result ≡ first_of self.now.waiting }
    {
        self.waiting.first()
    }

    /// How many bytes all packets take, and the greatest number where there are more. It takes no memory.
    pub fn bytes(&self) -> u64
        ensures { result ≡ capped self.now.bytes }
    {
        self.bytes
    }

    /// A packet is sent. An `Err` is want of memory, and changes nothing.
    pub fn send(&mut self, packet: Packet) -> Result<(), NoMemory>
        ensures ok { OnOk result (self.new ≡ posted self.old (packet ∷ [])) }
        ensures kept { OnErr result (self.new ≡ self.old) }
    {
        let bytes = self.bytes.saturating_add(size(&packet));
        self.packets.push(packet)?;
        match self.waiting.send() {
            Ok(()) => {
                self.bytes = bytes;
                Ok(())
            }
            Err(want) => {
                self.packets.pop();
                Err(want)
            }
        }
    }

    /// The answer of a node to another one is sent, if there is one. An `Err` is want of memory, and changes nothing.
    pub fn answer(
        &mut self,
        from: NodeId,
        to: NodeId,
        rid: u64,
        says: Option<Msg>,
    ) -> Result<(), NoMemory>
        ensures ok { OnOk result (self.new ≡ posted self.old (answer_from from to rid says)) }
        ensures kept { OnErr result (self.new ≡ self.old) }
    {
        match says {
            None => Ok(()),
            Some(msg) => self.send(Packet { from, to, rid, msg }),
        }
    }

    /// What a node sends, in order. An `Err` is want of memory; some of the packets may be among those sent then.
    pub fn send_all(&mut self, from: NodeId, outs: List<Out>) -> Result<(), NoMemory>
        ensures { OnOk result (self.new ≡ posted self.old (map (packet_from from) outs)) }
    {
        send_each(self, from, outs)
    }

    /// A packet is delivered, for the first time or again. An `Err` is want of memory, and changes nothing.
    pub fn hand(&mut self, number: u64) -> Result<(), NoMemory>
        ensures ok { OnOk result (self.new ≡ handed self.old number) }
        ensures kept { OnErr result (self.new ≡ self.old) }
    {
        self.delivered.push(number)?;
        self.waiting.end(number);
        Ok(())
    }

    /// A packet is lost. It takes no memory.
    pub fn lose(&mut self, number: u64)
        ensures { self.new ≡ lost self.old number }
    {
        self.waiting.end(number);
    }
}

// What a node sends, one after the other.
fn send_each(post: &mut Post, from: NodeId, outs: List<Out>) -> Result<(), NoMemory>
    ensures { OnOk result (post.new ≡ posted post.old (map (packet_from from) outs)) }
{
    if outs.is_empty() {
        return Ok(());
    }
    let mut others = outs;
    let Out { to, rid, msg } = others.remove(0);
    post.send(Packet { from, to, rid, msg })?;
    send_each(post, from, others)
}
