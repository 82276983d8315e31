//! A newer layout is learnt from the layout servers.

ghost use Rattle.std.specs.Prelude.{ℕ, ◌≡◌, ◌<◌, ◌≤◌, ◌+◌, ◌^◌, false, IfOk, IsOk, OnOk, OnErr};
ghost use Rattle.tg_base.specs.declared.msg.Msg.TheVariants.{Latest};
ghost use Rattle.tg_protocol.specs.Replies.{reply};
ghost use Rattle.tg_protocol.specs.Requests.{passes, waits_for};
ghost use Rattle.tg_base.specs.Orders.{node_eq};
ghost use Rattle.tg_protocol.specs.Words.{layout_id, numbers};
ghost use Rattle.tg_chain.specs.Turns.{shown, by_rules};
ghost use Rattle.tg_chain.specs.Learns.{learn, learn_asks, learn_feed, tells_newer};

use crate::ends::LearnEnd;
use crate::waits::{ask_alike, ask_from};
use std::alloc::Global;
use std::marker::Model;
use tg_base::{List, Msg, NoMemory, NodeId, Out, Projection, Rids, Role, Stand, Turn};

/// Asks all layout servers for the latest layout, until one of them tells a newer one.
pub struct Learn {
    stand: Stand,
    waits: List<(u16, u64)>,
}

// By hand, since a derived drop is proved anew wherever a value is dropped.
impl Drop for Learn {
    fn drop(self) {
        let Learn { stand: _, waits: _ } = self;
    }
}

impl Model for Learn {
    ghost use Rattle.tg_chain.specs.Learns.{Learning};

    ghost Value = { Learning };

    ghost view = { λ m. record { stand = m.stand; waits = m.waits } };
}

impl Learn {
    /// Asks each layout server, rising.
    #[tactic(auto, using(crate::proofs::Outs::learn_drawn))]
    pub fn start(
        alloc: Global,
        stand: Stand,
        rids: &mut Rids,
    ) -> Result<Turn<Learn, LearnEnd>, NoMemory>
        requires { rids.old.next < 2 ^ 62 }
        ensures turn { IfOk result (λ t. shown (λ e. e) t rids.new.next ≡ by_rules learn_asks rids.old.next (learn stand rids.old.next)) }
        ensures err { OnErr result (rids.new ≡ rids.old) }
        ensures drawn { rids.new.next ≤ rids.old.next + stand.layouts }
    {
        let mut drawn = *rids;
        let waits = wait_for(alloc, stand.layouts, &mut drawn)?;
        let machine = Learn { stand, waits };
        let outs = machine.again(alloc, rids)?;
        *rids = drawn;
        Ok(Turn::More { machine, outs })
    }

    /// Takes a newer layout from any layout server, whatever the number, and passes every other message by.
    /// Layouts with an epoch of 2^32 or more are passed by.
    #[tactic(auto, unfolding(crate::specs::Learns::learn_feed, tg_protocol::specs::Replies::reply))]
    pub fn feed(
        self,
        alloc: Global,
        from: NodeId,
        rid: u64,
        msg: &Msg,
        rids: &mut Rids,
    ) -> Result<Turn<Learn, LearnEnd>, NoMemory>
        ensures turn { IfOk result (λ t. (n : ℕ) → shown (λ e. e) t n ≡ by_rules learn_asks n (learn_feed self from msg.now n)) }
        ensures free { tells_newer self from (reply msg.now) ≡ false → IsOk result }
        ensures drawn { rids.new ≡ rids.old }
    {
        match msg {
            Msg::Latest { proj } => self.hear(alloc, from, proj),
            _ => Ok(self.stay(alloc)),
        }
    }

    /// The requests once more, in the order in which they were first sent.
    pub fn again(&self, alloc: Global, rids: &mut Rids) -> Result<List<Out>, NoMemory>
        ensures asks { IfOk result (λ outs. outs ≡ learn_asks self.now) }
        ensures rids { rids.new ≡ rids.old }
    {
        let mut outs = List::new(alloc);
        ask_alike(
            Role::Layout,
            &Msg::AskLatest,
            self.waits.as_slice(),
            &mut outs,
        )?;
        Ok(outs)
    }
}

/// Each layout server draws the next number.
fn wait_for(alloc: Global, layouts: u16, rids: &mut Rids) -> Result<List<(u16, u64)>, NoMemory>
    requires { rids.old.next + layouts < 2 ^ 63 }
    ensures waits { IfOk result (λ waits. waits ≡ waits_for (numbers layouts 0) rids.old.next) }
    ensures next { OnOk result (rids.new.next ≡ rids.old.next + layouts) }
{
    let mut waits = List::new(alloc);
    ask_from(0, layouts, rids, &mut waits)?;
    Ok(waits)
}

/// Whether the node is a layout server.
fn is_layout_server(node: NodeId) -> bool
    ensures { result ≡ node_eq node (layout_id node.num) }
{
    let server = NodeId {
        role: Role::Layout,
        num: node.num,
    };
    node.is_same(server)
}

impl Learn {
    /// A message is passed by.
    #[tactic(auto, using(crate::proofs::Outs::none_drawn))]
    fn stay(self, alloc: Global) -> Turn<Learn, LearnEnd>
        ensures { (n : ℕ) → shown (λ e. e) result n ≡ by_rules learn_asks n (passes n self) }
    {
        Turn::More {
            machine: self,
            outs: List::new(alloc),
        }
    }

    /// A node tells this layout.
    #[tactic(auto, unfolding(crate::specs::Learns::learn_feed, tg_protocol::specs::Replies::reply))]
    fn hear(
        self,
        alloc: Global,
        from: NodeId,
        proj: &Projection,
    ) -> Result<Turn<Learn, LearnEnd>, NoMemory>
        ensures turn { IfOk result (λ t. (n : ℕ) → shown (λ e. e) t n ≡ by_rules learn_asks n (learn_feed self from (Latest proj.now) n)) }
        ensures free { tells_newer self from (reply (Latest proj.now)) ≡ false → IsOk result }
    {
        let far = proj.epoch >= 1 << 32;
        if far || !is_layout_server(from) || proj.epoch <= self.stand.proj.epoch {
            return Ok(self.stay(alloc));
        }
        let layouts = self.stand.layouts;
        let proj = proj.copy()?;
        let stand = Stand { proj, layouts };
        Ok(Turn::End {
            end: LearnEnd::Known { stand },
            outs: List::new(alloc),
        })
    }
}
