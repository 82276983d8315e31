//! Beginnings of machines.

ghost use Rattle.std.specs.Prelude.{◌≡◌, ◌<◌, ◌≤◌, ◌+◌, ◌^◌, IfOk};
ghost use Rattle.tg_append.specs.Appends.{HasRoom};
ghost use Rattle.tg_protocol.specs.Appending.{append_asks, append_start};
ghost use Rattle.tg_protocol.specs.Requests.{Goes, drawn_from, turn};
ghost use Rattle.tg_protocol.specs.Syncing.{sync_asks, sync_start};
ghost use Rattle.tg_protocol.specs.Trimming.{trim_asks, trim_start};

use crate::state::State;
use std::alloc::Global;
use tg_append::{Append, Sync, has_room};
use tg_base::{List, NoMemory, Oid, Out, Pos, Rids};
use tg_chain::Next;
use tg_entry::Draft;
use tg_kind::Registry;
use tg_trim::Trims;

/// A machine that has begun, its requests, and the next request number.
#[derive(Drop)]
pub struct Begun<M> {
    pub machine: M,
    pub sends: List<Out>,
    pub rids: Rids,
}

impl<K: Registry> State<K> {
    /// An append begins. An `Err` is want of memory; and a draft whose page would have more than 4,096 bytes is
    /// given up.
    pub fn begun_append(&self, alloc: Global, draft: Draft) -> Result<Begun<Append>, NoMemory>
        requires { self.now.rids.next < 2 ^ 62 }
        ensures begun { IfOk result (λ b. append_start self.now.stand draft self.now.rids.next ≡ turn b.rids.next (Goes b.machine)) }
        ensures sends { IfOk result (λ b. b.sends ≡ drawn_from self.now.rids.next (append_asks self.now.stand b.machine)) }
        ensures drawn { IfOk result (λ b. b.rids.next ≤ self.now.rids.next + 1) }
    {
        if !has_room(&draft) {
            return Err(NoMemory);
        }
        self.asked_append(alloc, draft)
    }

    /// An append of a draft that a page holds begins.
    #[tactic(auto, using(crate::proofs::Drawn::token_from), unfolding(tg_protocol::specs::Appending::append_start))]
    fn asked_append(&self, alloc: Global, draft: Draft) -> Result<Begun<Append>, NoMemory>
        requires room { HasRoom draft }
        requires numbers { self.now.rids.next < 2 ^ 62 }
        ensures begun { IfOk result (λ b. append_start self.now.stand draft self.now.rids.next ≡ turn b.rids.next (Goes b.machine)) }
        ensures sends { IfOk result (λ b. b.sends ≡ drawn_from self.now.rids.next (append_asks self.now.stand b.machine)) }
        ensures drawn { IfOk result (λ b. b.rids.next ≤ self.now.rids.next + 1) }
    {
        let mut rids = self.parts.rids;
        let step = Append::start(alloc, &self.parts.stand, draft, &mut rids)?;
        let sends = step.outs;
        match step.next {
            Next::Goes { machine } => Ok(Begun {
                machine,
                sends,
                rids,
            }),
            _ => unreachable!(),
        }
    }

    /// A sync over these streams begins. An `Err` is want of memory.
    #[tactic(auto, using(crate::proofs::Drawn::check_from), unfolding(tg_protocol::specs::Syncing::sync_start))]
    pub fn begun_sync(&self, alloc: Global, oids: &List<Oid>) -> Result<Begun<Sync>, NoMemory>
        requires { self.now.rids.next < 2 ^ 62 }
        ensures begun { IfOk result (λ b. sync_start oids.now self.now.rids.next ≡ turn b.rids.next (Goes b.machine)) }
        ensures sends { IfOk result (λ b. b.sends ≡ drawn_from self.now.rids.next (sync_asks self.now.stand b.machine)) }
        ensures drawn { IfOk result (λ b. b.rids.next ≤ self.now.rids.next + 1) }
    {
        let mut rids = self.parts.rids;
        let oids = oids.clone()?;
        let step = Sync::start(alloc, &self.parts.stand, oids, &mut rids)?;
        let sends = step.outs;
        match step.next {
            Next::Goes { machine } => Ok(Begun {
                machine,
                sends,
                rids,
            }),
            _ => unreachable!(),
        }
    }

    /// A trim of all units below a position begins. An `Err` is want of memory.
    #[tactic(auto, using(crate::proofs::Drawn::trims_from), unfolding(tg_protocol::specs::Trimming::trim_start))]
    pub fn begun_trims(&self, alloc: Global, below: Pos) -> Result<Begun<Trims>, NoMemory>
        requires { self.now.rids.next < 2 ^ 62 }
        ensures begun { IfOk result (λ b. trim_start self.now.stand below self.now.rids.next ≡ turn b.rids.next (Goes b.machine)) }
        ensures sends { IfOk result (λ b. b.sends ≡ drawn_from self.now.rids.next (trim_asks self.now.stand b.machine)) }
        ensures drawn { IfOk result (λ b. b.rids.next ≤ self.now.rids.next + 64) }
    {
        let mut rids = self.parts.rids;
        let step = Trims::start(alloc, &self.parts.stand, below, &mut rids)?;
        let sends = step.outs;
        match step.next {
            Next::Goes { machine } => Ok(Begun {
                machine,
                sends,
                rids,
            }),
            _ => unreachable!(),
        }
    }
}
