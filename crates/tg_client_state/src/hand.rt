//! What a client has in hand.

ghost use Rattle.std.specs.Prelude.{◌≡◌, IfOk};
ghost use Rattle.tg_kind.specs.Of.{meaning_of};
ghost use Rattle.tg_protocol.specs.Clients as told;
ghost use Rattle.tg_base.specs.declared.msg.Msg.TheVariants.{AskLatest};
ghost use Rattle.tg_protocol.specs.ClientSteps.{hand_again_asks};
ghost use Rattle.tg_protocol.specs.Requests.{asked_of};
ghost use Rattle.tg_protocol.specs.Words.{layout_id};
ghost use Rattle.tg_client_state.specs.Tasks.{KeepsHand, IsGivenFit};

use crate::paused::Paused;
use crate::task::Task;
use std::alloc::Global;
use tg_base::{List, Msg, NoMemory, Out, Projection, Rids, Role};
use tg_chain::ask_alike;
use tg_kind::Registry;

/// What a client has in hand: a machine, or requests for a newer layout, after which it goes on.
#[derive(Drop)]
pub enum Hand<K: Registry> {
    Doing {
        task: Box<Task<K>>,
    },
    /// The layout servers that are asked, each with the number of its request.
    Learning {
        waits: List<(u16, u64)>,
        paused: Box<Paused<K>>,
    },
}

/// The requests to layout servers for their latest layout. An `Err` is want of memory.
pub fn latest_requests(alloc: Global, waits: &[(u16, u64)]) -> Result<List<Out>, NoMemory>
    ensures { IfOk result (λ outs. outs ≡ asked_of layout_id AskLatest waits.now) }
{
    let mut outs = List::new(alloc);
    ask_alike(Role::Layout, &Msg::AskLatest, waits, &mut outs)?;
    Ok(outs)
}

impl<K: Registry> Hand<K> {
    /// What a tick sends of it. An `Err` is want of memory.
    pub fn again(
        &self,
        alloc: Global,
        stand: &Projection,
        rids: &mut Rids,
    ) -> Result<List<Out>, NoMemory>
        requires { IsGivenFit (meaning_of K.Registry) stand.now self.now }
        ensures asks { (h : told.Hand (meaning_of K.Registry)) → KeepsHand (meaning_of K.Registry) self.now h → IfOk result (λ outs. outs ≡ hand_again_asks (meaning_of K.Registry) stand.now h) }
        ensures rids { rids.new ≡ rids.old }
    {
        match self {
            Hand::Doing { task } => task.again(alloc, stand, rids),
            Hand::Learning { waits, .. } => {
                let _next = rids.next;
                latest_requests(alloc, waits.as_slice())
            }
        }
    }
}
