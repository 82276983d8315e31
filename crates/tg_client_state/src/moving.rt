//! The command waits on.

ghost use Rattle.std.specs.Prelude.{◌≡◌, ℕ, ◌+◌, ◌<◌, ◌^◌, [], max, List, IfOk, Some};
ghost use Rattle.tg_base.specs.declared.packet.Out.{Out};
ghost use Rattle.tg_kind.specs.Of.{meaning_of};
ghost use Rattle.tg_base.specs.declared.msg.Msg.TheVariants.{AskLatest};
ghost use Rattle.tg_protocol.specs.Answers.{moved};
ghost use Rattle.tg_protocol.specs.Requests.{waits_for, asked_of};
ghost use Rattle.tg_protocol.specs.Words.{layout_id, numbers};
ghost use Rattle.tg_client_state.specs.declared.hand.Hand.TheVariants.{Learning};
ghost use Rattle.tg_protocol.specs.Clients as told;
ghost use Rattle.tg_protocol.specs.ClientSteps as steps;
ghost use Rattle.tg_client_state.specs.Tasks.{told_task};
ghost use Rattle.tg_client_state.specs.States.{Rest, client_of, KeepsClient, KeepsMoved};
ghost use Rattle.tg_client_state.specs.Moves.{Holds, Carries, Leaves};

use crate::hand::latest_requests;
use crate::{Hand, Job, Moved, Paused, State, Task, Work};
use std::alloc::Global;
use tg_base::{List, NoMemory, Out, Pos, Rids};
use tg_chain::ask_servers;
use tg_kind::Registry;

/// The machine goes on, and the command waits with it. An `Err` is want of memory.
pub fn goes_on<K: Registry>(
    state: State<K>,
    alloc: Global,
    job: Job<K>,
    task: Task<K>,
    sends: List<Out>,
) -> Result<Moved<K>, NoMemory>
    ensures { (r : Rest (meaning_of K.Registry)) (w : told.Work (meaning_of K.Registry)) (old : ℕ) (besides : List Out) → Holds (meaning_of K.Registry) state job r w old → Carries (meaning_of K.Registry) state (told_task (meaning_of K.Registry) task) old besides sends → IfOk result (λ x. KeepsMoved (meaning_of K.Registry) old x (steps.goes_on (meaning_of K.Registry) (client_of (meaning_of K.Registry) state r) w (told_task (meaning_of K.Registry) task) besides)) }
{
    let task = Box::new(alloc, task)?;
    let hand = Hand::Doing { task };
    let work = Some(Work { job, hand });
    Ok(Moved {
        state,
        work,
        sends,
        notes: List::new(alloc),
    })
}

/// Requests for a newer layout, with the servers that are asked and the next request number.
#[derive(Drop)]
struct Asked {
    waits: List<(u16, u64)>,
    sends: List<Out>,
    rids: Rids,
}

/// All layout servers are asked for a newer layout.
fn asks_servers(alloc: Global, layouts: u16, rids: Rids) -> Result<Asked, NoMemory>
    requires { rids.next < 2 ^ 62 }
    ensures waits { IfOk result (λ a. a.waits ≡ waits_for (numbers layouts 0) rids.next) }
    ensures sends { IfOk result (λ a. a.sends ≡ asked_of layout_id AskLatest a.waits) }
    ensures next { IfOk result (λ a. a.rids.next ≡ rids.next + layouts) }
{
    let mut rids = rids;
    let waits = ask_servers(alloc, layouts, &mut rids)?;
    let sends = latest_requests(alloc, waits.as_slice())?;
    Ok(Asked { waits, sends, rids })
}

/// The command waits for a newer layout, in which this goes on.
fn waits_for_layout<K: Registry>(
    state: State<K>,
    alloc: Global,
    job: Job<K>,
    paused: Box<Paused<K>>,
    asked: Asked,
) -> Moved<K>
    ensures { result ≡ record { state = record state { rids = asked.rids }; work = Some (record { job = job; hand = Learning asked.waits paused }); sends = asked.sends; notes = [] } }
{
    let Asked { waits, sends, rids } = asked;
    let hand = Hand::Learning { waits, paused };
    let mut state = state;
    state.parts.rids = rids;
    Moved {
        state,
        work: Some(Work { job, hand }),
        sends,
        notes: List::new(alloc),
    }
}

/// All layout servers are asked for a newer layout, in which the machine goes on. An `Err` is want of memory.
pub fn learns<K: Registry>(
    state: State<K>,
    alloc: Global,
    job: Job<K>,
    paused: Paused<K>,
) -> Result<Moved<K>, NoMemory>
    requires { state.rids.next < 2 ^ 62 }
    ensures { (r : Rest (meaning_of K.Registry)) (w : told.Work (meaning_of K.Registry)) (old : ℕ) (t : told.Task (meaning_of K.Registry)) → Holds (meaning_of K.Registry) state job r w old → Leaves (meaning_of K.Registry) state paused t → IfOk result (λ x. KeepsMoved (meaning_of K.Registry) old x (steps.learns_for (meaning_of K.Registry) (client_of (meaning_of K.Registry) state r) w t)) }
{
    let asked = asks_servers(alloc, state.parts.layouts, state.parts.rids)?;
    let paused = Box::new(alloc, paused)?;
    Ok(waits_for_layout(state, alloc, job, paused, asked))
}

/// Nothing comes of a message. It takes no memory.
pub fn stays<K: Registry>(state: State<K>, alloc: Global, work: Work<K>) -> Moved<K>
    ensures { (c : told.Client (meaning_of K.Registry)) → KeepsClient (meaning_of K.Registry) state (Some work) c → KeepsMoved (meaning_of K.Registry) state.rids.next result (moved (meaning_of K.Registry) c []) }
{
    Moved {
        state,
        work: Some(work),
        sends: List::new(alloc),
        notes: List::new(alloc),
    }
}

/// A unit has said that all below a position is trimmed, where it isn't 0. It takes no memory.
pub fn meets<K: Registry>(job: Job<K>, gone: Pos) -> Job<K>
    ensures { result ≡ record job { gone = max job.gone gone } }
{
    let mut job = job;
    job.parts.gone = job.parts.gone.max(gone);
    job
}
