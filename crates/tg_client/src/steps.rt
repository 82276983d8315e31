//! Steps of a client: commands and messages.

ghost use Rattle.std.specs.Prelude.{◌≡◌, ◌<◌, ◌+◌, ◌^◌, ℕ, Option, Some, IfOk};
ghost use Rattle.tg_kind.specs.Of.{meaning_of};
ghost use Rattle.tg_model.specs.Kinds.{CommandOf};
ghost use Rattle.tg_protocol.specs.Clients as told;
ghost use Rattle.tg_protocol.specs.ClientSteps.{refused_or, client_command, client_deliver};
ghost use Rattle.tg_protocol.specs.Views.{View};
ghost use Rattle.tg_client_state.specs.States.{KeepsViewIf, KeepsClient, KeepsMoved};
ghost use Rattle.tg_client_state.specs.Moves.{IsKept};
ghost use Rattle.tg_client_tasks.specs.Idle.{idle};
ghost use Rattle.tg_client_tasks.specs.Steps.{KeepsStep};
ghost use Rattle.tg_client_state.specs.Counts.{HasNumbers};

use crate::delivering::deliver;
use std::alloc::Global;
use tg_base::{List, Msg, NoMemory, NodeId};
use tg_client_state::{Moved, State, Work, one_note};
use tg_client_tasks::{accepts, given, refusal, refuses, says};
use tg_kind::Registry;
use tg_model::{CommandOf, Refusal, What};

/// A command where none waits: it is tested, and refused at once or taken. An `Err` is want of memory, or of numbers.
fn tested<K: Registry>(
    state: State<K>,
    alloc: Global,
    command: CommandOf<K>,
) -> Result<Moved<K>, NoMemory>
    requires { HasNumbers (meaning_of K.Registry) state }
    ensures { (v : Option (View (meaning_of K.Registry))) (n : ℕ) → KeepsViewIf (meaning_of K.Registry) state.view v → IfOk result (λ x. KeepsMoved (meaning_of K.Registry) state.rids.next x (refused_or (meaning_of K.Registry) (idle (meaning_of K.Registry) state v n) command (told.refusal (meaning_of K.Registry) (idle (meaning_of K.Registry) state v n) command))) }
{
    match refusal(&state, alloc, &command)? {
        Some(why) => refuses(state, alloc, why),
        None => accepts(state, alloc, command),
    }
}

/// A command while another one waits is refused, and the client is as it was. An `Err` is want of memory, or of numbers.
#[tactic(auto, unfolding(tg_protocol::specs::ClientSteps::client_command, tg_protocol::specs::Clients::refusal))]
fn busy<K: Registry>(state: State<K>, alloc: Global, work: Work<K>) -> Result<Moved<K>, NoMemory>
    requires { state.calls + 1 < 2 ^ 32 }
    ensures { (c : told.Client (meaning_of K.Registry)) (command : CommandOf (meaning_of K.Registry)) → KeepsClient (meaning_of K.Registry) state (Some work) c → IfOk result (λ r. KeepsStep (meaning_of K.Registry) r (client_command (meaning_of K.Registry) c command)) }
{
    let Work { job, hand } = work;
    let why = Refusal::Busy {
        command: job.parts.command.word(),
    };
    let notes = one_note::<K>(alloc, 0, What::Refused { why })?;
    given(Moved {
        state,
        work: Some(Work { job, hand }),
        sends: List::new(alloc),
        notes,
    })
}

/// A client after a command. An `Err` is want of memory, or of numbers.
#[tactic(auto, unfolding(tg_protocol::specs::ClientSteps::client_command))]
pub fn commanded<K: Registry>(
    state: State<K>,
    work: Option<Work<K>>,
    alloc: Global,
    command: CommandOf<K>,
) -> Result<Moved<K>, NoMemory>
    requires kept { IsKept (meaning_of K.Registry) state work }
    requires numbers { HasNumbers (meaning_of K.Registry) state }
    requires room { state.calls + 1 < 2 ^ 32 }
    ensures { (c : told.Client (meaning_of K.Registry)) → KeepsClient (meaning_of K.Registry) state work c → IfOk result (λ r. KeepsStep (meaning_of K.Registry) r (client_command (meaning_of K.Registry) c command)) }
{
    match work {
        Some(work) => busy(state, alloc, work),
        None => {
            let moved = tested(state, alloc, command)?;
            given(moved)
        }
    }
}

/// A client after a message from a node under a number. An `Err` is want of memory, or of numbers.
#[tactic(auto, unfolding(tg_protocol::specs::ClientSteps::client_deliver))]
pub fn delivered<K: Registry>(
    state: State<K>,
    work: Option<Work<K>>,
    alloc: Global,
    from: NodeId,
    rid: u64,
    msg: &Msg,
) -> Result<Moved<K>, NoMemory>
    requires kept { IsKept (meaning_of K.Registry) state work }
    requires numbers { HasNumbers (meaning_of K.Registry) state }
    requires room { state.calls + 1 < 2 ^ 32 }
    ensures { (c : told.Client (meaning_of K.Registry)) → KeepsClient (meaning_of K.Registry) state work c → IfOk result (λ r. KeepsStep (meaning_of K.Registry) r (client_deliver (meaning_of K.Registry) c from rid msg.now)) }
{
    match work {
        None => given(says(state, alloc, List::new(alloc))),
        Some(work) => {
            let moved = deliver(state, alloc, work, from, rid, msg)?;
            given(moved)
        }
    }
}
