//! Ticks.

ghost use Rattle.std.specs.Prelude.{◌≡◌, ◌<◌, ◌++◌, ◌+◌, ◌^◌, Some, None, OnOk, IfOk};
ghost use Rattle.tg_kind.specs.Of.{meaning_of};
ghost use Rattle.tg_protocol.specs.Clients as told;
ghost use Rattle.tg_protocol.specs.ClientSteps.{asks_latest, hand_again_asks, client_tick};
ghost use Rattle.tg_protocol.specs.Requests.{waits_for};
ghost use Rattle.tg_protocol.specs.Words.{numbers};
ghost use Rattle.tg_client_state.specs.Tasks.{KeepsHand, IsGivenFit};
ghost use Rattle.tg_client_state.specs.States.{KeepsClient};
ghost use Rattle.tg_client_state.specs.Moves.{IsKept};
ghost use Rattle.tg_client_tasks.specs.Steps.{Draws, KeepsStep};

use crate::small::says;
use std::alloc::Global;
use tg_base::{List, Msg, NoMemory, Out, Rids, Role};
use tg_chain::{ask_alike, ask_servers};
use tg_client_state::{Hand, Moved, State, Work};
use tg_kind::Registry;

/// What a tick sends: the outstanding requests once more, and requests for the latest layout under new numbers.
///
/// An `Err` is want of memory.
fn outstanding<K: Registry>(
    state: &State<K>,
    alloc: Global,
    hand: &Hand<K>,
    rids: &mut Rids,
) -> Result<List<Out>, NoMemory>
    requires fit { IsGivenFit (meaning_of K.Registry) state.now.stand hand.now }
    requires numbers { rids.old.next < 2 ^ 62 }
    ensures sends { (h : told.Hand (meaning_of K.Registry)) → KeepsHand (meaning_of K.Registry) hand.now h → IfOk result (λ outs. outs ≡ hand_again_asks (meaning_of K.Registry) state.now.stand h ++ asks_latest (meaning_of K.Registry) (waits_for (numbers state.now.layouts 0) rids.old.next)) }
    ensures next { OnOk result (rids.new.next ≡ rids.old.next + state.now.layouts) }
{
    let mut sends = hand.again(alloc, &state.parts.stand, rids)?;
    let waits = ask_servers(alloc, state.parts.layouts, rids)?;
    ask_alike(Role::Layout, &Msg::AskLatest, waits.as_slice(), &mut sends)?;
    Ok(sends)
}

/// A client whose command waits, after a tick that sends this and draws these numbers. It takes no memory.
fn asked<K: Registry>(
    state: State<K>,
    alloc: Global,
    work: Work<K>,
    rids: Rids,
    sends: List<Out>,
) -> Result<Moved<K>, NoMemory>
    requires { state.calls + 1 < 2 ^ 32 }
    ensures { (c : told.Client (meaning_of K.Registry)) → Draws (meaning_of K.Registry) state.stand state.layouts state.rids.next rids.next work sends → KeepsClient (meaning_of K.Registry) state (Some work) c → IfOk result (λ r. KeepsStep (meaning_of K.Registry) r (client_tick (meaning_of K.Registry) c)) }
{
    let calls = state.parts.calls + 1;
    let mut state = state;
    state.parts.rids = rids;
    state.parts.calls = calls;
    Ok(Moved {
        state,
        work: Some(work),
        sends,
        notes: List::new(alloc),
    })
}

/// A client whose command waits, after a tick. An `Err` is want of memory.
fn asks_again<K: Registry>(
    state: State<K>,
    alloc: Global,
    work: Work<K>,
) -> Result<Moved<K>, NoMemory>
    requires kept { IsKept (meaning_of K.Registry) state (Some work) }
    requires numbers { state.rids.next < 2 ^ 62 }
    requires room { state.calls + 1 < 2 ^ 32 }
    ensures { (c : told.Client (meaning_of K.Registry)) → KeepsClient (meaning_of K.Registry) state (Some work) c → IfOk result (λ r. KeepsStep (meaning_of K.Registry) r (client_tick (meaning_of K.Registry) c)) }
{
    let mut rids = state.parts.rids;
    let sends = outstanding(&state, alloc, &work.hand, &mut rids)?;
    asked(state, alloc, work, rids, sends)
}

/// A client for which no command waits, after a tick. It takes no memory.
fn rests<K: Registry>(state: State<K>, alloc: Global) -> Result<Moved<K>, NoMemory>
    requires { state.calls + 1 < 2 ^ 32 }
    ensures { (c : told.Client (meaning_of K.Registry)) → KeepsClient (meaning_of K.Registry) state None c → IfOk result (λ r. KeepsStep (meaning_of K.Registry) r (client_tick (meaning_of K.Registry) c)) }
{
    let calls = state.parts.calls + 1;
    let mut state = state;
    state.parts.calls = calls;
    Ok(says(state, alloc, List::new(alloc)))
}

/// A client after a tick. An `Err` is want of memory.
pub fn ticked<K: Registry>(
    state: State<K>,
    work: Option<Work<K>>,
    alloc: Global,
) -> Result<Moved<K>, NoMemory>
    requires kept { IsKept (meaning_of K.Registry) state work }
    requires numbers { state.rids.next < 2 ^ 62 }
    requires room { state.calls + 1 < 2 ^ 32 }
    ensures { (c : told.Client (meaning_of K.Registry)) → KeepsClient (meaning_of K.Registry) state work c → IfOk result (λ r. KeepsStep (meaning_of K.Registry) r (client_tick (meaning_of K.Registry) c)) }
{
    match work {
        None => rests(state, alloc),
        Some(work) => asks_again(state, alloc, work),
    }
}
