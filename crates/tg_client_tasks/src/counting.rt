//! What a whole step gives.

ghost use Rattle.std.specs.Prelude.{◌≡◌, ◌<◌, ◌+◌, ◌^◌, ℕ, IfOk};
ghost use Rattle.tg_kind.specs.Of.{meaning_of};
ghost use Rattle.tg_protocol.specs.Answers as told;
ghost use Rattle.tg_protocol.specs.Clients as clients;
ghost use Rattle.tg_protocol.specs.ClientSteps as steps;
ghost use Rattle.tg_client_state.specs.States.{KeepsMoved};
ghost use Rattle.tg_client_tasks.specs.Steps.{KeepsStep};

use tg_base::NoMemory;
use tg_client_state::Moved;
use tg_kind::Registry;

/// What a step made of a client, with one step more counted. It takes no memory.
pub fn given<K: Registry>(moved: Moved<K>) -> Result<Moved<K>, NoMemory>
    requires { moved.state.calls + 1 < 2 ^ 32 }
    ensures { (c : clients.Client (meaning_of K.Registry)) (x : told.Moved (meaning_of K.Registry)) (old : ℕ) → c.next ≡ old → KeepsMoved (meaning_of K.Registry) old moved x → IfOk result (λ r. KeepsStep (meaning_of K.Registry) r (steps.given (meaning_of K.Registry) c x)) }
{
    let Moved {
        state,
        work,
        sends,
        notes,
    } = moved;
    let calls = state.parts.calls + 1;
    let mut state = state;
    state.parts.calls = calls;
    Ok(Moved {
        state,
        work,
        sends,
        notes,
    })
}
