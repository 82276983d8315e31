//! A walk that has met a trim.

ghost use Rattle.std.specs.Prelude.{◌≡◌, not, ◌&&◌, is_some, nat_lt, IfOk};
ghost use Rattle.tg_kind.specs.Of.{meaning_of};
ghost use Rattle.tg_protocol.specs.Checkpoints.{load_from};
ghost use Rattle.tg_protocol.specs.Clients.{upto as upto_of};
ghost use Rattle.tg_protocol.specs.ClientSteps as steps;
ghost use Rattle.tg_client_cells.specs.Walks.{InOrder};
ghost use Rattle.tg_client_cells.specs.Words.{entries_at};
ghost use Rattle.tg_client_state.specs.States.{Rest, client_of, KeepsViewIf};

use std::alloc::Global;
use tg_base::{NoMemory, Oid, Pos};
use tg_ckpt::{LoadFault, load_from};
use tg_client_cells::Known;
use tg_client_state::State;
use tg_kind::Registry;
use tg_model::{Command, CommandOf};

/// Whether one of these members is a checkpoint that reaches the trim.
fn reaches<K: Registry>(
    known: &Known,
    alloc: Global,
    oid: Oid,
    list: &[Pos],
    below: Pos,
) -> Result<bool, NoMemory>
    requires { InOrder list.now }
    ensures { IfOk result (λ b. b ≡ is_some (load_from (meaning_of K.Registry) (entries_at known.now.cells list.now) oid below)) }
{
    let entries = known.entries_of(alloc, list)?;
    match load_from::<K>(alloc, &entries, oid, below) {
        Ok(_) => Ok(true),
        Err(LoadFault::NoCheckpoint { .. }) => Ok(false),
        Err(LoadFault::NoMemory) => Err(NoMemory),
    }
}

/// Whether the tail is stale: no member is a checkpoint that reaches the trim, and no such trim was known before the
/// sync. An `Err` is want of memory.
pub fn is_stale<K: Registry>(
    known: &Known,
    alloc: Global,
    gone_before: Pos,
    oid: Oid,
    list: &[Pos],
    below: Pos,
) -> Result<bool, NoMemory>
    requires { InOrder list.now }
    ensures { IfOk result (λ b. b ≡ (not (is_some (load_from (meaning_of K.Registry) (entries_at known.now.cells list.now) oid below)) && nat_lt gone_before below)) }
{
    let is_reached = reaches::<K>(known, alloc, oid, list, below)?;
    Ok(!is_reached && gone_before < below)
}

/// Whether a command plays the kept view: past views and rescues leave it alone.
fn plays_kept<K: Registry>(command: &CommandOf<K>) -> bool
    ensures { result ≡ steps.plays_kept (meaning_of K.Registry) command.now }
{
    match command {
        Command::AskAt { .. } => false,
        Command::Rescue { .. } => false,
        _ => true,
    }
}

/// Whether a kept view is given up, which ends below the trim. It takes no memory.
pub fn gives_view_up<K: Registry>(state: &State<K>, command: &CommandOf<K>, below: Pos) -> bool
    ensures { (r : Rest (meaning_of K.Registry)) → KeepsViewIf (meaning_of K.Registry) state.now.view r.view → result ≡ (steps.plays_kept (meaning_of K.Registry) command.now && is_some r.view && nat_lt (upto_of (meaning_of K.Registry) (client_of (meaning_of K.Registry) state.now r)) below) }
{
    let is_kept = state.parts.view.is_some();
    plays_kept::<K>(command) && is_kept && state.upto() < below
}
