//! What becomes of a command that passed its tests.

ghost use Rattle.std.specs.Prelude.{◌≡◌, ◌<◌, ◌+◌, ◌++◌, ◌^◌, ℕ, Bool, true, false, Option, None, length, OnOk, IfOk};
ghost use Rattle.tg_kind.specs.Of.{meaning_of};
ghost use Rattle.tg_model.specs.declared.command.Command.TheVariants as cmd;
ghost use Rattle.tg_protocol.specs.ClientSteps as told;
ghost use Rattle.tg_protocol.specs.Layouts.{change_fault};
ghost use Rattle.tg_protocol.specs.Views.{View};
ghost use Rattle.tg_base.specs.Orders.{with_oid};
ghost use Rattle.tg_protocol.specs.Words.{has_oid};
ghost use Rattle.tg_client_state.specs.States.{KeepsViewIf, KeepsMoved};
ghost use Rattle.tg_client_tasks.specs.Idle.{idle};
ghost use Rattle.tg_client_tasks.specs.Tests.{taken, IsFine};

use crate::asks::asks;
use crate::changing::reconfigures;
use crate::copying::copies;
use crate::ends::ends;
use crate::puts::puts;
use crate::refusals::tx_number;
use crate::small::{has, new_job, says, works_on};
use std::alloc::Global;
use tg_base::{Change, Join, List, NoMemory, Oid};
use tg_client_state::{Moved, State, one_note};
use tg_kind::Registry;
use tg_model::{Command, CommandOf, What};
use tg_tx::Tx;

/// Puts rising objects last, with one more. An `Err` is want of memory; some may be put then.
fn put_with(oids: &[Oid], oid: Oid, more: &mut List<Oid>) -> Result<(), NoMemory>
    ensures { OnOk result (more.new ≡ more.old ++ with_oid oid oids.now) }
{
    match oids {
        [] => more.push(oid),
        [first, others @ ..] => {
            if oid.0 < first.0 {
                more.push(oid)?;
                return more.extend(oids);
            }
            if oid.0 == first.0 {
                return more.extend(oids);
            }
            more.push(*first)?;
            put_with(others, oid, more)
        }
    }
}

/// Rising objects with one more. An `Err` is want of memory.
fn with_oid(alloc: Global, oids: &List<Oid>, oid: Oid) -> Result<List<Oid>, NoMemory>
    ensures { IfOk result (λ l. l ≡ with_oid oid oids.now) }
{
    let mut more = List::new(alloc);
    put_with(oids.as_slice(), oid, &mut more)?;
    Ok(more)
}

/// The object is hosted from now on. An `Err` is want of memory.
fn hosts<K: Registry>(state: State<K>, alloc: Global, oid: Oid) -> Result<Moved<K>, NoMemory>
    ensures { (v : Option (View (meaning_of K.Registry))) (n : ℕ) → KeepsViewIf (meaning_of K.Registry) state.view v → IfOk result (λ x. KeepsMoved (meaning_of K.Registry) state.rids.next x (told.hosts_more (meaning_of K.Registry) (idle (meaning_of K.Registry) state v n) oid (has_oid oid state.hosted))) }
{
    let notes = one_note::<K>(alloc, 0, What::Hosted { oid })?;
    if has(&state.parts.hosted, oid) {
        return Ok(says(state, alloc, notes));
    }
    let hosted = with_oid(alloc, &state.parts.hosted, oid)?;
    let mut state = state;
    state.parts.hosted = hosted;
    state.parts.view = None;
    Ok(says(state, alloc, notes))
}

/// A transaction begins. An `Err` is want of memory.
fn begins<K: Registry>(state: State<K>, alloc: Global) -> Result<Moved<K>, NoMemory>
    requires { state.begun + 1 < 2 ^ 32 }
    ensures { (v : Option (View (meaning_of K.Registry))) (n : ℕ) → KeepsViewIf (meaning_of K.Registry) state.view v → IfOk result (λ x. KeepsMoved (meaning_of K.Registry) state.rids.next x (told.begins (meaning_of K.Registry) (idle (meaning_of K.Registry) state v n))) }
{
    let begun = state.parts.begun + 1;
    let notes = one_note::<K>(alloc, begun, What::Begin)?;
    let tx = Some(Tx::open(alloc, begun));
    let mut state = state;
    state.parts.tx = tx;
    state.parts.begun = begun;
    Ok(says(state, alloc, notes))
}

/// The open transaction is given up. An `Err` is want of memory.
#[tactic(auto, unfolding(tg_protocol::specs::ClientSteps::accepts))]
fn drops<K: Registry>(state: State<K>, alloc: Global) -> Result<Moved<K>, NoMemory>
    ensures { (v : Option (View (meaning_of K.Registry))) (n : ℕ) → KeepsViewIf (meaning_of K.Registry) state.view v → IfOk result (λ x. KeepsMoved (meaning_of K.Registry) state.rids.next x (told.accepts (meaning_of K.Registry) (idle (meaning_of K.Registry) state v n) cmd.Drop)) }
{
    let number = tx_number::<K>(&state.parts.tx);
    let notes = one_note::<K>(alloc, number, What::Dropped)?;
    Ok(says(state.closed(), alloc, notes))
}

/// A reconfiguration begins. An `Err` is want of memory, or of numbers.
#[tactic(auto, unfolding(tg_protocol::specs::ClientSteps::accepts))]
fn changes<K: Registry>(
    state: State<K>,
    alloc: Global,
    change: Change,
) -> Result<Moved<K>, NoMemory>
    requires allowed { change_fault state.stand change ≡ None }
    requires numbers { state.rids.next < 2 ^ 61 }
    ensures { (v : Option (View (meaning_of K.Registry))) (n : ℕ) → KeepsViewIf (meaning_of K.Registry) state.view v → IfOk result (λ x. KeepsMoved (meaning_of K.Registry) state.rids.next x (told.accepts (meaning_of K.Registry) (idle (meaning_of K.Registry) state v n) (cmd.Reconf change))) }
{
    let kept = change.copy()?;
    let job = new_job(alloc, Command::Reconf { change: kept })?;
    reconfigures(state, alloc, job, change)
}

/// A stripe's copy to a spare unit begins. An `Err` is want of memory, or of a number of the stripe's position.
#[tactic(auto, unfolding(tg_protocol::specs::ClientSteps::accepts))]
fn brings<K: Registry>(state: State<K>, alloc: Global, spare: Join) -> Result<Moved<K>, NoMemory>
    requires { state.rids.next < 2 ^ 61 }
    ensures { (v : Option (View (meaning_of K.Registry))) (n : ℕ) → KeepsViewIf (meaning_of K.Registry) state.view v → IfOk result (λ x. KeepsMoved (meaning_of K.Registry) state.rids.next x (told.accepts (meaning_of K.Registry) (idle (meaning_of K.Registry) state v n) (cmd.Copy spare.unit spare.range spare.stripe))) }
{
    let Join {
        unit,
        range,
        stripe,
    } = spare;
    let command = Command::Copy {
        unit,
        range,
        stripe,
    };
    let job = new_job(alloc, command)?;
    copies(state, alloc, job, spare)
}

/// What becomes of a command that passed its tests. An `Err` is want of memory, or of numbers.
#[tactic(auto, unfolding(tg_protocol::specs::ClientSteps::accepts))]
pub fn accepts<K: Registry>(
    state: State<K>,
    alloc: Global,
    command: CommandOf<K>,
) -> Result<Moved<K>, NoMemory>
    requires fine { IsFine (meaning_of K.Registry) state.stand command }
    requires numbers { state.rids.next < 2 ^ 61 }
    requires count { state.begun + 1 < 2 ^ 32 }
    ensures { (v : Option (View (meaning_of K.Registry))) (n : ℕ) → KeepsViewIf (meaning_of K.Registry) state.view v → IfOk result (λ x. KeepsMoved (meaning_of K.Registry) state.rids.next x (taken (meaning_of K.Registry) (idle (meaning_of K.Registry) state v n) command)) }
{
    match command {
        Command::Host { oid } => hosts(state, alloc, oid),
        Command::Begin => begins(state, alloc),
        Command::Put { oid, op } => puts(state, alloc, oid, op),
        Command::Ask { oid, ask } => asks(state, alloc, oid, ask),
        Command::End => ends(state, alloc),
        Command::Drop => drops(state, alloc),
        Command::Fate { at } => works_on(state, alloc, Command::Fate { at }),
        Command::Decide { at } => works_on(state, alloc, Command::Decide { at }),
        Command::Checkpoint { oid } => works_on(state, alloc, Command::Checkpoint { oid }),
        Command::Forget { oid, mark } => works_on(state, alloc, Command::Forget { oid, mark }),
        Command::Trim => works_on(state, alloc, Command::Trim),
        Command::Reconf { change } => changes(state, alloc, change),
        Command::Copy {
            unit,
            range,
            stripe,
        } => {
            let spare = Join {
                unit,
                range,
                stripe,
            };
            brings(state, alloc, spare)
        }
        Command::AskAt { at, oid, ask } => works_on(state, alloc, Command::AskAt { at, oid, ask }),
        Command::Rescue { at } => works_on(state, alloc, Command::Rescue { at }),
    }
}
