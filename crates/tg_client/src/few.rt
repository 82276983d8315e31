//! A client knows of few layout servers and units: what bounds the numbers that a step draws.

ghost use Rattle.std.specs.Prelude.{◌≡◌, ◌<◌, ◌^◌};
ghost use Rattle.tg_kind.specs.Of.{meaning_of};
ghost use Rattle.tg_protocol.specs.Clients as told;
ghost use Rattle.tg_protocol.specs.ClientSteps.{task_in};
ghost use Rattle.tg_protocol.specs.Reconfiguring.{Reconf as ToldReconf};
ghost use Rattle.tg_law_numbers.specs.Counts.{AsksFew, IsFew, GivesFew, TellsFew};
ghost use Rattle.tg_client_state.specs.Tasks.{KeepsHand, GoesOn, told_task};
ghost use Rattle.tg_client_state.specs.States.{KeepsClient};

use tg_base::Msg;
use tg_client_state::{Hand, Paused, State, Task, Work};
use tg_kind::Registry;
use tg_model::{Command, CommandOf};

/// A change of the layout in hand asks few. It takes no memory.
#[tactic(auto, using(crate::proofs::Bounded::reconf_few))]
fn task_asks_few<K: Registry>(task: &Task<K>)
    ensures { (r : ToldReconf) → told_task (meaning_of K.Registry) task.now ≡ told.Reconfiguring r → AsksFew 65536 r }
{
    match task {
        Task::Sync { .. } => {}
        Task::Walk { .. } => {}
        Task::Append { .. } => {}
        Task::Trim { .. } => {}
        Task::Copy { .. } => {}
        Task::Reconf { reconf } => reconf.rules(),
    }
}

/// Likewise of what is left of one while a newer layout is learnt.
#[tactic(auto, using(crate::proofs::Bounded::reconf_few))]
fn paused_asks_few<K: Registry>(paused: &Paused<K>)
    ensures { (r : ToldReconf) → GoesOn (meaning_of K.Registry) paused.now (told.Reconfiguring r) → AsksFew 65536 r }
{
    match paused {
        Paused::Sync { .. } => {}
        Paused::Walk { .. } => {}
        Paused::Append { .. } => {}
        Paused::Trim { .. } => {}
        Paused::Copy { .. } => {}
        Paused::Reconf { reconf } => reconf.rules(),
    }
}

/// Likewise of what is in hand.
fn hand_asks_few<K: Registry>(hand: &Hand<K>)
    ensures { (h : told.Hand (meaning_of K.Registry)) (r : ToldReconf) → KeepsHand (meaning_of K.Registry) hand.now h → task_in (meaning_of K.Registry) h ≡ told.Reconfiguring r → AsksFew 65536 r }
{
    match hand {
        Hand::Doing { task } => task_asks_few(task),
        Hand::Learning { paused, .. } => paused_asks_few(paused),
    }
}

/// Layout servers have a number of 16 bits. It takes no memory.
fn few_servers(layouts: u16)
    ensures { layouts < 2 ^ 16 }
{
    let _layouts = layouts;
}

/// A client knows of few layout servers and units. It takes no memory.
#[tactic(auto, using(crate::proofs::Bounded::layout_few))]
pub fn asks_few<K: Registry>(state: &State<K>, work: &Option<Work<K>>)
    ensures { (c : told.Client (meaning_of K.Registry)) → KeepsClient (meaning_of K.Registry) state.now work.now c → IsFew (meaning_of K.Registry) 65536 c }
{
    few_servers(state.parts.layouts);
    state.parts.stand.rules();
    if let Some(work) = work {
        hand_asks_few(&work.hand);
    }
}

/// A change that a command gives comes to few units. It takes no memory.
#[tactic(auto, using(crate::proofs::Bounded::change_few))]
pub fn gives_few<K: Registry>(state: &State<K>, command: &CommandOf<K>)
    ensures { (c : told.Client (meaning_of K.Registry)) → c.stand ≡ state.now.stand → GivesFew (meaning_of K.Registry) 65536 c command.now }
{
    if let Command::Reconf { change } = command {
        state.parts.stand.rules();
        change.rules();
    }
}

/// A layout that a message tells has few units. It takes no memory.
#[tactic(auto, using(crate::proofs::Bounded::layout_few))]
pub fn tells_few<K: Registry>(msg: &Msg)
    ensures { TellsFew (meaning_of K.Registry) 65536 msg.now }
{
    if let Msg::Latest { proj } = msg {
        proj.rules();
    }
}
