//! The cells that a client knows. A walk has them while it walks.

ghost use Rattle.std.specs.Prelude.{◌≡◌, Option, option_copied};
ghost use Rattle.tg_kind.specs.Of.{meaning_of};
ghost use Rattle.tg_protocol.specs.Clients as told;
ghost use Rattle.tg_protocol.specs.Words.{cell_at};
ghost use Rattle.tg_client_state.specs.Tasks.{told_task, GoesOn, KeepsHand, KeepsMaybe};

use tg_base::{Cell, Pos};
use tg_client_cells::Known;
use tg_client_state::{Hand, Paused, Task, Work};
use tg_kind::Registry;

/// The cell at a position that is known while this command waits, if one does. It takes no memory.
pub fn known_cell<'a, K: Registry>(
    known: &'a Known,
    work: &'a Option<Work<K>>,
    pos: Pos,
) -> Option<&'a Cell>
    ensures { (w : Option (told.Work (meaning_of K.Registry))) → KeepsMaybe (meaning_of K.Registry) work.now w → option_copied result ≡ cell_at (told.work_cells (meaning_of K.Registry) w known.now.cells) pos }
{
    match work {
        None => known.cell(pos),
        Some(work) => with_hand(known, &work.hand, pos),
    }
}

// The same with this in hand.
fn with_hand<'a, K: Registry>(known: &'a Known, hand: &'a Hand<K>, pos: Pos) -> Option<&'a Cell>
    ensures { (h : told.Hand (meaning_of K.Registry)) → KeepsHand (meaning_of K.Registry) hand.now h → option_copied result ≡ cell_at (told.hand_cells (meaning_of K.Registry) h known.now.cells) pos }
{
    match hand {
        Hand::Doing { task } => with_task(known, &**task, pos),
        Hand::Learning { paused, .. } => with_paused(known, &**paused, pos),
    }
}

// The same while this machine runs.
fn with_task<'a, K: Registry>(known: &'a Known, task: &'a Task<K>, pos: Pos) -> Option<&'a Cell>
    ensures { option_copied result ≡ cell_at (told.task_cells (meaning_of K.Registry) (told_task (meaning_of K.Registry) task.now) known.now.cells) pos }
{
    match task {
        Task::Walk { walk, .. } => walk.cell(pos),
        _ => known.cell(pos),
    }
}

// The same while a newer layout is learnt, after which this goes on.
fn with_paused<'a, K: Registry>(
    known: &'a Known,
    paused: &'a Paused<K>,
    pos: Pos,
) -> Option<&'a Cell>
    ensures { (t : told.Task (meaning_of K.Registry)) → GoesOn (meaning_of K.Registry) paused.now t → option_copied result ≡ cell_at (told.task_cells (meaning_of K.Registry) t known.now.cells) pos }
{
    match paused {
        Paused::Walk { walk, .. } => walk.cell(pos),
        _ => known.cell(pos),
    }
}
