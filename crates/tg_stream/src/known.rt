//! A walk over known cells.

ghost use Rattle.std.specs.Prelude.{ℕ, ◌≡◌, Option, IfOk};
ghost use Rattle.tg_base.specs.Layouts.{Layout};
ghost use Rattle.tg_protocol.specs.Cells.{CellJob};
ghost use Rattle.tg_protocol.specs.Walking.{walk_from};
ghost use Rattle.tg_stream.specs.Walks.{walk_of, comes_to};

use crate::paused::PausedWalk;
use std::alloc::Global;
use tg_base::{NoMemory, Pos};

/// Visits known cells up to the first position whose cell must be read, None where the walk ends first.
pub fn over_known(alloc: Global, course: &mut PausedWalk) -> Result<Option<Pos>, NoMemory>
    ensures { IfOk result (λ at. (p : Layout) (n : ℕ) (j : Option CellJob) → walk_from p n (walk_of course.old j) ≡ comes_to p n (walk_of course.new j) at) }
{
    let mut left = course.steps_left();
    while left > 0 {
        left -= 1;
        match course.next_visit() {
            None => return Ok(None),
            Some(pos) => {
                if !course.visit_known(alloc, pos)? {
                    return Ok(Some(pos));
                }
            }
        }
    }
    Ok(None)
}
