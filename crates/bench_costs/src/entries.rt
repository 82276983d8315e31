//! The log that is played.

ghost use Rattle.std.specs.Prelude.{◌≡◌, ◌+◌, ◌≤◌, ◌^◌, IfOk};
ghost use Rattle.bench_costs.specs.Plays.{entries_from};

use crate::records::record_at;
use std::alloc::Global;
use tg_base::{NoMemory, Pos};
use tg_entry::Entries;

/// So many records, one at each position from the first on. An `Err` is want of memory.
pub fn entries_from(alloc: Global, first: Pos, count: u32) -> Result<Entries, NoMemory>
    requires { first + count ≤ 2 ^ 62 }
    ensures { IfOk result (λ es. es ≡ entries_from first count) }
{
    let mut entries = Entries::new(alloc);
    for place in 0..count {
        let pos = first + u64::from(place);
        let record = record_at(alloc, pos)?;
        entries.push(pos, record)?;
    }
    Ok(entries)
}
