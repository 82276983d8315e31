//! Copies of lists.

ghost use Rattle.std.specs.Prelude.{◌≡◌, IfOk};

use std::alloc::Global;
use tg_base::{List, NoMemory, Oid};

/// An equal list. An `Err` is want of memory.
pub fn copied(alloc: Global, oids: &List<Oid>) -> Result<List<Oid>, NoMemory>
    ensures { IfOk result (λ l. l ≡ oids.now) }
{
    let mut list = List::new(alloc);
    list.extend(oids.as_slice())?;
    Ok(list)
}
