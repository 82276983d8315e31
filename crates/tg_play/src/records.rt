//! The writes of a record.

ghost use Rattle.std.specs.Prelude.{◌≡◌, ◌+◌, ◌<◌, ◌^◌, OnOk};
ghost use Rattle.std.specs.List.{list_any};
ghost use Rattle.tg_entry.specs.declared.entry.WriteOp.{WriteOp};
ghost use Rattle.tg_kind.specs.Of.{meaning_of};
ghost use Rattle.tg_protocol.specs.Views as told;
ghost use Rattle.tg_play.specs.Lawful.{AreLawful};
ghost use Rattle.tg_play.specs.Relations.{KeepsObjects};

use crate::hosted::Hosted;
use crate::objects::{plays, write};
use std::alloc::Global;
use std::collections::BTreeMap;
use tg_base::{NoMemory, Oid, Pos};
use tg_entry::WriteOp;
use tg_kind::Registry;

/// Whether any of a record's writes is played. It takes no memory.
pub fn plays_any<K: Registry>(
    objects: &BTreeMap<Oid, Hosted<K>>,
    writes: &[WriteOp],
    pos: Pos,
) -> bool
    ensures { (v : told.View (meaning_of K.Registry)) → KeepsObjects (meaning_of K.Registry) objects.now.entries v → result ≡ list_any (λ (w : WriteOp). told.plays (meaning_of K.Registry) pos (told.base_of (meaning_of K.Registry) v w.oid)) writes.now }
{
    match writes {
        [] => false,
        [first, rest @ ..] => {
            if plays(objects, first.oid, pos) {
                return true;
            }
            plays_any(objects, rest, pos)
        }
    }
}

/// Plays a record's writes in their order. An `Err` is want of memory.
pub fn write_all<K: Registry>(
    alloc: Global,
    objects: &mut BTreeMap<Oid, Hosted<K>>,
    pos: Pos,
    writes: &[WriteOp],
) -> Result<(), NoMemory>
    requires { pos + 1 < 2 ^ 64 }
    ensures objects { (v : told.View (meaning_of K.Registry)) → KeepsObjects (meaning_of K.Registry) objects.old.entries v → OnOk result (KeepsObjects (meaning_of K.Registry) objects.new.entries (told.write_all (meaning_of K.Registry) pos v writes.now)) }
    ensures lawful { AreLawful (pos + 1) objects.old.entries → OnOk result (AreLawful (pos + 1) objects.new.entries) }
{
    match writes {
        [] => Ok(()),
        [first, rest @ ..] => {
            write(alloc, objects, pos, first)?;
            write_all(alloc, objects, pos, rest)
        }
    }
}
