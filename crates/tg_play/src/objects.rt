//! Hosted objects by number.

ghost use Rattle.std.specs.Prelude.{◌≡◌, ◌+◌, ◌<◌, ◌^◌, IfOk, OnOk};
ghost use Rattle.std.specs.BTreeMap.{insert_entry};
ghost use Rattle.std.specs.Option.{option_copied};
ghost use Rattle.tg_base.specs.Orders.{oid_cmp};
ghost use Rattle.tg_kind.specs.Of.{meaning_of};
ghost use Rattle.tg_protocol.specs.Views as told;
ghost use Rattle.tg_play.specs.Kept.{hosted_from, hosted_of, hosts_from};
ghost use Rattle.tg_play.specs.Lawful.{AreLawful};
ghost use Rattle.tg_play.specs.Relations.{KeepsObjects};

use crate::base::Base;
use crate::hosted::Hosted;
use std::alloc::Global;
use std::collections::BTreeMap;
use std::mem;
use tg_base::{List, NoMemory, Oid, Pos, ReadMark};
use tg_entry::WriteOp;
use tg_kind::Registry;

/// The objects as their bases tell them. An `Err` is want of memory.
pub fn hosts_of<K: Drop>(
    alloc: Global,
    bases: List<Base<K>>,
) -> Result<BTreeMap<Oid, Hosted<K>>, NoMemory>
    ensures { IfOk result (λ os. os.entries ≡ hosts_from bases) }
{
    let count = bases.len();
    let mut left = bases;
    let mut objects = BTreeMap::new(alloc);
    for at in (0..count).rev() {
        host(&mut objects, left.remove(at))?;
    }
    Ok(objects)
}

// The object as its base tells it, in place of what was hosted of that number.
fn host<K: Drop>(objects: &mut BTreeMap<Oid, Hosted<K>>, base: Base<K>) -> Result<(), NoMemory>
    ensures { OnOk result (objects.new.entries ≡ insert_entry oid_cmp objects.old.entries base.oid (hosted_from base)) }
{
    let oid = base.oid;
    let hosted = Hosted::new(base)?;
    objects.insert(oid, hosted)?;
    Ok(())
}

/// The object, if it is hosted. It takes no memory.
pub fn found<K>(objects: &BTreeMap<Oid, Hosted<K>>, oid: Oid) -> Option<&Hosted<K>>
    ensures { option_copied result ≡ hosted_of objects.now.entries oid }
{
    objects.get(&oid)
}

/// The version of a read part at a position, as far as it is known. It takes no memory.
pub fn version_at<K: Registry>(objects: &BTreeMap<Oid, Hosted<K>>, read: &ReadMark, pos: Pos) -> u64
    ensures { (v : told.View (meaning_of K.Registry)) → KeepsObjects (meaning_of K.Registry) objects.now.entries v → result ≡ told.version_at (meaning_of K.Registry) v pos read.now }
{
    match found(objects, read.oid) {
        None => 0,
        Some(hosted) => hosted.version_at(read, pos),
    }
}

/// Whether the version of a read part at a position isn't known. It takes no memory.
pub fn is_unknown<K: Registry>(
    objects: &BTreeMap<Oid, Hosted<K>>,
    read: &ReadMark,
    pos: Pos,
) -> bool
    ensures { (v : told.View (meaning_of K.Registry)) → KeepsObjects (meaning_of K.Registry) objects.now.entries v → result ≡ told.unknown_by (meaning_of K.Registry) pos (told.base_of (meaning_of K.Registry) v read.now.oid) read.now }
{
    match found(objects, read.oid) {
        None => true,
        Some(hosted) => hosted.is_unknown(read, pos),
    }
}

/// Whether a write of an object at a position is played. It takes no memory.
pub fn plays<K: Registry>(objects: &BTreeMap<Oid, Hosted<K>>, oid: Oid, pos: Pos) -> bool
    ensures { (v : told.View (meaning_of K.Registry)) → KeepsObjects (meaning_of K.Registry) objects.now.entries v → result ≡ told.plays (meaning_of K.Registry) pos (told.base_of (meaning_of K.Registry) v oid) }
{
    match found(objects, oid) {
        None => false,
        Some(hosted) => hosted.plays(oid, pos),
    }
}

/// Plays a write, where its object is hosted with a base that isn't past the position.
/// An `Err` is want of memory.
pub fn write<K: Registry>(
    alloc: Global,
    objects: &mut BTreeMap<Oid, Hosted<K>>,
    pos: Pos,
    write: &WriteOp,
) -> Result<(), NoMemory>
    requires { pos + 1 < 2 ^ 64 }
    ensures objects { (v : told.View (meaning_of K.Registry)) → KeepsObjects (meaning_of K.Registry) objects.old.entries v → OnOk result (KeepsObjects (meaning_of K.Registry) objects.new.entries (told.write (meaning_of K.Registry) pos v write.now)) }
    ensures lawful { AreLawful (pos + 1) objects.old.entries → OnOk result (AreLawful (pos + 1) objects.new.entries) }
{
    match objects.get_mut(&write.oid) {
        None => Ok(()),
        Some(slot) => {
            let blank = Hosted::blank(alloc, write.oid)?;
            let hosted = mem::replace(slot, blank);
            *slot = hosted.write(alloc, write, pos)?;
            Ok(())
        }
    }
}
