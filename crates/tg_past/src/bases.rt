//! The bases of a view at a past position. Those from entries that have a spelling are lawful: a view may begin with
//! them.

ghost use Rattle.std.specs.Prelude.{◌≡◌, true, Some, map, IfOk};
ghost use Rattle.tg_base.specs.declared.ids.Oid.{Oid};
ghost use Rattle.tg_kind.specs.Headers.{is_header};
ghost use Rattle.tg_kind.specs.Of.{meaning_of};
ghost use Rattle.tg_protocol.specs.Checkpoints as trims;
ghost use Rattle.tg_protocol.specs.Past as told;
ghost use Rattle.tg_play.specs.Lawful.{IsLawfulBase, AreLawfulBases};
ghost use Rattle.tg_play.specs.Relations.{KeepsBase, KeepsBases};
ghost use Rattle.tg_ckpt.specs.Saving.{AreSpelled};
ghost use Rattle.tg_past.specs.Answers.{lost_by};

use std::alloc::Global;
use tg_base::{List, NoMemory, Oid, Pos};
use tg_ckpt::{fresh_base, last_base, view_base};
use tg_entry::Entries;
use tg_kind::Registry;
use tg_play::Base;

// Where an object's walk met a trim.
fn trim_of(gone: &[(Oid, Pos)], oid: Oid) -> Option<Pos>
    ensures { result ≡ trims.trim_of gone.now oid }
{
    for trim in gone {
        if trim.0.0 == oid.0 {
            return Some(trim.1);
        }
    }
    None
}

// The trim, if no checkpoint of the object reaches from there to the position at most.
fn unreached<K: Registry>(
    alloc: Global,
    entries: &Entries,
    oid: Oid,
    below: Pos,
    pos: Pos,
) -> Result<Option<Pos>, NoMemory>
    ensures { IfOk result (λ b. b ≡ lost_by (meaning_of K.Registry) entries.now oid pos (Some below)) }
{
    let base: Option<Base<K>> = last_base(alloc, entries, oid, below, pos)?;
    match base {
        None => Ok(Some(below)),
        Some(_) => Ok(None),
    }
}

/// The trim that an object's walk met, if no checkpoint of the object reaches from there to the position at most.
/// An `Err` is want of memory.
pub fn lost<K: Registry>(
    alloc: Global,
    entries: &Entries,
    gone: &[(Oid, Pos)],
    oid: Oid,
    pos: Pos,
) -> Result<Option<Pos>, NoMemory>
    ensures { IfOk result (λ b. b ≡ lost_by (meaning_of K.Registry) entries.now oid pos (trims.trim_of gone.now oid)) }
{
    match trim_of(gone, oid) {
        None => Ok(None),
        Some(below) => unreached::<K>(alloc, entries, oid, below, pos),
    }
}

// The highest checkpoint from a trim to the position, else the object's base in a new view.
fn from_trim<K: Registry>(
    alloc: Global,
    entries: &Entries,
    gone: &[(Oid, Pos)],
    objects: &[Oid],
    oid: Oid,
    below: Pos,
    pos: Pos,
) -> Result<Base<K>, NoMemory>
    requires header { is_header objects.now ≡ true }
    requires trimmed { trims.trim_of gone.now oid ≡ Some below }
    ensures told { IfOk result (λ b. KeepsBase (meaning_of K.Registry) b (told.past_base (meaning_of K.Registry) entries.now gone.now objects.now pos oid)) }
    ensures lawful { AreSpelled entries.now → IfOk result (λ b. IsLawfulBase b) }
{
    let base = last_base(alloc, entries, oid, below, pos)?;
    match base {
        None => view_base(alloc, entries, gone, objects, oid),
        Some(base) => Ok(base),
    }
}

// The base of an object in a view at a position.
fn past_base<K: Registry>(
    alloc: Global,
    entries: &Entries,
    gone: &[(Oid, Pos)],
    objects: &[Oid],
    oid: Oid,
    pos: Pos,
) -> Result<Base<K>, NoMemory>
    requires { is_header objects.now ≡ true }
    ensures told { IfOk result (λ b. KeepsBase (meaning_of K.Registry) b (told.past_base (meaning_of K.Registry) entries.now gone.now objects.now pos oid)) }
    ensures lawful { AreSpelled entries.now → IfOk result (λ b. IsLawfulBase b) }
{
    match trim_of(gone, oid) {
        None => fresh_base(alloc, oid, objects),
        Some(below) => from_trim(alloc, entries, gone, objects, oid, below, pos),
    }
}

/// The bases of objects in a view at a position, in their order. Where an object's walk met a trim, it is the
/// highest checkpoint from there to the position; where there is none, the base is that of a new view.
///
/// An `Err` is want of memory.
pub fn past_bases<K: Registry>(
    alloc: Global,
    entries: &Entries,
    gone: &[(Oid, Pos)],
    objects: &[Oid],
    oids: &[Oid],
    pos: Pos,
) -> Result<List<Base<K>>, NoMemory>
    requires { is_header objects.now ≡ true }
    ensures told { IfOk result (λ bs. KeepsBases (meaning_of K.Registry) bs (map (told.past_base (meaning_of K.Registry) entries.now gone.now objects.now pos) oids.now)) }
    ensures lawful { AreSpelled entries.now → IfOk result (λ bs. AreLawfulBases bs) }
{
    let mut bases = List::new(alloc);
    for oid in oids {
        let base = past_base(alloc, entries, gone, objects, *oid, pos)?;
        bases.push(base)?;
    }
    Ok(bases)
}
