//! The bases with which views begin. Those from entries that have a spelling are lawful: a view may begin with them.

ghost use Rattle.std.specs.Prelude.{◌≡◌, true, map, IfOk, IfSome};
ghost use Rattle.tg_base.specs.declared.ids.Oid.{Oid};
ghost use Rattle.tg_kind.specs.Headers.{is_header};
ghost use Rattle.tg_kind.specs.Of.{meaning_of};
ghost use Rattle.tg_protocol.specs.Checkpoints as told;
ghost use Rattle.tg_protocol.specs.Past as past;
ghost use Rattle.tg_protocol.specs.Views as views;
ghost use Rattle.tg_play.specs.Lawful.{IsLawfulBase, AreLawfulBases};
ghost use Rattle.tg_play.specs.Relations.{KeepsBase, KeepsBases};
ghost use Rattle.tg_ckpt.specs.Answers.{KeepsMaybe, Loads};
ghost use Rattle.tg_ckpt.specs.Kept.{kept_base};
ghost use Rattle.tg_ckpt.specs.Saving.{AreSpelled};

use crate::choosing::{highest, lowest};
use crate::fault::LoadFault;
use std::alloc::Global;
use tg_base::{List, NoMemory, Oid, Pos};
use tg_entry::{Entries, Entry};
use tg_kind::Registry;
use tg_play::Base;
use tg_vers::Versions;

/// The checkpoint of the object that loads and has the least `upto` not below a position; of several with that
/// `upto` the one at the least position. A checkpoint of format 1, or with a version above its `upto`, counts as
/// absent.
///
/// `NoCheckpoint` comes exactly where there is none.
pub fn load_from<K: Registry>(
    alloc: Global,
    entries: &Entries,
    oid: Oid,
    below: Pos,
) -> Result<Base<K>, LoadFault>
    ensures told { Loads (meaning_of K.Registry) oid result (told.load_from (meaning_of K.Registry) entries.now oid below) }
    ensures lawful { AreSpelled entries.now → IfOk result (λ b. IsLawfulBase b) }
{
    let base = lowest(alloc, entries.as_slice(), oid, below)?;
    match base {
        None => Err(LoadFault::NoCheckpoint { oid }),
        Some(base) => Ok(base),
    }
}

/// The checkpoint of the object that loads and has the greatest `upto` from `below` to `pos`; of several with that
/// `upto` the one at the least position. What counts as absent is as for [`load_from`].
///
/// An `Err` is want of memory.
pub fn last_base<K: Registry>(
    alloc: Global,
    entries: &Entries,
    oid: Oid,
    below: Pos,
    pos: Pos,
) -> Result<Option<Base<K>>, NoMemory>
    ensures told { IfOk result (λ b. KeepsMaybe (meaning_of K.Registry) b (past.last_base (meaning_of K.Registry) entries.now oid below pos)) }
    ensures lawful { AreSpelled entries.now → IfOk result (λ b. IfSome b (λ x. IsLawfulBase x)) }
{
    let base = highest(alloc, entries.as_slice(), oid, below, pos)?;
    Ok(base)
}

// The object at first, by the header's objects.
fn fresh<K: Registry>(alloc: Global, oid: Oid, objects: &[Oid]) -> Result<Base<K>, NoMemory>
    requires { is_header objects.now ≡ true }
    ensures { IfOk result (λ b. b ≡ kept_base (meaning_of K.Registry) (views.fresh_base (meaning_of K.Registry) objects.now oid)) }
{
    let state = K::fresh(alloc, oid, objects)?;
    let vers = Versions::new(alloc);
    Ok(Base {
        oid,
        state,
        vers,
        upto: 0,
    })
}

/// The object at first, by the header's objects. An `Err` is want of memory.
pub fn fresh_base<K: Registry>(
    alloc: Global,
    oid: Oid,
    objects: &[Oid],
) -> Result<Base<K>, NoMemory>
    requires { is_header objects.now ≡ true }
    ensures told { IfOk result (λ b. KeepsBase (meaning_of K.Registry) b (views.fresh_base (meaning_of K.Registry) objects.now oid)) }
    ensures lawful { IfOk result (λ b. IsLawfulBase b) }
{
    let base = fresh(alloc, oid, objects)?;
    Ok(base)
}

// Where an object's walk met a trim.
fn trim_of(gone: &[(Oid, Pos)], oid: Oid) -> Option<Pos>
    ensures { result ≡ told.trim_of gone.now oid }
{
    for trim in gone {
        if trim.0.0 == oid.0 {
            return Some(trim.1);
        }
    }
    None
}

// The lowest checkpoint from a position on, else the object at first.
fn from_trim<K: Registry>(
    alloc: Global,
    entries: &[(Pos, Entry)],
    objects: &[Oid],
    oid: Oid,
    below: Pos,
) -> Result<Base<K>, NoMemory>
    requires { is_header objects.now ≡ true }
    ensures { IfOk result (λ b. b ≡ kept_base (meaning_of K.Registry) (told.base_or (meaning_of K.Registry) objects.now oid (told.load_from (meaning_of K.Registry) entries.now oid below))) }
{
    let base = lowest(alloc, entries, oid, below)?;
    match base {
        None => fresh(alloc, oid, objects),
        Some(base) => Ok(base),
    }
}

// The base of an object in a new view.
fn begun<K: Registry>(
    alloc: Global,
    entries: &[(Pos, Entry)],
    gone: &[(Oid, Pos)],
    objects: &[Oid],
    oid: Oid,
) -> Result<Base<K>, NoMemory>
    requires { is_header objects.now ≡ true }
    ensures { IfOk result (λ b. b ≡ kept_base (meaning_of K.Registry) (told.view_base (meaning_of K.Registry) entries.now gone.now objects.now oid)) }
{
    match trim_of(gone, oid) {
        None => fresh(alloc, oid, objects),
        Some(below) => from_trim(alloc, entries, objects, oid, below),
    }
}

/// The base of an object in a new view. Where the object's walk met a trim, as `gone` tells with the position, it is
/// the lowest checkpoint from there on, if there is one; else the object is as at first, by the header's objects.
///
/// An `Err` is want of memory.
pub fn view_base<K: Registry>(
    alloc: Global,
    entries: &Entries,
    gone: &[(Oid, Pos)],
    objects: &[Oid],
    oid: Oid,
) -> Result<Base<K>, NoMemory>
    requires { is_header objects.now ≡ true }
    ensures told { IfOk result (λ b. KeepsBase (meaning_of K.Registry) b (told.view_base (meaning_of K.Registry) entries.now gone.now objects.now oid)) }
    ensures lawful { AreSpelled entries.now → IfOk result (λ b. IsLawfulBase b) }
{
    let base = begun(alloc, entries.as_slice(), gone, objects, oid)?;
    Ok(base)
}

// The bases of objects in a new view, in their order.
fn all_begun<K: Registry>(
    alloc: Global,
    entries: &[(Pos, Entry)],
    gone: &[(Oid, Pos)],
    objects: &[Oid],
    oids: &[Oid],
) -> Result<List<Base<K>>, NoMemory>
    requires { is_header objects.now ≡ true }
    ensures { IfOk result (λ bs. bs ≡ map (λ (o : Oid). kept_base (meaning_of K.Registry) (told.view_base (meaning_of K.Registry) entries.now gone.now objects.now o)) oids.now) }
{
    let mut bases = List::new(alloc);
    for oid in oids {
        let base = begun(alloc, entries, gone, objects, *oid)?;
        bases.push(base)?;
    }
    Ok(bases)
}

/// The bases of objects in a new view, in their order, each as [`view_base`] gives it.
///
/// An `Err` is want of memory.
pub fn view_bases<K: Registry>(
    alloc: Global,
    entries: &Entries,
    gone: &[(Oid, Pos)],
    objects: &[Oid],
    oids: &[Oid],
) -> Result<List<Base<K>>, NoMemory>
    requires { is_header objects.now ≡ true }
    ensures told { IfOk result (λ bs. KeepsBases (meaning_of K.Registry) bs (told.view_bases (meaning_of K.Registry) entries.now gone.now objects.now oids.now)) }
    ensures lawful { AreSpelled entries.now → IfOk result (λ bs. AreLawfulBases bs) }
{
    let bases = all_begun(alloc, entries.as_slice(), gone, objects, oids)?;
    Ok(bases)
}
