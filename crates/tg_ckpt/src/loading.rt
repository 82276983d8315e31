//! The base that a checkpoint gives.

ghost use Rattle.std.specs.Prelude.{◌≡◌, ◌&&◌, ◌==◌, nat_le, Option, IfOk};
ghost use Rattle.tg_kind.specs.Of.{meaning_of};
ghost use Rattle.tg_base.specs.Orders.{oid_eq};
ghost use Rattle.tg_protocol.specs.Versions.{based};
ghost use Rattle.tg_protocol.specs.Checkpoints as told;
ghost use Rattle.tg_ckpt.specs.Kept.{kept_at, kept_maybe, offered};

use std::alloc::Global;
use tg_base::{NoMemory, Oid, Part, Pos};
use tg_entry::{Body, Entry};
use tg_kind::{KindFault, Registry};
use tg_play::Base;
use tg_vers::Versions;

// Whether the entry is of the format that is written now.
fn is_current(entry: &Entry) -> bool
    ensures { result ≡ (entry.now.head.format == 2) }
{
    entry.head.format == 2
}

// Whether a checkpoint is of the object, and its versions are of its time.
fn is_of(oid: Oid, saved: Oid, version: u64, upto: Pos) -> bool
    ensures { result ≡ (oid_eq oid saved && nat_le version upto) }
{
    oid.0 == saved.0 && version <= upto
}

/// The `upto` of an entry that is a checkpoint of the object and counts, if its state loads. It takes no memory.
pub fn offered(entry: &Entry, oid: Oid) -> Option<Pos>
    ensures { result ≡ offered oid entry.now }
{
    if !is_current(entry) {
        return None;
    }
    match &entry.body {
        Body::Commit { .. } => None,
        Body::Decision { .. } => None,
        Body::Checkpoint {
            oid: saved,
            upto,
            version,
            ..
        } => {
            if is_of(oid, *saved, *version, *upto) {
                return Some(*upto);
            }
            None
        }
    }
}

// The state of the object that bytes spell; None where they spell none. An `Err` is want of memory.
fn state_in<K: Registry>(alloc: Global, oid: Oid, bytes: &[u8]) -> Result<Option<K>, NoMemory>
    ensures { IfOk result (λ s. s ≡ (meaning_of K.Registry).load oid bytes.now) }
{
    match K::load(alloc, oid, bytes) {
        Ok(state) => Ok(Some(state)),
        Err(KindFault::BadBytes { .. }) => Ok(None),
        Err(KindFault::NoMemory) => Err(NoMemory),
    }
}

// The base of a state that was loaded, with the versions of the object, of its whole and of its keys.
fn with_versions<K: Registry>(
    alloc: Global,
    oid: Oid,
    upto: Pos,
    versions: (u64, u64),
    keys: &[(Part, u64)],
    state: Option<K>,
) -> Result<Option<Base<K>>, NoMemory>
    ensures { IfOk result (λ b. b ≡ kept_maybe (meaning_of K.Registry) (told.loaded (meaning_of K.Registry) oid upto (based oid versions.0 versions.1 keys.now) state)) }
{
    match state {
        None => Ok(None),
        Some(state) => {
            let vers = Versions::of(alloc, oid, versions.0, versions.1, keys)?;
            Ok(Some(Base {
                oid,
                state,
                vers,
                upto,
            }))
        }
    }
}

// The base that a body gives, in an entry of the format that is written now.
fn base_in<K: Registry>(alloc: Global, body: &Body, oid: Oid) -> Result<Option<Base<K>>, NoMemory>
    ensures { IfOk result (λ b. b ≡ kept_maybe (meaning_of K.Registry) (told.base_in (meaning_of K.Registry) oid body.now)) }
{
    match body {
        Body::Commit { .. } => Ok(None),
        Body::Decision { .. } => Ok(None),
        Body::Checkpoint {
            oid: saved,
            upto,
            version,
            whole,
            keys,
            state,
        } => {
            if !is_of(oid, *saved, *version, *upto) {
                return Ok(None);
            }
            let state = state_in::<K>(alloc, oid, state.as_slice())?;
            with_versions(
                alloc,
                oid,
                *upto,
                (*version, *whole),
                keys.as_slice(),
                state,
            )
        }
    }
}

/// The base that an entry gives; None where it is no checkpoint of the object, or one that counts as absent.
/// An `Err` is want of memory.
pub fn base_at<K: Registry>(
    alloc: Global,
    entry: &Entry,
    oid: Oid,
) -> Result<Option<Base<K>>, NoMemory>
    ensures { IfOk result (λ b. b ≡ kept_at (meaning_of K.Registry) oid entry.now) }
{
    if !is_current(entry) {
        return Ok(None);
    }
    base_in(alloc, &entry.body, oid)
}
