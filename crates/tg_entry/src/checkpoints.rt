//! Checkpoints.

ghost use Rattle.std.specs.Prelude.{◌≡◌, ◌≤◌, ◌++◌, ℕ, length, OnOk};
ghost use Rattle.tg_codec.specs.Reading.{Gives};
ghost use Rattle.tg_codec.specs.Codec.{variant, text as bytes_of};
ghost use Rattle.tg_codec.specs.Streams.{any};
ghost use Rattle.tg_entry.specs.Checkpoints.{Ranges, Keyed, key, after_key, first_key, keys, new_fields, old_fields, make_checkpoint, as_checkpoint};

use crate::entry::Body;
use crate::parts::{over, part_above, part_size, put_part};
use std::alloc::Global;
use tg_base::{List, NoMemory, Oid, Part, Pos};
use tg_codec::{
    Item, Measured, ReadFault, oid_in, put_text, put_u16, put_u32, put_u64, read_items, size_items,
    text, u16_in, u64_in, write_items,
};

/// The key before, and between what versions a key's is.
#[derive(Drop)]
pub struct KeyBound {
    whole: u64,
    version: u64,
    part: Option<Part>,
}

// Keys that rise, with their versions.
struct Keys;

impl Item for Keys {
    type State = KeyBound;

    type Value = (Part, u64);

    ghost format = { key };

    ghost following = { after_key };

    fn read<'a>(
        alloc: Global,
        state: &KeyBound,
        bytes: &'a [u8],
    ) -> Result<((Part, u64), &'a [u8]), ReadFault> {
        let (part, rest) = part_above(alloc, &state.part, bytes)?;
        let (version, rest) = u64_in(&[over(state.whole, state.version)], rest)?;
        Ok(((part, version), rest))
    }

    fn write(value: &(Part, u64), out: &mut List<u8>) -> Result<(), NoMemory> {
        put_part(&value.0, out)?;
        put_u64(value.1, out)
    }

    fn follow(state: KeyBound, value: &(Part, u64)) -> Result<KeyBound, NoMemory> {
        let part = value.0.copy()?;
        Ok(KeyBound {
            whole: state.whole,
            version: state.version,
            part: Some(part),
        })
    }
}

impl Measured for Keys {
    fn size(value: &(Part, u64)) -> usize {
        8 + part_size(&value.0)
    }
}

#[tactic(auto, unfolding(crate::specs::Checkpoints::keys))]
fn keys_in(
    alloc: Global,
    whole: u64,
    version: u64,
    bytes: &[u8],
) -> Result<(List<(Part, u64)>, &[u8]), ReadFault>
    ensures { Gives (λ x. (x.0, x.1.now)) result ((keys whole version).read bytes.now) }
{
    let (count, rest) = u16_in(&[(0, u64::MAX)], bytes)?;
    let first = KeyBound {
        whole,
        version,
        part: Some(Part::All),
    };
    let (keys, rest) = read_items::<Keys>(alloc, u64::from(count), first, rest)?;
    Ok((keys, rest))
}

fn state_in(alloc: Global, bytes: &[u8]) -> Result<(List<u8>, &[u8]), ReadFault>
    ensures { Gives (λ x. (x.0, x.1.now)) result ((bytes_of any).read bytes.now) }
{
    let (state, rest) = text(&[(0, u64::MAX)], bytes)?;
    let state = List::from_vec(Vec::from_slice(alloc, state)?);
    Ok((state, rest))
}

/// A checkpoint of format 2, of an object from some ranges.
#[tactic(auto, unfolding(crate::specs::Checkpoints::new_fields))]
pub fn new_checkpoint<'a>(
    alloc: Global,
    oids: &[(u64, u64)],
    bytes: &'a [u8],
) -> Result<(Body, &'a [u8]), ReadFault>
    ensures { Gives (λ x. (x.0, x.1.now)) result ((variant make_checkpoint as_checkpoint (new_fields oids.now)).read bytes.now) }
{
    let (oid, rest) = oid_in(oids, bytes)?;
    let (upto, rest) = u64_in(&[(0, u64::MAX)], rest)?;
    let (version, rest) = u64_in(&[(0, u64::MAX)], rest)?;
    let (whole, rest) = u64_in(&[(0, version)], rest)?;
    let (keys, rest) = keys_in(alloc, whole, version, rest)?;
    let (state, rest) = state_in(alloc, rest)?;
    Ok((
        Body::Checkpoint {
            oid,
            upto,
            version,
            whole,
            keys,
            state,
        },
        rest,
    ))
}

/// A checkpoint of format 1, of an object from some ranges.
#[tactic(auto, unfolding(crate::specs::Checkpoints::old_fields))]
pub fn old_checkpoint<'a>(
    alloc: Global,
    oids: &[(u64, u64)],
    bytes: &'a [u8],
) -> Result<(Body, &'a [u8]), ReadFault>
    ensures { Gives (λ x. (x.0, x.1.now)) result ((variant make_checkpoint as_checkpoint (old_fields oids.now)).read bytes.now) }
{
    let (oid, rest) = oid_in(oids, bytes)?;
    let (upto, rest) = u64_in(&[(0, u64::MAX)], rest)?;
    let (version, rest) = u64_in(&[(0, u64::MAX)], rest)?;
    let (state, rest) = state_in(alloc, rest)?;
    Ok((
        Body::Checkpoint {
            oid,
            upto,
            version,
            whole: version,
            keys: List::new(alloc),
            state,
        },
        rest,
    ))
}

#[tactic(auto, unfolding(crate::specs::Checkpoints::keys))]
fn put_keys(
    whole: u64,
    version: u64,
    value: &[(Part, u64)],
    out: &mut List<u8>,
) -> Result<(), NoMemory>
    requires { length value.now ≤ 65535 }
    ensures { OnOk result (out.new ≡ out.old ++ (keys whole version).spell value.now) }
{
    let _versions = (whole, version);
    put_u16(value.len() as u16, out)?;
    write_items::<Keys>(value, out)
}

/// The length of the spelling of the keys. It takes no memory.
#[tactic(auto, unfolding(crate::specs::Checkpoints::keys))]
pub fn size_keys(whole: u64, version: u64, value: &[(Part, u64)]) -> usize
    requires { length value.now ≤ 65535 }
    ensures len { result ≡ length ((keys whole version).spell value.now) }
    ensures most { result ≤ 1100000000 }
{
    let _versions = (whole, version);
    2 + size_items::<Keys>(value)
}

/// Puts the fields of a checkpoint of format 2 last. The versions are the object's and the whole's.
#[tactic(auto, unfolding(crate::specs::Checkpoints::new_fields))]
pub fn put_new(
    oid: Oid,
    upto: Pos,
    versions: (u64, u64),
    keys: &[(Part, u64)],
    state: &[u8],
    out: &mut List<u8>,
) -> Result<(), NoMemory>
    requires keys { length keys.now ≤ 65535 }
    requires state { length state.now ≤ 65535 }
    ensures { OnOk result ((oids : Ranges) → out.new ≡ out.old ++ (new_fields oids).spell (oid, (upto, (versions.0, (versions.1, (keys.now, state.now)))))) }
{
    put_u32(oid.0, out)?;
    put_u64(upto, out)?;
    put_u64(versions.0, out)?;
    put_u64(versions.1, out)?;
    put_keys(versions.1, versions.0, keys, out)?;
    put_text(state, out)?;
    Ok(())
}

/// Puts the fields of a checkpoint of format 1 last.
#[tactic(auto, unfolding(crate::specs::Checkpoints::old_fields))]
pub fn put_old(
    oid: Oid,
    upto: Pos,
    version: u64,
    state: &[u8],
    out: &mut List<u8>,
) -> Result<(), NoMemory>
    requires { length state.now ≤ 65535 }
    ensures { OnOk result ((oids : Ranges) (whole : ℕ) (keys : Keyed) → out.new ≡ out.old ++ (old_fields oids).spell (oid, (upto, (version, (whole, (keys, state.now)))))) }
{
    put_u32(oid.0, out)?;
    put_u64(upto, out)?;
    put_u64(version, out)?;
    put_text(state, out)?;
    Ok(())
}
