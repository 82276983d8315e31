//! The directory and its ops in bytes.

ghost use Rattle.std.specs.Prelude.{◌≡◌, ◌++◌, true, [], List, length, IfOk, OnOk};
ghost use Rattle.std.specs.Int.{w32, to_be_bytes};
ghost use Rattle.tg_codec.specs.Codec.{dep, u64, many, spell_many};
ghost use Rattle.tg_codec.specs.Streams.{any};
ghost use Rattle.tg_codec.specs.Reading.{Gives};
ghost use Rattle.tg_dir.specs.Spellings.{object, is_number};
ghost use Rattle.tg_dir.specs.Directories.{new_name, new_object, listing, after_listing, listings, op_format};
ghost use Rattle.tg_dir.specs.declared.listing.Listing.{Listing};

use crate::directory::DirectoryOp;
use crate::listing::{Listing, is_listed, is_name};
use crate::object::Object;
use std::alloc::Global;
use tg_base::{List, NoMemory, Oid, Pos};
use tg_codec::{ReadFault, put_u32, put_u64, u8_in, u32_in, u64_in};
use tg_kind::{Text, put_word, text_in};

/// The code of `name`.
const NAME: u8 = 0x01;

/// The code of `mark`.
const MARK: u8 = 0x02;

// An object's number.
fn object_in(bytes: &[u8]) -> Result<(Oid, &[u8]), ReadFault>
    ensures exact { Gives (λ x. (x.0, x.1.now)) result (object.read bytes.now) }
    ensures known { IfOk result (λ x. is_number x.0 ≡ true) }
{
    let (number, rest) = u32_in(&[(0, 0), (0x0100_0000, 0x06ff_ffff)], bytes)?;
    Ok((Oid(number), rest))
}

// A name that no entry before has.
fn new_name_in<'a>(
    alloc: Global,
    before: &[Listing],
    bytes: &'a [u8],
) -> Result<(Text, &'a [u8]), ReadFault>
    ensures { Gives (λ x. (x.0, x.1.now)) result ((new_name before.now).read bytes.now) }
{
    let (name, rest) = text_in(alloc, bytes)?;
    if is_name(before, &name) {
        return Err(ReadFault::Stop { left: bytes.len() });
    }
    Ok((name, rest))
}

// An object that no entry before has.
fn new_object_in<'a>(before: &[Listing], bytes: &'a [u8]) -> Result<(Oid, &'a [u8]), ReadFault>
    ensures { Gives (λ x. (x.0, x.1.now)) result ((new_object before.now).read bytes.now) }
{
    let (oid, rest) = object_in(bytes)?;
    if is_listed(before, oid) {
        return Err(ReadFault::Stop { left: bytes.len() });
    }
    Ok((oid, rest))
}

// An entry after others.
fn listing_in<'a>(
    alloc: Global,
    before: &[Listing],
    bytes: &'a [u8],
) -> Result<(Listing, &'a [u8]), ReadFault>
    ensures { Gives (λ x. (x.0, x.1.now)) result ((listing before.now).read bytes.now) }
{
    let (name, rest) = new_name_in(alloc, before, bytes)?;
    let (oid, rest) = new_object_in(before, rest)?;
    let (mark, rest) = u64_in(&[(0, u64::MAX)], rest)?;
    Ok((Listing { name, oid, mark }, rest))
}

/// So many entries.
pub fn listings_in(
    alloc: Global,
    count: u32,
    bytes: &[u8],
) -> Result<(Vec<Listing>, &[u8]), ReadFault>
    ensures { Gives (λ x. (x.0.items, x.1.now)) result ((many listing after_listing count []).read bytes.now) }
{
    let mut entries = Vec::new(alloc);
    let mut rest = bytes;
    for _ in 0..count {
        let (entry, after) = listing_in(alloc, &entries, rest)?;
        entries.push(entry)?;
        rest = after;
    }
    Ok((entries, rest))
}

// Puts an object's number and a mark last.
fn put_mark(oid: Oid, mark: Pos, out: &mut List<u8>) -> Result<(), NoMemory>
    ensures { OnOk result (out.new ≡ out.old ++ (dep object (λ _. u64 any)).spell (oid, mark)) }
{
    put_u32(oid.0, out)?;
    put_u64(mark, out)?;
    Ok(())
}

fn put_listing(entry: &Listing, out: &mut List<u8>) -> Result<(), NoMemory>
    ensures { OnOk result ((before : List Listing) → out.new ≡ out.old ++ (listing before).spell entry.now) }
{
    put_word(&entry.name, out)?;
    put_mark(entry.oid, entry.mark, out)
}

// Puts the spellings of entries last.
fn put_listings(entries: &[Listing], out: &mut List<u8>) -> Result<(), NoMemory>
    ensures { OnOk result (out.new ≡ out.old ++ spell_many listing after_listing [] entries.now) }
{
    for entry in entries {
        put_listing(entry, out)?;
    }
    Ok(())
}

// Puts how many entries there are last. No op makes more of them than four bytes count.
fn put_count(count: usize, out: &mut List<u8>) -> Result<(), NoMemory>
    ensures { OnOk result (out.new ≡ out.old ++ to_be_bytes w32 count) }
{
    put_u32((count % 0x1_0000_0000) as u32, out)
}

// Puts entries last, behind their count.
fn put_entries(entries: &[Listing], out: &mut List<u8>) -> Result<(), NoMemory>
    ensures { OnOk result (out.new ≡ out.old ++ (to_be_bytes w32 (length entries.now) ++ spell_many listing after_listing [] entries.now)) }
{
    put_count(entries.len(), out)?;
    put_listings(entries, out)?;
    Ok(())
}

/// Puts entries and a floor last.
pub fn put_state(entries: &[Listing], floor: Pos, out: &mut List<u8>) -> Result<(), NoMemory>
    ensures { OnOk result (out.new ≡ out.old ++ listings.spell (record { entries = entries.now; floor = floor })) }
{
    put_entries(entries, out)?;
    put_u64(floor, out)?;
    Ok(())
}

/// The op whose bytes are in front.
#[tactic(auto, unfolding(crate::specs::Directories::op_format))]
pub fn op_in(alloc: Global, bytes: &[u8]) -> Result<(DirectoryOp, &[u8]), ReadFault>
    ensures { Gives (λ x. (x.0, x.1.now)) result (op_format.read bytes.now) }
{
    let (code, rest) = u8_in(&[(1, 2)], bytes)?;
    if code == NAME {
        let (name, rest) = text_in(alloc, rest)?;
        let (oid, rest) = object_in(rest)?;
        let oid = Object::of(oid).unwrap();
        return Ok((DirectoryOp::Name { name, oid }, rest));
    }
    let (oid, rest) = object_in(rest)?;
    let (mark, rest) = u64_in(&[(0, u64::MAX)], rest)?;
    let oid = Object::of(oid).unwrap();
    Ok((DirectoryOp::Mark { oid, mark }, rest))
}

/// Puts the bytes of an op last.
#[tactic(auto, unfolding(crate::specs::Directories::op_format))]
pub fn put_op_bytes(op: &DirectoryOp, out: &mut List<u8>) -> Result<(), NoMemory>
    ensures { OnOk result (out.new ≡ out.old ++ op_format.spell op.now) }
{
    match op {
        DirectoryOp::Name { name, oid } => {
            out.push(NAME)?;
            put_word(name, out)?;
            put_u32(oid.oid().0, out)
        }
        DirectoryOp::Mark { oid, mark } => {
            out.push(MARK)?;
            put_mark(oid.oid(), *mark, out)
        }
    }
}
