//! Entries as bytes.

ghost use Rattle.std.specs.Prelude.{◌≡◌, ◌≤◌, ◌++◌, true, length, Ok, OnOk, IfOk};
ghost use Rattle.tg_entry.specs.declared.entry.Entry.{Entry};
ghost use Rattle.tg_codec.specs.Reading.{Gives};
ghost use Rattle.tg_codec.specs.Whole.{whole, IsSpelling, IsLongestLawful};
ghost use Rattle.tg_entry.specs.Answers.{Decodes, OnBadEntry, Encodes};
ghost use Rattle.tg_entry.specs.Format.{entry};
ghost use Rattle.tg_entry.specs.Short.{IsShort};

use crate::body::{body_in, body_size, put_body, tag_of};
use crate::entry::{Entry, Head};
use crate::fault::EntryFault;
use std::alloc::Global;
use tg_base::{Blob, List, NoMemory};
use tg_codec::{
    ReadFault, ended, fixed, links_in, put_links, put_u16, put_u32, refused, size_links, u8_in,
    u16_in, u32_in,
};

const FIRST: u8 = 0x54;

#[tactic(auto, unfolding(crate::specs::Format::entry))]
fn entry_in(alloc: Global, bytes: &[u8]) -> Result<(Entry, &[u8]), ReadFault>
    ensures { Gives (λ x. (x.0, x.1.now)) result (entry.read bytes.now) }
{
    let ((), rest) = fixed(&[FIRST], bytes)?;
    let (format, rest) = u8_in(&[(1, 2)], rest)?;
    let (tag, rest) = u8_in(&[(1, 3)], rest)?;
    let (client, rest) = u16_in(&[(0, u64::MAX)], rest)?;
    let (number, rest) = u32_in(&[(1, u64::MAX)], rest)?;
    let most = if tag == 3 { 1 } else { 16 };
    let (streams, rest) = links_in(alloc, &[(1, most)], rest)?;
    let (body, rest) = body_in(alloc, format, tag, streams.as_slice(), rest)?;
    let head = Head {
        format,
        client,
        number,
        streams,
    };
    Ok((Entry { head, body }, rest))
}

#[tactic(auto, unfolding(crate::specs::Format::entry))]
fn put_entry(value: &Entry, out: &mut List<u8>) -> Result<(), NoMemory>
    requires { IsShort value.now }
    ensures { OnOk result (out.new ≡ out.old ++ entry.spell value.now) }
{
    out.push(FIRST)?;
    out.push(value.head.format)?;
    out.push(tag_of(&value.body))?;
    put_u16(value.head.client, out)?;
    put_u32(value.head.number, out)?;
    put_links(value.head.streams.as_slice(), out)?;
    put_body(&value.head, &value.body, out)
}

#[tactic(auto, unfolding(crate::specs::Format::entry))]
fn length_of(value: &Entry) -> usize
    requires { IsShort value.now }
    ensures { result ≡ length (entry.spell value.now) }
{
    let streams = size_links(value.head.streams.as_slice());
    9 + streams + body_size(&value.head, &value.body)
}

/// The length of an entry's spelling. It takes no memory.
pub fn size(value: &Entry) -> usize
    requires { entry.fits value.now ≡ true }
    ensures { result ≡ length (entry.spell value.now) }
{
    length_of(value)
}

/// The page of an entry, which is its one spelling.
///
/// `TooLarge` comes exactly where the spelling has more than 4,096 bytes.
pub fn encode(alloc: Global, value: &Entry) -> Result<Blob, EntryFault>
    requires { entry.fits value.now ≡ true }
    ensures { Encodes (entry.spell value.now) result }
{
    let bytes = size(value);
    if bytes > Blob::MAX {
        return Err(EntryFault::TooLarge { bytes });
    }
    let mut out = List::new(alloc);
    put_entry(value, &mut out)?;
    let page = Blob::new(alloc, out)?.unwrap();
    Ok(page)
}

fn read_all(alloc: Global, bytes: &[u8]) -> Result<Entry, EntryFault>
    ensures { Decodes result (whole entry bytes.now) }
{
    match entry_in(alloc, bytes) {
        Ok((entry, rest)) => Ok(ended(bytes, entry, rest)?),
        Err(fault) => Err(EntryFault::from(refused(bytes, fault))),
    }
}

/// The entry that the bytes spell, all of the bytes.
pub fn decode(alloc: Global, bytes: &[u8]) -> Result<Entry, EntryFault>
    // What is read is spelled so.
    ensures found { IfOk result (λ e. IsSpelling entry e bytes.now) }
    // What is spelled so is read, unless memory runs out.
    ensures only { (e : Entry) → IsSpelling entry e bytes.now → Decodes result (Ok e) }
    // The place of a fault: the longest front that is lawful so far.
    ensures place { OnBadEntry result (IsLongestLawful entry bytes.now) }
    // Which of these it is.
    ensures exact { Decodes result (whole entry bytes.now) }
{
    read_all(alloc, bytes)
}
