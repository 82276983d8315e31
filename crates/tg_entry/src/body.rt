//! The three bodies of entries.

ghost use Rattle.std.specs.Prelude.{◌≡◌, ◌≤◌, ◌++◌, ◌∷◌, [], true, length, OnOk};
ghost use Rattle.tg_codec.specs.Reading.{Gives, meets};
ghost use Rattle.tg_entry.specs.Format.{tag_of, commit, decision, checkpoint, body};
ghost use Rattle.tg_entry.specs.Short.{IsShortBody};

use crate::checkpoints::{new_checkpoint, old_checkpoint, put_new, put_old, size_keys};
use crate::entry::{Body, Head};
use crate::reads::{put_reads, reads_in, size_reads};
use crate::writes::{put_writes, size_writes, stream_numbers, writes_in};
use std::alloc::Global;
use tg_base::{List, NoMemory, StreamLink};
use tg_codec::{ReadFault, points, put_u64, u8_in, u64_in};

fn commit_in<'a>(
    alloc: Global,
    format: u8,
    streams: &[StreamLink],
    bytes: &'a [u8],
) -> Result<(Body, &'a [u8]), ReadFault>
    ensures { Gives (λ x. (x.0, x.1.now)) result ((commit format streams.now).read bytes.now) }
{
    let (reads, rest) = reads_in(alloc, format, bytes)?;
    let (writes, rest) = writes_in(alloc, streams, rest)?;
    Ok((Body::Commit { reads, writes }, rest))
}

fn decision_in(bytes: &[u8]) -> Result<(Body, &[u8]), ReadFault>
    ensures { Gives (λ x. (x.0, x.1.now)) result (decision.read bytes.now) }
{
    let (at, rest) = u64_in(&[(0, u64::MAX)], bytes)?;
    let (byte, rest) = u8_in(&[(0, 1)], rest)?;
    let yes = byte == 1;
    Ok((Body::Decision { at, yes }, rest))
}

fn checkpoint_in<'a>(
    alloc: Global,
    format: u8,
    streams: &[StreamLink],
    bytes: &'a [u8],
) -> Result<(Body, &'a [u8]), ReadFault>
    ensures { Gives (λ x. (x.0, x.1.now)) result ((checkpoint format streams.now).read bytes.now) }
{
    let numbers = stream_numbers(alloc, streams)?;
    let oids = points(alloc, &numbers)?;
    if format == 1 {
        old_checkpoint(alloc, &oids, bytes)
    } else {
        new_checkpoint(alloc, &oids, bytes)
    }
}

/// The number that stands for a body.
pub fn tag_of(value: &Body) -> u8
    ensures { result ≡ tag_of value.now }
{
    match value {
        Body::Commit { .. } => 1,
        Body::Decision { .. } => 2,
        Body::Checkpoint { .. } => 3,
    }
}

/// The body of a format, in these streams, with this tag.
#[tactic(auto, unfolding(crate::specs::Format::body))]
pub fn body_in<'a>(
    alloc: Global,
    format: u8,
    tag: u8,
    streams: &[StreamLink],
    bytes: &'a [u8],
) -> Result<(Body, &'a [u8]), ReadFault>
    requires { meets ((1, 3) ∷ []) tag tag ≡ true }
    ensures { Gives (λ x. (x.0, x.1.now)) result ((body format streams.now tag).read bytes.now) }
{
    match tag {
        1 => commit_in(alloc, format, streams, bytes),
        2 => decision_in(bytes),
        _ => checkpoint_in(alloc, format, streams, bytes),
    }
}

/// Puts the body of an entry with this head last.
#[tactic(auto, unfolding(crate::specs::Format::body))]
pub fn put_body(head: &Head, value: &Body, out: &mut List<u8>) -> Result<(), NoMemory>
    requires { IsShortBody value.now }
    ensures { OnOk result (out.new ≡ out.old ++ (body head.now.format head.now.streams (tag_of value.now)).spell value.now) }
{
    match value {
        Body::Commit { reads, writes } => {
            put_reads(head.format, reads.as_slice(), out)?;
            put_writes(head.streams.as_slice(), writes.as_slice(), out)
        }
        Body::Decision { at, yes } => {
            put_u64(*at, out)?;
            out.push(u8::from(*yes))
        }
        Body::Checkpoint {
            oid,
            upto,
            version,
            whole,
            keys,
            state,
        } => {
            let state = state.as_slice();
            if head.format == 1 {
                return put_old(*oid, *upto, *version, state, out);
            }
            let versions = (*version, *whole);
            put_new(*oid, *upto, versions, keys.as_slice(), state, out)
        }
    }
}

/// The length of the spelling of the body of an entry with this head. It takes no memory.
#[tactic(auto, unfolding(crate::specs::Format::body, crate::specs::Checkpoints::old_fields, crate::specs::Checkpoints::new_fields))]
pub fn body_size(head: &Head, value: &Body) -> usize
    requires { IsShortBody value.now }
    ensures len { result ≡ length ((body head.now.format head.now.streams (tag_of value.now)).spell value.now) }
    ensures most { result ≤ 1200000000 }
{
    match value {
        Body::Commit { reads, writes } => {
            let reads = size_reads(head.format, reads.as_slice());
            reads + size_writes(head.streams.as_slice(), writes.as_slice())
        }
        Body::Decision { .. } => 9,
        Body::Checkpoint {
            version,
            whole,
            keys,
            state,
            ..
        } => {
            if head.format == 1 {
                22 + state.len()
            } else {
                30 + size_keys(*whole, *version, keys.as_slice()) + state.len()
            }
        }
    }
}
