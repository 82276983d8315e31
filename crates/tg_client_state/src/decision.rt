//! Drafts of decision records.

ghost use Rattle.std.specs.Prelude.{◌≡◌, ◌≤◌, ◌<◌, ◌+◌, ◌^◌, ◌++◌, map, OnOk, IfOk};
ghost use Rattle.std.specs.List.{list_all};
ghost use Rattle.tg_base.specs.Units.{is_rising};
ghost use Rattle.tg_entry.specs.Records.{is_object};
ghost use Rattle.tg_entry.specs.Writes.{stream_numbers};
ghost use Rattle.tg_entry.specs.declared.entry.Body.TheVariants.{Decision};
ghost use Rattle.tg_protocol.specs.Entries.{draft, oid_of_link, streams_of, unlinked};
ghost use Rattle.tg_client_state.specs.Drafts.{are_streams, of_object};

use crate::state::State;
use std::alloc::Global;
use tg_base::{Backs, List, NoMemory, Oid, Pos, StreamLink};
use tg_entry::{Body, Draft, Entry, Head};
use tg_kind::Registry;

/// Whether entries may name the object. It takes no memory.
pub fn is_object(oid: Oid) -> bool
    ensures { result ≡ is_object oid }
{
    oid.0 == 0 || (oid.0 >= 0x1000000 && oid.0 < 0x7000000)
}

/// Whether streams rise.
fn is_rising(links: &[StreamLink]) -> bool
    ensures { result ≡ is_rising (stream_numbers links.now) }
{
    match links {
        [] => true,
        [first, others @ ..] => match others {
            [] => true,
            [second, ..] => first.oid.0 < second.oid.0 && is_rising(others),
        },
    }
}

/// Whether entries may name each of these objects.
fn are_objects(links: &[StreamLink]) -> bool
    ensures { result ≡ list_all of_object links.now }
{
    links.iter().all(|link| is_object(link.oid))
}

/// Whether these are such streams as a record of format 2 has.
fn are_streams(links: &[StreamLink]) -> bool
    ensures { result ≡ are_streams links.now }
{
    1 <= links.len() && links.len() <= 16 && are_objects(links) && is_rising(links)
}

/// Puts streams last, without their positions.
fn put_unlinked(links: &[StreamLink], streams: &mut List<StreamLink>) -> Result<(), NoMemory>
    ensures { OnOk result (streams.new ≡ streams.old ++ map unlinked (map oid_of_link links.now)) }
{
    match links {
        [] => Ok(()),
        [link, others @ ..] => {
            let backs = Backs::of(&[]).unwrap();
            streams.push(StreamLink {
                oid: link.oid,
                backs,
            })?;
            put_unlinked(others, streams)
        }
    }
}

/// The decision record of a client with a number, in these streams.
fn drafted(
    alloc: Global,
    client: u16,
    number: u32,
    links: &[StreamLink],
    at: Pos,
    yes: bool,
) -> Result<Draft, NoMemory>
    requires { 1 ≤ number }
    ensures { IfOk result (λ d. d ≡ draft client number (map oid_of_link links.now) (Decision at yes)) }
{
    if !are_streams(links) {
        return Err(NoMemory);
    }
    let mut streams = List::new(alloc);
    put_unlinked(links, &mut streams)?;
    let head = Head {
        format: 2,
        client,
        number,
        streams,
    };
    let body = Body::Decision { at, yes };
    Ok(Draft::new(Entry { head, body }))
}

impl<K: Registry> State<K> {
    /// The draft of the decision record for a position, in an entry's streams. An `Err` is want of memory; and an entry
    /// that isn't in one to sixteen rising streams of objects is given up.
    pub fn decision(
        &self,
        alloc: Global,
        entry: &Entry,
        at: Pos,
        yes: bool,
    ) -> Result<Draft, NoMemory>
        requires { self.now.decisions + 1 < 2 ^ 32 }
        ensures draft { IfOk result (λ d. d ≡ draft self.now.num (self.now.decisions + 1) (streams_of entry.now) (Decision at yes)) }
        ensures numbers { IfOk result (λ _. self.now.decisions + 1 < 2 ^ 32) }
    {
        drafted(
            alloc,
            self.parts.num,
            self.parts.decisions + 1,
            entry.head.streams.as_slice(),
            at,
            yes,
        )
    }
}
