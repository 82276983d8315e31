//! The links that a sequencer tells of streams.

ghost use Rattle.std.specs.Prelude.{◌≡◌, not, map};
ghost use Rattle.tg_protocol.specs.Entries.{oid_of_link};
ghost use Rattle.tg_protocol.specs.Appending.{names_all, is_link};
ghost use Rattle.tg_entry.specs.Records.{is_falling};
ghost use Rattle.tg_protocol.specs.Words.{too_far};
ghost use Rattle.std.specs.List.{list_all};

use tg_base::{Oid, StreamLink};
use tg_chain::FAR;

/// Whether each position is below the one before it.
pub fn is_falling(positions: &[u64]) -> bool
    ensures { result ≡ is_falling positions.now }
{
    match positions {
        [] => true,
        [first, rest @ ..] => match rest {
            [] => true,
            [second, ..] => *second < *first && is_falling(rest),
        },
    }
}

/// Whether none is too far.
pub fn are_near(positions: &[u64]) -> bool
    ensures { result ≡ list_all (λ p. not (too_far p)) positions.now }
{
    match positions {
        [] => true,
        [first, rest @ ..] => *first < FAR && are_near(rest),
    }
}

/// Whether the link keeps the rules: at most four positions, falling, and none too far.
pub fn is_link(link: &StreamLink) -> bool
    ensures { result ≡ is_link link.now }
{
    let positions = link.backs.as_slice();
    is_falling(positions) && are_near(positions)
}

/// Whether the links are those of these objects, in their order.
pub fn name_all(oids: &[Oid], links: &[StreamLink]) -> bool
    ensures { result ≡ names_all oids.now links.now }
{
    match oids {
        [] => match links {
            [] => true,
            _ => false,
        },
        [oid, oids @ ..] => match links {
            [] => false,
            [link, links @ ..] => oid.0 == link.oid.0 && is_link(link) && name_all(oids, links),
        },
    }
}

/// Whether the links are of these links' streams, in their order.
pub fn name_streams(streams: &[StreamLink], links: &[StreamLink]) -> bool
    ensures { result ≡ names_all (map oid_of_link streams.now) links.now }
{
    match streams {
        [] => match links {
            [] => true,
            _ => false,
        },
        [stream, streams @ ..] => match links {
            [] => false,
            [link, links @ ..] => {
                stream.oid.0 == link.oid.0 && is_link(link) && name_streams(streams, links)
            }
        },
    }
}
