//! Last positions of streams.

ghost use Rattle.std.specs.Prelude.{◌≡◌};
ghost use Rattle.tg_protocol.specs.Entries.{backs_of, link_of};

use tg_base::{Backs, Oid, StreamLink};

/// The last positions of a stream, none where none are told. It takes no memory.
pub fn lasts_of(lasts: &[StreamLink], oid: Oid) -> Backs
    ensures { result ≡ backs_of (link_of oid lasts.now) }
{
    match lasts {
        [] => Backs::of(&[]).unwrap(),
        [link, others @ ..] => {
            if link.oid.0 == oid.0 {
                return link.backs.copy();
            }
            lasts_of(others, oid)
        }
    }
}
