//! Commit records among entries, and what stands in the way of telling of them.

ghost use Rattle.std.specs.Prelude.{◌≡◌};
ghost use Rattle.tg_kind.specs.Of.{meaning_of};
ghost use Rattle.tg_protocol.specs.Answers as told;
ghost use Rattle.tg_entry.specs.Needs.{reads_of as told_reads};
ghost use Rattle.tg_client_answers.specs.Fates.{blocked_by};

use tg_base::{Oid, Pos, ReadMark};
use tg_entry::{Body, Entries, Entry};
use tg_kind::Registry;
use tg_model::{PlayEnd, Refusal};
use tg_rescue::commit_at;

/// Where the walk of the first of these streams met a trim above a position; they come by object, rising. None where
/// none did. It takes no memory.
pub fn trim_above<K: Registry>(trims: &[(Oid, Pos)], pos: Pos) -> Option<Pos>
    ensures { result ≡ told.trim_above (meaning_of K.Registry) trims.now pos }
{
    for trim in trims {
        if pos < trim.1 {
            return Some(trim.1);
        }
    }
    None
}

// Whether a commit record is at a position, and a play is blocked at or below it.
fn blocks<K: Registry>(entries: &Entries, at: Pos, pos: Pos) -> bool
    ensures { result ≡ told.blocks (meaning_of K.Registry) entries.now at pos }
{
    commit_at(entries, at).is_some() && pos <= at
}

/// Why nothing is told of the record at a position: the play is blocked at or below it. It takes no memory.
pub fn blocked_by<K: Registry>(entries: &Entries, at: Pos, came: PlayEnd) -> Option<Refusal>
    ensures { result ≡ blocked_by (meaning_of K.Registry) entries.now at came }
{
    match came {
        PlayEnd::Played { .. } => None,
        PlayEnd::Blocked { pos, missing } => {
            if blocks::<K>(entries, at, pos) {
                return Some(Refusal::Undecided { pos, missing });
            }
            None
        }
    }
}

/// The reads of a commit record; no other entry has any.
pub fn reads_of(entry: &Entry) -> &[ReadMark]
    ensures { result.now ≡ told_reads entry.now }
{
    match &entry.body {
        Body::Commit { reads, .. } => reads.as_slice(),
        Body::Decision { .. } => &[],
        Body::Checkpoint { .. } => &[],
    }
}
