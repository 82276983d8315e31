//! What is saved of an object.

ghost use Rattle.std.specs.Prelude.{◌≡◌, ◌≤◌, ◌+◌, ◌-◌, ◌^◌, ◌∷◌, [], true, min, map, length, IfOk};
ghost use Rattle.std.specs.List.{list_all};
ghost use Rattle.tg_entry.specs.Records.{is_byte, is_object};
ghost use Rattle.tg_entry.specs.declared.entry.Body.TheVariants.{Checkpoint};
ghost use Rattle.tg_kind.specs.Of.{meaning_of};
ghost use Rattle.tg_play.specs.Relations.{KeepsView};
ghost use Rattle.tg_protocol.specs.Checkpoints as told;
ghost use Rattle.tg_protocol.specs.Entries.{draft, sum_of, part_size, key_size};
ghost use Rattle.tg_protocol.specs.Views as views;
ghost use Rattle.tg_play.specs.Lawful.{AreKeys};
ghost use Rattle.tg_ckpt.specs.Saving.{Saves, of_bytes, key_of_bytes};

use crate::fault::SaveFault;
use std::alloc::Global;
use tg_base::{Backs, Blob, List, NoMemory, Oid, Part, Pos, StreamLink};
use tg_entry::{Body, Draft, Entry, Head};
use tg_kind::Registry;
use tg_play::View;

// The size of a part.
fn part_size(part: &Part) -> usize
    ensures size { result ≡ part_size part.now }
    ensures most { result ≤ 4099 }
    ensures bytes { of_bytes part.now ≡ true }
{
    match part {
        Part::All => 1,
        Part::Text(text) => 3 + text_size(text.as_slice()),
        Part::Num(_) => 9,
    }
}

fn text_size(text: &[u8]) -> usize
    ensures size { result ≡ length text.now }
    ensures bytes { list_all is_byte text.now ≡ true }
{
    text.len()
}

// The size of a checkpoint, or the greatest number where it is more.
fn checkpoint_size(keys: &[(Part, u64)], state: &[u8]) -> usize
    ensures size { result ≡ min (79 + length state.now + sum_of (map key_size keys.now)) (2 ^ 64 - 1) }
    ensures bytes { list_all key_of_bytes keys.now ≡ true }
{
    let mut size = 79_usize.saturating_add(state.len());
    for key in keys {
        size = size.saturating_add(part_size(&key.0) + 8);
    }
    size
}

// The head of a checkpoint, which stands in the object's stream.
fn head_of(alloc: Global, oid: Oid, client: u16, number: u32) -> Result<Head, NoMemory>
    ensures { IfOk result (λ h. h ≡ (draft client number (oid ∷ []) (Checkpoint oid 0 0 0 [] [])).head) }
{
    let mut streams = List::new(alloc);
    let backs = Backs::of(&[]).unwrap();
    streams.push(StreamLink { oid, backs })?;
    Ok(Head {
        format: 2,
        client,
        number,
        streams,
    })
}

// The checkpoint of these versions, of the object and of its whole, these keys and this state.
fn draft_of(
    head: Head,
    oid: Oid,
    upto: Pos,
    version: u64,
    whole: u64,
    keys: List<(Part, u64)>,
    state: List<u8>,
) -> Result<Draft, SaveFault>
    requires object { is_object oid ≡ true }
    requires number { 1 ≤ head.number }
    requires head { head ≡ (draft head.client head.number (oid ∷ []) (Checkpoint oid 0 0 0 [] [])).head }
    requires keys { AreKeys version whole keys }
    ensures { Saves result (draft head.client head.number (oid ∷ []) (Checkpoint oid upto version whole keys state)) }
{
    let bytes = checkpoint_size(keys.as_slice(), state.as_slice());
    if bytes > Blob::MAX {
        return Err(SaveFault::TooLarge { bytes });
    }
    let body = Body::Checkpoint {
        oid,
        upto,
        version,
        whole,
        keys,
        state,
    };
    Ok(Draft::new(Entry { head, body }))
}

// The bytes of an object's state as the view has it; none where it isn't hosted.
fn saved<K: Registry>(alloc: Global, view: &View<K>, oid: Oid) -> Result<List<u8>, NoMemory>
    ensures { (v : views.View (meaning_of K.Registry)) → KeepsView (meaning_of K.Registry) view.now v → IfOk result (λ bytes. bytes ≡ told.saved_bytes (meaning_of K.Registry) (views.state_of (meaning_of K.Registry) v oid)) }
{
    match view.state(oid) {
        None => Ok(List::new(alloc)),
        Some(state) => state.save(alloc),
    }
}

/// The checkpoint that saves an object as the view has it, with the versions of its parts below `upto`.
///
/// `TooLarge` comes exactly where it would have more than 4,096 bytes, with their number.
pub fn checkpoint<K: Registry>(
    alloc: Global,
    view: &View<K>,
    oid: Oid,
    upto: Pos,
    client: u16,
    number: u32,
) -> Result<Draft, SaveFault>
    requires object { is_object oid ≡ true }
    requires number { 1 ≤ number }
    ensures { (v : views.View (meaning_of K.Registry)) → KeepsView (meaning_of K.Registry) view.now v → Saves result (told.checkpoint (meaning_of K.Registry) v oid upto client number) }
{
    let version = view.version(oid, &Part::All);
    let (whole, keys) = view.parts(alloc, oid)?;
    let state = saved(alloc, view, oid)?;
    let head = head_of(alloc, oid, client, number)?;
    draft_of(head, oid, upto, version, whole, keys, state)
}
