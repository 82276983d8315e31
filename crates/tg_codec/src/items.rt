//! Lists of items, read one after the other.

ghost use Rattle.std.specs.Prelude.{◌≡◌, ◌++◌, ◌≤◌, ◌*◌, List, IfOk, OnOk, length};
ghost use Rattle.tg_codec.specs.Reading.{Gives};
ghost use Rattle.tg_codec.specs.Codec.{Codec, read_many, spell_many};

use crate::fault::ReadFault;
use std::alloc::Global;
use tg_base::{List, NoMemory};

/// What the items of a list are, each of a format that depends on those before it by a state.
pub trait Item {
    type State: Drop;

    type Value: Drop;

    /// The format of an item.
    ghost format: { Self.State → Codec Self.Value };

    /// The state after an item.
    ghost following: { Self.State → Self.Value → Self.State };

    /// Reads an item that the state allows.
    fn read<'a>(
        alloc: Global,
        state: &Self::State,
        bytes: &'a [u8],
    ) -> Result<(Self::Value, &'a [u8]), ReadFault>
        ensures { Gives (λ x. (x.0, x.1.now)) result ((format state.now).read bytes.now) };

    /// Puts an item's spelling last.
    fn write(value: &Self::Value, out: &mut List<u8>) -> Result<(), NoMemory>
        ensures { OnOk result ((state : Self.State) → out.new ≡ out.old ++ (format state).spell value.now) };

    /// The state after an item.
    fn follow(state: Self::State, value: &Self::Value) -> Result<Self::State, NoMemory>
        ensures { IfOk result (λ s. s ≡ following state value.now) };
}

/// Items whose spellings can be measured.
pub trait Measured: Item {
    /// The length of an item's spelling. It takes no memory.
    fn size(value: &Self::Value) -> usize
        ensures len { (state : Self.State) → result ≡ length ((Self.Item.format state).spell value.now) }
        ensures most { result ≤ 16384 };
}

/// So many items.
pub fn read_items<'a, I: Item>(
    alloc: Global,
    count: u64,
    first: I::State,
    bytes: &'a [u8],
) -> Result<(List<I::Value>, &'a [u8]), ReadFault>
    ensures exact { Gives (λ x. (x.0, x.1.now)) result (read_many I.format I.following count first bytes.now) }
    ensures len { IfOk result (λ x. length x.0 ≡ count) }
{
    // (a hint of the size: what the bytes could hold)
    let mut items = Vec::with_capacity(alloc, count.min(bytes.len() as u64) as usize)?;
    let mut state = first;
    let mut rest = bytes;
    for _ in 0..count {
        let (item, after) = I::read(alloc, &state, rest)?;
        state = I::follow(state, &item)?;
        items.push(item)?;
        rest = after;
    }
    Ok((List::from_vec(items), rest))
}

/// Puts the spellings of the items last.
pub fn write_items<I: Item>(values: &[I::Value], out: &mut List<u8>) -> Result<(), NoMemory>
    ensures { OnOk result ((state : I.State) → out.new ≡ out.old ++ spell_many I.format I.following state values.now) }
{
    for value in values {
        I::write(value, out)?;
    }
    Ok(())
}

/// The length of the spellings of the items. It takes no memory.
pub fn size_items<I: Measured>(values: &[I::Value]) -> usize
    requires { length values.now ≤ 65536 }
    ensures len { (state : I.State) → result ≡ length (spell_many I.Item.format I.Item.following state values.now) }
    ensures most { result ≤ 16384 * length values.now }
{
    let mut total = 0;
    for value in values {
        total += I::size(value);
    }
    total
}
