//! Maps.

ghost use Rattle.std.specs.Prelude.{◌≡◌, ◌++◌, true, false, [], Ok, IfOk, OnOk};
ghost use Rattle.std.specs.Map.{keys_of};
ghost use Rattle.tg_codec.specs.Reading.{Gives};
ghost use Rattle.tg_codec.specs.Codec.{read_many, spell_many};
ghost use Rattle.tg_base.specs.Parts.{is_part};
ghost use Rattle.tg_kind.specs.Parts.{part_of};
ghost use Rattle.tg_kind.specs.Texts.{text_format};
ghost use Rattle.tg_base.specs.declared.marks.Part.TheVariants as part;
ghost use Rattle.tg_map.specs.Maps.{is_object, is_state, is_of, first, applied, answered, touched, looked, saved, loaded, state_format, op_format, takes, set_pair, unset_pair, value_of, has_key, new_key, pair, after_pair};

use crate::word::Word;
use indexmap::IndexMap;
use std::alloc::Global;
use std::marker::Model;
use tg_base::{List, NoMemory, Oid};
use tg_codec::{ReadFault, fixed, put_u32, u8_in, u32_in};
use tg_kind::{Key, Kind, KindFault, Scope, Text, in_front, in_whole, put_word, text_in};

/// The tag of maps.
const TAG: u8 = 3;

/// The code of `set`.
const SET: u8 = 0x30;

/// The code of `unset`.
const UNSET: u8 = 0x31;

/// The most pairs that a map has.
const MOST: usize = 0xffff_ffff;

/// Pairs of a key and its value, in the order in which their keys came.
pub struct Map {
    pairs: IndexMap<Word, Word>,
}

// By hand, since a derived drop is proved anew wherever a value is dropped.
impl Drop for Map {
    fn drop(self) {
        let Map { pairs: _ } = self;
    }
}

impl Model for Map {
    ghost use Rattle.std.specs.Prelude.{◌≤◌, length};
    ghost use Rattle.tg_map.specs.Maps.{Pairs, most};

    ghost Value = { Pairs };

    ghost view = { λ m. m.pairs.entries };

    ghost invariant = { λ m. length m.pairs.entries ≤ most };
}

/// What changes a map.
#[derive(Drop)]
pub enum MapOp {
    /// Gives a key a value. A key that is there keeps its place, and a new one goes last.
    Set { key: Text, value: Text },
    /// Removes a key with its value; the others keep their order.
    Unset { key: Text },
}

/// What looks at a map.
#[derive(Drop)]
pub enum MapAsk {
    /// The value of a key.
    Get { key: Text },
    /// How many pairs there are.
    Size,
    /// The keys, in order.
    Keys,
}

/// What an ask of a map is answered.
#[derive(Drop)]
pub enum MapAns {
    Value(Option<Text>),
    Number(u64),
    Keys(List<Text>),
}

// The keys, in order.
fn keys_in_order(alloc: Global, pairs: &IndexMap<Word, Word>) -> Result<List<Text>, NoMemory>
    ensures { IfOk result (λ keys. keys ≡ keys_of pairs.now.entries) }
{
    let mut keys = List::new(alloc);
    for key in pairs.keys() {
        keys.push(key.text.copy()?)?;
    }
    Ok(keys)
}

// Puts the bytes of a pair last.
fn put_pair(key: &Word, value: &Word, out: &mut List<u8>) -> Result<(), NoMemory>
    ensures { OnOk result (out.new ≡ out.old ++ (text_format.spell key.now ++ text_format.spell value.now)) }
{
    put_word(&key.text, out)?;
    put_word(&value.text, out)
}

// Puts the bytes of pairs last, in order.
fn put_pairs(pairs: &IndexMap<Word, Word>, out: &mut List<u8>) -> Result<(), NoMemory>
    ensures { OnOk result (out.new ≡ out.old ++ spell_many pair after_pair [] pairs.now.entries) }
{
    for (key, value) in pairs {
        put_pair(key, value, out)?;
    }
    Ok(())
}

impl Map {
    // The map without pairs.
    fn new(alloc: Global) -> Map
        ensures { result ≡ [] }
    {
        Map {
            pairs: IndexMap::new(alloc),
        }
    }

    // Whether the key has a value.
    fn has(&self, key: &Word) -> bool
        ensures { result ≡ has_key (keys_of self.now) key.now }
    {
        self.pairs.contains_key(key)
    }

    // Whether the map takes a value for the key.
    fn takes(&self, key: &Word) -> bool
        ensures { result ≡ takes self.now key.now }
    {
        self.pairs.len() < MOST || self.has(key)
    }

    // The map with a value for a key.
    fn set(self, key: Word, value: Word) -> Result<Map, NoMemory>
        ensures { IfOk result (λ m. m ≡ set_pair self key value) }
    {
        if !self.takes(&key) {
            return Ok(self);
        }
        let Map { mut pairs } = self;
        pairs.insert(key, value)?;
        Ok(Map { pairs })
    }

    // The map without a key. It takes no memory.
    fn unset(self, key: &Word) -> Map
        ensures { result ≡ unset_pair self key.now }
    {
        let Map { mut pairs } = self;
        pairs.shift_remove(key);
        Map { pairs }
    }

    // The value of a key.
    fn value(&self, key: &Word) -> Result<Option<Text>, NoMemory>
        ensures { IfOk result (λ v. v ≡ value_of self.now key.now) }
    {
        match self.pairs.get(key) {
            None => Ok(None),
            Some(value) => Ok(Some(value.text.copy()?)),
        }
    }
}

// A key that the map doesn't have.
fn key_in<'a>(alloc: Global, map: &Map, bytes: &'a [u8]) -> Result<(Word, &'a [u8]), ReadFault>
    ensures read { Gives (λ x. (x.0, x.1.now)) result ((new_key (keys_of map.now)).read bytes.now) }
    ensures new { IfOk result (λ x. has_key (keys_of map.now) x.0 ≡ false) }
{
    let (text, rest) = text_in(alloc, bytes)?;
    let key = Word { text };
    if map.has(&key) {
        return Err(ReadFault::Stop { left: bytes.len() });
    }
    Ok((key, rest))
}

// A pair whose key the map doesn't have.
fn pair_in<'a>(
    alloc: Global,
    map: &Map,
    bytes: &'a [u8],
) -> Result<((Word, Word), &'a [u8]), ReadFault>
    ensures read { Gives (λ x. (x.0, x.1.now)) result ((pair (keys_of map.now)).read bytes.now) }
    ensures new { IfOk result (λ x. has_key (keys_of map.now) x.0.0 ≡ false) }
{
    let (key, rest) = key_in(alloc, map, bytes)?;
    let (text, rest) = text_in(alloc, rest)?;
    Ok(((key, Word { text }), rest))
}

// So many pairs with different keys.
fn pairs_in(alloc: Global, count: u32, bytes: &[u8]) -> Result<(Map, &[u8]), ReadFault>
    ensures { Gives (λ x. (x.0, x.1.now)) result (read_many pair after_pair count [] bytes.now) }
{
    let mut map = Map::new(alloc);
    let mut rest = bytes;
    for _ in 0..count {
        let ((key, value), after) = pair_in(alloc, &map, rest)?;
        map = map.set(key, value)?;
        rest = after;
    }
    Ok((map, rest))
}

#[tactic(auto, unfolding(crate::specs::Maps::state_format))]
fn map_in(alloc: Global, bytes: &[u8]) -> Result<(Map, &[u8]), ReadFault>
    ensures { Gives (λ x. (x.0, x.1.now)) result (state_format.read bytes.now) }
{
    let ((), rest) = fixed(&[TAG], bytes)?;
    let (count, rest) = u32_in(&[(0, u64::MAX)], rest)?;
    let (map, rest) = pairs_in(alloc, count, rest)?;
    Ok((map, rest))
}

#[tactic(auto, unfolding(crate::specs::Maps::op_format))]
fn op_in(alloc: Global, bytes: &[u8]) -> Result<(MapOp, &[u8]), ReadFault>
    ensures { Gives (λ x. (x.0, x.1.now)) result (op_format.read bytes.now) }
{
    let (code, rest) = u8_in(&[(0x30, 0x31)], bytes)?;
    if code == SET {
        let (key, rest) = text_in(alloc, rest)?;
        let (value, rest) = text_in(alloc, rest)?;
        return Ok((MapOp::Set { key, value }, rest));
    }
    let (key, rest) = text_in(alloc, rest)?;
    Ok((MapOp::Unset { key }, rest))
}

// The bytes of an op.
#[tactic(auto, unfolding(crate::specs::Maps::op_format))]
fn put_fields(op: &MapOp, out: &mut List<u8>) -> Result<(), NoMemory>
    ensures { OnOk result (out.new ≡ out.old ++ op_format.spell op.now) }
{
    match op {
        MapOp::Set { key, value } => {
            out.push(SET)?;
            put_word(key, out)?;
            put_word(value, out)
        }
        MapOp::Unset { key } => {
            out.push(UNSET)?;
            put_word(key, out)
        }
    }
}

// What an op on a key changes.
fn scope(key: &Text) -> Scope<'_>
    ensures part { part_of result ≡ part.Text key.now }
    ensures known { text_format.fits key.now ≡ true }
    ensures lawful { is_part (part.Text key.now) ≡ true }
{
    Scope::One(Key::Text(key.as_str()))
}

impl Kind for Map {
    type Op = MapOp;

    type Ask = MapAsk;

    type Ans = MapAns;

    ghost is_object = { is_object };

    ghost is_state = { is_state };

    ghost is_op = { op_format.fits };

    ghost is_of = { is_of };

    ghost first = { first };

    ghost applied = { applied };

    ghost answered = { answered };

    ghost touched = { touched };

    ghost looked = { looked };

    ghost saved = { saved };

    ghost loaded = { loaded };

    ghost spelled = { op_format.spell };

    ghost read = { op_format.read };

    fn fresh(alloc: Global, _oid: Oid, _objects: &[Oid]) -> Result<Map, NoMemory> {
        Ok(Map::new(alloc))
    }

    fn apply(self, op: &MapOp) -> Result<Map, NoMemory> {
        match op {
            MapOp::Set { key, value } => self.set(Word::of(key)?, Word::of(value)?),
            MapOp::Unset { key } => Ok(self.unset(&Word::of(key)?)),
        }
    }

    fn ask(&self, alloc: Global, ask: &MapAsk) -> Result<MapAns, NoMemory> {
        match ask {
            MapAsk::Get { key } => Ok(MapAns::Value(self.value(&Word::of(key)?)?)),
            MapAsk::Size => Ok(MapAns::Number(self.pairs.len() as u64)),
            MapAsk::Keys => Ok(MapAns::Keys(keys_in_order(alloc, &self.pairs)?)),
        }
    }

    #[tactic(auto, unfolding(crate::specs::Maps::op_format))]
    fn touch(op: &MapOp) -> Scope<'_> {
        match op {
            MapOp::Set { key, value } => {
                let _known = value.as_str();
                scope(key)
            }
            MapOp::Unset { key } => scope(key),
        }
    }

    fn look(ask: &MapAsk) -> Scope<'_> {
        match ask {
            MapAsk::Get { key } => scope(key),
            MapAsk::Size => Scope::All,
            MapAsk::Keys => Scope::All,
        }
    }

    #[tactic(auto, unfolding(crate::specs::Maps::state_format))]
    fn save(&self, alloc: Global) -> Result<List<u8>, NoMemory> {
        let mut bytes = List::new(alloc);
        bytes.push(TAG)?;
        put_u32(self.pairs.len() as u32, &mut bytes)?;
        put_pairs(&self.pairs, &mut bytes)?;
        Ok(bytes)
    }

    fn load(alloc: Global, _oid: Oid, bytes: &[u8]) -> Result<Map, KindFault> {
        in_whole(bytes, map_in(alloc, bytes))
    }

    fn put_op(alloc: Global, op: &MapOp, out: &mut List<u8>) -> Result<(), NoMemory> {
        let mut spelling = List::new(alloc);
        put_fields(op, &mut spelling)?;
        out.extend(spelling.as_slice())
    }

    fn get_op(alloc: Global, bytes: &[u8]) -> Result<(MapOp, usize), KindFault> {
        in_front(bytes, op_in(alloc, bytes))
    }

    fn copy(&self) -> Result<Map, NoMemory> {
        Ok(Map {
            pairs: self.pairs.clone()?,
        })
    }

    fn copy_op(op: &MapOp) -> Result<MapOp, NoMemory> {
        match op {
            MapOp::Set { key, value } => Ok(MapOp::Set {
                key: key.copy()?,
                value: value.copy()?,
            }),
            MapOp::Unset { key } => Ok(MapOp::Unset { key: key.copy()? }),
        }
    }

    fn copy_ask(ask: &MapAsk) -> Result<MapAsk, NoMemory> {
        match ask {
            MapAsk::Get { key } => Ok(MapAsk::Get { key: key.copy()? }),
            MapAsk::Size => Ok(MapAsk::Size),
            MapAsk::Keys => Ok(MapAsk::Keys),
        }
    }

    ghost use Rattle.tg_map.specs.MapLaws as laws;

    ghost first_is = { laws.first_is };

    ghost applied_is = { laws.applied_is };

    ghost other_kind = { laws.other_kind };

    ghost touched_is = { laws.touched_is };

    ghost apart = { laws.apart };

    ghost loads_saved = { laws.loads_saved };

    ghost loads_only = { laws.loads_only };

    ghost reads_spelled = { laws.reads_spelled };

    ghost reads_only = { laws.reads_only };

    ghost spelled_some = { laws.spelled_some };

    ghost no_front = { laws.no_front_law };
}
