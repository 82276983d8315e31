//! Lists of texts.

ghost use Rattle.std.specs.Prelude.{◌≡◌, ◌≤◌, ◌++◌, true, false, length, slice_get, Ok, IfOk, OnOk, IsOk};
ghost use Rattle.tg_codec.specs.Codec.{from_table, read_many, spell_many};
ghost use Rattle.tg_codec.specs.Reading.{Gives, meets};
ghost use Rattle.tg_codec.specs.Whole.{IsLongestLawful};
ghost use Rattle.tg_kind.specs.Bytes.{Answers, front};
ghost use Rattle.tg_list.specs.Refusals.{OnBadBytes};
ghost use Rattle.tg_list.specs.declared.text_list.TextListAsk.TheVariants.{Len};
ghost use Rattle.tg_list.specs.TextLists.{Texts, most, is_object, is_state, is_of, first, applied, answered, touched, looked, has_room, has_place, put_front, put_back, put_at, take_out, without_first, without_last, puts_in, is_plain, item, onward, texts_format, state_format, saved, loaded, codes, ops, op_format};

use std::alloc::Global;
use std::collections::VecDeque;
use std::marker::Model;
use tg_base::{List, NoMemory, Oid};
use tg_codec::{ReadFault, fixed, put_u32, u8_in, u32_in};
use tg_kind::{Kind, KindFault, Scope, Text, in_front, in_whole, put_word, text_in};

/// The tag of lists.
const TAG: u8 = 4;

// The codes of ops.
const PUSH_FRONT: u8 = 0x40;

const PUSH_BACK: u8 = 0x41;

const INSERT: u8 = 0x42;

const REMOVE: u8 = 0x43;

const POP_FRONT: u8 = 0x44;

const POP_BACK: u8 = 0x45;

/// Up to 4,294,967,295 texts. A push or a pop at either end takes constant time, amortized over the
/// pushes, and a change elsewhere moves the texts on its shorter side.
pub struct TextList {
    texts: VecDeque<Text>,
}

// By hand, since a derived drop is proved anew wherever a value is dropped.
impl Drop for TextList {
    fn drop(self) {
        let TextList { texts: _ } = self;
    }
}

impl Model for TextList {
    ghost use Rattle.std.specs.Prelude.{◌≤◌, length};
    ghost use Rattle.tg_list.specs.TextLists.{Texts, most};

    ghost Value = { Texts };

    ghost view = { λ l. l.texts.items };

    ghost invariant = { λ l. length l.texts.items ≤ most };
}

/// What changes a list.
#[derive(Drop)]
pub enum TextListOp {
    /// Puts a text first.
    PushFront { text: Text },
    /// Puts a text last.
    PushBack { text: Text },
    /// Puts a text at a place, counted from 0, where that is at most the length.
    Insert { at: u32, text: Text },
    /// Takes the text at a place out, where there is one.
    Remove { at: u32 },
    /// Takes the first text out, where there is one.
    PopFront,
    /// Takes the last text out, where there is one.
    PopBack,
}

/// What looks at a list.
#[derive(Drop)]
pub enum TextListAsk {
    /// The text at a place, counted from 0.
    At { at: u32 },
    /// How many texts there are.
    Len,
    /// All texts, the first one first.
    Items,
}

/// What an ask of a list is answered.
#[derive(Drop)]
pub enum TextListAns {
    /// The text at the place, if there is one.
    Item(Option<Text>),
    /// How many texts there are.
    Number(u64),
    /// All texts, the first one first.
    Items(List<Text>),
}

impl TextList {
    // Whether one more text may come.
    fn has_room(&self) -> bool
        ensures { result ≡ has_room self.now }
    {
        self.texts.len() < u32::MAX as usize
    }

    fn put_front(mut self, text: &Text) -> Result<TextList, NoMemory>
        ensures exact { IfOk result (λ l. l ≡ put_front self text.now) }
        ensures free { has_room self ≡ false → IsOk result }
    {
        if self.has_room() {
            self.texts.push_front(text.copy()?)?;
        }
        Ok(self)
    }

    fn put_back(mut self, text: &Text) -> Result<TextList, NoMemory>
        ensures exact { IfOk result (λ l. l ≡ put_back self text.now) }
        ensures free { has_room self ≡ false → IsOk result }
    {
        if self.has_room() {
            self.texts.push_back(text.copy()?)?;
        }
        Ok(self)
    }

    fn put_at(mut self, at: u32, text: &Text) -> Result<TextList, NoMemory>
        ensures exact { IfOk result (λ l. l ≡ put_at self at text.now) }
        ensures free { has_place self at ≡ false → IsOk result }
    {
        if at as usize <= self.texts.len() && self.has_room() {
            self.texts.insert(at as usize, text.copy()?)?;
        }
        Ok(self)
    }

    fn take_out(mut self, at: u32) -> TextList
        ensures { result ≡ take_out self at }
    {
        let _text = self.texts.remove(at as usize);
        self
    }

    fn without_first(mut self) -> TextList
        ensures { result ≡ without_first self }
    {
        let _text = self.texts.pop_front();
        self
    }

    fn without_last(mut self) -> TextList
        ensures { result ≡ without_last self }
    {
        let _text = self.texts.pop_back();
        self
    }

    fn text_at(&self, at: u32) -> Result<Option<Text>, NoMemory>
        ensures { IfOk result (λ t. t ≡ slice_get self.now at) }
    {
        match self.texts.get(at as usize) {
            None => Ok(None),
            Some(text) => Ok(Some(text.copy()?)),
        }
    }
}

// Equal texts.
fn copy_texts(alloc: Global, texts: &VecDeque<Text>) -> Result<VecDeque<Text>, NoMemory>
    ensures { IfOk result (λ q. q.items ≡ texts.now.items) }
{
    let mut copies = VecDeque::with_capacity(alloc, texts.len())?;
    for text in texts {
        copies.push_back(text.copy()?)?;
    }
    Ok(copies)
}

// So many texts.
fn texts_in(alloc: Global, count: u32, bytes: &[u8]) -> Result<(VecDeque<Text>, &[u8]), ReadFault>
    ensures exact { Gives (λ x. (x.0.items, x.1.now)) result (read_many item onward count tt bytes.now) }
    ensures len { IfOk result (λ x. length x.0.items ≡ count) }
{
    let mut texts = VecDeque::new(alloc);
    let mut rest = bytes;
    for _ in 0..count {
        let (text, after) = text_in(alloc, rest)?;
        texts.push_back(text)?;
        rest = after;
    }
    Ok((texts, rest))
}

#[tactic(auto, unfolding(crate::specs::TextLists::state_format))]
fn list_in(alloc: Global, bytes: &[u8]) -> Result<(TextList, &[u8]), ReadFault>
    ensures { Gives (λ x. (x.0, x.1.now)) result (state_format.read bytes.now) }
{
    let ((), rest) = fixed(&[TAG], bytes)?;
    let (count, rest) = u32_in(&[(0, u64::MAX)], rest)?;
    let (texts, rest) = texts_in(alloc, count, rest)?;
    Ok((TextList { texts }, rest))
}

fn put_texts(texts: &VecDeque<Text>, out: &mut List<u8>) -> Result<(), NoMemory>
    ensures { OnOk result (out.new ≡ out.old ++ spell_many item onward tt texts.now.items) }
{
    for text in texts {
        put_word(text, out)?;
    }
    Ok(())
}

fn put_list(list: &TextList, out: &mut List<u8>) -> Result<(), NoMemory>
    ensures { OnOk result (out.new ≡ out.old ++ texts_format.spell list.now) }
{
    put_u32(list.texts.len() as u32, out)?;
    put_texts(&list.texts, out)
}

// What follows the code of an op.
fn fields_in(alloc: Global, code: u8, bytes: &[u8]) -> Result<(TextListOp, &[u8]), ReadFault>
    requires { meets codes code code ≡ true }
    ensures { Gives (λ x. (x.0, x.1.now)) result ((from_table ops code).read bytes.now) }
{
    match code {
        PUSH_FRONT => {
            let (text, rest) = text_in(alloc, bytes)?;
            Ok((TextListOp::PushFront { text }, rest))
        }
        PUSH_BACK => {
            let (text, rest) = text_in(alloc, bytes)?;
            Ok((TextListOp::PushBack { text }, rest))
        }
        INSERT => {
            let (at, rest) = u32_in(&[(0, u64::MAX)], bytes)?;
            let (text, rest) = text_in(alloc, rest)?;
            Ok((TextListOp::Insert { at, text }, rest))
        }
        REMOVE => {
            let (at, rest) = u32_in(&[(0, u64::MAX)], bytes)?;
            Ok((TextListOp::Remove { at }, rest))
        }
        POP_FRONT => Ok((TextListOp::PopFront, bytes)),
        _ => Ok((TextListOp::PopBack, bytes)),
    }
}

#[tactic(auto, unfolding(crate::specs::TextLists::op_format))]
fn op_in(alloc: Global, bytes: &[u8]) -> Result<(TextListOp, &[u8]), ReadFault>
    ensures { Gives (λ x. (x.0, x.1.now)) result (op_format.read bytes.now) }
{
    let (code, rest) = u8_in(&[(0x40, 0x45)], bytes)?;
    fields_in(alloc, code, rest)
}

// Puts the code of an op and its fields last.
#[tactic(auto, unfolding(crate::specs::TextLists::op_format))]
fn spell_op(op: &TextListOp, out: &mut List<u8>) -> Result<(), NoMemory>
    ensures { OnOk result (out.new ≡ out.old ++ op_format.spell op.now) }
{
    match op {
        TextListOp::PushFront { text } => {
            out.push(PUSH_FRONT)?;
            put_word(text, out)
        }
        TextListOp::PushBack { text } => {
            out.push(PUSH_BACK)?;
            put_word(text, out)
        }
        TextListOp::Insert { at, text } => {
            out.push(INSERT)?;
            put_u32(*at, out)?;
            put_word(text, out)
        }
        TextListOp::Remove { at } => {
            out.push(REMOVE)?;
            put_u32(*at, out)
        }
        TextListOp::PopFront => out.push(POP_FRONT),
        TextListOp::PopBack => out.push(POP_BACK),
    }
}

impl Kind for TextList {
    type Op = TextListOp;

    type Ask = TextListAsk;

    type Ans = TextListAns;

    ghost is_object = { is_object };

    ghost is_state = { is_state };

    ghost is_op = { op_format.fits };

    ghost is_of = { is_of };

    ghost first = { first };

    ghost applied = { applied };

    ghost answered = { answered };

    ghost touched = { touched };

    ghost looked = { looked };

    ghost saved = { saved };

    ghost loaded = { loaded };

    ghost spelled = { op_format.spell };

    ghost read = { op_format.read };

    fn fresh(alloc: Global, oid: Oid, objects: &[Oid]) -> Result<TextList, NoMemory>
        ensures exact { IfOk result (λ s. s ≡ first oid objects.now) }
        ensures free { IsOk result }
    {
        Ok(TextList {
            texts: VecDeque::new(alloc),
        })
    }

    fn apply(self, op: &TextListOp) -> Result<TextList, NoMemory>
        ensures exact { IfOk result (λ s. s ≡ applied self op.now) }
        ensures free { puts_in self op.now ≡ false → IsOk result }
    {
        match op {
            TextListOp::PushFront { text } => self.put_front(text),
            TextListOp::PushBack { text } => self.put_back(text),
            TextListOp::Insert { at, text } => self.put_at(*at, text),
            TextListOp::Remove { at } => Ok(self.take_out(*at)),
            TextListOp::PopFront => Ok(self.without_first()),
            TextListOp::PopBack => Ok(self.without_last()),
        }
    }

    fn ask(&self, alloc: Global, ask: &TextListAsk) -> Result<TextListAns, NoMemory>
        ensures exact { IfOk result (λ a. a ≡ answered self.now ask.now) }
        ensures free { ask.now ≡ Len → IsOk result }
    {
        match ask {
            TextListAsk::At { at } => Ok(TextListAns::Item(self.text_at(*at)?)),
            TextListAsk::Len => Ok(TextListAns::Number(self.texts.len() as u64)),
            TextListAsk::Items => {
                let texts = copy_texts(alloc, &self.texts)?;
                Ok(TextListAns::Items(List::from_vec(texts.into_vec())))
            }
        }
    }

    #[tactic(auto, unfolding(crate::specs::TextLists::op_format))]
    fn touch(op: &TextListOp) -> Scope<'_> {
        match op {
            TextListOp::PushFront { text } => {
                let _known = text.as_str();
                Scope::All
            }
            TextListOp::PushBack { text } => {
                let _known = text.as_str();
                Scope::All
            }
            TextListOp::Insert { at, text } => {
                let _at = *at;
                let _known = text.as_str();
                Scope::All
            }
            TextListOp::Remove { at } => {
                let _at = *at;
                Scope::All
            }
            TextListOp::PopFront => Scope::All,
            TextListOp::PopBack => Scope::All,
        }
    }

    fn look(_ask: &TextListAsk) -> Scope<'_> {
        Scope::All
    }

    #[tactic(auto, unfolding(crate::specs::TextLists::state_format))]
    fn save(&self, alloc: Global) -> Result<List<u8>, NoMemory> {
        let mut bytes = List::new(alloc);
        bytes.push(TAG)?;
        put_list(self, &mut bytes)?;
        Ok(bytes)
    }

    fn load(alloc: Global, oid: Oid, bytes: &[u8]) -> Result<TextList, KindFault>
        ensures exact { Answers result (loaded oid bytes.now) }
        ensures place { OnBadBytes result (IsLongestLawful state_format bytes.now) }
    {
        in_whole(bytes, list_in(alloc, bytes))
    }

    fn put_op(alloc: Global, op: &TextListOp, out: &mut List<u8>) -> Result<(), NoMemory> {
        let mut spelling = List::new(alloc);
        spell_op(op, &mut spelling)?;
        out.extend(spelling.as_slice())
    }

    fn get_op(alloc: Global, bytes: &[u8]) -> Result<(TextListOp, usize), KindFault>
        ensures exact { Answers result (front bytes.now (op_format.read bytes.now)) }
        ensures place { OnBadBytes result (IsLongestLawful op_format bytes.now) }
    {
        in_front(bytes, op_in(alloc, bytes))
    }

    fn copy(&self) -> Result<TextList, NoMemory> {
        let alloc = *self.texts.allocator();
        Ok(TextList {
            texts: copy_texts(alloc, &self.texts)?,
        })
    }

    fn copy_op(op: &TextListOp) -> Result<TextListOp, NoMemory>
        ensures exact { IfOk result (λ c. c ≡ op.now) }
        ensures free { is_plain op.now ≡ true → IsOk result }
    {
        match op {
            TextListOp::PushFront { text } => Ok(TextListOp::PushFront { text: text.copy()? }),
            TextListOp::PushBack { text } => Ok(TextListOp::PushBack { text: text.copy()? }),
            TextListOp::Insert { at, text } => Ok(TextListOp::Insert {
                at: *at,
                text: text.copy()?,
            }),
            TextListOp::Remove { at } => Ok(TextListOp::Remove { at: *at }),
            TextListOp::PopFront => Ok(TextListOp::PopFront),
            TextListOp::PopBack => Ok(TextListOp::PopBack),
        }
    }

    fn copy_ask(ask: &TextListAsk) -> Result<TextListAsk, NoMemory>
        ensures exact { IfOk result (λ c. c ≡ ask.now) }
        ensures free { IsOk result }
    {
        match ask {
            TextListAsk::At { at } => Ok(TextListAsk::At { at: *at }),
            TextListAsk::Len => Ok(TextListAsk::Len),
            TextListAsk::Items => Ok(TextListAsk::Items),
        }
    }

    ghost use Rattle.tg_list.specs.TextListLaws as laws;

    ghost first_is = { laws.first_is };

    ghost applied_is = { laws.applied_is };

    ghost other_kind = { laws.other_kind };

    ghost touched_is = { laws.touched_is };

    ghost apart = { laws.apart };

    ghost loads_saved = { laws.loads_saved };

    ghost loads_only = { laws.loads_only };

    ghost reads_spelled = { laws.reads_spelled };

    ghost reads_only = { laws.reads_only };

    ghost spelled_some = { laws.spelled_some };

    ghost no_front = { laws.no_front_law };
}
