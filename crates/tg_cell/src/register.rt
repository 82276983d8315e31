//! Registers.

ghost use Rattle.std.specs.Prelude.{◌≡◌, ◌++◌, true, Ok, IfOk, OnOk, IsOk};
ghost use Rattle.tg_codec.specs.Reading.{Gives};
ghost use Rattle.tg_kind.specs.Texts.{text_format};
ghost use Rattle.tg_kind.specs.Words.{maybe};
ghost use Rattle.tg_cell.specs.Registers.{is_object, is_state, is_of, first, applied, answered, touched, looked, saved, loaded, state_format, op_format};

use std::alloc::Global;
use std::marker::Model;
use tg_base::{List, NoMemory, Oid};
use tg_codec::{ReadFault, fixed, u8_in};
use tg_kind::{Kind, KindFault, Scope, Text, in_front, in_whole, put_word, text_in};

/// The tag of registers.
const TAG: u8 = 2;

/// The code of `write`.
const WRITE: u8 = 0x20;

/// A text or nothing.
#[derive(Drop)]
pub struct Register {
    held: Option<Text>,
}

impl Model for Register {
    ghost use Rattle.tg_cell.specs.Registers.{Contents};

    ghost Value = { Contents };

    ghost view = { λ r. r.held };

    ghost inverse = { λ t. record { held = t } };
}

/// What changes a register.
#[derive(Drop)]
pub enum RegisterOp {
    /// Holds the text.
    Write { text: Text },
}

/// What looks at a register.
#[derive(Drop)]
pub enum RegisterAsk {
    Text,
}

/// What an ask of a register is answered.
#[derive(Drop)]
pub enum RegisterAns {
    Held(Option<Text>),
}

fn copy_held(held: &Option<Text>) -> Result<Option<Text>, NoMemory>
    ensures { IfOk result (λ t. t ≡ held.now) }
{
    match held {
        None => Ok(None),
        Some(text) => Ok(Some(text.copy()?)),
    }
}

fn held_in(alloc: Global, bytes: &[u8]) -> Result<(Option<Text>, &[u8]), ReadFault>
    ensures { Gives (λ x. (x.0, x.1.now)) result ((maybe text_format).read bytes.now) }
{
    let (tag, rest) = u8_in(&[(0, 1)], bytes)?;
    if tag == 0 {
        return Ok((None, rest));
    }
    let (text, rest) = text_in(alloc, rest)?;
    Ok((Some(text), rest))
}

fn put_held(held: &Option<Text>, out: &mut List<u8>) -> Result<(), NoMemory>
    ensures { OnOk result (out.new ≡ out.old ++ (maybe text_format).spell held.now) }
{
    match held {
        None => out.push(0),
        Some(text) => {
            out.push(1)?;
            put_word(text, out)
        }
    }
}

fn register_in(alloc: Global, bytes: &[u8]) -> Result<(Register, &[u8]), ReadFault>
    ensures { Gives (λ x. (x.0, x.1.now)) result (state_format.read bytes.now) }
{
    let ((), rest) = fixed(&[TAG], bytes)?;
    let (held, rest) = held_in(alloc, rest)?;
    Ok((Register { held }, rest))
}

fn op_in(alloc: Global, bytes: &[u8]) -> Result<(RegisterOp, &[u8]), ReadFault>
    ensures { Gives (λ x. (x.0, x.1.now)) result (op_format.read bytes.now) }
{
    let ((), rest) = fixed(&[WRITE], bytes)?;
    let (text, rest) = text_in(alloc, rest)?;
    Ok((RegisterOp::Write { text }, rest))
}

impl Kind for Register {
    type Op = RegisterOp;

    type Ask = RegisterAsk;

    type Ans = RegisterAns;

    ghost is_object = { is_object };

    ghost is_state = { is_state };

    ghost is_op = { op_format.fits };

    ghost is_of = { is_of };

    ghost first = { first };

    ghost applied = { applied };

    ghost answered = { answered };

    ghost touched = { touched };

    ghost looked = { looked };

    ghost saved = { saved };

    ghost loaded = { loaded };

    ghost spelled = { op_format.spell };

    ghost read = { op_format.read };

    fn fresh(_alloc: Global, oid: Oid, objects: &[Oid]) -> Result<Register, NoMemory>
        ensures exact { IfOk result (λ s. s ≡ first oid objects.now) }
        ensures free { IsOk result }
    {
        Ok(Register { held: None })
    }

    fn apply(self, op: &RegisterOp) -> Result<Register, NoMemory> {
        match op {
            RegisterOp::Write { text } => Ok(Register {
                held: Some(text.copy()?),
            }),
        }
    }

    fn ask(&self, _alloc: Global, ask: &RegisterAsk) -> Result<RegisterAns, NoMemory> {
        match ask {
            RegisterAsk::Text => Ok(RegisterAns::Held(copy_held(&self.held)?)),
        }
    }

    fn touch(op: &RegisterOp) -> Scope<'_> {
        match op {
            RegisterOp::Write { text } => {
                let _known = text.as_str();
                Scope::All
            }
        }
    }

    fn look(_ask: &RegisterAsk) -> Scope<'_> {
        Scope::All
    }

    fn save(&self, alloc: Global) -> Result<List<u8>, NoMemory> {
        let mut bytes = List::new(alloc);
        bytes.push(TAG)?;
        put_held(&self.held, &mut bytes)?;
        Ok(bytes)
    }

    fn load(alloc: Global, _oid: Oid, bytes: &[u8]) -> Result<Register, KindFault> {
        in_whole(bytes, register_in(alloc, bytes))
    }

    fn put_op(alloc: Global, op: &RegisterOp, out: &mut List<u8>) -> Result<(), NoMemory> {
        let mut spelling = List::new(alloc);
        match op {
            RegisterOp::Write { text } => {
                spelling.push(WRITE)?;
                put_word(text, &mut spelling)?;
            }
        }
        out.extend(spelling.as_slice())
    }

    fn get_op(alloc: Global, bytes: &[u8]) -> Result<(RegisterOp, usize), KindFault> {
        in_front(bytes, op_in(alloc, bytes))
    }

    fn copy(&self) -> Result<Register, NoMemory> {
        Ok(Register {
            held: copy_held(&self.held)?,
        })
    }

    fn copy_op(op: &RegisterOp) -> Result<RegisterOp, NoMemory> {
        match op {
            RegisterOp::Write { text } => Ok(RegisterOp::Write { text: text.copy()? }),
        }
    }

    fn copy_ask(ask: &RegisterAsk) -> Result<RegisterAsk, NoMemory>
        ensures exact { IfOk result (λ c. c ≡ ask.now) }
        ensures free { IsOk result }
    {
        match ask {
            RegisterAsk::Text => Ok(RegisterAsk::Text),
        }
    }

    ghost use Rattle.tg_cell.specs.RegisterLaws as laws;

    ghost first_is = { laws.first_is };

    ghost applied_is = { laws.applied_is };

    ghost other_kind = { laws.other_kind };

    ghost touched_is = { laws.touched_is };

    ghost apart = { laws.apart };

    ghost loads_saved = { laws.loads_saved };

    ghost loads_only = { laws.loads_only };

    ghost reads_spelled = { laws.reads_spelled };

    ghost reads_only = { laws.reads_only };

    ghost spelled_some = { laws.spelled_some };

    ghost no_front = { laws.no_front_law };
}
