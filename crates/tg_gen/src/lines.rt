//! The lines of a round.

ghost use Rattle.std.specs.Prelude.{◌≡◌, ◌<◌, ◌++◌, [], ◌∷◌, IfOk, OnOk};
ghost use Rattle.tg_script.specs.declared.line.Line.TheVariants as line;
ghost use Rattle.tg_gen.specs.declared.round.Form.TheVariants as form;
ghost use Rattle.tg_gen.specs.Loads.{text_of, key_of, path_of, op_of, ask_of, given, host, begin, put, ask, end, update, other, rival_lines, form_lines, round_lines, text};

use crate::round::{Form, Round, Target};
use std::alloc::Global;
use tg_any::{AnyAsk, AnyOp};
use tg_base::{List, NoMemory};
use tg_cell::{CounterAsk, CounterOp, RegisterAsk, RegisterOp};
use tg_kind::Text;
use tg_list::{TextListAsk, TextListOp};
use tg_map::{MapAsk, MapOp};
use tg_model::{Command, Event};
use tg_script::{Line, print_line};
use tg_set::{SetAsk, SetOp};
use tg_tree::{Path, TreeAsk, TreeOp};

/// The client that hosts the counter alone, and writes where others have read.
pub const RIVAL: u16 = 3;

const TEXTS: [&str; 8] = ["t0", "t1", "t2", "t3", "t4", "t5", "t6", "t7"];

const KEYS: [&str; 8] = ["k0", "k1", "k2", "k3", "k4", "k5", "k6", "k7"];

const PATHS: [&str; 8] = ["/t0", "/t1", "/t2", "/t3", "/t4", "/t5", "/t6", "/t7"];

// The letter t and a digit.
fn text_word(value: u64) -> &'static str
    requires { value < 8 }
    ensures { result.now ≡ text_of value }
{
    TEXTS[value as usize]
}

// The letter k and a digit.
fn key_word(value: u64) -> &'static str
    requires { value < 8 }
    ensures { result.now ≡ key_of value }
{
    KEYS[value as usize]
}

// A slash, the letter t and a digit.
fn path_word(value: u64) -> &'static str
    requires { value < 8 }
    ensures { result.now ≡ path_of value }
{
    PATHS[value as usize]
}

fn text(alloc: Global, value: u64) -> Result<Text, NoMemory>
    requires { value < 8 }
    ensures { IfOk result (λ t. t ≡ text_of value) }
{
    Ok(Text::of(alloc, text_word(value))?.unwrap())
}

fn key(alloc: Global, value: u64) -> Result<Text, NoMemory>
    requires { value < 8 }
    ensures { IfOk result (λ t. t ≡ key_of value) }
{
    Ok(Text::of(alloc, key_word(value))?.unwrap())
}

fn path(alloc: Global, value: u64) -> Result<Path, NoMemory>
    requires { value < 8 }
    ensures { IfOk result (λ p. p ≡ path_of value) }
{
    Ok(Path::of(alloc, path_word(value))?.unwrap())
}

// The path of the root.
fn root_path(alloc: Global) -> Result<Path, NoMemory>
    ensures { IfOk result (λ p. p ≡ 47 ∷ []) }
{
    Ok(Path::of(alloc, "/")?.unwrap())
}

// The op of a target.
fn op(alloc: Global, target: Target, value: u64) -> Result<AnyOp, NoMemory>
    requires { value < 8 }
    ensures { IfOk result (λ o. o ≡ op_of target value) }
{
    match target {
        Target::Counter => {
            let by = value as i64;
            Ok(AnyOp::Counter(CounterOp::Add { by }))
        }
        Target::Register => {
            let text = text(alloc, value)?;
            Ok(AnyOp::Register(RegisterOp::Write { text }))
        }
        Target::Map => {
            let key = key(alloc, value)?;
            let value = text(alloc, value)?;
            Ok(AnyOp::Map(MapOp::Set { key, value }))
        }
        Target::List => {
            let text = text(alloc, value)?;
            Ok(AnyOp::List(TextListOp::PushBack { text }))
        }
        Target::Tree => {
            let path = path(alloc, value)?;
            let text = text(alloc, value)?;
            Ok(AnyOp::Tree(TreeOp::Create { path, text }))
        }
        Target::Set => Ok(AnyOp::Set(SetOp::Include { number: value })),
    }
}

// The ask of a target.
fn ask(alloc: Global, target: Target, value: u64) -> Result<AnyAsk, NoMemory>
    requires { value < 8 }
    ensures { IfOk result (λ q. q ≡ ask_of target value) }
{
    match target {
        Target::Counter => Ok(AnyAsk::Counter(CounterAsk::Value)),
        Target::Register => Ok(AnyAsk::Register(RegisterAsk::Text)),
        Target::Map => {
            let key = key(alloc, value)?;
            Ok(AnyAsk::Map(MapAsk::Get { key }))
        }
        Target::List => Ok(AnyAsk::List(TextListAsk::Len)),
        Target::Tree => {
            let path = root_path(alloc)?;
            Ok(AnyAsk::Tree(TreeAsk::Children { path }))
        }
        Target::Set => Ok(AnyAsk::Set(SetAsk::Member { number: value })),
    }
}

// Puts a line last.
#[tactic(auto, unfolding(crate::specs::Loads::text, crate::specs::Loads::line_text))]
fn put_line(alloc: Global, line: Line, out: &mut List<u8>) -> Result<(), NoMemory>
    ensures { OnOk result (out.new ≡ out.old ++ text (line ∷ [])) }
{
    print_line(alloc, &line, out)
}

/// Puts the line in which a client is given a command last. An `Err` is want of memory.
pub fn put_given(
    alloc: Global,
    client: u16,
    cmd: Command<AnyOp, AnyAsk>,
    out: &mut List<u8>,
) -> Result<(), NoMemory>
    ensures { OnOk result (out.new ≡ out.old ++ text (given client cmd ∷ [])) }
{
    let event = Event::Command { client, cmd };
    put_line(alloc, Line::Event { event }, out)
}

/// Puts the line last in which a client hosts a target. An `Err` is want of memory.
pub fn put_host(
    alloc: Global,
    client: u16,
    target: Target,
    out: &mut List<u8>,
) -> Result<(), NoMemory>
    ensures { OnOk result (out.new ≡ out.old ++ text (host client target ∷ [])) }
{
    let oid = target.oid();
    put_given(alloc, client, Command::Host { oid }, out)
}

/// Puts `settle` last. An `Err` is want of memory.
pub fn put_settle(alloc: Global, out: &mut List<u8>) -> Result<(), NoMemory>
    ensures { OnOk result (out.new ≡ out.old ++ text (line.Settle ∷ [])) }
{
    put_line(alloc, Line::Settle, out)
}

fn put_ask(
    alloc: Global,
    client: u16,
    target: Target,
    value: u64,
    out: &mut List<u8>,
) -> Result<(), NoMemory>
    requires { value < 8 }
    ensures { OnOk result (out.new ≡ out.old ++ text (ask client target value ∷ [])) }
{
    let oid = target.oid();
    let ask = ask(alloc, target, value)?;
    put_given(alloc, client, Command::Ask { oid, ask }, out)
}

fn put_op(
    alloc: Global,
    client: u16,
    target: Target,
    value: u64,
    out: &mut List<u8>,
) -> Result<(), NoMemory>
    requires { value < 8 }
    ensures { OnOk result (out.new ≡ out.old ++ text (put client target value ∷ [])) }
{
    let oid = target.oid();
    let op = op(alloc, target, value)?;
    put_given(alloc, client, Command::Put { oid, op }, out)
}

fn put_update(
    alloc: Global,
    client: u16,
    target: Target,
    value: u64,
    out: &mut List<u8>,
) -> Result<(), NoMemory>
    requires { value < 8 }
    ensures { OnOk result (out.new ≡ out.old ++ text (update client target value ∷ [])) }
{
    let oid = target.oid();
    let op = op(alloc, target, value)?;
    put_line(alloc, Line::Update { client, oid, op }, out)
}

// Puts the rival's update, where there is one.
fn put_rival(alloc: Global, target: Target, value: u64, out: &mut List<u8>) -> Result<(), NoMemory>
    requires { value < 8 }
    ensures { OnOk result (out.new ≡ out.old ++ text (rival_lines target value)) }
{
    if value % 2 == 0 {
        put_update(alloc, RIVAL, target, value, out)?;
    }
    Ok(())
}

// Puts the begin of a transaction, and an ask that is answered.
fn put_asked(
    alloc: Global,
    client: u16,
    target: Target,
    value: u64,
    out: &mut List<u8>,
) -> Result<(), NoMemory>
    requires { value < 8 }
    ensures { OnOk result (out.new ≡ out.old ++ text (begin client ∷ ask client target value ∷ line.Settle ∷ [])) }
{
    put_given(alloc, client, Command::Begin, out)?;
    put_ask(alloc, client, target, value, out)?;
    put_settle(alloc, out)
}

fn put_change(
    alloc: Global,
    client: u16,
    target: Target,
    value: u64,
    out: &mut List<u8>,
) -> Result<(), NoMemory>
    requires { value < 8 }
    ensures { OnOk result (out.new ≡ out.old ++ text (form_lines client form.Change target value)) }
{
    put_asked(alloc, client, target, value, out)?;
    put_rival(alloc, target, value, out)?;
    put_op(alloc, client, target.after(), value, out)?;
    put_given(alloc, client, Command::End, out)?;
    put_settle(alloc, out)
}

fn put_look(
    alloc: Global,
    client: u16,
    target: Target,
    value: u64,
    out: &mut List<u8>,
) -> Result<(), NoMemory>
    requires { value < 8 }
    ensures { OnOk result (out.new ≡ out.old ++ text (form_lines client form.Look target value)) }
{
    put_asked(alloc, client, target, value, out)?;
    put_given(alloc, client, Command::End, out)
}

fn put_updated(
    alloc: Global,
    client: u16,
    target: Target,
    value: u64,
    out: &mut List<u8>,
) -> Result<(), NoMemory>
    requires { value < 8 }
    ensures { OnOk result (out.new ≡ out.old ++ text (form_lines client form.Update target value)) }
{
    put_update(alloc, client, target, value, out)?;
    put_settle(alloc, out)
}

/// Puts the lines of a client's round last. An `Err` is want of memory.
pub fn put_round(
    alloc: Global,
    client: u16,
    round: Round,
    out: &mut List<u8>,
) -> Result<(), NoMemory>
    requires { round.value < 8 }
    ensures { OnOk result (out.new ≡ out.old ++ text (round_lines client round)) }
{
    let Round {
        form,
        target,
        value,
    } = round;
    match form {
        Form::Change => put_change(alloc, client, target, value, out),
        Form::Glance => put_look(alloc, RIVAL, Target::Counter, value, out),
        Form::Look => put_look(alloc, client, target, value, out),
        Form::Update => put_updated(alloc, client, target, value, out),
    }
}
