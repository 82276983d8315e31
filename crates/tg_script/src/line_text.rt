//! Printing of lines.

ghost use Rattle.std.specs.Prelude.{◌≡◌, ◌++◌, [], ◌∷◌, codes, OnOk, OnErr};
ghost use Rattle.std.specs.Fmt.{decimal};
ghost use Rattle.tg_any.specs.AnyWords.{op_words, ask_words};
ghost use Rattle.tg_any.specs.Names.{object_word};
ghost use Rattle.tg_any.specs.Words.{joined};
ghost use Rattle.tg_script.specs.Nodes.{node_word, units_word, chains_word};
ghost use Rattle.tg_script.specs.Parts.{spaced};
ghost use Rattle.tg_script.specs.Commands.{part_words, place_words, join_words, change_words, command_words};
ghost use Rattle.tg_script.specs.Lines.{line_words};
ghost use Rattle.tg_script.specs.declared.line.Line.TheVariants as line;

use crate::command::AnyCommand;
use crate::line::Line;
use crate::put::{put_joined, put_member, put_node};
use std::alloc::Global;
use tg_any::{AnyAsk, AnyOp, put_number, put_one, put_two, spell_ask, spell_op};
use tg_base::{Chain, Change, Join, List, NoMemory, NodeId, Oid};
use tg_model::{Command, Event};

/// Puts the line's text last, and its line feed. An `Err` is want of memory, and changes nothing.
pub fn print_line(alloc: Global, line: &Line, out: &mut List<u8>) -> Result<(), NoMemory>
    ensures ok { OnOk result (out.new ≡ out.old ++ (joined (line_words line.now) ++ 10 ∷ [])) }
    ensures err { OnErr result (out.new ≡ out.old) }
{
    let mut text = List::new(alloc);
    put_line(alloc, line, &mut text)?;
    text.push(b'\n')?;
    out.extend(text.as_slice())
}

fn put_line(alloc: Global, line: &Line, out: &mut List<u8>) -> Result<(), NoMemory>
    ensures { OnOk result (out.new ≡ out.old ++ joined (line_words line.now)) }
{
    match line {
        Line::Event { event } => put_event(alloc, event, out),
        Line::Update { client, oid, op } => put_update(alloc, *client, *oid, op, out),
        Line::Drain => out.extend(b"drain"),
        Line::Settle => out.extend(b"settle"),
    }
}

fn put_update(
    alloc: Global,
    client: u16,
    oid: Oid,
    op: &AnyOp,
    out: &mut List<u8>,
) -> Result<(), NoMemory>
    ensures { OnOk result (out.new ≡ out.old ++ joined ((99 ∷ decimal client) ∷ codes "update" ∷ object_word oid ∷ op_words op.now)) }
{
    put_member(b'c', client, out)?;
    out.push(b' ')?;
    put_op(alloc, b"update", oid, op, out)
}

fn put_event(
    alloc: Global,
    event: &Event<AnyOp, AnyAsk>,
    out: &mut List<u8>,
) -> Result<(), NoMemory>
    ensures { OnOk result (out.new ≡ out.old ++ joined (line_words (line.Event event.now))) }
{
    match event {
        Event::Command { client, cmd } => put_given(alloc, *client, cmd, out),
        Event::Deliver { packet } => put_one(b"deliver", packet, out),
        Event::Lose { packet } => put_one(b"lose", packet, out),
        Event::Tick { node } => put_of_node(b"tick ", *node, out),
        Event::Stop { node } => put_of_node(b"stop ", *node, out),
    }
}

// Puts a word with its space, and a node.
fn put_of_node(word: &[u8], node: NodeId, out: &mut List<u8>) -> Result<(), NoMemory>
    ensures { OnOk result (out.new ≡ out.old ++ (word.now ++ node_word node)) }
{
    out.extend(word)?;
    put_node(node, out)
}

// Puts a client and its command.
fn put_given(
    alloc: Global,
    client: u16,
    cmd: &AnyCommand,
    out: &mut List<u8>,
) -> Result<(), NoMemory>
    ensures { OnOk result (out.new ≡ out.old ++ joined ((99 ∷ decimal client) ∷ command_words cmd.now)) }
{
    put_member(b'c', client, out)?;
    out.push(b' ')?;
    put_command(alloc, cmd, out)
}

fn put_command(alloc: Global, cmd: &AnyCommand, out: &mut List<u8>) -> Result<(), NoMemory>
    ensures { OnOk result (out.new ≡ out.old ++ joined (command_words cmd.now)) }
{
    match cmd {
        Command::Host { oid } => put_one(b"host", oid, out),
        Command::Begin => out.extend(b"begin"),
        Command::Put { oid, op } => put_op(alloc, b"put", *oid, op, out),
        Command::Ask { oid, ask } => put_ask(alloc, b"ask", *oid, ask, out),
        Command::End => out.extend(b"end"),
        Command::Drop => out.extend(b"drop"),
        Command::Fate { at } => put_one(b"fate", at, out),
        Command::Decide { at } => put_one(b"decide", at, out),
        Command::Checkpoint { oid } => put_one(b"checkpoint", oid, out),
        Command::Forget { oid, mark } => put_two(b"forget", oid, mark, out),
        Command::Trim => out.extend(b"trim"),
        Command::Reconf { change } => put_change(change, out),
        Command::Copy {
            unit,
            range,
            stripe,
        } => put_place(b"copy ", *unit, *range, *stripe, out),
        Command::AskAt { at, oid, ask } => put_ask_at(alloc, *at, *oid, ask, out),
        Command::Rescue { at } => put_one(b"rescue", at, out),
    }
}

// Puts a verb, an object and an op.
fn put_op(
    alloc: Global,
    verb: &[u8],
    oid: Oid,
    op: &AnyOp,
    out: &mut List<u8>,
) -> Result<(), NoMemory>
    ensures { OnOk result (out.new ≡ out.old ++ joined (verb.now ∷ object_word oid ∷ op_words op.now)) }
{
    put_one(verb, &oid, out)?;
    out.push(b' ')?;
    spell_op(alloc, op, out)
}

// Puts a verb, an object and an ask.
fn put_ask(
    alloc: Global,
    verb: &[u8],
    oid: Oid,
    ask: &AnyAsk,
    out: &mut List<u8>,
) -> Result<(), NoMemory>
    ensures { OnOk result (out.new ≡ out.old ++ joined (verb.now ∷ object_word oid ∷ ask_words ask.now)) }
{
    put_one(verb, &oid, out)?;
    out.push(b' ')?;
    spell_ask(alloc, ask, out)
}

// Puts a position, an object and an ask.
fn put_ask_at(
    alloc: Global,
    at: u64,
    oid: Oid,
    ask: &AnyAsk,
    out: &mut List<u8>,
) -> Result<(), NoMemory>
    ensures { OnOk result (out.new ≡ out.old ++ joined (codes "ask-at" ∷ decimal at ∷ object_word oid ∷ ask_words ask.now)) }
{
    put_two(b"ask-at", &at, &oid, out)?;
    out.push(b' ')?;
    spell_ask(alloc, ask, out)
}

// Puts a word with its space, and a unit, a range and a stripe.
fn put_place(
    word: &[u8],
    unit: u16,
    range: usize,
    stripe: usize,
    out: &mut List<u8>,
) -> Result<(), NoMemory>
    ensures { OnOk result (out.new ≡ out.old ++ (word.now ++ joined (place_words unit range stripe))) }
{
    out.extend(word)?;
    put_member(b'u', unit, out)?;
    out.push(b' ')?;
    put_number(range, out)?;
    out.push(b' ')?;
    put_number(stripe, out)
}

// Puts the units that leave, if some do.
fn put_dropped(units: &[u16], out: &mut List<u8>) -> Result<(), NoMemory>
    ensures { OnOk result (out.new ≡ out.old ++ spaced (part_words (codes "drop") units_word units.now)) }
{
    if units.is_empty() {
        return Ok(());
    }
    out.extend(b" drop ")?;
    put_joined(b',', units, out)
}

// Puts the chains of a further range, if there are some.
fn put_opened(chains: &[Chain], out: &mut List<u8>) -> Result<(), NoMemory>
    ensures { OnOk result (out.new ≡ out.old ++ spaced (part_words (codes "open") chains_word chains.now)) }
{
    if chains.is_empty() {
        return Ok(());
    }
    out.extend(b" open ")?;
    put_joined(b'/', chains, out)
}

// Puts the unit that joins, if one does.
fn put_join(join: &Option<Join>, out: &mut List<u8>) -> Result<(), NoMemory>
    ensures { OnOk result (out.new ≡ out.old ++ spaced (join_words join.now)) }
{
    match join {
        None => Ok(()),
        Some(join) => put_place(b" join ", join.unit, join.range, join.stripe, out),
    }
}

fn put_change(change: &Change, out: &mut List<u8>) -> Result<(), NoMemory>
    ensures { OnOk result (out.new ≡ out.old ++ joined (codes "reconf" ∷ change_words change.now)) }
{
    put_parts(
        change.seq,
        change.drop.as_slice(),
        change.opened.as_slice(),
        &change.join,
        out,
    )
}

// Puts `reconf` and the parts of a change.
fn put_parts(
    seq: u16,
    drop: &[u16],
    opened: &[Chain],
    join: &Option<Join>,
    out: &mut List<u8>,
) -> Result<(), NoMemory>
    ensures { OnOk result (out.new ≡ out.old ++ joined (codes "reconf" ∷ change_words (record { seq = seq; drop = drop.now; opened = opened.now; join = join.now }))) }
{
    out.extend(b"reconf ")?;
    put_member(b's', seq, out)?;
    put_dropped(drop, out)?;
    put_opened(opened, out)?;
    put_join(join, out)
}
