//! The steps of one line of a script, as far as the limits allow.

ghost use Rattle.std.specs.Prelude.{IfOk};
ghost use Rattle.tg_model.specs.declared.command.Command.TheVariants as cmd;
ghost use Rattle.tg_model.specs.declared.command.Event.TheVariants as events;
ghost use Rattle.tg_protocol.specs.Worlds as seen;
ghost use Rattle.tg_world.specs.Runs.{happens_on, puts_on, updates_on};
ghost use Rattle.tg_any.specs.AllKinds.{all_kinds};
ghost use Rattle.tg_replay.specs.Runs.{line_in};
ghost use Rattle.space_time.specs.Records.{IsRecorded, Makes};

use crate::recording::Recording;
use std::alloc::Global;
use tg_any::{AnyKind, AnyOp};
use tg_base::{NoMemory, NodeId, Oid, Which};
use tg_model::{Command, Event, EventOf};
use tg_script::Line;

/// How many rounds of ticks a settling makes at most.
const ROUNDS: u8 = 8;

/// A recording after several steps, and the limit that stopped them, if one did.
#[derive(Drop)]
pub struct Went {
    pub recording: Recording,
    pub stopped: Option<Which>,
}

/// A line's steps, as far as the limits allow. An `Err` is want of memory.
pub fn play_line(alloc: Global, recording: Recording, line: Line) -> Result<Went, NoMemory>
    requires { IsRecorded recording }
    ensures { IfOk result (Makes recording (λ w. line_in w line)) }
{
    match line {
        Line::Event { event } => happens(alloc, recording, event),
        Line::Update { client, oid, op } => updates(alloc, recording, client, oid, op),
        Line::Drain => drain(alloc, recording),
        Line::Settle => settle(alloc, recording),
    }
}

// One step more, unless a limit is reached.
fn happens(alloc: Global, recording: Recording, event: EventOf<AnyKind>) -> Result<Went, NoMemory>
    requires { IsRecorded recording }
    ensures { IfOk result (Makes recording (λ w. happens_on all_kinds w event)) }
{
    match recording.run.world.limit() {
        Some(which) => Ok(Went {
            recording,
            stopped: Some(which),
        }),
        None => {
            let recording = recording.step(alloc, event)?;
            Ok(Went {
                recording,
                stopped: None,
            })
        }
    }
}

// Begin, put and end in a row, unless a limit is reached.
fn updates(
    alloc: Global,
    recording: Recording,
    client: u16,
    oid: Oid,
    op: AnyOp,
) -> Result<Went, NoMemory>
    requires { IsRecorded recording }
    ensures { IfOk result (Makes recording (λ w. updates_on all_kinds w client oid op)) }
{
    let begin = Event::Command {
        client,
        cmd: Command::Begin,
    };
    let went = happens(alloc, recording, begin)?;
    match went.stopped {
        Some(_) => Ok(went),
        None => puts(alloc, went.recording, client, oid, op),
    }
}

// Put and end in a row, unless a limit is reached.
fn puts(
    alloc: Global,
    recording: Recording,
    client: u16,
    oid: Oid,
    op: AnyOp,
) -> Result<Went, NoMemory>
    requires { IsRecorded recording }
    ensures { IfOk result (Makes recording (λ w. puts_on all_kinds w client oid op)) }
{
    let put = Event::Command {
        client,
        cmd: Command::Put { oid, op },
    };
    let went = happens(alloc, recording, put)?;
    match went.stopped {
        Some(_) => Ok(went),
        None => ends(alloc, went.recording, client),
    }
}

// An end, unless a limit is reached.
fn ends(alloc: Global, recording: Recording, client: u16) -> Result<Went, NoMemory>
    requires { IsRecorded recording }
    ensures { IfOk result (Makes recording (λ w. happens_on all_kinds w (events.Command client cmd.End))) }
{
    let end = Event::Command {
        client,
        cmd: Command::End,
    };
    happens(alloc, recording, end)
}

// Deliveries, each of the lowest packet that waits, until there is none or a limit is reached.
fn drain(alloc: Global, recording: Recording) -> Result<Went, NoMemory>
    requires { IsRecorded recording }
    ensures { IfOk result (Makes recording (λ w. seen.drain all_kinds w)) }
{
    recording.run.world.rules();
    let mut left = recording;
    while let Some(packet) = left.run.world.due() {
        left = left.step(alloc, Event::Deliver { packet })?;
    }
    let stopped = left.run.world.end();
    Ok(Went {
        recording: left,
        stopped,
    })
}

// A drain, and then up to eight rounds, each one tick of every running node in order and a drain; a round whose ticks
// sent nothing is the last.
fn settle(alloc: Global, recording: Recording) -> Result<Went, NoMemory>
    requires { IsRecorded recording }
    ensures { IfOk result (Makes recording (λ w. seen.settle all_kinds w)) }
{
    let drained = drain(alloc, recording)?;
    match drained.stopped {
        Some(_) => Ok(drained),
        None => rounds(alloc, drained.recording, ROUNDS),
    }
}

// So many rounds at most.
fn rounds(alloc: Global, recording: Recording, left: u8) -> Result<Went, NoMemory>
    requires { IsRecorded recording }
    ensures { IfOk result (Makes recording (λ w. seen.rounds all_kinds left w)) }
{
    if left == 0 {
        return Ok(Went {
            recording,
            stopped: None,
        });
    }
    let sent = recording.run.world.sent();
    let nodes = recording.run.world.nodes(alloc)?;
    let ticked = tick_all(alloc, recording, nodes.as_slice())?;
    match ticked.stopped {
        Some(_) => Ok(ticked),
        None => {
            if ticked.recording.run.world.sent() == sent {
                return drain(alloc, ticked.recording);
            }
            let drained = drain(alloc, ticked.recording)?;
            match drained.stopped {
                Some(_) => Ok(drained),
                None => rounds(alloc, drained.recording, left - 1),
            }
        }
    }
}

// One tick of each of these nodes that runs.
fn tick_all(alloc: Global, recording: Recording, nodes: &[NodeId]) -> Result<Went, NoMemory>
    requires { IsRecorded recording }
    ensures { IfOk result (Makes recording (λ w. seen.tick_all all_kinds nodes.now w)) }
{
    match nodes {
        [] => Ok(Went {
            recording,
            stopped: None,
        }),
        [node, others @ ..] => {
            if !recording.run.world.runs(*node) {
                return tick_all(alloc, recording, others);
            }
            match recording.run.world.limit() {
                Some(which) => Ok(Went {
                    recording,
                    stopped: Some(which),
                }),
                None => {
                    let recording = recording.step(alloc, Event::Tick { node: *node })?;
                    tick_all(alloc, recording, others)
                }
            }
        }
    }
}
