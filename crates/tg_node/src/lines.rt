//! What a node does at a line.

ghost use Rattle.std.specs.Prelude.{◌≡◌, ◌∷◌, [], IfOk, OnErr};
ghost use Rattle.tg_io.specs.Faults.{HasCause, StaysSure};
ghost use Rattle.tg_model.specs.declared.command.Command.TheVariants as cmd;
ghost use Rattle.tg_node_state.specs.declared.input.Input.TheVariants as comes;
ghost use Rattle.tg_node.specs.Steps.{IsSound, Makes, TookLine, Does, Breaks, BreaksLine, made_acts};

use crate::asked::Asked;
use crate::nodes::{Moved, Node, Place};
use std::alloc::Global;
use tg_any::{AnyKind, AnyOp};
use tg_base::{Oid, Which};
use tg_io::{IoErr, Link};
use tg_model::Command;
use tg_node_state::{Input, InputOf};

impl Node {
    /// What a line asks, as far as the limits allow. An `Err` is a fault of the link, or want of memory.
    pub fn follow<L: Link>(
        self,
        alloc: Global,
        place: Place,
        link: &mut L,
        asked: Asked,
    ) -> Result<Moved, IoErr>
        requires { IsSound self }
        ensures took { IfOk result (λ m. TookLine place asked (L.handed link.old) self (L.sent link.old) m (L.handed link.new) (L.sent link.new) (L.acts link.old) (L.acts link.new)) }
        ensures breaks { OnErr result (BreaksLine place asked self (L.sent link.old) (L.acts link.old) (L.acts link.new)) }
        ensures cause { HasCause (L.faults link.old) (L.faults link.new) result }
        ensures still { IfOk result (λ _. L.faults link.new ≡ L.faults link.old) }
        ensures sure { StaysSure (L.sure link.old) (L.sure link.new) (L.faults link.old) (L.faults link.new) }
    {
        match asked {
            Asked::Tick => self.make(alloc, place, link, Input::Tick),
            Asked::Wait { calls } => self.wait(alloc, place, link, calls),
            Asked::Given { command } => self.make(alloc, place, link, Input::Command { command }),
            Asked::Update { oid, op } => self.update(alloc, place, link, oid, op),
        }
    }

    /// One step, unless the limit is reached. An `Err` is a fault of the link, or want of memory.
    pub fn make<L: Link>(
        self,
        alloc: Global,
        place: Place,
        link: &mut L,
        input: InputOf<AnyKind>,
    ) -> Result<Moved, IoErr>
        requires { IsSound self }
        ensures makes { IfOk result (λ m. Makes place (input ∷ []) self (L.sent link.old) m (L.sent link.new)) }
        ensures received { IfOk result (λ m. m.node.received ≡ self.received) }
        ensures handed { L.handed link.new ≡ L.handed link.old }
        ensures does { IfOk result (λ _. Does self (L.sent link.old) (made_acts place self (input ∷ [])) (L.acts link.old) (L.acts link.new)) }
        ensures breaks { OnErr result (Breaks self (L.sent link.old) (made_acts place self (input ∷ [])) (L.acts link.old) (L.acts link.new)) }
        ensures cause { HasCause (L.faults link.old) (L.faults link.new) result }
        ensures still { IfOk result (λ _. L.faults link.new ≡ L.faults link.old) }
        ensures sure { StaysSure (L.sure link.old) (L.sure link.new) (L.faults link.old) (L.faults link.new) }
    {
        if self.is_at_limit() {
            return Ok(Moved::at(self, Which::Steps));
        }
        let node = self.step(alloc, place, link, input)?;
        Ok(Moved::on(node))
    }

    // Begin, put and end in a row.
    fn update<L: Link>(
        self,
        alloc: Global,
        place: Place,
        link: &mut L,
        oid: Oid,
        op: AnyOp,
    ) -> Result<Moved, IoErr>
        requires { IsSound self }
        ensures makes { IfOk result (λ m. Makes place (comes.Command cmd.Begin ∷ comes.Command (cmd.Put oid op) ∷ comes.Command cmd.End ∷ []) self (L.sent link.old) m (L.sent link.new)) }
        ensures received { IfOk result (λ m. m.node.received ≡ self.received) }
        ensures handed { L.handed link.new ≡ L.handed link.old }
        ensures does { IfOk result (λ _. Does self (L.sent link.old) (made_acts place self (comes.Command cmd.Begin ∷ comes.Command (cmd.Put oid op) ∷ comes.Command cmd.End ∷ [])) (L.acts link.old) (L.acts link.new)) }
        ensures breaks { OnErr result (Breaks self (L.sent link.old) (made_acts place self (comes.Command cmd.Begin ∷ comes.Command (cmd.Put oid op) ∷ comes.Command cmd.End ∷ [])) (L.acts link.old) (L.acts link.new)) }
        ensures cause { HasCause (L.faults link.old) (L.faults link.new) result }
        ensures still { IfOk result (λ _. L.faults link.new ≡ L.faults link.old) }
        ensures sure { StaysSure (L.sure link.old) (L.sure link.new) (L.faults link.old) (L.faults link.new) }
    {
        let begun = self.make(alloc, place, link, begin())?;
        if begun.stopped.is_some() {
            return Ok(begun);
        }
        begun.node.put_and_end(alloc, place, link, oid, op)
    }

    // Put and end in a row.
    fn put_and_end<L: Link>(
        self,
        alloc: Global,
        place: Place,
        link: &mut L,
        oid: Oid,
        op: AnyOp,
    ) -> Result<Moved, IoErr>
        requires { IsSound self }
        ensures makes { IfOk result (λ m. Makes place (comes.Command (cmd.Put oid op) ∷ comes.Command cmd.End ∷ []) self (L.sent link.old) m (L.sent link.new)) }
        ensures received { IfOk result (λ m. m.node.received ≡ self.received) }
        ensures handed { L.handed link.new ≡ L.handed link.old }
        ensures does { IfOk result (λ _. Does self (L.sent link.old) (made_acts place self (comes.Command (cmd.Put oid op) ∷ comes.Command cmd.End ∷ [])) (L.acts link.old) (L.acts link.new)) }
        ensures breaks { OnErr result (Breaks self (L.sent link.old) (made_acts place self (comes.Command (cmd.Put oid op) ∷ comes.Command cmd.End ∷ [])) (L.acts link.old) (L.acts link.new)) }
        ensures cause { HasCause (L.faults link.old) (L.faults link.new) result }
        ensures still { IfOk result (λ _. L.faults link.new ≡ L.faults link.old) }
        ensures sure { StaysSure (L.sure link.old) (L.sure link.new) (L.faults link.old) (L.faults link.new) }
    {
        let put = self.make(alloc, place, link, put(oid, op))?;
        if put.stopped.is_some() {
            return Ok(put);
        }
        put.node.make(alloc, place, link, end())
    }
}

fn begin() -> InputOf<AnyKind>
    ensures { result ≡ comes.Command cmd.Begin }
{
    Input::Command {
        command: Command::Begin,
    }
}

fn put(oid: Oid, op: AnyOp) -> InputOf<AnyKind>
    ensures { result ≡ comes.Command (cmd.Put oid op) }
{
    Input::Command {
        command: Command::Put { oid, op },
    }
}

fn end() -> InputOf<AnyKind>
    ensures { result ≡ comes.Command cmd.End }
{
    Input::Command {
        command: Command::End,
    }
}
