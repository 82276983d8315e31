//! The steps of clients.

ghost use Rattle.std.specs.Prelude.{◌≡◌, ◌≤◌, ◌<◌, ◌+◌, ℕ, IfOk};
ghost use Rattle.tg_kind.specs.Of.{meaning_of};
ghost use Rattle.tg_protocol.specs.Clients as told;
ghost use Rattle.tg_protocol.specs.ClientSteps.{client_command, client_deliver, client_tick};
ghost use Rattle.tg_client.specs.Kept.{KeepsClient, IsClient};
ghost use Rattle.tg_node_state.specs.Nodes.{ClientNode, client_turn};
ghost use Rattle.tg_node_state.specs.Kept.{KeepsNode, KeepsTurn};
ghost use Rattle.tg_node_state.specs.declared.own.Own.TheVariants as own;

use crate::own::{Own, Stepped};
use std::alloc::Global;
use tg_base::{Cluster, NoMemory, Packet};
use tg_client::{Client, Turned};
use tg_kind::Registry;
use tg_model::CommandOf;

/// A client before its first step. An `Err` is want of memory.
pub fn new_client<K: Registry>(
    alloc: Global,
    cluster: &Cluster,
    num: u16,
) -> Result<Own<K>, NoMemory>
    ensures { (steps : ℕ) → IfOk result (λ k. KeepsNode (meaning_of K.Registry) steps k (ClientNode (told.new_client (meaning_of K.Registry) cluster.now num))) }
{
    Ok(Own::Client(Client::new(alloc, cluster, num)?))
}

/// A client takes a packet. An `Err` is want of memory.
pub fn client_takes<K: Registry>(
    alloc: Global,
    client: Client<K>,
    packet: &Packet,
) -> Result<Stepped<K>, NoMemory>
    requires kept { IsClient (meaning_of K.Registry) client }
    requires room { client.state.calls < 200000 }
    ensures { (steps : ℕ) (c : told.Client (meaning_of K.Registry)) → KeepsClient (meaning_of K.Registry) client c → c.calls ≤ steps → IfOk result (λ t. KeepsTurn (meaning_of K.Registry) (steps + 1) t (client_turn (meaning_of K.Registry) (client_deliver (meaning_of K.Registry) c packet.now.from packet.now.rid packet.now.msg))) }
{
    let turned = client.deliver(alloc, packet.from, packet.rid, &packet.msg)?;
    Ok(stepped(turned))
}

/// A client's tick. An `Err` is want of memory.
pub fn client_ticks<K: Registry>(alloc: Global, client: Client<K>) -> Result<Stepped<K>, NoMemory>
    requires kept { IsClient (meaning_of K.Registry) client }
    requires room { client.state.calls < 200000 }
    ensures { (steps : ℕ) (c : told.Client (meaning_of K.Registry)) → KeepsClient (meaning_of K.Registry) client c → c.calls ≤ steps → IfOk result (λ t. KeepsTurn (meaning_of K.Registry) (steps + 1) t (client_turn (meaning_of K.Registry) (client_tick (meaning_of K.Registry) c))) }
{
    let turned = client.tick(alloc)?;
    Ok(stepped(turned))
}

/// A client is given a command. An `Err` is want of memory.
pub fn client_commands<K: Registry>(
    alloc: Global,
    client: Client<K>,
    command: CommandOf<K>,
) -> Result<Stepped<K>, NoMemory>
    requires kept { IsClient (meaning_of K.Registry) client }
    requires room { client.state.calls < 200000 }
    ensures { (steps : ℕ) (c : told.Client (meaning_of K.Registry)) → KeepsClient (meaning_of K.Registry) client c → c.calls ≤ steps → IfOk result (λ t. KeepsTurn (meaning_of K.Registry) (steps + 1) t (client_turn (meaning_of K.Registry) (client_command (meaning_of K.Registry) c command))) }
{
    let turned = client.command(alloc, command)?;
    Ok(stepped(turned))
}

// What a client's step gives, as a node's. It takes no memory.
fn stepped<K: Registry>(turned: Turned<K>) -> Stepped<K>
    ensures own { result.own ≡ own.Client turned.now }
    ensures sends { result.sends ≡ turned.sends }
    ensures notes { result.notes ≡ turned.notes }
{
    let Turned { now, sends, notes } = turned;
    Stepped {
        own: Own::Client(now),
        sends,
        notes,
    }
}
