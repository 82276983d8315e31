//! The step of one client of a row. The client is moved out of the row, where the last one takes its place, and back.

ghost use Rattle.std.specs.Prelude.{◌≡◌, ◌<◌, ◌+◌, ℕ, List, map, length, slice_set, slice_index_or, IfOk, OnOk};
ghost use Rattle.tg_kind.specs.Of.{meaning_of};
ghost use Rattle.tg_protocol.specs.Clients as seen;
ghost use Rattle.tg_protocol.specs.Clients.{new_client};
ghost use Rattle.tg_protocol.specs.ClientSteps.{client_command, client_deliver, client_tick};
ghost use Rattle.tg_protocol.specs.Words.{numbers};
ghost use Rattle.tg_world.specs.Clients.{AreClients, HaveRoom, KeepsClients};

use std::alloc::Global;
use tg_base::{Cluster, List, Msg, NoMemory, NodeId, Out};
use tg_client::{Client, Turned};
use tg_kind::Registry;
use tg_model::{CommandOf, NoteOf};
use tg_world_servers::put_back;

/// The clients that a header declares. An `Err` is want of memory.
pub fn new_clients<K: Registry>(
    alloc: Global,
    cluster: &Cluster,
) -> Result<Vec<Client<K>>, NoMemory>
    ensures keeps { IfOk result (λ cs. KeepsClients (meaning_of K.Registry) cs.items (map (new_client (meaning_of K.Registry) cluster.now) (numbers cluster.now.clients 0))) }
    ensures many { IfOk result (λ cs. length cs.items ≡ cluster.now.clients) }
{
    let mut clients = Vec::new(alloc);
    for num in 0..cluster.clients {
        clients.push(Client::new(alloc, cluster, num)?)?;
    }
    Ok(clients)
}

/// A client is given a command; what it sends and answers. An `Err` is want of memory.
pub fn command<K: Registry>(
    alloc: Global,
    clients: &mut Vec<Client<K>>,
    num: usize,
    command: CommandOf<K>,
) -> Result<(List<Out>, List<NoteOf<K>>), NoMemory>
    requires within { num < length clients.old.items }
    requires kept { AreClients (meaning_of K.Registry) clients.old.items }
    requires room { HaveRoom (meaning_of K.Registry) clients.old.items }
    ensures keeps { (cs : List (seen.Client (meaning_of K.Registry))) (d : seen.Client (meaning_of K.Registry)) → KeepsClients (meaning_of K.Registry) clients.old.items cs → OnOk result (KeepsClients (meaning_of K.Registry) clients.new.items (slice_set cs num (client_command (meaning_of K.Registry) (slice_index_or cs num d) command).now)) }
    ensures sends { (cs : List (seen.Client (meaning_of K.Registry))) (d : seen.Client (meaning_of K.Registry)) → KeepsClients (meaning_of K.Registry) clients.old.items cs → IfOk result (λ r. r.0 ≡ (client_command (meaning_of K.Registry) (slice_index_or cs num d) command).sends) }
    ensures notes { (cs : List (seen.Client (meaning_of K.Registry))) (d : seen.Client (meaning_of K.Registry)) → KeepsClients (meaning_of K.Registry) clients.old.items cs → IfOk result (λ r. r.1 ≡ (client_command (meaning_of K.Registry) (slice_index_or cs num d) command).notes) }
    ensures many { OnOk result (length clients.new.items ≡ length clients.old.items) }
{
    let client = clients.swap_remove(num);
    let Turned { now, sends, notes } = client.command(alloc, command)?;
    put_back(clients, num, now)?;
    Ok((sends, notes))
}

/// A client takes a message from a node under a number; what it sends and answers. An `Err` is want of memory.
pub fn deliver<K: Registry>(
    alloc: Global,
    clients: &mut Vec<Client<K>>,
    num: usize,
    from: NodeId,
    rid: u64,
    msg: &Msg,
) -> Result<(List<Out>, List<NoteOf<K>>), NoMemory>
    requires within { num < length clients.old.items }
    requires kept { AreClients (meaning_of K.Registry) clients.old.items }
    requires room { HaveRoom (meaning_of K.Registry) clients.old.items }
    ensures keeps { (cs : List (seen.Client (meaning_of K.Registry))) (d : seen.Client (meaning_of K.Registry)) → KeepsClients (meaning_of K.Registry) clients.old.items cs → OnOk result (KeepsClients (meaning_of K.Registry) clients.new.items (slice_set cs num (client_deliver (meaning_of K.Registry) (slice_index_or cs num d) from rid msg.now).now)) }
    ensures sends { (cs : List (seen.Client (meaning_of K.Registry))) (d : seen.Client (meaning_of K.Registry)) → KeepsClients (meaning_of K.Registry) clients.old.items cs → IfOk result (λ r. r.0 ≡ (client_deliver (meaning_of K.Registry) (slice_index_or cs num d) from rid msg.now).sends) }
    ensures notes { (cs : List (seen.Client (meaning_of K.Registry))) (d : seen.Client (meaning_of K.Registry)) → KeepsClients (meaning_of K.Registry) clients.old.items cs → IfOk result (λ r. r.1 ≡ (client_deliver (meaning_of K.Registry) (slice_index_or cs num d) from rid msg.now).notes) }
    ensures many { OnOk result (length clients.new.items ≡ length clients.old.items) }
{
    let client = clients.swap_remove(num);
    let Turned { now, sends, notes } = client.deliver(alloc, from, rid, msg)?;
    put_back(clients, num, now)?;
    Ok((sends, notes))
}

/// A client's tick; what it sends and answers. An `Err` is want of memory.
pub fn tick<K: Registry>(
    alloc: Global,
    clients: &mut Vec<Client<K>>,
    num: usize,
) -> Result<(List<Out>, List<NoteOf<K>>), NoMemory>
    requires within { num < length clients.old.items }
    requires kept { AreClients (meaning_of K.Registry) clients.old.items }
    requires room { HaveRoom (meaning_of K.Registry) clients.old.items }
    ensures keeps { (cs : List (seen.Client (meaning_of K.Registry))) (d : seen.Client (meaning_of K.Registry)) → KeepsClients (meaning_of K.Registry) clients.old.items cs → OnOk result (KeepsClients (meaning_of K.Registry) clients.new.items (slice_set cs num (client_tick (meaning_of K.Registry) (slice_index_or cs num d)).now)) }
    ensures sends { (cs : List (seen.Client (meaning_of K.Registry))) (d : seen.Client (meaning_of K.Registry)) → KeepsClients (meaning_of K.Registry) clients.old.items cs → IfOk result (λ r. r.0 ≡ (client_tick (meaning_of K.Registry) (slice_index_or cs num d)).sends) }
    ensures notes { (cs : List (seen.Client (meaning_of K.Registry))) (d : seen.Client (meaning_of K.Registry)) → KeepsClients (meaning_of K.Registry) clients.old.items cs → IfOk result (λ r. r.1 ≡ (client_tick (meaning_of K.Registry) (slice_index_or cs num d)).notes) }
    ensures many { OnOk result (length clients.new.items ≡ length clients.old.items) }
{
    let client = clients.swap_remove(num);
    let Turned { now, sends, notes } = client.tick(alloc)?;
    put_back(clients, num, now)?;
    Ok((sends, notes))
}
