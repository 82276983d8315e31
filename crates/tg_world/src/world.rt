//! All nodes and all packets, and one step.

ghost use Rattle.std.specs.Prelude.{◌≡◌, ◌<◌, ◌≤◌, ◌+◌, ◌-◌, ◌^◌, Some, None, map, length, slice_get, slice_index_or, option_copied, IfOk, OnOk, IsSome, replicate, is_some, true};
ghost use Rattle.tg_base.specs.declared.packet.Packet.{Packet};
ghost use Rattle.tg_kind.specs.Of.{meaning_of};
ghost use Rattle.tg_model.specs.declared.command.Event.TheVariants as event;
ghost use Rattle.tg_protocol.specs.Words.{client_id};
ghost use Rattle.tg_protocol.specs.Worlds as seen;
ghost use Rattle.tg_world_servers.specs.Servers.{counted, hands, loses, taken, ticked, runs, stops, receiver_of};
ghost use Rattle.tg_world.specs.Checks.{declares};
ghost use Rattle.tg_world.specs.Kept.{IsWhole, IsWorld, KeepsWorld};
ghost use Rattle.tg_world.specs.Runs.{due_of, end_of, noted_after, runs_client};
ghost use Rattle.tg_client.specs.Kept.{KeepsClient};
ghost use Rattle.tg_protocol.specs.Clients as rules;
ghost use Rattle.tg_base.specs.declared.ids.Role.TheVariants as role;

use crate::clients::{command, deliver, new_clients, tick};
use crate::told::{CommandStart, tell};
use std::alloc::Global;
use std::marker::Model;
use tg_base::{Cell, Cluster, List, NoMemory, NodeId, Packet, Pos, Role, Which};
use tg_client::Client;
use tg_kind::Registry;
use tg_model::{CommandOf, DoneOf, Event, EventOf, MarkOf};
use tg_world_log::history_of;
use tg_world_servers::Servers;

/// The clients of a world, and the replies so far, on the heap.
#[derive(Drop)]
struct Parts<K: Registry> {
    clients: Vec<Client<K>>,
    told: Vec<MarkOf<K>>,
    told_noted: Vec<CommandStart>,
    noted: Vec<CommandStart>,
    event: u64,
}

/// A world: all nodes of a cluster, all packets that were ever sent, and the replies so far.
///
/// Each clause speaks of any world of the definitions that this one keeps: a step takes it to the definitions' step,
/// and the answers are those of the definitions.
pub struct World<K: Registry> {
    servers: Servers,
    parts: Box<Parts<K>>,
}

// By hand, since a derived drop is proved anew wherever a value is dropped.
impl<K: Registry> Drop for World<K> {
    fn drop(self) {
        let World {
            servers: _,
            parts: _,
        } = self;
    }
}

impl<K: Registry> Model for World<K> {
    ghost use Rattle.tg_model.specs.declared.trace.Mark.{Mark};
    ghost use Rattle.tg_client.specs.declared.client.Client.{Client as KeptClient};
    ghost use Rattle.tg_world.specs.Kept.{Kept, IsWhole as IsSound};

    ghost Value = { Kept (KeptClient K K.Op K.Ask K.Ans) (Mark K.Op K.Ask K.Ans) };

    ghost view = { λ w. record { servers = w.servers; clients = w.parts.value.clients.items; told = w.parts.value.told.items; told_noted = w.parts.value.told_noted.items; noted = w.parts.value.noted.items; event = w.parts.value.event } };

    ghost invariant = { λ w. IsSound w.servers w.parts.value.clients.items w.parts.value.told.items w.parts.value.told_noted.items w.parts.value.noted.items };
}

impl<K: Registry> World<K> {
    /// The world that a header declares, before its first step. An `Err` is want of memory.
    #[tactic(auto, using(crate::proofs::Telling::starts))]
    pub fn start(alloc: Global, cluster: &Cluster) -> Result<World<K>, NoMemory>
        ensures { IfOk result (λ w. KeepsWorld (meaning_of K.Registry) w (seen.start (meaning_of K.Registry) cluster.now)) }
    {
        let servers = Servers::start(alloc, cluster)?;
        let clients = new_clients(alloc, cluster)?;
        let noted = new_noted(alloc, cluster.clients)?;
        let all = Parts {
            clients,
            told: Vec::new(alloc),
            told_noted: Vec::new(alloc),
            noted,
            event: 0,
        };
        let parts = Box::new(alloc, all)?;
        Ok(World { servers, parts })
    }

    /// Every world keeps the rules.
    pub fn rules(&self)
        ensures few { self.now.servers.steps ≤ 200000 }
        ensures whole { IsWhole self.now.servers self.now.clients self.now.told self.now.told_noted self.now.noted }
    {
        let _event = self.parts.event;
    }

    /// How many events have begun. It takes no memory.
    pub fn event(&self) -> u64
        ensures { result ≡ self.now.event }
    {
        self.parts.event
    }

    /// How many steps were taken. It takes no memory.
    #[tactic(auto, using(crate::proofs::Telling::steps_told))]
    pub fn steps(&self) -> u32
        ensures { (w : seen.World (meaning_of K.Registry)) → KeepsWorld (meaning_of K.Registry) self.now w → result ≡ w.steps }
    {
        self.servers.steps()
    }

    /// How many packets were sent. It takes no memory.
    #[tactic(auto, using(crate::proofs::Telling::packets_told))]
    pub fn sent(&self) -> u64
        ensures { (w : seen.World (meaning_of K.Registry)) → KeepsWorld (meaning_of K.Registry) self.now w → result ≡ length w.packets }
    {
        self.servers.post().sent()
    }

    /// The packets that were sent, by number. It takes no memory.
    #[tactic(auto, using(crate::proofs::Telling::packets_told))]
    pub fn packets(&self) -> &[Packet]
        ensures { (w : seen.World (meaning_of K.Registry)) → KeepsWorld (meaning_of K.Registry) self.now w → result.now ≡ w.packets }
    {
        self.servers.post().packets()
    }

    /// The packet with a number: None exactly where it isn't sent yet. It takes no memory.
    #[tactic(auto, using(crate::proofs::Telling::packets_told))]
    pub fn packet(&self, number: u64) -> Option<&Packet>
        ensures { (w : seen.World (meaning_of K.Registry)) → KeepsWorld (meaning_of K.Registry) self.now w → option_copied result ≡ slice_get w.packets number }
    {
        self.servers.post().packet(number)
    }

    /// The replies so far. It takes no memory.
    #[tactic(auto, using(crate::proofs::Telling::trace_told))]
    pub fn trace(&self) -> &[MarkOf<K>]
        ensures { (w : seen.World (meaning_of K.Registry)) → KeepsWorld (meaning_of K.Registry) self.now w → result.now ≡ seen.trace (meaning_of K.Registry) w }
    {
        self.parts.told.as_slice()
    }

    /// What was noted of each reply's client. It takes no memory.
    #[tactic(auto, using(crate::proofs::Telling::noted_told))]
    pub fn trace_noted(&self) -> &[CommandStart]
        ensures { (w : seen.World (meaning_of K.Registry)) → KeepsWorld (meaning_of K.Registry) self.now w → result.now ≡ map (λ t. t.noted) w.told }
    {
        self.parts.told_noted.as_slice()
    }

    /// The limit that was reached, if one was: the steps before the bytes. It takes no memory.
    #[tactic(auto, using(crate::proofs::Telling::limit_told))]
    pub fn limit(&self) -> Option<Which>
        ensures limit { (w : seen.World (meaning_of K.Registry)) → KeepsWorld (meaning_of K.Registry) self.now w → result ≡ seen.limit_of (meaning_of K.Registry) w }
        ensures room { result ≡ None → self.now.servers.steps < 200000 }
    {
        self.servers.limit()
    }

    /// Whether the header declares a node, and it hasn't stopped. It takes no memory.
    #[tactic(auto, using(crate::proofs::Telling::runs_told))]
    pub fn runs(&self, node: NodeId) -> bool
        ensures { (w : seen.World (meaning_of K.Registry)) → KeepsWorld (meaning_of K.Registry) self.now w → result ≡ seen.runs (meaning_of K.Registry) w node }
    {
        self.servers.runs(node)
    }

    /// Whether the header declares a node. It takes no memory.
    #[tactic(auto, using(crate::proofs::Telling::declares_told))]
    pub fn declares(&self, node: NodeId) -> bool
        ensures { (w : seen.World (meaning_of K.Registry)) → KeepsWorld (meaning_of K.Registry) self.now w → result ≡ declares (meaning_of K.Registry) w node }
    {
        (node.num as usize) < self.servers.count(node.role)
    }

    /// All nodes: units, layout servers, sequencers and clients. An `Err` is want of memory.
    #[tactic(auto, using(crate::proofs::Telling::nodes_told))]
    pub fn nodes(&self, alloc: Global) -> Result<Vec<NodeId>, NoMemory>
        ensures { (w : seen.World (meaning_of K.Registry)) → KeepsWorld (meaning_of K.Registry) self.now w → IfOk result (λ ns. ns.items ≡ seen.nodes (meaning_of K.Registry) w) }
    {
        self.servers.nodes(alloc)
    }

    /// The client with a number: None exactly where the header declares no such client. It takes no memory.
    pub fn client(&self, num: u16) -> Option<&Client<K>>
        ensures { option_copied result ≡ slice_get self.now.clients num }
    {
        self.parts.clients.get(num as usize)
    }

    /// The lowest packet that waits, where no limit is reached. It takes no memory.
    #[tactic(auto, using(crate::proofs::Telling::due_told))]
    pub fn due(&self) -> Option<u64>
        ensures due { (w : seen.World (meaning_of K.Registry)) → KeepsWorld (meaning_of K.Registry) self.now w → result ≡ due_of (meaning_of K.Registry) w }
        ensures room { IsSome result → self.now.servers.steps < 200000 }
    {
        match self.servers.limit() {
            Some(_) => None,
            None => self.servers.post().first_waiting(),
        }
    }

    /// The limit that keeps a packet that waits, if one does. It takes no memory.
    #[tactic(auto, using(crate::proofs::Telling::end_told))]
    pub fn end(&self) -> Option<Which>
        ensures { (w : seen.World (meaning_of K.Registry)) → KeepsWorld (meaning_of K.Registry) self.now w → result ≡ end_of (meaning_of K.Registry) w }
    {
        match self.servers.post().first_waiting() {
            None => None,
            Some(_) => self.limit(),
        }
    }

    /// The log. An `Err` is want of memory.
    #[tactic(auto, using(crate::proofs::Telling::log_told))]
    pub fn log(&self, alloc: Global) -> Result<List<(Pos, Cell)>, NoMemory>
        ensures { (w : seen.World (meaning_of K.Registry)) → KeepsWorld (meaning_of K.Registry) self.now w → IfOk result (λ l. l ≡ seen.log (meaning_of K.Registry) w) }
    {
        self.servers.log(alloc)
    }

    /// The committed transactions, by position. An `Err` is want of memory, or a commit record at 2 ^ 62 or further,
    /// where no node stores one.
    #[tactic(auto, using(crate::proofs::Telling::history_told))]
    pub fn history(&self, alloc: Global) -> Result<List<DoneOf<K>>, NoMemory>
        ensures { (w : seen.World (meaning_of K.Registry)) → KeepsWorld (meaning_of K.Registry) self.now w → IfOk result (λ ds. ds ≡ seen.history (meaning_of K.Registry) w) }
    {
        let log = self.log(alloc)?;
        history_of::<K>(alloc, log.as_slice())
    }

    /// The next event begins. It takes no memory.
    pub fn next_event(self) -> World<K>
        requires { self.event < 2 ^ 64 - 1 }
        ensures { (w : seen.World (meaning_of K.Registry)) → KeepsWorld (meaning_of K.Registry) self w → KeepsWorld (meaning_of K.Registry) result (seen.next_event (meaning_of K.Registry) w) }
    {
        let event = self.parts.event + 1;
        let World { servers, mut parts } = self;
        parts.event = event;
        World { servers, parts }
    }

    /// One step: an event, which on a stopped node does nothing but count.
    ///
    /// No step follows the 200,000th ([`World::limit`]). An `Err` is want of memory. Nothing is left of the world
    /// then.
    #[tactic(auto, using(crate::proofs::Events::lose_keeps))]
    pub fn step(self, alloc: Global, event: EventOf<K>) -> Result<World<K>, NoMemory>
        requires kept { IsWorld (meaning_of K.Registry) self }
        requires room { self.servers.steps < 200000 }
        ensures keeps { (w : seen.World (meaning_of K.Registry)) → KeepsWorld (meaning_of K.Registry) self w → IfOk result (λ r. KeepsWorld (meaning_of K.Registry) r (seen.happens (meaning_of K.Registry) w event)) }
        ensures steps { IfOk result (λ r. r.servers.steps ≡ self.servers.steps + 1) }
    {
        match event {
            Event::Command { client, cmd } => self.command(alloc, client, cmd),
            Event::Deliver { packet } => self.deliver(alloc, packet),
            Event::Lose { packet } => {
                self.rules();
                Ok(self.lose(packet))
            }
            Event::Tick { node } => self.tick(alloc, node),
            Event::Stop { node } => self.stop(node),
        }
    }

    // A client is given a command.
    fn command(
        self,
        alloc: Global,
        client: u16,
        command: CommandOf<K>,
    ) -> Result<World<K>, NoMemory>
        requires kept { IsWorld (meaning_of K.Registry) self }
        requires room { self.servers.steps < 200000 }
        ensures keeps { (w : seen.World (meaning_of K.Registry)) → KeepsWorld (meaning_of K.Registry) self w → IfOk result (λ r. KeepsWorld (meaning_of K.Registry) r (seen.happens (meaning_of K.Registry) w (event.Command client command))) }
        ensures steps { IfOk result (λ r. r.servers.steps ≡ self.servers.steps + 1) }
    {
        if self.servers.runs(client_node(client)) {
            return self.commanded(alloc, client, command);
        }
        Ok(self.idle())
    }

    // Whether a node is a client that runs.
    fn runs_client(&self, node: NodeId) -> bool
        ensures { result ≡ runs_client self.now.servers node }
    {
        match node.role {
            Role::Client => self.servers.runs(node),
            _ => false,
        }
    }

    // A step that does nothing but count.
    #[tactic(auto, using(crate::proofs::Moving::whole_next))]
    fn idle(self) -> World<K>
        requires { self.servers.steps < 200000 }
        ensures { result ≡ record self { servers = counted self.servers } }
    {
        let mut world = self;
        world.servers.count_step();
        world
    }

    // A client that runs is given a command.
    fn commanded(self, alloc: Global, client: u16, cmd: CommandOf<K>) -> Result<World<K>, NoMemory>
        requires kept { IsWorld (meaning_of K.Registry) self }
        requires room { self.servers.steps < 200000 }
        requires within { client < length self.clients }
        ensures keeps { (w : seen.World (meaning_of K.Registry)) → KeepsWorld (meaning_of K.Registry) self w → IfOk result (λ r. KeepsWorld (meaning_of K.Registry) r (seen.counted (meaning_of K.Registry) (seen.commands (meaning_of K.Registry) true w client cmd))) }
        ensures steps { IfOk result (λ r. r.servers.steps ≡ self.servers.steps + 1) }
    {
        let World {
            mut servers,
            mut parts,
        } = self;
        let inner = &mut *parts;
        note_client(
            &mut inner.noted,
            &inner.clients[client as usize],
            client as usize,
        );
        let (outs, notes) = command(alloc, &mut inner.clients, client as usize, cmd)?;
        tell::<K>(
            &mut inner.told,
            &mut inner.told_noted,
            inner.event,
            client,
            inner.noted[client as usize],
            notes,
        )?;
        servers.send(client_node(client), outs)?;
        servers.count_step();
        Ok(World { servers, parts })
    }

    // A packet is delivered.
    fn deliver(self, alloc: Global, number: u64) -> Result<World<K>, NoMemory>
        requires room { self.servers.steps < 200000 }
        requires kept { IsWorld (meaning_of K.Registry) self }
        ensures keeps { (w : seen.World (meaning_of K.Registry)) → KeepsWorld (meaning_of K.Registry) self w → IfOk result (λ r. KeepsWorld (meaning_of K.Registry) r (seen.happens (meaning_of K.Registry) w (event.Deliver number))) }
        ensures steps { IfOk result (λ r. r.servers.steps ≡ self.servers.steps + 1) }
    {
        match self.servers.receiver(number) {
            None => Ok(self.idle()),
            Some(node) => self.deliver_to(alloc, number, node),
        }
    }

    // A packet is delivered to this node.
    fn deliver_to(self, alloc: Global, number: u64, node: NodeId) -> Result<World<K>, NoMemory>
        requires kept { IsWorld (meaning_of K.Registry) self }
        requires room { self.servers.steps < 200000 }
        requires sent { receiver_of (slice_get self.servers.post.packets number) ≡ Some node }
        ensures keeps { (w : seen.World (meaning_of K.Registry)) → KeepsWorld (meaning_of K.Registry) self w → IfOk result (λ r. KeepsWorld (meaning_of K.Registry) r (seen.happens (meaning_of K.Registry) w (event.Deliver number))) }
        ensures steps { IfOk result (λ r. r.servers.steps ≡ self.servers.steps + 1) }
    {
        self.rules();
        if self.runs_client(node) {
            return self.deliver_client(alloc, number, node.num);
        }
        self.deliver_server(alloc, number)
    }

    // A packet is delivered to a server, or to a node that doesn't run.
    #[tactic(auto, using(crate::proofs::Moving::whole_next))]
    fn deliver_server(self, alloc: Global, number: u64) -> Result<World<K>, NoMemory>
        requires { self.servers.steps < 200000 }
        ensures now { (p : Packet) → slice_get self.servers.post.packets number ≡ Some p → IfOk result (λ r. r ≡ record self { servers = counted (taken (runs self.servers p.to) (hands self.servers number) p) }) }
        ensures steps { IfOk result (λ r. r.servers.steps ≡ self.servers.steps + 1) }
    {
        let World { mut servers, parts } = self;
        servers.hand(number)?;
        let servers = servers.take(alloc, number)?;
        Ok(World { servers, parts })
    }

    // A packet is delivered to a client that runs.
    fn deliver_client(self, alloc: Global, number: u64, num: u16) -> Result<World<K>, NoMemory>
        requires kept { IsWorld (meaning_of K.Registry) self }
        requires room { self.servers.steps < 200000 }
        requires within { num < length self.clients }
        requires sent { number < length self.servers.post.packets }
        ensures steps { IfOk result (λ r. r.servers.steps ≡ self.servers.steps + 1) }
        ensures keeps { (w : seen.World (meaning_of K.Registry)) (p : Packet) → KeepsWorld (meaning_of K.Registry) self w → slice_get self.servers.post.packets number ≡ Some p → p.to.num ≡ num → IfOk result (λ r. KeepsWorld (meaning_of K.Registry) r (seen.counted (meaning_of K.Registry) (seen.client_moves (meaning_of K.Registry) (seen.handed (meaning_of K.Registry) w number) num p))) }
    {
        let World {
            mut servers,
            mut parts,
        } = self;
        let inner = &mut *parts;
        let packet = &servers.post().packets()[number as usize];
        let (outs, notes) = deliver(
            alloc,
            &mut inner.clients,
            num as usize,
            packet.from,
            packet.rid,
            &packet.msg,
        )?;
        tell::<K>(
            &mut inner.told,
            &mut inner.told_noted,
            inner.event,
            num,
            inner.noted[num as usize],
            notes,
        )?;
        servers.hand(number)?;
        servers.send(client_node(num), outs)?;
        servers.count_step();
        Ok(World { servers, parts })
    }

    // A packet is lost.
    #[tactic(auto, using(crate::proofs::Moving::whole_next))]
    fn lose(self, number: u64) -> World<K>
        requires { self.servers.steps < 200000 }
        ensures { result ≡ record self { servers = counted (loses self.servers number) } }
    {
        let mut world = self;
        world.servers.lose(number);
        world.servers.count_step();
        world
    }

    // A node's tick.
    fn tick(self, alloc: Global, node: NodeId) -> Result<World<K>, NoMemory>
        requires room { self.servers.steps < 200000 }
        requires kept { IsWorld (meaning_of K.Registry) self }
        ensures keeps { (w : seen.World (meaning_of K.Registry)) → KeepsWorld (meaning_of K.Registry) self w → IfOk result (λ r. KeepsWorld (meaning_of K.Registry) r (seen.happens (meaning_of K.Registry) w (event.Tick node))) }
        ensures steps { IfOk result (λ r. r.servers.steps ≡ self.servers.steps + 1) }
    {
        self.rules();
        if self.runs_client(node) {
            return self.tick_client(alloc, node.num);
        }
        self.tick_server(alloc, node)
    }

    // The tick of a server, or of a node that doesn't run.
    #[tactic(auto, using(crate::proofs::Moving::whole_next))]
    fn tick_server(self, alloc: Global, node: NodeId) -> Result<World<K>, NoMemory>
        requires { self.servers.steps < 200000 }
        ensures now { IfOk result (λ r. r ≡ record self { servers = counted (ticked (runs self.servers node) self.servers node) }) }
        ensures steps { IfOk result (λ r. r.servers.steps ≡ self.servers.steps + 1) }
    {
        let World { servers, parts } = self;
        let servers = servers.tick(alloc, node)?;
        Ok(World { servers, parts })
    }

    // The tick of a client that runs.
    fn tick_client(self, alloc: Global, num: u16) -> Result<World<K>, NoMemory>
        requires kept { IsWorld (meaning_of K.Registry) self }
        requires room { self.servers.steps < 200000 }
        requires within { num < length self.clients }
        ensures keeps { (w : seen.World (meaning_of K.Registry)) → KeepsWorld (meaning_of K.Registry) self w → IfOk result (λ r. KeepsWorld (meaning_of K.Registry) r (seen.counted (meaning_of K.Registry) (seen.ticks (meaning_of K.Registry) w num role.Client))) }
        ensures steps { IfOk result (λ r. r.servers.steps ≡ self.servers.steps + 1) }
    {
        let World {
            mut servers,
            mut parts,
        } = self;
        let inner = &mut *parts;
        let (outs, notes) = tick(alloc, &mut inner.clients, num as usize)?;
        tell::<K>(
            &mut inner.told,
            &mut inner.told_noted,
            inner.event,
            num,
            inner.noted[num as usize],
            notes,
        )?;
        servers.send(client_node(num), outs)?;
        servers.count_step();
        Ok(World { servers, parts })
    }

    // A node stops.
    fn stop(self, node: NodeId) -> Result<World<K>, NoMemory>
        requires { self.servers.steps < 200000 }
        ensures keeps { (w : seen.World (meaning_of K.Registry)) → KeepsWorld (meaning_of K.Registry) self w → IfOk result (λ r. KeepsWorld (meaning_of K.Registry) r (seen.happens (meaning_of K.Registry) w (event.Stop node))) }
        ensures steps { IfOk result (λ r. r.servers.steps ≡ self.servers.steps + 1) }
    {
        if self.servers.runs(node) {
            return self.stopped(node);
        }
        Ok(self.idle())
    }

    #[tactic(auto, using(crate::proofs::Moving::whole_next))]
    fn stopped(self, node: NodeId) -> Result<World<K>, NoMemory>
        requires { self.servers.steps < 200000 }
        ensures now { IfOk result (λ r. r ≡ record self { servers = counted (stops self.servers node) }) }
        ensures steps { IfOk result (λ r. r.servers.steps ≡ self.servers.steps + 1) }
    {
        let World { mut servers, parts } = self;
        servers.stop(node)?;
        servers.count_step();
        Ok(World { servers, parts })
    }
}

fn client_node(num: u16) -> NodeId
    ensures { result ≡ client_id num }
{
    NodeId {
        role: Role::Client,
        num,
    }
}

// Nothing is noted yet of so many clients.
fn new_noted(alloc: Global, count: u16) -> Result<Vec<CommandStart>, NoMemory>
    ensures { IfOk result (λ ns. ns.items ≡ replicate count (record { next = 1; epoch = 1; upto = 0 })) }
{
    let mut noted = Vec::new(alloc);
    for _num in 0..count {
        noted.push(CommandStart {
            next: 1,
            epoch: 1,
            upto: 0,
        })?;
    }
    Ok(noted)
}

// What is noted of a client when it is given a command while none waits.
#[tactic(auto, using(crate::proofs::Moving::length_set))]
fn note_client<K: Registry>(noted: &mut Vec<CommandStart>, client: &Client<K>, num: usize)
    requires { num < length noted.old.items }
    ensures many { length noted.new.items ≡ length noted.old.items }
    ensures now { (c : rules.Client (meaning_of K.Registry)) → KeepsClient (meaning_of K.Registry) client.now c → noted.new.items ≡ noted_after (meaning_of K.Registry) noted.old.items num c (is_some c.work) }
{
    if client.is_busy() {
        return;
    }
    noted[num] = CommandStart {
        next: client.next(),
        epoch: client.epoch(),
        upto: client.upto(),
    };
}
