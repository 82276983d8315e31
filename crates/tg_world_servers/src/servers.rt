//! All servers of a world.

ghost use Rattle.std.specs.Prelude.{◌≡◌, ◌<◌, ◌+◌, ◌++◌, nat_lt, Some, length, map, slice_get, slice_index_or, IfOk, OnOk, OnErr};
ghost use Rattle.tg_base.specs.declared.packet.Packet.{Packet};
ghost use Rattle.tg_protocol.specs.Logs.{newest};
ghost use Rattle.tg_protocol.specs.Units.{UnitState, unit_step};
ghost use Rattle.tg_base.specs.Orders.{node_eq};
ghost use Rattle.tg_protocol.specs.Words.{numbers, seqr_id};
ghost use Rattle.tg_world_servers.specs.Servers.{servers_start, count_of, has_stopped, runs, nodes, node_of, log, counted, taken, takes, ticked, receiver_of, archive_by, unit_takes, layout_takes, seqr_takes, seqr_ticks, stops, sends, hands, loses, servers_limit};

use crate::Post;
use crate::rows::{layout_takes, seqr_takes, seqr_ticks, unit_takes};
use crate::starts::{new_layouts, new_seqrs, new_units};
use std::alloc::Global;
use std::collections::BTreeMap;
use std::marker::Model;
use tg_base::{
    Cell, Cluster, List, Msg, NoMemory, NodeId, Out, Packet, Pos, Projection, Role, Which,
};
use tg_chain::header_layout;
use tg_layout::Layout;
use tg_seqr::Seqr;
use tg_unit::Unit;
use tg_world_log::{archive_trim, log_of, newest};

/// How many steps a run may take.
const MOST_STEPS: u32 = 200_000;

/// How many bytes its packets may take.
const MOST_BYTES: u64 = 268_435_456;

/// All servers of a world, on the heap.
#[derive(Drop)]
struct Parts {
    cluster: Cluster,
    first: Projection,
    units: Vec<Unit>,
    layouts: Vec<Layout>,
    seqrs: Vec<Seqr>,
    stopped: List<NodeId>,
    post: Post,
    archive: BTreeMap<Pos, Cell>,
    steps: u32,
}

/// All servers of a world, with all packets, the archive, and which nodes have stopped.
///
/// A method that moves a server gives the servers up where memory runs out.
pub struct Servers {
    parts: Box<Parts>,
}

// By hand, since a derived drop is proved anew wherever a value is dropped.
impl Drop for Servers {
    fn drop(self) {
        let Servers { parts: _ } = self;
    }
}

impl Model for Servers {
    ghost use Rattle.std.specs.Prelude.{length};
    ghost use Rattle.tg_world_servers.specs.Rows.{states_of, AreCounted};
    ghost use Rattle.tg_world_servers.specs.Servers.{ServersState};
    ghost use Rattle.tg_world_servers.specs.Kept.{IsWhole};

    ghost Value = { ServersState };

    ghost view = { λ s. record { cluster = s.parts.value.cluster; units = s.parts.value.units.items; layouts = s.parts.value.layouts.items; seqrs = states_of s.parts.value.seqrs.items; stopped = s.parts.value.stopped; post = s.parts.value.post; archive = s.parts.value.archive.entries; steps = s.parts.value.steps } };

    ghost invariant = { λ s. IsWhole s.parts.value.cluster s.parts.value.first (length s.parts.value.units.items) (length s.parts.value.layouts.items) s.parts.value.seqrs.items s.parts.value.steps };
}

impl Servers {
    /// The servers that a header declares, before their first step. An `Err` is want of memory.
    #[tactic(auto, unfolding(crate::specs::Servers::servers_start))]
    pub fn start(alloc: Global, cluster: &Cluster) -> Result<Servers, NoMemory>
        ensures { IfOk result (λ s. s ≡ servers_start cluster.now) }
    {
        let first = header_layout(alloc, cluster)?;
        let units = new_units(alloc, cluster.units)?;
        let layouts = new_layouts(alloc, cluster.layouts, &first)?;
        let seqrs = new_seqrs(alloc, cluster.seqs, cluster.limit, &first)?;
        let cluster = cluster.copy()?;
        let all = Parts {
            cluster,
            first,
            units,
            layouts,
            seqrs,
            stopped: List::new(alloc),
            post: Post::new(alloc),
            archive: BTreeMap::new(alloc),
            steps: 0,
        };
        let parts = Box::new(alloc, all)?;
        Ok(Servers { parts })
    }

    /// How many steps were taken. It takes no memory.
    pub fn steps(&self) -> u32
        ensures { result ≡ self.now.steps }
    {
        self.parts.steps
    }

    /// The packets.
    pub fn post(&self) -> &Post
        ensures { result.now ≡ self.now.post }
    {
        &self.parts.post
    }

    /// Whether the header declares a node, and it hasn't stopped. It takes no memory.
    pub fn runs(&self, node: NodeId) -> bool
        ensures { result ≡ runs self.now node }
    {
        (node.num as usize) < self.count(node.role) && !self.has_stopped(node)
    }

    /// How many nodes of a role there are. It takes no memory.
    pub fn count(&self, role: Role) -> usize
        ensures { result ≡ count_of self.now role }
    {
        self.declared(role) as usize
    }

    // The same, as the header declares it.
    fn declared(&self, role: Role) -> u16
        ensures { result ≡ count_of self.now role }
    {
        let cluster = &self.parts.cluster;
        match role {
            Role::Unit => cluster.units,
            Role::Layout => cluster.layouts,
            Role::Seqr => cluster.seqs,
            Role::Client => cluster.clients,
        }
    }

    // How many layout servers the header declares.
    fn layouts(&self) -> u16
        ensures { result ≡ self.now.cluster.layouts }
    {
        self.parts.cluster.layouts
    }

    fn has_stopped(&self, node: NodeId) -> bool
        ensures { result ≡ has_stopped self.now node }
    {
        self.parts
            .stopped
            .as_slice()
            .iter()
            .any(|other| is_node(node, *other))
    }

    /// The limit that was reached, if one was: the steps before the bytes. It takes no memory.
    #[tactic(auto, unfolding(crate::specs::Servers::servers_limit))]
    pub fn limit(&self) -> Option<Which>
        ensures { result ≡ servers_limit self.now }
    {
        if self.parts.steps >= MOST_STEPS {
            return Some(Which::Steps);
        }
        if self.parts.post.bytes() >= MOST_BYTES {
            return Some(Which::Bytes);
        }
        None
    }

    /// All nodes: units, layout servers, sequencers and clients. An `Err` is want of memory.
    pub fn nodes(&self, alloc: Global) -> Result<Vec<NodeId>, NoMemory>
        ensures { IfOk result (λ ns. ns.items ≡ nodes self.now) }
    {
        let mut nodes = Vec::new(alloc);
        put_nodes(&mut nodes, Role::Unit, self.declared(Role::Unit))?;
        put_nodes(&mut nodes, Role::Layout, self.declared(Role::Layout))?;
        put_nodes(&mut nodes, Role::Seqr, self.declared(Role::Seqr))?;
        put_nodes(&mut nodes, Role::Client, self.declared(Role::Client))?;
        Ok(nodes)
    }

    /// The log. An `Err` is want of memory.
    pub fn log(&self, alloc: Global) -> Result<List<(Pos, Cell)>, NoMemory>
        ensures { IfOk result (λ l. l ≡ log self.now) }
    {
        let layout = newest(
            &self.parts.first,
            self.parts.post.packets(),
            self.parts.cluster.layouts,
        );
        log_of(
            alloc,
            layout,
            self.parts.units.as_slice(),
            &self.parts.archive,
        )
    }

    /// The node that a packet goes to: None exactly where the packet isn't sent yet. It takes no memory.
    pub fn receiver(&self, number: u64) -> Option<NodeId>
        ensures { result ≡ receiver_of (slice_get self.now.post.packets number) }
    {
        match self.parts.post.packet(number) {
            None => None,
            Some(packet) => Some(packet.to),
        }
    }

    /// A packet is delivered, for the first time or again. An `Err` is want of memory, and changes nothing.
    pub fn hand(&mut self, number: u64) -> Result<(), NoMemory>
        ensures ok { OnOk result (self.new ≡ hands self.old number) }
        ensures kept { OnErr result (self.new ≡ self.old) }
    {
        self.parts.post.hand(number)
    }

    /// A packet is lost. It takes no memory.
    pub fn lose(&mut self, number: u64)
        ensures { self.new ≡ loses self.old number }
    {
        self.parts.post.lose(number);
    }

    /// What a node sends, in order. An `Err` is want of memory; some of the packets may be among those sent then.
    pub fn send(&mut self, from: NodeId, outs: List<Out>) -> Result<(), NoMemory>
        ensures { OnOk result (self.new ≡ sends self.old from outs) }
    {
        self.parts.post.send_all(from, outs)
    }

    /// A node stops for good. An `Err` is want of memory, and changes nothing.
    pub fn stop(&mut self, node: NodeId) -> Result<(), NoMemory>
        ensures ok { OnOk result (self.new ≡ stops self.old node) }
        ensures kept { OnErr result (self.new ≡ self.old) }
    {
        self.parts.stopped.insert(0, node)
    }

    /// One step more is counted. It takes no memory.
    pub fn count_step(&mut self)
        requires { self.old.steps < 200000 }
        ensures { self.new ≡ counted self.old }
    {
        self.parts.steps += 1;
    }

    /// The server that a packet names takes it, if it runs, and the step is counted. A client takes nothing here.
    ///
    /// An `Err` is want of memory.
    pub fn take(self, alloc: Global, number: u64) -> Result<Servers, NoMemory>
        requires { self.steps < 200000 }
        ensures now { (p : Packet) → slice_get self.post.packets number ≡ Some p → IfOk result (λ s. s ≡ counted (taken (runs self p.to) self p)) }
        ensures cluster { IfOk result (λ s. s.cluster ≡ self.cluster) }
        ensures steps { IfOk result (λ s. s.steps ≡ self.steps + 1) }
    {
        match self.receiver(number) {
            None => Ok(self.counted()),
            Some(node) => {
                if self.runs(node) {
                    return self.take_at(alloc, number, node);
                }
                Ok(self.counted())
            }
        }
    }

    /// A node's tick, if it is a sequencer that runs, and the step is counted; other servers do nothing.
    ///
    /// An `Err` is want of memory.
    pub fn tick(self, alloc: Global, node: NodeId) -> Result<Servers, NoMemory>
        requires { self.steps < 200000 }
        ensures now { IfOk result (λ s. s ≡ counted (ticked (runs self node) self node)) }
        ensures cluster { IfOk result (λ s. s.cluster ≡ self.cluster) }
        ensures steps { IfOk result (λ s. s.steps ≡ self.steps + 1) }
    {
        if self.runs(node) && node.role == Role::Seqr {
            return self.tick_seqr(alloc, node.num);
        }
        Ok(self.counted())
    }

    fn counted(self) -> Servers
        requires { self.steps < 200000 }
        ensures { result ≡ counted self }
    {
        let mut servers = self;
        servers.count_step();
        servers
    }

    // A server that runs takes a packet.
    fn take_at(self, alloc: Global, number: u64, node: NodeId) -> Result<Servers, NoMemory>
        requires room { self.steps < 200000 }
        requires runs { node.num < count_of self node.role }
        requires sent { receiver_of (slice_get self.post.packets number) ≡ Some node }
        ensures now { (p : Packet) → slice_get self.post.packets number ≡ Some p → IfOk result (λ s. s ≡ counted (takes self p node.role)) }
        ensures cluster { IfOk result (λ s. s.cluster ≡ self.cluster) }
        ensures steps { IfOk result (λ s. s.steps ≡ self.steps + 1) }
    {
        match node.role {
            Role::Unit => self.take_unit(alloc, number, node.num),
            Role::Layout => self.take_layout(number, node.num),
            Role::Seqr => self.take_seqr(alloc, number, node.num),
            Role::Client => Ok(self.counted()),
        }
    }

    // A unit takes a packet. Where it trims, the log's cells below come into the archive first.
    #[tactic(auto, unfolding(crate::specs::Servers::unit_takes))]
    fn take_unit(self, alloc: Global, number: u64, num: u16) -> Result<Servers, NoMemory>
        requires room { self.steps < 200000 }
        requires within { num < length self.units }
        requires sent { number < length self.post.packets }
        ensures now { (p : Packet) → slice_get self.post.packets number ≡ Some p → p.to.num ≡ num → IfOk result (λ s. s ≡ counted (unit_takes self p)) }
        ensures cluster { IfOk result (λ s. s.cluster ≡ self.cluster) }
        ensures steps { IfOk result (λ s. s.steps ≡ self.steps + 1) }
    {
        let layouts = self.layouts();
        let Servers { mut parts } = self;
        let inner = &mut *parts;
        let packet = &inner.post.packets()[number as usize];
        let (from, to, rid) = (packet.from, packet.to, packet.rid);
        archive_after(
            alloc,
            &mut inner.archive,
            &inner.first,
            inner.post.packets(),
            layouts,
            inner.units.as_slice(),
            num as usize,
            &packet.msg,
        )?;
        let says = unit_takes(alloc, &mut inner.units, num as usize, &packet.msg)?;
        inner.post.answer(to, from, rid, says)?;
        inner.steps += 1;
        Ok(Servers { parts })
    }

    // A layout server takes a packet.
    #[tactic(auto, unfolding(crate::specs::Servers::layout_takes))]
    fn take_layout(self, number: u64, num: u16) -> Result<Servers, NoMemory>
        requires room { self.steps < 200000 }
        requires within { num < length self.layouts }
        requires sent { number < length self.post.packets }
        ensures now { (p : Packet) → slice_get self.post.packets number ≡ Some p → p.to.num ≡ num → IfOk result (λ s. s ≡ counted (layout_takes self p)) }
        ensures cluster { IfOk result (λ s. s.cluster ≡ self.cluster) }
        ensures steps { IfOk result (λ s. s.steps ≡ self.steps + 1) }
    {
        let Servers { mut parts } = self;
        let inner = &mut *parts;
        let packet = &inner.post.packets()[number as usize];
        let (from, to, rid) = (packet.from, packet.to, packet.rid);
        let says = layout_takes(&mut inner.layouts, num as usize, &packet.msg)?;
        inner.post.answer(to, from, rid, says)?;
        inner.steps += 1;
        Ok(Servers { parts })
    }

    // A sequencer takes a packet.
    #[tactic(auto, unfolding(crate::specs::Servers::seqr_takes))]
    fn take_seqr(self, alloc: Global, number: u64, num: u16) -> Result<Servers, NoMemory>
        requires room { self.steps < 200000 }
        requires within { num < length self.seqrs }
        requires sent { number < length self.post.packets }
        ensures now { (p : Packet) → slice_get self.post.packets number ≡ Some p → p.to.num ≡ num → IfOk result (λ s. s ≡ counted (seqr_takes self p)) }
        ensures cluster { IfOk result (λ s. s.cluster ≡ self.cluster) }
        ensures steps { IfOk result (λ s. s.steps ≡ self.steps + 1) }
    {
        let Servers { mut parts } = self;
        let inner = &mut *parts;
        let packet = &inner.post.packets()[number as usize];
        let outs = seqr_takes(
            alloc,
            &mut inner.seqrs,
            num as usize,
            packet.from,
            packet.rid,
            &packet.msg,
        )?;
        inner.post.send_all(seqr(num), outs)?;
        inner.steps += 1;
        Ok(Servers { parts })
    }

    // A sequencer's tick.
    #[tactic(auto, unfolding(crate::specs::Servers::seqr_ticks))]
    fn tick_seqr(self, alloc: Global, num: u16) -> Result<Servers, NoMemory>
        requires room { self.steps < 200000 }
        requires within { num < length self.seqrs }
        ensures now { IfOk result (λ s. s ≡ counted (seqr_ticks self num)) }
        ensures cluster { IfOk result (λ s. s.cluster ≡ self.cluster) }
        ensures steps { IfOk result (λ s. s.steps ≡ self.steps + 1) }
    {
        let Servers { mut parts } = self;
        let inner = &mut *parts;
        let outs = seqr_ticks(alloc, &mut inner.seqrs, num as usize)?;
        inner.post.send_all(seqr(num), outs)?;
        inner.steps += 1;
        Ok(Servers { parts })
    }
}

// The nodes of a role, of which there are so many.
fn put_nodes(nodes: &mut Vec<NodeId>, role: Role, count: u16) -> Result<(), NoMemory>
    ensures { OnOk result (nodes.new.items ≡ nodes.old.items ++ map (node_of role) (numbers count 0)) }
{
    for num in 0..count {
        nodes.push(NodeId { role, num })?;
    }
    Ok(())
}

fn is_node(node: NodeId, other: NodeId) -> bool
    ensures { result ≡ node_eq node other }
{
    node.is_same(other)
}

fn seqr(num: u16) -> NodeId
    ensures { result ≡ seqr_id num }
{
    NodeId {
        role: Role::Seqr,
        num,
    }
}

// Where a unit's `low` rises by a message, the cells of the log below it come into the archive, before the unit drops
// its own.
fn archive_after(
    alloc: Global,
    archive: &mut BTreeMap<Pos, Cell>,
    first: &Projection,
    packets: &[Packet],
    layouts: u16,
    units: &[Unit],
    num: usize,
    msg: &Msg,
) -> Result<(), NoMemory>
    requires { num < length units.now }
    ensures { (d : UnitState) → OnOk result (archive.new.entries ≡ archive_by (newest first.now packets.now layouts) units.now archive.old.entries (slice_index_or units.now num d) (unit_step (slice_index_or units.now num d) msg.now).now.low (nat_lt (slice_index_or units.now num d).low (unit_step (slice_index_or units.now num d) msg.now).now.low)) }
{
    let low = units[num].low_after(msg);
    if units[num].low() < low {
        // It is found among all packets, so only where something is dropped.
        let layout = newest(first, packets, layouts);
        return archive_trim(alloc, archive, layout, units, num, low);
    }
    Ok(())
}
