//! A link over UDP sockets. Nothing is told of what is sent and handed.

ghost use Rattle.std.specs.Prelude.{◌≡◌, ◌≤◌, ◌↔◌, None, false, length, map, IsTrue, IfOk, IfSome, OnOk, option_copied};
ghost use Rattle.tg_io.specs.Faults.{HasCause, Rose};
ghost use Rattle.tg_link_udp.specs.Addresses.{IsHere, IsOfNode};
ghost use Rattle.tg_link_udp.specs.Sockets.{IsPortAt, socket_of, sent_to, come_to};

use crate::ports::{is_port, port};
use std::alloc::Global;
use std::io;
use std::io::ErrorKind;
use std::net::{IpAddr, Ipv4Addr, Net, SocketAddr, UdpSocket};
use tg_base::{NoMemory, NodeId};
use tg_io::{IoErr, Link};

/// A node's socket, and how many datagrams this link sent to the node that haven't come.
#[derive(Drop)]
struct Port {
    node: NodeId,
    socket: UdpSocket,
    due: u64,
}

/// Carries datagrams over UDP sockets on 127.0.0.1. The socket of one of its nodes is bound when the node first sends or
/// is sent to; a port that can't be bound is an error of that call, and the next call tries again. Where nothing is at
/// hand it doesn't wait. Datagrams that come from no node's port are passed by.
///
/// A link of all nodes looks only at sockets to which a datagram of its own is on its way, since no others send to them:
/// so a datagram takes two calls of the system, however many nodes there are.
#[derive(Drop)]
pub struct UdpLink<'a, N> {
    alloc: Global,
    net: &'a N,
    // the one node, or None for all that a cluster may have
    node: Option<NodeId>,
    // those that are bound
    ports: Vec<Port>,
    // the place of the port that is looked at first
    next: usize,
    faults: u64,
}

impl<'a, N: Net> UdpLink<'a, N> {
    /// The link of one node. No port is bound yet.
    pub fn of_node(alloc: Global, net: &'a N, node: NodeId) -> UdpLink<'a, N> {
        UdpLink {
            alloc,
            net,
            node: Some(node),
            ports: Vec::new(alloc),
            next: 0,
            faults: 0,
        }
    }

    /// The link of all nodes that a cluster may have. No port is bound yet.
    pub fn of_all(alloc: Global, net: &'a N) -> UdpLink<'a, N> {
        UdpLink {
            alloc,
            net,
            node: None,
            ports: Vec::new(alloc),
            next: 0,
            faults: 0,
        }
    }
}

// The count after one fault more.
fn raised(faults: u64) -> u64
    ensures later { faults ≤ result }
    ensures rose { Rose faults result }
{
    faults.saturating_add(1)
}

// An address on this machine.
fn address(port: u16) -> SocketAddr
    ensures { IsHere result port }
{
    SocketAddr::new(IpAddr::V4(Ipv4Addr::new(127, 0, 0, 1)), port)
}

// A socket that doesn't wait, bound to a node's port. None where it can't be bound.
fn bound<N: Net>(net: &N, node: NodeId) -> Option<UdpSocket> {
    let port = port(node)?;
    let socket = net.bind_udp(address(port)).ok()?;
    socket.set_nonblocking(true).ok()?;
    Some(socket)
}

// Binds a node's port, unless it is bound.
fn bind<N: Net>(net: &N, node: NodeId, ports: &mut Vec<Port>) -> Result<(), IoErr> {
    if socket_of(ports.as_slice(), node).is_some() {
        return Ok(());
    }
    let Some(socket) = bound(net, node) else {
        return Err(IoErr::Failed);
    };
    let port = Port {
        node,
        socket,
        due: 0,
    };
    match ports.push(port) {
        Ok(()) => Ok(()),
        Err(e) => Err(NoMemory::from(e).into()),
    }
}

// One datagram more is on its way to the node, if the port is its.
fn expect(port: &mut Port, node: NodeId)
    ensures { port.new ≡ sent_to node port.old }
{
    if port.node.is_same(node) {
        port.due = port.due.saturating_add(1);
    }
}

// One datagram less is on its way to the node, if the port is its.
fn settle(port: &mut Port, node: NodeId)
    ensures { port.new ≡ come_to node port.old }
{
    if port.node.is_same(node) {
        port.due = port.due.saturating_sub(1);
    }
}

// One datagram more is on its way to the node.
fn expect_at(ports: &mut [Port], node: NodeId)
    ensures { ports.new ≡ map (sent_to node) ports.old }
{
    for port in ports.iter_mut() {
        expect(port, node);
    }
}

// One datagram less is on its way to the node.
fn settle_at(ports: &mut [Port], node: NodeId)
    ensures { ports.new ≡ map (come_to node) ports.old }
{
    for port in ports.iter_mut() {
        settle(port, node);
    }
}

// The socket of a node, if it is bound.
fn socket_of(ports: &[Port], node: NodeId) -> Option<&UdpSocket>
    ensures { option_copied result ≡ socket_of ports.now node }
{
    match ports {
        [] => None,
        [port, others @ ..] => {
            if port.node.is_same(node) {
                return Some(&port.socket);
            }
            socket_of(others, node)
        }
    }
}

// Sends a datagram. One for which the system has no room is lost, as others are on their way.
fn sent(ports: &[Port], from: NodeId, to: NodeId, datagram: &[u8]) -> Option<()> {
    let socket = socket_of(ports, from)?;
    let port = port(to)?;
    for _ in 0..u64::MAX {
        match socket.send_to(datagram, address(port)) {
            Ok(count) if count == datagram.len() => return Some(()),
            Ok(_) => return None,
            Err(e) if e.kind() == ErrorKind::WouldBlock => return Some(()),
            Err(e) if e.kind() == ErrorKind::Interrupted => {}
            Err(_) => return None,
        }
    }
    None
}

// Whether an address is a node's; a stranger's is not.
fn is_node(address: SocketAddr) -> bool
    ensures { IsTrue result ↔ IsOfNode address }
{
    match address.ip() {
        IpAddr::V4(ip) => ip.octets() == [127, 0, 0, 1] && is_port(address.port()),
        IpAddr::V6(_) => false,
    }
}

// What a socket has at hand: how many bytes it put into the buffer.
fn come(socket: &UdpSocket, buf: &mut [u8]) -> io::Result<Option<usize>>
    ensures { IfOk result (λ r. IfSome r (λ n. n ≤ length buf.new)) }
{
    for _ in 0..u64::MAX {
        match socket.recv_from(buf) {
            Ok((count, from)) if is_node(from) => return Ok(Some(count)),
            Ok(_) => {}
            Err(e) if e.kind() == ErrorKind::WouldBlock => return Ok(None),
            Err(e) if e.kind() == ErrorKind::Interrupted => {}
            Err(e) => return Err(e),
        }
    }
    Ok(None)
}

// What the ports from a place to another have at hand: the place after that of the port, its node, and how many bytes it put into the buffer.
// Those to which nothing is on its way are looked at only if others send to them.
fn come_from(
    ports: &[Port],
    others: bool,
    first: usize,
    end: usize,
    buf: &mut [u8],
) -> io::Result<Option<(usize, NodeId, usize)>>
    requires { end ≤ length ports.now }
    ensures count { IfOk result (λ r. IfSome r (λ came. came.2 ≤ length buf.new)) }
    ensures node { IfOk result (λ r. IfSome r (λ came. IsPortAt ports.now came.0 came.1)) }
{
    for place in first..end {
        let port = &ports[place];
        if others || port.due > 0 {
            if let Some(count) = come(&port.socket, buf)? {
                return Ok(Some((place + 1, port.node, count)));
            }
        }
    }
    Ok(None)
}

// The same of all ports, from a place on and then from the first on.
fn come_in_turn(
    ports: &[Port],
    others: bool,
    first: usize,
    buf: &mut [u8],
) -> io::Result<Option<(usize, NodeId, usize)>>
    ensures count { IfOk result (λ r. IfSome r (λ came. came.2 ≤ length buf.new)) }
    ensures node { IfOk result (λ r. IfSome r (λ came. IsPortAt ports.now came.0 came.1)) }
{
    let first = first.min(ports.len());
    match come_from(ports, others, first, ports.len(), buf)? {
        Some(came) => Ok(Some(came)),
        None => come_from(ports, others, 0, first, buf),
    }
}

impl<'a, N: Net> UdpLink<'a, N> {
    // Binds the port of a node, if it is one of the link's and wasn't bound.
    fn open(&mut self, node: NodeId) -> Result<(), IoErr>
        ensures cause { HasCause self.old.faults self.new.faults result }
        ensures still { OnOk result (self.new.faults ≡ self.old.faults) }
    {
        if let Some(own) = self.node {
            if !own.is_same(node) {
                return Ok(());
            }
        }
        match bind(self.net, node, &mut self.ports) {
            Ok(()) => Ok(()),
            Err(IoErr::NoMemory) => Err(IoErr::NoMemory),
            Err(IoErr::Failed) => {
                self.faults = raised(self.faults);
                Err(IoErr::Failed)
            }
        }
    }
}

impl<'a, N: Net> Link for UdpLink<'a, N> {
    ghost use Rattle.std.proofs.Common.{rules, arith};

    ghost faults = { λ s. s.faults };

    ghost sent = { λ _. None };

    ghost handed = { λ _. None };

    ghost sure = { λ _. false };

    /// Fails where a port can't be bound, where `from` is none of the link's nodes or `to` is none of a cluster's, and
    /// at an error of the system.
    fn send(&mut self, from: NodeId, to: NodeId, datagram: &[u8]) -> Result<(), IoErr> {
        self.open(from)?;
        self.open(to)?;
        match sent(self.ports.as_slice(), from, to, datagram) {
            Some(()) => {
                expect_at(self.ports.as_mut_slice(), to);
                Ok(())
            }
            None => {
                self.faults = raised(self.faults);
                Err(IoErr::Failed)
            }
        }
    }

    /// Fails where a port can't be bound, and at an error of the system. The ports take turns.
    fn recv(&mut self, buf: &mut [u8]) -> Result<Option<(NodeId, usize)>, IoErr> {
        if let Some(node) = self.node {
            self.open(node)?;
        }
        let others = self.node.is_some();
        match come_in_turn(self.ports.as_slice(), others, self.next, buf) {
            Ok(None) => Ok(None),
            Ok(Some((next, node, count))) => {
                self.next = next;
                settle_at(self.ports.as_mut_slice(), node);
                Ok(Some((node, count)))
            }
            Err(_) => {
                self.faults = raised(self.faults);
                Err(IoErr::Failed)
            }
        }
    }

    ghost one_list = { λ s. Prim.search (rules, arith) };
}
