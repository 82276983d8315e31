//! What no contract says of sockets: that datagrams come, from whom, and to whom.

use std::net::{IpAddr, Ipv4Addr, Net, SocketAddr};
use std::test::Fail;
use tg_base::{NodeId, Role};
use tg_io::{Datagram, IoErr, Link};
use tg_link_udp::*;

fn unit(num: u16) -> NodeId {
    NodeId {
        role: Role::Unit,
        num,
    }
}

fn client(num: u16) -> NodeId {
    NodeId {
        role: Role::Client,
        num,
    }
}

// The address of a port on this machine.
fn here(port: u16) -> SocketAddr {
    SocketAddr::new(IpAddr::V4(Ipv4Addr::LOCALHOST), port)
}

/// How the next receive ends, and how many bytes come.
fn handed<L: Link>(link: &mut L) -> Result<Option<(NodeId, usize)>, IoErr> {
    let mut buf = [0; Datagram::MAX];
    link.recv(&mut buf)
}

/// Whether these bytes come next, to this node.
fn hands<L: Link>(link: &mut L, to: NodeId, datagram: &[u8]) -> bool {
    let mut buf = [0; Datagram::MAX];
    match link.recv(&mut buf) {
        Ok(Some((node, len))) => node == to && buf.get(..len) == Some(datagram),
        _ => false,
    }
}

#[test]
fn a_datagram_comes(rt: HostRuntime) -> Result<(), Fail> {
    let mut one = UdpLink::of_node(rt.alloc(), &rt, unit(27));
    let mut other = UdpLink::of_node(rt.alloc(), &rt, client(27));
    assert!(rt; handed(&mut other) == Ok(None));
    assert!(rt; one.send(unit(27), client(27), b"datagram") == Ok(()));
    assert!(rt; hands(&mut other, client(27), b"datagram"));
    assert!(rt; handed(&mut other) == Ok(None));
    // and a link sends from its own nodes alone
    assert!(rt; one.send(client(27), unit(27), b"datagram").is_err());
    Ok(())
}

#[test]
fn a_port_is_bound_once(rt: HostRuntime) -> Result<(), Fail> {
    // a second node of one name has no port
    let mut one = UdpLink::of_node(rt.alloc(), &rt, unit(31));
    let mut again = UdpLink::of_node(rt.alloc(), &rt, unit(31));
    assert!(rt; handed(&mut one) == Ok(None));
    assert!(rt; handed(&mut again).is_err());
    // and a port that a stranger has isn't bound
    let _stranger = rt.bind_udp(here(42_028))?;
    let mut late = UdpLink::of_node(rt.alloc(), &rt, unit(28));
    assert!(rt; handed(&mut late).is_err());
    Ok(())
}

#[test]
fn strangers_are_passed_by(rt: HostRuntime) -> Result<(), Fail> {
    // units have the ports from 42000 on, and clients those from 42192 on
    let mut at_unit = UdpLink::of_node(rt.alloc(), &rt, unit(29));
    let mut at_client = UdpLink::of_node(rt.alloc(), &rt, client(29));
    assert!(rt; handed(&mut at_unit) == Ok(None));
    assert!(rt; handed(&mut at_client) == Ok(None));
    let stranger = rt.bind_udp(here(0))?;
    assert!(rt; stranger.send_to(b"forged", here(42_029))? == 6);
    assert!(rt; handed(&mut at_unit) == Ok(None));
    // one after a stranger's comes all the same, and to the node of its role alone
    assert!(rt; stranger.send_to(b"forged", here(42_221))? == 6);
    assert!(rt; at_unit.send(unit(29), client(29), b"ours") == Ok(()));
    assert!(rt; hands(&mut at_client, client(29), b"ours"));
    assert!(rt; handed(&mut at_client) == Ok(None));
    assert!(rt; handed(&mut at_unit) == Ok(None));
    Ok(())
}

#[test]
fn a_link_of_all_nodes_hands_what_it_sent(rt: HostRuntime) -> Result<(), Fail> {
    let mut link = UdpLink::of_all(rt.alloc(), &rt);
    assert!(rt; handed(&mut link) == Ok(None));
    assert!(rt; link.send(unit(30), client(30), b"datagram") == Ok(()));
    assert!(rt; link.send(client(30), unit(30), b"answer") == Ok(()));
    // the ports take turns, in the order in which they were bound
    assert!(rt; hands(&mut link, unit(30), b"answer"));
    assert!(rt; hands(&mut link, client(30), b"datagram"));
    assert!(rt; handed(&mut link) == Ok(None));
    Ok(())
}
