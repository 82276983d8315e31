//! The ports of nodes: 42,000, and 64 for each role, and the node's number.

ghost use Rattle.std.specs.Prelude.{◌≡◌, ◌+◌, ◌*◌};
ghost use Rattle.tg_base.specs.Orders.{role_number};
ghost use Rattle.tg_link_udp.specs.Ports.{most, port_in, is_port_of, is_port};

use tg_base::{NodeId, Role};

/// How many nodes of a role a cluster may have.
pub fn most(role: Role) -> u16
    ensures { result ≡ most role }
{
    match role {
        Role::Unit => 64,
        Role::Layout => 7,
        Role::Seqr => 16,
        Role::Client => 32,
    }
}

// The port of a role's first node.
fn first_port(role: Role) -> u16
    ensures { result ≡ 42000 + 64 * role_number role }
{
    match role {
        Role::Unit => 42_000,
        Role::Layout => 42_064,
        Role::Seqr => 42_128,
        Role::Client => 42_192,
    }
}

/// The port of a node; None where no cluster has such a node.
pub fn port(node: NodeId) -> Option<u16>
    ensures { result ≡ port_in node }
{
    if node.num < most(node.role) {
        Some(first_port(node.role) + node.num)
    } else {
        None
    }
}

// Whether a node of a role may have this port.
fn is_port_of(role: Role, port: u16) -> bool
    ensures { result ≡ is_port_of role port }
{
    let first = first_port(role);
    first <= port && port < first + most(role)
}

/// Whether a node may have this port.
pub fn is_port(port: u16) -> bool
    ensures { result ≡ is_port port }
{
    is_port_of(Role::Unit, port)
        || is_port_of(Role::Layout, port)
        || is_port_of(Role::Seqr, port)
        || is_port_of(Role::Client, port)
}
