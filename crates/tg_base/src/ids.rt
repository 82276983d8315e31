//! Names and numbers of nodes, objects and ballots.

ghost use Rattle.std.specs.Prelude.{◌≡◌, ◌↔◌, IsTrue};
ghost use Rattle.tg_base.specs.Orders.{oid_cmp, node_eq, node_cmp, ballot_eq, ballot_cmp};

use std::cmp::Ordering;

/// A position of the log, from 0.
pub type Pos = u64;

/// The number of a layout, from 1.
pub type Epoch = u64;

/// An object's number: the tag of its kind in the top byte, and its index below.
#[derive(Clone, Copy, Debug, PartialEq, Eq, PartialOrd, Ord)]
pub struct Oid(pub u32);

/// What a node does.
#[derive(Clone, Copy, Debug, PartialEq, Eq, PartialOrd, Ord)]
pub enum Role {
    Unit,
    Layout,
    Seqr,
    Client,
}

/// A node's name: by role, and then by number.
#[derive(Clone, Copy, Debug, PartialEq, Eq, PartialOrd, Ord)]
pub struct NodeId {
    pub role: Role,
    pub num: u16,
}

/// The number of a proposal in Paxos: by round, and then by client.
#[derive(Clone, Copy, PartialEq, Eq, PartialOrd, Ord)]
pub struct Ballot {
    pub round: u32,
    pub client: u16,
}

impl Oid {
    /// Which of both has the lesser number.
    pub fn compare(self, other: Oid) -> Ordering
        ensures { result ≡ oid_cmp self other }
    {
        self.cmp(&other)
    }

    /// Whether both are the same object.
    pub fn is_same(self, other: Oid) -> bool
        ensures { IsTrue result ↔ (self ≡ other) }
    {
        self == other
    }
}

impl NodeId {
    /// Which of both stands first.
    pub fn compare(self, other: NodeId) -> Ordering
        ensures { result ≡ node_cmp self other }
    {
        self.cmp(&other)
    }

    /// Whether both are the same node.
    pub fn is_same(self, other: NodeId) -> bool
        ensures value { result ≡ node_eq self other }
        ensures same { IsTrue result ↔ (self ≡ other) }
    {
        self == other
    }
}

impl Ballot {
    /// Which of both is the lesser.
    pub fn compare(self, other: Ballot) -> Ordering
        ensures { result ≡ ballot_cmp self other }
    {
        self.cmp(&other)
    }

    /// Whether both are the same ballot.
    pub fn is_same(self, other: Ballot) -> bool
        ensures value { result ≡ ballot_eq self other }
        ensures same { IsTrue result ↔ (self ≡ other) }
    {
        self == other
    }
}
