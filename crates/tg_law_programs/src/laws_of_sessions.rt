//! What holds of nodes that each take their own inputs.

ghost use Rattle.tg_kind.specs.Of.{meaning_of};
ghost use Rattle.tg_law_programs.specs.Sessions.Sessions.{SessionsMakeARun};
ghost use Rattle.tg_law_programs.specs.Sessions.Holding.{SessionsReach, StoreSessionsHold};
ghost use Rattle.tg_law_programs.specs.Sessions.Nodes.{NodesHold};
ghost use Rattle.tg_law_programs.specs.Sessions.Whole.{SessionIsNode};

use tg_kind::Registry;

/// Nodes that each take their own inputs make a run. Let each node of a header have its session: ticks,
/// packets that come to it, and commands to a client. Take all their steps in one order that keeps each
/// session's own and in which a packet is sent before it is taken. Then there are events, one for each step,
/// by which a world has sent those packets and told those replies in that order; and each of its nodes, with
/// the packets and the replies of that node, is what its session gives by itself.
pub fn sessions_make_a_run<K: Registry>()
    ensures { SessionsMakeARun (meaning_of K.Registry) }
{}

/// Where the header keeps its rules, the commands are lawful and each session has 200,000 steps at most, that world is one to
/// which a run of lawful events comes: a header declares 119 nodes at most, so all sessions have together no more steps than a
/// run may.
pub fn sessions_reach<K: Registry>()
    ensures { SessionsReach (meaning_of K.Registry) }
{}

/// So in the store what is told there holds, as in the world of each run.
pub fn store_sessions_hold()
    ensures { StoreSessionsHold }
{}

/// What one node does over a text is a session of its own: its state, the packets that it sends and its replies are
/// those that the session of all its inputs gives by itself, line after line, and a reply's event says nothing more.
pub fn sessions_are_nodes()
    ensures { SessionIsNode }
{}

/// So nodes that follow texts of one header, each in a process of its own and to its end, to a refused line or to a limit,
/// make a run of the store that holds; and there each node, the packets that it sent and its replies are those of its own
/// session. Commands are lawful since lines of a script ask them, and steps are few since a limit stops a node.
pub fn nodes_hold()
    ensures { NodesHold }
{}
