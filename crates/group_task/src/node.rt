ghost use Rattle.std.specs.Prelude.{◌≡◌, ◌<◌, ◌≤◌, ◌↔◌, IsNone, IfSome, IsTrue};
ghost use Rattle.group_task.specs.declared.node.TheConstants.{NODES};

use std::marker::Model;

/// How many nodes a cluster has at most; the identifiers are the numbers below it.
pub const NODES: u8 = 128;

/// The identifier of a node.
///
/// Of coordinators that find one another, the one of the greatest identifier waits least before it
/// merges their groups.
#[derive(Clone, Copy, Debug, PartialEq, Eq, PartialOrd, Ord)]
pub struct NodeId {
    number: u8,
}

impl Model for NodeId {
    ghost use Rattle.std.specs.Prelude.{ℕ, ◌<◌};
    ghost use Rattle.group_task.specs.declared.node.TheConstants.{NODES};

    ghost Value = { ℕ };

    ghost view = { λ a. a.number };

    ghost invariant = { λ a. a.number < NODES };

    ghost inverse = { λ n. record { number = n } };
}

impl NodeId {
    /// The identifier of this number, from input that may hold any byte.
    #[inline]
    pub fn new(number: u8) -> Option<NodeId>
        // Promise: The nodes are the numbers 0 to 127.
        // Also: NodeId::numbered, NodeId::number, NodeId::is.
        // Refuses: greatest_node_refused, node_past_limit_taken, every_node_is_node_0, number_halved, is_another_node.
        ensures value { IfSome result (λ id. id ≡ number) }
        ensures none { IsNone result ↔ (NODES ≤ number) }
    {
        if number < NODES {
            Some(NodeId { number })
        } else {
            None
        }
    }

    /// The identifier of a number that is known to be below the limit.
    #[inline]
    pub fn numbered(number: u8) -> NodeId
        requires { number < NODES }
        ensures { result ≡ number }
    {
        NodeId { number }
    }

    /// The byte by which messages and texts name the node.
    #[inline]
    pub fn number(self) -> u8
        ensures value { result ≡ self }
        ensures below { self < NODES }
    {
        self.number
    }

    /// Whether this is the other node.
    #[inline]
    pub fn is(self, other: NodeId) -> bool
        ensures { IsTrue result ↔ (self ≡ other) }
    {
        self == other
    }
}
