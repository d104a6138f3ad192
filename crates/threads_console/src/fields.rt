//! The nodes that fields of lines name.

ghost use Rattle.std.specs.Prelude.{◌≡◌, ◌≢◌, ◌≤◌, ◌<◌, IfSome};
ghost use Rattle.schedule.specs.Fields.{number_below};
ghost use Rattle.group_task.specs.declared.node.TheConstants.{NODES};
ghost use Rattle.threads_console.specs.Turns.{other_of};

use group_task::NodeId;
use schedule::fields::node;

/// The node that a word names in a cluster of so many.
pub fn member(nodes: u8, word: &[u8]) -> Option<NodeId>
    requires { nodes ≤ NODES }
    ensures value { result ≡ number_below nodes word.now }
    ensures fits { IfSome result (λ node. node < nodes) }
{
    let node = node(word)?;
    if node.number() < nodes {
        Some(node)
    } else {
        None
    }
}

/// The node that a word names, where it is another one than `own`.
pub fn other(nodes: u8, own: NodeId, word: &[u8]) -> Option<NodeId>
    requires { nodes ≤ NODES }
    ensures value { result ≡ other_of nodes own word.now }
    ensures fits { IfSome result (λ node. (own ≢ node) × (node < nodes)) }
{
    let node = member(nodes, word)?;
    if node.number() == own.number() {
        None
    } else {
        Some(node)
    }
}
