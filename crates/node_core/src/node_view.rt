ghost use Rattle.std.specs.Prelude.{◌≤◌};
ghost use Rattle.group_task.specs.declared.node.TheConstants.{NODES};
ghost use Rattle.node_core.specs.State.{state_of};
ghost use Rattle.node_core.specs.Consistent.{IsConsistent};

use crate::vector::Vector;
use group_task::NodeId;

/// The node that an event comes to: its id, the number of nodes, and what it knows.
#[derive(Drop)]
pub struct NodeView<'a> {
    pub id: NodeId,
    pub nodes: u8,
    pub vector: &'a Vector,
    pub ghost limit: { nodes ≤ NODES },
    pub ghost consistent: { IsConsistent nodes id (state_of vector.now) },
}
