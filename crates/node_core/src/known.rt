ghost use Rattle.std.specs.Prelude.{◌≡◌, nat_lt};
ghost use Rattle.std.specs.List.{list_all};
ghost use Rattle.node_core.specs.Refusals.{is_known, ids_in};

use crate::node_view::NodeView;
use group_task::{Members, NodeId};
use wire_msg::{Body, Message};

/// Whether a message is for this node, and names nodes of the cluster alone.
pub fn is_known(node_view: &NodeView<'_>, message: &Message) -> bool
    ensures { result ≡ is_known node_view.now.nodes node_view.now.id message.now }
{
    message.receiver().is(node_view.id)
        && message.sender().number() < node_view.nodes
        && names_known(node_view.nodes, message.body())
}

fn names_known(nodes: u8, body: &Body) -> bool
    ensures { result ≡ list_all (λ id. nat_lt id nodes) (ids_in body.now) }
{
    if let Body::Ready(task) = body {
        return task.group().creator().number() < nodes && all_known(nodes, task.members());
    }
    match body.group() {
        Some(group) => group.creator().number() < nodes,
        None => true,
    }
}

/// Whether the nodes of a set are all among so many.
fn all_known(nodes: u8, members: Members) -> bool
    ensures { result ≡ list_all (λ id. nat_lt id nodes) members }
{
    match NodeId::new(nodes) {
        Some(limit) => members.are_below(limit),
        None => {
            let _ = members.len();
            true
        }
    }
}
