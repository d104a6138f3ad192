// The node that an act is reported of, and how much it may take in hand.
ghost use Rattle.std.specs.Prelude.{◌≡◌, ◌<◌, ◌≤◌, ◌+◌, IfOk, length};
ghost use Rattle.node_core.specs.State.{is_down};
ghost use Rattle.cluster_sim.specs.Names.{node_named, node_or_first};
ghost use Rattle.cluster_sim.specs.Cluster.{pending_room};

use durable_node::DurableNode;
use group_task::NodeId;
use node_core::Phase;
use schedule::Act;
use sector_disk::MemDisk;
use sim_net::Net;
use std::alloc::AllocError;

/// How many jobs a node may have in hand after one more step, where its disk has so many slots.
pub(crate) fn hand_room(node: &DurableNode<MemDisk>, slots: u64) -> Result<usize, AllocError>
    ensures { IfOk result (λ room. room ≡ length node.now.state.hand + pending_room slots (is_down node.now.state.phase) node.now.kept + 1) }
{
    let vector = node.vector();
    let pending = match node.durable() {
        Some((_, table)) if !matches!(vector.group_state.phase, Phase::Down) => table
            .pending()
            .len(),
        _ => slots as usize,
    };
    let room = vector
        .hand
        .jobs()
        .len()
        .checked_add(pending)
        .and_then(|room| room.checked_add(1));
    room.ok_or(AllocError)
}

/// The node that an act is reported of.
pub(crate) fn node_named(nodes: u8, net: &Net, act: &Act) -> NodeId
    requires { 1 ≤ nodes }
    ensures named { result ≡ node_named nodes net.now.network.sent act.now }
    ensures within { result < nodes }
{
    match act {
        Act::Deliver(number) => match net.sent().ends(*number as usize) {
            Some(ends) => node_or_first(nodes, ends.1),
            None => NodeId::numbered(0),
        },
        Act::Timer(id, _)
        | Act::Submit(id, _)
        | Act::Finish(id, _, _)
        | Act::Arm(id, _)
        | Act::Crash(id, _)
        | Act::Recover(id)
        | Act::Compact(id) => node_or_first(nodes, *id),
        Act::Lose(_) | Act::Cut(_, _) | Act::Mend(_, _) => NodeId::numbered(0),
    }
}

/// The node, or node 0 where it is none of so many.
fn node_or_first(nodes: u8, id: NodeId) -> NodeId
    requires { 1 ≤ nodes }
    ensures value { result ≡ node_or_first nodes id }
    ensures within { result < nodes }
{
    if id.number() < nodes {
        id
    } else {
        NodeId::numbered(0)
    }
}
