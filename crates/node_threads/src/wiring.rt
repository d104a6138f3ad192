//! Before the run: the links of each pair of nodes, and a lock round each node.

ghost use Rattle.std.specs.Prelude.{◌≡◌, ◌≢◌, ◌+◌, ◌≤◌, ◌<◌, IfOk, OnOk, length, vec_len};
ghost use Rattle.group_task.specs.declared.node.TheConstants.{NODES};
ghost use Rattle.node_threads.specs.Nodes.{PollOthers};
ghost use Rattle.node_threads.specs.Wired.{AddedEnds, AreHeld, AreUnlinked, AreWired, AreWiredBelow};

use crate::ends::Ends;
use crate::size::RunSize;
use group_task::NodeId;
use link_ring::{PutEnd, TakeEnd, link};
use node_lock::{Held, NodeLock, Plans, TurnNumbers};
use std::alloc::{AllocError, Global};
use std::mem;

/// A link for each ordered pair of different nodes.
#[tactic(auto, using(crate::proofs::Links::unlinked_wired))]
pub(crate) fn wire(alloc: Global, nodes: u8, capacity: usize) -> Result<Vec<Ends>, AllocError>
    requires { nodes ≤ NODES }
    ensures { IfOk result (λ ends. AreWired nodes capacity ends.items) }
{
    let mut ends = unlinked(alloc, nodes)?;
    for sender in 0..nodes {
        wire_sender(alloc, nodes, capacity, sender, &mut ends)?;
    }
    Ok(ends)
}

/// So many nodes with no links.
#[tactic(auto, using(crate::proofs::Links::none_unlinked, crate::proofs::Links::unlinked_pushed))]
fn unlinked(alloc: Global, nodes: u8) -> Result<Vec<Ends>, AllocError>
    ensures { IfOk result (λ ends. AreUnlinked nodes ends.items) }
{
    let mut ends = Vec::new(alloc);
    for _node in 0..nodes {
        ends.push(Ends::new(alloc))?;
    }
    Ok(ends)
}

/// A link from one node to each other one.
fn wire_sender(
    alloc: Global,
    nodes: u8,
    capacity: usize,
    sender: u8,
    ends: &mut Vec<Ends>,
) -> Result<(), AllocError>
    requires within { (sender < nodes) × (nodes ≤ NODES) }
    requires wired { AreWiredBelow nodes capacity sender ends.old.items }
    ensures { OnOk result (AreWiredBelow nodes capacity (sender + 1) ends.new.items) }
{
    for receiver in 0..nodes {
        if receiver != sender {
            let (put, take) = link(
                alloc,
                NodeId::numbered(sender),
                NodeId::numbered(receiver),
                capacity,
            )?;
            add_ends(sender as usize, receiver as usize, put, take, ends)?;
        }
    }
    Ok(())
}

/// The two ends of a link are added at their nodes.
fn add_ends(
    sender: usize,
    receiver: usize,
    put: PutEnd,
    take: TakeEnd,
    ends: &mut Vec<Ends>,
) -> Result<(), AllocError>
    requires { (sender < vec_len ends.old) × (receiver < vec_len ends.old) × (receiver ≢ sender) }
    ensures { OnOk result (AddedEnds sender receiver put take ends.old.items ends.new.items) }
{
    ends[sender].add_put(put)?;
    ends[receiver].add_take(take)
}

/// Each node, which has just opened, with its ends and its plans. All draw the numbers of their turns from one counter.
pub(crate) fn hold_nodes(
    alloc: Global,
    size: RunSize,
    mut ends: Vec<Ends>,
    plans: &[Plans],
) -> Result<Vec<Held>, AllocError>
    requires nodes { (length plans.now ≡ size.nodes) × (size.nodes ≤ NODES) }
    requires slots { (4 ≤ size.slots) × (size.slots ≤ 4096) }
    requires polls { PollOthers plans.now }
    requires wired { AreWired size.nodes size.capacity ends.items }
    // Promise: All nodes of a run draw the numbers of their turns from one counter.
    // Refuses: each_node_has_its_own_numbers.
    ensures { IfOk result (λ held. AreHeld (length plans.now) held.items) }
{
    let mut numbers = TurnNumbers::new(alloc)?;
    let mut nodes = Vec::new(alloc);
    for node in 0..plans.len() {
        let mine = mem::replace(&mut ends[node], Ends::new(alloc));
        let run = size.run(NodeId::numbered(node as u8));
        let plan = plans[node].try_clone(alloc)?;
        let held = Held::new(
            alloc,
            run,
            mine.puts,
            mine.takes,
            plan,
            numbers.try_clone()?,
        )?;
        nodes.push(held)?;
    }
    Ok(nodes)
}

/// A lock round each of these nodes.
pub(crate) fn lock_nodes(alloc: Global, held: Vec<Held>) -> Result<Vec<NodeLock>, AllocError>
    ensures { IfOk result (λ locks. vec_len locks ≡ vec_len held) }
{
    let count = held.len();
    let mut locks = Vec::new(alloc);
    let mut nodes = held.into_iter();
    for _node in 0..count {
        let node = nodes.next().ok_or(AllocError)?;
        locks.push(NodeLock::new(node))?;
    }
    Ok(locks)
}
