//! After the run: what the locks give back.

ghost use Rattle.std.specs.Prelude.{◌≡◌, ◌≤◌, ◌<◌, ◌↔◌, IfOk, IsTrue, true, length};
ghost use Rattle.group_task.specs.declared.node.TheConstants.{NODES};
ghost use Rattle.node_lock.specs.declared.held.TheConstants.{MOST_ENTRIES};
ghost use Rattle.node_lock.specs.declared.worker.Worker.{Worker};
ghost use Rattle.node_lock.specs.Planned.{plan_len, turns_of};
ghost use Rattle.node_threads.specs.Nodes.{run_at};
ghost use Rattle.node_threads.specs.Ended.{AreEnded, HasEnded};
ghost use Rattle.node_threads.specs.Reasons.{planned, FirstFit, IsReason};

use crate::ends::Left;
use crate::fault::ThreadsFault;
use crate::size::RunSize;
use crate::workers::Stopped;
use group_task::NodeId;
use node_lock::{Gate, Held, MOST_ENTRIES, NodeLock, Plans, Run, TurnFault, TurnLog, Worker};
use std::alloc::Global;
use std::vec::IntoIter;

/// What all locks give back: the history of each node, and the ends of its links.
pub(crate) fn take_all(
    alloc: Global,
    size: RunSize,
    locks: Vec<NodeLock>,
    plans: &[Plans],
) -> Result<(Vec<TurnLog>, Vec<Left>), ThreadsFault>
    requires nodes { (length plans.now ≡ size.nodes) × (size.nodes ≤ NODES) }
    ensures { IfOk result (λ r. AreEnded size plans.now r.0.items r.1.items) }
{
    let mut histories = Vec::new(alloc);
    let mut left = Vec::new(alloc);
    let mut locks = locks.into_iter();
    for node in 0..plans.len() {
        let lock = locks.next().ok_or(ThreadsFault::Unpaired)?;
        let run = size.run(NodeId::numbered(node as u8));
        let (history, ends) = take_out(lock, run, &plans[node])?;
        let (Ok(()), Ok(())) = (histories.reserve(1), left.reserve(1)) else {
            return Err(ThreadsFault::NoMemory);
        };
        histories.push_reserved(history);
        left.push_reserved(ends);
    }
    Ok((histories, left))
}

/// What is left of a node, where it is this node of this run, has these plans, and its workers have taken all their turns.
fn take_out(lock: NodeLock, run: Run, plan: &Plans) -> Result<(TurnLog, Left), ThreadsFault>
    ensures { IfOk result (λ r. HasEnded run plan.now r.0 r.1) }
{
    let held = lock.into_held();
    if held.run() != run || !is_ended(&held) {
        return Err(ThreadsFault::Unpaired);
    }
    let parts = held.into_parts();
    if !same_plans(&parts.plans, plan) {
        return Err(ThreadsFault::Unpaired);
    }
    Ok((parts.history, Left::new(parts.puts, parts.takes)))
}

/// Whether both have the same turns for each worker.
fn same_plans(some: &Plans, others: &Plans) -> bool
    ensures { IsTrue result ↔ (some.now ≡ others.now) }
{
    some == others
}

/// Whether each worker has taken all its turns.
fn is_ended(held: &Held) -> bool
    ensures { result ≡ true → (w : Worker) → plan_len held.now.plans w ≤ turns_of held.now.turns w }
{
    held.is_used_up(Worker::Intake)
        && held.is_used_up(Worker::Clock)
        && held.is_used_up(Worker::Operator)
}

/// Why a run wasn't gathered in which this worker was the first that stopped early. What the worker said is compared with what the
/// locks give back: where these say otherwise the answer is `Unpaired`.
pub(crate) fn reason_of<G: Gate + Send>(
    size: RunSize,
    locks: Vec<NodeLock>,
    plans: &[Plans],
    stopped: Stopped<G>,
) -> ThreadsFault
    requires nodes { (length plans.now ≡ size.nodes) × (size.nodes ≤ NODES) }
    ensures { IsReason G.may_shut plans.now result }
{
    let node = usize::from(stopped.node.number());
    let mut locks = locks.into_iter();
    if plans.len() <= node || !have_ended(size, node, &mut locks, plans) {
        return ThreadsFault::Unpaired;
    }
    match stopped.fault {
        TurnFault::NoMemory => ThreadsFault::NoMemory,
        TurnFault::GateShut => ThreadsFault::GateShut,
        TurnFault::HistoryFull => {
            let run = size.run(stopped.node);
            let Some(lock) = locks.next() else {
                return ThreadsFault::Unpaired;
            };
            if is_full(lock, run, &plans[node], stopped.worker) {
                ThreadsFault::Unfinished(stopped.node, stopped.worker)
            } else {
                ThreadsFault::Unpaired
            }
        }
    }
}

/// Whether the workers of each of the first nodes have taken all their turns.
fn have_ended(size: RunSize, nodes: usize, locks: &mut IntoIter<NodeLock>, plans: &[Plans]) -> bool
    requires nodes { (length plans.now ≡ size.nodes) × (size.nodes ≤ NODES) }
    requires within { nodes ≤ length plans.now }
    ensures { IsTrue result → FirstFit nodes plans.now }
{
    for node in 0..nodes {
        let Some(lock) = locks.next() else {
            return false;
        };
        let run = size.run(NodeId::numbered(node as u8));
        let Ok((_history, _ends)) = take_out(lock, run, &plans[node]) else {
            return false;
        };
    }
    true
}

/// Whether the lock holds this node of this run, with these plans, its history is full, and this worker has turns left.
fn is_full(lock: NodeLock, run: Run, plan: &Plans, worker: Worker) -> bool
    ensures { IsTrue result → (MOST_ENTRIES < planned plan.now) × (0 < plan_len plan.now worker) }
{
    let held = lock.into_held();
    if held.run() != run {
        return false;
    }
    if held.is_used_up(worker) {
        return false;
    }
    let parts = held.into_parts();
    if parts.history.len() < MOST_ENTRIES {
        return false;
    }
    same_plans(&parts.plans, plan)
}
