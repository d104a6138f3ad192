//! The threads.

ghost use Rattle.std.specs.Prelude.{◌≡◌, ◌<◌, ◌*◌, ◌%◌, IfErr, IsTrue, length};
ghost use Rattle.node_threads.specs.Reasons.{worker_by};
ghost use Rattle.node_lock.specs.declared.lock.TurnFault.TheVariants.{GateShut};

use group_task::NodeId;
use node_lock::{Gate, NodeLock, TurnFault, Worker};
use std::alloc::{AllocError, Global};
use std::marker::PhantomData;
use std::sync::Wait;
use std::thread;
use std::thread::Threads;

/// The workers of one node.
const WORKERS: usize = 3;

/// A worker that stopped before its plan was used up, and why. Where the gate shut, it is one that may shut for this worker.
#[derive(Drop)]
pub(crate) struct Stopped<G: Gate> {
    pub(crate) node: NodeId,
    pub(crate) worker: Worker,
    pub(crate) fault: TurnFault,
    by: PhantomData<G>,
    ghost shut: { fault ≡ GateShut → IsTrue (G.may_shut node worker) },
}

fn worker_at(place: usize) -> Worker
    // Promise: The workers of a node stand in this order: intake, clock, operator. A worker that stopped is told as itself.
    // Also: work, unstarted.
    // Refuses: operator_before_intake, another_worker_named.
    ensures { result ≡ worker_by (place % 3) }
{
    match place % WORKERS {
        0 => Worker::Intake,
        1 => Worker::Clock,
        _ => Worker::Operator,
    }
}

/// Takes the worker's turns until its plan is used up.
fn work<R: Wait, G: Gate + Send>(
    rt: &R,
    locks: &[NodeLock],
    place: usize,
    gate: &G,
) -> Result<(), Stopped<G>>
    requires { place < 3 * length locks.now }
    ensures { IfErr result (λ stopped. stopped.worker ≡ worker_by (place % 3)) }
{
    let worker = worker_at(place);
    let lock = &locks[place / WORKERS];
    let node = lock.node;
    if !gate.reach(node, worker) {
        return Err(Stopped {
            node,
            worker,
            fault: TurnFault::GateShut,
            by: PhantomData,
        });
    }
    for _ in rt.forever() {
        match lock.turn(rt, worker, gate) {
            Ok(true) => {}
            Ok(false) => return Ok(()),
            Err(fault) => {
                return Err(Stopped {
                    node,
                    worker,
                    fault,
                    by: PhantomData,
                });
            }
        }
    }
    unreachable!()
}

/// Runs all workers, each in a thread of its own. Of those that stopped early the first one counts.
pub(crate) fn run_workers<R: Threads + Wait + Sync, G: Gate + Send>(
    rt: &R,
    alloc: Global,
    locks: &[NodeLock],
    gate: &G,
) -> Result<Option<Stopped<G>>, AllocError> {
    thread::scope(
        thread::scope_env(),
        rt,
        move |scope| -> Result<Option<Stopped<G>>, AllocError> {
            let mut threads = Vec::new(alloc);
            threads.reserve(WORKERS * locks.len())?;
            for place in 0..WORKERS * locks.len() {
                let started = scope.spawn(
                    move || -> Result<(), Stopped<G>>
                        requires { place < 3 * length locks.now }
                    { work(rt, locks, place, gate) },
                );
                threads.push(started.ok())?;
            }
            let mut first = None;
            let mut threads = threads.into_iter();
            for place in 0..WORKERS * locks.len() {
                let ended = match threads.next() {
                    Some(Some(thread)) => thread.join(rt),
                    _ => Err(unstarted(locks, place)),
                };
                if let (None, Err(stopped)) = (&first, ended) {
                    first = Some(stopped);
                }
            }
            Ok(first)
        },
    )
}

/// A worker whose thread couldn't be made.
fn unstarted<G: Gate + Send>(locks: &[NodeLock], place: usize) -> Stopped<G>
    requires { place < 3 * length locks.now }
    ensures { result.worker ≡ worker_by (place % 3) }
{
    Stopped {
        node: locks[place / WORKERS].node,
        worker: worker_at(place),
        fault: TurnFault::NoMemory,
        by: PhantomData,
    }
}
