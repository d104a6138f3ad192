//! When a gate is asked: once by each worker before its first turn, and before each turn inside the node's lock.

use crate::tests::threads::{add, checks, fault, whole};
use crossbeam_utils::CachePadded;
use group_task::NodeId;
use node_core::Timer;
use node_lock::{Gate, OperatorOrder, Plans, Worker};
use node_threads::ThreadsFault;
use std::alloc::{AllocError, Global};
use std::process::Abort;
use std::sync::atomic::{AtomicU64, Ordering};

/// How often a worker inside a lock looks whether another one is there.
const LOOKS: u64 = 10_000_000;

/// Counts how often each worker of a node reaches it, and lets all pass.
#[derive(Drop)]
struct Reached {
    intake: CachePadded<AtomicU64>,
    clock: CachePadded<AtomicU64>,
    operator: CachePadded<AtomicU64>,
}

impl Gate for Reached {
    fn reach(&self, _node: NodeId, worker: Worker) -> bool {
        let count: &AtomicU64 = match worker {
            Worker::Intake => &self.intake,
            Worker::Clock => &self.clock,
            Worker::Operator => &self.operator,
        };
        count.fetch_add(1, Ordering::SeqCst);
        true
    }

    fn pass(&self, _node: NodeId, _worker: Worker, _index: u64) -> bool {
        true
    }
}

// The clock has three turns, and the others have none.
#[test]
fn each_worker_reaches_once(rt: HostRuntime) {
    let mut plans = Vec::new(rt.alloc());
    add(&rt, &mut plans, checks(rt.alloc(), 3));
    let gate = Reached {
        intake: CachePadded::new(AtomicU64::new(0)),
        clock: CachePadded::new(AtomicU64::new(0)),
        operator: CachePadded::new(AtomicU64::new(0)),
    };
    let whole = whole(&rt, rt.alloc(), &plans, &gate);
    assert_eq!(rt; whole.histories.len(), 1);
    for count in [&gate.intake, &gate.clock, &gate.operator] {
        let count: &AtomicU64 = count;
        assert_eq!(rt; count.load(Ordering::SeqCst), 1);
    }
}

/// Shut for one worker before its first turn, and for none afterwards.
#[derive(Drop)]
struct ShutAtFirst {
    worker: Worker,
}

impl Gate for ShutAtFirst {
    fn reach(&self, _node: NodeId, worker: Worker) -> bool {
        worker != self.worker
    }

    fn pass(&self, _node: NodeId, _worker: Worker, _index: u64) -> bool {
        true
    }
}

#[test]
fn refused_before_its_first_turn(rt: HostRuntime) {
    let mut plans = Vec::new(rt.alloc());
    add(&rt, &mut plans, checks(rt.alloc(), 1));
    for worker in [Worker::Intake, Worker::Clock, Worker::Operator] {
        let gate = ShutAtFirst { worker };
        assert!(rt; fault(&rt, rt.alloc(), &plans, &gate) == Some(ThreadsFault::GateShut));
    }
}

/// Counts who is inside the lock of a node, and how often two were. All workers wait for one another before their first turns.
#[derive(Drop)]
struct Inside {
    workers: u64,
    come: CachePadded<AtomicU64>,
    inside: CachePadded<AtomicU64>,
    clashes: CachePadded<AtomicU64>,
}

impl Inside {
    /// Stays until another one is seen, or for so many looks.
    fn stay(&self) {
        let inside: &AtomicU64 = &self.inside;
        for _look in 0..LOOKS {
            if 1 < inside.load(Ordering::SeqCst) {
                let clashes: &AtomicU64 = &self.clashes;
                clashes.fetch_add(1, Ordering::SeqCst);
                return;
            }
        }
    }
}

impl Gate for Inside {
    fn reach(&self, _node: NodeId, _worker: Worker) -> bool {
        let come: &AtomicU64 = &self.come;
        come.fetch_add(1, Ordering::SeqCst);
        crate::tests::threads::wait_for(come, self.workers)
    }

    fn pass(&self, _node: NodeId, _worker: Worker, _index: u64) -> bool {
        let inside: &AtomicU64 = &self.inside;
        inside.fetch_add(1, Ordering::SeqCst);
        self.stay();
        inside.fetch_sub(1, Ordering::SeqCst);
        true
    }
}

/// The plan of a node whose clock fires Check and whose operator arms its disk, each twice.
fn two_workers(alloc: Global) -> Result<Plans, AllocError> {
    let clock = vec![in alloc; Timer::Check; 2]?;
    let mut operator = Vec::new(alloc);
    operator.push(OperatorOrder::Arm(1000))?;
    operator.push(OperatorOrder::Arm(1000))?;
    Ok(Plans::new(Vec::new(alloc), clock, operator))
}

// A gate that is asked outside of the lock sees two workers of one node at once.
#[test]
fn one_inside_the_lock(rt: HostRuntime) {
    let mut plans = Vec::new(rt.alloc());
    add(&rt, &mut plans, two_workers(rt.alloc()));
    let gate = Inside {
        workers: 3,
        come: CachePadded::new(AtomicU64::new(0)),
        inside: CachePadded::new(AtomicU64::new(0)),
        clashes: CachePadded::new(AtomicU64::new(0)),
    };
    let whole = whole(&rt, rt.alloc(), &plans, &gate);
    for history in whole.histories.iter() {
        assert_eq!(rt; history.len(), 4);
    }
    let clashes: &AtomicU64 = &gate.clashes;
    assert_eq!(rt; clashes.load(Ordering::SeqCst), 0);
}
