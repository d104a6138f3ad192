//! Whole runs, on real threads.

ghost use Rattle.std.specs.Prelude.{◌≡◌, ◌≤◌, IfSome, length};
ghost use Rattle.group_task.specs.declared.node.TheConstants.{NODES};
ghost use Rattle.node_threads.specs.Nodes.{PollOthers};

use crate::tests::judged::is_run;
use crate::tests::turns::came;
use crossbeam_utils::CachePadded;
use group_task::{NODES, NodeId};
use histories::HistoryEvent;
use link_ring::LinkEnd;
use node_core::{Event, Timer};
use node_lock::{Gate, MOST_ENTRIES, Plans, TurnLog, Worker};
use node_threads::{Gathered, RunSize, ThreadsFault, poll_others, run_threads};
use std::alloc::{AllocError, Global};
use std::process::Abort;
use std::sync::Wait;
use std::sync::atomic::{AtomicU64, Ordering};
use std::thread::Threads;
use wire_msg::Message;

/// How often a gate looks at most before it gives up.
const LOOKS: u64 = 1_000_000_000;

/// The size of a run of these plans, on disks of four slots, with room for four messages on each link.
fn size_for(plans: &[Plans]) -> Option<RunSize>
    ensures { IfSome result (λ size. (length plans.now ≡ size.nodes) × (size.nodes ≤ NODES) × (4 ≤ size.slots) × (size.slots ≤ 4096) × PollOthers plans.now) }
{
    if plans.len() <= usize::from(NODES) && poll_others(plans) {
        Some(RunSize {
            nodes: plans.len() as u8,
            slots: 4,
            capacity: 4,
        })
    } else {
        None
    }
}

/// A run of these plans.
fn run<R: Threads + Wait + Sync + Abort, G: Gate + Send>(
    rt: &R,
    alloc: Global,
    plans: &[Plans],
    gate: &G,
) -> Result<Gathered, ThreadsFault> {
    let size = size_for(plans).expect(rt, "plans of a run");
    run_threads(rt, alloc, size, plans, gate)
}

/// A run of these plans, which is gathered: some order of its entries is a run.
pub(crate) fn whole<R: Threads + Wait + Sync + Abort, G: Gate + Send>(
    rt: &R,
    alloc: Global,
    plans: &[Plans],
    gate: &G,
) -> Gathered {
    let whole = run(rt, alloc, plans, gate).ok().expect(rt, "a whole run");
    assert!(rt; is_run(rt, alloc, &whole));
    whole
}

/// Why a run of these plans isn't gathered.
pub(crate) fn fault<R: Threads + Wait + Sync + Abort, G: Gate + Send>(
    rt: &R,
    alloc: Global,
    plans: &[Plans],
    gate: &G,
) -> Option<ThreadsFault> {
    run(rt, alloc, plans, gate).err()
}

/// The plan of a node whose clock fires Check so often, and that does nothing else.
pub(crate) fn checks(alloc: Global, turns: usize) -> Result<Plans, AllocError> {
    let clock = vec![in alloc; Timer::Check; turns]?;
    Ok(Plans::new(Vec::new(alloc), clock, Vec::new(alloc)))
}

/// The plan of a node whose intake polls node 0 once, and that does nothing else.
fn one_poll(alloc: Global) -> Result<Plans, AllocError> {
    let intake = vec![in alloc; NodeId::numbered(0); 1]?;
    Ok(Plans::new(intake, Vec::new(alloc), Vec::new(alloc)))
}

/// Adds the plan of one more node.
pub(crate) fn add(rt: &impl Abort, plans: &mut Vec<Plans>, plan: Result<Plans, AllocError>) {
    plans
        .push(plan.expect(rt, "memory for a plan"))
        .expect(rt, "memory for plans");
}

/// As many nodes, each of which checks so often.
fn checking(rt: &impl Abort, alloc: Global, nodes: usize, turns: usize) -> Vec<Plans> {
    let mut plans = Vec::new(alloc);
    for _node in 0..nodes {
        add(rt, &mut plans, checks(alloc, turns));
    }
    plans
}

/// Whether so many have come, looked at again and again.
pub(crate) fn wait_for(flag: &AtomicU64, many: u64) -> bool {
    for _look in 0..LOOKS {
        if many <= flag.load(Ordering::SeqCst) {
            return true;
        }
    }
    false
}

/// Each node raises its flag inside its lock, and waits there for the flag of the other one.
#[derive(Drop)]
struct Meeting {
    first: CachePadded<AtomicU64>,
    second: CachePadded<AtomicU64>,
}

impl Gate for Meeting {
    fn reach(&self, _node: NodeId, _worker: Worker) -> bool {
        true
    }

    fn pass(&self, node: NodeId, _worker: Worker, _index: u64) -> bool {
        let first: &AtomicU64 = &self.first;
        let second: &AtomicU64 = &self.second;
        if node.number() == 0 {
            first.store(1, Ordering::SeqCst);
            wait_for(second, 1)
        } else {
            second.store(1, Ordering::SeqCst);
            wait_for(first, 1)
        }
    }
}

/// Expects one turn, in which the clock fired Check.
fn expect_check(rt: &impl Abort, history: &TurnLog) {
    assert_eq!(rt; history.len(), 1);
    assert!(rt;
        came(history, 0, Worker::Clock, 0) == Some(HistoryEvent::Did(Event::Timer(Timer::Check)))
    );
}

/// Expects a link that carried one message, which wasn't taken.
fn expect_put_alone(rt: &impl Abort, link: &LinkEnd) {
    assert_eq!(rt; link.put.len(), 1);
    assert_eq!(rt; link.taken.len(), 0);
}

/// Expects that each of two nodes checked once, and that its question lies in the ring.
fn expect_checks(rt: &impl Abort, whole: &Gathered) {
    assert_eq!(rt; whole.histories.len(), 2);
    for history in whole.histories.iter() {
        expect_check(rt, history);
    }
    assert_eq!(rt; whole.links.len(), 2);
    for link in whole.links.iter() {
        expect_put_alone(rt, link);
    }
}

// One thread for all, or one lock for all nodes, would leave each waiting in vain.
#[test]
fn nodes_meet_inside_their_locks(rt: HostRuntime) {
    let plans = checking(&rt, rt.alloc(), 2, 1);
    let gate = Meeting {
        first: CachePadded::new(AtomicU64::new(0)),
        second: CachePadded::new(AtomicU64::new(0)),
    };
    expect_checks(&rt, &whole(&rt, rt.alloc(), &plans, &gate));
}

/// All workers wait for one another before their first turns.
#[derive(Drop)]
struct Assembly {
    workers: u64,
    come: CachePadded<AtomicU64>,
}

impl Gate for Assembly {
    fn reach(&self, _node: NodeId, _worker: Worker) -> bool {
        let come: &AtomicU64 = &self.come;
        come.fetch_add(1, Ordering::SeqCst);
        wait_for(come, self.workers)
    }

    fn pass(&self, _node: NodeId, _worker: Worker, _index: u64) -> bool {
        true
    }
}

// One thread for each node would leave it waiting in vain.
#[test]
fn all_workers_meet(rt: HostRuntime) {
    let plans = checking(&rt, rt.alloc(), 2, 1);
    let gate = Assembly {
        workers: 6,
        come: CachePadded::new(AtomicU64::new(0)),
    };
    let whole = whole(&rt, rt.alloc(), &plans, &gate);
    assert_eq!(rt; whole.histories.len(), 2);
}

/// Node 1's first poll waits until node 0's clock begins its second turn.
#[derive(Drop)]
struct PollLater {
    sent: CachePadded<AtomicU64>,
}

impl Gate for PollLater {
    fn reach(&self, _node: NodeId, _worker: Worker) -> bool {
        true
    }

    fn pass(&self, node: NodeId, worker: Worker, index: u64) -> bool {
        let sent: &AtomicU64 = &self.sent;
        match (node.number(), worker, index) {
            (0, Worker::Clock, 1) => {
                sent.store(1, Ordering::SeqCst);
                true
            }
            (1, Worker::Intake, 0) => wait_for(sent, 1),
            _ => true,
        }
    }
}

/// The message that the first turn sent first.
fn sent_first(history: &TurnLog) -> Option<Message> {
    history.entry(0)?.sent.get(0)
}

/// Expects that all that the receiver did was to take what the sender sent first.
fn expect_delivered(rt: &impl Abort, sender: &TurnLog, receiver: &TurnLog) {
    let question = sent_first(sender).expect(rt, "a question");
    assert_eq!(rt; receiver.len(), 1);
    let told = came(receiver, 0, Worker::Intake, 0);
    assert!(rt; told == Some(HistoryEvent::Did(Event::Deliver(question))));
}

#[test]
fn poll_finds_what_was_put(rt: HostRuntime) {
    let mut plans = checking(&rt, rt.alloc(), 1, 2);
    add(&rt, &mut plans, one_poll(rt.alloc()));
    let gate = PollLater {
        sent: CachePadded::new(AtomicU64::new(0)),
    };
    let whole = whole(&rt, rt.alloc(), &plans, &gate);
    let sender = whole.histories.iter().next().expect(&rt, "a history");
    let receiver = whole.histories.iter().last().expect(&rt, "a history");
    expect_delivered(&rt, sender, receiver);
}

/// The clock of node 0 has turns left.
fn unfinished() -> Option<ThreadsFault> {
    Some(ThreadsFault::Unfinished(NodeId::numbered(0), Worker::Clock))
}

/// Shut for the workers of one node.
#[derive(Drop)]
struct Shut {
    node: u8,
    /// Already before their first turns.
    at_once: bool,
}

impl Gate for Shut {
    fn reach(&self, node: NodeId, _worker: Worker) -> bool {
        !self.at_once || node.number() != self.node
    }

    fn pass(&self, node: NodeId, _worker: Worker, _index: u64) -> bool {
        node.number() != self.node
    }
}

#[test]
fn gate_shuts(rt: HostRuntime) {
    let plans = checking(&rt, rt.alloc(), 2, 1);
    for (node, want) in [
        (0, Some(ThreadsFault::GateShut)),
        (1, Some(ThreadsFault::GateShut)),
        (2, None),
    ] {
        for at_once in [false, true] {
            let fault = fault(&rt, rt.alloc(), &plans, &Shut { node, at_once });
            assert!(rt; fault == want, "node {node}");
        }
    }
}

// Node 0 has a turn too many, where the gate isn't shut for it.
#[test]
fn first_of_two_reasons(rt: HostRuntime) {
    let plans = checking(&rt, rt.alloc(), 2, MOST_ENTRIES + 1);
    for (node, want) in [(1, unfinished()), (0, Some(ThreadsFault::GateShut))] {
        let gate = Shut {
            node,
            at_once: true,
        };
        assert!(rt;
            fault(&rt, rt.alloc(), &plans, &gate) == want,
            "node {node}"
        );
    }
}
