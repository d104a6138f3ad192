//! Events of a node over its disk that are refused for want of memory and made again. In a run of this test by itself there is memory, and no event
//! is refused; `tests/hostile/refused_tried.py` runs it again and again, and each time refuses one allocation more.
use durable_node::{DurableNode, StepReport};
use group_task::{GroupNo, Members, NodeId, Task};
use job_model::{Payload, Queue, Work};
use node_core::{Event, Phase, Timer};
use sector_disk::MemDisk;
use std::alloc::Global;
use std::io::Print;
use std::process::Abort;
use wire_msg::{Body, Message};

/// Node 0 of two, opened once more where there was no memory.
fn opened(rt: &impl Abort, alloc: Global) -> DurableNode<MemDisk> {
    let id = NodeId::numbered(0);
    match DurableNode::open(alloc, id, 2, 4) {
        Ok(node) => node,
        Err(_) => DurableNode::open(alloc, id, 2, 4).expect(rt, "memory for a node"),
    }
}

/// What node 1 tells node 0.
fn told(body: Body) -> Event {
    Event::Deliver(Message::between(NodeId::numbered(1), NodeId::numbered(0), body))
}

fn submitted(rt: &impl Abort, queue: u8, priority: u8, bytes: &[u8]) -> Event {
    Event::Submit(Work {
        queue: Queue::new(queue).expect(rt, "a queue"),
        priority,
        payload: Payload::new(bytes).expect(rt, "a payload"),
    })
}

/// An election, a job that is handed over and done, and one that isn't.
fn first_life(rt: &impl Abort) -> [Event; 10] {
    let group = GroupNo::numbered(NodeId::numbered(0), 2);
    [
        Event::Timer(Timer::Check),
        told(Body::Coordinator(true)),
        Event::Timer(Timer::Merge),
        told(Body::Accept(group)),
        Event::Timer(Timer::Accept),
        told(Body::ReadyAck(group)),
        submitted(rt, 1, 7, b"hi"),
        told(Body::Done(0)),
        submitted(rt, 0, 0, b"a"),
        Event::Timer(Timer::Dispatch),
    ]
}

/// After a crash.
fn second_life() -> [Event; 4] {
    [
        Event::Recover,
        told(Body::AreYouCoordinator),
        Event::Timer(Timer::Check),
        Event::Timer(Timer::Dispatch),
    ]
}

/// What is known of a node: its phase, its group, its task and who accepted, and the count, the next id and the number of jobs that its disk keeps.
type Known = (
    Phase,
    GroupNo,
    Option<Task>,
    Members,
    Option<(u64, u64, usize)>,
);

fn known(node: &DurableNode<MemDisk>) -> Known {
    let group_state = &node.vector().group_state;
    let kept = match node.durable() {
        Some((count, table)) => Some((count, table.next(), table.pending().len())),
        None => None,
    };
    (
        group_state.phase,
        group_state.group,
        group_state.task,
        group_state.up,
        kept,
    )
}

/// An event. One that is refused for want of memory changes nothing, and is made again.
fn step<R: Abort + Print>(rt: &R, node: &mut DurableNode<MemDisk>, event: &Event) -> StepReport {
    let before = known(node);
    if let Ok(came) = node.step(event) {
        return came;
    }
    let _ = println!(rt; "refused");
    assert!(rt; known(node) == before);
    node.step(event).expect(rt, "memory for an event")
}

/// Events at two nodes, of which one at most is refused one. Whether they still go the same way: where a disk finds no memory for its own record,
/// that is a fault of the device, and no refusal.
fn take<R: Abort + Print>(
    rt: &R,
    node: &mut DurableNode<MemDisk>,
    twin: &mut DurableNode<MemDisk>,
    events: &[Event],
) -> bool {
    for event in events {
        let came = step(rt, node, event);
        let other = step(rt, twin, event);
        if came.fault() != other.fault() {
            return false;
        }
        assert!(rt; came.event_outcome == other.event_outcome && came.answer == other.answer);
        assert!(rt; came.sent == other.sent);
        assert!(rt; known(node) == known(twin));
    }
    true
}

#[test]
fn refused_step(rt: HostRuntime) {
    let mut node = opened(&rt, rt.alloc());
    let mut twin = opened(&rt, rt.alloc());
    if take(&rt, &mut node, &mut twin, &first_life(&rt)) {
        node.crash(b"");
        twin.crash(b"");
        if take(&rt, &mut node, &mut twin, &second_life()) {
            let (phase, group, _, _, kept) = known(&node);
            assert!(rt; phase == Phase::Normal && group.creator().number() == 0);
            assert_eq!(rt; (group.count(), kept), (3, Some((3, 2, 1))));
        }
    }
}
