//! What a follower of a node is told: of its group, of the jobs that it takes and of those that it drops.
use durable_node::{Changes, DurableNode, Seen};
use group_task::{GroupNo, Members, NodeId};
use job_model::{Payload, Queue, Work};
use node_core::{Event, Phase, Timer};
use sector_disk::MemDisk;
use std::alloc::Global;
use std::process::Abort;
use wire_msg::{Body, Message};

fn seen(rt: &impl Abort, node: &DurableNode<MemDisk>) -> Seen {
    node.seen().expect(rt, "memory to see a node")
}

fn seen_before(rt: &impl Abort, node: &DurableNode<MemDisk>, event: &Event) -> Seen {
    node.seen_before(event)
        .expect(rt, "memory to see a node before an event")
}

fn changes<'a>(rt: &impl Abort, node: &'a DurableNode<MemDisk>, seen: &Seen) -> Changes<'a> {
    node.changes_since(seen)
        .expect(rt, "memory for what changed")
}

fn step(rt: &impl Abort, node: &mut DurableNode<MemDisk>, event: &Event) {
    let came = node.step(event).expect(rt, "memory for an event");
    assert!(rt; came.fault().is_none());
}

/// A job comes to a node that is alone: it keeps it and takes it.
fn take_job(rt: &impl Abort, node: &mut DurableNode<MemDisk>) {
    let work = Work {
        queue: Queue::new(3).expect(rt, "a queue"),
        priority: 0,
        payload: Payload::new(b"hi").expect(rt, "a payload"),
    };
    step(rt, node, &Event::Submit(work));
}

/// Node 1 of two, alone in its group.
fn opened(rt: &impl Abort, alloc: Global) -> DurableNode<MemDisk> {
    DurableNode::open(alloc, NodeId::numbered(1), 2, 8).expect(rt, "memory for a node")
}

#[test]
fn jobs_taken_and_dropped(rt: HostRuntime) {
    let mut node = opened(&rt, rt.alloc());
    let alone = seen(&rt, &node);
    take_job(&rt, &mut node);
    let first = changes(&rt, &node, &alone);
    assert!(rt; first.group.is_none() && first.dropped.is_empty());
    assert_eq!(rt; first.taken.len(), 1);
    for job in &first.taken {
        assert_eq!(rt;
            (job.origin(), job.id(), job.payload()),
            (node.id(), 0, b"hi".as_slice())
        );
    }
    drop(first);
    let busy = seen(&rt, &node);
    take_job(&rt, &mut node);
    step(&rt, &mut node, &Event::Finish(NodeId::numbered(1), 0));
    let second = changes(&rt, &node, &busy);
    assert!(rt; second.group.is_none() && second.taken.len() == 1);
    assert_eq!(rt;
        second.dropped.as_slice(),
        [(NodeId::numbered(1), 0)].as_slice()
    );
}

#[test]
fn seen_before_events(rt: HostRuntime) {
    let mut node = opened(&rt, rt.alloc());
    take_job(&rt, &mut node);
    let question = Event::Deliver(Message::between(
        NodeId::numbered(0),
        NodeId::numbered(1),
        Body::AreYouCoordinator,
    ));
    let asked = seen_before(&rt, &node, &question);
    step(&rt, &mut node, &question);
    let answered = changes(&rt, &node, &asked);
    assert!(rt;
        answered.group.is_none() && answered.taken.is_empty() && answered.dropped.is_empty()
    );
    drop(answered);
    // A node that comes up again has nothing in hand, until it takes what is pending.
    let alone = seen_before(&rt, &node, &Event::Recover);
    step(&rt, &mut node, &Event::Recover);
    let left = changes(&rt, &node, &alone);
    assert_eq!(rt;
        left.dropped.as_slice(),
        [(NodeId::numbered(1), 0)].as_slice()
    );
    drop(left);
    let dispatch = Event::Timer(Timer::Dispatch);
    let waiting = seen_before(&rt, &node, &dispatch);
    step(&rt, &mut node, &dispatch);
    let dispatched = changes(&rt, &node, &waiting);
    assert!(rt; dispatched.group.is_none() && dispatched.dropped.is_empty());
    assert_eq!(rt; dispatched.taken.len(), 1);
}

#[test]
fn groups_told(rt: HostRuntime) {
    let mut node = opened(&rt, rt.alloc());
    take_job(&rt, &mut node);
    let alone = seen(&rt, &node);
    step(&rt, &mut node, &Event::Timer(Timer::Check));
    let found = Message::between(
        NodeId::numbered(0),
        NodeId::numbered(1),
        Body::Coordinator(true),
    );
    step(&rt, &mut node, &Event::Deliver(found));
    assert!(rt; changes(&rt, &node, &alone).group.is_none());
    // Node 0 is below it: it merges without waiting.
    assert_eq!(rt; node.merge_wait(), Some(0));
    step(&rt, &mut node, &Event::Timer(Timer::Merge));
    let merged = changes(&rt, &node, &alone);
    let view = merged.group.expect(&rt, "another group");
    assert_eq!(rt;
        (view.phase, view.coordinator),
        (Phase::Election, node.id())
    );
    assert!(rt; view.group == GroupNo::numbered(node.id(), 2) && view.members == Members::new());
    assert_eq!(rt;
        merged.dropped.as_slice(),
        [(NodeId::numbered(1), 0)].as_slice()
    );
    drop(merged);
    node.crash(b"");
    let fallen = changes(&rt, &node, &alone);
    assert!(rt; node.is_down());
    assert_eq!(rt;
        fallen.group.expect(&rt, "another phase").phase,
        Phase::Down
    );
}
