//! Links between two nodes.

use group_task::{GroupNo, NodeId};
use job_model::{Payload, Queue, Work};
use link_ring::{LinkEnd, LinkLog, PutEnd, TakeEnd, Unpaired, gather, link};
use std::alloc::Global;
use std::process::Abort;
use wire_msg::{Body, Message};

/// A message of node 0 to node 1 about the job of this id: the job itself where the id is divisible by 3, and else that it is done. So
/// long messages and short ones go over a link by turns.
fn about(id: u64) -> Message {
    let body = if id % 3 == 0 {
        work(id)
    } else {
        Body::Done(id)
    };
    Message::between(NodeId::numbered(0), NodeId::numbered(1), body)
}

/// The job of this id, for a member of node 0's first group.
fn work(id: u64) -> Body {
    Body::Work {
        group: GroupNo::numbered(NodeId::numbered(0), 1),
        id,
        work: Work {
            queue: Queue::new(3).unwrap(),
            priority: 0,
            payload: Payload::new(b"hi").unwrap(),
        },
    }
}

/// A link from node 0 to node 1.
fn link_of(rt: &impl Abort, alloc: Global, capacity: usize) -> (PutEnd, TakeEnd) {
    link(alloc, NodeId::numbered(0), NodeId::numbered(1), capacity).expect(rt, "memory for a link")
}

/// Puts the message of this job, and expects that the ring takes it.
fn put(rt: &impl Abort, end: &mut PutEnd, id: u64) {
    end.reserve(1).expect(rt, "memory for a message");
    assert!(rt; end.put(about(id)).is_none(), "message {id}");
}

/// Puts the message of this job, and expects it back.
fn put_in_vain(rt: &impl Abort, end: &mut PutEnd, id: u64) {
    end.reserve(1).expect(rt, "memory for a message");
    assert!(rt; end.put(about(id)) == Some(about(id)), "message {id}");
}

/// Expects the message of this job.
fn take(rt: &impl Abort, end: &mut TakeEnd, id: u64) {
    end.reserve(1).expect(rt, "memory for a message");
    assert!(rt; end.take() == Some(about(id)), "message {id}");
}

/// Expects no message.
fn take_in_vain(rt: &impl Abort, end: &mut TakeEnd) {
    end.reserve(1).expect(rt, "memory for a message");
    assert!(rt; end.take().is_none());
}

/// Whether the message at this place is that of this job.
fn is_about(messages: &LinkLog, place: usize, id: u64) -> bool {
    messages.get(place) == Some(about(id))
}

/// Expects the messages of these jobs, in this order.
fn expect_about(rt: &impl Abort, messages: &LinkLog, ids: &[u64]) {
    assert_eq!(rt; messages.len(), ids.len());
    for (place, id) in ids.iter().enumerate() {
        assert!(rt; is_about(messages, place, *id), "message {place}");
    }
}

/// What is done at an end of a link, with the message of a job, or which messages the end lists.
#[derive(Clone, Copy)]
enum Step {
    Put(u64),
    PutInVain(u64),
    Take(u64),
    TakeInVain,
    HasPut(&'static [u64]),
    HasTaken(&'static [u64]),
}

fn walk_step(rt: &impl Abort, put_end: &mut PutEnd, take_end: &mut TakeEnd, step: Step) {
    match step {
        Step::Put(id) => put(rt, put_end, id),
        Step::PutInVain(id) => put_in_vain(rt, put_end, id),
        Step::Take(id) => take(rt, take_end, id),
        Step::TakeInVain => take_in_vain(rt, take_end),
        Step::HasPut(ids) => expect_about(rt, put_end.messages(), ids),
        Step::HasTaken(ids) => expect_about(rt, take_end.messages(), ids),
    }
}

/// Goes these steps over a link of so many slots, and gives its ends.
fn walk(rt: &impl Abort, alloc: Global, capacity: usize, steps: &[Step]) -> (PutEnd, TakeEnd) {
    let (mut put_end, mut take_end) = link_of(rt, alloc, capacity);
    for step in steps {
        walk_step(rt, &mut put_end, &mut take_end, *step);
    }
    (put_end, take_end)
}

/// Expects the messages of these jobs, and that the link is from node 0 to node 1.
fn expect_gathered(rt: &impl Abort, link: &LinkEnd, put: &[u64], taken: &[u64]) {
    assert_eq!(rt; link.sender.number(), 0);
    assert_eq!(rt; link.receiver.number(), 1);
    expect_about(rt, &link.put, put);
    expect_about(rt, &link.taken, taken);
}

#[test]
fn ends_of_two_links(rt: HostRuntime) {
    let (first_put, first_take) = walk(&rt, rt.alloc(), 3, &[Step::Put(1)]);
    let steps = [Step::Put(2), Step::Take(2)];
    let (second_put, second_take) = walk(&rt, rt.alloc(), 3, &steps);
    assert!(rt; gather(first_put, second_take).err() == Some(Unpaired));
    let link = gather(second_put, first_take).expect(&rt, "nothing was taken");
    expect_gathered(&rt, &link, &[2], &[]);
}
