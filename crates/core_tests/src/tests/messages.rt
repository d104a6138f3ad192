use group_task::{GroupNo, Members, NODES, NodeId, share};
use job_model::{Payload, Queue, Work};
use std::alloc::{AllocError, Global};
use std::process::Abort;
use wire_msg::*;

pub(crate) const MESSAGES: usize = 20;

/// One message of each kind, and both answers of a coordinator, in the order of the kinds; and then some that name node 64,
/// and some Work with a priority.
pub(crate) fn message(place: usize) -> Option<Message> {
    let [zero, one, two] = [
        NodeId::numbered(0),
        NodeId::numbered(1),
        NodeId::numbered(2),
    ];
    let high = NodeId::numbered(64);
    let group = GroupNo::numbered(zero, 2);
    match place {
        0 => Message::new(two, zero, Body::AreYouCoordinator),
        1 => Message::new(zero, two, Body::Coordinator(true)),
        2 => Message::new(zero, two, Body::Coordinator(false)),
        3 => Message::new(two, zero, Body::AreYouThere(group)),
        4 => Message::new(zero, two, Body::Here(group, false)),
        5 => Message::new(zero, one, Body::Invitation(group)),
        6 => Message::new(one, zero, Body::Accept(group)),
        7 => Message::new(zero, one, ready(group, one)?),
        8 => Message::new(one, zero, Body::ReadyAck(group)),
        9 => Message::new(zero, one, work(group, 0, 0, b"hi")?),
        10 => Message::new(one, zero, Body::Done(0)),
        11 => Message::new(two, high, Body::AreYouCoordinator),
        12 => Message::new(high, two, Body::Coordinator(true)),
        13 => Message::new(one, zero, Body::Accept(GroupNo::numbered(high, 2))),
        14 => Message::new(zero, one, ready(group, high)?),
        15 => Message::new(zero, high, work(group, 0, 0, b"hi")?),
        16 => Message::new(zero, one, work(group, 1, 7, b"b")?),
        17 => Message::new(zero, one, work(group, 0, 1, b"hi")?),
        18 => Message::new(zero, high, work(group, 0, 255, b"hi")?),
        _ => Message::new(zero, one, work(group, 0, 255, b"")?),
    }
}

fn ready(group: GroupNo, other: NodeId) -> Option<Body> {
    let mut members = Members::new();
    members.insert(other);
    members.insert(group.creator());
    if !members.contains(group.creator()) {
        return None;
    }
    Some(Body::Ready(share(group, members)))
}

fn work(group: GroupNo, id: u64, priority: u8, payload: &[u8]) -> Option<Body> {
    Some(Body::Work {
        group,
        id,
        work: Work {
            queue: Queue::new(1)?,
            priority,
            payload: Payload::new(payload)?,
        },
    })
}

/// The spelling of each of these messages.
pub(crate) fn spelling(place: usize) -> &'static [u8] {
    match place {
        0 => b"\x01\x01\x02\x00\x00\x00".as_slice(),
        1 => b"\x01\x02\x00\x02\x00\x01\x01".as_slice(),
        2 => b"\x01\x02\x00\x02\x00\x01\x00".as_slice(),
        3 => b"\x01\x03\x02\x00\x00\x09\x00\x00\x00\x00\x00\x00\x00\x00\x02".as_slice(),
        4 => b"\x01\x04\x00\x02\x00\x0a\x00\x00\x00\x00\x00\x00\x00\x00\x02\x00".as_slice(),
        5 => b"\x01\x05\x00\x01\x00\x09\x00\x00\x00\x00\x00\x00\x00\x00\x02".as_slice(),
        6 => b"\x01\x06\x01\x00\x00\x09\x00\x00\x00\x00\x00\x00\x00\x00\x02".as_slice(),
        7 => b"\x01\x07\x00\x01\x00\x0c\x00\x00\x00\x00\x00\x00\x00\x00\x02\x02\x00\x01".as_slice(),
        8 => b"\x01\x08\x01\x00\x00\x09\x00\x00\x00\x00\x00\x00\x00\x00\x02".as_slice(),
        9 =>
            b"\x01\x09\x00\x01\x00\x16\x00\x00\x00\x00\x00\x00\x00\x00\x02\x00\x00\x00\x00\x00\x00\x00\x00\x01\x00\x02\x68\x69".as_slice(),
        10 => b"\x01\x0a\x01\x00\x00\x08\x00\x00\x00\x00\x00\x00\x00\x00".as_slice(),
        11 => b"\x02\x01\x02\x40\x00\x00".as_slice(),
        12 => b"\x02\x02\x40\x02\x00\x01\x01".as_slice(),
        13 => b"\x02\x06\x01\x00\x00\x09\x40\x00\x00\x00\x00\x00\x00\x00\x02".as_slice(),
        14 =>
            b"\x02\x07\x00\x01\x00\x0c\x00\x00\x00\x00\x00\x00\x00\x00\x02\x02\x00\x40".as_slice(),
        15 =>
            b"\x02\x09\x00\x40\x00\x16\x00\x00\x00\x00\x00\x00\x00\x00\x02\x00\x00\x00\x00\x00\x00\x00\x00\x01\x00\x02\x68\x69".as_slice(),
        16 =>
            b"\x01\x0b\x00\x01\x00\x16\x00\x00\x00\x00\x00\x00\x00\x00\x02\x00\x00\x00\x00\x00\x00\x00\x01\x01\x07\x00\x01\x62".as_slice(),
        17 =>
            b"\x01\x0b\x00\x01\x00\x17\x00\x00\x00\x00\x00\x00\x00\x00\x02\x00\x00\x00\x00\x00\x00\x00\x00\x01\x01\x00\x02\x68\x69".as_slice(),
        18 =>
            b"\x02\x0b\x00\x40\x00\x17\x00\x00\x00\x00\x00\x00\x00\x00\x02\x00\x00\x00\x00\x00\x00\x00\x00\x01\xff\x00\x02\x68\x69".as_slice(),
        _ =>
            b"\x01\x0b\x00\x01\x00\x15\x00\x00\x00\x00\x00\x00\x00\x00\x02\x00\x00\x00\x00\x00\x00\x00\x00\x01\xff\x00\x00".as_slice(),
    }
}

/// What is no message, and why.
fn non_message(place: usize) -> (&'static [u8], &'static str) {
    match place {
        0 => (
            b"\x01\x01\x00\x00\x00\x00".as_slice(),
            "the sender is the receiver",
        ),
        1 => (
            b"\x01\x01\x40\x00\x00\x00".as_slice(),
            "sender 64 in version 1",
        ),
        2 => (b"\x01\x02\x00\x02\x00\x01\x02".as_slice(), "truth 2"),
        3 => (
            b"\x01\x06\x00\x01\x00\x09\x00\x00\x00\x00\x00\x00\x00\x00\x00".as_slice(),
            "count 0",
        ),
        4 => (
            b"\x01\x01\x02\x00\x00\x00\x00".as_slice(),
            "a byte behind the body",
        ),
        5 => (
            b"\x02\x01\x02\x00\x00\x00".as_slice(),
            "version 2 with ids below 64 alone",
        ),
        6 => (b"\x02\x01\x80\x00\x00\x00".as_slice(), "sender 128"),
        7 => (
            b"\x01\x06\x01\x00\x00\x09\x40\x00\x00\x00\x00\x00\x00\x00\x02".as_slice(),
            "creator 64 in version 1",
        ),
        8 => (
            b"\x01\x07\x00\x01\x00\x0c\x00\x00\x00\x00\x00\x00\x00\x00\x02\x02\x00\x40".as_slice(),
            "member 64 in version 1",
        ),
        9 => (b"\x03\x01\x02\x40\x00\x00".as_slice(), "version 3"),
        10 => (
            b"\x01\x0b\x00\x01\x00\x17\x00\x00\x00\x00\x00\x00\x00\x00\x02\x00\x00\x00\x00\x00\x00\x00\x00\x01\x00\x00\x02\x68\x69".as_slice(),
            "kind 0b with priority 0",
        ),
        11 => (
            b"\x01\x0b\x00\x01\x00\x16\x00\x00\x00\x00\x00\x00\x00\x00\x02\x00\x00\x00\x00\x00\x00\x00\x00\x01\x00\x02\x68\x69".as_slice(),
            "kind 0b without a priority",
        ),
        12 => (
            b"\x01\x09\x00\x01\x00\x17\x00\x00\x00\x00\x00\x00\x00\x00\x02\x00\x00\x00\x00\x00\x00\x00\x00\x01\x01\x00\x02\x68\x69".as_slice(),
            "kind 09 with a priority",
        ),
        _ => (b"\x01\x0c\x00\x01\x00\x00".as_slice(), "kind 0c"),
    }
}

#[test]
fn vectors(rt: HostRuntime) {
    let mut again = Vec::new(rt.alloc());
    for place in 0..MESSAGES {
        let message = message(place).expect(&rt, "a message");
        let bytes = encode(rt.alloc(), &message).expect(&rt, "memory");
        assert_eq!(rt; bytes.as_slice(), spelling(place), "{place} is written");
        encode_into(&mut again, &message).expect(&rt, "memory");
        assert_eq!(rt;
            again.as_slice(),
            spelling(place),
            "{place} is written again"
        );
        assert!(rt; decode(spelling(place)) == Ok(message), "{place} is read");
    }
}

#[test]
fn non_messages(rt: HostRuntime) {
    for place in 0..14usize {
        let (bytes, why) = non_message(place);
        assert!(rt; decode(bytes) == Err(WireFault::Malformed), "{why}");
    }
}

/// The longest body is that of a Work with a priority and 400 bytes: 421 bytes.
#[test]
fn longest_work(rt: HostRuntime) {
    let [zero, one] = [NodeId::numbered(0), NodeId::numbered(1)];
    let body = work(GroupNo::numbered(zero, 2), 0, 9, &[0xa5; 400]).expect(&rt, "a work");
    let message = Message::between(zero, one, body);
    let bytes = encode(rt.alloc(), &message).expect(&rt, "memory");
    assert_eq!(rt; bytes.len(), 427);
    assert_eq!(rt; &bytes[..6], b"\x01\x0b\x00\x01\x01\xa5".as_slice());
    assert_eq!(rt; &bytes[23..27], b"\x01\x09\x01\x90".as_slice());
    assert!(rt; decode(&bytes) == Ok(message));
}

/// All of the spellings, one behind the other.
pub(crate) fn all_spellings(alloc: Global) -> Result<Vec<u8>, AllocError> {
    let mut bytes = Vec::new(alloc);
    for place in 0..MESSAGES {
        bytes.extend_from_slice(spelling(place))?;
    }
    Ok(bytes)
}

/// A task of all nodes is told in 138 bytes, and its whole spelling has six more.
#[test]
fn task_of_all_nodes(rt: HostRuntime) {
    let [zero, one] = [NodeId::numbered(0), NodeId::numbered(1)];
    let all = Members::below(NODES);
    assert!(rt; all.contains(zero));
    let task = share(GroupNo::numbered(zero, 2), all);
    let message = Message::between(zero, one, Body::Ready(task));
    let bytes = encode(rt.alloc(), &message).expect(&rt, "memory");
    assert_eq!(rt; bytes.len(), 144);
    assert_eq!(rt; &bytes[..6], b"\x02\x07\x00\x01\x00\x8a".as_slice());
    assert_eq!(rt; bytes[143], 127);
    assert!(rt; decode(&bytes) == Ok(message));
}

pub(crate) fn expect_all(rt: &impl Abort, out: &[Message]) {
    assert_eq!(rt; out.len(), MESSAGES);
    for (place, given) in out.iter().enumerate() {
        assert!(rt; Some(*given) == message(place), "{place}");
    }
}

#[test]
fn cut_at_each_place(rt: HostRuntime) {
    let bytes = all_spellings(rt.alloc()).expect(&rt, "memory");
    for cut in 0..=bytes.len() {
        let mut stream = Stream::new(rt.alloc());
        let mut out = Vec::new(rt.alloc());
        let (front, back) = bytes.split_at(cut);
        stream.feed(front, &mut out).expect(&rt, "messages");
        stream.feed(back, &mut out).expect(&rt, "messages");
        expect_all(&rt, &out);
        assert_eq!(rt; stream.rest(), 0);
    }
}

#[test]
fn byte_by_byte(rt: HostRuntime) {
    let bytes = all_spellings(rt.alloc()).expect(&rt, "memory");
    let mut stream = Stream::new(rt.alloc());
    let mut out = Vec::new(rt.alloc());
    for byte in bytes.iter() {
        stream.feed(&[*byte], &mut out).expect(&rt, "messages");
    }
    expect_all(&rt, &out);
    assert_eq!(rt; stream.rest(), 0);
}

#[test]
fn rest_and_malformed(rt: HostRuntime) {
    let mut stream = Stream::new(rt.alloc());
    let mut out = Vec::new(rt.alloc());
    stream.feed(spelling(7), &mut out).expect(&rt, "a message");
    stream.feed(b"\x01\x01\x02", &mut out).expect(&rt, "a part");
    assert_eq!(rt; out.len(), 1);
    assert_eq!(rt; stream.rest(), 3);
    assert!(rt;
        stream.feed(b"\x02\x00\x00\x01\x01\x02\x00\x00\x00", &mut out) == Err(WireFault::Malformed)
    );
    assert_eq!(rt; out.len(), 1);
    assert_eq!(rt; stream.rest(), 0);
    assert!(rt; stream.feed(spelling(0), &mut out) == Err(WireFault::Malformed));
    assert_eq!(rt; out.len(), 1);
}
