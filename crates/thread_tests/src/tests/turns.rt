//! Turns at locked nodes, in one thread.

ghost use Rattle.std.specs.Prelude.{◌≡◌, ◌<◌, ◌-◌, [], ◌∷◌, IfOk, vec_len};

use group_task::NodeId;
use histories::{HistoryEvent, NoOpKind};
use link_ring::{LinkLog, PutEnd, TakeEnd, link};
use node_core::{Event, Timer};
use node_lock::{
    Gate, Held, HeldFault, HeldParts, Loss, NodeLock, Plans, Run, TurnFault, TurnLog, TurnNumbers,
    Worker,
};
use node_threads::Gathered;
use std::alloc::{AllocError, Global};
use std::io::Print;
use std::process::Abort;
use threads_console::order_of;
use wire_msg::{Body, Message};

/// The only node of a run, which checks so often.
fn alone(alloc: Global, checks: usize) -> Result<Held, AllocError> {
    let run = Run {
        node: NodeId::numbered(0),
        nodes: 1,
        slots: 4,
        capacity: 0,
    };
    let clock = vec![in alloc; Timer::Check; checks]?;
    let plans = Plans::new(Vec::new(alloc), clock, Vec::new(alloc));
    let numbers = TurnNumbers::new(alloc)?;
    Held::new(alloc, run, Vec::new(alloc), Vec::new(alloc), plans, numbers)
}

/// A list of one.
fn one<T: Drop>(alloc: Global, item: T) -> Result<Vec<T>, AllocError>
    ensures { IfOk result (λ list. list.items ≡ item ∷ []) }
{
    let mut list = Vec::new(alloc);
    list.push(item)?;
    Ok(list)
}

/// One of two nodes, which polls the other so often, and whose clock fires Check so often.
fn paired(
    alloc: Global,
    node: u8,
    polls: usize,
    checks: usize,
    capacity: usize,
    ends: (PutEnd, TakeEnd),
    numbers: TurnNumbers,
) -> Result<Held, AllocError>
    requires within { node < 2 }
    requires put { (ends.0.sender ≡ node) × (ends.0.receiver ≡ 1 - node) × (ends.0.capacity ≡ capacity) × (ends.0.messages ≡ []) }
    requires take { (ends.1.sender ≡ 1 - node) × (ends.1.receiver ≡ node) × (ends.1.messages ≡ []) }
    requires none_drawn { numbers.drawn ≡ [] }
{
    let run = Run {
        node: NodeId::numbered(node),
        nodes: 2,
        slots: 4,
        capacity,
    };
    let intake = vec![in alloc; NodeId::numbered(1 - node); polls]?;
    let clock = vec![in alloc; Timer::Check; checks]?;
    let plans = Plans::new(intake, clock, Vec::new(alloc));
    let (put, take) = ends;
    Held::new(
        alloc,
        run,
        one(alloc, put)?,
        one(alloc, take)?,
        plans,
        numbers,
    )
}

/// What node 1 asks node 0.
fn question() -> Message {
    Message::between(
        NodeId::numbered(1),
        NodeId::numbered(0),
        Body::AreYouCoordinator,
    )
}

/// The first of two nodes, which polls the other once, and then its clock fires Check. The question of the other lies in the ring.
fn asked(alloc: Global) -> Result<Held, AllocError> {
    let (put, _) = link(alloc, NodeId::numbered(0), NodeId::numbered(1), 2)?;
    let (mut asking, take) = link(alloc, NodeId::numbered(1), NodeId::numbered(0), 2)?;
    asking.reserve(1)?;
    let _ = asking.put(question());
    let numbers = TurnNumbers::new(alloc)?;
    paired(alloc, 0, 1, 1, 2, (put, take), numbers)
}

/// The same, asked for once more where there was no memory.
fn asked_again(rt: &impl Abort, alloc: Global) -> Held {
    match asked(alloc) {
        Ok(held) => held,
        Err(_) => asked(alloc).expect(rt, "memory for a node"),
    }
}

/// What node 0 tells node 1.
fn from_first(body: Body) -> Message {
    Message::between(NodeId::numbered(0), NodeId::numbered(1), body)
}

/// A turn of a worker. One that is refused for want of memory is made again.
fn next<R: Abort + Print>(rt: &R, held: &mut Held, worker: Worker) -> Result<bool, HeldFault> {
    let before = held.turns(worker);
    for _ in 0..9 {
        match held.next(worker) {
            Err(HeldFault::NoMemory) => {}
            taken => return taken,
        }
        let _ = println!(rt; "refused");
        assert_eq!(rt; held.turns(worker), before);
    }
    Err(HeldFault::NoMemory)
}

/// Takes so many turns of a worker.
fn take<R: Abort + Print>(rt: &R, held: &mut Held, worker: Worker, turns: usize) {
    for _ in 0..turns {
        assert!(rt; next(rt, held, worker) == Ok(true));
    }
}

/// What came of the turn at this place, where it is that of this worker and has this number in its plan.
pub(crate) fn came(
    history: &TurnLog,
    place: usize,
    worker: Worker,
    index: u64,
) -> Option<HistoryEvent> {
    let entry = history.entry(place)?;
    if entry.worker == worker && entry.index == index {
        Some(entry.what)
    } else {
        None
    }
}

/// Expects this polled message, or none, at this place and of this number in the intake's plan.
fn expect_polled(
    rt: &impl Abort,
    history: &TurnLog,
    place: usize,
    index: u64,
    found: Option<Message>,
) {
    let what = match found {
        Some(message) => HistoryEvent::Did(Event::Deliver(message)),
        None => HistoryEvent::NoOp(NoOpKind::Nothing),
    };
    assert!(rt; came(history, place, Worker::Intake, index) == Some(what));
}

/// Whether this message stands at this place.
fn is_at(messages: &LinkLog, place: usize, message: Message) -> bool {
    messages.get(place) == Some(message)
}

/// Expects that this message was taken from the links, and no other one.
fn expect_taken(rt: &impl Abort, takes: &[TakeEnd], message: Message) {
    for end in takes.iter() {
        assert_eq!(rt; end.messages().len(), 1);
        assert!(rt; is_at(end.messages(), 0, message));
    }
}

/// Shuts from the turn of this number on.
#[derive(Drop)]
struct Until {
    first: u64,
}

impl Gate for Until {
    fn reach(&self, _node: NodeId, _worker: Worker) -> bool {
        true
    }

    fn pass(&self, _node: NodeId, _worker: Worker, index: u64) -> bool {
        index < self.first
    }
}

#[test]
fn gate_shuts(rt: HostRuntime) {
    let lock = NodeLock::new(alone(rt.alloc(), 2).expect(&rt, "memory for a node"));
    let open = Until { first: 9 };
    let shut = Until { first: 1 };
    assert!(rt; lock.turn(&rt, Worker::Clock, &shut) == Ok(true));
    assert!(rt; lock.turn(&rt, Worker::Clock, &shut) == Err(TurnFault::GateShut));
    assert!(rt; lock.turn(&rt, Worker::Clock, &open) == Ok(true));
    // not asked where the plan is used up
    assert!(rt; lock.turn(&rt, Worker::Clock, &shut) == Ok(false));
    assert_eq!(rt; lock.into_held().into_parts().history.len(), 2);
}

/// Expects that the message was taken from its ring once, and what is answered and asked is put once.
fn expect_answered_once(rt: &impl Abort, parts: &HeldParts) {
    expect_polled(rt, &parts.history, 0, 0, Some(question()));
    assert!(rt;
        came(&parts.history, 1, Worker::Clock, 0)
            == Some(HistoryEvent::Did(Event::Timer(Timer::Check)))
    );
    assert!(rt; parts.waiting.is_none());
    expect_taken(rt, &parts.takes, question());
    for end in parts.puts.iter() {
        assert_eq!(rt; end.messages().len(), 2);
        assert!(rt; is_at(end.messages(), 0, from_first(Body::Coordinator(true))));
        assert!(rt; is_at(end.messages(), 1, from_first(Body::AreYouCoordinator)));
    }
}

/// In a run of this test by itself no turn is refused; `tests/hostile/refused_tried.py` runs it again and again, and each time refuses one
/// allocation more.
#[test]
fn refused_next(rt: HostRuntime) {
    let mut held = asked_again(&rt, rt.alloc());
    take(&rt, &mut held, Worker::Intake, 1);
    take(&rt, &mut held, Worker::Clock, 1);
    let parts = held.into_parts();
    assert_eq!(rt; parts.history.len(), 2);
    expect_answered_once(&rt, &parts);
}

/// Two nodes, whose links have one slot. The first one asks three times, the second one polls twice.
fn asking(alloc: Global) -> Result<(Held, Held), AllocError> {
    let (put, their_take) = link(alloc, NodeId::numbered(0), NodeId::numbered(1), 1)?;
    let (their_put, take) = link(alloc, NodeId::numbered(1), NodeId::numbered(0), 1)?;
    let mut numbers = TurnNumbers::new(alloc)?;
    let first = paired(alloc, 0, 0, 3, 1, (put, take), numbers.try_clone()?)?;
    let second = paired(alloc, 1, 2, 0, 1, (their_put, their_take), numbers)?;
    Ok((first, second))
}

/// What was gathered of two histories.
fn of_two(alloc: Global, first: TurnLog, second: TurnLog) -> Result<Gathered, AllocError>
    ensures { IfOk result (λ run. vec_len run.histories ≡ 2) }
{
    let mut histories = one(alloc, first)?;
    histories.push(second)?;
    Ok(Gathered {
        histories,
        links: Vec::new(alloc),
    })
}

/// The second question is lost, since the first still is on the link: so the second one that comes is the third, though all are equal.
#[test]
fn order_names_what_was_not_lost(rt: HostRuntime) {
    let (mut first, mut second) = asking(rt.alloc()).expect(&rt, "memory for two nodes");
    take(&rt, &mut first, Worker::Clock, 2);
    take(&rt, &mut second, Worker::Intake, 1);
    take(&rt, &mut first, Worker::Clock, 1);
    take(&rt, &mut second, Worker::Intake, 1);
    let run = of_two(
        rt.alloc(),
        first.into_parts().history,
        second.into_parts().history,
    )
    .expect(&rt, "memory for a run");
    let lost = Loss {
        turn: 1,
        message: 0,
    };
    assert!(rt; run.histories[0].losses() == [lost].as_slice());
    assert!(rt; run.histories[1].losses() == [lost].as_slice());
    assert!(rt; run.histories[0].failures() == 0);
    let order = order_of(rt.alloc(), &run).expect(&rt, "memory for an order");
    let order = order.expect(&rt, "an order");
    let nodes = [0, 0, 1, 0, 1];
    let messages = [None, None, Some(0), None, Some(3)];
    assert_eq!(rt; order.nodes.len(), 5);
    assert_eq!(rt; order.messages.len(), 5);
    for turn in 0..5 {
        assert!(rt; order.nodes.get(turn).map(|node| node.number()) == Some(nodes[turn]));
        assert!(rt; order.messages.get(turn) == Some(&messages[turn]));
    }
}
